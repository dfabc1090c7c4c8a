//! `info` on commands.

ghost use Rattle.std.specs.Prelude.{◌≡◌, IfOk, filter, map, slice_get};
ghost use Rattle.std.specs.Option.{option_copied};
ghost use Rattle.txt_core.specs.Picking.{picks};
ghost use Rattle.cmd_table.specs.Table.{command_of};
ghost use Rattle.tcl_eval.specs.Parameters.{parameters};
ghost use Rattle.tcl_eval.specs.declared.parameter.Parameter.{Parameter};
ghost use Rattle.tcl_eval.specs.Info.{names_said, names_picked, args_said, body_said, part_said, info_said};

use crate::engine::Engine;
use crate::message::no_procedure;
use crate::parameter::{Parameter, parameters};
use crate::stack::Ended;
use crate::value::{error, wrong_words};
use crate::words::copy_word;
use cmd_table::Cmd;
use std::alloc::Global;
use tcl_host::{Host, OK};
use tcl_list::quote;
use txt_core::error_text::unknown_subcommand;
use txt_core::{NoMemory, Text, Words, picks};

/// Those names that match a pattern, or all where there is none.
fn picked(alloc: Global, names: &[Text], pattern: Option<&Text>) -> Result<Words, NoMemory>
    ensures { IfOk result (λ found.
        found ≡ filter (picks (option_copied pattern.entry)) names.now) }
{
    let mut found = Words::new(alloc);
    for name in names {
        if picks(pattern, name) {
            found.add(name.copy(alloc)?)?;
        }
    }
    Ok(found)
}

/// The names of parameters.
fn names_of(alloc: Global, parameters: &[Parameter]) -> Result<Words, NoMemory>
    ensures { IfOk result (λ names. names ≡ map (λ (p : Parameter). p.name) parameters.now) }
{
    let mut names = Words::new(alloc);
    for parameter in parameters {
        names.add(parameter.name.copy(alloc)?)?;
    }
    Ok(names)
}

/// What `info args` says of a procedure with these parameters.
fn names_said(alloc: Global, params: &Text) -> Result<Ended, NoMemory>
    ensures { IfOk result (λ value. value ≡ names_said (parameters params.now)) }
{
    match parameters(alloc, params)? {
        Err(message) => error(alloc, message),
        Ok(all) => Ok(Ended {
            code: OK,
            result: quote(alloc, &names_of(alloc, all.as_slice())?)?,
        }),
    }
}

impl<H: Host> Engine<H> {
    /// `info commands ?glob?`.
    fn info_commands(&self, words: &Words) -> Result<Ended, NoMemory>
        ensures { IfOk result (λ value.
            value ≡ names_picked self.now.table.table (slice_get words.now 2)) }
    {
        let names = self.table.names()?;
        let found = picked(self.alloc, names.as_slice(), words.get(2))?;
        Ok(Ended {
            code: OK,
            result: quote(self.alloc, &found)?,
        })
    }

    /// `info args p`.
    fn info_args(&self, name: &Text) -> Result<Ended, NoMemory>
        ensures { IfOk result (λ value.
            value ≡ args_said name.now (command_of self.now.table.table name.now)) }
    {
        match self.table.get(name) {
            Some(Cmd::Proc { params, .. }) => names_said(self.alloc, params),
            _ => error(self.alloc, no_procedure(self.alloc, name.bytes())?),
        }
    }

    /// `info body p`.
    fn info_body(&self, name: &Text) -> Result<Ended, NoMemory>
        ensures { IfOk result (λ value.
            value ≡ body_said name.now (command_of self.now.table.table name.now)) }
    {
        match self.table.get(name) {
            Some(Cmd::Proc { body, .. }) => Ok(Ended {
                code: OK,
                result: body.copy(self.alloc)?,
            }),
            _ => error(self.alloc, no_procedure(self.alloc, name.bytes())?),
        }
    }

    /// A subcommand of `info`; `info exists` is done by `var_command`.
    fn info_part(&self, words: &Words) -> Result<Ended, NoMemory>
        ensures { IfOk result (λ value. value ≡ part_said self.now.table.table words.now) }
    {
        let part = words.bytes_at(1);
        if part == b"commands".as_slice() {
            return self.info_commands(words);
        }
        let name = copy_word(self.alloc, words, 2)?;
        if part == b"args".as_slice() {
            if words.len() != 3 {
                return wrong_words(self.alloc, words);
            }
            return self.info_args(&name);
        }
        if part == b"body".as_slice() {
            if words.len() != 3 {
                return wrong_words(self.alloc, words);
            }
            return self.info_body(&name);
        }
        error(self.alloc, unknown_subcommand(self.alloc, part, b"info")?)
    }

    /// `info commands ?glob?`, `info args p` and `info body p`.
    pub(crate) fn do_info(&self, words: &Words) -> Result<Ended, NoMemory>
        ensures { IfOk result (λ value. value ≡ info_said self.now.table.table words.now) }
    {
        if words.len() != 2 && words.len() != 3 {
            return wrong_words(self.alloc, words);
        }
        self.info_part(words)
    }
}
