//! What a command does.

ghost use Rattle.std.specs.Prelude.{◌≡◌, ◌<◌, ◌≤◌, ◌+◌, ◌++◌, ◌∷◌, [], Option, IfOk, OnOk, OnErr, Some, None, true};
ghost use Rattle.txt_core.specs.Names.{Names};
ghost use Rattle.cmd_table.specs.Commands.{defined};
ghost use Rattle.cmd_table.specs.Renaming.{rename_answer, renamed};
ghost use Rattle.cmd_table.specs.declared.definition.Def.{Def};
ghost use Rattle.natives.specs.Names.{name_of, names_of};
ghost use Rattle.tcl_varcmd.specs.Commands.{begins_var_command, var_came};
ghost use Rattle.tcl_eval.specs.State.{Onward, Next, Rest};
ghost use Rattle.tcl_eval.specs.Eval.{Inner, addressed, nested, write_all, call_proc, call_native, do_proc, do_rename, do_eval, do_catch, catch_end, came_next, arg, define, make, set_global, is_for_host, leaf, onward, built_in, built, act, run_script, unread, stored, stored_of, proc_of, give, error_of};
ghost use Rattle.tcl_eval.specs.Straight.{Alike, Straightly};
ghost use Rattle.tcl_eval.specs.Engine.{Same, Keeps, Holds, HoldsTable, Counts, IsNoPage, Opens, Lower, credit, AskedBy, after_writes};
ghost use Rattle.tcl_eval.specs.Verbs.{IsRunning, ValueOf, made_by};
ghost use Rattle.tcl_eval.specs.Clauses.{ActedIs, ActsAs};
ghost use Rattle.tcl_host.specs.Answers.{RepliesTo};
ghost use Rattle.tcl_eval.specs.declared.stack.Acted.{Acted};
ghost use Rattle.tcl_eval.specs.declared.verb.Verb.{Verb};
ghost use Rattle.tcl_eval.specs.declared.engine.OpenQuestion.{OpenQuestion};

use crate::engine::{Engine, OpenQuestion};
use crate::message::{command_exists, no_command};
use crate::parameter::parameters;
use crate::stack::{Acted, Ended, Frame};
use crate::value::{
    do_break, do_continue, do_error, do_return, done, error, failed, too_long, wrong_words,
};
use crate::verb::{Verb, find_verb};
use crate::words::{behind_name, copy_word, first_word, joined, share_word, with_name};
use cmd_table::{Cmd, Def, Renamed, Steps};
use natives::{Fault, Native, Natives};
use outside::{Question, Service};
use std::alloc::Global;
use std::sync::ledger::Ledger;
use tcl_frame::{VarFault, is_element_name, variable_fault};
use tcl_host::{Host, HostReply, OK};
use tcl_varcmd::is_var_command;
use txt_core::error_text::unknown_command;
use txt_core::{MOST_NESTED, NoMemory, Pairs, Text, Words, is_too_long, write_natural};

/// A question as it is handed out: one for a run inside this one has, behind its words, the depth at
/// which that stands.
fn addressed(alloc: Global, question: Question, levels: u32) -> Result<Question, NoMemory>
    ensures { IfOk result (λ asked. asked ≡ addressed levels question) }
{
    match question.service {
        Service::Inner => {
            let depth = (MOST_NESTED + 1).saturating_sub(levels);
            let Question { service, mut words } = question;
            words.add(write_natural(alloc, depth as u64)?)?;
            Ok(Question { service, words })
        }
        Service::Page | Service::Nsv | Service::Schedule | Service::Publish | Service::Save => Ok(
            question,
        ),
    }
}

/// The definition that `proc` makes. Copies of it share the parameters and the body.
fn proc_of(alloc: Global, words: &Words) -> Result<Def, NoMemory>
    ensures { IfOk result (λ def. def ≡ proc_of words.now) }
{
    Ok(Def::Proc {
        name: copy_word(alloc, words, 1)?,
        params: share_word(alloc, words, 2)?,
        body: share_word(alloc, words, 3)?,
    })
}

/// Whether a definition is a host's to make.
fn is_for_host(def: &Def) -> bool
    ensures { result ≡ is_for_host def.now }
{
    match def {
        Def::Proc { .. } | Def::Rename { .. } => false,
        Def::Route { .. } | Def::Filter { .. } | Def::Cleanup { .. } => true,
        Def::Set { name, value: _ } => !is_element_name(name),
    }
}

#[tactic(auto, using(crate::proofs::Stacks::frees_push))]
impl<H: Host> Engine<H> {
    /// Gives an error with this text.
    pub(crate) fn fails(&self, message: Text) -> Result<Acted, NoMemory>
        ensures { IfOk result (λ acted. acted ≡ Acted.Gives (error_of message)) }
    {
        Ok(Acted::Gives(error(self.alloc, message)?))
    }

    /// Writes a variable, and then this is the result.
    pub(crate) fn store(&mut self, name: &Text, value: Text, after: Text) -> Result<Ended, NoMemory>
        ensures answer { IfOk result (λ x. x ≡ stored_of self.old.frames name.now value after) }
        ensures frames { OnOk result
            (self.new ≡ record self.old { frames = stored self.old.frames name.now value }) }
        ensures holds { Holds self.new self.old }
    {
        if is_too_long(&value) {
            return too_long(self.alloc);
        }
        match self.frames.write(name, value) {
            Ok(()) => Ok(Ended {
                code: OK,
                result: after,
            }),
            Err(VarFault::NoMemory) => Err(NoMemory),
            Err(why) => error(self.alloc, variable_fault(self.alloc, why, name.bytes())?),
        }
    }

    /// Lists a definition as made.
    fn list(&mut self, def: Def) -> Result<(), NoMemory>
        ensures ok { OnOk result (self.new ≡ record self.old { made = self.old.made ++ def ∷ [] }) }
        ensures err { OnErr result (self.new ≡ self.old) }
    {
        self.made.add(def)
    }

    /// Writes a global scalar, which is listed as made; its value is the result.
    fn set_global(&mut self, name: Text, value: Text) -> Result<Ended, NoMemory>
        ensures means { IfOk result (λ answer.
            (names : Names)
            → Same names H.table self.new self.old (give answer) (set_global name value)) }
        ensures keeps { OnOk result (Keeps self.new self.old) }
        ensures holds { HoldsTable self.new self.old }
        ensures kept { OnErr result (self.new.made ≡ self.old.made) }
    {
        if is_too_long(&value) {
            return too_long(self.alloc);
        }
        let result = value.copy(self.alloc)?;
        match self.frames.write_global(&name, value.copy(self.alloc)?) {
            Ok(()) => {
                self.list(Def::Set { name, value })?;
                Ok(Ended { code: OK, result })
            }
            Err(VarFault::NoMemory) => Err(NoMemory),
            Err(why) => error(self.alloc, variable_fault(self.alloc, why, name.bytes())?),
        }
    }

    /// Makes a definition of the host's.
    fn make(&mut self, def: Def) -> Result<Ended, NoMemory>
        requires { is_for_host def ≡ true }
        ensures means { IfOk result (λ value.
            (names : Names) → Same names H.table self.new self.old (give value) (make def)) }
        ensures keeps { OnOk result (Keeps self.new self.old) }
        ensures holds { HoldsTable self.new self.old }
        ensures kept { OnErr result (self.new.made ≡ self.old.made) }
    {
        match def {
            Def::Set { name, value } => {
                let value = self.set_global(name, value)?;
                Ok(value)
            }
            def => {
                self.list(def)?;
                Ok(done(self.alloc))
            }
        }
    }

    /// Makes a definition of the host's, where it is the host's to make.
    fn define_for_host(&mut self, def: Def, words: &Words) -> Result<Ended, NoMemory>
        ensures means { IfOk result (λ value.
            (names : Names)
            → Same names H.table self.new self.old (give value) (define def words.now)) }
        ensures keeps { OnOk result (Keeps self.new self.old) }
        ensures holds { HoldsTable self.new self.old }
        ensures kept { OnErr result (self.new.made ≡ self.old.made) }
    {
        if !is_for_host(&def) {
            let message = unknown_command(self.alloc, words.bytes_at(0))?;
            let refused = error(self.alloc, message)?;
            return Ok(refused);
        }
        let value = self.make(def)?;
        Ok(value)
    }

    /// Stands at a question of the host's, which is open from now on.
    fn ask(&mut self, question: Question, words: Words, levels: u32) -> Result<Acted, NoMemory>
        ensures asked { IfOk result (λ acted. acted ≡ Acted.Asks (addressed levels question)) }
        ensures opened { OnOk result
            (self.new
            ≡ record self.old {
              question = Some
                  (record { service = question.service; words = words; levels = levels });
            }) }
        ensures holds { Holds self.new self.old }
    {
        let question = addressed(self.alloc, question, levels)?;
        self.question = Some(OpenQuestion {
            service: question.service,
            words,
            levels,
        });
        Ok(Acted::Asks(question))
    }

    /// What the host said of a command, or of an answer to its question. Only behind an answer a page is
    /// entered.
    #[inline(never)]
    pub(crate) fn replied(
        &mut self,
        reply: HostReply,
        words: Words,
        levels: u32,
    ) -> Result<Acted, NoMemory>
        ensures means { IfOk result (λ acted.
            (names : Names) (said : Onward H)
            → RepliesTo reply self.old.host said
            → ActedIs names H.table acted self.new self.old
            (onward H.table (nested names H.table levels) words said)) }
        ensures lower { OnOk result (self.new.budget ≤ self.old.budget) }
        ensures credit { OnOk result (IsNoPage reply → credit self.new ≤ credit self.old + 1) }
        ensures opens { IfOk result (λ acted. Opens acted self.new self.old) }
        ensures asks { IfOk result (λ acted. AskedBy acted reply words self.new self.old) }
        ensures holds { HoldsTable self.new self.old }
        ensures kept { OnErr result (self.new.made ≡ self.old.made) }
    {
        match reply {
            HostReply::Done { code, result } => Ok(Acted::Gives(Ended { code, result })),
            HostReply::Define(def) => {
                let value = self.define_for_host(def, &words)?;
                Ok(Acted::Gives(value))
            }
            HostReply::Store {
                name,
                value,
                result,
            } => {
                let value = self.store(&name, value, result)?;
                Ok(Acted::Gives(value))
            }
            HostReply::NotMine => {
                let message = unknown_command(self.alloc, words.bytes_at(0))?;
                Ok(Acted::Gives(error(self.alloc, message)?))
            }
            HostReply::Ask(question) => {
                let acted = self.ask(question, words, levels)?;
                Ok(acted)
            }
            HostReply::Enter(pieces) => {
                let acted = self.enter_page(pieces, levels)?;
                Ok(acted)
            }
            HostReply::NoMemory => Err(NoMemory),
        }
    }

    /// Does a command of the host's.
    #[inline(never)]
    fn call_host(&mut self, words: Words, levels: u32) -> Result<Acted, NoMemory>
        ensures means { IfOk result (λ acted.
            (names : Names)
            → ActedIs names H.table acted self.new self.old (λ k state.
            leaf H.table (nested names H.table levels) words (H.table.calls words state.host) k
            state)) }
        ensures lower { OnOk result (Lower self.new self.old 1) }
        ensures opens { IfOk result (λ acted. Opens acted self.new self.old) }
        ensures holds { HoldsTable self.new self.old }
        ensures kept { OnErr result (self.new.made ≡ self.old.made) }
    {
        let reply = self.host.call(&words);
        let acted = self.replied(reply, words, levels)?;
        Ok(acted)
    }

    /// Makes a procedure, which is listed as made. The list's room is taken first.
    fn make_proc<L: Ledger>(&mut self, words: &Words, steps: &mut Steps<L>) -> Result<(), NoMemory>
        ensures made { OnOk result
            (self.new
            ≡ record self.old
            { table = self.new.table; made = self.old.made ++ proc_of words.now ∷ [] }) }
        ensures table { OnOk result
            (self.new.table.table ≡ defined self.old.table.table (proc_of words.now)) }
        ensures steps { steps.old ≤ steps.new }
        ensures counts { Counts steps.new steps.old self.new self.old }
        ensures kept { OnErr result (self.new.made ≡ self.old.made) }
    {
        let def = proc_of(self.alloc, words)?;
        let count = self.made.len();
        self.list(proc_of(self.alloc, words)?)?;
        match self.table.apply(&def, steps) {
            Ok(()) => Ok(()),
            Err(NoMemory) => {
                self.made.truncate(count);
                Err(NoMemory)
            }
        }
    }

    /// `proc name params body`.
    fn do_proc<L: Ledger>(&mut self, words: &Words, steps: &mut Steps<L>) -> Result<Ended, NoMemory>
        ensures means { IfOk result (λ value.
            (names : Names)
            → Same names H.table self.new self.old (give value) (do_proc words.now)) }
        ensures keeps { OnOk result (Keeps self.new self.old) }
        ensures steps { steps.old ≤ steps.new }
        ensures counts { Counts steps.new steps.old self.new self.old }
        ensures kept { OnErr result (self.new.made ≡ self.old.made) }
    {
        if words.len() != 4 {
            return wrong_words(self.alloc, words);
        }
        let params = copy_word(self.alloc, words, 2)?;
        match parameters(self.alloc, &params)? {
            Err(message) => error(self.alloc, message),
            Ok(_) => {
                self.make_proc(words, steps)?;
                Ok(done(self.alloc))
            }
        }
    }

    /// Renames a command, which is listed as made where it is done. The list's room is taken first.
    fn make_rename<L: Ledger>(
        &mut self,
        old: &Text,
        new: &Text,
        steps: &mut Steps<L>,
    ) -> Result<Renamed, NoMemory>
        ensures answer { IfOk result (λ answer.
            answer ≡ rename_answer self.old.table.table old.now new.now) }
        ensures made { IfOk result (λ answer.
            self.new
            ≡ record self.old {
              table = self.new.table;
              made = made_by answer self.old.made (Def.Rename old.now new.now);
            }) }
        ensures table { OnOk result
            (self.new.table.table ≡ renamed self.old.table.table old.now new.now) }
        ensures steps { steps.old ≤ steps.new }
        ensures counts { Counts steps.new steps.old self.new self.old }
        ensures kept { OnErr result (self.new.made ≡ self.old.made) }
    {
        let def = Def::Rename {
            old: old.copy(self.alloc)?,
            new: new.copy(self.alloc)?,
        };
        let count = self.made.len();
        self.list(def)?;
        match self.table.rename(old, new, steps) {
            Ok(Renamed::Done) => Ok(Renamed::Done),
            Ok(Renamed::NoOld) => {
                self.made.truncate(count);
                Ok(Renamed::NoOld)
            }
            Ok(Renamed::NewExists) => {
                self.made.truncate(count);
                Ok(Renamed::NewExists)
            }
            Err(NoMemory) => {
                self.made.truncate(count);
                Err(NoMemory)
            }
        }
    }

    /// `rename old new`.
    fn do_rename<L: Ledger>(
        &mut self,
        words: &Words,
        steps: &mut Steps<L>,
    ) -> Result<Ended, NoMemory>
        ensures means { IfOk result (λ value.
            (names : Names)
            → Same names H.table self.new self.old (give value) (do_rename words.now)) }
        ensures keeps { OnOk result (Keeps self.new self.old) }
        ensures steps { steps.old ≤ steps.new }
        ensures counts { Counts steps.new steps.old self.new self.old }
        ensures kept { OnErr result (self.new.made ≡ self.old.made) }
    {
        if words.len() != 3 {
            return wrong_words(self.alloc, words);
        }
        let old = copy_word(self.alloc, words, 1)?;
        let new = copy_word(self.alloc, words, 2)?;
        match self.make_rename(&old, &new, steps)? {
            Renamed::NoOld => {
                let refused = error(self.alloc, no_command(self.alloc, old.bytes())?)?;
                Ok(refused)
            }
            Renamed::NewExists => {
                let refused = error(self.alloc, command_exists(self.alloc, new.bytes())?)?;
                Ok(refused)
            }
            Renamed::Done => Ok(done(self.alloc)),
        }
    }

    /// `eval word word*`.
    fn do_eval(&mut self, words: &Words, levels: u32) -> Result<Acted, NoMemory>
        ensures means { IfOk result (λ acted.
            ActsAs H.table acted self.new self.old
            (λ names. do_eval (nested names H.table levels) words.now)) }
        ensures lower { OnOk result (Lower self.new self.old 1) }
        ensures opens { IfOk result (λ acted. Opens acted self.new self.old) }
        ensures holds { Holds self.new self.old }
    {
        if words.len() < 2 {
            return Ok(Acted::Gives(wrong_words(self.alloc, words)?));
        }
        let text = joined(self.alloc, behind_name(words))?;
        let acted = self.enter_text(&text, levels)?;
        Ok(acted)
    }

    /// Runs the script of a `catch`, with the variable for its result, where one is named.
    fn catch_script(
        &mut self,
        words: &Words,
        name: Option<Text>,
        levels: u32,
    ) -> Result<Acted, NoMemory>
        ensures means { IfOk result (λ acted.
            ActsAs H.table acted self.new self.old (λ names.
            λ k. run_script names H.table levels (unread (arg words.now 1)) (catch_end name k))) }
        ensures lower { OnOk result (Lower self.new self.old 1) }
        ensures opens { IfOk result (λ acted. Opens acted self.new self.old) }
        ensures holds { Holds self.new self.old }
    {
        let text = copy_word(self.alloc, words, 1)?;
        self.stack.push(Frame::Caught { name })?;
        let acted = self.enter_text(&text, levels)?;
        Ok(acted)
    }

    /// `catch script ?name?`.
    fn do_catch(&mut self, words: &Words, levels: u32) -> Result<Acted, NoMemory>
        ensures means { IfOk result (λ acted.
            ActsAs H.table acted self.new self.old
            (λ names. do_catch (nested names H.table levels) words.now)) }
        ensures lower { OnOk result (Lower self.new self.old 1) }
        ensures opens { IfOk result (λ acted. Opens acted self.new self.old) }
        ensures holds { Holds self.new self.old }
    {
        if words.len() == 2 {
            let acted = self.catch_script(words, None, levels)?;
            return Ok(acted);
        }
        if words.len() == 3 {
            let name = copy_word(self.alloc, words, 2)?;
            let acted = self.catch_script(words, Some(name), levels)?;
            return Ok(acted);
        }
        Ok(Acted::Gives(wrong_words(self.alloc, words)?))
    }

    /// Does a command on variables.
    fn do_variables(&mut self, words: &Words) -> Result<Ended, NoMemory>
        requires { begins_var_command words.now ≡ true }
        ensures means { IfOk result (λ value.
            (names : Names)
            → Same names H.table self.new self.old (give value) (λ k state.
            came_next (var_came state.frames words.now) k state)) }
        ensures keeps { OnOk result (Keeps self.new self.old) }
        ensures holds { Holds self.new self.old }
    {
        let value = self.write_variables(words)?;
        Ok(value)
    }

    /// Calls a native, whose own name is the first word.
    pub(crate) fn call_native(&self, native: &Native, words: &Words) -> Result<Ended, NoMemory>
        requires { name_of native.now ≡ arg words.now 0 }
        ensures means { IfOk result (λ value.
            (k : Next H) → give value k ≡ call_native words.now k) }
    {
        let count = words.len();
        if count < (native.least() as usize) || (native.most() as usize) < count {
            return wrong_words(self.alloc, words);
        }
        match native.call(self.alloc, words) {
            Ok(result) => Ok(Ended { code: OK, result }),
            Err(Fault::Error(message)) => Ok(failed(message)),
            Err(Fault::NoMemory) => Err(NoMemory),
        }
    }

    /// Does a built-in that comes to a value at once.
    fn do_value<L: Ledger>(
        &mut self,
        verb: Verb,
        words: &Words,
        steps: &mut Steps<L>,
    ) -> Result<Option<Ended>, NoMemory>
        ensures means { IfOk result (λ value.
            (names : Names) (inner : Inner H)
            → ValueOf value
            (λ given.
            Same names H.table self.new self.old (give given)
            (built_in names H.table inner verb words.now))
            (IsRunning verb × (self.new ≡ self.old))) }
        ensures keeps { OnOk result (Keeps self.new self.old) }
        ensures steps { steps.old ≤ steps.new }
        ensures counts { Counts steps.new steps.old self.new self.old }
        ensures kept { OnErr result (self.new.made ≡ self.old.made) }
    {
        let value = match verb {
            Verb::Proc => self.do_proc(words, steps)?,
            Verb::Return => do_return(self.alloc, words)?,
            Verb::Error => do_error(self.alloc, words)?,
            Verb::Break => do_break(self.alloc, words)?,
            Verb::Continue => do_continue(self.alloc, words)?,
            Verb::Rename => self.do_rename(words, steps)?,
            Verb::Info => self.do_info(words)?,
            _ => return Ok(None),
        };
        Ok(Some(value))
    }

    /// Does a built-in that runs a text, or one of the host's.
    fn do_running(&mut self, verb: Verb, words: Words, levels: u32) -> Result<Acted, NoMemory>
        requires { IsRunning verb }
        ensures means { IfOk result (λ acted.
            (names : Names)
            → ActedIs names H.table acted self.new self.old
            (built_in names H.table (nested names H.table levels) verb words)) }
        ensures lower { OnOk result (Lower self.new self.old 1) }
        ensures opens { IfOk result (λ acted. Opens acted self.new self.old) }
        ensures holds { HoldsTable self.new self.old }
        ensures kept { OnErr result (self.new.made ≡ self.old.made) }
    {
        let acted = match verb {
            Verb::Eval => self.do_eval(&words, levels)?,
            Verb::Catch => self.do_catch(&words, levels)?,
            Verb::Expr => self.do_expr(&words, levels)?,
            Verb::If => self.do_if(&words, levels)?,
            Verb::While => self.do_while(&words, levels)?,
            Verb::For => self.do_for(&words, levels)?,
            Verb::Foreach => self.do_foreach(&words, levels)?,
            Verb::Switch => self.do_switch(&words, levels)?,
            _ => self.call_host(words, levels)?,
        };
        Ok(acted)
    }

    /// Does a built-in of a kind, whose own name is the first word.
    #[inline(never)]
    fn built_in<L: Ledger>(
        &mut self,
        verb: Verb,
        words: Words,
        levels: u32,
        steps: &mut Steps<L>,
    ) -> Result<Acted, NoMemory>
        ensures means { IfOk result (λ acted.
            (names : Names)
            → ActedIs names H.table acted self.new self.old
            (built_in names H.table (nested names H.table levels) verb words)) }
        ensures lower { OnOk result (Lower self.new self.old 1) }
        ensures opens { IfOk result (λ acted. Opens acted self.new self.old) }
        ensures steps { steps.old ≤ steps.new }
        ensures counts { Counts steps.new steps.old self.new self.old }
        ensures kept { OnErr result (self.new.made ≡ self.old.made) }
    {
        match self.do_value(verb, &words, steps)? {
            Some(value) => Ok(Acted::Gives(value)),
            None => {
                let acted = self.do_running(verb, words, levels)?;
                Ok(acted)
            }
        }
    }

    /// Does a built-in, whose own name is the first word.
    fn built<L: Ledger>(
        &mut self,
        natives: &Natives,
        words: Words,
        levels: u32,
        steps: &mut Steps<L>,
    ) -> Result<Acted, NoMemory>
        ensures means { IfOk result (λ acted.
            ActedIs (names_of natives.now) H.table acted self.new self.old
            (built (names_of natives.now) H.table (nested (names_of natives.now) H.table levels)
            words)) }
        ensures lower { OnOk result (Lower self.new self.old 1) }
        ensures opens { IfOk result (λ acted. Opens acted self.new self.old) }
        ensures steps { steps.old ≤ steps.new }
        ensures counts { Counts steps.new steps.old self.new self.old }
        ensures kept { OnErr result (self.new.made ≡ self.old.made) }
    {
        let empty = Text::empty(self.alloc);
        let name = first_word(&words, &empty);
        if let Some(native) = natives.find(name) {
            let value = self.call_native(native, &words)?;
            return Ok(Acted::Gives(value));
        }
        if is_var_command(&words) {
            let value = self.do_variables(&words)?;
            return Ok(Acted::Gives(value));
        }
        let verb = find_verb(name.bytes());
        let acted = self.built_in(verb, words, levels, steps)?;
        Ok(acted)
    }

    /// Writes the values of parameters; where one is refused, that is the error.
    pub(crate) fn write_all(&mut self, values: Pairs) -> Result<Option<Ended>, NoMemory>
        ensures means { IfOk result (λ refused.
            (go : Next H → Rest H)
            → Alike self.new self.old (after_writes refused go) (λ k.
            write_all values (go k) k)) }
        ensures straight { OnOk result (Straightly self.new self.old) }
        ensures holds { Holds self.new self.old }
    {
        'values: for pair in values.as_slice() {
            let value = pair.1.copy(self.alloc)?;
            let written = self.store(&pair.0, value, Text::empty(self.alloc))?;
            if written.code != OK {
                return Ok(Some(written));
            }
        }
        Ok(None)
    }

    /// Calls a procedure.
    #[inline(never)]
    fn call_proc(
        &mut self,
        params: &Text,
        body: &Text,
        words: &Words,
        levels: u32,
    ) -> Result<Acted, NoMemory>
        ensures means { IfOk result (λ acted.
            ActsAs H.table acted self.new self.old
            (λ names. call_proc (nested names H.table levels) params.now body.now words.now)) }
        ensures lower { OnOk result (Lower self.new self.old 1) }
        ensures opens { IfOk result (λ acted. Opens acted self.new self.old) }
        ensures holds { Holds self.new self.old }
    {
        let values = match self.readings.bind(self.alloc, params, words)? {
            Err(message) => return Ok(Acted::Gives(error(self.alloc, message)?)),
            Ok(values) => values,
        };
        self.frames.push()?;
        self.stack.push(Frame::Procedure)?;
        match self.write_all(values)? {
            Some(refused) => Ok(Acted::Gives(refused)),
            None => {
                let acted = self.enter_text(body, levels)?;
                Ok(acted)
            }
        }
    }

    /// Does a command that was paid for.
    pub(crate) fn act<L: Ledger>(
        &mut self,
        natives: &Natives,
        words: Words,
        levels: u32,
        steps: &mut Steps<L>,
    ) -> Result<Acted, NoMemory>
        ensures means { IfOk result (λ acted.
            ActedIs (names_of natives.now) H.table acted self.new self.old
            (act (names_of natives.now) H.table (nested (names_of natives.now) H.table levels)
            words)) }
        ensures lower { OnOk result (Lower self.new self.old 1) }
        ensures opens { IfOk result (λ acted. Opens acted self.new self.old) }
        ensures steps { steps.old ≤ steps.new }
        ensures counts { Counts steps.new steps.old self.new self.old }
        ensures kept { OnErr result (self.new.made ≡ self.old.made) }
    {
        let empty = Text::empty(self.alloc);
        let name = first_word(&words, &empty);
        match self.table.get(name) {
            None => {
                let message = unknown_command(self.alloc, name.bytes())?;
                Ok(Acted::Gives(error(self.alloc, message)?))
            }
            Some(Cmd::Built(own)) => {
                let words = with_name(self.alloc, own, words)?;
                let acted = self.built(natives, words, levels, steps)?;
                Ok(acted)
            }
            Some(Cmd::Proc { params, body }) => {
                let params = params.copy(self.alloc)?;
                let body = body.copy(self.alloc)?;
                let acted = self.call_proc(&params, &body, &words, levels)?;
                Ok(acted)
            }
        }
    }
}
