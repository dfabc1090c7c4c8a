//! The definitions of a script.

ghost use Rattle.std.specs.Prelude.{◌≡◌, IfOk, map};
ghost use Rattle.std.specs.Option.{option_copied};
ghost use Rattle.tcl_parse.specs.View.{part_of, word_of, command_of};
ghost use Rattle.blueprint.specs.Reading.{literal_of, literals_of, command_def, commands_from};
ghost use Rattle.blueprint.specs.Kept.{IsFound, IsScripted};

use crate::definition::def_of;
use crate::reply::ScriptFault;
use cmd_table::{Def, Defs};
use std::alloc::Global;
use tcl_parse::{Command, ParseFault, Piece, Word, parse};
use txt_core::{NoMemory, Sequence, Text, Words};

/// The bytes of a literal word, by its pieces.
fn literal(pieces: &[Piece]) -> Option<&[u8]>
    ensures { option_copied result ≡ literal_of (map part_of pieces.now) }
{
    match pieces {
        [] => Some(&[]),
        [Piece::Bytes(text)] => Some(text.bytes()),
        _ => None,
    }
}

/// The words of a command, where all are literal.
fn literals(alloc: Global, words: &[Word]) -> Result<Option<Words>, NoMemory>
    ensures { IfOk result (λ texts. texts ≡ literals_of (map word_of words.now)) }
{
    let mut texts = Words::new(alloc);
    'words: for word in words {
        let Some(bytes) = literal(word.pieces.as_slice()) else {
            return Ok(None);
        };
        texts.add(Text::new(alloc, bytes)?)?;
    }
    Ok(Some(texts))
}

/// The definition that a command of these words is.
fn command_def(alloc: Global, words: &[Word]) -> Result<Option<Def>, NoMemory>
    ensures { IfOk result (λ def. def ≡ command_def (map word_of words.now)) }
{
    match literals(alloc, words)? {
        None => Ok(None),
        Some(texts) => def_of(alloc, texts.as_slice()),
    }
}

/// The definitions that commands are, or the number of the first that is none.
fn command_defs(alloc: Global, commands: &[Command]) -> Result<Defs, ScriptFault>
    ensures { IsFound (commands_from 0 (map command_of commands.now)) result }
{
    let mut defs = Sequence::new(alloc);
    'commands: for (number, command) in commands.iter().enumerate() {
        let Some(def) = command_def(alloc, command.words.as_slice())? else {
            return Err(ScriptFault::NotADefinition(number as u64));
        };
        defs.add(def)?;
    }
    Ok(defs)
}

/// The definitions of a script, whose commands are all definitions in literal words that the checks of
/// their words alone allow.
///
/// # Errors
///
/// `NotADefinition` with the number, from 0, of the first command that is none, and with 0 where the
/// text is no script; `NoMemory` for want of memory alone.
pub fn from_script(alloc: Global, script: &Text) -> Result<Defs, ScriptFault>
    ensures { IsScripted script.now result }
{
    match parse(alloc, script) {
        Ok(script) => command_defs(alloc, script.commands.as_slice()),
        Err(ParseFault::Unclosed { .. }) => Err(ScriptFault::NotADefinition(0)),
        Err(ParseFault::NoMemory) => Err(ScriptFault::NoMemory),
    }
}
