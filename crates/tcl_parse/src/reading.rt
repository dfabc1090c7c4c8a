//! Reading from left to right.

ghost use Rattle.std.specs.Prelude.{◌≡◌, ◌+◌, ◌<◌, ◌≤◌, ℕ, true, false, map, length, [], IfOk, IfSome};
ghost use Rattle.tcl_parse.specs.Gaps.{skip, between, at_end, ends_word};
ghost use Rattle.tcl_parse.specs.Outcome.{Gives, GivesAny};
ghost use Rattle.tcl_parse.specs.View.{part_of, word_of, command_of, script_of};
ghost use Rattle.tcl_parse.specs.Steps.{stops};
ghost use Rattle.tcl_parse.specs.Grammar.{InBracket, InIndex, PartIs, PartsAt, SubstitutedAt, EnclosedAt, WordAt, WordsAt, ScriptAt};
ghost use Rattle.tcl_parse.specs.Answers.{mode_of, substitution_of, LeavesLess, Answers, BraceGives, BracketGives, IndexGives, QuoteGives};

use crate::brace::in_braces;
use crate::fault::{Fault, Kind, ParseFault};
use crate::gap::{command_ends, to_command, to_word, word_ends};
use crate::piece::{add_piece, bracket_piece, element_piece, named_piece, word_of_pieces};
use crate::step::{Mode, Step, Substitution, first, next};
use crate::tree::{Command, Piece, Script, Word};
use std::alloc::Global;
use txt_core::{MOST_NESTED, Stop, Text};

fn command_of_words(words: Vec<Word>) -> Command
    ensures { command_of result ≡ map word_of words.items }
{
    Command { words }
}

fn script_of_commands(commands: Vec<Command>) -> Script
    ensures { script_of result ≡ map command_of commands.items }
{
    Script { commands }
}

/// The rest of a word in braces, behind its opening brace.
fn braced_word(alloc: Global, bytes: &[u8]) -> Result<(Word, &[u8]), Stop<Fault>>
    ensures same { Gives (λ x. word_of x.0) (λ x. x.1.now) result (BraceGives bytes.now) }
    ensures goes { IfOk result (λ x. length x.1.now ≤ length bytes.now) }
{
    match in_braces(alloc, bytes)? {
        None => Err(Stop::Fault(Fault::before(Kind::Brace, bytes))),
        Some((text, rest)) => {
            let word = word_of_pieces(alloc, Vec::new(alloc), text)?;
            Ok((word, rest))
        }
    }
}

/// A script in a bracket, from behind its opening byte on. room: how many more may stand in one
/// another.
#[cycle(reader)]
fn bracket(alloc: Global, room: u32, bytes: &[u8]) -> Result<(Piece, &[u8]), Stop<Fault>>
    ensures same { Gives (λ x. part_of x.0) (λ x. x.1.now) result (BracketGives room bytes.now) }
    ensures goes { IfOk result (λ x. length x.1.now ≤ length bytes.now) }
{
    if room == 0 {
        return Err(Stop::Fault(Fault::before(Kind::Deep, bytes)));
    }
    let (script, rest) = script(alloc, room - 1, true, bytes)?;
    match rest.split_first() {
        None => Err(Stop::Fault(Fault::before(Kind::Bracket, bytes))),
        Some((_, rest)) => {
            let piece = bracket_piece(alloc, script)?;
            Ok((piece, rest))
        }
    }
}

/// An element whose index begins here. left: how many bytes are left from its dollar on.
#[cycle(reader)]
fn index<'a>(
    alloc: Global,
    room: u32,
    left: usize,
    name: &[u8],
    bytes: &'a [u8],
) -> Result<(Piece, &'a [u8]), Stop<Fault>>
    ensures same { Gives (λ x. part_of x.0) (λ x. x.1.now) result
        (IndexGives room left name.now bytes.now) }
    ensures goes { IfOk result (λ x. length x.1.now ≤ length bytes.now) }
{
    if room == 0 {
        return Err(Stop::Fault(Fault::before(Kind::Deep, bytes)));
    }
    let (index, rest) = parts(alloc, room - 1, Mode::Index, bytes)?;
    match rest.split_first() {
        None => Err(Stop::Fault(Fault {
            kind: Kind::Variable,
            left,
        })),
        Some((_, rest)) => {
            let piece = element_piece(alloc, name, index)?;
            Ok((piece, rest))
        }
    }
}

/// What is substituted. left: how many bytes are left from its first byte on.
#[cycle(reader)]
fn substitution<'a>(
    alloc: Global,
    room: u32,
    left: usize,
    found: Substitution<'a>,
) -> Result<(Piece, &'a [u8]), Stop<Fault>>
    ensures same { Gives (λ x. part_of x.0) (λ x. x.1.now) result
        (PartIs (InBracket room) (InIndex room) left (substitution_of found.entry)) }
    ensures goes { (n : ℕ) → LeavesLess n found.entry → IfOk result (λ x. length x.1.now < n) }
{
    match found {
        Substitution::Unnamed => Err(Stop::Fault(Fault {
            kind: Kind::Variable,
            left,
        })),
        Substitution::Named(name, rest) => {
            let piece = named_piece(alloc, name)?;
            Ok((piece, rest))
        }
        Substitution::Indexed(name, start) => index(alloc, room, left, name, start),
        Substitution::Opened(start) => bracket(alloc, room, start),
    }
}

/// The parts of a word.
#[cycle(reader)]
fn parts(alloc: Global, room: u32, mode: Mode, bytes: &[u8]) -> Result<(Word, &[u8]), Stop<Fault>>
    ensures same { Gives (λ x. word_of x.0) (λ x. x.1.now) result
        (PartsAt (InBracket room) (InIndex room) (mode_of mode) bytes.now) }
    ensures goes { IfOk result (λ x. length x.1.now ≤ length bytes.now) }
    ensures moves { stops (mode_of mode) bytes.now ≡ false
        → IfOk result (λ x. length x.1.now < length bytes.now) }
{
    let mut pieces = Vec::new(alloc);
    let mut text = Vec::new(alloc);
    let mut rest = bytes;
    'parts: loop {
        match next(mode, rest) {
            Step::Ends => {
                let word = word_of_pieces(alloc, pieces, text)?;
                return Ok((word, rest));
            }
            Step::Byte(b, after) => {
                text.push(b)?;
                rest = after;
            }
            Step::Escaped(form, after) => {
                text.extend_from_slice(&form.bytes[..form.len as usize])?;
                rest = after;
            }
            Step::Substituted(found) => {
                let (piece, after) = substitution(alloc, room, rest.len(), found)?;
                add_piece(alloc, &mut pieces, &mut text, piece)?;
                rest = after;
            }
        }
    }
}

/// The rest of a word in quotes, behind its opening quote.
#[cycle(reader)]
fn quoted_word(alloc: Global, room: u32, bytes: &[u8]) -> Result<(Word, &[u8]), Stop<Fault>>
    ensures same { Gives (λ x. word_of x.0) (λ x. x.1.now) result (QuoteGives room bytes.now) }
    ensures goes { IfOk result (λ x. length x.1.now ≤ length bytes.now) }
{
    let (word, rest) = parts(alloc, room, Mode::Quotes, bytes)?;
    match rest.split_first() {
        None => Err(Stop::Fault(Fault::before(Kind::Quote, bytes))),
        Some((_, rest)) => Ok((word, rest)),
    }
}

/// The word in braces or quotes that stands at the front of a text, with what is left behind its
/// closing byte; `None` exactly where none begins there. What must follow is the caller's rule.
/// `room` is how many brackets and indexes may stand in one another in it, at most
/// [`MOST_NESTED`].
///
/// # Errors
///
/// `Stop::Fault` exactly where the word has a fault, with its kind and how many bytes are left from
/// its place on; `Stop::NoMemory` where memory ran out.
#[cycle(reader)]
pub fn read_enclosed(
    alloc: Global,
    room: u32,
    bytes: &[u8],
) -> Result<Option<(Word, &[u8])>, Stop<Fault>>
    ensures same { GivesAny (λ x. word_of x.0) (λ x. x.1.now) result
        (EnclosedAt (InBracket room) (InIndex room) bytes.now) }
    ensures goes { IfOk result (λ found. IfSome found (λ x. length x.1.now < length bytes.now)) }
{
    match bytes.split_first() {
        None => Ok(None),
        Some((b, tail)) => {
            if *b == b'{' {
                let (word, rest) = braced_word(alloc, tail)?;
                return Ok(Some((word, rest)));
            }
            if *b == b'"' {
                let (word, rest) = quoted_word(alloc, room, tail)?;
                return Ok(Some((word, rest)));
            }
            Ok(None)
        }
    }
}

/// A word.
#[cycle(reader)]
fn word(alloc: Global, room: u32, nested: bool, bytes: &[u8]) -> Result<(Word, &[u8]), Stop<Fault>>
    requires { ends_word nested bytes.now ≡ false }
    ensures same { Gives (λ x. word_of x.0) (λ x. x.1.now) result
        (WordAt (InBracket room) (InIndex room) nested bytes.now) }
    ensures goes { IfOk result (λ x. length x.1.now < length bytes.now) }
{
    match read_enclosed(alloc, room, bytes)? {
        None => parts(alloc, room, Mode::Bare(nested), bytes),
        Some((word, rest)) => {
            if !word_ends(nested, rest) {
                return Err(Stop::Fault(Fault {
                    kind: Kind::Extra,
                    left: rest.len(),
                }));
            }
            Ok((word, rest))
        }
    }
}

/// The words of a command.
#[cycle(reader)]
fn command(
    alloc: Global,
    room: u32,
    nested: bool,
    bytes: &[u8],
) -> Result<(Command, &[u8]), Stop<Fault>>
    requires { ends_word nested bytes.now ≡ at_end nested bytes.now }
    ensures same { Gives (λ x. command_of x.0) (λ x. x.1.now) result
        (WordsAt (InBracket room) (InIndex room) nested bytes.now) }
    ensures goes { at_end nested bytes.now ≡ false
        → IfOk result (λ x. length x.1.now < length bytes.now) }
{
    let mut words = Vec::new(alloc);
    let mut rest = bytes;
    'words: while !command_ends(nested, rest) {
        let (word, after) = word(alloc, room, nested, rest)?;
        words.push(word)?;
        rest = to_word(after);
    }
    Ok((command_of_words(words), rest))
}

/// The commands of a script.
#[cycle(reader)]
fn script(
    alloc: Global,
    room: u32,
    nested: bool,
    bytes: &[u8],
) -> Result<(Script, &[u8]), Stop<Fault>>
    ensures same { Gives (λ x. script_of x.0) (λ x. x.1.now) result
        (ScriptAt (InBracket room) (InIndex room) nested (skip between bytes.now)) }
    ensures goes { IfOk result (λ x. length x.1.now ≤ length bytes.now) }
    ensures whole { nested ≡ false → IfOk result (λ x. x.1.now ≡ []) }
{
    let mut commands = Vec::new(alloc);
    let mut rest = to_command(bytes);
    'commands: while !command_ends(nested, rest) {
        let (command, after) = command(alloc, room, nested, rest)?;
        commands.push(command)?;
        rest = to_command(after);
    }
    Ok((script_of_commands(commands), rest))
}

/// What is substituted at the front of a text, where it begins with `$` and a name or with `[`, and
/// what is left behind it; `None` exactly where nothing is, as at a `$` that is itself. `room` is
/// how many brackets and indexes may stand in one another in it, at most [`MOST_NESTED`].
///
/// # Errors
///
/// `Stop::Fault` exactly where it has a fault, with its kind and how many bytes are left from its
/// place on; `Stop::NoMemory` where memory ran out.
pub fn read_substitution(
    alloc: Global,
    room: u32,
    bytes: &[u8],
) -> Result<Option<(Piece, &[u8])>, Stop<Fault>>
    ensures same { GivesAny (λ x. part_of x.0) (λ x. x.1.now) result
        (SubstitutedAt (InBracket room) (InIndex room) bytes.now) }
    ensures goes { IfOk result (λ found. IfSome found (λ x. length x.1.now < length bytes.now)) }
{
    match first(bytes) {
        Step::Substituted(found) => {
            let (piece, rest) = substitution(alloc, room, bytes.len(), found)?;
            Ok(Some((piece, rest)))
        }
        Step::Ends | Step::Byte(..) | Step::Escaped(..) => Ok(None),
    }
}

/// The script that a text spells.
///
/// # Errors
///
/// `ParseFault::Unclosed` exactly where the text spells none, with the place and the kind of the
/// first fault that is reached; `ParseFault::NoMemory` where memory ran out.
pub fn parse(alloc: Global, text: &Text) -> Result<Script, ParseFault>
    ensures { Answers text.now result }
{
    let bytes = text.bytes();
    match script(alloc, MOST_NESTED, false, bytes) {
        Ok((script, _)) => Ok(script),
        Err(Stop::NoMemory) => Err(ParseFault::NoMemory),
        Err(Stop::Fault(fault)) => Err(ParseFault::Unclosed {
            at: (bytes.len() - fault.left) as u64,
            kind: fault.kind,
        }),
    }
}
