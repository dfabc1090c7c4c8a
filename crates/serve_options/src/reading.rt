//! Reading the words.

ghost use Rattle.std.specs.Prelude.{◌≡◌, ◌≢◌, ◌⊎◌, [], Some, IfOk, IfErr, IfSome, map, codes};
ghost use Rattle.std.specs.List.{All};
ghost use Rattle.std.specs.Str.{IsUtf8};
ghost use Rattle.clap.specs.Words.{app_of, kind_of, rows_of, HasKind, fault_of, found_of, first_of, matches_of};
ghost use Rattle.serve_options.specs.Command.{serve_app};
ghost use Rattle.serve_options.specs.Reading.{AreTaken, AreReadFrom, AreIn, AskForText, number_of};
ghost use Rattle.serve_options.specs.declared.options.Refused.TheVariants.{BadWords};

use crate::command::serve_command;
use crate::options::{Options, Refused};
use clap::error::ErrorKind;
use clap::{ArgMatches, Error};
use std::alloc::Global;
use txt_core::{NoMemory, Text, Words};

/// Reads the options, of words that are all UTF-8 and in which `clap` finds no fault. Of others the error
/// is `BadWords`, where memory doesn't run out first.
pub fn read_options(alloc: Global, words: &Words) -> Result<Options, Refused>
    ensures read { IfOk result (AreReadFrom words.now) }
    ensures refused { IfErr result (λ e. e ≡ BadWords → ¬ (AreTaken words.now)) }
{
    let texts = as_texts(alloc, words)?;
    matched(alloc, texts.as_slice())
}

/// The help or the version, ready to be printed, where the words ask for one of them and memory doesn't
/// run out. Words of which options can be read never do.
pub fn asked_for(alloc: Global, words: &Words) -> Option<Error>
    ensures { IfSome result (λ error. AskForText words.now) }
{
    let Ok(texts) = as_texts(alloc, words) else {
        return None;
    };
    let error = fault_in(alloc, texts.as_slice())?;
    shown(error)
}

// The fault that `clap` finds in the words, where there is one.
fn fault_in<'a>(alloc: Global, words: &'a [&'a str]) -> Option<Error>
    ensures { IfSome result (HasKind (fault_of serve_app (map (λ s. s.now) words.now))) }
{
    let Ok(command) = serve_command(alloc) else {
        return None;
    };
    command.try_get_matches_from(words).err()
}

// The error where it is the help or the version.
fn shown(error: Error) -> Option<Error>
    ensures { IfSome result (λ e.
        (e ≡ error)
        × ((kind_of e ≡ ErrorKind.DisplayHelp) ⊎ (kind_of e ≡ ErrorKind.DisplayVersion))) }
{
    match error.kind() {
        ErrorKind::DisplayHelp | ErrorKind::DisplayVersion => Some(error),
        _ => None,
    }
}

// The words as texts.
fn as_texts<'a>(alloc: Global, words: &'a Words) -> Result<Vec<&'a str>, Refused>
    ensures texts { IfOk result (λ v. map (λ s. s.now) v.items ≡ words.now) }
    ensures utf8 { IfOk result (λ v. All IsUtf8 words.now) }
    ensures refused { IfErr result (λ e. e ≡ BadWords → ¬ (All IsUtf8 words.now)) }
{
    let mut texts = Vec::new(alloc);
    for word in words.as_slice() {
        match str::from_utf8(word.bytes()) {
            Ok(text) => {
                if texts.push(text).is_err() {
                    return Err(Refused::NoMemory);
                }
            }
            Err(_) => return Err(Refused::BadWords),
        }
    }
    Ok(texts)
}

// Reads the options from words that are texts.
fn matched<'a>(alloc: Global, words: &'a [&'a str]) -> Result<Options, Refused>
    ensures taken { IfOk result (λ options. fault_of serve_app (map (λ s. s.now) words.now) ≡ []) }
    ensures read { IfOk result (AreIn (matches_of serve_app (map (λ s. s.now) words.now))) }
    ensures refused { IfErr result (λ e.
        e ≡ BadWords → fault_of serve_app (map (λ s. s.now) words.now) ≢ []) }
{
    let matches = parsed(alloc, words)?;
    let options = options_in(alloc, &matches)?;
    Ok(options)
}

// What `clap` finds in the words.
fn parsed<'a>(alloc: Global, words: &'a [&'a str]) -> Result<ArgMatches<'a>, Refused>
    ensures matches { IfOk result (λ m.
        rows_of (found_of m) ≡ matches_of serve_app (map (λ s. s.now) words.now)) }
    ensures taken { IfOk result (λ m. fault_of serve_app (map (λ s. s.now) words.now) ≡ []) }
    ensures refused { IfErr result (λ e.
        e ≡ BadWords → fault_of serve_app (map (λ s. s.now) words.now) ≢ []) }
{
    let command = serve_command(alloc)?;
    match command.try_get_matches_from(words) {
        Ok(matches) => Ok(matches),
        Err(error) => Err(why(&error)),
    }
}

// An error of `clap` as a refusal.
fn why(error: &Error) -> Refused
    ensures { result ≡ BadWords → kind_of error.now ≢ ErrorKind.OutOfMemory }
{
    match error.kind() {
        ErrorKind::OutOfMemory => Refused::NoMemory,
        _ => Refused::BadWords,
    }
}

// The options in what was found. The command's own rules leave none of them without a value, so
// `NoMemory` is answered for want of memory alone.
fn options_in(alloc: Global, matches: &ArgMatches<'_>) -> Result<Options, NoMemory>
    ensures { IfOk result (AreIn (rows_of (found_of matches.now))) }
{
    let options = Options {
        root: text_in(alloc, matches, "root")?,
        start: text_in(alloc, matches, "start")?,
        listen: text_in(alloc, matches, "listen")?,
        workers: number_in(matches, "workers")?,
        queue: number_in(matches, "queue")?,
        connections: connections_in(matches)?,
    };
    Ok(options)
}

// The text of a required option.
#[tactic(auto, using(crate::proofs::Found::text_found))]
fn text_in(alloc: Global, matches: &ArgMatches<'_>, id: &str) -> Result<Text, NoMemory>
    ensures { IfOk result (λ t. first_of id.now (rows_of (found_of matches.now)) ≡ Some t) }
{
    match matches.get_str(id) {
        Some(text) => Text::new(alloc, text.as_bytes()),
        None => Err(NoMemory),
    }
}

// The number that a small option has.
fn number_in(matches: &ArgMatches<'_>, id: &str) -> Result<u16, NoMemory>
    ensures { IfOk result (λ n. n ≡ number_of id.now (rows_of (found_of matches.now))) }
{
    matches.get_one::<u16>(id).ok_or(NoMemory)
}

// The number of connections.
fn connections_in(matches: &ArgMatches<'_>) -> Result<u32, NoMemory>
    ensures { IfOk result (λ n.
        n ≡ number_of (codes "connections") (rows_of (found_of matches.now))) }
{
    matches.get_one::<u32>("connections").ok_or(NoMemory)
}
