//! `switch`: its words, and what it runs.

ghost use Rattle.std.specs.Prelude.{◌≡◌, ◌-◌, IfOk, OnOk, Option, false, length, bytes_eq, codes};
ghost use Rattle.std.specs.Option.{option_copied};
ghost use Rattle.tcl_eval.specs.Words.{arg};
ghost use Rattle.tcl_eval.specs.Eval.{nested, do_switch};
ghost use Rattle.tcl_eval.specs.Switch.{options, fits, body_or_next, body_for, by_pairs, by_words};
ghost use Rattle.tcl_eval.specs.Engine.{Holds, Opens, Lower};
ghost use Rattle.tcl_eval.specs.SwitchSeen.{OptionsAre};
ghost use Rattle.tcl_eval.specs.Clauses.{ActsAs};

use crate::engine::Engine;
use crate::stack::Acted;
use crate::value::{done, wrong_words};
use crate::words::behind_name;
use tcl_host::Host;
use tcl_list::{ListFault, split};
use txt_core::error_text::{bad_value, no_list};
use txt_core::{NoMemory, Text, Words, glob};

/// What the options of `switch` are: whether patterns match as globs do, and the words behind them; or
/// the first word that is none.
enum Options<'a> {
    Read { globs: bool, behind: &'a [Text] },
    Bad(&'a Text),
}

/// Reads the options at the front of the words behind the name.
fn read_options(words: &[Text]) -> Options<'_>
    ensures { OptionsAre result (options false words.now) }
{
    let mut globs = false;
    let mut left = words;
    'options: while let Some((word, behind)) = left.split_first() {
        match word.bytes() {
            b"--" => {
                return Options::Read { globs, behind };
            }
            b"-exact" => globs = false,
            b"-glob" => globs = true,
            [b'-', ..] => return Options::Bad(word),
            _ => break,
        }
        left = behind;
    }
    Options::Read {
        globs,
        behind: left,
    }
}

/// Whether a pattern, behind whose body these words are left, fits a text.
fn fits(globs: bool, text: &Text, pattern: &Text, behind: &[Text]) -> bool
    ensures { result ≡ fits globs text.now pattern.now behind.now }
{
    if behind.is_empty() && pattern.bytes() == b"default".as_slice() {
        return true;
    }
    if globs {
        glob(pattern, text)
    } else {
        pattern == text
    }
}

/// Whether the last word is `-`.
fn ends_in_dash(words: &[Text]) -> bool
    ensures { result ≡ bytes_eq (arg words.now (length words.now - 1)) (codes "-") }
{
    match words {
        [] => false,
        [.., last] => last.bytes() == b"-".as_slice(),
    }
}

/// A body, or for `-` the one behind it.
fn body_or_next<'a>(body: &'a Text, pairs: &'a [Text]) -> &'a Text
    ensures { result.now ≡ body_or_next body.now pairs.now }
{
    let mut chosen = body;
    let mut left = pairs;
    'pairs: while let [_, next, behind @ ..] = left {
        if chosen.bytes() != b"-".as_slice() {
            return chosen;
        }
        chosen = next;
        left = behind;
    }
    chosen
}

/// The body of the first pattern that fits a text, in patterns and bodies in turn.
fn body_for<'a>(globs: bool, text: &Text, pairs: &'a [Text]) -> Option<&'a Text>
    ensures { option_copied result ≡ body_for globs text.now pairs.now }
{
    let mut left = pairs;
    'pairs: while let [pattern, body, behind @ ..] = left {
        if fits(globs, text, pattern, behind) {
            return Some(body_or_next(body, behind));
        }
        left = behind;
    }
    None
}

#[tactic(auto, using(crate::proofs::Stacks::frees_push))]
impl<H: Host> Engine<H> {
    /// Runs the body that fits a text, in patterns and bodies in turn.
    fn switch_to(
        &mut self,
        globs: bool,
        text: &Text,
        pairs: &[Text],
        levels: u32,
    ) -> Result<Acted, NoMemory>
        ensures means { IfOk result (λ acted.
            ActsAs H.table acted self.new self.old
            (λ names. by_pairs (nested names H.table levels) globs text.now pairs.now)) }
        ensures lower { OnOk result (Lower self.new self.old 1) }
        ensures opens { IfOk result (λ acted. Opens acted self.new self.old) }
        ensures holds { Holds self.new self.old }
    {
        if ends_in_dash(pairs) {
            let acted = self.fails(bad_value(self.alloc, b"-", b"switch")?)?;
            return Ok(acted);
        }
        match body_for(globs, text, pairs) {
            None => Ok(Acted::Gives(done(self.alloc))),
            Some(body) => {
                let acted = self.enter_text(body, levels)?;
                Ok(acted)
            }
        }
    }

    /// Goes on with the words behind the text: one list, or patterns and bodies as words.
    fn switch_on(
        &mut self,
        globs: bool,
        text: &Text,
        behind: &[Text],
        words: &Words,
        levels: u32,
    ) -> Result<Acted, NoMemory>
        ensures means { IfOk result (λ acted.
            ActsAs H.table acted self.new self.old (λ names.
            by_words (nested names H.table levels) globs text.now behind.now words.now)) }
        ensures lower { OnOk result (Lower self.new self.old 1) }
        ensures opens { IfOk result (λ acted. Opens acted self.new self.old) }
        ensures holds { Holds self.new self.old }
    {
        let list = match behind {
            [list] => list,
            [] => return Ok(Acted::Gives(wrong_words(self.alloc, words)?)),
            pairs => {
                if pairs.len() % 2 != 0 {
                    return Ok(Acted::Gives(wrong_words(self.alloc, words)?));
                }
                let acted = self.switch_to(globs, text, pairs, levels)?;
                return Ok(acted);
            }
        };
        match split(self.alloc, list) {
            Err(ListFault::NoMemory) => Err(NoMemory),
            Err(ListFault::Bad { at }) => {
                let acted = self.fails(no_list(self.alloc, at)?)?;
                Ok(acted)
            }
            Ok(pairs) => {
                if pairs.len() % 2 != 0 {
                    let acted = self.fails(bad_value(self.alloc, list.bytes(), b"switch")?)?;
                    return Ok(acted);
                }
                let acted = self.switch_to(globs, text, pairs.as_slice(), levels)?;
                Ok(acted)
            }
        }
    }

    /// `switch ?-exact? ?-glob? ?--? text pairs`.
    pub(crate) fn do_switch(&mut self, words: &Words, levels: u32) -> Result<Acted, NoMemory>
        ensures means { IfOk result (λ acted.
            ActsAs H.table acted self.new self.old
            (λ names. do_switch (nested names H.table levels) words.now)) }
        ensures lower { OnOk result (Lower self.new self.old 1) }
        ensures opens { IfOk result (λ acted. Opens acted self.new self.old) }
        ensures holds { Holds self.new self.old }
    {
        match read_options(behind_name(words)) {
            Options::Bad(word) => {
                let acted = self.fails(bad_value(self.alloc, word.bytes(), b"switch")?)?;
                Ok(acted)
            }
            Options::Read { globs, behind } => match behind.split_first() {
                None => Ok(Acted::Gives(wrong_words(self.alloc, words)?)),
                Some((text, behind)) => {
                    let acted = self.switch_on(globs, text, behind, words, levels)?;
                    Ok(acted)
                }
            },
        }
    }
}
