//! What commands look at before they do anything.

ghost use Rattle.std.specs.Prelude.{◌≡◌, drop};
ghost use Rattle.txt_core.specs.ErrorTexts.{only_in_definition_run};
ghost use Rattle.server_host.specs.Answers.{Passes};
ghost use Rattle.server_host.specs.Checks.{is_defining};

use crate::host::RunHost;
use crate::kind::is_defining;
use natives::Fault;
use txt_core::{Text, Words, error_text};

/// The words from a place on.
pub fn words_from(words: &Words, place: usize) -> &[Text]
    ensures { result.now ≡ drop place words.now }
{
    let all = words.as_slice();
    if place >= all.len() {
        return &[];
    }
    &all[place..]
}

/// Goes on in a definition run.
pub fn require_definition_run(host: &RunHost) -> Result<(), Fault>
    ensures { Passes result (is_defining host.now.kind) only_in_definition_run }
{
    if !is_defining(host.kind) {
        return Err(Fault::saying(error_text::only_in_definition_run(host.alloc)));
    }
    Ok(())
}
