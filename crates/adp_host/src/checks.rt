//! What commands look at before they do anything.

ghost use Rattle.std.specs.Prelude.{◌≡◌, drop, true, IfOk, IfErr};
ghost use Rattle.txt_core.specs.ErrorTexts.{not_in_page};
ghost use Rattle.adp_host.specs.States.{arguments, has_page};
ghost use Rattle.adp_host.specs.Answers.{Passes, Refused};

use crate::host::AdpHost;
use natives::Fault;
use txt_core::{Text, Words, error_text};

/// The words behind the command's name.
pub fn behind_name(words: &Words) -> &[Text]
    ensures { result.now ≡ drop 1 words.now }
{
    match words.as_slice().split_first() {
        Some((_name, rest)) => rest,
        None => &[],
    }
}

/// Goes on where a page is open.
pub fn require_page(host: &AdpHost) -> Result<(), Fault>
    ensures { Passes result (has_page host.now) not_in_page }
{
    if !host.has_page() {
        return Err(Fault::saying(error_text::not_in_page(host.alloc)));
    }
    Ok(())
}

/// The arguments of the innermost open page, where one is open.
pub fn page_arguments(host: &AdpHost) -> Result<&Words, Fault>
    ensures ok { IfOk result (λ args.
        (has_page host.now ≡ true) × (args.now ≡ arguments host.now)) }
    ensures err { IfErr result (λ refusal. Refused refusal (has_page host.now) not_in_page) }
{
    match host.pages.as_slice().last() {
        Some(args) => Ok(args),
        None => Err(Fault::saying(error_text::not_in_page(host.alloc))),
    }
}
