//! The commands on the arguments of the innermost open page.

ghost use Rattle.std.specs.Prelude.{◌≡◌};
ghost use Rattle.tcl_host.specs.Outcomes.{EndsWith};
ghost use Rattle.adp_host.specs.States.{PageState, arguments};
ghost use Rattle.adp_host.specs.Arguments.{argument, argument_text, ns_adp_argc, ns_adp_argv};

use crate::checks::page_arguments;
use crate::host::AdpHost;
use natives::Fault;
use std::alloc::Global;
use tcl_host::{integer, is_counted, require_words};
use tcl_list::quote;
use txt_core::{Text, Words, write_natural};

/// `ns_adp_argc` gives how many arguments the page has.
pub fn ns_adp_argc(host: &AdpHost, words: &Words) -> Result<Text, Fault>
    ensures { EndsWith result host.now (ns_adp_argc words.now host.now) }
{
    let alloc = host.alloc;
    require_words(alloc, is_counted(words, 1, 1), words)?;
    let args = page_arguments(host)?;
    Ok(write_natural(alloc, args.len() as u64)?)
}

/// The argument at a place; empty where there is none.
fn argument(args: &Words, place: i64) -> &[u8]
    ensures { result.now ≡ argument args.now place }
{
    if place < 0 {
        return &[];
    }
    args.bytes_at(place as usize)
}

/// All arguments as a list, or the one at the place that the second word is.
fn argument_text(alloc: Global, args: &Words, words: &Words) -> Result<Text, Fault>
    ensures { (host : PageState) → args.now ≡ arguments host
        → EndsWith result host (argument_text words.now host) }
{
    if words.len() == 1 {
        return Ok(quote(alloc, args)?);
    }
    let place = integer(alloc, words, 1)?;
    Ok(Text::new(alloc, argument(args, place))?)
}

/// `ns_adp_argv ?PLACE?` gives the list of the page's arguments, or the one at a place.
pub fn ns_adp_argv(host: &AdpHost, words: &Words) -> Result<Text, Fault>
    ensures { EndsWith result host.now (ns_adp_argv words.now host.now) }
{
    let alloc = host.alloc;
    require_words(alloc, is_counted(words, 1, 2), words)?;
    let args = page_arguments(host)?;
    argument_text(alloc, args, words)
}
