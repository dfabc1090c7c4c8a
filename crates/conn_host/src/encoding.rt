//! The commands on texts of URLs and on moments.

ghost use Rattle.std.specs.Prelude.{◌≡◌, map, IfOk};
ghost use Rattle.tcl_host.specs.Outcomes.{EndsWith};
ghost use Rattle.conn_host.specs.Answers.{Finds};
ghost use Rattle.conn_host.specs.TextCommands.{encoded, moment, ns_urlencode, ns_urldecode, ns_time, ns_httptime};
ghost use Rattle.form_urlencoded.specs.Form.{decode, plus_to_space};

use crate::checks::{count, require_count};
use crate::conn::Conn;
use http_resp::fixdate;
use natives::Fault;
use percent_encoding::{AsciiSet, NON_ALPHANUMERIC, ascii_set, percent_decode, percent_encode};
use std::alloc::Global;
use tcl_host::require_fit;
use txt_core::{LAST_MOMENT, NoMemory, Text, Words, write_natural};

/// The bytes that are escaped: all but letters, digits and `-_.~`.
const RESERVED: AsciiSet = ascii_set!(
    NON_ALPHANUMERIC
        .remove(b'-')
        .remove(b'_')
        .remove(b'.')
        .remove(b'~')
);

/// The text with each byte but letters, digits and `-_.~` escaped.
#[tactic(auto, using(crate::proofs::Escaping::reserved_are_escaped))]
fn encoded(alloc: Global, bytes: &[u8]) -> Result<Text, NoMemory>
    ensures { IfOk result (λ text. text ≡ encoded bytes.now) }
{
    let mut text = String::new(alloc);
    percent_encode(bytes, RESERVED).append_to(&mut text)?;
    Ok(Text::from_vec(text.into_bytes()))
}

/// The bytes with a space for each `+`.
fn spaced(alloc: Global, bytes: &[u8]) -> Result<Vec<u8>, NoMemory>
    ensures { IfOk result (λ spaced. spaced.items ≡ map plus_to_space bytes.now) }
{
    let spaced = bytes
        .iter()
        .map(|byte| if *byte == b'+' { b' ' } else { *byte });
    Ok(spaced.collect(alloc)?)
}

/// The text in which each `+` is a space and what is percent-encoded is then decoded.
fn decoded(alloc: Global, bytes: &[u8]) -> Result<Text, NoMemory>
    ensures { IfOk result (λ text. text ≡ decode bytes.now) }
{
    let spaced = spaced(alloc, bytes)?;
    let mut text = Vec::new(alloc);
    percent_decode(&spaced).append_to(&mut text)?;
    Ok(Text::from_vec(text))
}

/// `ns_urlencode TEXT`.
#[tactic(auto, using(crate::proofs::Exits::exits))]
pub fn ns_urlencode(host: &mut Conn, words: &Words) -> Result<Text, Fault>
    ensures { EndsWith result host.new (ns_urlencode words.now host.old) }
{
    require_count(host.alloc, 2, 2, words)?;
    Ok(encoded(host.alloc, words.bytes_at(1))?)
}

/// `ns_urldecode TEXT`.
#[tactic(auto, using(crate::proofs::Exits::exits))]
pub fn ns_urldecode(host: &mut Conn, words: &Words) -> Result<Text, Fault>
    ensures { EndsWith result host.new (ns_urldecode words.now host.old) }
{
    require_count(host.alloc, 2, 2, words)?;
    Ok(decoded(host.alloc, words.bytes_at(1))?)
}

/// `ns_time` gives the moment of the run.
#[tactic(auto, using(crate::proofs::Exits::exits))]
pub fn ns_time(host: &mut Conn, words: &Words) -> Result<Text, Fault>
    ensures { EndsWith result host.new (ns_time words.now host.old) }
{
    require_count(host.alloc, 1, 1, words)?;
    Ok(write_natural(host.alloc, host.moment)?)
}

/// The moment that the second word is.
#[tactic(auto, using(crate::proofs::Finding::missing))]
fn moment(alloc: Global, words: &Words) -> Result<u64, Fault>
    ensures { Finds result (moment words.now) }
{
    let moment = count(alloc, words, 1)?;
    require_fit(alloc, moment <= LAST_MOMENT, words, 1)?;
    Ok(moment)
}

/// `ns_httptime MOMENT` gives the moment as a date of HTTP.
#[tactic(auto, using(crate::proofs::Exits::exits))]
pub fn ns_httptime(host: &mut Conn, words: &Words) -> Result<Text, Fault>
    ensures { EndsWith result host.new (ns_httptime words.now host.old) }
{
    require_count(host.alloc, 2, 2, words)?;
    let moment = moment(host.alloc, words)?;
    Ok(Text::new(host.alloc, &fixdate(moment))?)
}
