//! The commands that give the response.

ghost use Rattle.std.specs.Prelude.{◌≡◌, ◌<◌, ◌∷◌, IfOk, codes, is_some, length};
ghost use Rattle.std.specs.List.{list_all, list_any};
ghost use Rattle.txt_core.specs.ErrorTexts.{no_connection};
ghost use Rattle.natives.specs.Words.{arg};
ghost use Rattle.tcl_host.specs.Outcomes.{EndsWith};
ghost use Rattle.conn_host.specs.Answers.{Finds, Passes};
ghost use Rattle.conn_host.specs.Conns.{output_fields};
ghost use Rattle.conn_host.specs.Responding.{is_control, is_shown, is_kind, is_url, status, typed, redirection, not_found, respond, ns_return, ns_returnredirect, ns_returnnotfound};

use crate::checks::require_count;
use crate::conn::Conn;
use crate::host::ConnHost;
use http_resp::status::{FOUND, NOT_FOUND};
use http_resp::{Response, SharedResponse, plain};
use natives::{Fault, word_at};
use std::alloc::Global;
use tcl_host::{integer, require_fit};
use txt_core::{NoMemory, Pairs, Text, Words, error_text};

/// The statuses of responses.
const LEAST_STATUS: i64 = 200;

const GREATEST_STATUS: i64 = 599;

/// Whether a byte is below 32 or 127.
fn is_control(byte: u8) -> bool
    ensures { result ≡ is_control byte }
{
    byte <= 31 || byte == 127
}

/// Whether a byte may stand in a URL.
fn is_shown(byte: u8) -> bool
    ensures { result ≡ is_shown byte }
{
    byte >= 33 && byte <= 126
}

/// Whether a text has a byte that no type may have.
fn has_control(text: &[u8]) -> bool
    ensures { result ≡ list_any is_control text.now }
{
    text.iter().any(|byte| is_control(*byte))
}

/// Whether a text may be the type of a response.
fn is_kind(text: &[u8]) -> bool
    ensures { result ≡ is_kind text.now }
{
    !has_control(text)
}

/// Whether each byte may stand in a URL.
fn all_shown(text: &[u8]) -> bool
    ensures { result ≡ list_all is_shown text.now }
{
    text.iter().all(|byte| is_shown(*byte))
}

/// Whether a text is a URL.
fn is_url(text: &[u8]) -> bool
    ensures { result ≡ is_url text.now }
{
    !text.is_empty() && all_shown(text)
}

/// The status that the second word is.
#[tactic(auto, using(crate::proofs::Finding::missing))]
fn status(alloc: Global, words: &Words) -> Result<u16, Fault>
    ensures { Finds result (status words.now) }
{
    let number = integer(alloc, words, 1)?;
    let fits = number >= LEAST_STATUS && number <= GREATEST_STATUS;
    require_fit(alloc, fits, words, 1)?;
    Ok(number as u16)
}

/// Goes on where the run has a connection.
pub fn require_connection(host: &Conn) -> Result<(), Fault>
    ensures { Passes result (is_some host.now.request) no_connection }
{
    if host.request.is_none() {
        return Err(Fault::saying(error_text::no_connection(host.alloc)));
    }
    Ok(())
}

/// Gives a response, where none was given.
#[tactic(auto, using(crate::proofs::Exits::exits))]
pub fn respond(host: &mut Conn, response: Response) -> Result<Text, Fault>
    ensures { EndsWith result host.new (respond response host.old) }
{
    if host.response.is_some() {
        return Err(Fault::saying(error_text::response_given(host.alloc)));
    }
    let shared = SharedResponse::new(host.alloc, response)?;
    host.response = Some(shared);
    Ok(Text::empty(host.alloc))
}

/// The response of this status with the type and the body that the words say.
fn typed(host: &ConnHost, status: u16, words: &Words) -> Result<Response, NoMemory>
    requires { 3 < length words.now }
    ensures { IfOk result (λ response.
        response ≡ typed status (arg words.now 2) words.now host.now) }
{
    Ok(Response {
        status,
        fields: host.output_fields()?,
        kind: word_at(words, 2).copy(host.alloc)?,
        body: word_at(words, 3).copy(host.alloc)?,
    })
}

/// `ns_return STATUS TYPE TEXT`.
#[tactic(auto, using(crate::proofs::Exits::exits))]
pub fn ns_return(host: &mut ConnHost, words: &Words) -> Result<Text, Fault>
    ensures { EndsWith result host.new (ns_return words.now host.old) }
{
    let alloc = host.alloc;
    require_count(alloc, 4, 4, words)?;
    host.require_connection()?;
    let status = status(alloc, words)?;
    require_fit(alloc, is_kind(words.bytes_at(2)), words, 2)?;
    let response = typed(host, status, words)?;
    host.respond(response)
}

/// The field Location of a URL, and behind it the output fields.
fn located(host: &Conn, url: &[u8]) -> Result<Pairs, NoMemory>
    ensures { IfOk result (λ fields.
        fields ≡ (codes "Location", url.now) ∷ output_fields host.now) }
{
    let mut fields = Pairs::new(host.alloc);
    fields.add((
        Text::new(host.alloc, b"Location")?,
        Text::new(host.alloc, url)?,
    ))?;
    host.add_output_fields(&mut fields)?;
    Ok(fields)
}

/// The plain reply of 302 with these fields.
fn redirection(host: &Conn, url: &[u8]) -> Result<Response, NoMemory>
    ensures { IfOk result (λ response. response ≡ redirection url.now host.now) }
{
    let mut response = plain(host.alloc, FOUND)?;
    response.fields = located(host, url)?;
    Ok(response)
}

/// `ns_returnredirect URL`.
#[tactic(auto, using(crate::proofs::Exits::exits))]
pub fn ns_returnredirect(host: &mut Conn, words: &Words) -> Result<Text, Fault>
    ensures { EndsWith result host.new (ns_returnredirect words.now host.old) }
{
    let alloc = host.alloc;
    require_count(alloc, 2, 2, words)?;
    require_connection(host)?;
    let url = words.bytes_at(1);
    require_fit(alloc, is_url(url), words, 1)?;
    let response = redirection(host, url)?;
    respond(host, response)
}

/// The plain reply of 404 with the output fields.
fn not_found(host: &Conn) -> Result<Response, NoMemory>
    ensures { IfOk result (λ response. response ≡ not_found host.now) }
{
    let mut response = plain(host.alloc, NOT_FOUND)?;
    response.fields = host.output_fields()?;
    Ok(response)
}

/// `ns_returnnotfound`.
#[tactic(auto, using(crate::proofs::Exits::exits))]
pub fn ns_returnnotfound(host: &mut Conn, words: &Words) -> Result<Text, Fault>
    ensures { EndsWith result host.new (ns_returnnotfound words.now host.old) }
{
    require_count(host.alloc, 1, 1, words)?;
    require_connection(host)?;
    let response = not_found(host)?;
    respond(host, response)
}
