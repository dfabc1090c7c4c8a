//! The commands that tell of the request.

ghost use Rattle.std.specs.Prelude.{◌≡◌, ◌<◌, ◌++◌, IfOk, take, drop, length, codes, flat_map};
ghost use Rattle.txt_core.specs.Names.{Bytes};
ghost use Rattle.txt_core.specs.ErrorTexts.{no_connection};
ghost use Rattle.ns_sets.specs.Fields.{ignoring_case, holds};
ghost use Rattle.ns_sets.specs.Sets.{fields_of};
ghost use Rattle.tcl_host.specs.Outcomes.{EndsWith};
ghost use Rattle.conn_host.specs.Answers.{Finds};
ghost use Rattle.conn_host.specs.Conns.{form_set};
ghost use Rattle.conn_host.specs.RequestCommands.{path_of, version_of, request_line, not_long, content, tells, ns_conn, query_value, ns_queryget};

use crate::authorization::credentials_of;
use crate::checks::{count, require_count, unknown_subcommand};
use crate::conn::{Conn, FORM_SET, HEADERS_SET, OUTPUT_SET, kept};
use crate::conn_verb::{ConnVerb, find_conn_verb};
use crate::id::set_id;
use crate::responding::require_connection;
use http_req::Request;
use natives::{Fault, word_at};
use std::alloc::Global;
use tcl_host::require_words;
use tcl_list::quote;
use txt_core::{NoMemory, Text, Words, error_text, is_over_limit, write_natural};

/// The segments, each behind a slash.
fn slashed(alloc: Global, segments: &[Text]) -> Result<Text, NoMemory>
    ensures { IfOk result (λ path.
        path ≡ flat_map (λ (segment : Bytes). codes "/" ++ segment) segments.now) }
{
    let mut path = Text::empty(alloc);
    'segments: for segment in segments {
        path.append(b"/")?;
        path.append(segment.bytes())?;
    }
    Ok(path)
}

/// The path of a request: a slash, and its segments with a slash between each two. Its only error is
/// want of memory.
pub fn path(alloc: Global, request: &Request) -> Result<Text, NoMemory>
    ensures { IfOk result (λ path. path ≡ path_of request.now) }
{
    if request.segments.is_empty() {
        return Text::new(alloc, b"/");
    }
    slashed(alloc, request.segments.as_slice())
}

/// The version of HTTP.
fn version(request: &Request) -> &'static [u8]
    ensures { result.now ≡ version_of request.now }
{
    if request.minor == 0 { b"1.0" } else { b"1.1" }
}

/// Method, target and version, with one space between each two.
fn request_line(alloc: Global, request: &Request) -> Result<Text, NoMemory>
    ensures { IfOk result (λ line. line ≡ request_line request.now) }
{
    let mut line = request.method.copy(alloc)?;
    line.append(b" ")?;
    line.append(request.target.bytes())?;
    line.append(b" ")?;
    line.append(version(request))?;
    Ok(line)
}

/// At most so many bytes from a place on, cut to what is there.
#[tactic(auto, using(crate::proofs::Telling::parts))]
fn part(bytes: &[u8], first: u64, most: u64) -> &[u8]
    ensures { result.now ≡ take most (drop first bytes.now) }
{
    if first >= bytes.len() as u64 {
        return &[];
    }
    let rest = &bytes[first as usize..];
    &rest[..rest.len().min(most as usize)]
}

/// A copy of a part of the body, where it isn't over the limit of a value.
fn not_long(alloc: Global, bytes: &[u8]) -> Result<Text, Fault>
    ensures { Finds result (not_long bytes.now) }
{
    if is_over_limit(bytes.len()) {
        return Err(Fault::saying(error_text::too_long(alloc)));
    }
    Ok(Text::new(alloc, bytes)?)
}

/// The body, or the part of it that the words say.
#[tactic(auto, using(crate::proofs::Finding::missing))]
fn content(alloc: Global, words: &Words, request: &Request) -> Result<Text, Fault>
    ensures { Finds result (content words.now request.now) }
{
    if words.len() == 2 {
        return not_long(alloc, request.body.bytes());
    }
    let first = count(alloc, words, 2)?;
    let most = count(alloc, words, 3)?;
    not_long(alloc, part(request.body.bytes(), first, most))
}

/// What a subcommand tells of the request.
fn tells(alloc: Global, verb: ConnVerb, words: &Words, request: &Request) -> Result<Text, Fault>
    ensures { Finds result (tells verb words.now request.now) }
{
    match verb {
        ConnVerb::Method => Ok(request.method.copy(alloc)?),
        ConnVerb::Url => Ok(path(alloc, request)?),
        ConnVerb::Query => Ok(request.query.copy(alloc)?),
        ConnVerb::Content => content(alloc, words, request),
        ConnVerb::Peeraddr => Ok(request.peer.copy(alloc)?),
        ConnVerb::Headers => Ok(set_id(alloc, HEADERS_SET)?),
        ConnVerb::Outputheaders => Ok(set_id(alloc, OUTPUT_SET)?),
        ConnVerb::Form => Ok(set_id(alloc, FORM_SET)?),
        ConnVerb::Contentlength => Ok(write_natural(alloc, request.body.len() as u64)?),
        ConnVerb::Urlv => Ok(quote(alloc, &request.segments)?),
        ConnVerb::Urlc => Ok(write_natural(alloc, request.segments.len() as u64)?),
        ConnVerb::Version => Ok(Text::new(alloc, version(request))?),
        ConnVerb::Request => Ok(request_line(alloc, request)?),
        ConnVerb::Authuser => Ok(credentials_of(alloc, &request.fields)?.user),
        ConnVerb::Authpassword => Ok(credentials_of(alloc, &request.fields)?.password),
    }
}

/// `ns_conn SUBCOMMAND`, and `ns_conn content ?FIRST COUNT?`.
#[tactic(auto, using(crate::proofs::Exits::exits))]
pub fn ns_conn(host: &mut Conn, words: &Words) -> Result<Text, Fault>
    ensures { EndsWith result host.new (ns_conn words.now host.old) }
{
    let alloc = host.alloc;
    require_count(alloc, 2, 4, words)?;
    let Some(verb) = find_conn_verb(words.bytes_at(1)) else {
        return Err(unknown_subcommand(alloc, words));
    };
    require_words(alloc, verb.takes(words.len()), words)?;
    let Some(request) = &host.request else {
        return Err(Fault::saying(error_text::no_connection(alloc)));
    };
    tells(alloc, verb, words, request.get())
}

/// Whether the form has a field of this key, ignoring case.
fn is_in_form(host: &Conn, key: &Text) -> bool
    ensures { result ≡ holds ignoring_case (fields_of host.now.sets form_set) key.now }
{
    match host.sets.ifind(FORM_SET, key) {
        Ok(place) => place >= 0,
        Err(_) => false,
    }
}

/// The value of the first field of the form with a key, ignoring case; where there is none, the word
/// behind the key, or the empty text.
#[tactic(auto, using(crate::proofs::Telling::finds))]
fn query_value(host: &Conn, words: &Words) -> Result<Text, NoMemory>
    requires { 1 < length words.now }
    ensures { IfOk result (λ value. value ≡ query_value words.now host.now) }
{
    let key = word_at(words, 1);
    if is_in_form(host, key) {
        kept(host.sets.iget(FORM_SET, key))
    } else {
        Text::new(host.alloc, words.bytes_at(2))
    }
}

/// `ns_queryget KEY ?DEFAULT?`.
#[tactic(auto, using(crate::proofs::Exits::exits))]
pub fn ns_queryget(host: &mut Conn, words: &Words) -> Result<Text, Fault>
    ensures { EndsWith result host.new (ns_queryget words.now host.old) }
{
    require_count(host.alloc, 2, 3, words)?;
    require_connection(host)?;
    Ok(query_value(host, words)?)
}
