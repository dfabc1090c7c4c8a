//! What the commands of a connection come to.

use crate::rows::{
    CHANNELS, CLEARED, CONTROLS, CREDENTIALS, CROWDED, FORMS, LONG, OPENED, REQUESTED, SETS,
    WITHOUT,
};
use crate::telling::{
    Made, Told, add_part, add_word, call, came, first_wrong, is_text, long, marked, on, on_form,
    on_request, parts, put, request, told_on,
};
use conn_host::{ConnHost, credentials_of, path};
use std::alloc::Global;
use tcl_host::HostReply;
use txt_core::{Pairs, Text, Words};

/// How many channels may be open.
const MOST_CHANNELS: u8 = 64;

/// The place of the first row that a host of its own gets wrong, if there is one; that of none where memory
/// wants.
fn first_wrong_on(alloc: Global, made: Made, rows: &str) -> Option<usize> {
    match made {
        Ok(mut host) => {
            let wrong = first_wrong(alloc, &mut host, rows);
            drop(host);
            wrong
        }
        Err(_) => Some(usize::MAX),
    }
}

/// The same on the request of a form.
fn first_wrong_on_form(alloc: Global, rows: &str) -> Option<usize> {
    first_wrong_on(alloc, on_form(alloc), rows)
}

#[test]
fn sets(rt: HostRuntime) {
    assert_eq!(rt; first_wrong_on_form(rt.alloc(), SETS), None);
}

#[test]
fn requests(rt: HostRuntime) {
    assert_eq!(rt; first_wrong_on_form(rt.alloc(), REQUESTED), None);
}

#[test]
fn controls(rt: HostRuntime) {
    assert_eq!(rt; first_wrong_on_form(rt.alloc(), CONTROLS), None);
}

/// A command of two words.
fn two_words(alloc: Global, name: &[u8], bytes: &[u8]) -> Words {
    let mut words = Words::new(alloc);
    add_word(&mut words, marked(alloc, name, b""));
    add_word(&mut words, marked(alloc, bytes, b""));
    words
}

/// Whether a reply has this result.
fn gives(reply: &HostReply, want: &[u8]) -> bool {
    match reply {
        HostReply::Done { code: 0, result } => result.bytes() == want,
        _ => false,
    }
}

/// Whether a command of a host has this result.
fn call_gives(host: &mut ConnHost, words: &Words, want: &[u8]) -> bool {
    gives(&call(host, words), want)
}

/// Whether a command of two words has this result, whatever bytes the second has.
fn gives_bytes(alloc: Global, name: &[u8], bytes: &[u8], want: &[u8]) -> bool {
    let words = two_words(alloc, name, bytes);
    match on_form(alloc) {
        Ok(mut host) => {
            let is_right = call_gives(&mut host, &words, want);
            drop(host);
            is_right
        }
        Err(_) => false,
    }
}

#[test]
fn bytes_that_are_no_utf_8(rt: HostRuntime) {
    assert!(rt; gives_bytes(rt.alloc(), b"ns_urlencode", b"\xff\x00a", b"%FF%00a"));
    assert!(rt;
        gives_bytes(
            rt.alloc(),
            b"ns_urldecode",
            b"%fF%00\xc3+a",
            b"\xff\x00\xc3 a"
        )
    );
}

/// What a command on a place of the form comes to.
fn at_place(alloc: Global, host: &mut ConnHost, command: &str, place: u8) -> Text {
    match format!(in alloc; "ns_set|{command}|s2|{place}") {
        Ok(line) => came(alloc, host, line.as_str()),
        Err(_) => Text::empty(alloc),
    }
}

/// Adds the pair of a place of the form, where there is one.
fn add_pair(alloc: Global, host: &mut ConnHost, told: &mut Text, place: u8) {
    let key = at_place(alloc, host, "key", place);
    if let Some(key) = key.bytes().strip_prefix(b"=") {
        put(told, b";");
        put(told, key);
        put(told, at_place(alloc, host, "value", place).bytes());
    }
}

/// How many pairs the form of a host's request has, and each of them.
pub fn form(alloc: Global, host: &mut ConnHost) -> Text {
    let mut told = came(alloc, host, "ns_set|size|s2");
    for place in 0..8u8 {
        add_pair(alloc, host, &mut told, place);
    }
    told
}

/// The fields, the query and the body that a row spells; all of it and nothing, where it has no query or no
/// body.
fn sent_with(spelled: &str) -> (&str, (&str, &str)) {
    let (lines, sent) = spelled.split_once("|").unwrap_or((spelled, ""));
    (lines, sent.split_once("|").unwrap_or((sent, "")))
}

/// Whether the form of the request that a row spells is what it says.
fn is_form(alloc: Global, row: &str) -> bool {
    let (spelled, want) = parts(row);
    let (lines, (query, body)) = sent_with(spelled);
    let made = on_request(alloc, lines, query, body);
    told_on(alloc, made, Told::Form, "").bytes() == want.as_bytes()
}

/// The place of the first row that is wrong, if there is one.
fn first_wrong_form(alloc: Global) -> Option<usize> {
    for (at, row) in FORMS.lines().enumerate() {
        if !is_form(alloc, row) {
            return Some(at);
        }
    }
    None
}

#[test]
fn forms(rt: HostRuntime) {
    assert_eq!(rt; first_wrong_form(rt.alloc()), None);
}

/// The user and the password of a host's request.
pub fn user_and_password(alloc: Global, host: &mut ConnHost) -> Text {
    let mut told = came(alloc, host, "ns_conn|authuser");
    put(&mut told, came(alloc, host, "ns_conn|authpassword").bytes());
    told
}

/// Whether the user and the password of a request with the fields of a row are what it says.
fn is_credentials(alloc: Global, row: &str) -> bool {
    let (lines, want) = parts(row);
    let made = on_request(alloc, lines, "", "");
    told_on(alloc, made, Told::Credentials, "").bytes() == want.as_bytes()
}

/// The place of the first row that is wrong, if there is one.
fn first_wrong_credentials(alloc: Global) -> Option<usize> {
    for (at, row) in CREDENTIALS.lines().enumerate() {
        if !is_credentials(alloc, row) {
            return Some(at);
        }
    }
    None
}

#[test]
fn credentials(rt: HostRuntime) {
    assert_eq!(rt; first_wrong_credentials(rt.alloc()), None);
}

/// Adds the user and the password that fields name, each with a bar before it.
fn add_credentials(alloc: Global, told: &mut Text, fields: &Pairs) {
    if let Ok(found) = credentials_of(alloc, fields) {
        add_part(told, found.user.bytes());
        add_part(told, found.password.bytes());
    }
}

/// Whether the path of a request, its user and its password are these, with a bar between each two.
fn has_path_and_credentials(alloc: Global, want: &str) -> bool {
    let request = request(alloc, "Authorization: Basic YTpi", "", "");
    match path(alloc, &request) {
        Ok(mut told) => {
            add_credentials(alloc, &mut told, &request.fields);
            is_text(alloc, &told, want)
        }
        Err(_) => false,
    }
}

#[test]
fn what_the_server_asks_of_a_request(rt: HostRuntime) {
    assert!(rt; has_path_and_credentials(rt.alloc(), "/f/a b|a|b"));
}

#[test]
fn channels(rt: HostRuntime) {
    assert_eq!(rt; first_wrong_on_form(rt.alloc(), CHANNELS), None);
}

/// Opens so many channels.
fn open_channels(alloc: Global, host: &mut ConnHost, count: u8) {
    for _ in 0..count {
        let _came = came(alloc, host, "open|/t <- page|a");
    }
}

/// Opens as many channels as may be open, and then does the rows.
fn first_wrong_crowded(alloc: Global, made: Made) -> Option<usize> {
    match made {
        Ok(mut host) => {
            open_channels(alloc, &mut host, MOST_CHANNELS);
            let wrong = first_wrong(alloc, &mut host, CROWDED);
            drop(host);
            wrong
        }
        Err(_) => Some(usize::MAX),
    }
}

#[test]
fn answers_to_open(rt: HostRuntime) {
    assert_eq!(rt; first_wrong_on_form(rt.alloc(), OPENED), None);
    assert_eq!(rt; first_wrong_crowded(rt.alloc(), on_form(rt.alloc())), None);
}

/// Whether a host has so many output fields.
fn has_fields(host: &ConnHost, count: usize) -> bool {
    match host.output_fields() {
        Ok(fields) => fields.len() == count,
        Err(_) => false,
    }
}

/// Whether a host keeps a request and a response, or neither, and so many output fields.
fn keeps(host: &ConnHost, is_there: bool, output_fields: usize) -> bool {
    host.request().is_some() == is_there
        && host.response().is_some() == is_there
        && has_fields(host, output_fields)
}

/// Whether a host comes to what the rows of a run without a connection say, and keeps nothing then.
fn is_without(alloc: Global, host: &mut ConnHost) -> bool {
    first_wrong(alloc, host, WITHOUT).is_none() && keeps(host, false, 0)
}

/// The same of a host of its own.
fn made_is_without(alloc: Global, made: Made) -> bool {
    match made {
        Ok(mut host) => {
            let is_right = is_without(alloc, &mut host);
            drop(host);
            is_right
        }
        Err(_) => false,
    }
}

#[test]
fn without_a_connection(rt: HostRuntime) {
    let made = ConnHost::without(rt.alloc(), 5);
    assert!(rt; made_is_without(rt.alloc(), made));
}

/// Gives a host a channel, an output field and a response.
fn fill(alloc: Global, host: &mut ConnHost) {
    open_channels(alloc, host, 1);
    let _put = came(alloc, host, "ns_set|put|s1|X-A|b");
    let _returned = came(alloc, host, "ns_returnnotfound");
}

/// Takes back all that a run left.
fn clear(host: &mut ConnHost) {
    host.clear();
}

/// Whether a host keeps something of each kind that it was given, and nothing once it was cleared.
fn is_cleared(alloc: Global, host: &mut ConnHost) -> bool {
    fill(alloc, host);
    let kept = keeps(host, true, 1);
    clear(host);
    kept && keeps(host, false, 0) && first_wrong(alloc, host, CLEARED).is_none()
}

/// The same of a host of its own.
fn made_is_cleared(alloc: Global, made: Made) -> bool {
    match made {
        Ok(mut host) => {
            let is_right = is_cleared(alloc, &mut host);
            drop(host);
            is_right
        }
        Err(_) => false,
    }
}

#[test]
fn clearing(rt: HostRuntime) {
    assert!(rt; made_is_cleared(rt.alloc(), on_form(rt.alloc())));
}

/// A host on a request whose body is one byte longer than a value may be.
fn on_long_body(alloc: Global) -> Made {
    let mut request = request(alloc, "", "", "");
    request.body = long(alloc, 1_048_577);
    on(alloc, request)
}

/// How many bytes are told of what a command comes to.
fn length_told(alloc: Global, host: &mut ConnHost, line: &str) -> usize {
    came(alloc, host, line).len()
}

/// Whether parts of a long body are given, and the longest is.
fn is_long(alloc: Global, host: &mut ConnHost) -> bool {
    let right = first_wrong(alloc, host, LONG).is_none();
    right && length_told(alloc, host, "ns_conn|content|1|1048576") == 1_048_577
}

/// The same of a host of its own.
fn made_is_long(alloc: Global, made: Made) -> bool {
    match made {
        Ok(mut host) => {
            let is_right = is_long(alloc, &mut host);
            drop(host);
            is_right
        }
        Err(_) => false,
    }
}

#[test]
fn parts_of_a_long_body(rt: HostRuntime) {
    assert!(rt; made_is_long(rt.alloc(), on_long_body(rt.alloc())));
}
