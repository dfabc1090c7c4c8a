//! The responses that commands give, and their bytes.

use crate::rows::{RESPONSES, SENT};
use crate::telling::{Told, add_part, came, is_text, on_form, parts, put, spelled, told_on};
use conn_host::ConnHost;
use http_resp::{Response, response_bytes};
use std::alloc::Global;
use txt_core::{Text, write_natural};

/// Adds an output field.
fn add_field(told: &mut Text, key: &[u8], value: &[u8]) {
    put(told, key);
    put(told, b"=");
    put(told, value);
    put(told, b";");
}

/// Adds a number.
fn add_number(alloc: Global, told: &mut Text, number: u16) {
    if let Ok(digits) = write_natural(alloc, u64::from(number)) {
        put(told, digits.bytes());
    }
}

/// The status, type and body of a response, each with a bar behind it, and each output field.
fn tell_response(alloc: Global, told: &mut Text, response: &Response) {
    add_number(alloc, told, response.status);
    add_part(told, response.kind.bytes());
    add_part(told, response.body.bytes());
    put(told, b"|");
    for (key, value) in response.fields.as_slice() {
        add_field(told, key.bytes(), value.bytes());
    }
}

/// Does the commands of a line in order; what the last comes to.
fn done(alloc: Global, host: &mut ConnHost, line: &str) -> Text {
    match line.split_once(" then ") {
        Some((before, last)) => {
            let _before = came(alloc, host, before);
            came(alloc, host, last)
        }
        None => came(alloc, host, line),
    }
}

/// What commands come to, and the response where one was given.
pub fn given(alloc: Global, host: &mut ConnHost, line: &str) -> Text {
    let mut told = done(alloc, host, line);
    if let Some(response) = host.response() {
        put(&mut told, b" and ");
        tell_response(alloc, &mut told, response.get());
    }
    told
}

/// Whether the commands of a row on the request of a form come to what it says.
fn is_given(alloc: Global, row: &str) -> bool {
    let (line, want) = parts(row);
    let told = told_on(alloc, on_form(alloc), Told::Response, line);
    is_text(alloc, &told, want)
}

/// The place of the first row that is wrong, if there is one.
fn first_not_given(alloc: Global) -> Option<usize> {
    for (at, row) in RESPONSES.lines().enumerate() {
        if !is_given(alloc, row) {
            return Some(at);
        }
    }
    None
}

#[test]
fn responses(rt: HostRuntime) {
    assert_eq!(rt; first_not_given(rt.alloc()), None);
}

/// The bytes of a response, at the moment 0 on a connection that is kept; none where memory wants.
fn bytes_of(alloc: Global, response: &Response) -> Text {
    match response_bytes(alloc, response, 0, false, false) {
        Ok(bytes) => bytes,
        Err(_) => Text::empty(alloc),
    }
}

/// The bytes of the response that commands give.
pub fn sent(alloc: Global, host: &mut ConnHost, line: &str) -> Text {
    let _done = done(alloc, host, line);
    match host.response() {
        Some(response) => bytes_of(alloc, response.get()),
        None => Text::empty(alloc),
    }
}

/// Whether bytes are those that a part of a row spells, behind their number and a space.
fn is_wire(alloc: Global, told: &Text, want: &str) -> bool {
    let (length, bytes) = want.split_once(" ").unwrap_or(("", want));
    let is_long = length.parse::<usize>().ok() == Some(told.len());
    is_long && told.bytes() == spelled(alloc, bytes, b"\r\n").bytes()
}

/// Whether the commands of a row on the request of a form give a response of the bytes that it says.
fn is_sent(alloc: Global, row: &str) -> bool {
    let (line, want) = parts(row);
    let told = told_on(alloc, on_form(alloc), Told::Wire, line);
    is_wire(alloc, &told, want)
}

/// The place of the first row that is wrong, if there is one.
fn first_not_sent(alloc: Global) -> Option<usize> {
    for (at, row) in SENT.lines().enumerate() {
        if !is_sent(alloc, row) {
            return Some(at);
        }
    }
    None
}

#[test]
fn responses_on_the_wire(rt: HostRuntime) {
    assert_eq!(rt; first_not_sent(rt.alloc()), None);
}
