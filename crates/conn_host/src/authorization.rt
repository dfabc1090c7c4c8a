//! The credentials of a request.

ghost use Rattle.std.specs.Prelude.{◌≡◌, IfOk};
ghost use Rattle.base64.specs.Engines.{standard};
ghost use Rattle.base64.specs.GeneralPurpose.{decoded_of};
ghost use Rattle.conn_host.specs.Credentials.{user_and_password, shown_by, shown_in, credentials};

use base64::DecodeAllocError;
use base64::engine::general_purpose::STANDARD;
use std::alloc::Global;
use txt_core::{NoMemory, Pairs, Text, place_of};

/// How a value with credentials begins.
const SCHEME: &[u8] = b"Basic ";

/// A user and a password.
#[derive(Debug, Drop)]
pub struct Credentials {
    pub user: Text,
    pub password: Text,
}

/// The user in front of the first colon and the password behind it; `None` where there is no colon.
fn user_and_password(alloc: Global, bytes: &[u8]) -> Result<Option<Credentials>, NoMemory>
    ensures { IfOk result (λ found. found ≡ user_and_password bytes.now) }
{
    match place_of(b':', bytes) {
        Some(at) => Ok(Some(Credentials {
            user: Text::new(alloc, &bytes[..at])?,
            password: Text::new(alloc, &bytes[at + 1..])?,
        })),
        None => Ok(None),
    }
}

/// The bytes that a text in base64 stands for; `None` where it isn't base64 with its padding.
fn decoded(alloc: Global, text: &[u8]) -> Result<Option<Text>, NoMemory>
    ensures { IfOk result (λ bytes. bytes ≡ decoded_of standard text.now) }
{
    match STANDARD.decode(alloc, text) {
        Ok(bytes) => Ok(Some(Text::from_vec(bytes))),
        Err(DecodeAllocError::DecodeError(_)) => Ok(None),
        Err(DecodeAllocError::OutOfMemory) => Err(NoMemory),
    }
}

/// The credentials that the value of an Authorization field shows.
fn shown_by(alloc: Global, value: &[u8]) -> Result<Option<Credentials>, NoMemory>
    ensures { IfOk result (λ found. found ≡ shown_by value.now) }
{
    if !value.starts_with(SCHEME) {
        return Ok(None);
    }
    match decoded(alloc, &value[SCHEME.len()..])? {
        Some(bytes) => user_and_password(alloc, bytes.bytes()),
        None => Ok(None),
    }
}

/// The credentials that a field shows.
fn shown_in(alloc: Global, field: &(Text, Text)) -> Result<Option<Credentials>, NoMemory>
    ensures { IfOk result (λ found. found ≡ shown_in field.now) }
{
    if !field.0.bytes().eq_ignore_ascii_case(b"authorization") {
        return Ok(None);
    }
    shown_by(alloc, field.1.bytes())
}

/// The user and the password of a request with these fields (RFC 7617): those of the first
/// Authorization field that has the form `Basic`, one space and base64 with its padding of bytes that
/// hold a colon. Two empty texts where there is none. The only error is want of memory.
#[tactic(auto, using(crate::proofs::Showing::first_from))]
pub fn credentials_of(alloc: Global, fields: &Pairs) -> Result<Credentials, NoMemory>
    ensures { IfOk result (λ found. found ≡ credentials fields.now) }
{
    'fields: for field in fields.as_slice() {
        if let Some(found) = shown_in(alloc, field)? {
            return Ok(found);
        }
    }
    Ok(Credentials {
        user: Text::empty(alloc),
        password: Text::empty(alloc),
    })
}
