//! How scripts and runs end.

ghost use Rattle.std.specs.Prelude.{◌≡◌, []};
ghost use Rattle.tcl_host.specs.Codes as code_of;
ghost use Rattle.ictl.specs.Replies.{is_good, verdict_in, verdict, access_in, access};
ghost use Rattle.ictl.specs.Main.{both};

use http_resp::SharedResponse;
use std::alloc::Global;
use tcl_eval::Outcome;
use tcl_host::{OK, RETURN};
use txt_core::Text;

/// How the run of a request ended up to its response.
#[derive(Clone, Copy, Debug, PartialEq, Eq)]
pub enum Ending {
    /// It came to its end, well or not.
    Answered,
    /// It cost more than its budget.
    Spent,
    /// A script stood too deep.
    TooDeep,
}

/// What a filter says.
#[derive(Clone, Copy, Debug, PartialEq, Eq)]
pub enum Verdict {
    /// The next filter follows.
    Goes,
    /// The stage ends here.
    Breaks,
    /// The response is written next.
    Returns,
    /// The request fails.
    Fails,
}

/// What follows a filter up to the response.
#[derive(Debug, Drop)]
pub enum After {
    /// The next filter of its stage.
    Next,
    /// What is behind its stage.
    Behind,
    /// The writing of this response.
    Responds(SharedResponse),
}

/// What the authorisation says.
#[derive(Clone, Copy, Debug, PartialEq, Eq)]
pub enum Access {
    /// The request is allowed.
    Allowed,
    /// The user isn't known.
    Unauthorized,
    /// The user isn't allowed this.
    Forbidden,
    /// The request fails.
    Failed,
}

/// Whether a code is that of a good end.
pub fn is_good(code: u8) -> bool
    ensures { result ≡ is_good code }
{
    code == OK || code == RETURN
}

fn verdict_in(text: &Text) -> Verdict
    ensures { result ≡ verdict_in text.now }
{
    let bytes = text.bytes();
    if bytes == b"filter_ok".as_slice() {
        Verdict::Goes
    } else if bytes == b"filter_break".as_slice() {
        Verdict::Breaks
    } else if bytes == b"filter_return".as_slice() {
        Verdict::Returns
    } else {
        Verdict::Fails
    }
}

/// What a filter says by its code and its result.
pub fn verdict_of(code: u8, text: &Text) -> Verdict
    ensures { result ≡ verdict code text.now }
{
    if is_good(code) {
        verdict_in(text)
    } else {
        Verdict::Fails
    }
}

fn access_in(text: &Text) -> Access
    ensures { result ≡ access_in text.now }
{
    let bytes = text.bytes();
    if bytes == b"ok".as_slice() {
        Access::Allowed
    } else if bytes == b"unauthorized".as_slice() {
        Access::Unauthorized
    } else if bytes == b"forbidden".as_slice() {
        Access::Forbidden
    } else {
        Access::Failed
    }
}

/// What the authorisation says by its code and its result.
pub fn access_of(code: u8, text: &Text) -> Access
    ensures { result ≡ access code text.now }
{
    if is_good(code) {
        access_in(text)
    } else {
        Access::Failed
    }
}

/// How a request ended of which the part up to the response ended so, and that behind it so.
pub fn both(first: Ending, second: Outcome) -> Outcome
    ensures { result ≡ both first second }
{
    match first {
        Ending::Answered => second,
        Ending::Spent => Outcome::Spent,
        Ending::TooDeep => Outcome::TooDeep,
    }
}

/// How a run that was answered ends.
pub fn answered(alloc: Global) -> Outcome
    ensures { result ≡ Outcome.Done code_of.ok [] }
{
    Outcome::Done {
        code: OK,
        result: Text::empty(alloc),
    }
}
