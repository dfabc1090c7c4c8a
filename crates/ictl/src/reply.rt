//! The responses that a request comes to.

ghost use Rattle.std.specs.Prelude.{◌≡◌, IfOk};
ghost use Rattle.std.specs.Option.{option_copied};
ghost use Rattle.http_resp.specs.Replies.{plain_reply};
ghost use Rattle.ictl.specs.Replies.{failed, budget_reply, nesting_reply, unauthorized, given_or_failed, procedure_reply, page_output, page_reply};
ghost use Rattle.ictl.specs.Main.{unentered};

use crate::ending::is_good;
use http_resp::status::{INTERNAL_SERVER_ERROR, NOT_FOUND, OK, UNAUTHORIZED};
use http_resp::{Response, SharedResponse, plain, text_reply};
use outside::Answer;
use server_host::RunHost;
use std::alloc::Global;
use txt_core::{NoMemory, Text};

/// What is said of a run that was spent.
pub const BUDGET_SPENT: &[u8] = b"budget spent";

/// What is said of a run that was too deep.
pub const NESTING_TOO_DEEP: &[u8] = b"nesting too deep";

/// The plain reply of a status.
#[inline(never)]
pub fn plain_reply(alloc: Global, status: u16) -> Result<SharedResponse, NoMemory>
    ensures { IfOk result (λ response. response ≡ plain_reply status) }
{
    SharedResponse::new(alloc, plain(alloc, status)?)
}

/// The reply of what fails.
#[cold]
#[inline(never)]
pub fn failed(alloc: Global) -> Result<SharedResponse, NoMemory>
    ensures { IfOk result (λ response. response ≡ failed) }
{
    plain_reply(alloc, INTERNAL_SERVER_ERROR)
}

/// The reply of a run that was spent.
#[cold]
#[inline(never)]
pub fn budget_reply(alloc: Global) -> Result<SharedResponse, NoMemory>
    ensures { IfOk result (λ response. response ≡ budget_reply) }
{
    let response = text_reply(alloc, INTERNAL_SERVER_ERROR, BUDGET_SPENT)?;
    SharedResponse::new(alloc, response)
}

/// The reply of a run that was too deep.
#[cold]
#[inline(never)]
pub fn nesting_reply(alloc: Global) -> Result<SharedResponse, NoMemory>
    ensures { IfOk result (λ response. response ≡ nesting_reply) }
{
    let response = text_reply(alloc, INTERNAL_SERVER_ERROR, NESTING_TOO_DEEP)?;
    SharedResponse::new(alloc, response)
}

/// The reply that asks for credentials (RFC 9110, section 11.6.1).
#[inline(never)]
pub fn unauthorized(alloc: Global) -> Result<SharedResponse, NoMemory>
    ensures { IfOk result (λ response. response ≡ unauthorized) }
{
    let mut response = plain(alloc, UNAUTHORIZED)?;
    let key = Text::new(alloc, b"WWW-Authenticate")?;
    let value = Text::new(alloc, b"Basic realm=\"server\"")?;
    response.fields.add((key, value))?;
    SharedResponse::new(alloc, response)
}

/// The response that was given; without one the request failed.
pub fn given_or_failed(
    alloc: Global,
    given: Option<&SharedResponse>,
) -> Result<SharedResponse, NoMemory>
    ensures { IfOk result (λ response. response ≡ given_or_failed (option_copied given.entry)) }
{
    match given {
        None => failed(alloc),
        Some(response) => response.share(),
    }
}

/// The response behind the procedure.
pub fn procedure_reply(
    alloc: Global,
    code: u8,
    given: Option<&SharedResponse>,
) -> Result<SharedResponse, NoMemory>
    ensures { IfOk result (λ response.
        response ≡ procedure_reply code (option_copied given.entry)) }
{
    if is_good(code) {
        given_or_failed(alloc, given)
    } else {
        failed(alloc)
    }
}

/// What the pages put out, as a response.
#[inline(never)]
fn page_output(alloc: Global, host: &RunHost) -> Result<SharedResponse, NoMemory>
    ensures { IfOk result (λ response. response ≡ page_output host.now) }
{
    let response = Response {
        status: OK,
        fields: host.output_fields()?,
        kind: Text::new(alloc, b"text/html")?,
        body: host.output().copy(alloc)?,
    };
    SharedResponse::new(alloc, response)
}

/// The response behind a first page.
pub fn page_reply(alloc: Global, host: &RunHost) -> Result<SharedResponse, NoMemory>
    ensures { IfOk result (λ response. response ≡ page_reply host.now) }
{
    match host.response() {
        Some(response) => response.share(),
        None => {
            if host.errors() > 0 {
                failed(alloc)
            } else {
                page_output(alloc, host)
            }
        }
    }
}

/// The response where the answer for a first page doesn't enter it.
#[inline(never)]
pub fn unentered(alloc: Global, answer: &Answer) -> Result<SharedResponse, NoMemory>
    ensures { IfOk result (λ response. response ≡ unentered answer.now) }
{
    match answer {
        Answer::NoPage => plain_reply(alloc, NOT_FOUND),
        Answer::Said(_) | Answer::Failed(_) | Answer::Page(_) | Answer::PageFault => failed(alloc),
    }
}
