//! What is counted of a listing.

ghost use Rattle.std.specs.Prelude.{◌≡◌, IfOk};
ghost use Rattle.rehearse.specs.Summary.{nothing, one_if, summary, with_count};

use http_resp::status::{NOT_FOUND, OK};
use std::alloc::Global;
use txt_core::{NoMemory, Text};

/// How many responses of a listing have the status 200 and how many 404, and how many bytes all its
/// responses have. A count stands still at 2^64 - 1.
#[derive(Clone, Copy, Debug, PartialEq, Eq)]
pub struct Tally {
    pub found: u64,
    pub missing: u64,
    pub bytes: u64,
}

/// The count, with one more where it is so.
fn one_if(test: bool, count: u64) -> u64
    ensures { result ≡ one_if test count }
{
    if test { count.saturating_add(1) } else { count }
}

impl Tally {
    /// Nothing was counted.
    pub fn new() -> Tally
        ensures { result ≡ nothing }
    {
        Tally {
            found: 0,
            missing: 0,
            bytes: 0,
        }
    }

    /// Counts a response of this status and so many bytes.
    pub fn count(&mut self, status: u16, bytes: u64)
        ensures { self.new ≡ with_count self.old status bytes }
    {
        self.found = one_if(status == OK, self.found);
        self.missing = one_if(status == NOT_FOUND, self.missing);
        self.bytes = self.bytes.saturating_add(bytes);
    }

    /// The four lines that tell of so many requests and what was counted. The only error is want of
    /// memory.
    pub fn summary(&self, alloc: Global, requests: u32) -> Result<Text, NoMemory>
        ensures { IfOk result (λ text. text ≡ summary requests self.now) }
    {
        let Tally {
            found,
            missing,
            bytes,
        } = *self;
        let mut text = Text::empty(alloc);
        text.append(format!(in alloc; "requests {requests}\n")?.as_bytes())?;
        text.append(format!(in alloc; "status 200 {found}\n")?.as_bytes())?;
        text.append(format!(in alloc; "status 404 {missing}\n")?.as_bytes())?;
        text.append(format!(in alloc; "bytes {bytes}\n")?.as_bytes())?;
        Ok(text)
    }
}
