//! What a request has at each stage, what is to be done next, and what came of it.

use cmd_table::When;

/// How many filters and cleanup scripts a request has, and whether there is an authorisation.
#[derive(Clone, Copy, Debug, PartialEq, Eq)]
pub struct Counts {
    /// The filters before the authorisation.
    pub preauth: u32,
    /// Whether the request is authorised at all.
    pub authorise: bool,
    /// The filters between the authorisation and the procedure or page.
    pub postauth: u32,
    /// The filters once the response was written.
    pub trace: u32,
    /// The cleanup scripts.
    pub cleanup: u32,
}

/// What is to be done next.
#[derive(Clone, Copy, Debug, PartialEq, Eq)]
pub enum Do {
    /// Call the filter of this stage at this place, counted from 0 in the order of registration.
    Filter { when: When, index: u32 },
    /// Ask whether the request is allowed.
    Authorise,
    /// Call the procedure, or run the page.
    Serve,
    /// Write the response.
    Write,
    /// Run the cleanup script at this place, counted from 0.
    Cleanup { index: u32 },
    /// Nothing: the request is done.
    End,
}

/// What came of it.
#[derive(Clone, Copy, Debug, PartialEq, Eq)]
pub enum Event {
    /// The request begins: nothing was asked yet.
    Begin,
    /// The filter lets its stage go on.
    FilterOk,
    /// The filter ends its stage, and nothing else.
    FilterBreak,
    /// The filter has the response written next.
    FilterReturn,
    /// The request is allowed.
    Allowed,
    /// It isn't, and has the response that says so.
    Denied,
    /// The procedure or page is done.
    Served,
    /// The filter, the authorisation, the procedure or the page failed.
    Failed,
    /// The response was written whole.
    Written,
    /// It wasn't.
    NotWritten,
    /// The cleanup script was run, whatever came of it.
    Ran,
}
