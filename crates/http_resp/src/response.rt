//! What a request is answered with.

use txt_core::{Pairs, Text};

/// What a request is answered with.
#[derive(Debug, Drop)]
pub struct Response {
    /// The status code.
    pub status: u16,
    /// The output fields, in the order in which they are sent.
    pub fields: Pairs,
    /// The content's media type, which is sent as it stands: whoever takes one from a script refuses
    /// control bytes in it.
    pub kind: Text,
    /// The content.
    pub body: Text,
}
