//! What a bucket answers.

use txt_core::Text;

/// What a bucket answers.
#[derive(Drop)]
pub enum NsvReply {
    /// What the command gives.
    Said(Text),
    /// Why the command is refused; the bucket is as it was. Words that are no question on shared
    /// arrays are refused with the empty text.
    Failed(Text),
    /// Memory ran out, and the bucket is as it was.
    NoMemory,
}
