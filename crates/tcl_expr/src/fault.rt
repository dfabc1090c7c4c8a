//! Why a text is no expression.

/// Why there is no expression.
#[derive(Clone, Copy, Debug, PartialEq, Eq)]
pub enum ExprText {
    /// The text is no expression: it can go on as one up to this byte, counted from 0, and not past
    /// it. At the end of the text the place is its length.
    Bad { at: u64 },
    /// Memory ran out.
    NoMemory,
}
