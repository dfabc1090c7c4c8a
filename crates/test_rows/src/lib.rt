//! How rows of cases are spelled: programs that try cases read a row a line, and write each with its answer.
//!
//! A row is a name and fields, with ` | ` before each field. In a field a backquote begins an escape: `e`
//! spells nothing, `s` a space, `n` a newline, `t`, `r`, `v` and `f` the other blanks, `b` a bar, `q` a
//! backquote, and `x` with two digits any byte. Between a backquote with `{` and one with `}3;` stands what
//! is there three times.
#![tactic(auto)]

mod reading;
mod row;
mod writing;

pub use reading::{count_in, read_fields, row_name};
pub use row::{Row, find};
pub use writing::Answer;
