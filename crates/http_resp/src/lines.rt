//! A head is lines.

ghost use Rattle.std.specs.Prelude.{IsTrue};
ghost use Rattle.http_resp.specs.Lines.{holds_no_line_end, IsInLines};

use crate::response::Response;

/// No output field can end a line or begin one of its own: where the content's media type holds no
/// control byte, the head is its lines and no others, and none of them holds the end of a line.
///
/// This is a law. The function does nothing.
pub fn head_is_in_lines(_response: &Response, _moment: u64, _close: bool)
    requires { IsTrue (holds_no_line_end _response.now.kind) }
    ensures { IsInLines _response.now _moment _close }
{}
