//! What holds of lines by themselves.

ghost use Rattle.std.specs.Prelude.{IfSome};
ghost use Rattle.txt_core.specs.Names.{Bytes};
ghost use Rattle.chan_core.specs.Lines.{line_of, behind_line, IsLine};

/// The line at the front of a text, a newline and what stands behind it are the text again; where
/// no newline is in it, the line is all. No line has a newline in it. It does nothing when it runs.
pub fn lines()
    ensures { (bytes : Bytes)
        → IfSome (line_of bytes) (λ line. IsLine bytes line (behind_line bytes)) }
{}
