//! What holds of the rules themselves.

ghost use Rattle.std.specs.Prelude.{◌≡◌};
ghost use Rattle.txt_core.specs.Names.{Bytes};
ghost use Rattle.http_req.specs.declared.chunk_line.ChunkLine.TheVariants as line;
ghost use Rattle.http_req.specs.ChunkLines.{chunk_line, BeginsLine};

/// A text is bad as a chunk line only where no chunk line begins with it, and cut only where one does. So
/// a line is refused at the first byte with which none goes on, and not before. It does nothing when it
/// runs.
pub fn bad_at_the_first_byte()
    ensures bad { (text : Bytes) → chunk_line text ≡ line.Bad → BeginsLine text → ⊥ }
    ensures cut { (text : Bytes) → chunk_line text ≡ line.Cut → BeginsLine text }
{}
