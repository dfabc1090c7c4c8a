//! The lines that stand before the data of the chunks of a body (RFC 9112, section 7.1).

ghost use Rattle.std.specs.Prelude.{◌≡◌, ◌≤◌, length};
ghost use Rattle.http_req.specs.ChunkLines.{is_text_byte, behind_size, behind_semicolon, line_step, chunk_line};
ghost use Rattle.http_req.specs.ChunkLines.{IsLineWithin};
ghost use Rattle.http_req.specs.declared.chunk_line.LineSpot.TheVariants as spot;

/// A size has at most so many digits.
const SIZE_DIGIT_LIMIT: usize = 15;

/// A chunk line has at most so many bytes before the CR LF that ends it.
const LINE_ROOM: usize = 1_022;

/// Where in a chunk line a reading stands.
#[derive(Clone, Copy, Debug, PartialEq, Eq)]
pub(crate) enum LineSpot {
    /// At the begin, or behind digits.
    Size,
    /// Behind the size and some spaces and tabs.
    Blanks,
    /// Behind the semicolon.
    Extension,
    /// Behind the CR.
    Return,
}

/// What a further byte does.
#[derive(Clone, Copy, Debug, PartialEq, Eq)]
pub(crate) enum LineStep {
    /// It is a digit of the size, of this value.
    Digit(u64),
    /// It leads here.
    Go(LineSpot),
    /// It ends the line.
    End,
    /// No chunk line has it here.
    Bad,
}

/// What the front of a text is, as a chunk line.
#[derive(Clone, Copy, Debug, PartialEq, Eq)]
pub(crate) enum ChunkLine {
    /// A whole line: the size that it writes, and how many bytes it takes.
    Whole { size: u64, taken: usize },
    /// A byte of it no chunk line has there.
    Bad,
    /// The text ends inside the line.
    Cut,
}

/// The chunk line at the front of a text.
pub(crate) fn chunk_line(text: &[u8]) -> ChunkLine
    ensures is { result ≡ chunk_line text.now }
    ensures within { IsLineWithin (length text.now) result }
{
    let mut spot = LineSpot::Size;
    let mut size = 0;
    let mut at = 0;
    for byte in text {
        match line_step(spot, at, *byte) {
            LineStep::Digit(value) => {
                size = 16 * size + value;
                spot = LineSpot::Size;
            }
            LineStep::Go(to) => spot = to,
            LineStep::End => {
                return ChunkLine::Whole {
                    size,
                    taken: at + 1,
                };
            }
            LineStep::Bad => return ChunkLine::Bad,
        }
        at += 1;
    }
    ChunkLine::Cut
}

fn line_step(spot: LineSpot, at: usize, byte: u8) -> LineStep
    ensures { result ≡ line_step spot at byte }
{
    match spot {
        LineSpot::Size => size_step(at, byte),
        LineSpot::Blanks => behind_size(at, byte),
        LineSpot::Extension => behind_semicolon(at, byte),
        LineSpot::Return => {
            if byte == b'\n' {
                LineStep::End
            } else {
                LineStep::Bad
            }
        }
    }
}

fn size_step(at: usize, byte: u8) -> LineStep
    ensures { result ≡ line_step spot.Size at byte }
{
    if at < SIZE_DIGIT_LIMIT
        && let Some(value) = char::from(byte).to_digit(16)
    {
        return LineStep::Digit(u64::from(value));
    }
    if at == 0 {
        LineStep::Bad
    } else {
        behind_size(at, byte)
    }
}

fn behind_size(at: usize, byte: u8) -> LineStep
    ensures { result ≡ behind_size at byte }
{
    if byte == b'\r' {
        LineStep::Go(LineSpot::Return)
    } else if at >= LINE_ROOM {
        LineStep::Bad
    } else if byte == b' ' || byte == b'\t' {
        LineStep::Go(LineSpot::Blanks)
    } else if byte == b';' {
        LineStep::Go(LineSpot::Extension)
    } else {
        LineStep::Bad
    }
}

fn behind_semicolon(at: usize, byte: u8) -> LineStep
    ensures { result ≡ behind_semicolon at byte }
{
    if byte == b'\r' {
        LineStep::Go(LineSpot::Return)
    } else if at < LINE_ROOM && is_text_byte(byte) {
        LineStep::Go(LineSpot::Extension)
    } else {
        LineStep::Bad
    }
}

/// Whether the byte may stand in an extension or in a line of the trailer.
pub(crate) fn is_text_byte(byte: u8) -> bool
    ensures { result ≡ is_text_byte byte }
{
    byte == b'\t' || (byte >= 32 && byte <= 126) || byte > 127
}
