//! The trailer of a chunked body (RFC 9112, section 7.1.2), which is read and dropped.

ghost use Rattle.std.specs.Prelude.{◌≡◌, ◌<◌};
ghost use Rattle.http_req.specs.Trailers.{in_line, trailer_step, trailer_from};
ghost use Rattle.http_req.specs.Limits.{trailer_limit};

use crate::chunk_line::is_text_byte;

/// A trailer has at most so many bytes.
const TRAILER_LIMIT: usize = 16_384;

/// Where in a trailer a reading stands.
#[derive(Clone, Copy, Debug, PartialEq, Eq)]
pub(crate) enum TrailerSpot {
    /// At the begin of a line.
    Begin,
    /// Behind some bytes of a line.
    Inside,
    /// Behind the CR of a line with text.
    Return,
    /// Behind the CR of the empty line.
    Last,
}

/// What a further byte does.
#[derive(Clone, Copy, Debug, PartialEq, Eq)]
pub(crate) enum TrailerStep {
    /// It leads here.
    Go(TrailerSpot),
    /// It ends the trailer.
    End,
    /// No trailer has it here.
    Bad,
}

/// What a text is, as a trailer.
#[derive(Clone, Copy, Debug, PartialEq, Eq)]
pub(crate) enum Trailer {
    /// A whole trailer, which takes so many bytes.
    Whole { taken: usize },
    /// A byte of it no trailer has there.
    Bad,
    /// It isn't whole in as many bytes as a trailer may take.
    Crowded,
    /// The text ends inside the trailer, at this spot.
    Cut(TrailerSpot),
}

/// The trailer of which so many bytes stand before the text, from a spot on.
pub(crate) fn trailer_from(from: TrailerSpot, before: usize, text: &[u8]) -> Trailer
    requires { before < trailer_limit }
    ensures { result ≡ trailer_from from before text.now }
{
    let mut spot = from;
    let mut at = before;
    for byte in text {
        match trailer_step(spot, *byte) {
            TrailerStep::Go(to) => spot = to,
            TrailerStep::End => return Trailer::Whole { taken: at + 1 },
            TrailerStep::Bad => return Trailer::Bad,
        }
        at += 1;
        if at == TRAILER_LIMIT {
            return Trailer::Crowded;
        }
    }
    Trailer::Cut(spot)
}

fn trailer_step(spot: TrailerSpot, byte: u8) -> TrailerStep
    ensures { result ≡ trailer_step spot byte }
{
    match spot {
        TrailerSpot::Begin => in_line(TrailerSpot::Last, byte),
        TrailerSpot::Inside => in_line(TrailerSpot::Return, byte),
        TrailerSpot::Return => {
            if byte == b'\n' {
                TrailerStep::Go(TrailerSpot::Begin)
            } else {
                TrailerStep::Bad
            }
        }
        TrailerSpot::Last => {
            if byte == b'\n' {
                TrailerStep::End
            } else {
                TrailerStep::Bad
            }
        }
    }
}

/// What a byte does in a line, whose CR leads here.
fn in_line(at_return: TrailerSpot, byte: u8) -> TrailerStep
    ensures { result ≡ in_line at_return byte }
{
    if byte == b'\r' {
        TrailerStep::Go(at_return)
    } else if is_text_byte(byte) {
        TrailerStep::Go(TrailerSpot::Inside)
    } else {
        TrailerStep::Bad
    }
}
