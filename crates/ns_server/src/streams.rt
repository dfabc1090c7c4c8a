//! The standard streams as a source and sinks. They tell nothing of their content.

ghost use Rattle.std.specs.Prelude.{◌≡◌};

use outside::{ReadAnswer, Sink, Source, WriteAnswer};
use std::io::{Read, Write};

/// A source over a reader. Each read that fails counts as a fault, and the count stands still at 2^64 - 1.
#[derive(Drop)]
pub struct ReaderSource<R> {
    reader: R,
    faults: u64,
}

impl<R> ReaderSource<R> {
    /// No fault was met yet.
    pub fn new(reader: R) -> Self
        ensures { result ≡ record { reader = reader; faults = 0 } }
    {
        ReaderSource { reader, faults: 0 }
    }
}

impl<R: Read> Source for ReaderSource<R> {
    ghost use Rattle.std.specs.Prelude.{None};

    ghost rest = { λ s. None };

    ghost faults = { λ s. s.faults };

    fn read(&mut self, into: &mut [u8]) -> ReadAnswer {
        match self.reader.read(into) {
            Ok(count) => ReadAnswer::Bytes(count),
            Err(_) => {
                self.faults = self.faults.saturating_add(1);
                ReadAnswer::Failed
            }
        }
    }
}

/// A sink over a writer that keeps nothing back: what a write took is on its way when the write returns.
/// Each write that fails or takes nothing counts as a fault, and the count stands still at 2^64 - 1.
#[derive(Drop)]
pub struct WriterSink<W> {
    writer: W,
    faults: u64,
}

impl<W> WriterSink<W> {
    /// No fault was met yet.
    pub fn new(writer: W) -> Self
        ensures { result ≡ record { writer = writer; faults = 0 } }
    {
        WriterSink { writer, faults: 0 }
    }
}

impl<W: Write> Sink for WriterSink<W> {
    ghost use Rattle.std.specs.Prelude.{None};

    ghost taken = { λ s. None };

    ghost faults = { λ s. s.faults };

    fn write(&mut self, piece: &[u8]) -> WriteAnswer {
        match self.writer.write(piece) {
            Ok(count) if count > 0 => WriteAnswer::Took(count),
            _ => {
                self.faults = self.faults.saturating_add(1);
                WriteAnswer::Failed
            }
        }
    }
}
