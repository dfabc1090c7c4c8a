//! A text with what it is as a script.

ghost use Rattle.std.specs.Prelude.{◌≡◌, IfOk};
ghost use Rattle.parse_cache.specs.Readings.{IsReading};

use crate::reading::Reading;
use std::alloc::Global;
use std::marker::Model;
use txt_core::{NoMemory, Text};

/// A text that was read as a script, with what it is. Contracts see the text.
#[derive(Debug, Drop)]
pub struct ReadScript {
    text: Text,
    reading: Reading,
}

impl Model for ReadScript {
    ghost use Rattle.std.specs.Coded.{coded_list, coded_ℕ};
    ghost use Rattle.txt_core.specs.Names.{Bytes};
    ghost use Rattle.parse_cache.specs.Readings.{IsReading};

    ghost Value = { Bytes };

    ghost coded = { coded_list coded_ℕ };

    ghost view = { λ a. a.text };

    ghost invariant = { λ a. IsReading a.text a.reading };
}

impl ReadScript {
    /// Reads a text. A text that spells no script is kept with its fault. The only error is want of
    /// memory.
    pub fn new(alloc: Global, text: Text) -> Result<ReadScript, NoMemory>
        ensures { IfOk result (λ read. read ≡ text) }
    {
        let reading = Reading::of(alloc, &text)?;
        Ok(ReadScript::with(text, reading))
    }

    /// A text with what it is as a script. The condition is that it is that.
    pub fn with(text: Text, reading: Reading) -> ReadScript
        requires { IsReading text reading }
        ensures { result ≡ text }
    {
        ReadScript { text, reading }
    }

    /// The text.
    pub fn text(&self) -> &Text
        ensures { result.now ≡ self.now }
    {
        &self.text
    }

    /// What the text is as a script, to be looked at.
    pub fn as_reading(&self) -> &Reading
        ensures { IsReading self.now result.now }
    {
        &self.reading
    }

    /// What the text is as a script; a script is shared. The only error is want of memory.
    pub fn reading(&self) -> Result<Reading, NoMemory>
        ensures { IfOk result (λ read. IsReading self.now read) }
    {
        let reading = self.reading.share()?;
        Ok(reading)
    }

    /// The same once more. Its script is shared, and its bytes are where they are shared already. The
    /// only error is want of memory.
    pub fn copy(&self, alloc: Global) -> Result<ReadScript, NoMemory>
        ensures { IfOk result (λ copied. copied ≡ self.now) }
    {
        let text = self.text.copy(alloc)?;
        let reading = self.reading.share()?;
        Ok(ReadScript::with(text, reading))
    }
}
