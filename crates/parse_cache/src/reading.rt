//! What a text is as a script.

ghost use Rattle.std.specs.Prelude.{IfOk};
ghost use Rattle.parse_cache.specs.Readings.{IsReading, IsSameReading};

use std::alloc::Global;
use std::rc::Rc;
use tcl_parse::{Kind, ParseFault, Script, parse};
use txt_core::{NoMemory, Text};

/// What a text is as a script: the script that it spells, or else its one fault.
#[derive(Debug, Drop)]
pub enum Reading {
    /// The script that it spells.
    Script(Rc<Script>),
    /// It spells none: the first fault that is reached is of this kind, at this byte, counted from 0.
    Fault { at: u64, kind: Kind },
}

impl Reading {
    /// Reads a text. The only error is want of memory.
    pub fn of(alloc: Global, text: &Text) -> Result<Reading, NoMemory>
        ensures { IfOk result (λ read. IsReading text.now read) }
    {
        match parse(alloc, text) {
            Ok(script) => {
                let script = Rc::new(alloc, script)?;
                Ok(Reading::Script(script))
            }
            Err(ParseFault::Unclosed { at, kind }) => Ok(Reading::Fault { at, kind }),
            Err(ParseFault::NoMemory) => Err(NoMemory),
        }
    }

    /// The same once more: a script is shared. The only error is want of memory.
    pub fn share(&self) -> Result<Reading, NoMemory>
        ensures { IfOk result (λ shared. IsSameReading self.now shared) }
    {
        match self {
            Reading::Script(script) => {
                let script = script.clone()?;
                Ok(Reading::Script(script))
            }
            Reading::Fault { at, kind } => Ok(Reading::Fault {
                at: *at,
                kind: *kind,
            }),
        }
    }
}
