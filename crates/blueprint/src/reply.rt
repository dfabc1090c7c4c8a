//! What is asked of a blueprint, and what it answers.

ghost use Rattle.std.specs.Prelude.{◌≡◌};
ghost use Rattle.blueprint.specs.declared.reply.ScriptFault.TheVariants.{NoMemory};

use cmd_table::Defs;
use txt_core::{NoMemory, Text};

/// What is asked.
#[derive(Debug, Drop)]
pub enum BlueCall {
    /// What is new since this epoch.
    Look(u64),
    /// Publish these definitions.
    Publish(Defs),
    /// Put the definitions of this script in the place of all.
    Save(Text),
}

/// What is answered.
#[derive(Debug, Drop)]
pub enum BlueReply {
    /// To a look.
    Look(Look),
    /// To a publication or a save.
    Published(Published),
}

/// What is new.
#[derive(Debug, Drop)]
pub enum Look {
    /// Nothing: the epoch is the same.
    Same,
    /// No save came between: these definitions were added since then.
    Since { epoch: u64, defs: Defs },
    /// All definitions.
    Whole { epoch: u64, defs: Defs },
    /// Memory ran out.
    NoMemory,
}

/// What comes of a publication or a save.
#[derive(Clone, Copy, Debug, PartialEq, Eq)]
pub enum Published {
    /// It is done, and this is the new epoch.
    Done(u64),
    /// The command of this number, from 0, is the first that is no definition.
    NotADefinition(u64),
    /// The definition at this place, from 0, is the first that doesn't apply.
    NotApplicable(u64),
    /// The blueprint would hold too much.
    Full(Limit),
    /// Memory ran out.
    NoMemory,
}

/// Of what a blueprint would hold too much.
#[derive(Clone, Copy, Debug, PartialEq, Eq)]
pub enum Limit {
    /// Definitions, or epochs.
    Count,
    /// Bytes of script.
    Bytes,
}

/// Why a script is none of definitions.
#[derive(Clone, Copy, Debug, PartialEq, Eq)]
pub enum ScriptFault {
    /// The command of this number, from 0, is the first that is no definition.
    NotADefinition(u64),
    /// Memory ran out.
    NoMemory,
}

impl From<NoMemory> for ScriptFault {
    ghost from_gives = { λ _ e. e ≡ NoMemory };

    fn from(_e: NoMemory) -> ScriptFault {
        ScriptFault::NoMemory
    }
}
