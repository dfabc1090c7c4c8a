//! Copies of commands and of definitions. The only error of these calls is want of memory.

ghost use Rattle.std.specs.Prelude.{◌≡◌, ◌++◌, length, take, IfOk, OnOk};

use crate::command::Cmd;
use crate::definition::{Def, Defs};
use std::alloc::Global;
use txt_core::{NoMemory, Sequence, Text};

/// A text once more, of which copies are cheap: they share its bytes.
pub(crate) fn copy_to_share(alloc: Global, text: &Text) -> Result<Text, NoMemory>
    ensures { IfOk result (λ copy. copy ≡ text.now) }
{
    let mut copy = text.copy(alloc)?;
    copy.share(alloc)
}

/// A command once more.
pub(crate) fn copy_cmd(alloc: Global, cmd: &Cmd) -> Result<Cmd, NoMemory>
    ensures { IfOk result (λ copy. copy ≡ cmd.now) }
{
    Ok(match cmd {
        Cmd::Built(name) => Cmd::Built(name.copy(alloc)?),
        Cmd::Proc { params, body } => Cmd::Proc {
            params: params.copy(alloc)?,
            body: body.copy(alloc)?,
        },
    })
}

/// A definition once more.
pub fn copy_def(alloc: Global, def: &Def) -> Result<Def, NoMemory>
    ensures { IfOk result (λ copy. copy ≡ def.now) }
{
    Ok(match def {
        Def::Proc { name, params, body } => Def::Proc {
            name: name.copy(alloc)?,
            params: params.copy(alloc)?,
            body: body.copy(alloc)?,
        },
        Def::Rename { old, new } => Def::Rename {
            old: old.copy(alloc)?,
            new: new.copy(alloc)?,
        },
        Def::Route {
            method,
            url,
            inherit,
            words,
        } => Def::Route {
            method: method.copy(alloc)?,
            url: url.copy(alloc)?,
            inherit: *inherit,
            words: Sequence::of_copies(alloc, words.as_slice())?,
        },
        Def::Filter {
            when,
            method,
            pattern,
            words,
        } => Def::Filter {
            when: *when,
            method: method.copy(alloc)?,
            pattern: pattern.copy(alloc)?,
            words: Sequence::of_copies(alloc, words.as_slice())?,
        },
        Def::Cleanup { script } => Def::Cleanup {
            script: script.copy(alloc)?,
        },
        Def::Set { name, value } => Def::Set {
            name: name.copy(alloc)?,
            value: value.copy(alloc)?,
        },
    })
}

/// Puts definitions at the end of others, each once more, up to the first for which memory wants.
#[tactic(auto, using(std::proofs::lemmas::List::take_at))]
pub fn append_copies(alloc: Global, all: &mut Defs, defs: &[Def]) -> Result<(), NoMemory>
    ensures ok { OnOk result (all.new ≡ all.old ++ defs.now) }
    ensures front { take (length all.old) all.new ≡ all.old }
{
    'defs: for def in defs {
        all.add(copy_def(alloc, def)?)?;
    }
    Ok(())
}

/// Definitions once more, in their order.
pub fn copy_defs(alloc: Global, defs: &Defs) -> Result<Defs, NoMemory>
    ensures { IfOk result (λ copy. copy ≡ defs.now) }
{
    let mut copy = Sequence::new(alloc);
    append_copies(alloc, &mut copy, defs.as_slice())?;
    Ok(copy)
}
