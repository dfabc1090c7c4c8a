//! The texts of errors that only commands of a connection give. The only error of these calls is want
//! of memory.

ghost use Rattle.std.specs.Prelude.{◌≡◌, IfOk};
ghost use Rattle.conn_host.specs.Errors.{no_set, no_field, no_channel, too_many_channels};

use std::alloc::Global;
use txt_core::error_text::naming;
use txt_core::{NoMemory, Text, write_int};

/// No set stands under this id.
pub fn no_set(alloc: Global, id: &[u8]) -> Result<Text, NoMemory>
    ensures { IfOk result (λ text. text ≡ no_set id.now) }
{
    naming(alloc, b"no set \"", id, b"\"")
}

/// The set of this id has no field at this place.
pub fn no_field(alloc: Global, place: i64, id: &[u8]) -> Result<Text, NoMemory>
    ensures { IfOk result (λ text. text ≡ no_field place id.now) }
{
    let back = naming(alloc, b" in set \"", id, b"\"")?;
    let place = write_int(alloc, place)?;
    naming(alloc, b"no field ", place.bytes(), back.bytes())
}

/// No channel is open under this id.
pub fn no_channel(alloc: Global, id: &[u8]) -> Result<Text, NoMemory>
    ensures { IfOk result (λ text. text ≡ no_channel id.now) }
{
    naming(alloc, b"no channel \"", id, b"\"")
}

/// As many channels are open as may be.
pub fn too_many_channels(alloc: Global) -> Result<Text, NoMemory>
    ensures { IfOk result (λ text. text ≡ too_many_channels) }
{
    Text::new(alloc, b"too many channels")
}
