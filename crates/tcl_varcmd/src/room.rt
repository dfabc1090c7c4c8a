//! Room for the refusal of a removal, taken before anything is removed.

ghost use Rattle.std.specs.Prelude.{◌≡◌, ◌≢◌, ◌≤◌, ◌+◌, ◌++◌, ◌<◌, length, [], IfOk};
ghost use Rattle.std.specs.Vec.{vec_capacity, vec_len};
ghost use Rattle.txt_core.specs.ErrorTexts.{naming};
ghost use Rattle.tcl_varcmd.specs.Answers.{Refuses};
ghost use Rattle.tcl_varcmd.specs.Linking.{AreWithin, AreFitting};

use natives::Fault;
use std::alloc::Global;
use tcl_frame::VarFault;
use txt_core::error_text::{
    CANT_READ, EXISTS, IS_AN_ARRAY, IS_NO_ARRAY, NO_SUCH_VARIABLE, VARIABLE,
};
use txt_core::{NoMemory, Text};

/// How many bytes the longest refusal of a removal has beside the name: those of `CANT_READ` and
/// `NO_SUCH_VARIABLE`.
const AROUND: usize = 32;

/// The larger one of two numbers.
fn larger(one: usize, other: usize) -> usize
    ensures one { one ≤ result }
    ensures other { other ≤ result }
{
    if one < other { other } else { one }
}

/// How many bytes the longest of these names has.
fn longest(names: &[Text]) -> usize
    ensures { AreWithin result names.now }
{
    let mut most = 0;
    'names: for name in names {
        most = larger(most, name.len());
    }
    most
}

/// Room for the longest refusal of a removal of one of these names.
pub(crate) fn room_for(alloc: Global, names: &[Text]) -> Result<Vec<u8>, NoMemory>
    ensures empty { IfOk result (λ room. room.items ≡ []) }
    ensures room { IfOk result (λ room. AreFitting (vec_capacity room) names.now) }
{
    let most = longest(names);
    if most > usize::MAX - AROUND {
        return Err(NoMemory);
    }
    Ok(Vec::with_capacity(alloc, most + AROUND)?)
}

/// Three texts as one, in room that is there.
fn naming_within(room: Vec<u8>, front: &[u8], name: &[u8], back: &[u8]) -> Vec<u8>
    requires empty { room.items ≡ [] }
    requires room { length front.now + length name.now + length back.now ≤ vec_capacity room }
    ensures { result.items ≡ naming front.now name.now back.now }
{
    let mut text = room;
    let _fits = text.extend_from_slice(front);
    let _fits = text.extend_from_slice(name);
    let _fits = text.extend_from_slice(back);
    text
}

/// Why a variable can't be removed, in room that was taken for it.
pub(crate) fn refusal_within(room: Vec<u8>, fault: VarFault, name: &Text) -> Fault
    requires empty { room.items ≡ [] }
    requires room { length name.now + 32 ≤ vec_capacity room }
    requires fault { fault ≢ VarFault.NoMemory }
    ensures text { Refuses fault name.now result }
    ensures memory { result ≢ Fault.NoMemory }
{
    let name = name.bytes();
    let text = match fault {
        VarFault::NoVariable => naming_within(room, CANT_READ, name, NO_SUCH_VARIABLE),
        VarFault::IsArray => naming_within(room, VARIABLE, name, IS_AN_ARRAY),
        VarFault::NotArray => naming_within(room, VARIABLE, name, IS_NO_ARRAY),
        VarFault::Exists => naming_within(room, VARIABLE, name, EXISTS),
        VarFault::NoMemory => unreachable!(),
    };
    Fault::Error(Text::from_vec(text))
}
