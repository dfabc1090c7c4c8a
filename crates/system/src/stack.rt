//! The stack that the program needs.

use libc::RLIMIT_STACK;
use libc::types::rlimit;
use std::alloc::Global;
use txt_core::NoMemory;

/// How many bytes of stack scripts need at most: 832 KB were seen under the deepest one.
const NEEDED: usize = 1 << 20;

/// How many bytes of stack the system has to allow. It puts the words and the environment there, up to a
/// quarter of that.
const ALLOWED: u64 = 2 << 20;

/// How many bytes of stack are taken at a time.
const PIECE: usize = 16_384;

/// A descriptor that is none.
const NO_DESCRIPTOR: i32 = -1;

/// Takes the stack that scripts need on the main thread, a mebibyte, so that the deepest finds it there.
/// Other threads get theirs whole when they are made, as much as the system's limit on stacks says.
///
/// The one refusal is want of memory: that limit is below two mebibytes, or the address space has no room.
pub fn take_stack(alloc: Global) -> Result<(), NoMemory> {
    if !is_allowed() || !is_room(alloc) {
        return Err(NoMemory);
    }
    use_stack(NEEDED / PIECE);
    Ok(())
}

/// Whether the system's limit on stacks is high enough.
fn is_allowed() -> bool {
    let mut limit = rlimit {
        rlim_cur: 0,
        rlim_max: 0,
    };
    libc::getrlimit(RLIMIT_STACK, &mut limit) != 0 || ALLOWED <= limit.rlim_cur
}

/// Whether the address space has room for it. A stack that finds none where it grows ends the program by a
/// signal.
fn is_room(alloc: Global) -> bool {
    Vec::<u8>::with_capacity(alloc, NEEDED).is_ok()
}

/// Writes to so many pieces of the stack below its caller's, which belong to the stack from then on. The
/// system is handed each of them, and puts nothing there, so that none is left out.
#[inline(never)]
fn use_stack(pieces: usize) {
    let mut piece = [0u8; PIECE];
    if 1 < pieces {
        use_stack(pieces - 1);
    }
    let _none = libc::read(NO_DESCRIPTOR, &mut piece);
}
