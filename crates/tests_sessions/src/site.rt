//! Servers without natives, for tests.

ghost use Rattle.std.specs.Prelude.{◌≤◌, ◌-◌, IfOk};
ghost use Rattle.shared_state.specs.Cells.{HaveJust};
ghost use Rattle.tests_sessions.specs.Desks.{Open};

use crate::desk::Desk;
use crate::seat::Seat;
use natives::Natives;
use shared_state::{Passes, Shared};
use std::alloc::Global;
use std::sync::Wait;
use txt_core::NoMemory;

/// A procedure and where it serves.
pub(crate) const HI: &str =
    "proc hi {} {ns_return 200 text/plain hi}\nns_register_proc GET /hi hi\n";

/// A request for it.
pub(crate) const GET_HI: &[u8] = b"GET /hi HTTP/1.1\r\nHost: l\r\n\r\n";

/// The reply to that.
pub(crate) const REPLY_HI: &[u8] = b"HTTP/1.1 200 OK\r\n\
    Date: Thu, 01 Jan 1970 00:00:00 GMT\r\n\
    Server: AOLserver-profile/1\r\n\
    Content-Type: text/plain\r\n\
    Content-Length: 2\r\n\
    Connection: keep-alive\r\n\
    \r\n\
    hi";

/// The number of the worker of a server that has one.
pub(crate) const WORKER: u16 = 3;

/// The cells of a server without natives, and their passes.
pub(crate) fn cells(alloc: Global) -> Result<(Shared, Passes), NoMemory>
    ensures open { IfOk result (λ r. Open r.0 r.1) }
    ensures whole { IfOk result (λ r. HaveJust 65536 r.1) }
{
    let natives = Natives::new(alloc);
    Shared::new(alloc, &natives)
}

/// Passes for another thread, from passes that have so many units.
fn next_passes(shared: &Shared, passes: &mut Passes, units: u64) -> Passes
    requires cells { Open shared.now passes.old }
    requires units { (2 ≤ units) × HaveJust units passes.old }
    ensures cells { Open shared.now passes.new × Open shared.now result }
    ensures left { HaveJust (units - 1) passes.new }
{
    match shared.split(passes) {
        Ok(parts) => parts,
        Err(_) => unreachable!(),
    }
}

/// A seat for another thread, by passes that have so many units.
pub(crate) fn next_seat<'a>(shared: &'a Shared, passes: &mut Passes, units: u64) -> Seat<'a>
    requires cells { Open shared.now passes.old }
    requires units { (2 ≤ units) × HaveJust units passes.old }
    ensures cells { Open shared.now passes.new }
    ensures left { HaveJust (units - 1) passes.new }
{
    Seat::new(shared, next_passes(shared, passes, units))
}

/// Runs scripts that make definitions, at the moment 0.
fn define_all<R: Wait>(rt: &R, alloc: Global, desk: &mut Desk<'_>, scripts: &[&str]) {
    for script in scripts {
        let _end = desk.define(rt, alloc, script);
    }
}

/// What comes of these calls at a desk at which these scripts make definitions before.
fn played<R: Wait, T, F: FnOnce(&mut Desk<'_>) -> T + Drop>(
    rt: &R,
    alloc: Global,
    desk: &mut Desk<'_>,
    scripts: &[&str],
    play: F,
) -> T
    requires { F.IsAlwaysCallable play }
{
    define_all(rt, alloc, desk, scripts);
    play(desk)
}

/// What comes of these calls at the desk of a new server, on which these scripts make definitions before; `None`
/// where memory wants for the server.
pub(crate) fn on_desk<R: Wait, T, F: FnOnce(&mut Desk<'_>) -> T + Drop>(
    rt: &R,
    alloc: Global,
    scripts: &[&str],
    play: F,
) -> Option<T>
    requires { F.IsAlwaysCallable play }
{
    let Ok((shared, passes)) = cells(alloc) else {
        return None;
    };
    let mut desk = Seat::new(&shared, passes).desk(WORKER);
    let came = played(rt, alloc, &mut desk, scripts, play);
    drop(desk);
    drop(shared);
    Some(came)
}
