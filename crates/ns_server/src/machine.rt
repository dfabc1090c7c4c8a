//! The machine on which the program runs.

ghost use Rattle.std.specs.Prelude.{◌≡◌, IfOk};

use system::{FolderPages, SystemClock, TcpNet};
use txt_core::NoMemory;

/// The system's net, pages and clock.
#[derive(Drop)]
pub struct Machine {
    /// Connections over TCP.
    pub net: TcpNet<HostRuntime>,
    /// The pages of a folder.
    pub pages: FolderPages<HostRuntime>,
    /// The time of day.
    pub clock: SystemClock<HostRuntime>,
}

impl Machine {
    /// A net that listens nowhere yet, and pages below the folder in which the program was started. The
    /// one refusal is want of memory.
    pub fn new(rt: HostRuntime) -> Result<Machine, NoMemory>
        ensures { IfOk result (λ machine. machine.net.given ≡ 0) }
    {
        Ok(Machine {
            net: TcpNet::new(rt, rt.alloc())?,
            pages: FolderPages::new(rt, rt.alloc()),
            clock: SystemClock::new(rt),
        })
    }
}
