//! The commands of definitions and interpreters, of the schedule and of shared arrays, by their names.

ghost use Rattle.std.specs.Prelude.{◌≡◌};
ghost use Rattle.server_host.specs.Leaf.{verb_of};

use txt_core::same_bytes;

/// A command that is neither of the connection nor of pages.
#[derive(Clone, Copy, Debug, PartialEq, Eq)]
pub enum Verb {
    RegisterProc,
    RegisterFilter,
    NsIctl,
    NsEval,
    ScheduleProc,
    UnscheduleProc,
    NsvNames,
    /// Any other command on shared arrays.
    Nsv,
}

/// The command of this name, if it is one of these.
pub fn find_verb(name: &[u8]) -> Option<Verb>
    ensures { result ≡ verb_of name.now }
{
    if same_bytes(name, b"ns_register_proc") {
        Some(Verb::RegisterProc)
    } else if same_bytes(name, b"ns_register_filter") {
        Some(Verb::RegisterFilter)
    } else if same_bytes(name, b"ns_ictl") {
        Some(Verb::NsIctl)
    } else if same_bytes(name, b"ns_eval") {
        Some(Verb::NsEval)
    } else if same_bytes(name, b"ns_schedule_proc") {
        Some(Verb::ScheduleProc)
    } else if same_bytes(name, b"ns_unschedule_proc") {
        Some(Verb::UnscheduleProc)
    } else if same_bytes(name, b"nsv_names") {
        Some(Verb::NsvNames)
    } else if same_bytes(name, b"nsv_set") {
        Some(Verb::Nsv)
    } else if same_bytes(name, b"nsv_get") {
        Some(Verb::Nsv)
    } else if same_bytes(name, b"nsv_exists") {
        Some(Verb::Nsv)
    } else if same_bytes(name, b"nsv_incr") {
        Some(Verb::Nsv)
    } else if same_bytes(name, b"nsv_append") {
        Some(Verb::Nsv)
    } else if same_bytes(name, b"nsv_lappend") {
        Some(Verb::Nsv)
    } else if same_bytes(name, b"nsv_unset") {
        Some(Verb::Nsv)
    } else if same_bytes(name, b"nsv_array") {
        Some(Verb::Nsv)
    } else {
        None
    }
}
