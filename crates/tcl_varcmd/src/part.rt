//! The subcommands of `array`.

ghost use Rattle.std.specs.Prelude.{◌≡◌};
ghost use Rattle.tcl_varcmd.specs.Arrays.{part_named};

/// A subcommand of `array`.
#[derive(Clone, Copy, Debug)]
pub enum Part {
    Exists,
    Size,
    Unset,
    Get,
    Names,
    Set,
}

/// The subcommand of a name; `None` exactly where there is none.
pub(crate) fn part_of(name: &[u8]) -> Option<Part>
    ensures { result ≡ part_named name.now }
{
    if name == b"exists".as_slice() {
        Some(Part::Exists)
    } else if name == b"size".as_slice() {
        Some(Part::Size)
    } else if name == b"unset".as_slice() {
        Some(Part::Unset)
    } else if name == b"get".as_slice() {
        Some(Part::Get)
    } else if name == b"names".as_slice() {
        Some(Part::Names)
    } else if name == b"set".as_slice() {
        Some(Part::Set)
    } else {
        None
    }
}
