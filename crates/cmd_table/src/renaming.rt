//! What became of a rename.

/// What a rename answers.
#[derive(Clone, Copy, Debug, PartialEq, Eq)]
pub enum Renamed {
    /// The command has its new name, or was removed.
    Done,
    /// There is no command of the old name.
    NoOld,
    /// The new name is that of a command.
    NewExists,
}
