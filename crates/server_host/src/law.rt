//! Laws of the names of commands, and of what they ask.

ghost use Rattle.server_host.specs.Laws.{NamesHaveDoers, BuiltInsHaveDoers, NoOtherIsDone, NamesAreQuestions};

/// Each name that stands for a command of the server in a new table of commands has a command of the
/// host, and no other name has. So a built-in name of such a table that is no native's is one of the
/// language, or has a command of the host.
pub fn names_have_doers()
    ensures names { NamesHaveDoers }
    ensures built { BuiltInsHaveDoers }
{}

/// Words that begin with a name that is none of the server's are none of the host's, and nothing changes.
pub fn no_other_is_done()
    ensures { NoOtherIsDone }
{}

/// What `nsv_names` asks of each bucket is a question on shared arrays. Any other command on them asks
/// its own words, and only where they are one.
pub fn asked_names_are_questions()
    ensures { NamesAreQuestions }
{}
