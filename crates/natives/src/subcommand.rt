//! The subcommands of `string` by their names, and how many words each takes.

ghost use Rattle.std.specs.Prelude.{◌≡◌, bytes_eq};
ghost use Rattle.natives.specs.Subcommands.{looking_named, changing_named, subcommand_named, least_words, most_words};

/// A subcommand of `string`.
#[derive(Clone, Copy)]
pub enum Subcommand {
    Length,
    Index,
    Range,
    Compare,
    Equal,
    First,
    Last,
    Match,
    Tolower,
    Toupper,
    Trim,
    Trimleft,
    Trimright,
    Repeat,
}

/// Whether a name is this one.
fn is(name: &[u8], text: &str) -> bool
    ensures { result ≡ bytes_eq name.now text.now }
{
    name == text.as_bytes()
}

/// The subcommand that looks at texts as a whole, of a name.
fn looking_named(name: &[u8]) -> Option<Subcommand>
    ensures { result ≡ looking_named name.now }
{
    if is(name, "length") {
        return Some(Subcommand::Length);
    }
    if is(name, "index") {
        return Some(Subcommand::Index);
    }
    if is(name, "range") {
        return Some(Subcommand::Range);
    }
    if is(name, "compare") {
        return Some(Subcommand::Compare);
    }
    if is(name, "equal") {
        return Some(Subcommand::Equal);
    }
    if is(name, "first") {
        return Some(Subcommand::First);
    }
    if is(name, "last") {
        return Some(Subcommand::Last);
    }
    if is(name, "match") {
        return Some(Subcommand::Match);
    }
    None
}

/// The subcommand that changes a text, of a name.
fn changing_named(name: &[u8]) -> Option<Subcommand>
    ensures { result ≡ changing_named name.now }
{
    if is(name, "tolower") {
        return Some(Subcommand::Tolower);
    }
    if is(name, "toupper") {
        return Some(Subcommand::Toupper);
    }
    if is(name, "trim") {
        return Some(Subcommand::Trim);
    }
    if is(name, "trimleft") {
        return Some(Subcommand::Trimleft);
    }
    if is(name, "trimright") {
        return Some(Subcommand::Trimright);
    }
    if is(name, "repeat") {
        return Some(Subcommand::Repeat);
    }
    None
}

/// The subcommand of a name; `None` exactly where there is none.
pub fn subcommand_named(name: &[u8]) -> Option<Subcommand>
    ensures { result ≡ subcommand_named name.now }
{
    match looking_named(name) {
        Some(subcommand) => Some(subcommand),
        None => changing_named(name),
    }
}

/// The least number of words that it takes, the two names among them.
pub fn least_words(subcommand: Subcommand) -> usize
    ensures { result ≡ least_words subcommand }
{
    match subcommand {
        Subcommand::Length
        | Subcommand::Tolower
        | Subcommand::Toupper
        | Subcommand::Trim
        | Subcommand::Trimleft
        | Subcommand::Trimright => 3,
        Subcommand::Range => 5,
        _ => 4,
    }
}

/// The most words that it takes, the two names among them.
pub fn most_words(subcommand: Subcommand) -> usize
    ensures { result ≡ most_words subcommand }
{
    match subcommand {
        Subcommand::Length | Subcommand::Tolower | Subcommand::Toupper => 3,
        Subcommand::Range => 5,
        _ => 4,
    }
}
