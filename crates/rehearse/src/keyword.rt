//! The first words of events.

ghost use Rattle.std.specs.Prelude.{◌≡◌};
ghost use Rattle.rehearse.specs.Numbers.{Finds};
ghost use Rattle.rehearse.specs.Events.{name_of};

/// The first word of an event.
#[derive(Clone, Copy, Debug, PartialEq, Eq)]
pub enum Keyword {
    Workers,
    Clock,
    Page,
    Define,
    Connect,
    Step,
    Run,
}

/// The keyword that a word is; `None` where it is none.
pub fn find_keyword(word: &[u8]) -> Option<Keyword>
    ensures { Finds (λ k. word.now ≡ name_of k) result }
{
    if word == b"workers".as_slice() {
        return Some(Keyword::Workers);
    }
    if word == b"clock".as_slice() {
        return Some(Keyword::Clock);
    }
    if word == b"page".as_slice() {
        return Some(Keyword::Page);
    }
    if word == b"define".as_slice() {
        return Some(Keyword::Define);
    }
    if word == b"connect".as_slice() {
        return Some(Keyword::Connect);
    }
    if word == b"step".as_slice() {
        return Some(Keyword::Step);
    }
    if word == b"run".as_slice() {
        return Some(Keyword::Run);
    }
    None
}
