//! Pairs that are written to texts by key, and undone where memory wants.

ghost use Rattle.std.specs.Prelude.{◌≡◌, ◌<◌, ◌∷◌, length, OnOk, OnErr, IfOk, IfSome, IfNone};
ghost use Rattle.std.specs.FinMap as map;
ghost use Rattle.txt_core.specs.Keyed.{Texts, given_back, with_pairs};
ghost use Rattle.txt_core.specs.Undoing.{undone};

use crate::memory::NoMemory;
use crate::text::Text;
use std::alloc::Global;

/// Texts by key.
pub trait Keyed {
    /// The texts by their keys.
    ghost texts: { Self → Texts };

    /// Gives a key this text, and hands back the one that it had; `None` exactly where it had none. The
    /// only error is want of memory, and nothing changes then.
    fn exchange(&mut self, alloc: Global, key: &Text, text: Text) -> Result<Option<Text>, NoMemory>
        ensures ok { OnOk result (texts self.new ≡ map.insert (texts self.old) key.now text) }
        ensures before { IfOk result (λ before. before ≡ map.get (texts self.old) key.now) }
        ensures err { OnErr result (texts self.new ≡ texts self.old) };

    /// Gives a key that has a text this one, or takes the key's text away where there is none to give.
    /// It takes no memory.
    fn give_back(&mut self, key: &Text, text: Option<Text>)
        ensures { texts self.new ≡ given_back (texts self.old) key.now text };
}

/// A write to a key, and the text that stood there before it.
#[derive(Drop)]
pub struct Change<'a> {
    key: &'a Text,
    before: Option<Text>,
}

/// The first two texts of a list, and those behind them; `None` exactly where there are fewer.
pub fn first_pair(list: &[Text]) -> Option<(&Text, &Text, &[Text])>
    ensures pair { IfSome result (λ pair. list.now ≡ pair.0.now ∷ pair.1.now ∷ pair.2.now) }
    ensures fewer { IfNone result (length list.now < 2) }
{
    let (key, behind) = list.split_first()?;
    let (text, rest) = behind.split_first()?;
    Some((key, text, rest))
}

/// Writes keys and texts, which take turns in `pairs`. A key without a text, at the end, is left out.
/// The only error is want of memory, and the texts are then as they were.
pub fn write_pairs<K: Keyed>(alloc: Global, keyed: &mut K, pairs: &[Text]) -> Result<(), NoMemory>
    ensures ok { OnOk result (K.texts keyed.new ≡ with_pairs (K.texts keyed.old) pairs.now) }
    ensures err { OnErr result (K.texts keyed.new ≡ K.texts keyed.old) }
{
    let mut journal = Vec::new(alloc);
    let written = write_noting(alloc, keyed, pairs, &mut journal);
    if written.is_err() {
        undo(keyed, journal);
    }
    written
}

/// The same, but that where memory wants, some of the pairs may be written. What is written is noted in
/// the journal.
fn write_noting<'a, K: Keyed>(
    alloc: Global,
    keyed: &mut K,
    pairs: &'a [Text],
    journal: &mut Vec<Change<'a>>,
) -> Result<(), NoMemory>
    ensures ok { OnOk result (K.texts keyed.new ≡ with_pairs (K.texts keyed.old) pairs.now) }
    ensures noted { undone journal.new.items (K.texts keyed.new)
        ≡ undone journal.old.items (K.texts keyed.old) }
{
    let mut rest = pairs;
    'pairs: while let Some((key, text, tail)) = first_pair(rest) {
        write_one(alloc, keyed, key, text, journal)?;
        rest = tail;
    }
    Ok(())
}

/// Puts a text at a key, and notes that in the journal. The journal's room is taken first, so that what
/// is written is noted in any case.
fn write_one<'a, K: Keyed>(
    alloc: Global,
    keyed: &mut K,
    key: &'a Text,
    text: &Text,
    journal: &mut Vec<Change<'a>>,
) -> Result<(), NoMemory>
    ensures ok { OnOk result
        (K.texts keyed.new ≡ map.insert (K.texts keyed.old) key.now text.now) }
    ensures noted { undone journal.new.items (K.texts keyed.new)
        ≡ undone journal.old.items (K.texts keyed.old) }
{
    journal.reserve(1)?;
    let text = text.copy(alloc)?;
    let before = keyed.exchange(alloc, key, text)?;
    journal.push_reserved(Change { key, before });
    Ok(())
}

/// Undoes what a journal notes, the last write first. It takes no memory.
fn undo<K: Keyed>(keyed: &mut K, journal: Vec<Change<'_>>)
    ensures { K.texts keyed.new ≡ undone journal.entry.items (K.texts keyed.old) }
{
    let mut journal = journal;
    'changes: while let Some(change) = journal.pop() {
        keyed.give_back(change.key, change.before);
    }
}
