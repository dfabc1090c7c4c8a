ghost use Rattle.std.specs.Prelude.{◌≡◌, ◌∷◌, ◌++◌, [], false, codes, OnOk};
ghost use Rattle.natives.specs.Answers.{Answers};
ghost use Rattle.natives.specs.Names.{name_of, names_of, has_name};
ghost use Rattle.natives.specs.Pure.{pure_of};
ghost use Rattle.natives.specs.Ranges.{InRange};

use natives::{Fault, Native, Natives, within_limit, word_at};
use std::alloc::Global;
use std::test::Fail;
use txt_core::{NoMemory, Text, Words, trim};

/// `concat` of one word; it gives up on others.
fn concat_one(alloc: Global, words: &Words) -> Result<Text, Fault>
    requires { InRange (codes "concat") words.now }
    ensures { Answers (pure_of (codes "concat") words.now) result }
{
    if words.len() != 2 {
        return Err(Fault::NoMemory);
    }
    let trimmed = Text::new(alloc, trim(word_at(words, 1).bytes()))?;
    within_limit(alloc, Ok(trimmed))
}

/// `list` of no word; it gives up on others.
fn list_none(alloc: Global, words: &Words) -> Result<Text, Fault>
    requires { InRange (codes "list") words.now }
    ensures { Answers (pure_of (codes "list") words.now) result }
{
    if words.len() != 1 {
        return Err(Fault::NoMemory);
    }
    Ok(Text::empty(alloc))
}

/// `string repeat` with a word too few; it gives up on others.
fn string_repeat(alloc: Global, words: &Words) -> Result<Text, Fault>
    requires { InRange (codes "string") words.now }
    ensures { Answers (pure_of (codes "string") words.now) result }
{
    if words.len() != 3 {
        return Err(Fault::NoMemory);
    }
    if word_at(words, 1).bytes() != b"repeat".as_slice() {
        return Err(Fault::NoMemory);
    }
    Err(Fault::wrong_words(alloc, "string"))
}

/// Adds a native.
pub fn add(natives: &mut Natives, native: Native) -> Result<(), NoMemory>
    requires { has_name (names_of natives.old) (name_of native) ≡ false }
    ensures { OnOk result (names_of natives.new ≡ names_of natives.old ++ name_of native ∷ []) }
{
    match natives.add(native) {
        Ok(()) => Ok(()),
        Err(_) => Err(NoMemory),
    }
}

/// Three natives.
#[tactic(auto, unfolding(natives::specs::Ranges::range_of))]
fn example(alloc: Global) -> Result<Natives, NoMemory> {
    let mut natives = Natives::new(alloc);
    let concat = Native::new(Text::new(alloc, b"concat")?, 1, 200_001, concat_one);
    add(&mut natives, concat)?;
    let list = Native::new(Text::new(alloc, b"list")?, 1, 200_001, list_none);
    add(&mut natives, list)?;
    let string = Native::new(Text::new(alloc, b"string")?, 3, 5, string_repeat);
    add(&mut natives, string)?;
    Ok(natives)
}

/// Whether an answer has these bytes, or is an error of these.
fn is_reply(reply: &Result<Text, Fault>, want: &[u8]) -> bool {
    match reply {
        Ok(text) | Err(Fault::Error(text)) => text.bytes() == want,
        Err(Fault::NoMemory) => false,
    }
}

/// Whether a native answers so to words; `none` where they are out of its range.
fn answers(alloc: Global, native: &Native, words: &Words, want: &[u8]) -> bool {
    if native.least() as usize <= words.len() && words.len() <= native.most() as usize {
        is_reply(&native.call(alloc, words), want)
    } else {
        want == b"none".as_slice()
    }
}

/// Whether the native of the name that is the first word answers so; `none` where there is no such native.
fn is_found(alloc: Global, natives: &Natives, words: &Words, want: &[u8]) -> bool {
    let native = match words.get(0) {
        Some(name) => natives.find(name),
        None => None,
    };
    match native {
        Some(native) => answers(alloc, native, words, want),
        None => want == b"none".as_slice(),
    }
}

/// Words, and what the natives answer to them.
const CALLS: [(&[&[u8]], &[u8]); 7] = [
    (&[b"concat", b" a b\n"], b"a b"),
    (&[b"list"], b""),
    (
        &[b"string", b"repeat", b"a"],
        b"wrong number of words for \"string\"",
    ),
    (&[b"string", b"repeat"], b"none"),
    (&[b"string", b"repeat", b"a", b"b", b"c", b"d"], b"none"),
    (&[b"split", b"a"], b"none"),
    (&[], b"none"),
];

/// A list of these words.
fn words_of(alloc: Global, words: &[&[u8]]) -> Result<Words, NoMemory> {
    let mut list = Words::new(alloc);
    for word in words {
        list.add(Text::new(alloc, word)?)?;
    }
    Ok(list)
}

/// Whether the natives answer so to words.
fn is_called(
    alloc: Global,
    natives: &Natives,
    words: &[&[u8]],
    want: &[u8],
) -> Result<bool, NoMemory> {
    let words = words_of(alloc, words)?;
    Ok(is_found(alloc, natives, &words, want))
}

/// The place of the first call that is answered in another way, if there is one.
fn first_wrong(alloc: Global, natives: &Natives) -> Result<Option<usize>, NoMemory> {
    for (at, (words, want)) in CALLS.iter().enumerate() {
        if !is_called(alloc, natives, words, want)? {
            return Ok(Some(at));
        }
    }
    Ok(None)
}

/// Whether the natives are these, in their places.
fn has_names(natives: &Natives) -> bool {
    let names: [&[u8]; 3] = [b"concat", b"list", b"string"];
    for (at, name) in names.iter().enumerate() {
        if natives.get(at).map(|native| native.name().bytes()) != Some(*name) {
            return false;
        }
    }
    natives.len() == names.len()
}

/// The place of the first call of the three natives that is answered in another way, and whether they have
/// their names.
fn look(alloc: Global) -> Result<(Option<usize>, bool), NoMemory> {
    let natives = example(alloc)?;
    Ok((first_wrong(alloc, &natives)?, has_names(&natives)))
}

#[test]
fn natives_by_name(rt: HostRuntime) -> Result<(), Fail> {
    assert_eq!(rt; look(rt.alloc())?, (None, true));
    Ok(())
}
