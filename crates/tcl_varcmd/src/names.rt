//! The commands that take names in turn.

ghost use Rattle.std.specs.Prelude.{◌≡◌, length};
ghost use Rattle.tcl_frame.specs.Frames.{linked};
ghost use Rattle.tcl_varcmd.specs.Answers.{Answers, Changes, IfNoMemory};
ghost use Rattle.tcl_varcmd.specs.Errors.{global_error};
ghost use Rattle.tcl_varcmd.specs.Linking.{unlinked_all};
ghost use Rattle.tcl_varcmd.specs.Scalars.{unset_all, unset_came, global_all, global_came};

use crate::message::check_least;
use crate::room::{refusal_within, room_for};
use crate::variable::link;
use natives::Fault;
use std::alloc::Global;
use tcl_frame::{Frames, is_element_name};
use txt_core::{Text, Words};

/// Removes variables up to the first that can't be. The room of its refusal is taken first, so that
/// where memory wants, nothing is removed.
fn unset_names(alloc: Global, frames: &mut Frames, names: &[Text]) -> Result<Text, Fault>
    ensures came { Answers (unset_all frames.old names.now) result frames.new }
    ensures kept { IfNoMemory result (frames.new ≡ frames.old) }
    ensures depth { length frames.new.above ≡ length frames.old.above }
{
    let room = room_for(alloc, names)?;
    'names: for name in names {
        if let Err(fault) = frames.remove(name) {
            return Err(refusal_within(room, fault, name));
        }
    }
    Ok(Text::empty(alloc))
}

/// `unset name name*`.
#[inline(never)]
pub(crate) fn unset(alloc: Global, frames: &mut Frames, words: &Words) -> Result<Text, Fault>
    ensures came { Answers (unset_came frames.old words.now) result frames.new }
    ensures kept { IfNoMemory result (frames.new ≡ frames.old) }
    ensures depth { length frames.new.above ≡ length frames.old.above }
{
    check_least(alloc, words, 2, "unset")?;
    unset_names(alloc, frames, &words.as_slice()[1..])
}

/// Links a name, which must have no element's form.
fn link_name(alloc: Global, frames: &mut Frames, name: &Text) -> Result<(), Fault>
    ensures change { Changes (global_error frames.old name.now) (linked frames.old name.now)
        frames.old result frames.new }
    ensures depth { length frames.new.above ≡ length frames.old.above }
{
    if is_element_name(name) {
        return Err(Fault::bad_value(alloc, name.bytes(), "global"));
    }
    link(alloc, frames, name)
}

/// A name that was linked, and wasn't before.
#[derive(Drop)]
pub(crate) struct NewLink<'a> {
    name: &'a Text,
}

/// Links a name, and notes it where it wasn't linked before. The note's room is taken first, so that
/// what is linked is noted in any case.
fn link_noting<'a>(
    alloc: Global,
    frames: &mut Frames,
    name: &'a Text,
    links: &mut Vec<NewLink<'a>>,
) -> Result<(), Fault>
    ensures change { Changes (global_error frames.old name.now) (linked frames.old name.now)
        frames.old result frames.new }
    ensures noted { unlinked_all links.new.items frames.new
        ≡ unlinked_all links.old.items frames.old }
    ensures depth { length frames.new.above ≡ length frames.old.above }
{
    links.reserve(1)?;
    let was_linked = frames.is_linked(name);
    link_name(alloc, frames, name)?;
    if was_linked {
        return Ok(());
    }
    links.push_reserved(NewLink { name });
    Ok(())
}

/// Links names up to the first that can't be, and notes those that weren't linked before.
fn link_all<'a>(
    alloc: Global,
    frames: &mut Frames,
    names: &'a [Text],
    links: &mut Vec<NewLink<'a>>,
) -> Result<Text, Fault>
    ensures came { Answers (global_all frames.old names.now) result frames.new }
    ensures noted { unlinked_all links.new.items frames.new
        ≡ unlinked_all links.old.items frames.old }
    ensures depth { length frames.new.above ≡ length frames.old.above }
{
    'names: for name in names {
        link_noting(alloc, frames, name, links)?;
    }
    Ok(Text::empty(alloc))
}

/// Takes new links away, the last one first. It takes no memory.
fn unlink_all(frames: &mut Frames, links: Vec<NewLink<'_>>)
    ensures unlinked { frames.new ≡ unlinked_all links.entry.items frames.old }
    ensures depth { length frames.new.above ≡ length frames.old.above }
{
    let mut links = links;
    'links: while let Some(link) = links.pop() {
        frames.unlink(link.name);
    }
}

/// Links names up to the first that can't be. Where memory wants, what was linked is taken away.
fn link_names(alloc: Global, frames: &mut Frames, names: &[Text]) -> Result<Text, Fault>
    ensures came { Answers (global_all frames.old names.now) result frames.new }
    ensures kept { IfNoMemory result (frames.new ≡ frames.old) }
    ensures depth { length frames.new.above ≡ length frames.old.above }
{
    let mut links = Vec::new(alloc);
    match link_all(alloc, frames, names, &mut links) {
        Ok(text) => Ok(text),
        Err(Fault::Error(text)) => Err(Fault::Error(text)),
        Err(Fault::NoMemory) => {
            unlink_all(frames, links);
            Err(Fault::NoMemory)
        }
    }
}

/// `global name name*`.
#[inline(never)]
pub(crate) fn global(alloc: Global, frames: &mut Frames, words: &Words) -> Result<Text, Fault>
    ensures came { Answers (global_came frames.old words.now) result frames.new }
    ensures kept { IfNoMemory result (frames.new ≡ frames.old) }
    ensures depth { length frames.new.above ≡ length frames.old.above }
{
    check_least(alloc, words, 2, "global")?;
    link_names(alloc, frames, &words.as_slice()[1..])
}
