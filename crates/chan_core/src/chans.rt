//! The channels of an interpreter.

ghost use Rattle.std.specs.Prelude.{◌≡◌, ◌≢◌, ◌↔◌, ◌≤◌, ◌++◌, ◌∷◌, [], Some, None, Err, IsTrue, IsErr, IfOk, IfErr, OnOk, OnErr, length, take, drop, slice_set, unwrap_or};
ghost use Rattle.chan_core.specs.Lines.{line_of, behind_line};
ghost use Rattle.chan_core.specs.Chans.{channel, left_in, most_open, open_count, with_left};

use crate::channel::{take_bytes, take_line};
use std::alloc::Global;
use std::marker::Model;
use txt_core::{NoMemory, Text, Unread};

/// How many channels may be open at once.
const MOST_OPEN: usize = 64;

/// Why a call on a channel is refused.
#[derive(Clone, Copy, Debug, PartialEq, Eq)]
pub enum ChanFault {
    /// No open channel has this number.
    NoChannel,
    /// As many channels are open as may be.
    Full,
    NoMemory,
}

impl From<NoMemory> for ChanFault {
    ghost use Rattle.chan_core.specs.declared.chans.ChanFault.TheVariants.{NoMemory as NoRoom};

    ghost from_gives = { λ _ e. e ≡ NoRoom };

    fn from(_e: NoMemory) -> ChanFault {
        ChanFault::NoMemory
    }
}

/// Channels by number. Contracts see the list of all that were opened since it was new or was
/// cleared, in order: of an open one the bytes not yet read, of a closed one nothing. So the
/// number of a channel is its place in the list, and no number is given twice.
#[derive(Debug, Drop)]
pub struct Chans {
    alloc: Global,
    channels: Vec<Option<Unread>>,
    open_now: usize,
}

impl Model for Chans {
    ghost use Rattle.std.specs.Prelude.{List, Option, ◌≡◌, ◌≤◌};
    ghost use Rattle.std.specs.Coded.{coded_list, coded_option, coded_ℕ};
    ghost use Rattle.txt_core.specs.Names.{Bytes};
    ghost use Rattle.chan_core.specs.Chans.{most_open, open_count};

    ghost Value = { List (Option Bytes) };

    ghost coded = { coded_list (coded_option (coded_list coded_ℕ)) };

    ghost view = { λ a. a.channels.items };

    ghost invariant = { λ a. (a.open_now ≡ open_count a.channels.items) × (a.open_now ≤ most_open) };
}

/// Takes a line of the channel at a place.
fn line_at(place: &mut Option<Unread>, alloc: Global) -> Result<Option<Text>, ChanFault>
    ensures line { IfOk result (λ line. line ≡ line_of (unwrap_or place.old [])) }
    ensures ok { OnOk result (place.new ≡ Some (behind_line (unwrap_or place.old []))) }
    ensures absent { (result ≡ Err ChanFault.NoChannel) ↔ (place.old ≡ None) }
    ensures other { result ≢ Err ChanFault.Full }
    ensures err { OnErr result (place.new ≡ place.old) }
{
    match place {
        Some(channel) => Ok(take_line(channel, alloc)?),
        None => Err(ChanFault::NoChannel),
    }
}

/// Takes the first bytes of the channel at a place, at most so many.
fn bytes_at(place: &mut Option<Unread>, alloc: Global, most: u64) -> Result<Text, ChanFault>
    ensures bytes { IfOk result (λ bytes. bytes ≡ take most (unwrap_or place.old [])) }
    ensures ok { OnOk result (place.new ≡ Some (drop most (unwrap_or place.old []))) }
    ensures absent { (result ≡ Err ChanFault.NoChannel) ↔ (place.old ≡ None) }
    ensures other { result ≢ Err ChanFault.Full }
    ensures err { OnErr result (place.new ≡ place.old) }
{
    match place {
        Some(channel) => Ok(take_bytes(channel, alloc, most)?),
        None => Err(ChanFault::NoChannel),
    }
}

impl Chans {
    /// No channel, and none that was opened. Nothing is allocated until the first is.
    pub fn new(alloc: Global) -> Chans
        ensures { result ≡ [] }
    {
        Chans {
            alloc,
            channels: Vec::new(alloc),
            open_now: 0,
        }
    }

    /// Opens a channel on these bytes. Its number is how many channels were opened before it,
    /// since `new` or the last `clear`. `Full` comes exactly where 64 are open, and `NoChannel`
    /// never. Whatever the fault, no channel is changed.
    pub fn open(&mut self, bytes: Text) -> Result<u64, ChanFault>
        ensures number { IfOk result (λ number. number ≡ length self.old) }
        ensures ok { OnOk result (self.new ≡ self.old ++ Some bytes ∷ []) }

        ensures limit { open_count self.new ≤ most_open }
        ensures full { (result ≡ Err ChanFault.Full) ↔ (open_count self.old ≡ most_open) }
        ensures other { result ≢ Err ChanFault.NoChannel }
        ensures err { OnErr result (self.new ≡ self.old) }
    {
        if self.open_now == MOST_OPEN {
            return Err(ChanFault::Full);
        }
        let number = self.channels.len();
        match self.channels.push(Some(Unread::new(bytes))) {
            Ok(()) => {}
            Err(_) => return Err(ChanFault::NoMemory),
        }
        self.open_now += 1;
        Ok(number as u64)
    }

    /// Takes a line: what stands before the first newline of the bytes not yet read, or all of
    /// them where they have none. The newline is taken and isn't given. `None` comes exactly where
    /// no byte is left. `NoChannel` comes exactly where no open channel has this number, and
    /// `Full` never. Whatever the fault, no channel is changed.
    pub fn gets(&mut self, chan: u64) -> Result<Option<Text>, ChanFault>
        ensures line { IfOk result (λ line. line ≡ line_of (left_in self.old chan)) }
        ensures ok { OnOk result
            (self.new ≡ with_left self.old chan (behind_line (left_in self.old chan))) }

        ensures absent { (result ≡ Err ChanFault.NoChannel) ↔ (channel self.old chan ≡ None) }
        ensures other { result ≢ Err ChanFault.Full }
        ensures err { OnErr result (self.new ≡ self.old) }
    {
        match self.channels.get_mut(chan as usize) {
            Some(place) => line_at(place, self.alloc),
            None => Err(ChanFault::NoChannel),
        }
    }

    /// Takes the first of the bytes not yet read: at most `most` of them, and all where fewer are
    /// left. The empty text is the answer where none is left. `NoChannel` comes exactly where no
    /// open channel has this number, and `Full` never. Whatever the fault, no channel is changed.
    pub fn read(&mut self, chan: u64, most: u64) -> Result<Text, ChanFault>
        ensures bytes { IfOk result (λ bytes. bytes ≡ take most (left_in self.old chan)) }
        ensures ok { OnOk result
            (self.new ≡ with_left self.old chan (drop most (left_in self.old chan))) }

        ensures absent { (result ≡ Err ChanFault.NoChannel) ↔ (channel self.old chan ≡ None) }
        ensures other { result ≢ Err ChanFault.Full }
        ensures err { OnErr result (self.new ≡ self.old) }
    {
        match self.channels.get_mut(chan as usize) {
            Some(place) => bytes_at(place, self.alloc, most),
            None => Err(ChanFault::NoChannel),
        }
    }

    /// Whether no byte is left to be read. `NoChannel`, the only fault, comes exactly where no
    /// open channel has this number.
    pub fn eof(&self, chan: u64) -> Result<bool, ChanFault>
        ensures ok { IfOk result (λ end. IsTrue end ↔ (left_in self.now chan ≡ [])) }

        ensures absent { IsErr result ↔ (channel self.now chan ≡ None) }
        ensures fault { IfErr result (λ fault. fault ≡ ChanFault.NoChannel) }
    {
        match self.channels.get(chan as usize) {
            Some(Some(channel)) => Ok(channel.left().is_empty()),
            _ => Err(ChanFault::NoChannel),
        }
    }

    /// Closes a channel. Its number is not given again. `NoChannel`, the only fault, comes exactly
    /// where no open channel has this number.
    pub fn close(&mut self, chan: u64) -> Result<(), ChanFault>
        ensures ok { OnOk result (self.new ≡ slice_set self.old chan None) }

        ensures absent { IsErr result ↔ (channel self.old chan ≡ None) }
        ensures fault { IfErr result (λ fault. fault ≡ ChanFault.NoChannel) }
        ensures err { OnErr result (self.new ≡ self.old) }
    {
        let Some(place) = self.channels.get_mut(chan as usize) else {
            return Err(ChanFault::NoChannel);
        };
        if place.take().is_none() {
            return Err(ChanFault::NoChannel);
        }
        self.open_now -= 1;
        Ok(())
    }

    /// Closes all channels and begins to count anew: they are as they were new. Takes no memory.
    pub fn clear(&mut self)
        ensures { self.new ≡ [] }
    {
        self.channels.clear();
        self.open_now = 0;
    }
}
