//! The rehearsal of a file.

ghost use Rattle.std.specs.Prelude.{◌≡◌, ◌≤◌, ◌+◌, [], length, true, Some, IfOk, OnOk, OnErr};
ghost use Rattle.txt_core.specs.Names.{Bytes, Names};
ghost use Rattle.natives.specs.Names.{names_of};
ghost use Rattle.rehearse.specs.Events.{most_file};
ghost use Rattle.rehearse.specs.Rehearsing.{Outside, outside_of, Rehearses};
ghost use Rattle.outside.specs.Faults.{Rose};
ghost use Rattle.rehearse.specs.Summary.{Counts};
ghost use Rattle.rehearse.specs.declared.playback.Counted.TheVariants as counted;
ghost use Rattle.rehearse.specs.Playing.{IsMachineReady, SoFar, PlaysOne, PassesOn, IsOfSink, IsCounted};

use crate::answer::Rehearsal;
use crate::event::read_event;
use crate::intake::Intake;
use crate::listing::Listing;
use crate::machine::Machine;
use crate::tally::Tally;
use cmd_table::Steps;
use natives::Natives;
use outside::{Sent, Sink, Source, WriteAnswer, write_all};
use std::alloc::Global;
use std::sync::ledger::Ledger;
use txt_core::NoMemory;

/// A rehearsal under way.
#[derive(Drop)]
struct Play {
    machine: Machine,
    intake: Intake,
    listing: Listing,
    /// How many events were played.
    events: u64,
    /// How many bytes of the listing were written.
    written: u64,
}

impl Play {
    /// A rehearsal before the first event.
    fn new(alloc: Global, natives: &Natives) -> Result<Play, NoMemory>
        ensures so_far { (outside : Outside)
            → IfOk result (λ play. SoFar (names_of natives.now) outside outside play) }
        ensures nothing { IfOk result (λ play. play.listing.text ≡ []) }
    {
        Ok(Play {
            machine: Machine::new(alloc, natives)?,
            intake: Intake::new(alloc),
            listing: Listing::new(alloc),
            events: 0,
            written: 0,
        })
    }

    /// Plays the event of so many bytes that stands in front, and tells whether it came.
    fn play<L: Ledger>(
        &mut self,
        natives: &Natives,
        size: usize,
        steps: &mut Steps<L>,
    ) -> Result<bool, NoMemory>
        requires there { (size ≤ length self.old.intake.left)
            × (self.old.intake.place + size ≤ most_file) }
        requires ready { IsMachineReady (names_of natives.now) self.old.machine }
        requires few { self.old.events ≤ self.old.intake.place }
        ensures plays { IfOk result (λ came.
            PlaysOne (names_of natives.now) came size self.old self.new) }
        ensures ready { OnOk result (IsMachineReady (names_of natives.now) self.new.machine) }
        ensures few { self.new.events ≤ self.new.intake.place }
        ensures further { IfOk result (λ came.
            came ≡ true → self.new.intake.place ≡ self.old.intake.place + size) }
    {
        let Some(event) = read_event(&self.intake.left()[..size]) else {
            return Ok(false);
        };
        if !self.machine.play(natives, event, &mut self.listing, steps)? {
            return Ok(false);
        }
        self.intake.use_up(size);
        self.events += 1;
        Ok(true)
    }

    /// Writes what was told of the last event; the sink's fault ends the rehearsal. A listing of 2^64
    /// bytes counts as want of memory.
    fn pass_on<K: Sink>(&mut self, sink: &mut K) -> Result<Option<Rehearsal>, NoMemory>
        ensures passes { (names : Names) (outside now : Outside) → now.output ≡ K.taken sink.old
            → now.write_faults ≡ K.faults sink.old
            → IfOk result (λ fault.
            PassesOn names fault outside now self.old self.new
            (record now { output = K.taken sink.new; write_faults = K.faults sink.new })) }
        ensures rest { self.new
            ≡ record self.old { listing = self.new.listing; written = self.new.written } }
        ensures unwritten { OnErr result
            ((K.taken sink.new ≡ K.taken sink.old) × (K.faults sink.new ≡ K.faults sink.old)) }
        ensures of_sink { IfOk result IsOfSink }
        ensures counts { K.faults sink.old ≤ K.faults sink.new }
    {
        let text = self.listing.text.bytes();
        let Some(written) = self.written.checked_add(text.len() as u64) else {
            return Err(NoMemory);
        };
        match write_all(sink, text) {
            Sent::Whole { .. } => {
                self.written = written;
                self.listing.text.clear();
                Ok(None)
            }
            Sent::WriteFault { sent } => Ok(Some(Rehearsal::WriteFault {
                sent: self.written + sent,
            })),
        }
    }

    /// Plays one event after the other, until one ends the rehearsal.
    fn play_all<S: Source, K: Sink, L: Ledger>(
        &mut self,
        natives: &Natives,
        source: &mut S,
        sink: &mut K,
        steps: &mut Steps<L>,
    ) -> Result<Rehearsal, NoMemory>
        requires so_far { SoFar (names_of natives.now)
            (outside_of (S.rest source.old) (S.faults source.old) (K.taken sink.old)
            (K.faults sink.old))
            (outside_of (S.rest source.old) (S.faults source.old) (K.taken sink.old)
            (K.faults sink.old))
            self.old }
        requires nothing { self.old.listing.text ≡ [] }
        ensures ends { IfOk result (λ answer.
            Rehearses (names_of natives.now)
            (outside_of (S.rest source.old) (S.faults source.old) (K.taken sink.old)
            (K.faults sink.old))
            answer
            (outside_of (S.rest source.new) (S.faults source.new) (K.taken sink.new)
            (K.faults sink.new))) }
        ensures ran_out { OnErr result
            (Rehearses (names_of natives.now)
            (outside_of (S.rest source.old) (S.faults source.old) (K.taken sink.old)
            (K.faults sink.old))
            Rehearsal.NoMemory
            (outside_of (S.rest source.new) (S.faults source.new) (K.taken sink.new)
            (K.faults sink.new))) }
        ensures counted { IfOk result (λ answer.
            IsCounted (names_of natives.now) (S.rest source.old) answer self.new.listing.tally) }
    {
        'events: while let Some(size) = self.intake.fetch_event(source)? {
            if !self.play(natives, size, steps)? {
                return Ok(Rehearsal::BadEvent {
                    event: self.events + 1,
                });
            }
            if let Some(fault) = self.pass_on(sink)? {
                return Ok(fault);
            }
        }
        Ok(self.intake.ending(self.events + 1))
    }
}

/// Reads a file of events from the source, plays them on one thread and writes the listing of what came
/// of them to the sink. Scripts have the natives beside their other commands.
///
/// The file is read in pieces and isn't held: an event is played once its line and its block are there,
/// and what is told of it is written before the next one is read. The output is taken in any pieces. Of a
/// file with a bad event the events before it are played and listed. A fault of the source ends the input
/// there, and a fault of the sink ends the rehearsal at once. Where memory wants, the listing of some
/// first events is what was written. Each entry of a command table that an interpreter writes or removes
/// is counted as a step.
pub fn rehearse<S: Source, K: Sink, L: Ledger>(
    alloc: Global,
    natives: &Natives,
    source: &mut S,
    sink: &mut K,
    steps: &mut Steps<L>,
) -> Rehearsal
    ensures { Rehearses (names_of natives.now)
        (outside_of (S.rest source.old) (S.faults source.old) (K.taken sink.old)
        (K.faults sink.old))
        result
        (outside_of (S.rest source.new) (S.faults source.new) (K.taken sink.new)
        (K.faults sink.new)) }
{
    let Ok(mut play) = Play::new(alloc, natives) else {
        return Rehearsal::NoMemory;
    };
    match play.play_all(natives, source, sink, steps) {
        Ok(answer) => answer,
        Err(NoMemory) => Rehearsal::NoMemory,
    }
}

/// What was counted of the listing of a file, or why nothing was.
#[derive(Clone, Copy, Debug, PartialEq, Eq)]
pub enum Counted {
    /// The file holds events and nothing else.
    Done(Tally),
    /// The event of this number, counted from 1, is none.
    BadEvent { event: u64 },
    /// The source failed, and its count of faults rose.
    ReadFault,
    /// Memory ran out.
    NoMemory,
}

/// A sink that takes all, and keeps nothing.
#[derive(Drop)]
struct Nowhere;

impl Sink for Nowhere {
    ghost use Rattle.std.specs.Prelude.{None};

    ghost taken = { λ s. None };

    ghost faults = { λ s. 0 };

    fn write(&mut self, piece: &[u8]) -> WriteAnswer {
        WriteAnswer::Took(piece.len())
    }
}

/// Plays the file of events that a source gives, as a rehearsal does, and counts its listing in place of
/// writing it.
pub fn count_listing<S: Source, L: Ledger>(
    alloc: Global,
    natives: &Natives,
    source: &mut S,
    steps: &mut Steps<L>,
) -> Counted
    ensures counts { (file : Bytes) → S.rest source.old ≡ Some file
        → Counts (names_of natives.now) file result }
    ensures fault { result ≡ counted.ReadFault → Rose (S.faults source.old) (S.faults source.new) }
{
    let Ok(mut play) = Play::new(alloc, natives) else {
        return Counted::NoMemory;
    };
    let mut sink = Nowhere;
    match play.play_all(natives, source, &mut sink, steps) {
        Ok(Rehearsal::Done) => Counted::Done(play.listing.tally),
        Ok(Rehearsal::BadEvent { event }) => Counted::BadEvent { event },
        Ok(Rehearsal::ReadFault) => Counted::ReadFault,
        Ok(Rehearsal::WriteFault { .. }) => unreachable!(),
        Ok(Rehearsal::NoMemory) | Err(NoMemory) => Counted::NoMemory,
    }
}
