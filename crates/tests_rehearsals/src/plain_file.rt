//! The reading of a file for the plain machine: line by line, from the whole of it.

use crate::machine::text;
use crate::plain::{Connection, Kind, MOST_STEPS, World};
use cmd_table::Steps;
use natives::Natives;
use rehearse::Rehearsal;
use std::alloc::Global;
use std::sync::ledger::Ledger;
use txt_core::{read_int_bytes, write_int};

/// How many events a file has at most.
const MOST_EVENTS: u64 = 5000;

/// The bytes that events may have.
const MOST_BYTES: usize = 67_108_864;

/// The number that a word is, in decimal without extra zeros.
fn number(alloc: Global, word: &[u8]) -> Option<u64> {
    match read_int_bytes(word) {
        Some(n) if n >= 0 && is_written(alloc, n, word) => Some(n as u64),
        _ => None,
    }
}

/// Whether a number is written so.
fn is_written(alloc: Global, number: i64, word: &[u8]) -> bool {
    match write_int(alloc, number) {
        Ok(digits) => digits.bytes() == word,
        Err(_) => false,
    }
}

/// What stands before the first of these bytes, and what behind it.
fn cut(text: &[u8], byte: u8) -> Option<(&[u8], &[u8])> {
    let place = text.iter().position(|other| *other == byte)?;
    Some((text.get(..place)?, text.get(place.saturating_add(1)..)?))
}

/// The block of so many bytes, which is at most so long, and what is left behind it and its newline.
fn cut_block(bytes: &[u8], size: u64, most: u64) -> Option<(&[u8], &[u8])> {
    if size > most || size >= bytes.len() as u64 {
        return None;
    }
    let (block, rest) = bytes.split_at(size as usize);
    let (newline, left) = rest.split_first()?;
    if *newline != b'\n' {
        return None;
    }
    Some((block, left))
}

impl World {
    /// Sets a page: what is left behind the event; `None` where it is none.
    fn act_page<'a>(
        &mut self,
        alloc: Global,
        path: &[u8],
        size: u64,
        rest: &'a [u8],
    ) -> Option<&'a [u8]> {
        let (page, left) = cut_block(rest, size, 1_048_576)?;
        if path.first() != Some(&b'/') {
            return None;
        }
        let _set = self.pages.push((text(alloc, path), text(alloc, page)));
        Some(left)
    }

    /// Gives a connection to a worker that is idle; whether there is such a worker.
    fn connect(&mut self, alloc: Global, worker: u64, input: &[u8]) -> bool {
        if worker >= self.workers.len() as u64 || !self.is_idle(worker as usize) {
            return false;
        }
        if let Some(slot) = self.workers.get_mut(worker as usize) {
            *slot = Some(Connection {
                input: text(alloc, input),
                begun: 0,
                bytes: 0,
                run: None,
            });
        }
        true
    }

    /// Gives a connection: what is left behind the event; `None` where it is none.
    fn act_connection<'a>(
        &mut self,
        alloc: Global,
        worker: &[u8],
        size: u64,
        rest: &'a [u8],
    ) -> Option<&'a [u8]> {
        let worker = number(alloc, worker)?;
        let (input, left) = cut_block(rest, size, 16_777_216)?;
        if self.connect(alloc, worker, input) {
            Some(left)
        } else {
            None
        }
    }

    /// Sets a page or gives a connection: what is left behind the event; `None` where it is none.
    fn act_with_name<'a>(
        &mut self,
        alloc: Global,
        name: &[u8],
        tail: &[u8],
        rest: &'a [u8],
    ) -> Option<&'a [u8]> {
        let (first, size) = cut(tail, b' ')?;
        let size = number(alloc, size)?;
        if name == b"page".as_slice() {
            self.act_page(alloc, first, size, rest)
        } else {
            self.act_connection(alloc, first, size, rest)
        }
    }

    /// Lets the scheduler take one step, or steps until it is idle.
    fn act_scheduler<L: Ledger>(
        &mut self,
        alloc: Global,
        natives: &Natives,
        all: bool,
        steps: &mut Steps<L>,
    ) {
        for _ in 0..if all { MOST_STEPS } else { 1 } {
            self.step_scheduler(alloc, natives, steps);
            if self.is_scheduler_idle() {
                return;
            }
        }
    }

    /// Lets a worker take one step, or steps until it is idle.
    fn act_worker<L: Ledger>(
        &mut self,
        alloc: Global,
        natives: &Natives,
        worker: usize,
        all: bool,
        steps: &mut Steps<L>,
    ) {
        for _ in 0..if all { MOST_STEPS } else { 1 } {
            self.step(alloc, natives, worker, steps);
            if self.is_idle(worker) {
                return;
            }
        }
    }

    /// Lets an actor take one step, or steps until it is idle; whether there is one.
    fn act_actor<L: Ledger>(
        &mut self,
        alloc: Global,
        natives: &Natives,
        word: &[u8],
        all: bool,
        steps: &mut Steps<L>,
    ) -> bool {
        if word == b"s".as_slice() {
            self.act_scheduler(alloc, natives, all, steps);
            return true;
        }
        match number(alloc, word) {
            Some(worker) if worker < self.workers.len() as u64 => {
                self.act_worker(alloc, natives, worker as usize, all, steps);
                true
            }
            _ => false,
        }
    }

    /// Runs a block: what is left behind the event; `None` where it is none.
    fn act_block<'a, L: Ledger>(
        &mut self,
        alloc: Global,
        natives: &Natives,
        size: u64,
        rest: &'a [u8],
        steps: &mut Steps<L>,
    ) -> Option<&'a [u8]> {
        let (block, left) = cut_block(rest, size, 8_388_608)?;
        if let Ok(run) = self.begin(alloc, Kind::Define(text(alloc, block))) {
            self.define(alloc, natives, run, steps);
        }
        Some(left)
    }

    /// Sets the clock or the number of workers; whether that is an event.
    fn act_number(&mut self, name: &[u8], value: u64, first: bool) -> bool {
        if name == b"clock".as_slice() && value <= 253_402_300_799 {
            self.moment = value;
            return true;
        }
        let is_workers = name == b"workers".as_slice() && first && value >= 1 && value <= 16;
        if is_workers {
            for _ in 1..value {
                let _pushed = self.workers.push(None);
            }
        }
        is_workers
    }

    /// Does the event of a line that is a name and a number, and gives what is left behind it; `None` where it is no
    /// event.
    fn act_with_number<'a, L: Ledger>(
        &mut self,
        alloc: Global,
        natives: &Natives,
        first: bool,
        event: (&[u8], u64),
        rest: &'a [u8],
        steps: &mut Steps<L>,
    ) -> Option<&'a [u8]> {
        let (name, value) = event;
        if name == b"define".as_slice() {
            return self.act_block(alloc, natives, value, rest, steps);
        }
        if self.act_number(name, value, first) {
            Some(rest)
        } else {
            None
        }
    }

    /// Does the event of a line, and gives what is left behind it; `None` where it is no event.
    fn act<'a, L: Ledger>(
        &mut self,
        alloc: Global,
        natives: &Natives,
        first: bool,
        line: &[u8],
        rest: &'a [u8],
        steps: &mut Steps<L>,
    ) -> Option<&'a [u8]> {
        let (name, tail) = cut(line, b' ')?;
        match name {
            b"connect" | b"page" => self.act_with_name(alloc, name, tail, rest),
            b"step" | b"run" => {
                let all = name == b"run".as_slice();
                if self.act_actor(alloc, natives, tail, all, steps) {
                    Some(rest)
                } else {
                    None
                }
            }
            _ => {
                let value = number(alloc, tail)?;
                self.act_with_number(alloc, natives, first, (name, value), rest, steps)
            }
        }
    }

    /// Plays a file, and gives what its rehearsal must answer.
    fn play<L: Ledger>(
        &mut self,
        alloc: Global,
        natives: &Natives,
        file: &[u8],
        steps: &mut Steps<L>,
    ) -> Rehearsal {
        let mut left = file;
        for event in 1..MOST_EVENTS {
            if left.is_empty() {
                break;
            }
            let came = match cut(left, b'\n') {
                None => None,
                Some((line, rest)) => self.act(alloc, natives, event == 1, line, rest, steps),
            };
            match came {
                Some(rest) if file.len().saturating_sub(rest.len()) <= MOST_BYTES => left = rest,
                _ => return Rehearsal::BadEvent { event },
            }
        }
        Rehearsal::Done
    }
}

/// Whether the rehearsal of a file must answer and write this.
pub fn must_come<L: Ledger>(
    alloc: Global,
    natives: &Natives,
    file: &[u8],
    answer: Rehearsal,
    written: &[u8],
    steps: &mut Steps<L>,
) -> bool {
    match World::new(alloc, natives) {
        Ok(mut world) => {
            let right = world.play(alloc, natives, file, steps) == answer;
            let listed = world.listing.bytes() == written;
            drop(world);
            right && listed
        }
        Err(_) => false,
    }
}
