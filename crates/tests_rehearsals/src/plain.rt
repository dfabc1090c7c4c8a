//! The machine of one thread, plain and slow. At each step it makes an interpreter anew from the
//! definitions of a run's beginning and replays the run with all its answers so far; to find a request it
//! reads its connection's input from the start; and its schedule and its pages are lists. Beside the
//! machine it stands for resets and for the order of things alone: the interpreter itself, the reading of
//! requests, what a question calls and what a request asks of its connection it takes from the same crates.

ghost use Rattle.ictl.specs.Interps.{IsNew};
ghost use Rattle.natives.specs.Names.{names_of};

use crate::machine::{put, put_number, text};
use blueprint::{BlueCall, BlueReply, Blueprint, Published};
use cmd_table::{Defs, Steps};
use http_req::{Carry, Got, read_request};
use http_resp::{Response, plain, response_bytes};
use ictl::{BoxedInterp, Next};
use natives::Natives;
use nsv_bucket::{Buckets, NsvReply};
use outside::{Answer, MemSource, Question, Service};
use serving::{Asked, asks_close, is_head_only, publish_call, save_call};
use std::alloc::Global;
use std::sync::ledger::Ledger;
use tcl_eval::Outcome;
use turn_cell::Obj;
use txt_core::{NoMemory, Text, Words, read_int};

/// What runs.
#[derive(Drop)]
pub enum Kind {
    /// The request of this number, from 0, of an input.
    Request(Text, usize),
    Script(Text),
    Define(Text),
}

/// A run under way: what stood when it began, its answers so far, and whether its response was written.
#[derive(Drop)]
pub struct Run {
    kind: Kind,
    pub epoch: u64,
    defs: Defs,
    moment: u64,
    answers: Vec<Answer>,
    written: bool,
}

/// A connection: its whole input, how many requests began, how many bytes of answers they had, and the
/// run of the last, if it hasn't ended.
#[derive(Drop)]
pub struct Connection {
    pub input: Text,
    pub begun: usize,
    pub bytes: usize,
    pub run: Option<Run>,
}

/// An entry of the schedule.
#[derive(Drop)]
pub struct Entry {
    id: u64,
    due: u64,
    seconds: u64,
    once: bool,
    script: Text,
}

#[derive(Drop)]
pub struct World {
    pub moment: u64,
    pub pages: Vec<(Text, Text)>,
    pub blueprint: Blueprint,
    arrays: Buckets,
    entries: Vec<Entry>,
    next_id: u64,
    /// The scripts that were taken, the last of which is the next.
    pub waiting: Vec<(u64, Text)>,
    pub running: Option<(u64, Run)>,
    pub workers: Vec<Option<Connection>>,
    pub listing: Text,
}

fn copy_answer(alloc: Global, answer: &Answer) -> Answer {
    match answer {
        Answer::Said(said) => Answer::Said(text(alloc, said.bytes())),
        Answer::Failed(why) => Answer::Failed(text(alloc, why.bytes())),
        Answer::Page(page) => Answer::Page(text(alloc, page.bytes())),
        Answer::NoPage => Answer::NoPage,
        Answer::PageFault => Answer::PageFault,
    }
}

fn size_of(answer: &Answer) -> usize {
    match answer {
        Answer::Said(text) | Answer::Failed(text) | Answer::Page(text) => text.len(),
        Answer::NoPage | Answer::PageFault => 0,
    }
}

/// What the reading of the request of this number finds.
fn read_nth(alloc: Global, input: &Text, number: usize) -> Got {
    let peer = text(alloc, b"127.0.0.1");
    let mut source = MemSource::new(text(alloc, input.bytes()), usize::MAX, Vec::new(alloc));
    let mut carry = Carry::new(alloc);
    for _ in 0..number {
        drop(read_request(alloc, &mut source, &mut carry, &peer));
    }
    read_request(alloc, &mut source, &mut carry, &peer)
}

/// Gives a run an answer, where it stands at a question.
fn resume<L: Ledger>(run: &mut ictl::Run, natives: &Natives, answer: Answer, steps: &mut Steps<L>) {
    if matches!(run.next(), Next::Asks(_)) {
        run.resume(natives, answer, steps);
    }
}

/// Tells a run that its response was written, where it was and it stands at one.
fn write<L: Ledger>(run: &mut ictl::Run, natives: &Natives, written: bool, steps: &mut Steps<L>) {
    if written && matches!(run.next(), Next::Write(_)) {
        run.written(natives, true, steps);
    }
}

/// Starts a run. Want of memory is also answered where the input has no such request.
fn start<L: Ledger>(
    alloc: Global,
    interp: BoxedInterp,
    natives: &Natives,
    run: &Run,
    steps: &mut Steps<L>,
) -> Result<ictl::Run, NoMemory>
    requires { IsNew (names_of natives.now) interp }
{
    let moment = run.moment;
    Ok(match &run.kind {
        Kind::Script(script) => ictl::Run::start_script(interp, natives, script, moment, steps),
        Kind::Define(script) => ictl::Run::start_define(interp, natives, script, moment, steps),
        Kind::Request(input, number) => match read_nth(alloc, input, *number) {
            Got::Request(request) => {
                ictl::Run::start_request(interp, natives, request, moment, steps)
            }
            _ => return Err(NoMemory),
        },
    })
}

impl Run {
    /// Gives a run that stands where this one stood the next answer.
    fn go_on<L: Ledger>(
        &self,
        alloc: Global,
        run: &mut ictl::Run,
        natives: &Natives,
        answer: &Answer,
        steps: &mut Steps<L>,
    ) {
        write(run, natives, self.written, steps);
        resume(run, natives, copy_answer(alloc, answer), steps);
    }

    /// Goes on with a run that has begun to where this one stands.
    fn replay_on<L: Ledger>(
        &self,
        alloc: Global,
        run: &mut ictl::Run,
        natives: &Natives,
        steps: &mut Steps<L>,
    ) {
        for answer in self.answers.as_slice() {
            self.go_on(alloc, run, natives, answer, steps);
        }
        write(run, natives, self.written, steps);
    }

    /// Where the run stands.
    fn replay<L: Ledger>(
        &self,
        alloc: Global,
        natives: &Natives,
        steps: &mut Steps<L>,
    ) -> Result<Next, NoMemory> {
        let interp = BoxedInterp::build(alloc, natives, self.epoch, &self.defs, steps)?;
        let mut run = start(alloc, interp, natives, self, steps)?;
        self.replay_on(alloc, &mut run, natives, steps);
        let (next, interp) = run.into_parts();
        drop(interp);
        Ok(next)
    }
}

/// The number from 0 on that the word at a place is.
fn natural(words: &Words, at: usize) -> u64 {
    let Some(word) = words.get(at) else {
        return 0;
    };
    match read_int(word) {
        Some(number) if number >= 0 => number as u64,
        _ => 0,
    }
}

fn said(alloc: Global, number: u64) -> Answer {
    let mut text = Text::empty(alloc);
    put_number(alloc, &mut text, number);
    Answer::Said(text)
}

/// That something at a place is refused.
fn refused(alloc: Global, what: &[u8], place: u64, why: &[u8]) -> Answer {
    let mut text = text(alloc, what);
    put_number(alloc, &mut text, place);
    put(&mut text, why);
    Answer::Failed(text)
}

/// What the arrays say.
fn array_answer(reply: NsvReply) -> Answer {
    match reply {
        NsvReply::Said(text) => Answer::Said(text),
        NsvReply::Failed(text) => Answer::Failed(text),
        NsvReply::NoMemory => Answer::PageFault,
    }
}

/// What a publication or a save comes to. Where memory wants, it is what none comes to.
fn published(alloc: Global, reply: &BlueReply) -> Answer {
    match reply {
        BlueReply::Published(Published::Done(epoch)) => said(alloc, *epoch),
        BlueReply::Published(Published::NotADefinition(place)) => {
            refused(alloc, b"command ", *place, b" is no definition")
        }
        BlueReply::Published(Published::NotApplicable(place)) => {
            refused(alloc, b"definition ", *place, b" does not apply")
        }
        BlueReply::Published(Published::Full(_)) => Answer::Failed(text(alloc, b"blueprint full")),
        BlueReply::Published(Published::NoMemory) | BlueReply::Look(_) => Answer::PageFault,
    }
}

impl World {
    pub fn new(alloc: Global, natives: &Natives) -> Result<World, NoMemory> {
        let blueprint = Blueprint::new(alloc, natives)?;
        let mut workers = Vec::new(alloc);
        let _pushed = workers.push(None);
        Ok(World {
            moment: 0,
            pages: Vec::new(alloc),
            blueprint,
            arrays: Buckets::new(alloc),
            entries: Vec::new(alloc),
            next_id: 0,
            waiting: Vec::new(alloc),
            running: None,
            workers,
            listing: Text::empty(alloc),
        })
    }

    pub fn begin(&self, alloc: Global, kind: Kind) -> Result<Run, NoMemory> {
        Ok(Run {
            kind,
            epoch: self.blueprint.epoch(),
            defs: self.blueprint.definitions()?,
            moment: self.moment,
            answers: Vec::new(alloc),
            written: false,
        })
    }

    /// Tells bytes.
    pub fn tell(&mut self, bytes: &[u8]) {
        put(&mut self.listing, bytes);
    }

    /// Tells a number behind a blank.
    fn tell_number(&mut self, alloc: Global, number: u64) {
        put(&mut self.listing, b" ");
        put_number(alloc, &mut self.listing, number);
    }

    /// Tells a block behind its line, of which its length is told here.
    fn tell_block(&mut self, alloc: Global, block: &[u8]) {
        self.tell_number(alloc, block.len() as u64);
        self.tell(b"\n");
        self.tell(block);
        self.tell(b"\n");
    }

    /// The page at a path, which is the one that was set last.
    fn page(&self, alloc: Global, words: &Words) -> Answer {
        let mut found = Answer::NoPage;
        for (path, page) in self.pages.as_slice() {
            if words
                .get(0)
                .is_some_and(|word| word.bytes() == path.bytes())
            {
                found = Answer::Page(text(alloc, page.bytes()));
            }
        }
        found
    }

    /// Puts an entry into the schedule.
    fn enter(
        &mut self,
        alloc: Global,
        due: u64,
        seconds: u64,
        once: bool,
        script: &Text,
    ) -> Answer {
        let id = self.next_id;
        let _pushed = self.entries.push(Entry {
            id,
            due,
            seconds,
            once,
            script: text(alloc, script.bytes()),
        });
        self.next_id = id.saturating_add(1);
        said(alloc, id)
    }

    fn schedule(&mut self, alloc: Global, words: &Words, moment: u64) -> Answer {
        let is_cancel = words
            .get(0)
            .is_some_and(|word| word.bytes() == b"ns_unschedule_proc".as_slice());
        if is_cancel {
            return self.cancel(alloc, words);
        }
        let once = words.len() == 4;
        let at = if once { 2 } else { 1 };
        let seconds = natural(words, at);
        match words.get(at + 1) {
            Some(script) => {
                let due = moment.saturating_add(seconds);
                self.enter(alloc, due, seconds, once, script)
            }
            None => Answer::PageFault,
        }
    }

    /// That there is no entry of this number.
    fn no_entry(alloc: Global, words: &Words) -> Answer {
        let mut why = text(alloc, b"no schedule \"");
        if let Some(word) = words.get(1) {
            put(&mut why, word.bytes());
        }
        put(&mut why, b"\"");
        Answer::Failed(why)
    }

    fn cancel(&mut self, alloc: Global, words: &Words) -> Answer {
        let id = natural(words, 1);
        for at in 0..self.entries.len() {
            let is_it = self.entries.get(at).is_some_and(|entry| entry.id == id);
            if is_it && at < self.entries.len() {
                drop(self.entries.remove(at));
                return Answer::Said(Text::empty(alloc));
            }
        }
        World::no_entry(alloc, words)
    }

    fn publish(&mut self, alloc: Global, call: BlueCall) -> Answer {
        let reply = self.blueprint.act(call);
        published(alloc, &reply)
    }

    /// Publishes what words ask to publish.
    fn publish_asked(&mut self, alloc: Global, words: &Words) -> Answer {
        match publish_call(alloc, words) {
            Ok(Asked::Puts(call)) => self.publish(alloc, call),
            Ok(Asked::Refused(answer)) => answer,
            Err(_) => Answer::PageFault,
        }
    }

    /// Saves what words ask to save.
    fn save_asked(&mut self, alloc: Global, words: &Words) -> Answer {
        match save_call(alloc, words) {
            Ok(call) => self.publish(alloc, call),
            Err(_) => Answer::PageFault,
        }
    }

    /// Asks the arrays.
    fn ask_arrays(&mut self, words: &Words) -> Answer {
        match self.arrays.ask(words) {
            Ok(reply) => array_answer(reply),
            Err(_) => Answer::PageFault,
        }
    }

    /// The answer to a question. Where memory wants, it is one that the service never gives.
    fn answer(&mut self, alloc: Global, question: &Question, moment: u64) -> Answer {
        let words = &question.words;
        match question.service {
            Service::Page => self.page(alloc, words),
            Service::Schedule => self.schedule(alloc, words, moment),
            Service::Publish => self.publish_asked(alloc, words),
            Service::Save => self.save_asked(alloc, words),
            Service::Nsv | Service::Inner => self.ask_arrays(words),
        }
    }

    /// Gives a run the answer to its question.
    fn give(&mut self, alloc: Global, run: &mut Run, question: &Question) {
        let answer = self.answer(alloc, question, run.moment);
        let _pushed = run.answers.push(answer);
    }

    /// Answers the questions of a block, and tells how it ended. Where memory wants, nothing is told.
    pub fn define<L: Ledger>(
        &mut self,
        alloc: Global,
        natives: &Natives,
        mut run: Run,
        steps: &mut Steps<L>,
    ) {
        let mut epoch = run.epoch;
        for _ in 0..MOST_STEPS {
            match run.replay(alloc, natives, steps) {
                Ok(Next::Asks(question)) => {
                    self.give(alloc, &mut run, &question);
                    if question.service == Service::Publish {
                        epoch = self.blueprint.epoch();
                    }
                }
                Ok(Next::Ended(outcome)) => {
                    self.tell_defined(alloc, epoch, &outcome);
                    return;
                }
                _ => return,
            }
        }
    }

    fn tell_defined(&mut self, alloc: Global, epoch: u64, outcome: &Outcome) {
        match outcome {
            Outcome::Done { code: 0, .. } => {
                self.tell(b"defined");
                self.tell_number(alloc, epoch);
                self.tell(b"\n");
            }
            Outcome::Done { result, .. } => {
                self.tell(b"define error");
                self.tell_block(alloc, result.bytes());
            }
            Outcome::Spent => self.tell(b"define spent\n"),
            Outcome::TooDeep => self.tell(b"define deep\n"),
            Outcome::Asks(_) | Outcome::NoMemory => {}
        }
    }
}

/// How many steps a run takes at most.
pub const MOST_STEPS: usize = 2000;

impl World {
    /// One step of a worker. Where memory wants, its connection is gone, of which nothing is told.
    pub fn step<L: Ledger>(
        &mut self,
        alloc: Global,
        natives: &Natives,
        place: usize,
        steps: &mut Steps<L>,
    ) {
        let Some(slot) = self.workers.get_mut(place) else {
            return;
        };
        let Some(connection) = slot.take() else {
            return;
        };
        let after = self.stepped(alloc, natives, place, connection, steps);
        if let Some(slot) = self.workers.get_mut(place) {
            *slot = after;
        }
    }

    /// The connection of a worker behind its step, if it isn't closed.
    fn stepped<L: Ledger>(
        &mut self,
        alloc: Global,
        natives: &Natives,
        place: usize,
        mut connection: Connection,
        steps: &mut Steps<L>,
    ) -> Option<Connection> {
        match connection.run.take() {
            None => self.go_on(alloc, place, connection),
            Some(run) => self.serve(alloc, natives, place, connection, run, steps),
        }
    }

    /// Tells that a connection is closed, and why.
    fn close(&mut self, alloc: Global, place: usize, why: &[u8]) {
        self.tell(b"closed");
        self.tell_number(alloc, place as u64);
        self.tell(b" ");
        self.tell(why);
        self.tell(b"\n");
    }

    /// The same, with a number behind.
    fn close_with(&mut self, alloc: Global, place: usize, why: &[u8], number: u64) {
        self.tell(b"closed");
        self.tell_number(alloc, place as u64);
        self.tell(b" ");
        self.tell(why);
        self.tell_number(alloc, number);
        self.tell(b"\n");
    }

    /// Tells of the bytes of a refusal.
    fn refuse(&mut self, alloc: Global, place: usize, status: u16) {
        let reply = match plain(alloc, status) {
            Ok(reply) => response_bytes(alloc, &reply, self.moment, false, true),
            Err(_) => Err(NoMemory),
        };
        if let Ok(bytes) = reply {
            self.tell(b"response");
            self.tell_number(alloc, place as u64);
            self.tell(b" -");
            self.tell_block(alloc, bytes.bytes());
        }
        self.close_with(alloc, place, b"refused", u64::from(status));
    }

    /// A connection whose next request has begun.
    fn begun(&self, alloc: Global, mut connection: Connection) -> Option<Connection> {
        let input = text(alloc, connection.input.bytes());
        match self.begin(alloc, Kind::Request(input, connection.begun)) {
            Ok(run) => {
                connection.run = Some(run);
                connection.begun = connection.begun.saturating_add(1);
                Some(connection)
            }
            Err(_) => None,
        }
    }

    /// One step of a worker that serves no request.
    fn go_on(&mut self, alloc: Global, place: usize, connection: Connection) -> Option<Connection> {
        match read_nth(alloc, &connection.input, connection.begun) {
            Got::Request(_) => return self.begun(alloc, connection),
            Got::End => self.close(alloc, place, b"ended"),
            Got::Truncated { have } => self.close_with(alloc, place, b"truncated", have),
            Got::Refused { status } => self.refuse(alloc, place, status),
            Got::ReadFault | Got::NoMemory => {}
        }
        None
    }

    /// One step of a worker that serves a request.
    fn serve<L: Ledger>(
        &mut self,
        alloc: Global,
        natives: &Natives,
        place: usize,
        mut connection: Connection,
        mut run: Run,
        steps: &mut Steps<L>,
    ) -> Option<Connection> {
        match run.replay(alloc, natives, steps) {
            Ok(Next::Asks(question)) => {
                let answer = self.answer(alloc, &question, run.moment);
                connection.bytes = connection.bytes.saturating_add(size_of(&answer));
                let _pushed = run.answers.push(answer);
                connection.run = Some(run);
                Some(connection)
            }
            Ok(Next::Write(response)) => {
                self.respond(alloc, place, &connection, &run, response.get());
                run.written = true;
                connection.run = Some(run);
                Some(connection)
            }
            Ok(Next::Ended(_)) => {
                drop(run);
                self.end(alloc, place, connection)
            }
            _ => None,
        }
    }

    /// Whether the last request of a connection that began asks to close, and asks for the head alone; `None` where
    /// memory wants.
    fn manner(alloc: Global, connection: &Connection) -> Option<(bool, bool)> {
        let number = connection.begun.saturating_sub(1);
        match read_nth(alloc, &connection.input, number) {
            Got::Request(request) => Some((asks_close(request.get()), is_head_only(request.get()))),
            _ => None,
        }
    }

    /// Whether a connection has had as many requests, or as many bytes of answers, as one may have.
    fn is_spent(connection: &Connection) -> bool {
        connection.begun >= 100 || connection.bytes > 8_388_608
    }

    fn respond(
        &mut self,
        alloc: Global,
        place: usize,
        connection: &Connection,
        run: &Run,
        response: &Response,
    ) {
        let Some((closing, head_only)) = World::manner(alloc, connection) else {
            return;
        };
        let closes = closing || World::is_spent(connection);
        if let Ok(bytes) = response_bytes(alloc, response, run.moment, head_only, closes) {
            self.tell(b"response");
            self.tell_number(alloc, place as u64);
            self.tell_number(alloc, run.epoch);
            self.tell_block(alloc, bytes.bytes());
        }
    }

    fn end(&mut self, alloc: Global, place: usize, connection: Connection) -> Option<Connection> {
        match World::manner(alloc, &connection) {
            Some((true, _)) => self.close(alloc, place, b"closing"),
            Some((false, _)) if World::is_spent(&connection) => {
                self.close(alloc, place, b"spent");
            }
            Some((false, _)) => return Some(connection),
            None => {}
        }
        None
    }

    /// The place of the entry that is due first at this moment, if any is.
    fn first_due(&self) -> Option<usize> {
        let mut first: Option<(usize, u64, u64)> = None;
        for (place, entry) in self.entries.iter().enumerate() {
            let before = match first {
                None => true,
                Some((_, due, id)) => entry.due < due || (entry.due == due && entry.id < id),
            };
            if entry.due <= self.moment && before {
                first = Some((place, entry.due, entry.id));
            }
        }
        let (place, _, _) = first?;
        Some(place)
    }

    /// When an entry is due next, that was due at some moment up to now.
    fn due_next(&self, due: u64, seconds: u64) -> u64 {
        let late = self.moment.saturating_sub(due);
        let times = late.checked_div(seconds).unwrap_or(0).saturating_add(1);
        due.saturating_add(times.saturating_mul(seconds))
    }

    /// Takes the scripts that are due; each is taken out, and what runs again is put in at last.
    fn take_due(&mut self, alloc: Global) {
        let mut taken = Vec::new(alloc);
        let mut again = Vec::new(alloc);
        for _ in 0..self.entries.len() {
            let Some(place) = self.first_due() else {
                break;
            };
            if place >= self.entries.len() {
                break;
            }
            let mut entry = self.entries.remove(place);
            let _taken = taken.push((entry.id, text(alloc, entry.script.bytes())));
            if entry.once {
                drop(entry);
            } else {
                entry.due = self.due_next(entry.due, entry.seconds);
                let _again = again.push(entry);
            }
        }
        for entry in again {
            let _entered = self.entries.push(entry);
        }
        taken.as_mut_slice().reverse();
        self.waiting = taken;
    }

    /// Takes the next of the scripts that were taken, or those that are due.
    fn take_next(&mut self, alloc: Global) {
        match self.waiting.pop() {
            None => self.take_due(alloc),
            Some((id, script)) => {
                if let Ok(run) = self.begin(alloc, Kind::Script(script)) {
                    self.running = Some((id, run));
                }
            }
        }
    }

    /// One step of the scheduler. Where memory wants, its script is gone, of which nothing is told.
    pub fn step_scheduler<L: Ledger>(
        &mut self,
        alloc: Global,
        natives: &Natives,
        steps: &mut Steps<L>,
    ) {
        let Some((id, mut run)) = self.running.take() else {
            self.take_next(alloc);
            return;
        };
        match run.replay(alloc, natives, steps) {
            Ok(Next::Asks(question)) => {
                self.give(alloc, &mut run, &question);
                self.running = Some((id, run));
            }
            Ok(Next::Ended(outcome)) => self.tell_script(alloc, id, run.epoch, &outcome),
            _ => {}
        }
    }

    fn tell_script(&mut self, alloc: Global, id: u64, epoch: u64, outcome: &Outcome) {
        self.tell(b"script");
        self.tell_number(alloc, id);
        self.tell_number(alloc, epoch);
        match outcome {
            Outcome::Done { code, result } => {
                self.tell_number(alloc, u64::from(*code));
                self.tell_block(alloc, result.bytes());
            }
            Outcome::Spent => self.tell(b" spent\n"),
            Outcome::TooDeep => self.tell(b" deep\n"),
            Outcome::Asks(_) | Outcome::NoMemory => {}
        }
    }

    /// Whether the scheduler has no script.
    pub fn is_scheduler_idle(&self) -> bool {
        self.running.is_none() && self.waiting.is_empty()
    }

    pub fn is_idle(&self, place: usize) -> bool {
        self.workers
            .get(place)
            .is_some_and(|worker| worker.is_none())
    }
}
