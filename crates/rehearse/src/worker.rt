//! Workers.

ghost use Rattle.std.specs.Prelude.{◌≡◌, ◌↔◌, ◌∷◌, [], None, Some, IfOk, OnOk, IsTrue};
ghost use Rattle.natives.specs.Names.{names_of};
ghost use Rattle.http_resp.specs.ResponseBytes.{response_bytes};
ghost use Rattle.serving.specs.Connections.{closes};
ghost use Rattle.ictl.specs.Came.{IsAtQuestion, IsAtResponse};
ghost use Rattle.ictl.specs.declared.next.Next.TheVariants as nexts;
ghost use Rattle.tcl_eval.specs.declared.outcome.Outcome.{Outcome};
ghost use Rattle.rehearse.specs.Lines.{response, closed, refused};
ghost use Rattle.rehearse.specs.Objects.{Setting as SeenSetting};
ghost use Rattle.rehearse.specs.Steps.{refusal_bytes};
ghost use Rattle.rehearse.specs.Playing.{setting_of, with_task, HasNew, HasBegun, IsReady, IsReadyAt, Stepped, SteppedAt, Tells};
ghost use Rattle.rehearse.specs.declared.listing.Listing.{Listing as Told};
ghost use Rattle.rehearse.specs.declared.objects.Objects.{Objects as SeenObjects};
ghost use Rattle.rehearse.specs.declared.worker.Task.TheVariants as tasks;

use crate::keeper::Keeper;
use crate::listing::{Closing, Listing};
use crate::objects::Objects;
use crate::running::{begin_request, go_behind, resume};
use crate::setting::Setting;
use cmd_table::Steps;
use http_req::{BoxedRequest, Carry, Got, read_request};
use http_resp::{SharedResponse, plain, response_bytes};
use ictl::{Next, Run, one_response};
use natives::Natives;
use serving::{Behind, after_request, asks_close, closes, counted, is_head_only};
use std::alloc::Global;
use std::mem;
use std::sync::ledger::Ledger;
use turn_cell::Obj;
use txt_core::{NoMemory, Text, Unread};

/// Where all connections come from.
const PEER: &[u8] = b"127.0.0.1";

/// A connection: the input that no request took yet, how many requests began, and how many bytes of
/// answers they have had.
#[derive(Drop)]
pub struct Connection {
    source: Unread,
    carry: Carry,
    requests: u64,
    answer_bytes: u64,
}

/// A request under way: its run, the moment at which it began, and what it asks of its connection and of
/// its response.
#[derive(Drop)]
pub struct UnderWay {
    run: Run,
    moment: u64,
    asks_close: bool,
    head_only: bool,
    /// Its response was written.
    written: bool,
}

/// What a worker is at.
#[derive(Drop)]
pub enum Task {
    /// It has no connection.
    Idle,
    /// It has a connection, and no request is under way.
    Between(Connection),
    /// It serves a request.
    Serving(Connection, UnderWay),
}

/// A worker of a number, with the interpreter that it keeps.
#[derive(Drop)]
pub struct Worker {
    alloc: Global,
    number: u64,
    keeper: Keeper,
    task: Task,
}

/// The reply of a refusal, which closes its connection.
fn refusal(alloc: Global, status: u16, moment: u64) -> Result<Text, NoMemory>
    ensures { IfOk result (λ bytes. bytes ≡ refusal_bytes status moment) }
{
    let reply = plain(alloc, status)?;
    response_bytes(alloc, &reply, moment, false, true)
}

impl Worker {
    /// A worker of this number without a connection, which has made no interpreter yet.
    pub fn new(alloc: Global, number: u64) -> Worker
        ensures { (result.task ≡ tasks.Idle) × (result.keeper.interp ≡ None)
            × (result.number ≡ number) }
    {
        Worker {
            alloc,
            number,
            keeper: Keeper::new(),
            task: Task::Idle,
        }
    }

    /// Whether it has no connection.
    pub fn is_idle(&self) -> bool
        ensures { IsTrue result ↔ (self.now.task ≡ tasks.Idle) }
    {
        match self.task {
            Task::Idle => true,
            Task::Between(_) | Task::Serving(_, _) => false,
        }
    }

    /// Turns to a task, and lets go of what it was at.
    fn turn_to(&mut self, task: Task)
        ensures { self.new ≡ with_task self.old task }
    {
        drop(mem::replace(&mut self.task, task));
    }

    /// Gives it a connection with this input, in the place of what it was at.
    pub fn connect(&mut self, input: Text)
        ensures task { HasNew self.new input }
        ensures rest { (self.new.number ≡ self.old.number) × (self.new.keeper ≡ self.old.keeper) }
    {
        let source = Unread::new(input);
        let carry = Carry::new(self.alloc);
        let connection = Connection {
            source,
            carry,
            requests: 0,
            answer_bytes: 0,
        };
        self.turn_to(Task::Between(connection));
    }

    /// Begins a request on the blueprint and at the moment as they are now.
    fn begin<L: Ledger>(
        &mut self,
        natives: &Natives,
        setting: &Setting,
        objects: &Objects,
        mut connection: Connection,
        request: BoxedRequest,
        steps: &mut Steps<L>,
    ) -> Result<(), NoMemory>
        requires ready { IsReadyAt (names_of natives.now) objects.now.blueprint self.old
            (tasks.Between connection) }
        ensures begun { OnOk result
            (HasBegun (names_of natives.now) (setting_of (names_of natives.now) setting.now)
            objects.now connection request self.new) }
        ensures ready { OnOk result
            (IsReady (names_of natives.now) objects.now.blueprint self.new) }
        ensures number { self.new.number ≡ self.old.number }
    {
        let interp = self
            .keeper
            .take(self.alloc, natives, &objects.blueprint, steps)?;
        let asked = request.get();
        let asks_close = asks_close(asked);
        let head_only = is_head_only(asked);
        let moment = setting.moment;
        let run = begin_request(interp, natives, request, moment, steps);
        connection.requests += 1;
        let serving = UnderWay {
            run,
            moment,
            asks_close,
            head_only,
            written: false,
        };
        self.turn_to(Task::Serving(connection, serving));
        Ok(())
    }

    /// A step of a worker that serves no request: it begins the next one, or closes its connection.
    fn go_on<L: Ledger>(
        &mut self,
        natives: &Natives,
        setting: &Setting,
        objects: &Objects,
        mut connection: Connection,
        listing: &mut Listing,
        steps: &mut Steps<L>,
    ) -> Result<(), NoMemory>
        requires idle { self.old.task ≡ tasks.Idle }
        requires ready { IsReadyAt (names_of natives.now) objects.now.blueprint self.old
            (tasks.Between connection) }
        ensures { OnOk result
            (SteppedAt (setting_of (names_of natives.now) setting.now) self.old
            (tasks.Between connection) objects.now listing.old self.new objects.now listing.new) }
    {
        let peer = Text::new(self.alloc, PEER)?;
        let source = &mut connection.source;
        match read_request(self.alloc, source, &mut connection.carry, &peer) {
            Got::Request(request) => {
                self.begin(natives, setting, objects, connection, request, steps)
            }
            Got::End => listing.push_closed(self.number, Closing::Ended),
            Got::Truncated { have } => listing.push_closed(self.number, Closing::Truncated(have)),
            Got::Refused { status } => self.refuse(status, setting.moment, listing),
            Got::ReadFault => unreachable!(),
            Got::NoMemory => Err(NoMemory),
        }
    }

    /// Writes the reply of a refusal, and closes the connection.
    fn refuse(&self, status: u16, moment: u64, listing: &mut Listing) -> Result<(), NoMemory>
        ensures { OnOk result
            (Tells listing.old
            (response self.now.number None status (refusal_bytes status moment) ∷ closed
            self.now.number (refused status) ∷ [])
            listing.new) }
    {
        let reply = refusal(self.alloc, status, moment)?;
        listing.push_response(self.number, None, status, reply.bytes())?;
        listing.push_closed(self.number, Closing::Refused(status))
    }

    /// Answers the question at which the request stands.
    fn answer<L: Ledger>(
        &mut self,
        natives: &Natives,
        setting: &Setting,
        objects: &mut Objects,
        mut connection: Connection,
        mut serving: UnderWay,
        steps: &mut Steps<L>,
    ) -> Result<(), NoMemory>
        requires asks { IsAtQuestion serving.run }
        requires ready { IsReadyAt (names_of natives.now) objects.old.blueprint self.old
            (tasks.Serving connection serving) }
        ensures { (listing : Told)
            → OnOk result
            (SteppedAt (setting_of (names_of natives.now) setting.now) self.old
            (tasks.Serving connection serving) objects.old listing self.new objects.new listing) }
    {
        let Some(question) = serving.run.take_question() else {
            unreachable!()
        };
        objects.blueprint.shown();
        let answer = objects.answer(self.alloc, setting, serving.moment, question)?;
        connection.answer_bytes = counted(connection.answer_bytes, &answer);
        resume(&mut serving.run, natives, answer, steps);
        self.turn_to(Task::Serving(connection, serving));
        Ok(())
    }

    /// Tells the response of the request, as it goes to the connection.
    fn tell(
        &self,
        connection: &Connection,
        serving: &UnderWay,
        reply: &SharedResponse,
        listing: &mut Listing,
    ) -> Result<(), NoMemory>
        ensures { OnOk result
            (Tells listing.old
            (response self.now.number (Some serving.now.run.interp.blueprint.value.epoch)
            reply.now.status
            (response_bytes reply.now serving.now.moment serving.now.head_only
            (closes serving.now.asks_close connection.now.requests connection.now.answer_bytes))
            ∷ [])
            listing.new) }
    {
        let (requests, answer_bytes) = (connection.requests, connection.answer_bytes);
        let closes = closes(serving.asks_close, requests, answer_bytes);
        let given = reply.get();
        let bytes = response_bytes(self.alloc, given, serving.moment, serving.head_only, closes)?;
        let epoch = serving.run.epoch();
        listing.push_response(self.number, Some(epoch), given.status, bytes.bytes())
    }

    /// Writes the response of the request.
    fn write<L: Ledger>(
        &mut self,
        natives: &Natives,
        connection: Connection,
        mut serving: UnderWay,
        listing: &mut Listing,
        steps: &mut Steps<L>,
    ) -> Result<(), NoMemory>
        requires writing { IsAtResponse serving.run }
        ensures { (setting : SeenSetting) (objects : SeenObjects)
            → setting.natives ≡ names_of natives.now
            → IsReadyAt setting.natives objects.blueprint self.old
            (tasks.Serving connection serving)
            → OnOk result
            (SteppedAt setting self.old (tasks.Serving connection serving) objects
            listing.old self.new objects listing.new) }
    {
        one_response();
        let Next::Write(response) = serving.run.next() else {
            unreachable!()
        };
        self.tell(&connection, &serving, response, listing)?;
        go_behind(&mut serving.run, natives, steps);
        serving.written = true;
        self.turn_to(Task::Serving(connection, serving));
        Ok(())
    }

    /// Ends the request, and closes the connection where that is to close.
    fn end<L: Ledger>(
        &mut self,
        connection: Connection,
        serving: UnderWay,
        listing: &mut Listing,
        steps: &mut Steps<L>,
    ) -> Result<(), NoMemory>
        requires { self.old.task ≡ tasks.Idle }
        ensures { (setting : SeenSetting) (objects : SeenObjects) (outcome : Outcome)
            → serving.run.next ≡ nexts.Ended outcome
            → IsReadyAt setting.natives objects.blueprint self.old
            (tasks.Serving connection serving)
            → OnOk result
            (SteppedAt setting self.old (tasks.Serving connection serving) objects
            listing.old self.new objects listing.new) }
    {
        let UnderWay {
            run,
            asks_close,
            ..
        } = serving;
        let (_, interp) = run.into_parts();
        let behind = after_request(asks_close, connection.requests, connection.answer_bytes);
        self.keeper.keep(interp, steps);
        match behind {
            Behind::GoesOn => {
                self.turn_to(Task::Between(connection));
                Ok(())
            }
            Behind::Closing => listing.push_closed(self.number, Closing::Closing),
            Behind::Spent => listing.push_closed(self.number, Closing::Spent),
        }
    }

    /// A step of a worker that serves a request: it answers the open question, writes the response that
    /// stands ready, or ends the request.
    fn serve<L: Ledger>(
        &mut self,
        natives: &Natives,
        setting: &Setting,
        objects: &mut Objects,
        connection: Connection,
        serving: UnderWay,
        listing: &mut Listing,
        steps: &mut Steps<L>,
    ) -> Result<(), NoMemory>
        requires idle { self.old.task ≡ tasks.Idle }
        requires ready { IsReadyAt (names_of natives.now) objects.old.blueprint self.old
            (tasks.Serving connection serving) }
        ensures { OnOk result
            (SteppedAt (setting_of (names_of natives.now) setting.now) self.old
            (tasks.Serving connection serving) objects.old listing.old self.new objects.new
            listing.new) }
    {
        match serving.run.next() {
            Next::Asks(_) => self.answer(natives, setting, objects, connection, serving, steps),
            Next::Write(_) => self.write(natives, connection, serving, listing, steps),
            Next::Ended(_) => self.end(connection, serving, listing, steps),
            Next::NoMemory => {
                drop(serving);
                Err(NoMemory)
            }
        }
    }

    /// Takes one step. Where memory wants, the worker is in any state.
    pub fn step<L: Ledger>(
        &mut self,
        natives: &Natives,
        setting: &Setting,
        objects: &mut Objects,
        listing: &mut Listing,
        steps: &mut Steps<L>,
    ) -> Result<(), NoMemory>
        requires { IsReady (names_of natives.now) objects.old.blueprint self.old }
        ensures { OnOk result
            (Stepped (setting_of (names_of natives.now) setting.now) self.old objects.old
            listing.old self.new objects.new listing.new) }
    {
        match mem::replace(&mut self.task, Task::Idle) {
            Task::Idle => Ok(()),
            Task::Between(connection) => {
                self.go_on(natives, setting, objects, connection, listing, steps)
            }
            Task::Serving(connection, serving) => self.serve(
                natives, setting, objects, connection, serving, listing, steps,
            ),
        }
    }
}
