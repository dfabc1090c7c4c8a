//! The host of a connection.

ghost use Rattle.std.specs.Prelude.{◌≡◌, IfOk, OnOk};
ghost use Rattle.conn_host.specs.Conns.{output_fields};
ghost use Rattle.conn_host.specs.Waiting.{seen};

use crate::answering::{dispatch, do_verb, resume};
use crate::conn::Conn;
use crate::responding::{require_connection, respond};
use crate::verb::Verb;
use http_req::BoxedRequest;
use http_resp::{Response, SharedResponse};
use natives::Fault;
use outside::Answer;
use std::alloc::Global;
use std::marker::Model;
use tcl_host::HostReply;
use txt_core::{NoMemory, Pairs, Text, Words};

/// What does the commands on a connection, on sets and on channels. Contracts see its state.
///
/// The sets with which a run on a request begins are made where a command first needs them. Most runs
/// answer their request without one.
#[derive(Drop)]
pub struct ConnHost {
    pub(crate) alloc: Global,
    conn: Conn,
    /// Whether the sets with which the run began are still to be made.
    waits: bool,
}

impl Model for ConnHost {
    ghost use Rattle.conn_host.specs.Conns.{ConnState};
    ghost use Rattle.conn_host.specs.Waiting.{seen};

    ghost Value = { ConnState };

    ghost view = { λ h. seen h.waits h.conn };
}

/// Makes the sets with which the run began, where they wait.
fn make(conn: &mut Conn, waits: bool) -> Result<(), NoMemory>
    ensures { OnOk result (conn.new ≡ seen waits conn.old) }
{
    if !waits {
        return Ok(());
    }
    conn.make_first_sets()
}

/// Copies of the output fields: none where the sets with which the run began wait.
#[tactic(auto, using(crate::proofs::Waits::no_output))]
fn output_of(alloc: Global, conn: &Conn, waits: bool) -> Result<Pairs, NoMemory>
    ensures { IfOk result (λ fields. fields ≡ output_fields (seen waits conn.now)) }
{
    if waits {
        return Ok(Pairs::new(alloc));
    }
    conn.output_fields()
}

impl ConnHost {
    ghost use Rattle.std.specs.Prelude.{◌≡◌, ◌≢◌, IfOk, is_some};
    ghost use Rattle.std.specs.Option.{option_copied};
    ghost use Rattle.txt_core.specs.ErrorTexts.{no_connection};
    ghost use Rattle.tcl_host.specs.Answers.{Replies};
    ghost use Rattle.tcl_host.specs.Outcomes.{EndsWith};
    ghost use Rattle.conn_host.specs.Answers.{Passes};
    ghost use Rattle.conn_host.specs.Conns.{serving, without_connection, no_run, output_fields};
    ghost use Rattle.conn_host.specs.Leaf.{does, conn_call, conn_answer};
    ghost use Rattle.conn_host.specs.Responding.{respond};

    /// The host at the beginning of a run on a request. Set 0 has the request's fields, set 1 none yet
    /// for the response, and set 2 the form. It takes no memory.
    pub fn new(alloc: Global, request: BoxedRequest, moment: u64) -> ConnHost
        ensures { result ≡ serving request moment }
    {
        let mut conn = Conn::none(alloc);
        conn.begin(request, moment);
        ConnHost {
            alloc,
            conn,
            waits: true,
        }
    }

    /// Begins a run on a request where the host stands, as `new` does; what was before is left. It takes
    /// no memory.
    pub fn serve(&mut self, request: BoxedRequest, moment: u64)
        ensures { self.new ≡ serving request moment }
    {
        self.conn.begin(request, moment);
        self.waits = true;
    }

    /// The host at the beginning of a run without a connection: the sets 0 to 2 are as if they had been
    /// made and freed. Its only error is want of memory.
    pub fn without(alloc: Global, moment: u64) -> Result<ConnHost, NoMemory>
        ensures { IfOk result (λ host. host ≡ without_connection moment) }
    {
        let conn = Conn::without(alloc, moment)?;
        Ok(ConnHost {
            alloc,
            conn,
            waits: false,
        })
    }

    /// Does a command, by its words. `NotMine` comes exactly where the first word is none of this
    /// host's commands. Where memory wants, the host may be in any state.
    pub fn call(&mut self, words: &Words) -> HostReply
        ensures { Replies result self.new (conn_call words.now self.old) }
    {
        dispatch(self, words)
    }

    /// Does a command other than `ns_return`. The sets are made first where they wait.
    pub(crate) fn do_made(&mut self, verb: Verb, words: &Words) -> HostReply
        requires { verb ≢ Verb.NsReturn }
        ensures { Replies result self.new (does verb words.now self.old) }
    {
        let waits = self.waits;
        self.waits = false;
        match make(&mut self.conn, waits) {
            Ok(()) => do_verb(&mut self.conn, verb, words),
            Err(NoMemory) => HostReply::NoMemory,
        }
    }

    /// Goes on with an `open` whose question was answered. `NotMine` comes exactly where the first word
    /// isn't `open`. Where memory wants, the host may be in any state.
    pub fn answered(&mut self, words: &Words, answer_given: &Answer) -> HostReply
        ensures { Replies result self.new (conn_answer words.now answer_given.now self.old) }
    {
        let waits = self.waits;
        self.waits = false;
        match make(&mut self.conn, waits) {
            Ok(()) => resume(&mut self.conn, words, answer_given),
            Err(NoMemory) => HostReply::NoMemory,
        }
    }

    /// Goes on where the run has a connection.
    pub(crate) fn require_connection(&self) -> Result<(), Fault>
        ensures { Passes result (is_some self.now.request) no_connection }
    {
        require_connection(&self.conn)
    }

    /// Gives a response, where none was given. No set is looked at.
    pub(crate) fn respond(&mut self, response: Response) -> Result<Text, Fault>
        ensures { EndsWith result self.new (respond response self.old) }
    {
        respond(&mut self.conn, response)
    }

    /// The response that was given, if any.
    pub fn response(&self) -> Option<&SharedResponse>
        ensures { option_copied result ≡ self.now.response }
    {
        self.conn.response()
    }

    /// The request that is served, where the run has a connection.
    pub fn request(&self) -> Option<&BoxedRequest>
        ensures { option_copied result ≡ self.now.request }
    {
        self.conn.request()
    }

    /// Copies of the output fields as they are now: the fields of set 1, and none where it was freed.
    /// The only error is want of memory.
    pub fn output_fields(&self) -> Result<Pairs, NoMemory>
        ensures { IfOk result (λ fields. fields ≡ output_fields self.now) }
    {
        output_of(self.alloc, &self.conn, self.waits)
    }

    /// Leaves the run: no request, no set, no channel and no response, and the numbers of sets and
    /// channels begin anew. It takes no memory.
    pub fn clear(&mut self)
        ensures { self.new ≡ no_run }
    {
        self.conn.clear();
        self.waits = false;
    }
}
