//! The host of a run.

use crate::answering::{answered, call, put_out};
use crate::edition::Edition;
use crate::kind::Kind;
use adp_host::AdpHost;
use conn_host::ConnHost;
use http_req::BoxedRequest;
use http_resp::SharedResponse;
use outside::Answer;
use std::alloc::Global;
use std::marker::Model;
use std::rc::Rc;
use tcl_host::{Host, HostReply};
use txt_core::{NoMemory, Pairs, Text, Words};

/// Does the commands of the server in a run, one after the other. Contracts see the kind of run, what
/// is known of the connection and of the pages, the answers that an `nsv_names` under way has had, the
/// blueprint that the run is on, and the mark.
///
/// The mark says whether the run asked that its interpreter be built anew.
#[derive(Drop)]
pub struct RunHost {
    pub(crate) alloc: Global,
    pub(crate) kind: Option<Kind>,
    pub(crate) conn: ConnHost,
    pub(crate) pages: AdpHost,
    /// The answers that an `nsv_names` under way has had.
    pub(crate) gathered: Words,
    pub(crate) blueprint: Rc<Edition>,
    pub(crate) marked: bool,
}

impl Model for RunHost {
    ghost use Rattle.server_host.specs.Hosts.{HostState};

    ghost Value = { HostState };

    ghost view = { λ h. record { kind = h.kind; conn = h.conn; pages = h.pages; gathered = h.gathered; blueprint = h.blueprint.value; marked = h.marked } };
}

impl RunHost {
    ghost use Rattle.std.specs.Prelude.{◌≡◌, false, IfOk, OnOk, OnErr};
    ghost use Rattle.std.specs.Option.{option_copied};
    ghost use Rattle.conn_host.specs.Conns.{output_fields};
    ghost use Rattle.adp_host.specs.States.{without_pages};
    ghost use Rattle.server_host.specs.Hosts.{fresh, serving, scripting, defining, begun, with_mark, with_pages, with_blueprint};

    /// A host in no run, for runs on this blueprint, and not marked. Its only error is want of memory.
    pub fn new(alloc: Global, blueprint: Rc<Edition>) -> Result<RunHost, NoMemory>
        ensures { IfOk result (λ host. host ≡ fresh blueprint.value) }
    {
        let mut conn = ConnHost::without(alloc, 0)?;
        conn.clear();
        Ok(RunHost {
            alloc,
            kind: None,
            conn,
            pages: AdpHost::new(alloc),
            gathered: Words::new(alloc),
            blueprint,
            marked: false,
        })
    }

    /// Takes the mark off.
    fn unmark(&mut self)
        ensures { self.new ≡ with_mark self.old false }
    {
        self.marked = false;
    }

    /// Begins a run of this kind with the connection that stands; the mark stays.
    fn enter(&mut self, kind: Kind)
        ensures { self.new
            ≡ with_mark (begun kind self.old.conn self.old.blueprint) self.old.marked }
    {
        self.kind = Some(kind);
        self.pages.clear();
        self.gathered.clear();
    }

    /// Begins a run of this kind with this connection; the mark stays.
    fn begin(&mut self, kind: Kind, conn: ConnHost)
        ensures { self.new ≡ with_mark (begun kind conn self.old.blueprint) self.old.marked }
    {
        self.conn = conn;
        self.enter(kind);
    }

    /// Begins the run that serves a request, which came at this moment; what was before is left. Set 0
    /// has the request's fields, set 1 none yet for the response, and set 2 the form. The run isn't
    /// marked. It takes no memory.
    pub fn serve(&mut self, request: BoxedRequest, moment: u64)
        ensures { self.new ≡ serving request moment self.old.blueprint }
    {
        self.unmark();
        self.conn.serve(request, moment);
        self.enter(Kind::Serving);
    }

    /// Begins the run of a scheduled script at this moment, without a connection; what was before is
    /// left. The sets 0 to 2 are as if they had been made and freed. The run isn't marked. Its only
    /// error is want of memory: then the mark alone is taken off.
    pub fn begin_script(&mut self, moment: u64) -> Result<(), NoMemory>
        ensures ok { OnOk result (self.new ≡ scripting moment self.old.blueprint) }
        ensures err { OnErr result (self.new ≡ with_mark self.old false) }
    {
        self.unmark();
        let conn = ConnHost::without(self.alloc, moment)?;
        self.begin(Kind::Scripting, conn);
        Ok(())
    }

    /// Begins the run of a script that makes definitions at this moment, as `begin_script` does.
    pub fn begin_definitions(&mut self, moment: u64) -> Result<(), NoMemory>
        ensures ok { OnOk result (self.new ≡ defining moment self.old.blueprint) }
        ensures err { OnErr result (self.new ≡ with_mark self.old false) }
    {
        self.unmark();
        let conn = ConnHost::without(self.alloc, moment)?;
        self.begin(Kind::Defining, conn);
        Ok(())
    }

    /// Puts the host on this blueprint, and what else it knows stays. It takes no memory.
    pub fn set_blueprint(&mut self, blueprint: Rc<Edition>)
        ensures { self.new ≡ with_blueprint self.old blueprint.value }
    {
        self.blueprint = blueprint;
    }

    /// Closes all open pages, as where a run ended in the midst of them. It takes no memory.
    pub fn leave_all(&mut self)
        ensures { self.new ≡ with_pages self.old (without_pages self.old.pages) }
    {
        self.pages.leave_all();
    }

    /// The kind of run; `None` where there is no run.
    pub fn kind(&self) -> Option<Kind>
        ensures { result ≡ self.now.kind }
    {
        self.kind
    }

    /// The request that is served, where the run has a connection.
    pub fn request(&self) -> Option<&BoxedRequest>
        ensures { option_copied result ≡ self.now.conn.request }
    {
        self.conn.request()
    }

    /// The response that was given, if any.
    pub fn response(&self) -> Option<&SharedResponse>
        ensures { option_copied result ≡ self.now.conn.response }
    {
        self.conn.response()
    }

    /// Copies of the output fields as they are now: the fields of set 1, and none where it was freed.
    /// Its only error is want of memory.
    pub fn output_fields(&self) -> Result<Pairs, NoMemory>
        ensures { IfOk result (λ fields. fields ≡ output_fields self.now.conn) }
    {
        self.conn.output_fields()
    }

    /// What pages put out.
    pub fn output(&self) -> &Text
        ensures { result.now ≡ self.now.pages.output }
    {
        self.pages.output()
    }

    /// How many pieces of pages ended in an error.
    pub fn errors(&self) -> u64
        ensures { result ≡ self.now.pages.errors }
    {
        self.pages.errors()
    }

    /// The blueprint that the run is on.
    pub fn blueprint(&self) -> &Edition
        ensures { result.now ≡ self.now.blueprint }
    {
        &self.blueprint
    }

    /// Whether the run, or the last one where there is none, asked that its interpreter be built anew.
    pub fn marked(&self) -> bool
        ensures { result ≡ self.now.marked }
    {
        self.marked
    }
}

impl Host for RunHost {
    ghost use Rattle.server_host.specs.Leaf.{host_table};

    ghost table = { host_table };

    fn call(&mut self, words: &Words) -> HostReply {
        call(self, words)
    }

    fn answered(&mut self, words: &Words, answer: &Answer) -> HostReply {
        answered(self, words, answer)
    }

    fn text(&mut self, piece: &Text) -> HostReply {
        put_out(self, piece)
    }

    fn leave(&mut self, code: u8) {
        self.pages.leave(code);
    }

    /// Leaves the run: all is as in a new host on the same blueprint, but that the mark stays.
    fn clear(&mut self) {
        self.kind = None;
        self.conn.clear();
        self.pages.clear();
        self.gathered.clear();
    }
}
