//! A connection, with the sets and channels of its run.

ghost use Rattle.std.specs.Prelude.{◌≡◌, ◌≢◌, ◌++◌, ◌∷◌, [], None, Err, IfOk, IfErr, OnOk, Ok};
ghost use Rattle.ns_sets.specs.Sets.{fields_of};
ghost use Rattle.conn_host.specs.Conns.{unnamed};
ghost use Rattle.conn_host.specs.Forms.{form_of};
ghost use Rattle.conn_host.specs.Waiting.{first_sets};

use crate::form::form_of;
use chan_core::Chans;
use http_req::{BoxedRequest, Request};
use http_resp::SharedResponse;
use ns_sets::{SetFault, Sets};
use std::alloc::Global;
use std::marker::Model;
use txt_core::{NoMemory, Pairs, Text};

/// The set of the request's fields.
pub const HEADERS_SET: u64 = 0;

/// The set of the output fields.
pub const OUTPUT_SET: u64 = 1;

/// The set of the form.
pub const FORM_SET: u64 = 2;

/// How many sets a run makes at most, so that their room is kept.
const MOST_SETS_KEPT: u64 = 64;

/// A connection, with the sets and channels of its run. Contracts see its state.
#[derive(Drop)]
pub struct Conn {
    pub(crate) alloc: Global,
    pub(crate) request: Option<BoxedRequest>,
    pub(crate) sets: Sets,
    /// Whether this run has made more sets than `MOST_SETS_KEPT`.
    has_many_sets: bool,
    pub(crate) channels: Chans,
    pub(crate) response: Option<SharedResponse>,
    pub(crate) moment: u64,
}

impl Model for Conn {
    ghost use Rattle.conn_host.specs.Conns.{ConnState};

    ghost Value = { ConnState };

    ghost view = { λ h. record { request = h.request; sets = h.sets; channels = h.channels; response = h.response; moment = h.moment } };
}

/// What a call on a set that stands came to: its only fault is want of memory.
pub fn kept<T>(came: Result<T, SetFault>) -> Result<T, NoMemory>
    requires set { came ≢ Err SetFault.NoSet }
    requires field { came ≢ Err SetFault.NoField }
    ensures ok { IfOk result (λ value. came ≡ Ok value) }
    ensures err { IfErr result (λ _. came ≡ Err SetFault.NoMemory) }
{
    match came {
        Ok(value) => Ok(value),
        Err(_) => Err(NoMemory),
    }
}

/// Makes one set more, without a name, of these fields.
fn add_set(alloc: Global, sets: &mut Sets, fields: &Pairs) -> Result<(), NoMemory>
    ensures { OnOk result (sets.new ≡ sets.old ++ unnamed fields.now ∷ []) }
{
    let set = sets.create(Text::empty(alloc))?;
    'fields: for (key, value) in fields.as_slice() {
        kept(sets.put(set, key, value))?;
    }
    Ok(())
}

/// Makes one set more and frees it.
#[tactic(auto, using(crate::proofs::OneMoreField::last_freed))]
fn add_freed(alloc: Global, sets: &mut Sets) -> Result<(), NoMemory>
    ensures { OnOk result (sets.new ≡ sets.old ++ None ∷ []) }
{
    let set = sets.create(Text::empty(alloc))?;
    kept(sets.free(set))?;
    Ok(())
}

/// Makes the sets those with which a run on a request begins.
fn fill(alloc: Global, sets: &mut Sets, request: &Request) -> Result<(), NoMemory>
    ensures { OnOk result
        (sets.new
        ≡ unnamed request.now.fields ∷ unnamed [] ∷ unnamed (form_of request.now) ∷ []) }
{
    sets.clear();
    add_set(alloc, sets, &request.fields)?;
    sets.create(Text::empty(alloc))?;
    add_set(alloc, sets, &form_of(alloc, request)?)?;
    Ok(())
}

/// Makes the sets those with which a run begins on this request; none where there is no request.
fn fill_first(
    alloc: Global,
    sets: &mut Sets,
    request: &Option<BoxedRequest>,
) -> Result<(), NoMemory>
    ensures { OnOk result (sets.new ≡ first_sets request.now) }
{
    match request {
        Some(request) => fill(alloc, sets, request.get()),
        None => {
            sets.clear();
            Ok(())
        }
    }
}

/// Puts copies of the fields of a set at the end of a list; none where no such set stands.
fn add_fields(sets: &Sets, set: u64, fields: &mut Pairs) -> Result<(), NoMemory>
    ensures { OnOk result (fields.new ≡ fields.old ++ fields_of sets.now set) }
{
    let count = sets.size(set).unwrap_or(0);
    'fields: for place in 0..count {
        let key = kept(sets.key(set, place))?;
        let value = kept(sets.value(set, place))?;
        fields.add((key, value))?;
    }
    Ok(())
}

impl Conn {
    ghost use Rattle.std.specs.Prelude.{◌≡◌, ◌++◌, [], None, IfOk, OnOk};
    ghost use Rattle.std.specs.Option.{option_copied};
    ghost use Rattle.conn_host.specs.Conns.{without_connection, no_run, output_fields};
    ghost use Rattle.conn_host.specs.Waiting.{first_sets, unset};

    /// A connection in no run. It takes no memory.
    pub(crate) fn none(alloc: Global) -> Conn
        ensures { result ≡ no_run }
    {
        Conn {
            alloc,
            request: None,
            sets: Sets::new(alloc),
            has_many_sets: false,
            channels: Chans::new(alloc),
            response: None,
            moment: 0,
        }
    }

    /// Begins a run on a request, which has no set yet; what was before is left. It takes no memory.
    pub(crate) fn begin(&mut self, request: BoxedRequest, moment: u64)
        ensures { self.new ≡ unset request moment }
    {
        self.request = Some(request);
        self.leave_sets();
        self.let_go();
        self.moment = moment;
    }

    /// A connection at the beginning of a run without a request: the sets 0 to 2 are as if they had been
    /// made and freed. Its only error is want of memory.
    pub(crate) fn without(alloc: Global, moment: u64) -> Result<Conn, NoMemory>
        ensures { IfOk result (λ conn. conn ≡ without_connection moment) }
    {
        let mut sets = Sets::new(alloc);
        add_freed(alloc, &mut sets)?;
        add_freed(alloc, &mut sets)?;
        add_freed(alloc, &mut sets)?;
        Ok(Conn {
            alloc,
            request: None,
            sets,
            has_many_sets: false,
            channels: Chans::new(alloc),
            response: None,
            moment,
        })
    }

    /// Makes the sets with which a run on a request begins, in place of those that are there. Its only
    /// error is want of memory.
    pub(crate) fn make_first_sets(&mut self) -> Result<(), NoMemory>
        ensures { OnOk result
            (self.new ≡ record self.old { sets = first_sets self.old.request }) }
    {
        fill_first(self.alloc, &mut self.sets, &self.request)?;
        Ok(())
    }

    /// The response that was given, if any.
    pub(crate) fn response(&self) -> Option<&SharedResponse>
        ensures { option_copied result ≡ self.now.response }
    {
        self.response.as_ref()
    }

    /// The request that is served, where the run has a connection.
    pub(crate) fn request(&self) -> Option<&BoxedRequest>
        ensures { option_copied result ≡ self.now.request }
    {
        self.request.as_ref()
    }

    /// Copies of the output fields as they are now: the fields of set 1, and none where it was freed.
    /// The only error is want of memory.
    pub(crate) fn output_fields(&self) -> Result<Pairs, NoMemory>
        ensures { IfOk result (λ fields. fields ≡ output_fields self.now) }
    {
        let mut fields = Pairs::new(self.alloc);
        self.add_output_fields(&mut fields)?;
        Ok(fields)
    }

    /// Puts copies of the output fields at the end of a list.
    pub(crate) fn add_output_fields(&self, fields: &mut Pairs) -> Result<(), NoMemory>
        ensures { OnOk result (fields.new ≡ fields.old ++ output_fields self.now) }
    {
        add_fields(&self.sets, OUTPUT_SET, fields)
    }

    /// Notes that the run has made the set of this number.
    pub(crate) fn note_set(&mut self, number: u64)
        ensures { self.new ≡ self.old }
    {
        if number >= MOST_SETS_KEPT {
            self.has_many_sets = true;
        }
    }

    /// Lets go of the sets. Their room is kept, unless they are many.
    fn leave_sets(&mut self)
        ensures { self.new ≡ record self.old { sets = [] } }
    {
        if self.has_many_sets {
            self.sets = Sets::new(self.alloc);
            self.has_many_sets = false;
            return;
        }
        self.sets.clear();
    }

    /// Lets go of the channels and of the response.
    fn let_go(&mut self)
        ensures { self.new ≡ record self.old { channels = []; response = None } }
    {
        self.channels.clear();
        self.response = None;
    }

    /// Leaves the run: no request, no set, no channel and no response, and the numbers of sets and
    /// channels begin anew. It takes no memory.
    pub(crate) fn clear(&mut self)
        ensures { self.new ≡ no_run }
    {
        self.request = None;
        self.leave_sets();
        self.let_go();
        self.moment = 0;
    }
}
