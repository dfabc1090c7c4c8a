//! What a request goes through.

ghost use Rattle.std.specs.Prelude.{◌≡◌, ◌++◌, ◌∷◌, [], List, None, IsTrue, IfOk, OnOk};
ghost use Rattle.std.specs.Option.{option_copied, option_map};
ghost use Rattle.cmd_table.specs.declared.definition.Def.{Def};
ghost use Rattle.conn_host.specs.RequestCommands.{path_of};
ghost use Rattle.url_tables.specs.Tables.{IsBuiltOf};
ghost use Rattle.ictl.specs.Visits.{calls_of, filter_calls, is_procedure, authorise_call, authorisation, is_page, serving_by, no_visit, filtered, visit_by};

use blueprint::when_name;
use cmd_table::{Cmd, When};
use conn_host::{credentials_of, path};
use http_req::Request;
use std::alloc::Global;
use txt_core::{NoMemory, Text, Words};
use url_tables::{Route, Routes, SharedWords, WordsList};

/// The procedure that says whether a request is allowed.
pub const AUTHORISER: &[u8] = b"ns_authorize";

/// What serves a request.
#[derive(Debug, Drop)]
pub enum Serving {
    /// The call of a procedure.
    Procedure(SharedWords),
    /// The page of this path.
    Page(Text),
    /// Nothing: it isn't found.
    Nothing,
}

/// What a request goes through: the calls of its filters at each stage, of its authorisation, and what
/// serves it.
#[derive(Debug, Drop)]
pub struct Visit {
    pub preauth: WordsList,
    pub authorisation: Option<Words>,
    pub postauth: WordsList,
    pub serving: Serving,
    pub trace: WordsList,
}

/// The calls of the filters of a stage.
fn calls_of(alloc: Global, when: When, filters: &[Words]) -> Result<WordsList, NoMemory>
    ensures { IfOk result (λ calls. calls ≡ calls_of when filters.now) }
{
    let mut calls = WordsList::new(alloc);
    'filters: for words in filters {
        let mut call = Words::of_copies(alloc, words.as_slice())?;
        call.add(Text::new(alloc, when_name(when))?)?;
        calls.add(call)?;
    }
    Ok(calls)
}

/// The calls of the filters that a request with this path passes at a stage.
fn filter_calls(
    alloc: Global,
    routes: &Routes,
    when: When,
    request: &Request,
    path: &Text,
) -> Result<WordsList, NoMemory>
    requires { path.now ≡ path_of request.now }
    ensures { (defs : List Def) → IsBuiltOf routes.now defs
        → IfOk result (λ calls. calls ≡ filter_calls when request.now defs) }
{
    let filters = routes.filters(when, &request.method, path)?;
    calls_of(alloc, when, filters.as_slice())
}

/// Whether what a name stands for is a procedure.
pub fn is_procedure(found: Option<&Cmd>) -> bool
    ensures { result ≡ is_procedure (option_copied found.entry) }
{
    match found {
        Some(Cmd::Proc { .. }) => true,
        Some(Cmd::Built(_)) | None => false,
    }
}

/// Puts the words of the authorisation's call into an empty list.
fn add_authorise_call(alloc: Global, call: &mut Words, request: &Request) -> Result<(), NoMemory>
    requires { call.old ≡ [] }
    ensures { OnOk result (call.new ≡ authorise_call request.now) }
{
    call.add(Text::new(alloc, AUTHORISER)?)?;
    call.add(request.method.copy(alloc)?)?;
    call.add(path(alloc, request)?)?;
    let shown = credentials_of(alloc, &request.fields)?;
    call.add(shown.user)?;
    call.add(shown.password)
}

/// The call of the authorisation.
#[inline(never)]
fn authorise_call(alloc: Global, request: &Request) -> Result<Words, NoMemory>
    ensures { IfOk result (λ call. call ≡ authorise_call request.now) }
{
    let mut call = Words::new(alloc);
    add_authorise_call(alloc, &mut call, request)?;
    Ok(call)
}

/// The call of the authorisation, where requests are authorised.
fn authorisation(
    alloc: Global,
    authorises: bool,
    request: &Request,
) -> Result<Option<Words>, NoMemory>
    ensures { IfOk result (λ call. call ≡ authorisation authorises request.now) }
{
    if authorises {
        Ok(Some(authorise_call(alloc, request)?))
    } else {
        Ok(None)
    }
}

/// Whether a request is for a page.
fn is_page(request: &Request) -> bool
    ensures { result ≡ is_page request.now }
{
    let method = request.method.bytes();
    let served = method == b"GET".as_slice()
        || method == b"HEAD".as_slice()
        || method == b"POST".as_slice();
    match request.segments.as_slice().last() {
        Some(last) => served && last.bytes().ends_with(b".adp"),
        None => false,
    }
}

/// What serves a request for which nothing is registered.
#[inline(never)]
fn unregistered(alloc: Global, request: &Request) -> Result<Serving, NoMemory>
    ensures { IfOk result (λ serving. serving ≡ serving_by None request.now) }
{
    if is_page(request) {
        Ok(Serving::Page(path(alloc, request)?))
    } else {
        Ok(Serving::Nothing)
    }
}

/// What serves a request, by what is registered for it.
fn serving_by(alloc: Global, found: Option<&Route>, request: &Request) -> Result<Serving, NoMemory>
    ensures { IfOk result (λ serving.
        serving
        ≡ serving_by (option_map (λ route. route.words) (option_copied found.entry)) request.now) }
{
    match found {
        Some(route) => Ok(Serving::Procedure(route.words.share()?)),
        None => unregistered(alloc, request),
    }
}

impl Visit {
    /// No request. It takes no memory.
    pub fn none(alloc: Global) -> Visit
        ensures { result ≡ no_visit }
    {
        Visit {
            preauth: WordsList::new(alloc),
            authorisation: None,
            postauth: WordsList::new(alloc),
            serving: Serving::Nothing,
            trace: WordsList::new(alloc),
        }
    }

    /// Forgets the request. It takes no memory.
    pub fn leave(&mut self)
        ensures { self.new ≡ no_visit }
    {
        self.preauth.clear();
        self.authorisation = None;
        self.postauth.clear();
        self.serving = Serving::Nothing;
        self.trace.clear();
    }

    /// Whether nothing is called before what serves: no filter and no authorisation.
    pub fn is_plain(&self) -> bool
        ensures preauth { IsTrue result → self.now.preauth ≡ [] }
        ensures authorisation { IsTrue result → self.now.authorisation ≡ None }
        ensures postauth { IsTrue result → self.now.postauth ≡ [] }
    {
        if !self.preauth.is_empty() {
            return false;
        }
        match &self.authorisation {
            None => self.postauth.is_empty(),
            Some(_) => false,
        }
    }

    /// Puts in the calls of the filters that a request passes.
    #[inline(never)]
    fn add_calls(
        &mut self,
        alloc: Global,
        routes: &Routes,
        request: &Request,
    ) -> Result<(), NoMemory>
        ensures { (defs : List Def) → IsBuiltOf routes.now defs
            → OnOk result (self.new ≡ filtered request.now defs self.old) }
    {
        let path = path(alloc, request)?;
        let preauth = filter_calls(alloc, routes, When::Preauth, request, &path)?;
        self.preauth = preauth;
        let postauth = filter_calls(alloc, routes, When::Postauth, request, &path)?;
        self.postauth = postauth;
        let trace = filter_calls(alloc, routes, When::Trace, request, &path)?;
        self.trace = trace;
        Ok(())
    }

    /// The same where there are filters at all, for a visit without a request.
    fn add_filters(
        &mut self,
        alloc: Global,
        routes: &Routes,
        request: &Request,
    ) -> Result<(), NoMemory>
        requires { self.old ≡ no_visit }
        ensures { (defs : List Def) → IsBuiltOf routes.now defs
            → OnOk result (self.new ≡ filtered request.now defs self.old) }
    {
        if !routes.has_filters() {
            return Ok(());
        }
        self.add_calls(alloc, routes, request)
    }

    /// Enters what a request goes through, by the tables of a blueprint, and by whether requests are
    /// authorised. Its only error is want of memory.
    #[inline(never)]
    pub fn enter(
        &mut self,
        alloc: Global,
        routes: &Routes,
        authorises: bool,
        request: &Request,
    ) -> Result<(), NoMemory>
        requires { self.old ≡ no_visit }
        ensures { (defs : List Def) → IsBuiltOf routes.now defs
            → OnOk result (self.new ≡ visit_by authorises request.now defs) }
    {
        self.add_filters(alloc, routes, request)?;
        let call = authorisation(alloc, authorises, request)?;
        self.authorisation = call;
        let found = routes.serve(&request.method, &request.segments);
        let serving = serving_by(alloc, found, request)?;
        self.serving = serving;
        Ok(())
    }
}
