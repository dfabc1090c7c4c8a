//! Rows of commands and of whole runs, with what each comes to.

use crate::texts::{add_def, again, digits, put, script, text, words_between};
use cmd_table::{Def, Defs, copy_def};
use http_req::{BoxedRequest, Request};
use outside::{Answer, Question, Service};
use server_host::{Edition, RunHost};
use std::alloc::Global;
use std::rc::Rc;
use tcl_host::{Host, HostReply};
use txt_core::{NoMemory, Pairs, Text, Words};

/// A list of one definition.
fn one(alloc: Global, def: Def) -> Defs {
    let mut defs = Defs::new(alloc);
    add_def(&mut defs, def);
    defs
}

/// The definition of a global variable.
fn greeting(alloc: Global) -> Def {
    Def::Set {
        name: text(alloc, b"motd"),
        value: text(alloc, b"hello you"),
    }
}

/// A blueprint of epoch 1 with one definition.
fn published(alloc: Global) -> Edition {
    Edition {
        epoch: 1,
        defs: one(alloc, greeting(alloc)),
    }
}

/// A cleanup script.
fn cleanup(alloc: Global) -> Def {
    Def::Cleanup {
        script: text(alloc, b"x"),
    }
}

/// A blueprint of epoch 2, to which a definition was added; that of epoch 1 where memory wants.
fn extended(alloc: Global) -> Edition {
    let mut edition = published(alloc);
    let _added = edition.add(alloc, 2, &one(alloc, cleanup(alloc)));
    edition
}

/// A GET of `/`.
fn request(alloc: Global) -> Request {
    Request {
        method: text(alloc, b"GET"),
        target: text(alloc, b"/"),
        segments: Words::new(alloc),
        query: Text::empty(alloc),
        minor: 1,
        fields: Pairs::new(alloc),
        body: Text::empty(alloc),
        peer: text(alloc, b"127.0.0.1"),
    }
}

/// A host in no run.
fn idle(alloc: Global) -> Result<RunHost, NoMemory> {
    let blueprint = Rc::new(alloc, published(alloc))?;
    RunHost::new(alloc, blueprint)
}

/// Begins the run of a request.
fn serve(alloc: Global, host: &mut RunHost) -> Result<(), NoMemory> {
    host.serve(BoxedRequest::new(alloc, request(alloc))?, 7);
    Ok(())
}

/// Begins the run of a scheduled script.
fn begin_script(host: &mut RunHost) -> Result<(), NoMemory> {
    host.begin_script(7)
}

/// Begins the run of a script that makes definitions.
fn begin_definitions(host: &mut RunHost) -> Result<(), NoMemory> {
    host.begin_definitions(7)
}

/// Begins a run of the kind of this letter, at moment 7.
fn begin(alloc: Global, host: &mut RunHost, kind: u8) -> Result<(), NoMemory> {
    match kind {
        b's' => serve(alloc, host),
        b't' => begin_script(host),
        _ => begin_definitions(host),
    }
}

/// The script of a definition.
fn defined(alloc: Global, def: &Def) -> Text {
    match copy_def(alloc, def) {
        Ok(def) => script(alloc, &one(alloc, def)),
        Err(_) => Text::empty(alloc),
    }
}

/// Whom a question goes to.
fn service(service: &Service) -> &[u8] {
    match service {
        Service::Page => b"page",
        Service::Nsv => b"nsv",
        Service::Schedule => b"schedule",
        Service::Publish => b"publish",
        Service::Save => b"save",
        Service::Inner => b"inner",
    }
}

/// A question: whom it goes to, and its words.
fn asked(alloc: Global, question: &Question) -> Text {
    let mut told = text(alloc, service(&question.service));
    for word in question.words.as_slice() {
        put(&mut told, b" ");
        put(&mut told, word.bytes());
    }
    told
}

/// A code, and the result that came with it where it isn't empty.
fn done(alloc: Global, code: u8, outcome: &Text) -> Text {
    let mut told = digits(alloc, u64::from(code));
    if !outcome.bytes().is_empty() {
        put(&mut told, b" ");
        put(&mut told, outcome.bytes());
    }
    told
}

/// A reply: the code and the result, the question, the script of the definition, or `page` where one is
/// entered; `?` where the host has no such command. Nothing where memory wants.
fn told(alloc: Global, reply: &HostReply) -> Text {
    match reply {
        HostReply::Done {
            code,
            result: outcome,
        } => done(alloc, *code, outcome),
        HostReply::Ask(question) => asked(alloc, question),
        HostReply::Define(def) => defined(alloc, def),
        HostReply::Enter(_) => text(alloc, b"page"),
        HostReply::Store { .. } => text(alloc, b"store"),
        HostReply::NotMine => text(alloc, b"?"),
        HostReply::NoMemory => Text::empty(alloc),
    }
}

/// Does a command.
fn call(host: &mut RunHost, words: &Words) -> HostReply {
    host.call(words)
}

/// Does the command of a line.
fn does(alloc: Global, host: &mut RunHost, line: &str) -> Text {
    let reply = call(host, &words_between(alloc, line, "|"));
    told(alloc, &reply)
}

/// Begins a run, and does the command of a line in it.
fn begins(alloc: Global, host: &mut RunHost, kind: u8, line: &str) -> Text {
    match begin(alloc, host, kind) {
        Ok(()) => does(alloc, host, line),
        Err(_) => Text::empty(alloc),
    }
}

/// Gives an answer.
fn answer(host: &mut RunHost, words: &Words, given: &Answer) -> HostReply {
    host.answered(words, given)
}

/// An answer comes to a command of a line.
fn answers(alloc: Global, host: &mut RunHost, line: &str, given: &Answer) -> Text {
    let reply = answer(host, &words_between(alloc, line, "|"), given);
    told(alloc, &reply)
}

/// A bucket says a text to `nsv_names`.
fn says(alloc: Global, host: &mut RunHost, line: &str) -> Text {
    let given = Answer::Said(text(alloc, line.as_bytes()));
    answers(alloc, host, "nsv_names", &given)
}

/// A page of this text is there for `ns_adp_include`.
fn enters(alloc: Global, host: &mut RunHost, line: &str) -> Text {
    let given = Answer::Page(text(alloc, line.as_bytes()));
    answers(alloc, host, "ns_adp_include|x", &given)
}

/// Takes a text of a page.
fn take(host: &mut RunHost, text: &Text) -> HostReply {
    host.text(text)
}

/// Puts out a text of a page.
fn puts(alloc: Global, host: &mut RunHost, line: &str) -> Text {
    let reply = take(host, &text(alloc, line.as_bytes()));
    told(alloc, &reply)
}

/// Puts the host on the further blueprint, where there is memory for it.
fn update(alloc: Global, host: &mut RunHost) {
    if let Ok(blueprint) = Rc::new(alloc, extended(alloc)) {
        host.set_blueprint(blueprint);
    }
}

/// Takes back all that a run left.
fn clear(host: &mut RunHost) {
    host.clear();
}

/// A piece of a page ends in an error.
fn fail(host: &mut RunHost) {
    host.leave(1);
}

/// All pages are left.
fn leave_all(host: &mut RunHost) {
    host.leave_all();
}

/// Changes the host as a line says.
fn changes(alloc: Global, host: &mut RunHost, line: &str) -> Text {
    match line.as_bytes() {
        b"update" => update(alloc, host),
        b"clear" => clear(host),
        b"fail" => fail(host),
        _ => leave_all(host),
    }
    text(alloc, b"done")
}

/// Whether the run is marked.
fn mark(host: &RunHost) -> &'static [u8] {
    if host.marked() {
        b"marked"
    } else {
        b"not marked"
    }
}

/// The status of the response that was given; 0 where there is none.
fn status(host: &RunHost) -> u64 {
    match host.response() {
        Some(response) => u64::from(response.get().status),
        None => 0,
    }
}

/// How many output fields there are; more than can be where memory wants.
fn fields(host: &RunHost) -> u64 {
    match host.output_fields() {
        Ok(fields) => fields.len() as u64,
        Err(_) => u64::MAX,
    }
}

/// What a line asks of the host.
fn looks(alloc: Global, host: &RunHost, line: &str) -> Text {
    match line.as_bytes() {
        b"mark" => text(alloc, mark(host)),
        b"status" => digits(alloc, status(host)),
        b"fields" => digits(alloc, fields(host)),
        b"output" => again(alloc, host.output()),
        _ => digits(alloc, host.errors()),
    }
}

/// Whether a reply is that of a command which the host has.
fn is_mine(reply: &HostReply) -> bool {
    !matches!(reply, HostReply::NotMine)
}

/// Whether the host has a command of this name.
fn knows(alloc: Global, host: &mut RunHost, name: &str) -> bool {
    let reply = call(host, &words_between(alloc, name, "|"));
    is_mine(&reply)
}

/// How many of the names of a line have a command.
fn known(alloc: Global, host: &mut RunHost, line: &str) -> Text {
    let mut count = 0u64;
    for name in line.split(" ") {
        count = count.wrapping_add(u64::from(knows(alloc, host, name)));
    }
    digits(alloc, count)
}

/// Does what the letter of a row and the line behind it say.
fn act(alloc: Global, host: &mut RunHost, letter: u8, line: &str) -> Text {
    match letter {
        b'+' => does(alloc, host, line),
        b'<' => says(alloc, host, line),
        b'p' => enters(alloc, host, line),
        b'w' => puts(alloc, host, line),
        b'!' => changes(alloc, host, line),
        b'=' => looks(alloc, host, line),
        b'#' => known(alloc, host, line),
        kind => begins(alloc, host, kind, line),
    }
}

/// Does a row as far as its arrow.
fn step(alloc: Global, host: &mut RunHost, front: &str) -> Text {
    let letter = front.as_bytes().first().copied().unwrap_or(b'd');
    match front.split_once(" ") {
        Some((_, line)) => act(alloc, host, letter, line),
        None => text(alloc, b"no line"),
    }
}

/// A row as far as its arrow.
fn front_of(row: &str) -> &str {
    match row.split_once(" => ") {
        Some((front, _)) => front,
        None => row,
    }
}

/// Adds a row, with what it came to; the end of a line within this is a semicolon.
fn add_row(all: &mut Text, front: &str, came: &Text) {
    put(all, front.as_bytes());
    put(all, b" => ");
    for byte in came.bytes() {
        put(all, &[if *byte == b'\n' { b';' } else { *byte }]);
    }
    put(all, b"\n");
}

/// Does the rows one after the other, and tells what each comes to.
fn play(alloc: Global, host: &mut RunHost, rows: &str) -> Text {
    let mut all = Text::empty(alloc);
    for row in rows.lines() {
        let front = front_of(row);
        let came = step(alloc, host, front);
        add_row(&mut all, front, &came);
    }
    all
}

/// Whether the rows come to what stands behind their arrows.
fn are_right(alloc: Global, host: &mut RunHost, rows: &str) -> bool {
    play(alloc, host, rows).bytes() == rows.as_bytes()
}

/// The same on a new host.
fn are_right_anew(alloc: Global, rows: &str) -> bool {
    match idle(alloc) {
        Ok(mut host) => {
            let is_right = are_right(alloc, &mut host, rows);
            drop(host);
            is_right
        }
        Err(_) => false,
    }
}

/// Rows of commands. The letter says what begins before the command of the line: `s` serves a request,
/// `t` is a scheduled script, and `d` makes definitions. Behind the arrow stands what it comes to.
const COMMANDS: &str = r#"d ns_register_proc|GET|/x|p => ns_register_proc GET /x p;
d ns_register_proc|-noinherit|PUT|/x/*.y|p|a => ns_register_proc -noinherit PUT /x/*.y p a;
d ns_register_proc|-noinherit|GET|/x => 1 wrong number of words for "ns_register_proc"
d ns_register_proc|HEAD|/x|p => 1 bad value "HEAD" for "ns_register_proc"
d ns_register_proc|GET|x|p => 1 bad value "x" for "ns_register_proc"
s ns_register_proc|HEAD|x|p => 1 only in a definition run
d ns_register_filter|trace|*|/*|f|x => ns_register_filter trace * /* f x;
d ns_register_filter|late|GET|/*|f => 1 bad value "late" for "ns_register_filter"
d ns_register_filter|preauth|HEAD|/*|f => 1 bad value "HEAD" for "ns_register_filter"
t ns_register_filter|postauth|GET|/*|f => 1 only in a definition run
d ns_ictl|oncleanup|a b => ns_ictl oncleanup {a b};
d ns_ictl|global|motd|hello => set motd hello;
d ns_ictl|global|a(b)|1 => 1 bad value "a(b)" for "ns_ictl"
s ns_ictl|global|a(b)|1 => 1 only in a definition run
s ns_ictl|oncleanup => 1 wrong number of words for "ns_ictl"
s ns_ictl|foo => 1 unknown subcommand "foo" of "ns_ictl"
s ns_ictl => 1 wrong number of words for "ns_ictl"
s ns_ictl|get => 0 set motd {hello you};
s ns_ictl|epoch => 0 1
s ns_ictl|save|set x 1 => save set x 1
s ns_eval|set x 1 => inner set x 1
t ns_eval|set x 1 => inner set x 1
d ns_eval|set x 1 => 1 ns_eval inside ns_eval
d ns_eval => 1 wrong number of words for "ns_eval"
s ns_schedule_proc|0| => 1 bad value "0" for "ns_schedule_proc"
s ns_schedule_proc|31536000|x => schedule ns_schedule_proc 31536000 x
s ns_schedule_proc|31536001|x => 1 bad value "31536001" for "ns_schedule_proc"
s ns_schedule_proc|-once|5|x => schedule ns_schedule_proc -once 5 x
s ns_schedule_proc|-once|x => 1 wrong number of words for "ns_schedule_proc"
s ns_schedule_proc|often|5|x => 1 bad value "often" for "ns_schedule_proc"
s ns_schedule_proc|often|x => 1 expected integer but got "often"
s ns_unschedule_proc|0 => schedule ns_unschedule_proc 0
s ns_unschedule_proc|-1 => 1 no schedule "-1"
s ns_unschedule_proc|x => 1 no schedule "x"
s nsv_get|a|k => nsv nsv_get a k
s nsv_get|a => 1 wrong number of words for "nsv_get"
s nsv_array|foo|a => 1 unknown subcommand "foo" of "nsv_array"
s nsv_array|foo => 1 wrong number of words for "nsv_array"
s nsv_array|set|a => 1 wrong number of words for "nsv_array"
s nsv_names|a* => nsv nsv_names 0 a*
s ns_conn|method => 0 GET
t ns_conn|method => 1 no connection
t ns_time => 0 7
s ns_adp_argc => 1 not in a page
s puts|x => ?
"#;

#[test]
fn commands_come_to_this(rt: HostRuntime) {
    assert!(rt; are_right_anew(rt.alloc(), COMMANDS));
}

/// Rows of whole runs. `+` is a further command of the run, `<` what a bucket says to `nsv_names`, `p`
/// the text of a page that `ns_adp_include` asked for, and `w` a text that a page puts out; `!` changes
/// the host, `=` looks at it, and `#` counts the names that have a command.
const RUNS: &str = r#"s nsv_names => nsv nsv_names 0
< c {a b} => nsv nsv_names 1
<  => nsv nsv_names 2
< b => nsv nsv_names 3
<  => nsv nsv_names 4
<  => nsv nsv_names 5
<  => nsv nsv_names 6
<  => nsv nsv_names 7
< a => 0 a {a b} b c
s ns_ictl|markfordelete => 0
= mark => marked
! clear => done
= mark => marked
t ns_ictl|epoch => 0 1
= mark => not marked
! update => done
+ ns_ictl|epoch => 0 2
+ ns_ictl|get => 0 set motd {hello you};ns_ictl oncleanup x;
s ns_set|put|s1|Server|x => 0 0
+ ns_return|201|text/plain|made => 0
= status => 201
= fields => 1
s ns_adp_argc => 1 not in a page
p a => page
w a => 0
! fail => done
! leave => done
= output => a
= errors => 1
# ns_set open gets read eof close => 6
# ns_conn ns_queryget ns_return ns_returnredirect ns_returnnotfound => 5
# ns_urlencode ns_urldecode ns_time ns_httptime => 4
# ns_adp_append ns_adp_puts ns_adp_include ns_adp_argc ns_adp_argv => 5
# ns_adp_return ns_adp_break ns_adp_abort => 3
# ns_register_proc ns_register_filter ns_ictl ns_eval => 4
# ns_schedule_proc ns_unschedule_proc => 2
# nsv_set nsv_get nsv_exists nsv_incr nsv_append => 5
# nsv_lappend nsv_unset nsv_names nsv_array => 4
# puts set ns_log => 0
"#;

#[test]
fn runs_come_to_this(rt: HostRuntime) {
    assert!(rt; are_right_anew(rt.alloc(), RUNS));
}
