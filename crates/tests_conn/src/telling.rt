//! How rows are read, and how what comes of them is told.
//!
//! The words of a command stand between bars. What it comes to is told as a letter and a text: `=` a
//! result, `!` an error, `?` a question, `$` a variable with its value and the result, `-` a command of
//! others. Behind a command that asks, `<-` and an answer may stand: what is told then is what comes of
//! the answer.

use crate::commands::{form, user_and_password};
use crate::responses::{given, sent};
use conn_host::ConnHost;
use http_req::{BoxedRequest, Request};
use outside::Answer;
use std::alloc::Global;
use tcl_host::HostReply;
use txt_core::{NoMemory, Pairs, Text, Words};

/// The moment of each run: that of the example of RFC 9110, section 5.6.7.
pub const MOMENT: u64 = 784_111_777;

/// The fields Date and Server of a response at the moment 0.
const DATE_AND_SERVER: &[u8] =
    b"Date: Thu, 01 Jan 1970 00:00:00 GMT\r\nServer: AOLserver-profile/1\r\n";

/// The most bytes of a page.
const MOST_OF_A_PAGE: usize = 1_048_576;

/// Adds bytes to a text, which stays as it is where memory wants.
pub fn put(told: &mut Text, bytes: &[u8]) {
    let _put = told.append(bytes);
}

/// The bytes that a part of a row spells: `^` is the end of a line, a backtick a bare line feed, and `@`
/// the fields Date and Server.
pub fn spelled(alloc: Global, part: &str, line_end: &[u8]) -> Text {
    let mut spelled = Text::empty(alloc);
    for byte in part.as_bytes() {
        match *byte {
            b'^' => put(&mut spelled, line_end),
            b'`' => put(&mut spelled, b"\n"),
            b'@' => put(&mut spelled, DATE_AND_SERVER),
            other => put(&mut spelled, &[other]),
        }
    }
    spelled
}

/// The text that a part of a row spells: `^` is a newline.
pub fn text(alloc: Global, part: &str) -> Text {
    spelled(alloc, part, b"\n")
}

/// Adds a word, where there is memory for it.
pub fn add_word(words: &mut Words, word: Text) {
    let _added = words.add(word);
}

/// The texts that stand between bars.
pub fn words(alloc: Global, line: &str) -> Words {
    let mut words = Words::new(alloc);
    for piece in line.split("|") {
        add_word(&mut words, text(alloc, piece));
    }
    words
}

/// Adds the field of a line, where it is one and there is memory for it.
fn add_field(alloc: Global, fields: &mut Pairs, line: &str) {
    if let Some((name, value)) = line.split_once(": ") {
        let _added = fields.add((text(alloc, name), text(alloc, value)));
    }
}

/// The fields that stand in lines.
pub fn fields(alloc: Global, lines: &str) -> Pairs {
    let mut fields = Pairs::new(alloc);
    for line in lines.split("^") {
        add_field(alloc, &mut fields, line);
    }
    fields
}

/// A POST of `/f/a b` with these fields, this query and this body.
pub fn request(alloc: Global, lines: &str, query: &str, body: &str) -> Request {
    Request {
        method: text(alloc, "POST"),
        target: text(alloc, "/f/a%20b?a=0"),
        segments: words(alloc, "f|a b"),
        query: text(alloc, query),
        minor: 1,
        fields: fields(alloc, lines),
        body: text(alloc, body),
        peer: text(alloc, "127.0.0.1"),
    }
}

/// A host on a request, where there is memory for one.
pub type Made = Result<ConnHost, NoMemory>;

/// A host on a request.
pub fn on(alloc: Global, request: Request) -> Made {
    Ok(on_boxed(alloc, BoxedRequest::new(alloc, request)?))
}

/// The same for a request at a place of its own in memory.
pub fn on_boxed(alloc: Global, request: BoxedRequest) -> ConnHost {
    ConnHost::new(alloc, request, MOMENT)
}

/// A host on a request with these fields, this query and this body.
pub fn on_request(alloc: Global, lines: &str, query: &str, body: &str) -> Made {
    on(alloc, request(alloc, lines, query, body))
}

/// A host on the request of a form of three pairs, with three fields.
pub fn on_form(alloc: Global) -> Made {
    let lines = "Host: l^Content-Type: application/x-www-form-urlencoded^X-A: v";
    on_request(alloc, lines, "a=0", "a=1&a=2")
}

/// Adds a bar and a text.
pub fn add_part(told: &mut Text, part: &[u8]) {
    put(told, b"|");
    put(told, part);
}

/// A mark and a text.
pub fn marked(alloc: Global, mark: &[u8], part: &[u8]) -> Text {
    let mut told = Text::empty(alloc);
    put(&mut told, mark);
    put(&mut told, part);
    told
}

/// What a question says: its words, with a bar between each two.
fn tell_question(alloc: Global, words: &[Text]) -> Text {
    let mut told = marked(alloc, b"?", b"");
    for (at, word) in words.iter().enumerate() {
        if at > 0 {
            put(&mut told, b"|");
        }
        put(&mut told, word.bytes());
    }
    told
}

/// What a variable to be stored says: its name, its value and what comes of it, with a bar between each two.
fn tell_store(alloc: Global, name: &Text, value: &Text, done: &Text) -> Text {
    let mut told = marked(alloc, b"$", name.bytes());
    add_part(&mut told, value.bytes());
    add_part(&mut told, done.bytes());
    told
}

/// What a reply says; nothing where memory wants.
fn tell(alloc: Global, reply: &HostReply) -> Text {
    match reply {
        HostReply::Done { code: 0, result } => marked(alloc, b"=", result.bytes()),
        HostReply::Done { result, .. } => marked(alloc, b"!", result.bytes()),
        HostReply::Ask(question) => tell_question(alloc, question.words.as_slice()),
        HostReply::Store {
            name,
            value,
            result,
        } => tell_store(alloc, name, value, result),
        HostReply::Enter(_) => marked(alloc, b"enter", b""),
        HostReply::Define(_) => marked(alloc, b"define", b""),
        HostReply::NotMine => marked(alloc, b"-", b""),
        HostReply::NoMemory => Text::empty(alloc),
    }
}

/// A text of so many bytes; the empty one where memory wants.
pub fn long(alloc: Global, count: usize) -> Text {
    match vec![in alloc; b'x'; count] {
        Ok(bytes) => Text::from_vec(bytes),
        Err(_) => Text::empty(alloc),
    }
}

/// The answer of a kind that says a text.
fn saying(kind: &str, said: Text) -> Answer {
    match kind {
        "page" => Answer::Page(said),
        "failed" => Answer::Failed(said),
        _ => Answer::Said(said),
    }
}

/// The answer of a kind that is named without a text.
fn saying_nothing(alloc: Global, kind: &str) -> Answer {
    match kind {
        "fault" => Answer::PageFault,
        "longest" => Answer::Page(long(alloc, MOST_OF_A_PAGE)),
        "longer" => Answer::Page(long(alloc, MOST_OF_A_PAGE + 1)),
        _ => Answer::NoPage,
    }
}

/// The answer that a part of a row names.
fn answer(alloc: Global, named: &str) -> Answer {
    match named.split_once("|") {
        Some((kind, said)) => saying(kind, text(alloc, said)),
        None => saying_nothing(alloc, named),
    }
}

/// Gives the answer to a command.
fn answered(host: &mut ConnHost, asked: &Words, answer: &Answer) -> HostReply {
    host.answered(asked, answer)
}

/// What comes of the answer behind a command.
fn of_answer(alloc: Global, host: &mut ConnHost, asked: &str, named: &str) -> Text {
    let asked = words(alloc, asked);
    let reply = answered(host, &asked, &answer(alloc, named));
    tell(alloc, &reply)
}

/// Does a command.
pub fn call(host: &mut ConnHost, words: &Words) -> HostReply {
    host.call(words)
}

/// What a command comes to.
fn of_call(alloc: Global, host: &mut ConnHost, line: &str) -> Text {
    let reply = call(host, &words(alloc, line));
    tell(alloc, &reply)
}

/// What a command comes to, or what comes of the answer behind it.
pub fn came(alloc: Global, host: &mut ConnHost, line: &str) -> Text {
    match line.split_once(" <- ") {
        Some((asked, named)) => of_answer(alloc, host, asked, named),
        None => of_call(alloc, host, line),
    }
}

/// What is told of a host.
#[derive(Clone, Copy)]
pub enum Told {
    /// What a command comes to.
    Command,
    /// The pairs of the form of its request.
    Form,
    /// The user and the password of its request.
    Credentials,
    /// What commands come to, and the response where one was given.
    Response,
    /// The bytes of the response that commands give.
    Wire,
}

/// What is told of a host that does the commands of a line.
fn tell_of(alloc: Global, host: &mut ConnHost, what: Told, line: &str) -> Text {
    match what {
        Told::Command => came(alloc, host, line),
        Told::Form => form(alloc, host),
        Told::Credentials => user_and_password(alloc, host),
        Told::Response => given(alloc, host, line),
        Told::Wire => sent(alloc, host, line),
    }
}

/// What is told of a host of its own that does the commands of a line; nothing where memory wants.
pub fn told_on(alloc: Global, made: Made, what: Told, line: &str) -> Text {
    match made {
        Ok(mut host) => {
            let told = tell_of(alloc, &mut host, what, line);
            drop(host);
            told
        }
        Err(_) => Text::empty(alloc),
    }
}

/// The two parts of a row, before its arrow and behind it; all of it and nothing, where it has no arrow.
pub fn parts(row: &str) -> (&str, &str) {
    row.split_once(" => ").unwrap_or((row, ""))
}

/// Whether a text is the one that a part of a row spells.
pub fn is_text(alloc: Global, told: &Text, want: &str) -> bool {
    told.bytes() == text(alloc, want).bytes()
}

/// Whether the command of a row comes to what stands behind its arrow.
fn comes(alloc: Global, host: &mut ConnHost, row: &str) -> bool {
    let (line, want) = parts(row);
    is_text(alloc, &came(alloc, host, line), want)
}

/// The place of the first row that is wrong, if there is one, where the commands of the rows are done in
/// order. Each has an arrow behind it, and what it comes to.
pub fn first_wrong(alloc: Global, host: &mut ConnHost, rows: &str) -> Option<usize> {
    for (at, row) in rows.lines().enumerate() {
        if !comes(alloc, host, row) {
            return Some(at);
        }
    }
    None
}
