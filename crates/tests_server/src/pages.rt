//! What calls come to, by rows of text: what is called stands between bars, and what it comes to is
//! told as a code, a colon and the result; `?` and the path that is asked for; `<` with the pieces and
//! the arguments of a page that is entered; or `-` for a command of others.

use crate::texts::{digits, put, text, words_between};
use adp_host::AdpHost;
use adp_parse::{Piece, Pieces};
use outside::Answer;
use std::alloc::Global;
use tcl_host::HostReply;
use txt_core::{Text, Words};

/// The text at a place; the empty text where there is none.
fn text_at(words: &Words, place: usize) -> &[u8] {
    match words.get(place) {
        Some(word) => word.bytes(),
        None => &[],
    }
}

/// Texts, each behind a bar.
fn tell_all(told: &mut Text, words: &Words) {
    for word in words.as_slice() {
        put(told, b"|");
        put(told, word.bytes());
    }
}

/// A piece, behind the letter of its kind.
fn tell_piece(told: &mut Text, piece: &Piece) {
    let (kind, content) = match piece {
        Piece::Text(content) => (b"<T".as_slice(), content),
        Piece::Script(content) => (b"<S".as_slice(), content),
        Piece::Words(content) => (b"<W".as_slice(), content),
    };
    put(told, kind);
    put(told, content.bytes());
}

/// Pieces, each behind the letter of its kind, and the arguments.
fn tell_pieces(told: &mut Text, pieces: &Pieces) {
    for piece in pieces.list.as_slice() {
        tell_piece(told, piece);
    }
    tell_all(told, &pieces.args);
}

/// A number, a colon and a text.
fn numbered(alloc: Global, number: u64, behind: &Text) -> Text {
    let mut told = digits(alloc, number);
    put(&mut told, b":");
    put(&mut told, behind.bytes());
    told
}

/// What a question says.
fn tell_question(alloc: Global, words: &Words) -> Text {
    let mut told = text(alloc, b"?");
    tell_all(&mut told, words);
    told
}

/// What of a page that is entered is told.
fn tell_page(alloc: Global, pieces: &Pieces) -> Text {
    let mut told = Text::empty(alloc);
    tell_pieces(&mut told, pieces);
    told
}

/// What a reply says; nothing where memory wants.
fn tell(alloc: Global, reply: &HostReply) -> Text {
    match reply {
        HostReply::Done { code, result } => numbered(alloc, u64::from(*code), result),
        HostReply::Ask(question) => tell_question(alloc, &question.words),
        HostReply::Enter(pieces) => tell_page(alloc, pieces),
        HostReply::NotMine => text(alloc, b"-"),
        HostReply::NoMemory => Text::empty(alloc),
        _ => text(alloc, b"other"),
    }
}

/// Does a command.
fn done(host: &mut AdpHost, words: &Words) -> HostReply {
    host.call(words)
}

/// Does a command, and tells what it comes to.
fn call(alloc: Global, host: &mut AdpHost, words: &Words) -> Text {
    let reply = done(host, words);
    tell(alloc, &reply)
}

/// Gives an answer.
fn reply_to(host: &mut AdpHost, words: &Words, answer: &Answer) -> HostReply {
    host.answered(words, answer)
}

/// What the answer to a command of a line comes to.
fn answered_to(alloc: Global, host: &mut AdpHost, line: &str, answer: &Answer) -> Text {
    let reply = reply_to(host, &words_between(alloc, line, "|"), answer);
    tell(alloc, &reply)
}

/// Answers an include of `i.adp` with the words `q` and `a b`.
fn answered(alloc: Global, host: &mut AdpHost, answer: &Answer) -> Text {
    answered_to(alloc, host, "ns_adp_include|i.adp|q|a b", answer)
}

/// Enters the page `/o.adp`, as a first page is entered.
fn first(alloc: Global, host: &mut AdpHost, page: &[u8]) -> Text {
    let page = Answer::Page(text(alloc, page));
    answered_to(alloc, host, "ns_adp_include|/o.adp", &page)
}

/// Takes a text.
fn take(host: &mut AdpHost, piece: &Text) -> HostReply {
    host.text(piece)
}

/// Puts out a text.
fn put_out(alloc: Global, host: &mut AdpHost, piece: &Text) -> Text {
    let reply = take(host, piece);
    tell(alloc, &reply)
}

/// Leaves a page with a code.
fn leave_with(host: &mut AdpHost, code: u8) {
    host.leave(code);
}

/// Leaves a page, and tells the count of errors and the output.
fn leave(alloc: Global, host: &mut AdpHost, code: u8) -> Text {
    leave_with(host, code);
    numbered(alloc, host.errors(), host.output())
}

/// Closes all pages, and tells the output.
fn leave_all(alloc: Global, host: &mut AdpHost) -> Text {
    host.leave_all();
    text(alloc, host.output().bytes())
}

/// The code that a digit is.
fn code_of(digit: &[u8]) -> u8 {
    match digit.first() {
        Some(digit) => digit.wrapping_sub(b'0'),
        None => 0,
    }
}

/// Does what a row says: the words of it, and the second of them.
fn come_of(alloc: Global, host: &mut AdpHost, words: &Words, told: &[u8]) -> Text {
    match text_at(words, 0) {
        b"first" => first(alloc, host, told),
        b"page" => answered(alloc, host, &Answer::Page(text(alloc, told))),
        b"absent" => answered(alloc, host, &Answer::NoPage),
        b"fault" => answered(alloc, host, &Answer::PageFault),
        b"refused" => answered(alloc, host, &Answer::Failed(text(alloc, told))),
        b"said" => answered(alloc, host, &Answer::Said(text(alloc, told))),
        b"put" => put_out(alloc, host, &text(alloc, told)),
        b"leave" => leave(alloc, host, code_of(told)),
        b"leave_all" => leave_all(alloc, host),
        _ => call(alloc, host, words),
    }
}

/// Does what a row says.
fn come(alloc: Global, host: &mut AdpHost, line: &str) -> Text {
    let words = words_between(alloc, line, "|");
    come_of(alloc, host, &words, text_at(&words, 1))
}

/// The place of the first row that doesn't come to what is wanted, if there is one, where the rows are done in
/// order.
fn first_wrong(alloc: Global, host: &mut AdpHost, rows: &[(&str, &str)]) -> Option<usize> {
    for (at, (line, want)) in rows.iter().enumerate() {
        if come(alloc, host, line).bytes() != want.as_bytes() {
            return Some(at);
        }
    }
    None
}

/// Rows of commands and of what pages do, each with what it comes to.
const COMMANDS: &[(&str, &str)] = &[
    ("", "-"),
    ("ns_return|200|text/plain|x", "-"),
    ("ns_adp_append", "1:not in a page"),
    ("ns_adp_puts", "1:wrong number of words for \"ns_adp_puts\""),
    ("ns_adp_puts|-x|y", "1:not in a page"),
    ("ns_adp_include|../x", "1:not in a page"),
    (
        "ns_adp_argc|x",
        "1:wrong number of words for \"ns_adp_argc\"",
    ),
    ("ns_adp_argv|x", "1:not in a page"),
    ("ns_adp_break", "1:not in a page"),
    ("leave|1", "0:"),
    ("absent", "1:no page \"/i.adp\""),
    ("fault", "1:can't read page \"/i.adp\""),
    ("refused|why", "1:why"),
    ("said|so", "1:"),
    ("ns_adp_argc", "1:not in a page"),
    ("first|<% x %>4", "<S x <T4|/o.adp"),
    ("ns_adp_argv", "0:/o.adp"),
    (
        "page|2<%= [ns_adp_argv 1] %><% x %>3",
        "<T2<W [ns_adp_argv 1] <S x <T3|i.adp|q|a b",
    ),
    ("ns_adp_argc", "0:3"),
    ("ns_adp_argv", "0:i.adp q {a b}"),
    ("ns_adp_argv|0", "0:i.adp"),
    ("ns_adp_argv| 0x2 ", "0:a b"),
    ("ns_adp_argv|3", "0:"),
    ("ns_adp_argv|-1", "0:"),
    ("ns_adp_argv|end", "1:expected integer but got \"end\""),
    (
        "ns_adp_argv|0|1",
        "1:wrong number of words for \"ns_adp_argv\"",
    ),
    ("ns_adp_append", "0:"),
    ("ns_adp_append|a|b c|", "0:"),
    ("ns_adp_puts|d", "0:"),
    ("ns_adp_puts|-nonewline|e", "0:"),
    ("ns_adp_puts|-nonewline", "0:"),
    (
        "ns_adp_puts|-newline|f",
        "1:bad value \"-newline\" for \"ns_adp_puts\"",
    ),
    ("put|g", "0:"),
    ("leave|1", "1:ab cd\ne-nonewline\ng"),
    ("leave|3", "2:ab cd\ne-nonewline\ng"),
    ("leave|8", "2:ab cd\ne-nonewline\ng"),
    ("ns_adp_include|a/i.adp|x", "?|/a/i.adp"),
    ("ns_adp_include|/a.b/..c", "?|/a.b/..c"),
    (
        "ns_adp_include",
        "1:wrong number of words for \"ns_adp_include\"",
    ),
    ("ns_adp_include|", "1:bad value \"\" for \"ns_adp_include\""),
    (
        "ns_adp_include|/",
        "1:bad value \"/\" for \"ns_adp_include\"",
    ),
    (
        "ns_adp_include|a/",
        "1:bad value \"a/\" for \"ns_adp_include\"",
    ),
    (
        "ns_adp_include|a/../b",
        "1:bad value \"a/../b\" for \"ns_adp_include\"",
    ),
    (
        "ns_adp_include|/./b",
        "1:bad value \"/./b\" for \"ns_adp_include\"",
    ),
    (
        "ns_adp_include|a\\b",
        "1:bad value \"a\\b\" for \"ns_adp_include\"",
    ),
    (
        "ns_adp_include|a\0",
        "1:bad value \"a\0\" for \"ns_adp_include\"",
    ),
    ("ns_adp_return", "5:"),
    ("leave|5", "2:ab cd\ne-nonewline\ng"),
    ("ns_adp_argv|0", "0:/o.adp"),
    ("ns_adp_break", "6:"),
    ("ns_adp_abort", "7:"),
    ("leave|6", "2:ab cd\ne-nonewline\ng"),
    ("ns_adp_abort", "1:not in a page"),
    ("page|x", "<Tx|i.adp|q|a b"),
    ("leave|7", "2:"),
    ("leave|4", "2:"),
    ("first|x", "<Tx|/o.adp"),
    ("page|x", "<Tx|i.adp|q|a b"),
    ("put|h", "0:"),
    ("leave_all", "h"),
    ("ns_adp_argc", "1:not in a page"),
];

/// The place of the first of these rows that is wrong on a new host, if there is one.
fn first_wrong_anew(alloc: Global) -> Option<usize> {
    let mut host = AdpHost::new(alloc);
    let wrong = first_wrong(alloc, &mut host, COMMANDS);
    drop(host);
    wrong
}

#[test]
fn commands(rt: HostRuntime) {
    assert_eq!(rt; first_wrong_anew(rt.alloc()), None);
}

/// A text of so many bytes; the empty one where memory wants.
fn long(alloc: Global, count: usize) -> Text {
    match vec![in alloc; b'x'; count] {
        Ok(bytes) => Text::from_vec(bytes),
        Err(_) => Text::empty(alloc),
    }
}

/// Rows on an output that is full, in a page.
const FULL: &[(&str, &str)] = &[
    ("put|", "0:"),
    ("put|x", "1:output too long"),
    ("ns_adp_append|x", "1:output too long"),
    ("ns_adp_puts|", "1:output too long"),
    ("ns_adp_puts|-nonewline|", "0:"),
    ("ns_adp_argv", "0:/o.adp"),
];

/// Rows on a host that was cleared.
const CLEARED: &[(&str, &str)] = &[("leave|1", "0:"), ("ns_adp_argc", "1:not in a page")];

/// Puts out a text eight times, and tells whether each comes to nothing.
fn puts_eight(alloc: Global, host: &mut AdpHost, piece: &Text) -> bool {
    let mut right = true;
    for _ in 0..8 {
        right = put_out(alloc, host, piece).bytes() == b"0:".as_slice() && right;
    }
    right
}

/// Whether a page of the greatest length is entered.
fn is_entered(alloc: Global, host: &mut AdpHost, page: &Text) -> bool {
    first(alloc, host, page.bytes()).len() == 1_048_585
}

/// Whether a page that is longer isn't entered.
fn is_too_long(alloc: Global, host: &mut AdpHost, page: Text) -> bool {
    let refused = answered(alloc, host, &Answer::Page(page));
    refused.bytes() == b"1:page \"/i.adp\" is too long".as_slice()
}

/// Whether a host fills the output, is then in a page, and enters no longer one.
fn has_lengths(alloc: Global, host: &mut AdpHost) -> bool {
    let page = long(alloc, 1_048_576);
    let right = puts_eight(alloc, host, &page) && is_entered(alloc, host, &page);
    right && is_too_long(alloc, host, long(alloc, 1_048_577))
}

/// Takes back all that a run left.
fn clear(host: &mut AdpHost) {
    host.clear();
}

/// Whether a host keeps to its limits, when its output is full and when it was cleared.
fn is_limited(alloc: Global, host: &mut AdpHost) -> bool {
    let full = has_lengths(alloc, host) && first_wrong(alloc, host, FULL).is_none();
    let right = full && host.output().len() == 8_388_608;
    clear(host);
    right && first_wrong(alloc, host, CLEARED).is_none()
}

/// The same of a new host.
fn new_is_limited(alloc: Global) -> bool {
    let mut host = AdpHost::new(alloc);
    let is_right = is_limited(alloc, &mut host);
    drop(host);
    is_right
}

#[test]
fn limits(rt: HostRuntime) {
    assert!(rt; new_is_limited(rt.alloc()));
}

/// Whether a text is put out so often.
fn puts_often(alloc: Global, host: &mut AdpHost, times: usize) -> bool {
    let piece = text(alloc, b"<td>0123</td>");
    let mut right = true;
    for _ in 0..times {
        right = is_put(&take(host, &piece)) && right;
    }
    right
}

/// Whether a reply isn't want of memory.
fn is_put(reply: &HostReply) -> bool {
    !matches!(reply, HostReply::NoMemory)
}

/// How long the output of a new host is, to which a text is put out so often; 0 where memory wants.
fn length_of_often(alloc: Global, times: usize) -> usize {
    let mut host = AdpHost::new(alloc);
    let right = puts_often(alloc, &mut host, times);
    let length = host.output().len();
    drop(host);
    if right { length } else { 0 }
}

#[test]
fn many_pieces(rt: HostRuntime) {
    assert!(rt; length_of_often(rt.alloc(), 100_000) == 1_300_000);
}
