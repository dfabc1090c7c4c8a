//! The commands by their names.

ghost use Rattle.std.specs.Prelude.{◌≢◌};
ghost use Rattle.tcl_host.specs.Answers.{Replies};
ghost use Rattle.tcl_host.specs.Leaf.{Leaf};
ghost use Rattle.tcl_host.specs.Outcomes.{Comes, EndsWith};
ghost use Rattle.conn_host.specs.Conns.{ConnState};
ghost use Rattle.conn_host.specs.Leaf.{does, conn_call, conn_answer};

use crate::channel::{close, eof, gets, open, page_answered, read};
use crate::conn::Conn;
use crate::encoding::{ns_httptime, ns_time, ns_urldecode, ns_urlencode};
use crate::host::ConnHost;
use crate::requested::{ns_conn, ns_queryget};
use crate::responding::{ns_return, ns_returnnotfound, ns_returnredirect};
use crate::setting::ns_set;
use crate::verb::{Verb, find_verb};
use natives::Fault;
use outside::Answer;
use tcl_host::{HostReply, done, ended, reply_of};
use txt_core::{Text, Words};

/// The reply to a command that ends with a result unless it is refused.
fn end_of(came: Result<Text, Fault>) -> HostReply
    ensures { (host : ConnState) (leaf : Leaf ConnState) → EndsWith came host leaf
        → Replies result host leaf }
{
    match came {
        Ok(result_text) => done(result_text),
        Err(refusal) => reply_of(Err(refusal)),
    }
}

/// Does a command that never does more than end with a result.
fn do_command(conn: &mut Conn, verb: Verb, words: &Words) -> Result<Text, Fault>
    requires not_open { verb ≢ Verb.Open }
    requires not_gets { verb ≢ Verb.Gets }
    requires not_return { verb ≢ Verb.NsReturn }
    ensures { EndsWith result conn.new (does verb words.now conn.old) }
{
    match verb {
        Verb::Open | Verb::Gets | Verb::NsReturn => unreachable!(),
        Verb::NsSet => ns_set(conn, words),
        Verb::Read => read(conn, words),
        Verb::Eof => eof(conn, words),
        Verb::Close => close(conn, words),
        Verb::NsConn => ns_conn(conn, words),
        Verb::NsQueryget => ns_queryget(conn, words),
        Verb::NsReturnredirect => ns_returnredirect(conn, words),
        Verb::NsReturnnotfound => ns_returnnotfound(conn, words),
        Verb::NsUrlencode => ns_urlencode(conn, words),
        Verb::NsUrldecode => ns_urldecode(conn, words),
        Verb::NsTime => ns_time(conn, words),
        Verb::NsHttptime => ns_httptime(conn, words),
    }
}

/// Does a command on a connection whose sets are made.
pub fn do_verb(conn: &mut Conn, verb: Verb, words: &Words) -> HostReply
    requires not_return { verb ≢ Verb.NsReturn }
    ensures { Replies result conn.new (does verb words.now conn.old) }
{
    match verb {
        Verb::Open => reply_of(open(conn, words)),
        Verb::Gets => reply_of(gets(conn, words)),
        _ => end_of(do_command(conn, verb, words)),
    }
}

/// Does a command. `ns_return`, with which most requests are answered, needs no set.
pub fn dispatch(host: &mut ConnHost, words: &Words) -> HostReply
    ensures { Replies result host.new (conn_call words.now host.old) }
{
    let Some(verb) = find_verb(words.bytes_at(0)) else {
        return HostReply::NotMine;
    };
    match verb {
        Verb::NsReturn => end_of(ns_return(host, words)),
        _ => host.do_made(verb, words),
    }
}

/// Goes on with the answer to a question that a command asked, or is refused.
fn answer(conn: &mut Conn, words: &Words, answer: &Answer) -> Result<HostReply, Fault>
    ensures { Comes result conn.new (conn_answer words.now answer.now conn.old) }
{
    if words.bytes_at(0) != b"open".as_slice() {
        return Ok(HostReply::NotMine);
    }
    ended(page_answered(conn, words, answer))
}

/// Goes on with the answer to a question that a command asked.
pub fn resume(conn: &mut Conn, words: &Words, answer_given: &Answer) -> HostReply
    ensures { Replies result conn.new (conn_answer words.now answer_given.now conn.old) }
{
    reply_of(answer(conn, words, answer_given))
}
