//! The commands by their names.

ghost use Rattle.tcl_host.specs.Answers.{Replies, RepliesTo, Ends};
ghost use Rattle.server_host.specs.Answers.{Comes};
ghost use Rattle.server_host.specs.Leaf.{does, of_conn, of_pages, of_parts, host_call, said, conn_answered, page_answered, host_answer, host_text};

use crate::gathering::{names_answered, nsv_names};
use crate::host::RunHost;
use crate::interpreting::{ns_eval, ns_ictl};
use crate::registering::{ns_register_filter, ns_register_proc};
use crate::reply::reply_of;
use crate::scheduling::{ns_schedule_proc, ns_unschedule_proc};
use crate::sharing::nsv;
use crate::verb::{Verb, find_verb};
use natives::Fault;
use outside::Answer;
use tcl_host::{HostReply, done};
use txt_core::{Text, Words};

/// Does a command that is neither of the connection nor of pages.
fn dispatch(host: &mut RunHost, verb: Verb, words: &Words) -> Result<HostReply, Fault>
    ensures { Comes result host.new (does verb words.now host.old) }
{
    match verb {
        Verb::RegisterProc => ns_register_proc(host, words),
        Verb::RegisterFilter => ns_register_filter(host, words),
        Verb::NsIctl => ns_ictl(host, words),
        Verb::NsEval => ns_eval(host, words),
        Verb::ScheduleProc => ns_schedule_proc(host, words),
        Verb::UnscheduleProc => ns_unschedule_proc(host, words),
        Verb::NsvNames => nsv_names(host, words),
        Verb::Nsv => nsv(host, words),
    }
}

/// Does a command of the connection.
fn of_conn(host: &mut RunHost, words: &Words) -> HostReply
    ensures { Replies result host.new (of_conn words.now host.old) }
{
    host.conn.call(words)
}

/// Does a command of pages.
fn of_pages(host: &mut RunHost, words: &Words) -> HostReply
    ensures { Replies result host.new (of_pages words.now host.old) }
{
    host.pages.call(words)
}

/// Does a command of the connection or of pages.
fn of_parts(host: &mut RunHost, words: &Words) -> HostReply
    ensures { Replies result host.new (of_parts words.now host.old) }
{
    match of_conn(host, words) {
        HostReply::NotMine => of_pages(host, words),
        reply => reply,
    }
}

/// Does a command.
pub fn call(host: &mut RunHost, words: &Words) -> HostReply
    ensures { Replies result host.new (host_call words.now host.old) }
{
    match find_verb(words.bytes_at(0)) {
        Some(verb) => reply_of(dispatch(host, verb, words)),
        None => of_parts(host, words),
    }
}

/// Goes on with the answer to a question that a command asks once and that wants no page.
fn said(host: &RunHost, answer: &Answer) -> Result<HostReply, Fault>
    ensures { Comes result host.now (said answer.now host.now) }
{
    match answer {
        Answer::Said(text) => Ok(done(text.copy(host.alloc)?)),
        Answer::Failed(why) => Err(Fault::saying(why.copy(host.alloc))),
        Answer::Page(_) | Answer::NoPage | Answer::PageFault => {
            Err(Fault::Error(Text::empty(host.alloc)))
        }
    }
}

/// Goes on with an `open` whose page was asked for.
fn conn_answered(host: &mut RunHost, words: &Words, answer: &Answer) -> HostReply
    ensures { RepliesTo result host.new (conn_answered words.now answer.now host.old) }
{
    host.conn.answered(words, answer)
}

/// Goes on with an `ns_adp_include` whose page was asked for.
fn page_answered(host: &mut RunHost, words: &Words, answer: &Answer) -> HostReply
    ensures { RepliesTo result host.new (page_answered words.now answer.now host.old) }
{
    host.pages.answered(words, answer)
}

/// Goes on with the answer to a question that a command asked.
pub fn answered(host: &mut RunHost, words: &Words, answer: &Answer) -> HostReply
    ensures { RepliesTo result host.new (host_answer words.now answer.now host.old) }
{
    let name = words.bytes_at(0);
    if name == b"open".as_slice() {
        conn_answered(host, words, answer)
    } else if name == b"ns_adp_include".as_slice() {
        page_answered(host, words, answer)
    } else if name == b"nsv_names".as_slice() {
        reply_of(names_answered(host, words, answer))
    } else {
        reply_of(said(host, answer))
    }
}

/// Takes a text of the innermost open page.
pub fn put_out(host: &mut RunHost, piece: &Text) -> HostReply
    ensures { Ends result host.new (host_text piece.now host.old) }
{
    host.pages.text(piece)
}
