//! Questions as calls on the objects that answer them, and their replies as answers.

use blueprint::{BlueCall, Limit, Published};
use outside::Answer;
use sched_core::{SchedCall, SchedReply};
use serving::{Asked, publish_call, published_answer, sched_answer, sched_call};
use std::alloc::{AllocGlobal, Global};
use std::process::Abort;
use std::test::Fail;
use txt_core::{NoMemory, Text, Words};

/// The words of a line, between its spaces.
fn words(alloc: Global, line: &str) -> Result<Words, NoMemory> {
    let mut words = Words::new(alloc);
    for word in line.split(' ') {
        words.add(Text::new(alloc, word.as_bytes())?)?;
    }
    Ok(words)
}

/// An answer as a line writes it.
fn shown(alloc: Global, answer: &Answer) -> Result<Text, NoMemory> {
    let (front, text): (&[u8], &[u8]) = match answer {
        Answer::Said(text) => (b"said ", text.bytes()),
        Answer::Failed(why) => (b"failed ", why.bytes()),
        Answer::Page(_) | Answer::NoPage | Answer::PageFault => (b"page", b""),
    };
    let mut line = Text::new(alloc, front)?;
    line.append(text)?;
    Ok(line)
}

/// A call on a schedule as a line writes it.
fn shown_call(alloc: Global, call: &SchedCall) -> Result<Text, NoMemory> {
    let mut line = Text::empty(alloc);
    match call {
        SchedCall::Add {
            moment,
            seconds,
            once,
            script,
        } => {
            line.append(format!(in alloc; "add {moment} {seconds} {once} ")?.as_bytes())?;
            line.append(script.bytes())?;
        }
        SchedCall::Cancel(id) => line.append(format!(in alloc; "cancel {id}")?.as_bytes())?,
        SchedCall::Due(_) | SchedCall::Stop => line.append(b"else")?,
    }
    Ok(line)
}

/// The words of questions to the schedule and the call of each at the moment 7, one a line.
const SCHEDULED: &str = "ns_schedule_proc 10 s => add 7 10 false s
ns_schedule_proc -once 0x10 s => add 7 16 true s
ns_unschedule_proc 010 => cancel 8
ns_unschedule_proc 5 => cancel 5";

/// Asks what a line asks.
fn check_scheduled<R: Abort + AllocGlobal>(rt: &R, line: &str) -> Result<(), Fail> {
    let (asked, want) = line.split_once(" => ").ok_or("a line has an arrow")?;
    let call = sched_call(rt.alloc(), &words(rt.alloc(), asked)?, 7)?;
    let shown = shown_call(rt.alloc(), &call)?;
    assert_eq!(rt; shown.bytes(), want.as_bytes(), "{line}");
    Ok(())
}

#[test]
fn questions_to_the_schedule_are_calls(rt: HostRuntime) -> Result<(), Fail> {
    let mut count = 0u64;
    for line in SCHEDULED.lines() {
        check_scheduled(&rt, line)?;
        count = count.wrapping_add(1);
    }
    assert_eq!(rt; count, 4);
    Ok(())
}

/// Looks at what the schedule answers.
fn check_answer<R: Abort + AllocGlobal>(
    rt: &R,
    asked: &Words,
    reply: SchedReply,
    want: &[u8],
) -> Result<(), Fail> {
    let answer = sched_answer(rt.alloc(), asked, reply)?;
    let shown = shown(rt.alloc(), &answer)?;
    assert_eq!(rt; shown.bytes(), want);
    Ok(())
}

#[test]
fn replies_of_the_schedule_are_answers(rt: HostRuntime) -> Result<(), Fail> {
    let asked = words(rt.alloc(), "ns_unschedule_proc 05")?;
    let none = b"failed no schedule \"05\"";
    check_answer(&rt, &asked, SchedReply::NoId, none)?;
    check_answer(&rt, &asked, SchedReply::Id(3), b"said 3")?;
    check_answer(&rt, &asked, SchedReply::Cancelled, b"said ")?;
    let full = b"failed too many schedules";
    check_answer(&rt, &asked, SchedReply::Full, full)
}

/// Looks at what a publication answers.
fn check_published<R: Abort + AllocGlobal>(
    rt: &R,
    reply: Published,
    want: &[u8],
) -> Result<(), Fail> {
    let answer = published_answer(rt.alloc(), reply)?;
    let shown = shown(rt.alloc(), &answer)?;
    assert_eq!(rt; shown.bytes(), want);
    Ok(())
}

#[test]
fn publications_are_answered(rt: HostRuntime) -> Result<(), Fail> {
    let rows: &[(Published, &[u8])] = &[
        (Published::Done(12), b"said 12"),
        (
            Published::NotADefinition(1),
            b"failed command 1 is no definition",
        ),
        (
            Published::NotApplicable(0),
            b"failed definition 0 does not apply",
        ),
        (Published::Full(Limit::Count), b"failed blueprint full"),
        (Published::Full(Limit::Bytes), b"failed blueprint full"),
    ];
    for &(reply, want) in rows {
        check_published(&rt, reply, want)?;
    }
    Ok(())
}

/// How many definitions a call publishes.
fn made(call: &BlueCall) -> usize {
    match call {
        BlueCall::Publish(defs) => defs.len(),
        BlueCall::Look(_) | BlueCall::Save(_) => 0,
    }
}

/// What a question whether to publish comes to, as a line writes it.
fn shown_asked(alloc: Global, asked: &Asked) -> Result<Text, NoMemory> {
    match asked {
        Asked::Puts(call) => {
            let count = made(call);
            Ok(Text::from_vec(format!(in alloc; "publish {count}")?.into_bytes()))
        }
        Asked::Refused(answer) => shown(alloc, answer),
    }
}

/// The words of a question whether to publish this script.
fn question(alloc: Global, script: &[u8]) -> Result<Words, NoMemory> {
    let mut words = Words::new(alloc);
    words.add(Text::new(alloc, script)?)?;
    Ok(words)
}

/// The line of a question whether to publish this script.
fn line_of(alloc: Global, script: &[u8]) -> Result<Text, NoMemory> {
    let words = question(alloc, script)?;
    let asked = publish_call(alloc, &words)?;
    shown_asked(alloc, &asked)
}

/// Looks at the line of a question whether to publish this script.
fn check_line<R: Abort + AllocGlobal>(rt: &R, script: &[u8], want: &[u8]) -> Result<(), Fail> {
    let line = line_of(rt.alloc(), script)?;
    assert_eq!(rt; line.bytes(), want);
    Ok(())
}

#[test]
fn scripts_are_publications(rt: HostRuntime) -> Result<(), Fail> {
    let puts = b"proc a {} {}\nputs 1\n";
    check_line(&rt, puts, b"failed command 1 is no definition")?;
    check_line(&rt, b"proc a {} {}\nrename a b\n", b"publish 2")
}
