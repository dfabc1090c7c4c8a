//! `nsv_names`, which asks each bucket and gathers the answers.

ghost use Rattle.std.specs.Prelude.{◌≡◌, IfOk};
ghost use Rattle.tcl_host.specs.Answers.{Replies};
ghost use Rattle.natives.specs.Sorting.{in_order};
ghost use Rattle.server_host.specs.Answers.{Comes};
ghost use Rattle.tcl_host.specs.Checks.{fails};
ghost use Rattle.server_host.specs.Sharing.{names_question, asks_names, nsv_names, all_names, Gathers, by_bytes, names_end, names_next, names_answered, ungathered};

use crate::checks::words_from;
use crate::host::RunHost;
use natives::Fault;
use outside::{Answer, Question, Service};
use std::alloc::Global;
use tcl_host::{HostReply, done, is_counted, require_words};
use tcl_list::{ListFault, quote, split};
use txt_core::{BUCKET_COUNT, NoMemory, Text, Words, error_text, write_natural};

/// The question to one bucket for the names of its arrays.
fn names_question(alloc: Global, words: &Words, bucket: u64) -> Result<Question, NoMemory>
    ensures { IfOk result (λ question. question ≡ names_question words.now bucket) }
{
    let mut asked = Words::new(alloc);
    asked.add(Text::new(alloc, b"nsv_names")?)?;
    asked.add(write_natural(alloc, bucket)?)?;
    asked.append_copies(alloc, words_from(words, 1))?;
    Ok(Question {
        service: Service::Nsv,
        words: asked,
    })
}

/// Asks the first bucket.
fn ask_names(host: &mut RunHost, words: &Words) -> Result<HostReply, NoMemory>
    ensures { IfOk result (λ reply. Replies reply host.new (asks_names words.now host.old)) }
{
    host.gathered.clear();
    Ok(HostReply::Ask(names_question(host.alloc, words, 0)?))
}

/// `nsv_names ?GLOB?`.
pub fn nsv_names(host: &mut RunHost, words: &Words) -> Result<HostReply, Fault>
    ensures { Comes result host.new (nsv_names words.now host.old) }
{
    require_words(host.alloc, is_counted(words, 1, 2), words)?;
    Ok(ask_names(host, words)?)
}

/// The names of all answers, in the order of these.
///
/// # Errors
///
/// `Bad` exactly where an answer is no list, with the place in the first such answer; `NoMemory` for
/// want of memory alone.
fn all_names(alloc: Global, answers: &Words) -> Result<Words, ListFault>
    ensures { Gathers (all_names answers.now) result }
{
    let mut names = Words::new(alloc);
    'answers: for answer in answers.as_slice() {
        match split(alloc, answer) {
            Err(fault) => return Err(fault),
            Ok(listed) => {
                if names.append_copies(alloc, listed.as_slice()).is_err() {
                    return Err(ListFault::NoMemory);
                }
            }
        }
    }
    Ok(names)
}

/// The names sorted by bytes.
fn in_order(alloc: Global, names: &Words) -> Result<Words, NoMemory>
    ensures { IfOk result (λ sorted. sorted ≡ in_order by_bytes names.now) }
{
    let copies = Words::of_copies(alloc, names.as_slice())?;
    let mut sorted = copies.into_vec();
    sorted.sort()?;
    Ok(Words::from_vec(sorted))
}

/// All buckets have answered, and no answer is kept.
fn names_end(host: &mut RunHost) -> Result<HostReply, Fault>
    ensures { Comes result host.new
        (names_end (all_names host.old.gathered) (ungathered host.old)) }
{
    let alloc = host.alloc;
    let names = all_names(alloc, &host.gathered);
    host.gathered.clear();
    match names {
        Ok(names) => Ok(done(quote(alloc, &in_order(alloc, &names)?)?)),
        Err(ListFault::Bad { at }) => Err(Fault::saying(error_text::no_list(alloc, at))),
        Err(ListFault::NoMemory) => Err(Fault::NoMemory),
    }
}

/// Asks the next bucket, or ends where all have answered.
fn names_next(host: &mut RunHost, words: &Words) -> Result<HostReply, Fault>
    ensures { Comes result host.new (names_next words.now host.old.gathered host.old) }
{
    let bucket = host.gathered.len();
    if bucket < BUCKET_COUNT as usize {
        let asked = names_question(host.alloc, words, bucket as u64)?;
        return Ok(HostReply::Ask(asked));
    }
    names_end(host)
}

/// Ends `nsv_names` with an error of this text, and no answer is kept.
fn refuse_names(host: &mut RunHost, why: Text) -> Result<HostReply, Fault>
    ensures { Comes result host.new (fails why (ungathered host.old)) }
{
    host.gathered.clear();
    Err(Fault::Error(why))
}

/// A bucket answers `nsv_names`.
pub fn names_answered(
    host: &mut RunHost,
    words: &Words,
    answer: &Answer,
) -> Result<HostReply, Fault>
    ensures { Comes result host.new (names_answered words.now answer.now host.old) }
{
    match answer {
        Answer::Said(text) => {
            let text = text.copy(host.alloc)?;
            host.gathered.add(text)?;
            names_next(host, words)
        }
        Answer::Failed(why) => {
            let why = why.copy(host.alloc)?;
            refuse_names(host, why)
        }
        Answer::Page(_) | Answer::NoPage | Answer::PageFault => {
            let without_reason = Text::empty(host.alloc);
            refuse_names(host, without_reason)
        }
    }
}
