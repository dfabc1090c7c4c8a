//! Questions, and who answers them.

ghost use Rattle.std.specs.Prelude.{◌≡◌, ◌++◌, ◌∷◌, [], ℕ, Option, None, Some, IfOk, OnErr};
ghost use Rattle.txt_core.specs.Names.{Moment};
ghost use Rattle.shared_state.specs.Cells.{AreOf};
ghost use Rattle.outside.specs.Paging.{PageMap};
ghost use Rattle.shared_state.specs.declared.shared.Passes.{Passes as SeenPasses};
ghost use Rattle.worker.specs.Turns.{blueprint_answer};
ghost use Rattle.worker.specs.Asking.{AsksOne, published_by};

use crate::heard::{Heard, copy_answer};
use blueprint::{BlueCall, BlueReply, Published};
use outside::{Answer, Pages, Question, Service};
use serving::{
    Asked, inner_answer, nsv_answer, page_answer, publish_call, published_answer, save_call,
    sched_answer, sched_call,
};
use shared_state::{Passes, Shared};
use std::alloc::Global;
use std::sync::Wait;
use txt_core::{NoMemory, Text, Words};

/// The epoch of a publication that was done.
fn epoch_of(reply: &BlueReply) -> Option<u64>
    ensures { result ≡ published_by (BlueCall.Publish []) reply.now }
{
    match reply {
        BlueReply::Published(Published::Done(epoch)) => Some(*epoch),
        _ => None,
    }
}

/// What the blueprint replied as an answer. It replies with a look to a look alone.
fn blueprint_answer(alloc: Global, reply: BlueReply) -> Result<Answer, NoMemory>
    ensures { IfOk result (λ answer. blueprint_answer reply ≡ Some answer) }
{
    match reply {
        BlueReply::Published(published) => published_answer(alloc, published),
        BlueReply::Look(_) => Err(NoMemory),
    }
}

/// Publishes the definitions of the question's word, and notes the epoch where that was done.
fn publish<R: Wait>(
    rt: &R,
    alloc: Global,
    shared: &Shared,
    passes: &mut Passes,
    words: &Words,
    published: &mut Option<u64>,
) -> Result<Answer, NoMemory>
    requires { AreOf shared.now passes.old }
    ensures cells { AreOf shared.now passes.new }
    ensures asks { (moment : Moment) (held : Option PageMap) (faults : ℕ)
        → AsksOne moment (record { service = Service.Publish; words = words.now }) passes.old held
        faults result passes.new faults published.new }
{
    match publish_call(alloc, words)? {
        Asked::Refused(answer) => {
            *published = None;
            Ok(answer)
        }
        Asked::Puts(call) => {
            let turned = shared.blueprint.turn(rt, &mut passes.blueprint, call);
            *published = epoch_of(&turned.reply);
            blueprint_answer(alloc, turned.reply)
        }
    }
}

/// Saves the question's word.
fn save<R: Wait>(
    rt: &R,
    alloc: Global,
    shared: &Shared,
    passes: &mut Passes,
    words: &Words,
) -> Result<Answer, NoMemory>
    requires { AreOf shared.now passes.old }
    ensures cells { AreOf shared.now passes.new }
    ensures asks { (moment : Moment) (held : Option PageMap) (faults : ℕ)
        → AsksOne moment (record { service = Service.Save; words = words.now }) passes.old held
        faults result passes.new faults None }
{
    let call: BlueCall = save_call(alloc, words)?;
    let turned = shared.blueprint.turn(rt, &mut passes.blueprint, call);
    blueprint_answer(alloc, turned.reply)
}

/// Puts the question's words to the schedule.
fn schedule<R: Wait>(
    rt: &R,
    alloc: Global,
    shared: &Shared,
    passes: &mut Passes,
    moment: u64,
    words: &Words,
) -> Result<Answer, NoMemory>
    requires { AreOf shared.now passes.old }
    ensures cells { AreOf shared.now passes.new }
    ensures asks { (held : Option PageMap) (faults : ℕ)
        → AsksOne moment (record { service = Service.Schedule; words = words.now }) passes.old held
        faults result passes.new faults None }
{
    let call = sched_call(alloc, words, moment)?;
    let turned = shared.schedule.turn(rt, &mut passes.schedule, call);
    sched_answer(alloc, words, turned.reply)
}

/// Asks the pages for that of the question's word.
fn page<P: Pages>(alloc: Global, pages: &mut P, words: &Words) -> Result<Answer, NoMemory>
    ensures asks { (moment : Moment) (passes : SeenPasses)
        → AsksOne moment (record { service = Service.Page; words = words.now }) passes
        (P.held pages.old) (P.faults pages.old) result passes (P.faults pages.new) None }
    ensures held { P.held pages.new ≡ P.held pages.old }
{
    match words.get(0) {
        Some(path) => page_answer(pages.page(path)),
        None => page_answer(pages.page(&Text::empty(alloc))),
    }
}

/// Puts a question of a run at this moment to what answers it: one turn on a cell, or one page, and notes
/// the epoch of a publication that was done by it, or that there was none. Want of memory, there or here,
/// is its only error; the turn may have been taken then.
fn ask<R: Wait, P: Pages>(
    rt: &R,
    alloc: Global,
    shared: &Shared,
    passes: &mut Passes,
    pages: &mut P,
    moment: u64,
    question: Question,
    published: &mut Option<u64>,
) -> Result<Answer, NoMemory>
    requires { AreOf shared.now passes.old }
    ensures cells { AreOf shared.now passes.new }
    ensures asks { AsksOne moment question passes.old (P.held pages.old) (P.faults pages.old) result
        passes.new (P.faults pages.new) published.new }
    ensures held { P.held pages.new ≡ P.held pages.old }
{
    *published = None;
    let Question { service, words } = question;
    match service {
        Service::Page => page(alloc, pages, &words),
        Service::Nsv => nsv_answer(shared.nsv.ask(rt, &mut passes.nsv, words).reply),
        Service::Schedule => schedule(rt, alloc, shared, passes, moment, &words),
        Service::Publish => publish(rt, alloc, shared, passes, &words, published),
        Service::Save => save(rt, alloc, shared, passes, &words),
        Service::Inner => Ok(inner_answer(alloc)),
    }
}

/// Puts a question to what answers it, and notes the answer. The only error is want of memory; the turn
/// may have been taken then, and the answer isn't noted.
pub(crate) fn answer<R: Wait, P: Pages>(
    rt: &R,
    alloc: Global,
    shared: &Shared,
    passes: &mut Passes,
    pages: &mut P,
    moment: u64,
    question: Question,
    heard: &mut Heard,
) -> Result<Answer, NoMemory>
    requires { AreOf shared.now passes.old }
    ensures cells { AreOf shared.now passes.new }
    ensures asks { AsksOne moment question passes.old (P.held pages.old) (P.faults pages.old) result
        passes.new (P.faults pages.new) heard.new.published }
    ensures ok { IfOk result (λ answer. heard.new.answers ≡ heard.old.answers ++ answer ∷ []) }
    ensures err { OnErr result (heard.new.answers ≡ heard.old.answers) }
    ensures held { P.held pages.new ≡ P.held pages.old }
{
    let published = &mut heard.published;
    let answer = ask(
        rt, alloc, shared, passes, pages, moment, question, published,
    )?;
    heard.answers.add(copy_answer(alloc, &answer)?)?;
    Ok(answer)
}
