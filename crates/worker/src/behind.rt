//! What comes of a run behind its response.

ghost use Rattle.std.specs.Prelude.{◌≡◌};
ghost use Rattle.natives.specs.Names.{names_of};
ghost use Rattle.shared_state.specs.Cells.{AreOf};
ghost use Rattle.ictl.specs.Came.{IsAtResponse};
ghost use Rattle.ictl.specs.Falls.{StandsAt};
ghost use Rattle.ictl.specs.Interps.{StaysSound};
ghost use Rattle.worker.specs.Behind.{GoesBehind, RunsBehind, EndsCut};
ghost use Rattle.worker.specs.Clean.{edition_in};
ghost use Rattle.worker.specs.Working.{way_of};

use crate::heard::Heard;
use crate::reply::outcome_of;
use crate::run::answer_all;
use crate::served::ServedOutcome;
use cmd_table::Steps;
use ictl::Run;
use natives::Natives;
use outside::Pages;
use shared_state::{Passes, Shared};
use std::alloc::Global;
use std::sync::Wait;
use std::sync::ledger::Ledger;

/// Tells a run that its response was written whole.
fn tell_whole<L: Ledger>(natives: &Natives, run: &mut Run, steps: &mut Steps<L>)
    requires { IsAtResponse run.old }
    ensures { GoesBehind (names_of natives.now) run.old run.new steps.old steps.new }
{
    run.written(natives, true, steps);
}

/// How a request ended whose run came to this behind its response.
fn how_ended(run: &Run) -> ServedOutcome
    ensures way { result ≡ way_of run.now.next }
    ensures stands { StandsAt run.now.next run.now.interp }
{
    outcome_of(run.next())
}

/// Tells a run that its response was written whole, and goes on with what comes behind it until that ends
/// or memory wants. Gives how the request ended.
pub(crate) fn end_whole<R: Wait, P: Pages, L: Ledger>(
    rt: &R,
    alloc: Global,
    natives: &Natives,
    shared: &Shared,
    passes: &mut Passes,
    pages: &mut P,
    run: &mut Run,
    moment: u64,
    heard: &mut Heard,
    steps: &mut Steps<L>,
) -> ServedOutcome
    requires cells { AreOf shared.now passes.old }
    requires response { IsAtResponse run.old }
    ensures cells { AreOf shared.now passes.new }
    ensures behind { RunsBehind (names_of natives.now) moment (P.held pages.old) run.old run.new
        passes.old passes.new (P.faults pages.old) (P.faults pages.new) heard.old.published
        heard.new.published heard.old.answers heard.new.answers steps.old steps.new }
    ensures outcome { result ≡ way_of run.new.next }
    ensures blueprint { edition_in run.new.interp ≡ edition_in run.old.interp }
    ensures sound { StaysSound run.new.interp run.old.interp }
    ensures held { P.held pages.new ≡ P.held pages.old }
{
    tell_whole(natives, run, steps);
    answer_all(
        rt, alloc, natives, shared, passes, pages, run, moment, heard, steps,
    );
    how_ended(run)
}

/// Tells a run that its response was cut short, which ends it. Gives how the request ended.
pub(crate) fn end_cut<L: Ledger>(
    natives: &Natives,
    run: &mut Run,
    steps: &mut Steps<L>,
) -> ServedOutcome
    requires { IsAtResponse run.old }
    ensures cut { EndsCut (names_of natives.now) run.old run.new steps.old steps.new }
    ensures outcome { result ≡ way_of run.new.next }
    ensures blueprint { edition_in run.new.interp ≡ edition_in run.old.interp }
    ensures sound { StaysSound run.new.interp run.old.interp }
{
    run.written(natives, false, steps);
    how_ended(run)
}
