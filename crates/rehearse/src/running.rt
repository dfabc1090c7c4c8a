//! Runs: how they begin, and how they go on.

ghost use Rattle.natives.specs.Names.{names_of};
ghost use Rattle.ictl.specs.Came.{IsAtQuestion, IsAtResponse};
ghost use Rattle.ictl.specs.Interps.{IsNew};
ghost use Rattle.rehearse.specs.Playing.{RequestBegan, ScriptBegan, DefineBegan, Resumed, WentBehind};

use cmd_table::Steps;
use http_req::BoxedRequest;
use ictl::{BoxedInterp, Run};
use natives::Natives;
use outside::Answer;
use std::sync::ledger::Ledger;
use txt_core::Text;

/// Begins the run of a request in an interpreter that is as newly made.
pub fn begin_request<L: Ledger>(
    interp: BoxedInterp,
    natives: &Natives,
    request: BoxedRequest,
    moment: u64,
    steps: &mut Steps<L>,
) -> Run
    requires { IsNew (names_of natives.now) interp }
    ensures { RequestBegan (names_of natives.now) request moment result.next result.interp interp }
{
    Run::start_request(interp, natives, request, moment, steps)
}

/// Begins the run of a scheduled script in an interpreter that is as newly made.
pub fn begin_script<L: Ledger>(
    interp: BoxedInterp,
    natives: &Natives,
    script: &Text,
    moment: u64,
    steps: &mut Steps<L>,
) -> Run
    requires { IsNew (names_of natives.now) interp }
    ensures { ScriptBegan (names_of natives.now) script.now moment result.next result.interp
        interp }
{
    Run::start_script(interp, natives, script, moment, steps)
}

/// Begins the definition run of a block in an interpreter that is as newly made.
pub fn begin_define<L: Ledger>(
    interp: BoxedInterp,
    natives: &Natives,
    block: &Text,
    moment: u64,
    steps: &mut Steps<L>,
) -> Run
    requires { IsNew (names_of natives.now) interp }
    ensures { DefineBegan (names_of natives.now) block.now moment result.next result.interp
        interp }
{
    Run::start_define(interp, natives, block, moment, steps)
}

/// Goes on with the answer to the question at which the run stands.
pub fn resume<L: Ledger>(run: &mut Run, natives: &Natives, answer: Answer, steps: &mut Steps<L>)
    requires { IsAtQuestion run.old }
    ensures { Resumed (names_of natives.now) answer run.new.next run.new.interp run.old.interp }
{
    run.resume(natives, answer, steps);
}

/// Goes on behind a response that was written whole.
pub fn go_behind<L: Ledger>(run: &mut Run, natives: &Natives, steps: &mut Steps<L>)
    requires { IsAtResponse run.old }
    ensures { WentBehind (names_of natives.now) run.new.next run.new.interp run.old.interp }
{
    run.written(natives, true, steps);
}
