//! A blueprint as an object that threads use by turns.

use crate::blueprint::Blueprint;
use crate::reply::{BlueCall, BlueReply};
use turn_cell::Obj;

impl Obj for Blueprint {
    ghost use Rattle.std.specs.Prelude.{[]};
    ghost use Rattle.blueprint.specs.States.{fresh, Allowed};
    ghost use Rattle.blueprint.specs.Objects.{BlueprintSteps, Reaches};
    ghost use Rattle.blueprint.specs.Order.{fresh_allowed, reaches_self, reaches_later, step_reaches};

    type Call = BlueCall;

    type Reply = BlueReply;

    ghost allowed = { Allowed };

    ghost reaches = { Reaches };

    ghost step = { BlueprintSteps };

    ghost sample = { fresh [] };

    fn shown(&self) {
        self.epoch();
    }

    fn act(&mut self, call: BlueCall) -> BlueReply {
        match call {
            BlueCall::Look(epoch) => BlueReply::Look(self.look(epoch)),
            BlueCall::Publish(defs) => BlueReply::Published(self.publish(defs)),
            BlueCall::Save(script) => BlueReply::Published(self.save(&script)),
        }
    }

    ghost sample_allowed = { fresh_allowed [] };

    ghost reaches_self = { reaches_self };

    ghost reaches_later = { reaches_later };

    ghost step_reaches = { step_reaches };
}
