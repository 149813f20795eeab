//! The shard as an object of the gate.

ghost use Rattle.service_model.specs.Growth.{KeepsHistories};
ghost use Rattle.service_model.specs.GrowthLaws.{keeps-on, keeps-same};
ghost use Rattle.service_model.specs.Service.{after, answer};
ghost use Rattle.shard_gate.specs.Grounding.{grounds};
ghost use Rattle.shard_gate.specs.GroundsOn.{grounds-on};
ghost use Rattle.shard.specs.Standing.{StandsFor, IsReady, opened};

use crate::prepare::prepare;
use crate::shard::Shard;
use gate::{KeepsRecord, Object};
use mutable_state_keeper::KeepsRun;
use service_model_types::answer::Reply;
use service_model_types::content::Content;
use service_model_types::request::Request;
use shard_store::Plan;
use std::alloc::AllocError;

impl<T: KeepsRun> Object for Shard<T> {
    ghost use Rattle.std.specs.Prelude.{true};

    type Request = Request;

    type Reply = Reply;

    type Plan = Plan<T>;

    type Content = Content;

    ghost opening = { opened };

    ghost stands = { StandsFor };

    ghost answer = { answer };

    ghost after = { after };

    ghost keeps = { KeepsHistories };

    ghost keeps_same = { keeps-same };

    ghost keeps_on = { keeps-on };

    ghost grounds = { grounds };

    ghost grounds_on = { grounds-on };

    ghost whole = { true };

    ghost ready = { IsReady };

    fn prepare(&mut self, request: &Request) -> Result<Plan<T>, AllocError> {
        prepare(&mut self.store, request)
    }

    fn commit(&mut self, plan: Plan<T>) -> Reply {
        self.store.commit(plan)
    }
}

impl<T: KeepsRun> KeepsRecord for Shard<T> {
    ghost use Rattle.std.proofs.Common.{refl};

    ghost is_whole = { refl };
}
