//! A pass that stays on a shard.

ghost use Rattle.std.specs.Prelude.{◌≡◌, ◌<◌, IfOk, IfErr};
ghost use Rattle.service_model.specs.Growth.{KeepsHistories};
ghost use Rattle.service_model.specs.Service.{after, answer};
ghost use Rattle.gate.specs.Passes.{Refuses, Stamped, Stepped};

use crate::shard_gate::{ShardGate, ShardPass};
use crate::shard_object::ShardObject;
use gate::{Gate, Refused};
use service_model_types::answer::Reply;
use service_model_types::request::Request;
use std::marker::Model;

/// A pass that is on a shard, with its request served. It can't be dropped: `leave` spends it.
pub struct HeldShard<'a, S: ShardObject> {
    inner: gate::Held<'a, S>,
    gate: &'a Gate<S>,
}

impl<'a, S: ShardObject> Model for HeldShard<'a, S> {
    ghost use Rattle.gate.specs.HeldSlots.{IsHeldBy as IsHeldByGate, leaving, promised};
    ghost use Rattle.shard_gate.specs.GateViews.{HeldView};

    ghost Value = { HeldView };

    ghost view = { λ h. record {
      table = h.inner.seat.table_id;
      origin = h.inner.seat.me.0.origin;
      leaving = leaving h.inner;
      promised = promised h.inner;
    } };

    ghost invariant = { λ h. IsHeldByGate S.opening h.inner h.gate.now };
}

impl<S: ShardObject> ShardGate<S> {
    ghost use Rattle.shard_gate.specs.GateViews.{IsHeldBy, IsPassOf, SeenGrounds, slots};

    /// Makes a step on a shard as `try_step` does, and stays there. What the pass will have seen and
    /// done, and the reply, are known from then on, and handed over by `leave`.
    ///
    /// # Errors
    /// Busy or no memory, as `try_step`. The pass and the request come back.
    pub fn try_enter(
        &self,
        pass: ShardPass<S>,
        slot: usize,
        request: Request,
    ) -> Result<HeldShard<'_, S>, (Refused, ShardPass<S>, Request)>
        requires own { IsPassOf pass self.now }
        requires slot { slot < slots self.now }
        requires grounds { SeenGrounds pass.known slot request }
        ensures own { IfOk result (λ h. IsHeldBy h self.entry.now) }
        ensures ticket { IfOk result (λ h. Stamped pass.known h.leaving slot) }
        ensures ok { IfOk result (λ h. Stepped
            after answer KeepsHistories pass.known h.leaving slot request h.promised) }
        ensures back { IfErr result (λ e. IsPassOf e.1 self.entry.now × (e.2 ≡ request)) }
        ensures err { IfErr result (λ e. Refuses e.0 pass.known e.1.known slot) }
    {
        match self.gate.try_enter(pass.into_inner(), slot, request) {
            Ok(inner) => Ok(HeldShard {
                inner,
                gate: &self.gate,
            }),
            Err((why, inner, request)) => Err((why, ShardPass { inner }, request)),
        }
    }
}

impl<S: ShardObject> HeldShard<'_, S> {
    ghost use Rattle.shard_gate.specs.GateViews.{GateView, IsHeldBy, IsPassOf};

    /// Leaves the shard, and hands the pass and the step's reply over. It takes no memory.
    pub fn leave(self) -> (ShardPass<S>, Reply)
        ensures own { (x : GateView) → IsHeldBy self.entry x → IsPassOf result.0 x }
        ensures seen { result.0.known ≡ self.entry.leaving }
        ensures reply { result.1 ≡ self.entry.promised }
    {
        let HeldShard { inner, gate: _ } = self;
        let (inner, reply) = inner.leave();
        (ShardPass { inner }, reply)
    }
}
