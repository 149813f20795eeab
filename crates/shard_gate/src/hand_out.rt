//! How what the shards' records grew by is handed out, and when that is one moment of all shards.

ghost use Rattle.std.specs.Prelude.{◌≡◌, ◌≢◌, ◌<◌, ℕ, false, IfOk, IfErr, IsTrue};
ghost use Rattle.service_model.specs.Service.{after};
ghost use Rattle.gate.specs.Moments.{IsMoment, IsPaired, Surveyed, steps_seen};
ghost use Rattle.gate.specs.Passes.{number, IsHandedOut, IsHandedOutAt, Refuses, Waited};
ghost use Rattle.shard_gate.specs.Grounding.{grounds};

use crate::shard_gate::{ShardGate, ShardPass};
use crate::shard_object::ShardObject;
use gate::{HandsOut, Refused, Tail};
use service_model_types::request::Request;
use std::alloc::{AllocError, Global};
use std::sync::Wait;

impl<S: ShardObject + HandsOut> ShardGate<S> {
    ghost use Rattle.shard_gate.specs.GateViews.{IsPassOf, slots};

    /// Hands out what a shard's record has grown by since it was last handed out, if no other pass is
    /// there, with its memory: no request is copied. The pass has then seen the whole record. It is no
    /// step, and it never waits.
    ///
    /// # Errors
    /// `Busy` where another pass was on that very shard, which with one pass is never; `NoMemory`
    /// where memory was refused. Nothing is handed out then.
    pub fn try_hand_out(
        &self,
        alloc: Global,
        pass: &mut ShardPass<S>,
        slot: usize,
    ) -> Result<Tail<Request>, Refused>
        requires own { IsPassOf pass.old self.now }
        requires slot { slot < slots self.now }
        ensures own { IsPassOf pass.new self.now }
        ensures named { number pass.new.known ≡ number pass.old.known }
        ensures ok { IfOk result (λ t. IsHandedOut
            pass.old.known pass.new.known slot t.first t.entries t.tickets.items) }
        ensures err { IfErr result (λ e. Refuses e pass.old.known pass.new.known slot) }
    {
        self.gate.try_hand_out(alloc, &mut pass.inner, slot)
    }

    /// Hands out as `try_hand_out` does, trying again while another pass is there. It may wait for ever.
    ///
    /// # Errors
    /// Where memory was refused. Nothing is handed out then.
    pub fn hand_out<R: Wait>(
        &self,
        rt: &R,
        alloc: Global,
        pass: &mut ShardPass<S>,
        slot: usize,
    ) -> Result<Tail<Request>, AllocError>
        requires own { IsPassOf pass.old self.now }
        requires slot { slot < slots self.now }
        ensures own { IsPassOf pass.new self.now }
        ensures named { number pass.new.known ≡ number pass.old.known }
        ensures ok { IfOk result (λ t. IsHandedOutAt
            pass.old.known pass.new.known slot t.first t.entries t.tickets.items) }
        ensures err { IfErr result (λ _. Waited pass.old.known pass.new.known slot) }
    {
        self.gate.hand_out(rt, alloc, &mut pass.inner, slot)
    }
}

impl<S: ShardObject> ShardGate<S> {
    ghost use Rattle.shard_gate.specs.GateViews.{IsPassOf};

    /// How many steps were made on all shards since the opening. All of them stand in one history, and
    /// what comes before each grounds it. It takes no memory, and never waits.
    pub fn survey(&self, pass: &mut ShardPass<S>) -> u64
        requires { IsPassOf pass.old self.now }
        ensures own { IsPassOf pass.new self.now }
        ensures same { pass.new.known ≡ pass.old.known }
        ensures run { Surveyed grounds after pass.old.known.origin pass.old.known result }
    {
        self.gate.survey(&mut pass.inner)
    }

    /// Whether a pass that has seen so many steps has seen all that were made. Then what it has seen is
    /// one moment of all shards: a history in which what comes before each step grounds it, and nothing
    /// more.
    pub fn has_seen_all(&self, pass: &mut ShardPass<S>, steps: u64) -> bool
        requires own { IsPassOf pass.old self.now }
        requires paired { IsPaired pass.old.known }
        requires steps { steps_seen pass.old.known ≡ steps }
        ensures own { IsPassOf pass.new self.now }
        ensures same { pass.new.known ≡ pass.old.known }
        ensures moment { IsTrue result → IsMoment grounds after pass.old.known }
        ensures unseen { result ≡ false → (count : ℕ)
            × Surveyed grounds after pass.old.known.origin pass.old.known count
            × (count ≢ steps) }
    {
        self.gate.has_seen_all(&mut pass.inner, steps)
    }
}
