//! How what the shards' records grew by is handed out, and when that is one moment of the service.

ghost use Rattle.std.specs.Prelude.{◌≡◌, ◌≢◌, ◌<◌, ℕ, false, IfOk, IfErr, IsTrue};
ghost use Rattle.service_model.specs.Service.{after};
ghost use Rattle.gate.specs.Moments.{IsMoment, IsPaired, Surveyed, steps_seen};
ghost use Rattle.gate.specs.Passes.{number, IsHandedOut, IsHandedOutAt, Refuses, Waited};
ghost use Rattle.shard_gate.specs.Grounding.{grounds};

use crate::service::{Pass, Service};
use gate::Refused;
use service_model_types::request::Request;
use shard_gate::{HandsOut, ShardObject, Tail};
use std::alloc::{AllocError, Global};
use std::sync::Wait;

impl<S: ShardObject + HandsOut> Service<S> {
    ghost use Rattle.service.specs.Services.{IsPassOf, hints_by, known_by, settings_of};

    /// Hands out what a shard's record has grown by since it was last handed out, if no other pass is
    /// there, with its memory: no request is copied. The pass has then seen the whole record. It is no
    /// step, and it never waits.
    ///
    /// # Errors
    /// `Busy` where another pass was on that very shard, which with one pass is never; `NoMemory`
    /// where memory was refused. Nothing is handed out then.
    pub fn try_hand_out(
        &self,
        alloc: Global,
        pass: &mut Pass<S>,
        shard: usize,
    ) -> Result<Tail<Request>, Refused>
        requires own { IsPassOf pass.old self.now }
        requires shard { shard < (settings_of self.now).shards }
        ensures own { IsPassOf pass.new self.now }
        ensures named { number (known_by pass.new) ≡ number (known_by pass.old) }
        ensures hints { hints_by pass.new ≡ hints_by pass.old }
        ensures ok { IfOk result (λ t. IsHandedOut
            (known_by pass.old) (known_by pass.new) shard t.first t.entries t.tickets.items) }
        ensures err { IfErr result
            (λ e. Refuses e (known_by pass.old) (known_by pass.new) shard) }
    {
        self.gate.try_hand_out(alloc, &mut pass.inner, shard)
    }

    /// Hands out as `try_hand_out` does, trying again while another pass is there. It may wait for ever.
    ///
    /// # Errors
    /// Where memory was refused. Nothing is handed out then.
    pub fn hand_out<R: Wait>(
        &self,
        rt: &R,
        alloc: Global,
        pass: &mut Pass<S>,
        shard: usize,
    ) -> Result<Tail<Request>, AllocError>
        requires own { IsPassOf pass.old self.now }
        requires shard { shard < (settings_of self.now).shards }
        ensures own { IsPassOf pass.new self.now }
        ensures named { number (known_by pass.new) ≡ number (known_by pass.old) }
        ensures hints { hints_by pass.new ≡ hints_by pass.old }
        ensures ok { IfOk result (λ t. IsHandedOutAt
            (known_by pass.old) (known_by pass.new) shard t.first t.entries t.tickets.items) }
        ensures err { IfErr result
            (λ _. Waited (known_by pass.old) (known_by pass.new) shard) }
    {
        self.gate.hand_out(rt, alloc, &mut pass.inner, shard)
    }
}

impl<S: ShardObject> Service<S> {
    ghost use Rattle.service.specs.Services.{IsPassOf, hints_by, known_by};

    /// How many steps were made on all shards since the opening. All of them stand in one history, in
    /// which what comes before each delivery issued its transfer, and what comes before each
    /// acknowledgement accepted it. It takes no memory, and never waits.
    pub fn survey(&self, pass: &mut Pass<S>) -> u64
        requires { IsPassOf pass.old self.now }
        ensures own { IsPassOf pass.new self.now }
        ensures same { known_by pass.new ≡ known_by pass.old }
        ensures hints { hints_by pass.new ≡ hints_by pass.old }
        ensures run { Surveyed grounds after
            (known_by pass.old).origin (known_by pass.old) result }
    {
        self.gate.survey(&mut pass.inner)
    }

    /// Whether a pass that has seen so many steps has seen all that were made. Then what it has seen is
    /// one moment of the service: the records of all shards as they were together, and nothing more.
    pub fn has_seen_all(&self, pass: &mut Pass<S>, steps: u64) -> bool
        requires own { IsPassOf pass.old self.now }
        requires paired { IsPaired (known_by pass.old) }
        requires steps { steps_seen (known_by pass.old) ≡ steps }
        ensures own { IsPassOf pass.new self.now }
        ensures same { known_by pass.new ≡ known_by pass.old }
        ensures hints { hints_by pass.new ≡ hints_by pass.old }
        ensures moment { IsTrue result → IsMoment grounds after (known_by pass.old) }
        ensures unseen { result ≡ false → (count : ℕ)
            × Surveyed grounds after (known_by pass.old).origin (known_by pass.old) count
            × (count ≢ steps) }
    {
        self.gate.has_seen_all(&mut pass.inner, steps)
    }
}
