//! A pass that stays on the shard of the start that it made.

ghost use Rattle.std.specs.Prelude.{◌≡◌, IfOk, IfErr};
ghost use Rattle.gate.specs.Passes.{Refuses};
ghost use Rattle.service_model_types.specs.declared.request.Operation.TheVariants as to;
ghost use Rattle.service.specs.CallRequests.{ask};

use crate::calls::request;
use crate::route::shard_of_id;
use crate::service::{Pass, Service};
use gate::Refused;
use matching::QueuesPass;
use service_model_types::answer::Reply;
use service_model_types::request::{Operation, Request, Start};
use shard_gate::{HeldShard, ShardObject};
use std::marker::Model;
use wf_event::Boxed;
use wf_event_values::Moment;

/// A pass that keeps others from the shard where its start was served. It can't be dropped: `leave`
/// spends it.
pub struct Held<'a, S: ShardObject> {
    pub(crate) inner: HeldShard<'a, S>,
    pub(crate) hints: QueuesPass,
}

impl<'a, S: ShardObject> Model for Held<'a, S> {
    ghost use Rattle.service.specs.ServiceViews.{Held};

    ghost Value = { Held };

    ghost view = { λ h. record { inner = h.inner; hints = h.hints } };
}

impl<S: ShardObject> Service<S> {
    ghost use Rattle.service.specs.Services.{IsPassOf, hints_by, known_by, shard_of_request};
    ghost use Rattle.service.specs.HeldPasses.{IsHeldBy, Enters, hints_of};

    /// Starts a run of a workflow ID as `try_start` does, and stays on its shard. What the pass will
    /// have seen and done, and the reply, are known from then on, and handed over by `leave`.
    ///
    /// # Errors
    /// Those of [`Service::try_serve`], with the pass and the request.
    pub fn try_enter_start(
        &self,
        pass: Pass<S>,
        asked: Boxed<Start>,
        at: Moment,
    ) -> Result<Held<'_, S>, (Refused, Pass<S>, Request)>
        requires { IsPassOf pass self.now }
        ensures own { IfOk result (λ h. IsHeldBy h self.entry.now) }
        ensures ok { IfOk result (λ h. Enters self.entry.now pass h (ask at (to.Start asked))) }
        ensures back { IfErr result (λ e.
            IsPassOf e.1 self.entry.now × (e.2 ≡ ask at (to.Start asked))) }
        ensures err { IfErr result (λ e. Refuses
            e.0 (known_by pass) (known_by e.1)
            (shard_of_request self.entry.now (ask at (to.Start asked)))) }
        ensures hints { IfOk result (λ h. hints_of h ≡ hints_by pass) }
        ensures back_hints { IfErr result (λ e. hints_by e.1 ≡ hints_by pass) }
    {
        let slot = shard_of_id(&self.settings, &asked.get().workflow_id);
        let request = request(at, Operation::Start(asked));
        let (inner, hints) = pass.into_parts();
        match self.gate.try_enter(inner, slot, request) {
            Ok(inner) => Ok(Held { inner, hints }),
            Err((why, inner, request)) => Err((why, Pass { inner, hints }, request)),
        }
    }
}

impl<S: ShardObject> Held<'_, S> {
    ghost use Rattle.service.specs.Services.{IsPassOf, hints_by, known_by};
    ghost use Rattle.service.specs.HeldPasses.{IsHeldBy, hints_of, leaving, promised};
    ghost use Rattle.service.specs.ServiceViews.{Service as ServiceView};

    /// Leaves the shard, and hands the pass and the start's reply over. It takes no memory.
    pub fn leave(self) -> (Pass<S>, Reply)
        ensures own { (x : ServiceView) → IsHeldBy self.entry x → IsPassOf result.0 x }
        ensures seen { known_by result.0 ≡ leaving self.entry }
        ensures reply { result.1 ≡ promised self.entry }
        ensures hints { hints_by result.0 ≡ hints_of self.entry }
    {
        let Held { inner, hints } = self;
        let (inner, reply) = inner.leave();
        (Pass { inner, hints }, reply)
    }
}
