//! What the lanes' calls go through.

ghost use Rattle.std.specs.Prelude.{IfOk};
ghost use Rattle.service.specs.Services.{IsPassOf};
ghost use Rattle.lanes.specs.Meetings.{PassServed, PassesMet};

use service::{Pass, Service, ShardObject};
use service_model_types::answer::Reply;
use service_model_types::call::Call;
use std::alloc::AllocError;
use std::sync::Wait;

/// What serves the calls of passes that are its own.
pub trait Door<S: ShardObject> {
    ghost use Rattle.service.specs.ServiceViews.{Pass as PassView};
    ghost use Rattle.service_model_types.specs.declared.call.Call.{Call};
    ghost use Rattle.service_model_types.specs.Replies.{Reply};

    // The pass is one of this door's.
    ghost admits: { Self → PassView → Type 0 };

    // A call of a pass that knew this, and then knew that, was answered so.
    ghost serves: { Self → PassView → PassView → Call → Reply → Type 0 };

    // Two passes as they were, and as they are after they met.
    ghost meets: { Self → PassView → PassView → PassView → PassView → Type 0 };

    /// Serves a call. It may wait for ever.
    fn call<R: Wait>(&self, rt: &R, pass: &mut Pass<S>, call: Call) -> Result<Reply, AllocError>
        requires { admits self.now pass.old }
        ensures own { admits self.now pass.new }
        ensures served { IfOk result (λ r. serves self.now pass.old pass.new call r) };

    /// Two passes tell each other what they have seen.
    fn meet(&self, one: &mut Pass<S>, other: &mut Pass<S>)
        requires one { admits self.now one.old }
        requires other { admits self.now other.old }
        ensures one { admits self.now one.new }
        ensures other { admits self.now other.new }
        ensures met { meets self.now one.old other.old one.new other.new };
}

impl<S: ShardObject> Door<S> for Service<S> {
    ghost use Rattle.service.specs.Services.{IsPassOf};
    ghost use Rattle.lanes.specs.Meetings.{PassServed, PassesMet};

    ghost admits = { λ x p. IsPassOf p x };

    ghost serves = { λ x p p' c r. PassServed x p p' c r };

    ghost meets = { λ x p q p' q'. PassesMet x p q p' q' };

    fn call<R: Wait>(&self, rt: &R, pass: &mut Pass<S>, call: Call) -> Result<Reply, AllocError> {
        self.serve_call(rt, pass, call)
    }

    fn meet(&self, one: &mut Pass<S>, other: &mut Pass<S>) {
        Service::meet(self, one, other);
    }
}
