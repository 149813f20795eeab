//! What can be asked of a shard.

ghost use Rattle.std.specs.Prelude.{◌≡◌, ◌<◌, ◌^◌, IfOk};
ghost use Rattle.service_model.specs.Growth.{KeepsHistories};
ghost use Rattle.service_model.specs.Service.{after, answer, opening};
ghost use Rattle.service_model.specs.Waiting.{waiting, waiting_counted};
ghost use Rattle.shard_gate.specs.Grounding.{grounds};

use gate::{KeepsRecord, Object};
use service_model_types::answer::Reply;
use service_model_types::content::{Content, Dispatch, Setup};
use service_model_types::request::Request;
use std::alloc::{AllocError, Global};

/// An object of the gate that answers as the sequential service does, and changes as it does.
pub trait ShardObject: Object<Request = Request, Reply = Reply, Content = Content> {
    ghost use Rattle.std.specs.Prelude.{List, ℕ};
    ghost use Rattle.service_model_types.specs.declared.content.Content.{Content};
    ghost use Rattle.service_model_types.specs.declared.request.Request.{Request};

    /// A shard without runs.
    ///
    /// # Errors
    /// Where memory was refused.
    fn open(alloc: Global, setup: Setup) -> Result<Self, AllocError>
        requires service { setup.service < 2 ^ 48 }
        requires shard { setup.shard < 2 ^ 12 }
        requires some { 0 < setup.shards }
        ensures opened { IfOk result (λ shard. Self.opening shard ≡ opening setup) }
        ensures stands { IfOk result (λ shard. Self.stands shard (opening setup)) };

    /// The tasks that wait to be taken, in the order of the runs and of the events that scheduled them,
    /// whether or not their dispatches were counted.
    ///
    /// # Errors
    /// Where memory was refused.
    fn waiting(&self, alloc: Global) -> Result<Vec<Dispatch>, AllocError>
        ensures { IfOk result (λ tasks.
            (c : Content) → Self.stands self.now c → tasks.items ≡ waiting c) };

    /// Those whose dispatches were counted: the hints of the others come by dispatch turns. The shard
    /// stands for the same contents, whatever the result.
    ///
    /// # Errors
    /// Where memory was refused.
    fn counted_tasks(&mut self, alloc: Global) -> Result<Vec<Dispatch>, AllocError>
        ensures same { (c : Content) → Self.stands self.old c → Self.stands self.new c }
        ensures same_opening { Self.opening self.new ≡ Self.opening self.old }
        ensures tasks { IfOk result (λ tasks.
            (c : Content) → Self.stands self.old c → tasks.items ≡ waiting_counted c) };

    // Its replies are the sequential service's,
    ghost answers: { Self.answer ≡ answer };

    // its contents change as that one's do,
    ghost goes_on: { Self.after ≡ after };

    // histories only grow,
    ghost keeps_histories: { (c d : Content) → Self.keeps c d → KeepsHistories c d };

    // and a request needs in other shards what the sequential service's needs, and no more.
    ghost needs: { (contents : List Content) (s : ℕ) (q : Request)
        → grounds contents s q → Self.grounds contents s q };

    ghost needs_all: { (contents : List Content) (s : ℕ) (q : Request)
        → Self.grounds contents s q → grounds contents s q };
}

/// A shard whose record stays in memory whole.
pub trait KeepsShard: ShardObject + KeepsRecord {}
