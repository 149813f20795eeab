//! A shard that goes on from a content for which it stands.
//!
//! A shard keeps less than a content has, so it stands for many. Which of them a shard that was made
//! from what was kept of an earlier one goes on from, is a ghost that a call picks ([`Starts`]). So what
//! is proved of a function over all `H: Starts` holds of each content for which the shard stands, and no
//! two contents have to be shown alike.

ghost use Rattle.std.specs.Prelude.{◌≡◌, Some};

use crate::shard_object::{KeepsShard, ShardObject};
use gate::{HandsOut, KeepsRecord, Object};
use service_model_types::answer::Reply;
use service_model_types::content::{Content, Dispatch, Setup};
use service_model_types::request::Request;
use std::alloc::{AllocError, Global};
use std::marker::{Brand, PhantomData};

/// The content at which the shard in each slot starts, as a call picks it. It exists for the proofs
/// alone.
pub trait Starts {
    ghost use Rattle.std.specs.Prelude.{ℕ};
    ghost use Rattle.service_model_types.specs.declared.content.Content.{Content};

    ghost start: { ℕ → Content };
}

impl Starts for Brand {
    ghost use Rattle.shard_gate.specs.Starts.{some_content};

    ghost start = { λ _. some_content };
}

/// A shard that is resumed in a slot: it starts at the content that `H` has for that slot. One that is
/// opened without runs starts at its own.
pub struct Resumed<S, H> {
    shard: S,
    slot: Option<usize>,
    starts: PhantomData<H>,
}

impl<S: Drop, H> Drop for Resumed<S, H> {
    fn drop(self) {
        let Resumed {
            shard: _,
            slot: _,
            starts: _,
        } = self;
    }
}

impl<S: ShardObject, H: Starts> Resumed<S, H> {
    /// The shard as that of a slot.
    pub fn new(shard: S, slot: usize) -> Resumed<S, H>
        ensures shard { result.shard ≡ shard }
        ensures slot { result.slot ≡ Some slot }
    {
        Resumed {
            shard,
            slot: Some(slot),
            starts: PhantomData,
        }
    }

    /// The shard alone.
    pub fn into_shard(self) -> S
        ensures { result ≡ self.shard }
    {
        let Resumed {
            shard,
            slot: _,
            starts: _,
        } = self;
        shard
    }
}

impl<S: ShardObject, H: Starts> Object for Resumed<S, H> {
    ghost use Rattle.shard_gate.specs.Starts.{start_at};

    type Request = Request;

    type Reply = Reply;

    type Plan = S::Plan;

    type Content = Content;

    ghost opening = { λ x. start_at H.start (S.opening x.shard) x.slot };

    ghost stands = { λ x. S.stands x.shard };

    ghost answer = { S.answer };

    ghost after = { S.after };

    ghost keeps = { S.keeps };

    ghost keeps_same = { S.keeps_same };

    ghost keeps_on = { S.keeps_on };

    ghost grounds = { S.grounds };

    ghost grounds_on = { S.grounds_on };

    ghost whole = { S.whole };

    ghost ready = { λ x. S.ready x.shard };

    fn prepare(&mut self, request: &Request) -> Result<S::Plan, AllocError> {
        self.shard.prepare(request)
    }

    fn commit(&mut self, plan: S::Plan) -> Reply {
        self.shard.commit(plan)
    }
}

impl<S: ShardObject, H: Starts> ShardObject for Resumed<S, H> {
    ghost answers = { S.answers };

    ghost goes_on = { S.goes_on };

    ghost keeps_histories = { S.keeps_histories };

    ghost needs = { S.needs };

    ghost needs_all = { S.needs_all };

    fn open(alloc: Global, setup: Setup) -> Result<Resumed<S, H>, AllocError> {
        let shard = S::open(alloc, setup)?;
        Ok(Resumed {
            shard,
            slot: None,
            starts: PhantomData,
        })
    }

    fn waiting(&self, alloc: Global) -> Result<Vec<Dispatch>, AllocError> {
        self.shard.waiting(alloc)
    }

    fn counted_tasks(&mut self, alloc: Global) -> Result<Vec<Dispatch>, AllocError> {
        self.shard.counted_tasks(alloc)
    }
}

impl<S: KeepsShard, H: Starts> KeepsRecord for Resumed<S, H> {
    ghost is_whole = { S.is_whole };
}

impl<S: KeepsShard, H: Starts> KeepsShard for Resumed<S, H> {}

impl<S: ShardObject + HandsOut, H: Starts> HandsOut for Resumed<S, H> {
    ghost is_handed_out = { S.is_handed_out };
}
