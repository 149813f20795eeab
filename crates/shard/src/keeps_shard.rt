//! The shard as the service asks for one.

ghost use Rattle.service_model.specs.Growth.{KeepsHistories};
ghost use Rattle.shard.specs.Standing.{StandsFor};

use crate::shard::Shard;
use mutable_state_keeper::KeepsRun;
use service_model_types::content::{Dispatch, Setup};
use shard_gate::{KeepsShard, ShardObject};
use std::alloc::{AllocError, Global};

impl<T: KeepsRun> ShardObject for Shard<T> {
    ghost use Rattle.std.proofs.Common.{refl};

    ghost answers = { refl };

    ghost goes_on = { refl };

    ghost keeps_histories = { λ _ _ kept. kept };

    ghost needs = { λ _ _ _ needed. needed };

    ghost needs_all = { λ _ _ _ needed. needed };

    fn open(alloc: Global, setup: Setup) -> Result<Shard<T>, AllocError> {
        Shard::new(alloc, setup)
    }

    fn waiting(&self, alloc: Global) -> Result<Vec<Dispatch>, AllocError> {
        self.store.waiting_tasks(alloc)
    }

    fn counted_tasks(&mut self, alloc: Global) -> Result<Vec<Dispatch>, AllocError> {
        self.store.counted_tasks(alloc)
    }
}

impl<T: KeepsRun> KeepsShard for Shard<T> {}
