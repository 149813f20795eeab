//! A shard, and its two halves of a step.

ghost use Rattle.std.specs.Prelude.{◌≡◌, [], IfOk, replicate};
ghost use Rattle.service_model.specs.Service.{opening};
ghost use Rattle.shard.specs.Standing.{StandsFor};
ghost use Rattle.shard_store.specs.ShardView.{IsSetup, state};
ghost use Rattle.transfer.specs.Logs.{none_waits};

use mutable_state_keeper::KeepsRun;
use service_model_types::content::Setup;
use shard_store::Store;
use std::alloc::{AllocError, Global};
use std::marker::Model;

/// A shard of a workflow service, whose runs are kept by `T`. What it keeps lies elsewhere, since
/// each step takes the shard out of its slot and puts it back.
pub struct Shard<T: KeepsRun> {
    pub(crate) store: Box<Store<T>>,
}

impl<T: KeepsRun> Drop for Shard<T> {
    fn drop(self) {
        let Shard { store: _ } = self;
    }
}

impl<T: KeepsRun> Model for Shard<T> {
    ghost use Rattle.shard_store.specs.ShardView.{ShardView};

    ghost Value = { ShardView };

    ghost view = { λ a. a.store.value };
}

impl<T: KeepsRun> Shard<T> {
    /// A shard without runs.
    pub fn new(alloc: Global, setup: Setup) -> Result<Shard<T>, AllocError>
        requires { IsSetup setup }
        ensures state { IfOk result (λ shard. state shard ≡ record {
          setup = setup;
          runs = [];
          last = 0;
          waiting = none_waits;
          outgoing = replicate setup.shards none_waits;
          accepted = replicate setup.shards 0;
        }) }

        // It stands for the content that every shard opens with.
        ensures stands { IfOk result (λ shard. StandsFor shard (opening setup)) }
    {
        let store = Store::new(alloc, setup)?;
        Ok(Shard {
            store: Box::new(alloc, store)?,
        })
    }

    /// A shard that goes on from what was kept.
    ///
    /// # Errors
    /// Where memory was refused.
    pub fn from_store(alloc: Global, store: Store<T>) -> Result<Shard<T>, AllocError>
        ensures { IfOk result (λ shard. shard ≡ store) }
    {
        Ok(Shard {
            store: Box::new(alloc, store)?,
        })
    }

    /// What it keeps.
    pub fn into_store(self) -> Box<Store<T>>
        ensures { result.value ≡ self }
    {
        let Shard { store } = self;
        store
    }
}
