//! Shards of which snapshots are made, and that are restored from them.

ghost use Rattle.std.specs.Prelude.{◌≡◌, ◌<◌, ◌^◌, IfErr, IfOk, string_bytes};
ghost use Rattle.checkpoints.specs.Checkpoints.{AreCounted, Keeps};
ghost use Rattle.checkpoints.specs.Faults.{IsLoadFault};
ghost use Rattle.checkpoints.specs.Queues.{HasItsQueues};
ghost use Rattle.shard_snapshot.specs.Texts.{IsSnapshot};
ghost use Rattle.shard_store.specs.ShardView.{IsSetup};

use crate::fault::LoadFault;
use crate::queues::knows_all;
use checkpoint_history::{TransferCounts, counts_are_those_of_the_contents, transfer_counts};
use mutable_state_keeper::TellsRun;
use service_model_types::content::Setup;
use shard::Shard;
use shard_gate::KeepsShard;
use shard_snapshot::restore_text;
use shard_store::Store;
use snapshot_writing::{SnapshotFault, snapshot};
use std::alloc::Global;

/// A shard of which snapshots are made, and that is restored from them.
pub trait Checkpointed: KeepsShard {
    /// The shard that the text of a snapshot restores, and how many transfers it counts.
    ///
    /// # Errors
    /// `Damaged` with the first damaged line; `Queue` where it names a task queue that isn't the
    /// service's; `Memory`.
    fn restore(
        alloc: Global,
        setup: Setup,
        text: &[u8],
    ) -> Result<(Self, TransferCounts), LoadFault>
        requires service { setup.service < 2 ^ 48 }
        requires shard { setup.shard < 2 ^ 12 }
        requires some { 0 < setup.shards }
        ensures keeps { IfOk result (λ found. Keeps Self.stands setup text.now found.0) }
        ensures counts { IfOk result (λ found. AreCounted Self.stands found.0 found.1) }
        ensures queues { IfOk result (λ found. HasItsQueues Self.stands found.0) }
        ensures err { IfErr result (IsLoadFault setup text.now) };

    /// The text of its snapshot, which spells a content for which the shard stands.
    ///
    /// # Errors
    /// Where memory was refused, or where the text that was made would not restore the shard.
    fn snapshot(self, alloc: Global) -> Result<String, SnapshotFault>
        ensures { IfOk result (λ text. (setup : Setup)
            × Keeps Self.stands setup (string_bytes text) self) };
}

impl<T: TellsRun> Checkpointed for Shard<T> {
    fn restore(
        alloc: Global,
        setup: Setup,
        text: &[u8],
    ) -> Result<(Shard<T>, TransferCounts), LoadFault> {
        counts_are_those_of_the_contents();
        let mut store: Store<T> = restore_text(alloc, setup, text)?;
        if !knows_all(alloc, &mut store)? {
            return Err(LoadFault::Queue);
        }
        let counts = transfer_counts(alloc, &mut store)?;
        Ok((Shard::from_store(alloc, store)?, counts))
    }

    fn snapshot(self, alloc: Global) -> Result<String, SnapshotFault> {
        let mut store = self.into_store();
        snapshot(alloc, &mut store)
    }
}
