//! All that a shard keeps, one after another: its runs by their places, and what waits.

ghost use Rattle.std.specs.Prelude.{◌≡◌, ◌<◌, IfNone, IfSome, length, option_copied, slice_get};
ghost use Rattle.service_model.specs.RunState.{no_run};
ghost use Rattle.shard_issued.specs.Outstanding.{IsCaughtUp};
ghost use Rattle.shard_store.specs.ShardView.{run_in};
ghost use Rattle.transfer.specs.Outboxes.{waiting_to};

use crate::store::Store;
use mutable_state_keeper::{KeepsRun, Run};
use service_model_types::content::Dispatch;
use service_model_types::transfer::TransferContent;

impl<T: KeepsRun> Store<T> {
    /// The run at a place, or none where it was deleted.
    pub fn run_at(&self, index: usize) -> Option<&Run<T>>
        requires { index < length self.now.runs }
        ensures run { IfSome result (λ run. run.now.state ≡ run_in self.now index) }
        ensures none { IfNone result (run_in self.now index ≡ no_run) }
    {
        let place = &self.runs[index];
        place.run()
    }

    /// The dispatch at a place among those that wait.
    pub fn dispatch_at(&self, index: usize) -> Option<&Dispatch>
        requires { IsCaughtUp self.now.changed }
        ensures { option_copied result ≡ slice_get self.now.waiting.items index }
    {
        self.dispatches.waiting(index)
    }

    /// The transfer at a place among those to a shard that are not acknowledged.
    pub fn transfer_at(&self, to: u16, index: usize) -> Option<&TransferContent>
        requires caught_up { IsCaughtUp self.now.changed }
        requires there { to < self.now.setup.shards }
        ensures { option_copied result ≡ slice_get (waiting_to self.now.outgoing to).items index }
    {
        self.transfers.waiting(to, index)
    }

    /// How many transfers a shard acknowledged.
    pub fn acknowledged_by(&self, to: u16) -> u64
        requires caught_up { IsCaughtUp self.now.changed }
        requires there { to < self.now.setup.shards }
        ensures { result ≡ (waiting_to self.now.outgoing to).counted }
    {
        self.transfers.acknowledged(to)
    }

    /// How many transfers were accepted from each shard, by its number. There is a count for each shard,
    /// and a list of what waits for it.
    pub fn accepted(&self) -> &[u64]
        requires { IsCaughtUp self.now.changed }
        ensures value { result.now ≡ self.now.accepted }
        ensures accepted { length self.now.accepted ≡ self.now.setup.shards }
        ensures outgoing { length self.now.outgoing ≡ self.now.setup.shards }
    {
        self.transfers.accepted()
    }
}
