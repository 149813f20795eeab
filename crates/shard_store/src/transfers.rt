//! The transfers that a shard issued to others, and those that it accepted from them.

ghost use Rattle.std.specs.Prelude.{◌≡◌, ◌+◌, ◌<◌, ◌^◌, None, IfSome, OnOk, length, option_map, slice_get};
ghost use Rattle.service_model.specs.Counts.{acknowledgement_of};
ghost use Rattle.service_model.specs.Deliveries.{accepted_from, delivery_of};
ghost use Rattle.service_model_types.specs.declared.transfer.Delivery.TheVariants.{Accepted as IsNext};
ghost use Rattle.transfer.specs.Logs.{count_issued};
ghost use Rattle.transfer.specs.Outboxes.{waiting_to};
ghost use Rattle.shard_issued.specs.Outstanding.{IsCaughtUp};
ghost use Rattle.shard_store.specs.ShardView.{state};

use crate::store::Store;
use mutable_state_keeper::KeepsRun;
use service_model_types::answer::Acknowledged;
use service_model_types::transfer::{Delivery, Transfer, TransferContent};
use std::alloc::AllocError;

impl<T: KeepsRun> Store<T> {
    /// Issues the transfers of the last step.
    pub(crate) fn catch_up_sent(&mut self) -> Result<(), AllocError>
        requires grown { self.old.changed.grown ≡ None }
        requires made { self.old.changed.made ≡ None }
        ensures same { state self.new ≡ state self.old }
        ensures runs { self.new.runs ≡ self.old.runs }
        ensures caught_up { OnOk result (IsCaughtUp self.new.changed) }
    {
        self.catch_up_unsent()?;
        self.transfers.send_answer()?;
        Ok(())
    }

    /// Issues those of the run to which it added.
    fn catch_up_unsent(&mut self) -> Result<(), AllocError>
        ensures same { state self.new ≡ state self.old }
        ensures runs { self.new.runs ≡ self.old.runs }
        ensures grown { self.new.changed.grown ≡ self.old.changed.grown }
        ensures made { self.new.changed.made ≡ self.old.changed.made }
        ensures caught_up { OnOk result (self.new.changed.unsent ≡ None) }
    {
        let Some(unsent) = self.transfers.unsent() else {
            return Ok(());
        };
        let id = self.run_id(unsent.index);
        let place = &self.runs[unsent.index];
        let sent = place.transfers(self.alloc, &self.setup, id, unsent.shown)?;
        self.transfers.send(sent)?;
        Ok(())
    }

    /// The first transfer to a shard that is not acknowledged, with its number.
    pub fn next_transfer(&self, to: u16) -> Option<(u64, &TransferContent)>
        requires caught_up { IsCaughtUp self.now.changed }
        requires there { to < self.now.setup.shards }
        ensures content { option_map (λ f. f.1.now) result
            ≡ slice_get (waiting_to self.now.outgoing to).items 0 }
        ensures number { IfSome result (λ f.
            f.0 ≡ (waiting_to self.now.outgoing to).counted + 1) }
    {
        self.transfers.first_to(to)
    }

    /// How many transfers were issued to a shard.
    pub fn issued_to(&self, to: u16) -> u64
        requires caught_up { IsCaughtUp self.now.changed }
        requires there { to < self.now.setup.shards }
        ensures { result ≡ count_issued (waiting_to self.now.outgoing to) }
    {
        self.transfers.issued(to)
    }

    /// What an acknowledgement of this number by a shard would be.
    pub fn judge_acknowledgement(&self, to: u16, number: u64) -> Acknowledged
        requires caught_up { IsCaughtUp self.now.changed }
        requires there { to < self.now.setup.shards }
        ensures { let w = waiting_to self.now.outgoing to in
            result ≡ acknowledgement_of (count_issued w) w.counted number }
    {
        self.transfers.judge_acknowledgement(to, number)
    }

    /// What the shard would say about a transfer.
    pub fn judge_delivery(&self, transfer: &Transfer) -> Delivery
        requires { transfer.now.from < self.now.setup.shards }
        ensures value { result
            ≡ delivery_of (accepted_from self.now.accepted transfer.now.from) transfer.now.number }
        ensures countable { result ≡ IsNext
            → accepted_from self.now.accepted transfer.now.from + 1 < 2 ^ 64 }
    {
        self.transfers.judge_delivery(transfer)
    }
}
