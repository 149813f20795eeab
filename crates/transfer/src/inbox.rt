//! The transfers that a shard accepted.
//!
//! Rules: X7.

ghost use Rattle.std.specs.Prelude.{◌≡◌, ◌+◌, ◌<◌, ◌^◌, length, replicate, slice_set, IfOk};
ghost use Rattle.service_model.specs.Deliveries.{accepted_from, delivery_of};
ghost use Rattle.service_model_types.specs.declared.transfer.Delivery.TheVariants.{Accepted as IsNext};
ghost use Rattle.transfer.specs.Inboxes.{accepted_then};

use service_model_types::transfer::{Delivery, Transfer};
use std::alloc::{AllocError, Global};
use std::marker::Model;

/// How many transfers a shard accepted from each source, by the source's number.
pub struct Inbox {
    accepted: Vec<u64>,
}

impl Drop for Inbox {
    fn drop(self) {
        let Inbox { accepted: _ } = self;
    }
}

impl Model for Inbox {
    ghost use Rattle.std.specs.Prelude.{ℕ, List};

    ghost Value = { List ℕ };

    ghost view = { λ a. a.accepted.items };
}

impl Inbox {
    /// The inbox of a shard that accepted nothing yet, from so many sources.
    pub fn new(alloc: Global, shards: u16) -> Result<Inbox, AllocError>
        ensures value { IfOk result (λ i. i ≡ replicate shards 0) }
        ensures shards { IfOk result (λ i. length i ≡ shards) }
    {
        let accepted = vec![in alloc; 0; usize::from(shards)]?;
        Ok(Inbox { accepted })
    }

    /// The inbox of a shard that accepted so many from each source, by its number.
    pub fn restored(accepted: Vec<u64>) -> Inbox
        ensures { result ≡ accepted.items }
    {
        Inbox { accepted }
    }

    /// How many were accepted from each source, by its number.
    pub fn accepted(&self) -> &[u64]
        ensures { result.now ≡ self.now }
    {
        self.accepted.as_slice()
    }

    /// What the shard would say about a transfer.
    pub fn judge(&self, transfer: &Transfer) -> Delivery
        requires { transfer.now.from < length self.now }
        ensures value { result
            ≡ delivery_of (accepted_from self.now transfer.now.from) transfer.now.number }
        ensures countable { result ≡ IsNext →
            accepted_from self.now transfer.now.from + 1 < 2 ^ 64 }
    {
        let accepted = self.accepted[usize::from(transfer.from)];
        if transfer.number <= accepted {
            Delivery::AlreadyDelivered
        } else if transfer.number - 1 == accepted {
            Delivery::Accepted
        } else {
            Delivery::OutOfOrder
        }
    }

    /// Accepts the next transfer of a source.
    pub fn accept_next(&mut self, from: u16)
        requires there { from < length self.old }
        requires number { accepted_from self.old from + 1 < 2 ^ 64 }
        ensures accepted { self.new ≡ slice_set self.old from (accepted_from self.old from + 1) }
        ensures shards { length self.new ≡ length self.old }
    {
        self.accepted[usize::from(from)] += 1;
    }

    /// Accepts a transfer, where it is the next one of its source.
    pub fn accept(&mut self, transfer: &Transfer) -> Delivery
        requires { transfer.now.from < length self.old }
        ensures value { result
            ≡ delivery_of (accepted_from self.old transfer.now.from) transfer.now.number }
        ensures accepted { self.new ≡ accepted_then self.old transfer.now.from result }
        ensures shards { length self.new ≡ length self.old }
    {
        let delivery = self.judge(transfer);
        if let Delivery::Accepted = delivery {
            self.accept_next(transfer.from);
        }
        delivery
    }
}
