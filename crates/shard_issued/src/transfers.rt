//! The transfers that a shard issued to the others, and those that it accepted from them.
//!
//! Rules: X7.

ghost use Rattle.std.specs.Prelude.{◌≡◌, ◌+◌, ◌<◌, ◌^◌, None, Some, IfOk, IfSome, OnErr, OnOk, length, map, option_copied, option_map, option_to_list, replicate, slice_get, slice_index_or, slice_set};
ghost use Rattle.service_model.specs.Counts.{acknowledgement_of};
ghost use Rattle.service_model.specs.Deliveries.{accepted_from, delivery_of};
ghost use Rattle.service_model_types.specs.declared.transfer.Delivery.TheVariants.{Accepted as IsNext};
ghost use Rattle.transfer.specs.Logs.{count_issued, counted_off, none_waits};
ghost use Rattle.transfer.specs.Outboxes.{counted_to, waiting_to, with_all_sent};

use service_model_types::answer::Acknowledged;
use service_model_types::transfer::{Delivery, Sent, Transfer, TransferContent};
use std::alloc::{AllocError, Global};
use std::marker::Model;
use std::slice;
use transfer::{Inbox, Outbox};

/// The events of a run whose transfers were not looked up.
#[derive(Clone, Copy)]
pub struct Unsent {
    /// The run's place.
    pub index: usize,
    /// How many events it showed before them.
    pub shown: usize,
}

/// The transfers of a shard.
pub struct Transfers {
    outbox: Outbox,
    inbox: Inbox,
    /// The events that the last step added. What they send is looked up by the next step, since it
    /// takes memory.
    unsent: Option<Unsent>,
    /// What the last step answers to a transfer, to be issued after what its events send.
    answer: Option<Sent>,
}

impl Drop for Transfers {
    fn drop(self) {
        let Transfers {
            outbox: _,
            inbox: _,
            unsent: _,
            answer: _,
        } = self;
    }
}

impl Model for Transfers {
    ghost use Rattle.transfer.specs.Outboxes.{outgoing};
    ghost use Rattle.shard_issued.specs.Sending.{TransfersView};

    ghost Value = { TransfersView };

    ghost view = { λ a. record {
      sent = outgoing a.outbox;
      accepted = a.inbox;
      unsent = a.unsent;
      answer = a.answer;
    } };
}

impl Transfers {
    /// None, between so many shards.
    pub fn new(alloc: Global, shards: u16) -> Result<Transfers, AllocError>
        ensures { IfOk result (λ t. t ≡ record {
          sent = replicate shards none_waits;
          accepted = replicate shards 0;
          unsent = None;
          answer = None;
        }) }
    {
        Ok(Transfers {
            outbox: Outbox::new(alloc, shards)?,
            inbox: Inbox::new(alloc, shards)?,
            unsent: None,
            answer: None,
        })
    }

    /// Of those to each shard so many were acknowledged, by the shard's number, and none waits; of those
    /// from each so many were accepted.
    ///
    /// # Errors
    /// Where memory was refused.
    pub fn restored(
        alloc: Global,
        acknowledged: &[u64],
        accepted: Vec<u64>,
    ) -> Result<Transfers, AllocError>
        ensures { IfOk result (λ t. t ≡ record {
          sent = map counted_off acknowledged.now;
          accepted = accepted.items;
          unsent = None;
          answer = None;
        }) }
    {
        Ok(Transfers {
            outbox: Outbox::restored(alloc, acknowledged)?,
            inbox: Inbox::restored(accepted),
            unsent: None,
            answer: None,
        })
    }

    /// The events whose transfers were not looked up.
    pub fn unsent(&self) -> Option<Unsent>
        ensures { result ≡ self.now.unsent }
    {
        self.unsent
    }

    /// A step added to the run at a place, which had shown so many events.
    pub fn mark_grown(&mut self, index: usize, shown: usize)
        ensures { self.new ≡ record self.old {
          unsent = Some (record { index = index; shown = shown });
        } }
    {
        self.unsent = Some(Unsent { index, shown });
    }

    /// A step answers a transfer by this one.
    pub fn mark_answer(&mut self, answer: Sent)
        ensures { self.new ≡ record self.old { answer = Some answer } }
    {
        self.answer = Some(answer);
    }

    /// Issues the transfers of the events that were not looked up, where these are all of them.
    pub fn send(&mut self, sent: Vec<Sent>) -> Result<(), AllocError>
        ensures ok { OnOk result (self.new ≡ record self.old {
          sent = with_all_sent sent.items 0 self.old.sent;
          unsent = None;
        }) }
        ensures err { OnErr result (self.new ≡ self.old) }
    {
        self.outbox.send_all(sent)?;
        self.unsent = None;
        Ok(())
    }

    /// Issues the answer, if there is one.
    pub fn send_answer(&mut self) -> Result<(), AllocError>
        ensures ok { OnOk result (self.new ≡ record self.old {
          sent = with_all_sent (option_to_list self.old.answer) 0 self.old.sent;
          answer = None;
        }) }
        ensures err { OnErr result (self.new ≡ self.old) }
    {
        let Some(answer) = &self.answer else {
            return Ok(());
        };
        self.outbox.make_room(slice::from_ref(answer))?;
        if let Some(answer) = self.answer.take() {
            self.outbox.send(answer);
        }
        Ok(())
    }

    /// The first transfer to a shard that is not acknowledged, with its number.
    pub fn first_to(&self, to: u16) -> Option<(u64, &TransferContent)>
        requires { to < length self.now.sent }
        ensures content { option_map (λ f. f.1.now) result
            ≡ slice_get (waiting_to self.now.sent to).items 0 }
        ensures number { IfSome result (λ f.
            f.0 ≡ (waiting_to self.now.sent to).counted + 1) }
    {
        self.outbox.first_to(to)
    }

    /// The transfer at this place among those to a shard that are not acknowledged.
    pub fn waiting(&self, to: u16, index: usize) -> Option<&TransferContent>
        requires { to < length self.now.sent }
        ensures { option_copied result ≡ slice_get (waiting_to self.now.sent to).items index }
    {
        self.outbox.waiting(to, index)
    }

    /// How many transfers a shard acknowledged.
    pub fn acknowledged(&self, to: u16) -> u64
        requires { to < length self.now.sent }
        ensures { result ≡ (waiting_to self.now.sent to).counted }
    {
        self.outbox.acknowledged(to)
    }

    /// How many transfers were accepted from each shard, by its number.
    pub fn accepted(&self) -> &[u64]
        ensures { result.now ≡ self.now.accepted }
    {
        self.inbox.accepted()
    }

    /// How many transfers were issued to a shard.
    pub fn issued(&self, to: u16) -> u64
        requires { to < length self.now.sent }
        ensures { result ≡ count_issued (waiting_to self.now.sent to) }
    {
        self.outbox.issued(to)
    }

    /// What an acknowledgement of this number by a shard would be.
    pub fn judge_acknowledgement(&self, to: u16, number: u64) -> Acknowledged
        requires { to < length self.now.sent }
        ensures { let w = waiting_to self.now.sent to in
            result ≡ acknowledgement_of (count_issued w) w.counted number }
    {
        self.outbox.judge(to, number)
    }

    /// A shard acknowledged the next number.
    pub fn acknowledge(&mut self, to: u16)
        requires there { to < length self.old.sent }
        requires some { 0 < length (waiting_to self.old.sent to).items }
        ensures { self.new ≡ record self.old { sent = counted_to self.old.sent to } }
    {
        self.outbox.acknowledge_next(to);
    }

    /// What the shard would say about a transfer.
    pub fn judge_delivery(&self, transfer: &Transfer) -> Delivery
        requires { transfer.now.from < length self.now.accepted }
        ensures value { result
            ≡ delivery_of (accepted_from self.now.accepted transfer.now.from) transfer.now.number }
        ensures countable { result ≡ IsNext
            → accepted_from self.now.accepted transfer.now.from + 1 < 2 ^ 64 }
    {
        self.inbox.judge(transfer)
    }

    /// Accepts the next transfer of a shard.
    pub fn accept(&mut self, from: u16)
        requires there { from < length self.old.accepted }
        requires number { accepted_from self.old.accepted from + 1 < 2 ^ 64 }
        ensures { self.new ≡ record self.old {
          accepted = slice_set self.old.accepted from
              (slice_index_or self.old.accepted from 0 + 1);
        } }
    {
        self.inbox.accept_next(from);
    }
}
