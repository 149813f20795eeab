//! The transfers that a shard issued.

ghost use Rattle.std.specs.Prelude.{◌≡◌, ℕ, ◌+◌, ◌<◌, ◌≤◌, ◌==◌, length, map, slice_get, option_copied, option_map, replicate, IfOk, OnErr, OnOk, IfSome, if◌then◌else◌};
ghost use Rattle.service_model.specs.Counts.{acknowledgement_of};
ghost use Rattle.transfer.specs.Logs.{count_issued, counted_off, none_waits};
ghost use Rattle.transfer.specs.Outboxes.{outgoing, room_to, issued_to, acknowledged_to, counted_to, sent_to, waiting_to, with_all_sent, HasRoomFor};

use crate::issue_log::IssueLog;
use service_model_types::answer::Acknowledged;
use service_model_types::transfer::{Sent, TransferContent};
use std::alloc::{AllocError, Global};
use std::marker::Model;

/// The transfers that a shard issued to each destination and that are not acknowledged, by the
/// destination's number, and how many of them are.
pub struct Outbox {
    logs: Vec<IssueLog<TransferContent>>,
}

impl Drop for Outbox {
    fn drop(self) {
        let Outbox { logs: _ } = self;
    }
}

impl Model for Outbox {
    ghost use Rattle.std.specs.Prelude.{List};
    ghost use Rattle.service_model_types.specs.declared.transfer.TransferContent.{TransferContent};
    ghost use Rattle.transfer.specs.Logs.{Log};

    ghost Value = { List (Log TransferContent) };

    ghost view = { λ a. a.logs.items };
}

impl Outbox {
    /// The outbox of a shard that issued nothing yet, to so many destinations.
    pub fn new(alloc: Global, shards: u16) -> Result<Outbox, AllocError>
        ensures value { IfOk result (λ o. outgoing o ≡ replicate shards none_waits) }
        ensures shards { IfOk result (λ o. length o ≡ shards) }
    {
        let mut logs = Vec::new(alloc);
        for _shard in 0..shards {
            logs.push(IssueLog::new(alloc))?;
        }
        Ok(Outbox { logs })
    }

    /// The outbox of a shard of whose transfers each destination acknowledged so many, by its number:
    /// none waits.
    ///
    /// # Errors
    /// Where memory was refused.
    pub fn restored(alloc: Global, acknowledged: &[u64]) -> Result<Outbox, AllocError>
        ensures value { IfOk result (λ o. outgoing o ≡ map counted_off acknowledged.now) }
        ensures shards { IfOk result (λ o. length o ≡ length acknowledged.now) }
    {
        let mut logs = Vec::new(alloc);
        for count in acknowledged {
            logs.push(IssueLog::restored(alloc, *count))?;
        }
        Ok(Outbox { logs })
    }

    /// Makes room for so many more transfers to a destination. Where memory is refused, the
    /// transfers stay as they were.
    pub fn reserve(&mut self, to: u16, additional: usize) -> Result<(), AllocError>
        requires { to < length self.old }
        ensures same { outgoing self.new ≡ outgoing self.old }
        ensures shards { length self.new ≡ length self.old }
        ensures ok { OnOk result (additional ≤ room_to self.new to) }
        ensures room { (shard : ℕ) → room_to self.old shard ≤ room_to self.new shard }
    {
        self.reserve_at(usize::from(to), additional)
    }

    fn reserve_at(&mut self, to: usize, additional: usize) -> Result<(), AllocError>
        requires { to < length self.old }
        ensures same { outgoing self.new ≡ outgoing self.old }
        ensures shards { length self.new ≡ length self.old }
        ensures ok { OnOk result (additional ≤ room_to self.new to) }
        ensures room { (shard : ℕ) → room_to self.old shard ≤ room_to self.new shard }
    {
        let log = &mut self.logs[to];
        log.reserve(additional)
    }

    /// Issues a transfer to a destination, in reserved room.
    pub fn issue(&mut self, to: u16, content: TransferContent)
        requires there { to < length self.old }
        requires room { 0 < room_to self.old to }
        ensures issued { outgoing self.new ≡ issued_to (outgoing self.old) to content }
        ensures shards { length self.new ≡ length self.old }
        ensures room { (shard : ℕ) →
            room_to self.old shard ≤ room_to self.new shard + (if shard == to then 1 else 0) }
    {
        let log = &mut self.logs[usize::from(to)];
        log.issue(content);
    }

    /// Issues all of these, in their order, or none of them where memory is refused. One for a
    /// destination that isn't there is dropped.
    pub fn send_all(&mut self, sent: Vec<Sent>) -> Result<(), AllocError>
        ensures ok { OnOk result
            (outgoing self.new ≡ with_all_sent sent.items 0 (outgoing self.old)) }
        ensures err { OnErr result (outgoing self.new ≡ outgoing self.old) }
        ensures shards { length self.new ≡ length self.old }
    {
        self.make_room(sent.as_slice())?;
        self.send_each(sent);
        Ok(())
    }

    /// Makes room for all of these. Where memory is refused, the transfers stay as they were.
    pub fn make_room(&mut self, sent: &[Sent]) -> Result<(), AllocError>
        ensures same { outgoing self.new ≡ outgoing self.old }
        ensures shards { length self.new ≡ length self.old }
        ensures ok { OnOk result (HasRoomFor self.new sent.now) }
    {
        if sent.len() == 0 {
            return Ok(());
        }
        for to in 0..self.logs.len() {
            self.reserve_at(to, count_to(sent, to))?;
        }
        Ok(())
    }

    /// Issues all of these, in reserved room.
    fn send_each(&mut self, sent: Vec<Sent>)
        requires { HasRoomFor self.old sent.items }
        ensures sent { outgoing self.new ≡ with_all_sent sent.items 0 (outgoing self.old) }
        ensures shards { length self.new ≡ length self.old }
    {
        for one in sent {
            self.send(one);
        }
    }

    /// Issues one, in reserved room, where its destination is there.
    pub fn send(&mut self, one: Sent)
        requires { one.to < length self.old → 0 < room_to self.old one.to }
        ensures issued { outgoing self.new ≡ issued_to (outgoing self.old) one.to one.content }
        ensures shards { length self.new ≡ length self.old }
        ensures room { (shard : ℕ) → room_to self.old shard
            ≤ room_to self.new shard + (if shard == one.to then 1 else 0) }
    {
        let (to, content) = one.into_parts();
        if usize::from(to) < self.logs.len() {
            self.issue(to, content);
        }
    }

    /// The first transfer to a destination that is not acknowledged, with its number.
    pub fn first_to(&self, to: u16) -> Option<(u64, &TransferContent)>
        requires { to < length self.now }
        ensures content { option_map (λ f. f.1.now) result
            ≡ slice_get (waiting_to (outgoing self.now) to).items 0 }
        ensures number { IfSome result (λ f.
            f.0 ≡ (waiting_to (outgoing self.now) to).counted + 1) }
    {
        let log = &self.logs[usize::from(to)];
        log.first()
    }

    /// The transfer at this place among those to a destination that are not acknowledged.
    pub fn waiting(&self, to: u16, index: usize) -> Option<&TransferContent>
        requires { to < length self.now }
        ensures { option_copied result
            ≡ slice_get (waiting_to (outgoing self.now) to).items index }
    {
        let log = &self.logs[usize::from(to)];
        log.waiting(index)
    }

    /// How many transfers a destination acknowledged.
    pub fn acknowledged(&self, to: u16) -> u64
        requires { to < length self.now }
        ensures { result ≡ (waiting_to (outgoing self.now) to).counted }
    {
        let log = &self.logs[usize::from(to)];
        log.acknowledged()
    }

    /// How many transfers were issued to a destination.
    pub fn issued(&self, to: u16) -> u64
        requires { to < length self.now }
        ensures { result ≡ count_issued (waiting_to (outgoing self.now) to) }
    {
        let log = &self.logs[usize::from(to)];
        log.issued()
    }

    /// What an acknowledgement of this number by a destination would be.
    pub fn judge(&self, to: u16, number: u64) -> Acknowledged
        requires { to < length self.now }
        ensures { let w = waiting_to (outgoing self.now) to in
            result ≡ acknowledgement_of (count_issued w) w.counted number }
    {
        let log = &self.logs[usize::from(to)];
        log.judge(number)
    }

    /// Acknowledges a number of a destination, where it is the next one, and was issued.
    pub fn acknowledge(&mut self, to: u16, number: u64) -> Acknowledged
        requires { to < length self.old }
        ensures value { let w = waiting_to (outgoing self.old) to in
            result ≡ acknowledgement_of (count_issued w) w.counted number }
        ensures shards { length self.new ≡ length self.old }
        ensures counted { outgoing self.new ≡ acknowledged_to (outgoing self.old) to result }
        ensures room { (shard : ℕ) → room_to self.old shard ≤ room_to self.new shard }
    {
        let log = &mut self.logs[usize::from(to)];
        log.acknowledge(number)
    }

    /// Acknowledges the next number of a destination.
    pub fn acknowledge_next(&mut self, to: u16)
        requires there { to < length self.old }
        requires some { 0 < length (waiting_to (outgoing self.old) to).items }
        ensures counted { outgoing self.new ≡ counted_to (outgoing self.old) to }
        ensures shards { length self.new ≡ length self.old }
        ensures room { (shard : ℕ) → room_to self.old shard ≤ room_to self.new shard }
    {
        let log = &mut self.logs[usize::from(to)];
        log.acknowledge_next();
    }
}

/// How many of these are for a destination.
fn count_to(sent: &[Sent], to: usize) -> usize
    ensures { result ≡ length (sent_to sent.now to) }
{
    sent.iter().filter(|one| usize::from(one.to) == to).count()
}
