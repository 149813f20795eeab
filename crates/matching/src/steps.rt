//! A push and a pop, from the first load on.
ghost use Rattle.std.specs.Prelude.{◌≡◌, ℕ, ◌+◌, ◌*◌, ◌%◌, ◌^◌, ◌<◌, ◌≤◌, MatchOption, MatchResult};
ghost use Rattle.crossbeam_queue.specs.declared.array_queue.Stage.TheVariants.{SawTail, SawFree, SawHead, SawFull};
ghost use Rattle.crossbeam_queue.specs.Passes.{view, IsSamePass};
ghost use Rattle.crossbeam_queue.specs.Ring.{At};
ghost use Rattle.crossbeam_queue.specs.Stamps.{stamp};
ghost use Rattle.matching.specs.declared.view.Holder.TheVariants.{Pass};
ghost use Rattle.matching.specs.PassSteps.{Puts, Takes};
ghost use Rattle.matching.specs.Rings.{IsSeatOf, SawMany};

use crate::line::{HEAD, Line, STAMPS, TAIL};
use crate::rule::{Gives, Popped, Pushed, Seat};
use crossbeam_utils::Backoff;
use service_model_types::request::Hint;
use std::sync::Wait;

// Stamps do not wrap. From this one on, after more than 2^62 pushes, the loops wait for ever.
const LAST: u64 = 3 << 62;

impl Line {
    pub(crate) fn index_of(&self, at: u64) -> usize
        ensures value { (p : ℕ) → at ≡ stamp self.now.cap p
            → (result ≡ p % self.now.cap) × (result < self.now.cap) }
        ensures below { result ≤ at }
    {
        (at & (self.one_lap - 1)) as usize
    }

    fn after(&self, at: u64, index: usize) -> u64
        requires { (at < 3 * 2 ^ 62) × (index ≤ at) }
        ensures { (p : ℕ) → at ≡ stamp self.now.cap p → index ≡ p % self.now.cap
            → result ≡ stamp self.now.cap (p + 1) }
    {
        if index + 1 < self.cap {
            at + 1
        } else {
            at - index as u64 + self.one_lap
        }
    }

    // Moves the tail, and writes the hint into the slot. Or else gives the tail as it is now.
    fn claim(&self, seat: &mut Seat, tail: u64, index: usize, hint: Hint) -> Result<(), u64>
        requires own { IsSeatOf self.now seat.old }
        requires seen { At self.now.cap SawFree tail seat.old.me
            × (index ≡ seat.old.me.0.at % self.now.cap) × (tail < 3 * 2 ^ 62) × (index ≤ tail) }
        requires pass { (view seat.old).kind ≡ Pass }
        requires room { (view seat.old).capacity ≡ self.now.cap }
        requires shard { hint.shard < (view seat.old).shards }
        ensures own { IsSamePass seat.old seat.new }
        ensures pushed { MatchResult result (λ _. Puts (view seat.old) hint (view seat.new))
            (λ now. (view seat.new ≡ view seat.old) × At self.now.cap SawTail now seat.new.me) }
    {
        let words = &self.table.shared;
        let item = Some(hint);
        let new_tail = self.after(tail, index);
        let was = words.compare_exchange_with::<Pushed>(seat, TAIL, tail, new_tail, &item);
        if was != tail {
            return Err(was);
        }
        match words.exchange(seat, index, item) {
            None => {}
            Some(_) => unreachable!(),
        }
        words.store::<Gives>(seat, STAMPS + index, tail + 1);
        Ok(())
    }

    // Moves the head, and takes the hint out of the slot. Or else gives the head as it is now.
    fn fetch(&self, seat: &mut Seat, head: u64, index: usize) -> Result<Hint, u64>
        requires own { IsSeatOf self.now seat.old }
        requires seen { At self.now.cap SawFull head seat.old.me
            × (index ≡ seat.old.me.0.at % self.now.cap) × (head < 3 * 2 ^ 62) × (index ≤ head) }
        requires pass { (view seat.old).kind ≡ Pass }
        ensures own { IsSamePass seat.old seat.new }
        ensures popped { MatchResult result (λ x. Takes (view seat.old) x (view seat.new))
            (λ now. (view seat.new ≡ view seat.old) × At self.now.cap SawHead now seat.new.me) }
    {
        let words = &self.table.shared;
        let nothing: Option<Hint> = None;
        let new_head = self.after(head, index);
        let was = words.compare_exchange_with::<Popped>(seat, HEAD, head, new_head, &nothing);
        if was != head {
            return Err(was);
        }
        let item = words.exchange(seat, index, nothing);
        words.store::<Gives>(seat, STAMPS + index, head + self.one_lap);
        Ok(item.unwrap())
    }

    /// Puts a hint after all that was put. It may wait for ever.
    ///
    /// # Errors
    /// With the hint, where at one moment of the call the ring was full.
    pub(crate) fn push<R: Wait>(&self, rt: &R, seat: &mut Seat, hint: Hint) -> Result<(), Hint>
        requires own { IsSeatOf self.now seat.old }
        requires pass { (view seat.old).kind ≡ Pass }
        requires room { (view seat.old).capacity ≡ self.now.cap }
        requires shard { hint.shard < (view seat.old).shards }
        ensures own { IsSamePass seat.old seat.new }
        ensures pushed { MatchResult result (λ _. Puts (view seat.old) hint (view seat.new))
            (λ x. (x ≡ hint) × SawMany self.now.cap seat.old.me seat.new.me) }
    {
        let backoff = Backoff::new();
        let mut tail = self.tail(seat);
        for _ in rt.forever() {
            let index = self.index_of(tail);
            let stamp = self.stamp_at_tail(seat, index);
            if tail >= LAST {
                backoff.snooze();
                tail = self.tail(seat);
            } else if tail == stamp {
                match self.claim(seat, tail, index, hint) {
                    Ok(()) => return Ok(()),
                    Err(now) => {
                        tail = now;
                        backoff.spin();
                    }
                }
            } else if tail >= self.one_lap && stamp == tail - self.one_lap + 1 {
                if self.head_if_full(seat) == tail - self.one_lap {
                    return Err(hint);
                }
                backoff.spin();
                tail = self.tail(seat);
            } else {
                backoff.snooze();
                tail = self.tail(seat);
            }
        }
        unreachable!()
    }

    /// Takes the first hint that was not taken, if there is one. It may wait for ever.
    pub(crate) fn pop<R: Wait>(&self, rt: &R, seat: &mut Seat) -> Option<Hint>
        requires own { IsSeatOf self.now seat.old }
        requires pass { (view seat.old).kind ≡ Pass }
        ensures own { IsSamePass seat.old seat.new }
        ensures popped { MatchOption result (SawMany 0 seat.old.me seat.new.me)
            (λ x. Takes (view seat.old) x (view seat.new)) }
    {
        let backoff = Backoff::new();
        let mut head = self.head(seat);
        for _ in rt.forever() {
            let index = self.index_of(head);
            let stamp = self.stamp_at_head(seat, index);
            if head >= LAST {
                backoff.snooze();
                head = self.head(seat);
            } else if head + 1 == stamp {
                match self.fetch(seat, head, index) {
                    Ok(item) => return Some(item),
                    Err(now) => {
                        head = now;
                        backoff.spin();
                    }
                }
            } else if stamp == head {
                if self.tail_if_empty(seat) == head {
                    return None;
                }
                backoff.spin();
                head = self.head(seat);
            } else {
                backoff.snooze();
                head = self.head(seat);
            }
        }
        unreachable!()
    }
}
