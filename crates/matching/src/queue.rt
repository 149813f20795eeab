//! One queue of hints, and its passes.

ghost use Rattle.std.specs.Prelude.{◌≡◌, ◌+◌, ◌<◌, ◌≤◌, [], List, length, IfOk, IsTrue, MatchOption, MatchResult, true, false};
ghost use Rattle.matching.specs.declared.view.Holder.TheVariants.{Maker, Pass};
ghost use Rattle.matching.specs.Entries.{FromShards};
ghost use Rattle.matching.specs.Meetings.{Agree};
ghost use Rattle.matching.specs.PassSteps.{fresh, FindsMany, HadRoom, Puts, Takes, Sees};
ghost use Rattle.matching.specs.Rings.{FoundRoom};
ghost use Rattle.matching.specs.ToldHints.{IsQuiet, taken_in};
ghost use Rattle.matching.specs.Rule.{IsLast};
ghost use Rattle.crossbeam_queue.specs.Fifo.{Held};

use crate::line::Line;
use crate::rule::Seat;
use service_model_types::request::Hint;
use std::alloc::{AllocError, Global};
use std::sync::Wait;

/// A queue of hints, with room for so many.
pub(crate) struct HintQueue {
    line: Line,
    shards: u16,
}

impl Drop for HintQueue {
    fn drop(self) {
        let HintQueue { line: _, shards: _ } = self;
    }
}

/// The right to push and pop at one queue. It is one thread's at a time.
pub(crate) struct HintPass {
    seat: Seat,
    number: u8,
    ghost sits: { (seat.me.0.client.kind ≡ Pass) × (seat.me.0.client.number ≡ number) },
    ghost idle: { seat.me.1 ≡ [] },
    ghost quiet: { IsQuiet seat.me.0.client },
}

impl Drop for HintPass {
    fn drop(self) {
        let HintPass { seat: _, number: _ } = self;
    }
}

impl HintPass {
    fn into_seat(self) -> Seat
        ensures { result ≡ self.seat }
    {
        let HintPass { seat, number: _ } = self;
        seat
    }
}

/// What makes the passes of one queue.
pub(crate) struct HintMaker {
    seat: Seat,
    made: u64,
    ghost sits: { (seat.me.0.client.kind ≡ Maker) × (seat.me.0.client.made ≡ made) },
    ghost idle: { seat.me.1 ≡ [] },
}

impl Drop for HintMaker {
    fn drop(self) {
        let HintMaker { seat: _, made: _ } = self;
    }
}

impl HintQueue {
    ghost use Rattle.matching.specs.Queues.{capacity_of, shards_of, held_of, known_by, IsPassOf};
    ghost use Rattle.matching.specs.Opening.{IsMakerOf};

    /// Opens a queue that holds these hints, and gives what makes its passes.
    pub(crate) fn with_maker(
        alloc: Global,
        waiting: Vec<Hint>,
        capacity: usize,
        passes: usize,
        shards: u16,
    ) -> Result<(HintQueue, HintMaker), AllocError>
        requires some { 0 < capacity }
        requires fits { length waiting.items ≤ capacity }
        requires shards { FromShards shards waiting.items }
        ensures maker { IfOk result (λ r. IsMakerOf passes shards capacity 0 r.1 r.0) }
        ensures held { IfOk result (λ r. held_of r.0 ≡ waiting.items) }
    {
        let (line, seat) = Line::open(alloc, waiting, capacity, passes, shards)?;
        let maker = HintMaker { seat, made: 0 };
        Ok((HintQueue { line, shards }, maker))
    }

    /// Makes a pass more.
    pub(crate) fn deal(
        &self,
        maker: &mut HintMaker,
        passes: usize,
        shards: u16,
        number: u8,
    ) -> HintPass
        requires maker { IsMakerOf passes shards (capacity_of self.now) number maker.old self.now }
        requires some_left { number < passes }
        ensures maker { IsMakerOf passes shards (capacity_of self.now) (number + 1)
            maker.new self.now }
        ensures own { IsPassOf result self.now }
        ensures fresh { known_by result
            ≡ fresh passes shards (capacity_of self.now) (held_of self.now) number }
    {
        let seat = self.line.deal(&mut maker.seat);
        maker.made += 1;
        HintPass { seat, number }
    }

    /// Puts a hint after all that was put, unless so many hints wait. It may wait for ever.
    ///
    /// # Errors
    /// With the hint, where at one moment of the call so many waited or more.
    pub(crate) fn push<R: Wait>(
        &self,
        rt: &R,
        pass: &mut HintPass,
        most: usize,
        hint: Hint,
    ) -> Result<(), Hint>
        requires own { IsPassOf pass.old self.now }
        requires most { most ≤ capacity_of self.now }
        requires shard { hint.shard < shards_of self.now }
        ensures own { IsPassOf pass.new self.now }
        ensures pushed { MatchResult result (λ _. Puts (known_by pass.old) hint (known_by pass.new)
            × HadRoom (known_by pass.old) most)
            (λ x. (x ≡ hint) × FindsMany (known_by pass.old) most (known_by pass.new)) }
    {
        if self.has_many(rt, pass, most) {
            return Err(hint);
        }
        self.line.push(rt, &mut pass.seat, hint)
    }

    /// Whether so many hints wait, of a queue that has room for more. It may wait for ever.
    fn has_many<R: Wait>(&self, rt: &R, pass: &mut HintPass, most: usize) -> bool
        requires own { IsPassOf pass.old self.now }
        requires most { most ≤ capacity_of self.now }
        ensures own { IsPassOf pass.new self.now }
        ensures many { result ≡ true → FindsMany (known_by pass.old) most (known_by pass.new) }
        ensures fewer { result ≡ false → FoundRoom (known_by pass.old) most (known_by pass.new) }
    {
        if most == self.line.cap {
            return false;
        }
        self.line.count(rt, &mut pass.seat) >= most
    }

    /// Takes the first hint that was not taken, if there is one. It may wait for ever.
    pub(crate) fn pop<R: Wait>(&self, rt: &R, pass: &mut HintPass) -> Option<Hint>
        requires { IsPassOf pass.old self.now }
        ensures own { IsPassOf pass.new self.now }
        ensures popped { MatchOption result
            (Held 0 (λ waiting. Sees (known_by pass.old) waiting (known_by pass.new)))
            (λ x. Takes (known_by pass.old) x (known_by pass.new)) }
    {
        self.line.pop(rt, &mut pass.seat)
    }

    /// Two passes tell each other what they have seen.
    pub(crate) fn meet(&self, first: &mut HintPass, second: &mut HintPass)
        requires first { IsPassOf first.old self.now }
        requires second { IsPassOf second.old self.now }
        ensures first { IsPassOf first.new self.now }
        ensures second { IsPassOf second.new self.now }
        ensures agree { Agree (known_by first.old) (known_by second.old)
            (known_by first.new) (known_by second.new) }
    {
        self.line.meet(&mut first.seat, &mut second.seat);
    }

    /// A pass is handed in to another.
    pub(crate) fn take_in(&self, pass: &mut HintPass, other: HintPass)
        requires own { IsPassOf pass.old self.now }
        requires other { IsPassOf other self.now }
        ensures own { IsPassOf pass.new self.now }
        ensures taken { known_by pass.new ≡ taken_in (known_by pass.old) (known_by other) }
    {
        self.line.take_in(&mut pass.seat, other.into_seat());
    }

    /// Looks once more at what was put and taken, for the contract alone.
    pub(crate) fn look_at_all(&self, pass: &mut HintPass)
        requires { IsPassOf pass.old self.now }
        ensures own { IsPassOf pass.new self.now }
        ensures same { known_by pass.new ≡ known_by pass.old }
        ensures all { (waiting : List Hint) × IsLast (known_by pass.old) waiting }
    {
        self.line.look_at_all(&mut pass.seat);
    }
}
