//! How many hints wait.
ghost use Rattle.std.specs.Prelude.{◌≡◌, ℕ, ◌+◌, ◌-◌, ◌≤◌};
ghost use Rattle.crossbeam_queue.specs.Passes.{view, IsSamePass};
ghost use Rattle.crossbeam_queue.specs.Stamps.{stamp};
ghost use Rattle.matching.specs.declared.view.Holder.TheVariants.{Pass};
ghost use Rattle.matching.specs.Rings.{IsSeatOf, SawMany};

use crate::line::Line;
use crate::rule::Seat;
use std::sync::Wait;

impl Line {
    /// How many hints lie between two counts, by their stamps, which are at most a lap apart.
    fn between(&self, head: u64, tail: u64) -> usize
        requires { (h : ℕ) × (head ≡ stamp self.now.cap h) }
        ensures { (h t : ℕ) → head ≡ stamp self.now.cap h → tail ≡ stamp self.now.cap t
            → h ≤ t → t ≤ h + self.now.cap → result ≡ t - h }
    {
        let first = self.index_of(head);
        let end = self.index_of(tail);
        if first < end {
            end - first
        } else if first > end {
            self.cap - first + end
        } else if tail == head {
            0
        } else {
            self.cap
        }
    }

    /// How many hints waited at one moment of the call. It may wait for ever.
    pub(crate) fn count<R: Wait>(&self, rt: &R, seat: &mut Seat) -> usize
        requires own { IsSeatOf self.now seat.old }
        requires pass { (view seat.old).kind ≡ Pass }
        ensures own { IsSamePass seat.old seat.new }
        ensures room { result ≤ self.now.cap }
        ensures counted { SawMany result seat.old.me seat.new.me }
    {
        for _ in rt.forever() {
            let tail = self.tail(seat);
            let head = self.head_to_count(seat);
            if self.tail(seat) == tail {
                return self.between(head, tail);
            }
        }
        unreachable!()
    }
}
