//! The loads of the tail, of the head and of a slot's stamp.
ghost use Rattle.std.specs.Prelude.{◌≡◌, ◌%◌, ◌<◌};
ghost use mathlib.Core.Option.{none};
ghost use Rattle.atomic_table.specs.Table.{step};
ghost use Rattle.crossbeam_queue.specs.declared.array_queue.Stage.TheVariants.{SawTail, SawHead, SawOld};
ghost use Rattle.crossbeam_queue.specs.Passes.{view, IsSamePass};
ghost use Rattle.crossbeam_queue.specs.Ring.{saw_tail, saw_head, saw_free, saw_full};
ghost use Rattle.matching.specs.declared.view.Holder.TheVariants.{Pass};
ghost use Rattle.matching.specs.Rings.{IsSeatOf, saw_count, saw_full_queue, saw_empty_queue};

use crate::line::{HEAD, Line, STAMPS, TAIL};
use crate::rule::{Counts, FindsNoRoom, FindsNone, Seat, SeesFree, SeesFull, SeesHead, SeesTail};

impl Line {
    pub(crate) fn tail(&self, seat: &mut Seat) -> u64
        requires { IsSeatOf self.now seat.old }
        ensures { IsSamePass seat.old seat.new
            × saw_tail (step self.now.cap 0 0 0 none) seat.old.me result seat.new.me }
    {
        self.table.shared.load::<SeesTail>(seat, TAIL)
    }

    pub(crate) fn head(&self, seat: &mut Seat) -> u64
        requires { IsSeatOf self.now seat.old }
        ensures { IsSamePass seat.old seat.new
            × saw_head (step self.now.cap 0 0 0 none) seat.old.me result seat.new.me }
    {
        self.table.shared.load::<SeesHead>(seat, HEAD)
    }

    pub(crate) fn stamp_at_tail(&self, seat: &mut Seat, index: usize) -> u64
        requires own { IsSeatOf self.now seat.old }
        requires seen { (seat.old.me.0.stage ≡ SawTail)
            × (index ≡ seat.old.me.0.at % self.now.cap) × (index < self.now.cap) }
        ensures { IsSamePass seat.old seat.new
            × saw_free (step self.now.cap 0 0 0 none) seat.old.me result seat.new.me }
    {
        self.table.shared.load::<SeesFree>(seat, STAMPS + index)
    }

    pub(crate) fn stamp_at_head(&self, seat: &mut Seat, index: usize) -> u64
        requires own { IsSeatOf self.now seat.old }
        requires seen { (seat.old.me.0.stage ≡ SawHead)
            × (index ≡ seat.old.me.0.at % self.now.cap) × (index < self.now.cap) }
        ensures { IsSamePass seat.old seat.new
            × saw_full (step self.now.cap 0 0 0 none) seat.old.me result seat.new.me }
    {
        self.table.shared.load::<SeesFull>(seat, STAMPS + index)
    }

    pub(crate) fn head_if_full(&self, seat: &mut Seat) -> u64
        requires own { IsSeatOf self.now seat.old }
        requires seen { seat.old.me.0.stage ≡ SawOld }
        requires pass { (view seat.old).kind ≡ Pass }
        ensures { IsSamePass seat.old seat.new
            × saw_full_queue (step self.now.cap 0 0 0 none) seat.old.me result seat.new.me }
    {
        self.table.shared.load::<FindsNoRoom>(seat, HEAD)
    }

    pub(crate) fn tail_if_empty(&self, seat: &mut Seat) -> u64
        requires own { IsSeatOf self.now seat.old }
        requires seen { seat.old.me.0.stage ≡ SawHead }
        requires pass { (view seat.old).kind ≡ Pass }
        ensures { IsSamePass seat.old seat.new
            × saw_empty_queue (step self.now.cap 0 0 0 none) seat.old.me result seat.new.me }
    {
        self.table.shared.load::<FindsNone>(seat, TAIL)
    }

    pub(crate) fn head_to_count(&self, seat: &mut Seat) -> u64
        requires own { IsSeatOf self.now seat.old }
        requires seen { seat.old.me.0.stage ≡ SawTail }
        requires pass { (view seat.old).kind ≡ Pass }
        ensures { IsSamePass seat.old seat.new
            × saw_count (step self.now.cap 0 0 0 none) seat.old.me result seat.new.me }
    {
        self.table.shared.load::<Counts>(seat, HEAD)
    }
}
