//! How the seats at a ring are made, told and handed in.
ghost use Rattle.std.specs.Prelude.{◌≡◌, ◌<◌, List};
ghost use Rattle.crossbeam_queue.specs.Passes.{view, IsSamePass};
ghost use Rattle.matching.specs.declared.view.Holder.TheVariants.{Maker, Pass};
ghost use Rattle.matching.specs.Meetings.{Agree};
ghost use Rattle.matching.specs.PassSteps.{made_one, newcomer};
ghost use Rattle.matching.specs.Rings.{IsSeatOf, saw_all};
ghost use Rattle.matching.specs.ToldHints.{IsQuiet, taken_in};

use crate::line::{Line, TAIL};
use crate::rule::{Adopts, Compares, Deals, Ends, Notes, Seat, TakesIn, Tells};

impl Line {
    /// Makes a seat for a pass more.
    pub(crate) fn deal(&self, maker: &mut Seat) -> Seat
        requires own { IsSeatOf self.now maker.old }
        requires maker { (view maker.old).kind ≡ Maker }
        requires some_left { (view maker.old).made < (view maker.old).given }
        ensures own { IsSamePass maker.old maker.new × IsSeatOf self.now result }
        ensures made { (view maker.new ≡ made_one (view maker.old))
            × (view result ≡ newcomer (view maker.old)) }
    {
        self.table.shared.split_seat::<Deals>(maker)
    }

    /// Two passes tell each other what they have seen.
    pub(crate) fn meet(&self, first: &mut Seat, second: &mut Seat)
        requires own { IsSeatOf self.now first.old × IsSeatOf self.now second.old }
        requires passes { ((view first.old).kind ≡ Pass) × ((view second.old).kind ≡ Pass) }
        requires quiet { IsQuiet (view first.old) × IsQuiet (view second.old) }
        ensures own { IsSamePass first.old first.new × IsSamePass second.old second.new }
        ensures agree { Agree (view first.old) (view second.old)
            (view first.new) (view second.new) }
    {
        let shared = &self.table.shared;
        // The second pass hears what the first has seen, and compares: then it has seen the longer.
        let note = shared.split_seat::<Notes>(first);
        shared.join_seat::<Tells>(second, note);
        shared.load::<Compares>(second, TAIL);
        // The first has only to take that over.
        let note = shared.split_seat::<Notes>(second);
        shared.join_seat::<Adopts>(first, note);
    }

    /// A pass is handed in to another.
    pub(crate) fn take_in(&self, seat: &mut Seat, other: Seat)
        requires own { IsSeatOf self.now seat.old × IsSeatOf self.now other }
        requires passes { ((view seat.old).kind ≡ Pass) × ((view other).kind ≡ Pass) }
        ensures own { IsSamePass seat.old seat.new }
        ensures taken { view seat.new ≡ taken_in (view seat.old) (view other) }
    {
        self.table.shared.join_seat::<TakesIn>(seat, other);
    }

    /// Looks once more, for the contract alone: what was put and taken by all that were handed in.
    pub(crate) fn look_at_all(&self, seat: &mut Seat)
        requires own { IsSeatOf self.now seat.old }
        requires pass { (view seat.old).kind ≡ Pass }
        ensures own { IsSamePass seat.old seat.new }
        ensures all { saw_all seat.old.me seat.new.me }
    {
        self.table.shared.load::<Ends>(seat, TAIL);
    }
}
