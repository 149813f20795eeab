//! How a pass learns that what it has seen of all slots is one moment of them.
ghost use Rattle.std.specs.Prelude.{◌≡◌, ◌≢◌, ℕ, false, IsTrue};
ghost use Rattle.gate.specs.Passes.{view};

use crate::gate::Gate;
use crate::object::Object;
use crate::pass::Pass;
use crate::rule::Surveys;

impl<O: Object> Gate<O> {
    ghost use Rattle.gate.specs.GateViews.{IsPassOf};
    ghost use Rattle.gate.specs.Moments.{IsMoment, IsPaired, Surveyed, steps_seen};

    /// How many steps were made on all slots since the opening. All of them stand in one run, each
    /// grounded by those before it, and its part on each slot begins with what the pass has seen there.
    /// It takes no memory, and never waits.
    pub fn survey(&self, pass: &mut Pass<O>) -> u64
        requires { IsPassOf pass.old self.now }
        ensures own { IsPassOf pass.new self.now }
        ensures same { view pass.new ≡ view pass.old }
        ensures run { Surveyed O.grounds O.after (view pass.old).origin (view pass.old) result }
    {
        self.board
            .shared
            .load::<Surveys>(&mut pass.seat, self.board.slot_count())
    }

    /// Whether a pass that has seen so many steps has seen all that were made. Then what it has seen is
    /// one moment of all slots: a run of steps, each grounded by those before it, and nothing more. So
    /// it is where no other pass made a step since the first of the slots was looked at.
    pub fn has_seen_all(&self, pass: &mut Pass<O>, steps: u64) -> bool
        requires own { IsPassOf pass.old self.now }
        requires paired { IsPaired (view pass.old) }
        requires steps { steps_seen (view pass.old) ≡ steps }
        ensures own { IsPassOf pass.new self.now }
        ensures same { view pass.new ≡ view pass.old }
        ensures moment { IsTrue result → IsMoment O.grounds O.after (view pass.old) }
        ensures unseen { result ≡ false → (count : ℕ)
            × Surveyed O.grounds O.after (view pass.old).origin (view pass.old) count
            × (count ≢ steps) }
    {
        let all = self.survey(pass);
        all == steps
    }
}
