//! How the queues are closed.
ghost use Rattle.std.specs.Prelude.{◌≡◌, ◌*◌, ℕ, ◌<◌, [], Some, List, length, slice_get};
ghost use Rattle.service_model_types.specs.declared.request.Hint.{Hint};
ghost use Rattle.matching.specs.AtClose.{IsEnd};
ghost use Rattle.matching.specs.Named.{at, held_at, parts_at};
ghost use Rattle.matching.specs.Rule.{IsLast};
ghost use Rattle.matching.specs.ToldHints.{taken_in};

use crate::queues::{Queues, QueuesPass};

impl Queues {
    ghost use Rattle.matching.specs.Named.{names_of, given_of, held_of, known_by, IsPassOf};

    /// Takes the passes back. Of each queue there is one list of all that was put and one of all that
    /// was taken, in which the pushes and the pops of each pass are its own part, in order. It takes
    /// no memory and never waits.
    pub fn close(self, passes: Vec<QueuesPass>)
        requires own { (k : ℕ) (p : _) → slice_get passes.items k ≡ Some p → IsPassOf p self }
        ensures ended { (slot : ℕ) → slot < 2 * length (names_of self)
            → IsEnd (held_at (held_of self) slot) (given_of self) (parts_at passes.items slot) }
    {
        let mut rest = passes;
        let Some(mut last) = rest.pop() else {
            return;
        };
        for pass in rest {
            self.take_in(&mut last, pass);
        }
        self.look_at_all(&mut last);
    }

    /// A pass is handed in to another.
    fn take_in(&self, pass: &mut QueuesPass, other: QueuesPass)
        requires own { IsPassOf pass.old self.now }
        requires other { IsPassOf other self.now }
        ensures own { IsPassOf pass.new self.now }
        ensures count { length (known_by pass.new) ≡ length (known_by pass.old) }
        ensures taken { (s : ℕ) → s < length (known_by pass.old)
            → at (known_by pass.new) s
            ≡ taken_in (at (known_by pass.old) s) (at (known_by other) s) }
    {
        let mut slot = 0;
        for each in other.into_passes() {
            self.queues[slot].take_in(&mut pass.passes[slot], each);
            slot += 1;
        }
    }

    /// Looks once more at each queue, for the contract alone.
    fn look_at_all(&self, pass: &mut QueuesPass)
        requires { IsPassOf pass.old self.now }
        ensures { (s : ℕ) → s < length (known_by pass.old)
            → (waiting : List Hint) × IsLast (at (known_by pass.old) s) waiting }
    {
        for slot in 0..self.queues.len() {
            self.queues[slot].look_at_all(&mut pass.passes[slot]);
        }
    }
}
