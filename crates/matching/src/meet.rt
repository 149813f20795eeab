//! How two passes tell each other what they have seen.
ghost use Rattle.std.specs.Prelude.{◌≡◌, ◌*◌, ℕ, ◌<◌};
ghost use Rattle.matching.specs.Named.{Met};

use crate::queues::{Queues, QueuesPass};

impl Queues {
    ghost use Rattle.matching.specs.Named.{names_of, known_by, IsPassOf};

    /// Of each queue, one pass had seen a beginning of what the other had seen to be put, and so too
    /// of what was taken. Afterwards both have seen the longer. It takes no memory and never waits.
    pub fn meet(&self, first: &mut QueuesPass, second: &mut QueuesPass)
        requires first { IsPassOf first.old self.now }
        requires second { IsPassOf second.old self.now }
        ensures first { IsPassOf first.new self.now }
        ensures second { IsPassOf second.new self.now }
        ensures met { Met (known_by first.old) (known_by second.old)
            (known_by first.new) (known_by second.new) }
    {
        for slot in 0..self.queues.len() {
            self.queues[slot].meet(&mut first.passes[slot], &mut second.passes[slot]);
        }
    }
}
