//! How two passes tell each other what they have seen.

ghost use Rattle.std.specs.Prelude.{◌≡◌, ℕ, ◌<◌};
ghost use Rattle.gate.specs.Passes.{KeepsOwn};
ghost use Rattle.matching.specs.Named.{Met};
ghost use Rattle.service.specs.Headline.{MeetAndAgree};

use crate::service::{Pass, Service};
use shard_gate::ShardObject;

impl<S: ShardObject> Service<S> {
    ghost use Rattle.service.specs.Services.{IsPassOf, hints_by, known_by, settings_of};

    /// Of each shard, the record that one pass had seen began the one that the other had, and so it
    /// was with the tickets of its steps and with what each had seen of a task queue. Afterwards both
    /// have seen the longer, so each later step of either has a ticket above all that both had seen.
    /// It takes no memory, and changes no shard and no queue.
    pub fn meet(&self, first: &mut Pass<S>, second: &mut Pass<S>)
        requires first { IsPassOf first.old self.now }
        requires second { IsPassOf second.old self.now }
        ensures first_own { IsPassOf first.new self.now }
        ensures second_own { IsPassOf second.new self.now }
        ensures hints { Met (hints_by first.old) (hints_by second.old)
            (hints_by first.new) (hints_by second.new) }
        ensures met { MeetAndAgree (settings_of self.now).shards
            (known_by first.old) (known_by second.old)
            (known_by first.new) (known_by second.new) }
        ensures first { KeepsOwn (known_by first.old) (known_by first.new) }
        ensures second { KeepsOwn (known_by second.old) (known_by second.new) }
    {
        self.gate.meet(&mut first.inner, &mut second.inner);
        self.queues.meet(&mut first.hints, &mut second.hints);
    }
}
