//! What a step will do to a shard, with all that it needs made.

ghost use Rattle.std.specs.Prelude.{◌≡◌, Ok, Some};
ghost use Rattle.service_model.specs.Outcome.{answered, refused};
ghost use Rattle.shard_store.specs.Fitting.{adding, no_parts, nothing, taking};
ghost use Rattle.shard_store.specs.declared.plan.Change.TheVariants as change;

use crate::place::Place;
use mutable_state::PlannedFacts;
use mutable_state_keeper::KeepsRun;
use service_model_types::answer::{Answer, Reply};
use service_model_types::transfer::Sent;
use wf_event::Boxed;
use wf_event_values::{Moment, Refusal};

/// A run that a step makes, and its workflow ID as the index keeps it.
#[derive(Drop)]
pub struct NewRun<T: KeepsRun> {
    pub run: Place<T>,
    pub key: String,
}

/// What a step adds to the run at a place.
#[derive(Drop)]
pub struct MoreOf {
    pub index: usize,
    pub plan: PlannedFacts,
}

/// Which count a step moves on.
#[derive(Clone, Copy)]
pub enum Count {
    Nothing,
    /// The first dispatch that waits is counted.
    Dispatch,
    /// The next transfer of a shard is accepted.
    Accepts(u16),
    /// The first transfer to a shard that is not acknowledged is.
    Acknowledges(u16),
}

/// What a step does to a shard: it deletes the run at a place, or it makes parts.
#[derive(Drop)]
pub enum Change<T: KeepsRun> {
    Takes(usize),
    Makes(Parts<T>),
}

/// The parts of a step, each of them or none: what an older run gets, the run that is made, the count
/// that is moved on, and the transfer that answers another one. That is large, and few steps have
/// one, so it lies elsewhere.
#[derive(Drop)]
pub struct Parts<T: KeepsRun> {
    pub added: Option<MoreOf>,
    pub created: Option<NewRun<T>>,
    pub count: Count,
    pub answer: Option<Boxed<Sent>>,
}

impl<T: KeepsRun> Parts<T> {
    /// None of them.
    pub fn none() -> Parts<T>
        ensures { result ≡ no_parts }
    {
        Parts {
            added: None,
            created: None,
            count: Count::Nothing,
            answer: None,
        }
    }

    /// And an older run gets these facts.
    pub fn add(self, more: MoreOf) -> Parts<T>
        ensures { result ≡ record self { added = Some more } }
    {
        Parts {
            added: Some(more),
            ..self
        }
    }

    /// And this run is made, if one is.
    pub fn make(self, created: Option<NewRun<T>>) -> Parts<T>
        ensures { result ≡ record self { created = created } }
    {
        Parts { created, ..self }
    }

    /// And this count is moved on.
    pub fn count(self, count: Count) -> Parts<T>
        ensures { result ≡ record self { count = count } }
    {
        Parts { count, ..self }
    }

    /// And this transfer answers another one, if one does.
    pub fn answer(self, answer: Option<Boxed<Sent>>) -> Parts<T>
        ensures { result ≡ record self { answer = answer } }
    {
        Parts { answer, ..self }
    }

    /// A step that makes these parts, and answers.
    pub fn plan(self, moment: Moment, answer: Answer) -> Plan<T>
        ensures { result ≡ record { moment = moment; change = change.Makes self; reply = Ok answer } }
    {
        Plan {
            moment,
            change: Change::Makes(self),
            reply: Ok(answer),
        }
    }
}

/// A step that can't fail any more.
pub struct Plan<T: KeepsRun> {
    pub moment: Moment,
    pub change: Change<T>,
    pub reply: Reply,
}

impl<T: KeepsRun> Drop for Plan<T> {
    fn drop(self) {
        let Plan {
            moment: _,
            change: _,
            reply: _,
        } = self;
    }
}

impl<T: KeepsRun> Plan<T> {
    pub(crate) fn into_parts(self) -> (Moment, Change<T>, Reply)
        ensures { result ≡ (self.moment, self.change, self.reply) }
    {
        let Plan {
            moment,
            change,
            reply,
        } = self;
        (moment, change, reply)
    }
}

/// A step that changes nothing, and answers.
pub fn answered<T: KeepsRun>(moment: Moment, answer: Answer) -> Plan<T>
    ensures { result ≡ record {
      moment = moment;
      change = nothing;
      reply = (answered answer).reply;
    } }
{
    Parts::none().plan(moment, answer)
}

/// A step that changes nothing, and refuses.
pub fn refused<T: KeepsRun>(moment: Moment, refusal: Refusal) -> Plan<T>
    ensures { result ≡ record {
      moment = moment;
      change = nothing;
      reply = (refused refusal).reply;
    } }
{
    Plan {
        moment,
        change: Change::Makes(Parts::none()),
        reply: Err(refusal),
    }
}

/// A step that adds to a run, and answers.
pub fn adding<T: KeepsRun>(moment: Moment, more: MoreOf, answer: Answer) -> Plan<T>
    ensures { result ≡ record { moment = moment; change = adding more; reply = Ok answer } }
{
    Parts::none().add(more).plan(moment, answer)
}

/// A step that deletes the run at a place, and answers.
pub fn taking<T: KeepsRun>(moment: Moment, index: usize, answer: Answer) -> Plan<T>
    ensures { result ≡ record { moment = moment; change = taking index; reply = Ok answer } }
{
    Plan {
        moment,
        change: Change::Takes(index),
        reply: Ok(answer),
    }
}
