//! How much room the facts of a step need in a run's tables.

ghost use Rattle.std.specs.Prelude.{◌≡◌, ◌^◌, ◌<◌, length};
ghost use Rattle.service_model_types.specs.declared.journal.Fact.TheVariants.{Event as an_event};
ghost use Rattle.mutable_state.specs.Rooms.{AreAtMost, IsWithin, is_remembered, need_of, needs, no_rooms, one_if, plus, task_behind};

use crate::task::{WorkflowTask, is_started, turn_of};
use service_model_types::journal::{EventFact, Fact};
use service_model_types::phase::TaskPhase;
use wf_event::Attributes;
use wf_event_values::Moment;

/// So many places in each of a run's tables.
#[derive(Clone, Copy)]
pub struct Rooms {
    /// Of the history, for each event: what is buffered has one too.
    pub events: usize,
    /// For what is buffered.
    pub held: usize,
    /// For the request ids of signals. A request to cancel has a place of its own beside them, which
    /// is there where one of these is.
    pub requests: usize,
    /// For what is opened.
    pub rows: usize,
    /// For the first deadlines of what is in use.
    pub deadlines: usize,
}

impl Rooms {
    fn none() -> Rooms
        ensures { result ≡ no_rooms }
    {
        Rooms {
            events: 0,
            held: 0,
            requests: 0,
            rows: 0,
            deadlines: 0,
        }
    }

    /// With what one more fact needs, where the workflow task stands so before it.
    fn with(self, phase: TaskPhase, fact: &Fact) -> Rooms
        requires { AreAtMost (2 ^ 63) self }
        ensures { result ≡ plus self (need_of phase fact.now) }
    {
        match fact {
            Fact::Event(event) => self.with_event(phase, event),
            Fact::Note(_) => Rooms {
                deadlines: self.deadlines + 1,
                ..self
            },
        }
    }

    fn with_event(self, phase: TaskPhase, event: &EventFact) -> Rooms
        requires { AreAtMost (2 ^ 63) self }
        ensures { result ≡ plus self (need_of phase (an_event event.now)) }
    {
        let attributes = &event.attributes;
        let opened = one_if(attributes.opens().is_some());
        Rooms {
            events: self.events + 1,
            held: self.held + one_if(is_started(phase) && attributes.is_outside()),
            requests: self.requests + one_if(is_remembered(event)),
            rows: self.rows + opened,
            deadlines: self.deadlines + opened,
        }
    }
}

/// Room for all of these facts, where this is the run's workflow task before them.
pub(crate) fn rooms_for(task: WorkflowTask, facts: &[Fact]) -> Rooms
    requires { length facts.now < 2 ^ 63 }
    ensures { IsWithin (needs task.phase facts.now) result }
{
    let mut task = task;
    let mut rooms = Rooms::none();
    for fact in facts {
        rooms = rooms.with(task.phase, fact);
        task = behind(task, fact);
    }
    rooms
}

/// The workflow task after a fact. Of its numbers nothing is asked.
fn behind(task: WorkflowTask, fact: &Fact) -> WorkflowTask
    ensures { result.phase ≡ task_behind fact.now task.phase }
{
    match fact {
        Fact::Event(event) => task.turned(turn_of(&event.attributes), 0, Moment::zero()),
        Fact::Note(_) => task,
    }
}

/// Whether a fact is a request to cancel, or a signal that bears a request id.
fn is_remembered(event: &EventFact) -> bool
    ensures { result ≡ is_remembered event.now.request_id event.now.attributes }
{
    match event.attributes {
        Attributes::WorkflowExecutionSignaled(_) => event.request_id.is_some(),
        Attributes::WorkflowExecutionCancelRequested(_) => true,
        _ => false,
    }
}

fn one_if(is_so: bool) -> usize
    ensures { result ≡ one_if is_so }
{
    if is_so { 1 } else { 0 }
}
