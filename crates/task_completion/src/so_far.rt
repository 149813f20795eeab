//! What is kept while commands are judged.
//!
//! Rules: W4, W5, W6, W7, W9, W10, W11, X1.

ghost use Rattle.std.specs.Prelude.{◌≡◌, ◌+◌, [], false, length, IfOk, IsTrue, OnOk};
ghost use Rattle.std.specs.List.{list_any};
ghost use Rattle.wf_event.specs.RetryPolicies.{good_policy};
ghost use Rattle.service_model.specs.Completion.{has_members};
ghost use Rattle.service_model.specs.Pending.{is_cancel_request_of};
ghost use Rattle.wf_event.specs.declared.role.Class.TheVariants.{Signal, Cancel};
ghost use Rattle.wf_event_values.specs.declared.policies.Cause.TheVariants.{PendingSignalsLimitExceeded, PendingRequestCancelLimitExceeded};
ghost use Rattle.wf_command.specs.declared.command.Command.TheVariants as a_command;
ghost use Rattle.task_completion.specs.Faults.{Judges};
ghost use Rattle.task_completion.specs.Outward.{external_signal, external_cancel};
ghost use Rattle.task_completion.specs.Judging.{asked, event_named, HasGoodPolicy, is_asked, activity_scheduled, activity_asked, cancel_asked, timer_started, timer_canceled, recorded, closed, continued, by_kind, judged_now, Agrees};

use crate::fault::Fault;
use crate::follows::{continued_as_new, queue_after};
use crate::named::NamedRows;
use crate::outward::{Outward, child_asked, external_cancel, external_signal};
use crate::rows::{count_pending, has_pending_row, has_row, is_firing_of, is_running, was_asked};
use crate::scheduled::scheduled;
use mutable_state::{NotedActivity, Used};
use mutable_state_keeper::{KeepsRun, Run};
use service_model_types::content::Setup;
use service_model_types::limits::MOST_PENDING;
use std::alloc::{AllocError, Global};
use std::marker::Model;
use wf_command::command::{
    ContinueAsNew, RecordMarker, RequestCancelExternal, ScheduleActivityTask, SignalExternal,
    StartChild, StartTimer,
};
use wf_command::{Command, check};
use wf_event::payloads::{
    ActivityTaskCanceled, MarkerRecorded, TimerEnd, TimerStarted, WorkflowExecutionStarted,
};
use wf_event::{Attributes, Class};
use wf_event_values::{Cause, Id, RunId, Text};

/// How many commands that name a thing are judged by a walk over what is in use. For more of them its
/// names are collected first.
const FEW: usize = 16;

/// The facts of the commands so far, and what is in use and buffered after them.
pub struct SoFar<'a> {
    alloc: Global,
    setup: &'a Setup,
    /// The run that would follow this one.
    next: RunId,
    /// How this one began.
    started: &'a WorkflowExecutionStarted,
    facts: Vec<Attributes>,
    /// Whether one of them closes the run.
    is_closed: bool,
    /// The id of the first one's event.
    first: u64,
    timers: NamedRows<'a>,
    activities: NamedRows<'a>,
    /// What was noted of activities before the commands.
    notes: Vec<NotedActivity>,
    /// Of each event that is still buffered the timer that it fires.
    held: Vec<Option<u64>>,
    outward: Outward,
}

impl<'a> Drop for SoFar<'a> {
    fn drop(self) {
        let SoFar {
            alloc: _,
            setup: _,
            next: _,
            started: _,
            facts: _,
            is_closed: _,
            first: _,
            timers: _,
            activities: _,
            notes: _,
            held: _,
            outward: _,
        } = self;
    }
}

impl<'a> Model for SoFar<'a> {
    ghost use Rattle.task_completion.specs.Judging.{Kept};

    ghost Value = { Kept };

    ghost view = { λ k. record {
      setup = k.setup.now;
      next = k.next;
      began = k.started.now;
      facts = k.facts.items;
      is_closed = k.is_closed;
      first = k.first;
      timers = k.timers;
      activities = k.activities;
      notes = k.notes.items;
      held = k.held.items;
      outward = k.outward;
    } };
}

impl<'a> SoFar<'a> {
    /// Before any command of a completion of this run. The run that would follow it gets this id.
    pub fn begin<T: KeepsRun>(
        alloc: Global,
        run: &'a Run<T>,
        setup: &'a Setup,
        next: RunId,
    ) -> Result<SoFar<'a>, AllocError>
        ensures agrees { IfOk result (Agrees setup.now next run.now.state) }
        ensures facts { IfOk result (λ so_far. so_far.facts ≡ []) }
    {
        let shown = run.shown(alloc)? as u64;
        let timers = run.used(alloc, Class::Timer)?;
        let activities = run.used(alloc, Class::Activity)?;
        let notes = run.noted_activities(alloc)?;
        let held = run.held_firings(alloc)?;
        let pending = run.pending(alloc)?;
        let outward = Outward {
            children: pending.children,
            signals: pending.signals,
            cancels: pending.cancels,
        };
        Ok(SoFar {
            alloc,
            setup,
            next,
            started: run.started(),
            facts: Vec::new(alloc),
            is_closed: false,
            first: shown + 2,
            timers: NamedRows::new(timers),
            activities: NamedRows::new(activities),
            notes,
            held,
            outward,
        })
    }

    /// Collects the names in use, where it pays for so many commands that name something.
    pub fn collect_names(&mut self, commands: &[Command]) -> Result<(), AllocError>
        ensures { self.new ≡ self.old }
    {
        if are_many(commands, Class::Timer) {
            self.timers.collect_names(self.alloc)?;
        }
        if are_many(commands, Class::Activity) {
            self.activities.collect_names(self.alloc)?;
        }
        Ok(())
    }

    /// Judges one more command: its facts are added, or it is faulty.
    pub fn judge(&mut self, command: &'a Command) -> Result<(), Fault>
        ensures { Judges result self.new (judged_now self.old command.now) }
    {
        if self.is_closed {
            return Err(Cause::CommandAfterClose.into());
        }
        check(command)?;
        self.judge_checked(command)
    }

    /// Judges a command whose own fields have no fault.
    fn judge_checked(&mut self, command: &'a Command) -> Result<(), Fault>
        requires { HasGoodPolicy command.now }
        ensures { Judges result self.new (by_kind self.old command.now) }
    {
        match command {
            Command::ScheduleActivityTask(activity) => self.schedule_activity(activity),
            Command::RequestCancelActivityTask(scheduled) => self.request_cancel_activity(
                *scheduled,
            ),
            Command::StartTimer(timer) => self.start_timer(timer),
            Command::CancelTimer(timer_id) => self.cancel_timer(timer_id),
            Command::RecordMarker(marker) => self.record(marker),
            Command::CompleteWorkflowExecution(result) => {
                self.close(Attributes::WorkflowExecutionCompleted(result.clone()?))
            }
            Command::FailWorkflowExecution(message) => {
                self.close(Attributes::WorkflowExecutionFailed(message.clone()?))
            }
            Command::CancelWorkflowExecution(details) => {
                self.close(Attributes::WorkflowExecutionCanceled(details.clone()?))
            }
            Command::ContinueAsNewWorkflowExecution(command) => self.continue_as_new(command),
            Command::StartChildWorkflowExecution(command) => self.start_child(command),
            Command::SignalExternalWorkflowExecution(command) => self.signal_external(command),
            Command::RequestCancelExternalWorkflowExecution(command) => {
                self.request_cancel_external(command)
            }
        }
    }

    /// The id that the next fact's event gets.
    fn next_event(&self) -> Result<u64, AllocError>
        ensures { IfOk result (λ event. event ≡ self.now.first + length self.now.facts) }
    {
        self.first
            .checked_add(self.facts.len() as u64)
            .ok_or(AllocError)
    }

    /// The id of an activity is free once what ends it is written.
    fn schedule_activity(&mut self, activity: &'a ScheduleActivityTask) -> Result<(), Fault>
        requires { IsTrue (good_policy activity.now.retry) }
        ensures { Judges result self.new (activity_scheduled activity.now self.old) }
    {
        if !self.setup.knows_queue(&activity.task_queue) {
            return Err(Cause::BadScheduleActivityAttributes.into());
        }
        if self.activities.event_named(&activity.activity_id).is_some() {
            return Err(Cause::ScheduleActivityDuplicateId.into());
        }
        if MOST_PENDING <= count_pending(self.activities.rows()) as u64 {
            return Err(Cause::PendingActivitiesLimitExceeded.into());
        }
        let event = self.next_event()?;
        self.facts.push(scheduled(self.alloc, activity)?)?;
        self.activities
            .push(Used::new(event, Some(&activity.activity_id), false))?;
        Ok(())
    }

    /// A pending activity of which no attempt is running is canceled at once.
    fn request_cancel_activity(&mut self, scheduled: u64) -> Result<(), Fault>
        ensures { Judges result self.new (activity_asked scheduled self.old) }
    {
        if !has_row(self.activities.rows(), scheduled) || self.is_asked(scheduled) {
            return Err(Cause::BadRequestCancelActivityAttributes.into());
        }
        let is_pending = has_pending_row(self.activities.rows(), scheduled);
        let is_running = is_running(self.notes.as_slice(), scheduled);
        self.ask_to_cancel(scheduled, is_pending && !is_running)?;
        Ok(())
    }

    /// Whether an activity was asked to cancel, before or by the commands so far.
    fn is_asked(&self, scheduled: u64) -> bool
        ensures { result ≡ is_asked scheduled self.now }
    {
        was_asked(self.notes.as_slice(), scheduled)
            || is_some_request(self.facts.as_slice(), scheduled)
    }

    /// Asks an activity to cancel, and cancels it where that is done at once.
    fn ask_to_cancel(&mut self, scheduled: u64, at_once: bool) -> Result<(), AllocError>
        ensures { OnOk result (self.new ≡ cancel_asked scheduled at_once self.old) }
    {
        self.facts
            .push(Attributes::ActivityTaskCancelRequested(scheduled))?;
        if !at_once {
            return Ok(());
        }
        let details = Text::empty(self.alloc);
        self.facts.push(Attributes::ActivityTaskCanceled(ActivityTaskCanceled {
            scheduled,
            details,
        }))?;
        self.activities.remove(scheduled);
        Ok(())
    }

    /// The id of a timer is free once it fired or was canceled.
    fn start_timer(&mut self, timer: &'a StartTimer) -> Result<(), Fault>
        ensures { Judges result self.new (timer_started timer.now self.old) }
    {
        if self.timers.event_named(&timer.timer_id).is_some() {
            return Err(Cause::StartTimerDuplicateId.into());
        }
        let event = self.next_event()?;
        let timer_id = timer.timer_id.clone()?;
        self.facts.push(Attributes::TimerStarted(TimerStarted {
            timer_id,
            duration: timer.duration,
        }))?;
        self.timers
            .push(Used::new(event, Some(&timer.timer_id), false))?;
        Ok(())
    }

    /// A timer whose firing is buffered may be canceled: the firing is removed.
    fn cancel_timer(&mut self, timer_id: &Id) -> Result<(), Fault>
        ensures { Judges result self.new (timer_canceled timer_id.now
            (event_named timer_id.now self.old.timers) self.old) }
    {
        let Some(started) = self.timers.event_named(timer_id) else {
            return Err(Cause::BadCancelTimerAttributes.into());
        };
        let timer_id = timer_id.clone()?;
        self.facts
            .push(Attributes::TimerCanceled(TimerEnd { timer_id, started }))?;
        self.timers.remove(started);
        self.held.retain(|fired| !is_firing_of(fired, started));
        Ok(())
    }

    fn record(&mut self, marker: &RecordMarker) -> Result<(), Fault>
        ensures { Judges result self.new (recorded marker.now self.old) }
    {
        let name = marker.name.clone()?;
        let details = marker.details.clone()?;
        self.facts.push(Attributes::MarkerRecorded(MarkerRecorded { name, details }))?;
        Ok(())
    }

    /// A run isn't closed while an event is buffered, of which the worker does not know.
    fn close(&mut self, attributes: Attributes) -> Result<(), Fault>
        ensures { Judges result self.new (closed attributes self.old) }
    {
        if self.held.len() > 0 {
            return Err(Cause::UnhandledCommand.into());
        }
        self.facts.push(attributes)?;
        self.is_closed = true;
        Ok(())
    }

    /// Closes the run, which another one follows. What the command leaves out is as it was in this one.
    fn continue_as_new(&mut self, command: &'a ContinueAsNew) -> Result<(), Fault>
        ensures { Judges result self.new (continued command.now self.old) }
    {
        if !self.setup.knows_queue(queue_after(command, self.started)) {
            return Err(Cause::BadContinueAsNewAttributes.into());
        }
        let event = continued_as_new(self.alloc, command, self.started, self.next)?;
        self.close(event)
    }

    fn start_child(&mut self, command: &StartChild) -> Result<(), Fault>
        ensures { Judges result self.new
            (by_kind self.old (a_command.StartChildWorkflowExecution command.now)) }
    {
        if !self.setup.knows_queue(&command.task_queue) {
            return Err(Cause::BadStartChildExecutionAttributes.into());
        }
        if MOST_PENDING <= self.outward.children {
            return Err(Cause::PendingChildWorkflowsLimitExceeded.into());
        }
        self.facts.push(child_asked(self.alloc, command)?)?;
        self.outward.children += 1;
        Ok(())
    }

    fn signal_external(&mut self, command: &SignalExternal) -> Result<(), Fault>
        ensures { Judges result self.new (asked Signal
            PendingSignalsLimitExceeded (external_signal command.now) self.old) }
    {
        if MOST_PENDING <= self.outward.signals {
            return Err(Cause::PendingSignalsLimitExceeded.into());
        }
        self.facts.push(external_signal(self.alloc, command)?)?;
        self.outward.signals += 1;
        Ok(())
    }

    fn request_cancel_external(&mut self, command: &RequestCancelExternal) -> Result<(), Fault>
        ensures { Judges result self.new (asked Cancel
            PendingRequestCancelLimitExceeded (external_cancel command.now) self.old) }
    {
        if MOST_PENDING <= self.outward.cancels {
            return Err(Cause::PendingRequestCancelLimitExceeded.into());
        }
        self.facts.push(external_cancel(self.alloc, command)?)?;
        self.outward.cancels += 1;
        Ok(())
    }

    /// Whether an event is still buffered.
    pub fn is_some_held(&self) -> bool
        ensures { result ≡ has_members self.now.held }
    {
        self.held.len() > 0
    }

    /// Whether a command has closed the run.
    pub fn is_closed(&self) -> bool
        ensures { result ≡ self.now.is_closed }
    {
        self.is_closed
    }

    /// The facts of all commands.
    pub fn into_facts(self) -> Vec<Attributes>
        ensures { result.items ≡ self.entry.facts }
    {
        let SoFar {
            alloc: _,
            setup: _,
            next: _,
            started: _,
            facts,
            is_closed: _,
            first: _,
            timers: _,
            activities: _,
            notes: _,
            held: _,
            outward: _,
        } = self;
        facts
    }
}

/// Whether many commands name something of a class: for a few a walk over what is in use costs less.
fn are_many(commands: &[Command], class: Class) -> bool {
    FEW < commands
        .iter()
        .filter(|command| is_naming(command, class))
        .count()
}

/// Whether a command names something of a class by the worker's id.
fn is_naming(command: &Command, class: Class) -> bool {
    match command {
        Command::StartTimer(_) | Command::CancelTimer(_) => matches!(class, Class::Timer),
        Command::ScheduleActivityTask(_) => matches!(class, Class::Activity),
        _ => false,
    }
}

/// Whether one of the facts asks the activity to cancel.
fn is_some_request(facts: &[Attributes], scheduled: u64) -> bool
    ensures { result ≡ list_any (is_cancel_request_of scheduled) facts.now }
{
    facts
        .iter()
        .any(|attributes| is_request_of(attributes, scheduled))
}

fn is_request_of(attributes: &Attributes, scheduled: u64) -> bool
    ensures { result ≡ is_cancel_request_of scheduled attributes.now }
{
    match attributes {
        Attributes::ActivityTaskCancelRequested(asked) => *asked == scheduled,
        _ => false,
    }
}
