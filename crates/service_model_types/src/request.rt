//! What a shard is asked.

ghost use Rattle.std.specs.Prelude.{◌≡◌};
ghost use Rattle.service_model_types.specs.Hints.{task_of};

use crate::transfer::Transfer;
use wf_command::Command;
use wf_event::Boxed;
use wf_event_values::{
    ConflictPolicy, Id, Items, Moment, ReusePolicy, RunId, Span, TaskKind, Text,
};

/// Starts a run.
pub struct Start {
    pub workflow_id: Id,
    pub workflow_type: Text,
    pub task_queue: Id,
    pub input: Text,
    pub request_id: Option<Id>,
    pub reuse: ReusePolicy,
    pub conflict: ConflictPolicy,
    pub run_timeout: Span,
    pub task_timeout: Span,
    pub execution_timeout: Span,
}

impl Drop for Start {
    fn drop(self) {
        let Start {
            workflow_id: _,
            workflow_type: _,
            task_queue: _,
            input: _,
            request_id: _,
            reuse: _,
            conflict: _,
            run_timeout: _,
            task_timeout: _,
            execution_timeout: _,
        } = self;
    }
}

/// Signals a run.
pub struct Signal {
    pub workflow_id: Id,
    pub run: Option<RunId>,
    pub name: Text,
    pub input: Text,
    pub request_id: Option<Id>,
}

impl Drop for Signal {
    fn drop(self) {
        let Signal {
            workflow_id: _,
            run: _,
            name: _,
            input: _,
            request_id: _,
        } = self;
    }
}

/// Signals the open run of an ID, or starts one and signals it. It has no conflict policy: a run is
/// started only where none is open.
pub struct SignalWithStart {
    pub workflow_id: Id,
    pub workflow_type: Text,
    pub task_queue: Id,
    pub input: Text,
    pub request_id: Option<Id>,
    pub reuse: ReusePolicy,
    pub run_timeout: Span,
    pub task_timeout: Span,
    pub execution_timeout: Span,
    pub name: Text,
    pub signal_input: Text,
}

impl Drop for SignalWithStart {
    fn drop(self) {
        let SignalWithStart {
            workflow_id: _,
            workflow_type: _,
            task_queue: _,
            input: _,
            request_id: _,
            reuse: _,
            run_timeout: _,
            task_timeout: _,
            execution_timeout: _,
            name: _,
            signal_input: _,
        } = self;
    }
}

/// Asks a run to cancel.
pub struct RequestCancel {
    pub workflow_id: Id,
    pub run: Option<RunId>,
    pub request_id: Option<Id>,
}

impl Drop for RequestCancel {
    fn drop(self) {
        let RequestCancel {
            workflow_id: _,
            run: _,
            request_id: _,
        } = self;
    }
}

/// Terminates a run.
pub struct Terminate {
    pub workflow_id: Id,
    pub run: Option<RunId>,
    pub reason: Text,
}

impl Drop for Terminate {
    fn drop(self) {
        let Terminate {
            workflow_id: _,
            run: _,
            reason: _,
        } = self;
    }
}

/// Names a run to be read.
pub struct Read {
    pub workflow_id: Id,
    pub run: Option<RunId>,
}

impl Drop for Read {
    fn drop(self) {
        let Read {
            workflow_id: _,
            run: _,
        } = self;
    }
}

/// A task of a shard that may wait to be taken: its kind, the run's ordinal, the event that scheduled
/// it, and the attempt, which all count from 1.
#[derive(Clone, Copy)]
pub struct WaitingTask {
    pub kind: TaskKind,
    pub run: u64,
    pub event: u64,
    pub attempt: u32,
}

/// What a task queue holds: a task that may wait to be taken, and its shard.
#[derive(Clone, Copy)]
pub struct Hint {
    pub kind: TaskKind,
    pub shard: u16,
    pub run: u64,
    pub event: u64,
    pub attempt: u32,
}

impl Hint {
    /// The task that it names on its shard.
    pub fn task(&self) -> WaitingTask
        ensures { result ≡ task_of self.now }
    {
        WaitingTask {
            kind: self.kind,
            run: self.run,
            event: self.event,
            attempt: self.attempt,
        }
    }
}

/// A task that was taken, as a task token names it; the call that bears it says which kind it is of.
#[derive(Clone, Copy)]
pub struct TakenTask {
    pub shard: u16,
    pub run: u64,
    pub event: u64,
    pub attempt: u32,
}

/// Completes a workflow task by commands.
pub struct CompleteWorkflowTask {
    pub task: TakenTask,
    pub commands: Items<Command>,
}

impl Drop for CompleteWorkflowTask {
    fn drop(self) {
        let CompleteWorkflowTask {
            task: _,
            commands: _,
        } = self;
    }
}

/// Fails a workflow task.
pub struct FailWorkflowTask {
    pub task: TakenTask,
    pub message: Text,
}

impl Drop for FailWorkflowTask {
    fn drop(self) {
        let FailWorkflowTask {
            task: _,
            message: _,
        } = self;
    }
}

/// Ends an activity's attempt, or reports on it, by a text.
pub struct ActivityText {
    pub task: TakenTask,
    pub text: Text,
}

impl Drop for ActivityText {
    fn drop(self) {
        let ActivityText { task: _, text: _ } = self;
    }
}

/// Fails an activity's attempt.
pub struct FailActivity {
    pub task: TakenTask,
    pub message: Text,
    pub error_type: Option<Text>,
    pub non_retryable: bool,
}

impl Drop for FailActivity {
    fn drop(self) {
        let FailActivity {
            task: _,
            message: _,
            error_type: _,
            non_retryable: _,
        } = self;
    }
}

/// Counts on the transfers to a shard.
pub struct Acknowledge {
    pub to: u16,
    pub number: u64,
}

impl Drop for Acknowledge {
    fn drop(self) {
        let Acknowledge { to: _, number: _ } = self;
    }
}

/// What a shard serves. The large ones lie elsewhere, so that a record's entry of any other is small.
pub enum Operation {
    Start(Boxed<Start>),
    Signal(Signal),
    SignalWithStart(Boxed<SignalWithStart>),
    RequestCancel(RequestCancel),
    Terminate(Terminate),
    /// Takes a task that waits. It names no shard, so a service makes it of a hint, which does.
    StartTask(WaitingTask),
    CompleteWorkflowTask(CompleteWorkflowTask),
    FailWorkflowTask(FailWorkflowTask),
    CompleteActivity(ActivityText),
    FailActivity(FailActivity),
    CancelActivity(ActivityText),
    Heartbeat(ActivityText),
    History(Read),
    Describe(Read),
    /// Lets the shard's first deadline fire, if it is due. It names no shard, so a service makes it
    /// of a call that does.
    TimerTurn,
    /// Asks for the first transfer to a shard that is not acknowledged. It names the shard that it is
    /// to, and not the one that is asked; nor do the four that follow.
    NextTransfer(u16),
    /// Delivers a transfer.
    Deliver(Boxed<Transfer>),
    /// Counts on the transfers to a shard.
    Acknowledge(Acknowledge),
    /// Asks for the first dispatch that is not counted.
    NextDispatch,
    /// Counts the dispatch of that number, which was pushed.
    Dispatched(u64),
}

impl Drop for Operation {
    fn drop(self) {
        match self {
            Operation::Start(_) => {}
            Operation::Signal(_) => {}
            Operation::SignalWithStart(_) => {}
            Operation::RequestCancel(_) => {}
            Operation::Terminate(_) => {}
            Operation::StartTask(_) => {}
            Operation::CompleteWorkflowTask(_) => {}
            Operation::FailWorkflowTask(_) => {}
            Operation::CompleteActivity(_) => {}
            Operation::FailActivity(_) => {}
            Operation::CancelActivity(_) => {}
            Operation::Heartbeat(_) => {}
            Operation::History(_) => {}
            Operation::Describe(_) => {}
            Operation::TimerTurn => {}
            Operation::NextTransfer(_) => {}
            Operation::Deliver(_) => {}
            Operation::Acknowledge(_) => {}
            Operation::NextDispatch => {}
            Operation::Dispatched(_) => {}
        }
    }
}

/// A request, with the moment that it names.
pub struct Request {
    pub at: Moment,
    pub operation: Operation,
}

impl Drop for Request {
    fn drop(self) {
        let Request {
            at: _,
            operation: _,
        } = self;
    }
}
