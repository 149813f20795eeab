//! By what an operation names its shard.

ghost use Rattle.std.specs.Prelude.{◌≡◌};
ghost use Rattle.service_model_types.specs.Homes.{home, home_said};

use crate::request::{Operation, TakenTask};
use wf_event_values::Id;

/// By what an operation names its shard.
#[derive(Clone, Copy)]
pub enum Home<'a> {
    /// The shard of a workflow ID.
    Workflow(&'a Id),
    /// The shard in the token of a task that was taken.
    Token(TakenTask),
    /// Nothing: a task that waits, a timer turn and the parts of other turns are served for a call that
    /// names their shard.
    Part,
}

impl Operation {
    /// By what it names its shard.
    pub fn home(&self) -> Home<'_>
        ensures { home_said result ≡ home self.now }
    {
        match self {
            Operation::Start(asked) => Home::Workflow(&asked.get().workflow_id),
            Operation::Signal(asked) => Home::Workflow(&asked.workflow_id),
            Operation::SignalWithStart(asked) => Home::Workflow(&asked.get().workflow_id),
            Operation::RequestCancel(asked) => Home::Workflow(&asked.workflow_id),
            Operation::Terminate(asked) => Home::Workflow(&asked.workflow_id),
            Operation::History(asked) | Operation::Describe(asked) => {
                Home::Workflow(&asked.workflow_id)
            }
            Operation::CompleteWorkflowTask(asked) => Home::Token(asked.task),
            Operation::FailWorkflowTask(asked) => Home::Token(asked.task),
            Operation::CompleteActivity(asked)
            | Operation::CancelActivity(asked)
            | Operation::Heartbeat(asked) => Home::Token(asked.task),
            Operation::FailActivity(asked) => Home::Token(asked.task),
            Operation::StartTask(_)
            | Operation::TimerTurn
            | Operation::NextTransfer(_)
            | Operation::Deliver(_)
            | Operation::Acknowledge(_)
            | Operation::NextDispatch
            | Operation::Dispatched(_) => Home::Part,
        }
    }
}
