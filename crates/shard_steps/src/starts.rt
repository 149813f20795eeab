//! The runs that steps make.
//!
//! Rules: H2, H3, I5.

ghost use Rattle.std.specs.Prelude.{◌≡◌, IfOk};
ghost use Rattle.service_model.specs.Signals.{start_in};
ghost use Rattle.service_model.specs.Starts.{deadline_of, first_task};
ghost use Rattle.shard_steps.specs.Starts.{started_by, beginning_of, signaled_beginning, new_run, MayBegin};

use crate::signals::signal_fact;
use mutable_state::{StepFacts, plain};
use mutable_state_keeper::{KeepsRun, Run};
use service_model_types::journal::{Fact, copied};
use service_model_types::limits::used_task_timeout;
use service_model_types::request::{SignalWithStart, Start};
use std::alloc::{AllocError, Global};
use wf_event::Attributes;
use wf_event::payloads::{WorkflowExecutionStarted, WorkflowTaskScheduled};
use wf_event_values::{Id, Items, Moment, Span};

/// How a run begins: its first event, the request id of its start, and what else its first step adds.
#[derive(Drop)]
pub struct Beginning {
    pub started: WorkflowExecutionStarted,
    pub request_id: Option<Id>,
    pub facts: Items<Fact>,
}

/// A run that begins so.
pub fn new_run<T: KeepsRun>(
    alloc: Global,
    moment: Moment,
    beginning: Beginning,
) -> Result<Run<T>, AllocError>
    requires { MayBegin moment beginning }
    ensures { IfOk result (λ run. run.state ≡ new_run moment beginning) }
{
    let Beginning {
        started,
        request_id,
        facts,
    } = beginning;
    let mut run = Run::begin(alloc, moment, started, request_id)?;
    let plan = run.prepare(StepFacts { moment, facts })?;
    run.commit(plan);
    Ok(run)
}

/// How the run of a start begins: with its first workflow task.
pub fn beginning_of(alloc: Global, moment: Moment, start: &Start) -> Result<Beginning, AllocError>
    ensures { IfOk result (λ b. b ≡ beginning_of moment start.now) }
{
    let mut facts = Vec::new(alloc);
    facts.push(first_task(&start.task_queue)?)?;
    Ok(Beginning {
        started: started_by(moment, start)?,
        request_id: copied(&start.request_id)?,
        facts: Items::from_vec(facts),
    })
}

/// How the run of a start begins that is signaled before its first workflow task.
pub fn signaled_beginning(
    alloc: Global,
    moment: Moment,
    both: &SignalWithStart,
) -> Result<Beginning, AllocError>
    ensures { IfOk result (λ b. b ≡ signaled_beginning moment both.now) }
{
    let mut facts = Vec::new(alloc);
    facts.push(signal_fact(&both.request_id, &both.name, &both.signal_input)?)?;
    facts.push(first_task(&both.task_queue)?)?;
    Ok(Beginning {
        started: started_with(moment, both)?,
        request_id: copied(&both.request_id)?,
        facts: Items::from_vec(facts),
    })
}

/// The first workflow task of a run in the queue.
pub fn first_task(queue: &Id) -> Result<Fact, AllocError>
    ensures { IfOk result (λ fact. fact ≡ first_task queue.now) }
{
    Ok(plain(Attributes::WorkflowTaskScheduled(WorkflowTaskScheduled {
        attempt: 1,
        task_queue: queue.clone()?,
    })))
}

/// When a workflow is over that starts at this moment.
fn deadline_of(moment: Moment, timeout: Span) -> Option<u64>
    ensures { result ≡ deadline_of moment timeout }
{
    if timeout.millis() == 0 {
        return None;
    }
    Some(moment.millis() + timeout.millis())
}

/// What a start's run begins with.
fn started_by(moment: Moment, start: &Start) -> Result<WorkflowExecutionStarted, AllocError>
    ensures { IfOk result (λ a. a ≡ started_by moment start.now) }
{
    Ok(WorkflowExecutionStarted {
        workflow_id: start.workflow_id.clone()?,
        workflow_type: start.workflow_type.clone()?,
        task_queue: start.task_queue.clone()?,
        input: start.input.clone()?,
        run_timeout: start.run_timeout,
        task_timeout: used_task_timeout(start.task_timeout),
        continued_from: None,
        parent: None,
        execution_deadline: deadline_of(moment, start.execution_timeout),
    })
}

/// What the run of a start begins with that is signaled.
fn started_with(
    moment: Moment,
    both: &SignalWithStart,
) -> Result<WorkflowExecutionStarted, AllocError>
    ensures { IfOk result (λ a. a ≡ started_by moment (start_in both.now)) }
{
    Ok(WorkflowExecutionStarted {
        workflow_id: both.workflow_id.clone()?,
        workflow_type: both.workflow_type.clone()?,
        task_queue: both.task_queue.clone()?,
        input: both.input.clone()?,
        run_timeout: both.run_timeout,
        task_timeout: used_task_timeout(both.task_timeout),
        continued_from: None,
        parent: None,
        execution_deadline: deadline_of(moment, both.execution_timeout),
    })
}
