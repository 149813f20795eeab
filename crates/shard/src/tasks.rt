//! Taking a workflow task, and its end.
//!
//! Rules: W2, W4, W5, W6, W13, W14, W15, D16.

ghost use Rattle.std.specs.Prelude.{◌≡◌, ◌<◌, [], length, map, true, is_some, IfOk, IfSome};
ghost use Rattle.wf_event_values.specs.declared.policies.Cause.TheVariants.{WorkflowWorkerUnhandledFailure};
ghost use Rattle.service_model_types.specs.declared.answer.Answer.TheVariants.{Failed};
ghost use Rattle.service_model.specs.Completion.{judge_all, failed_task};
ghost use Rattle.service_model.specs.Journal.{plain};
ghost use Rattle.service_model.specs.Outcome.{adds, next_ordinal, run_at, run_id};
ghost use Rattle.service_model.specs.RunState.{is_open, is_there};
ghost use Rattle.service_model.specs.Tasks.{start_task, take_workflow, waits_workflow, runs_workflow, complete_workflow_task, complete_judged, fail_workflow_task};
ghost use Rattle.shard_store.specs.ShardView.{ordinal_of, run_in, runs_at, runs_in, state};
ghost use Rattle.shard_store.specs.Fitting.{FitsStep};

use crate::activities::take_activity;
use crate::followers::make_follower;
use crate::more::add_facts;
use mutable_state::{is_scheduled, is_started};
use mutable_state_keeper::KeepsRun;
use service_model_types::answer::{Answer, WorkflowTask};
use service_model_types::request::{
    CompleteWorkflowTask, FailWorkflowTask, TakenTask, WaitingTask,
};
use shard_steps::{ended, started_facts};
use shard_store::{MoreOf, Parts, Plan, Store, adding, answered, refused};
use std::alloc::AllocError;
use task_completion::Completion;
use wf_event_values::{Moment, Refusal, TaskKind};

/// A task is taken, where it waits.
#[tactic(auto, unfolding(service_model::specs::Tasks::start_task))]
pub(crate) fn start_task<T: KeepsRun>(
    store: &mut Store<T>,
    moment: Moment,
    wanted: WaitingTask,
) -> Result<Plan<T>, AllocError>
    ensures same { state store.new ≡ state store.old }
    ensures plan { IfOk result (λ plan. FitsStep store.new plan moment
        (start_task (runs_at store.old moment) wanted)) }
{
    match wanted.kind {
        TaskKind::Workflow => take_workflow_task(store, moment, wanted),
        TaskKind::Activity => take_activity(store, moment, wanted),
    }
}

/// A workflow task is taken, where it waits.
fn take_workflow_task<T: KeepsRun>(
    store: &mut Store<T>,
    moment: Moment,
    wanted: WaitingTask,
) -> Result<Plan<T>, AllocError>
    ensures same { state store.new ≡ state store.old }
    ensures plan { IfOk result (λ plan. FitsStep store.new plan moment
        (take_workflow (runs_at store.old moment) wanted)) }
{
    match find_waiting(store, wanted)? {
        Some(index) => take_waiting_task(store, moment, index, wanted),
        None => Ok(answered(moment, Answer::Stale)),
    }
}

/// The start of the scheduled task of the run at a place.
fn take_waiting_task<T: KeepsRun>(
    store: &mut Store<T>,
    moment: Moment,
    index: usize,
    wanted: WaitingTask,
) -> Result<Plan<T>, AllocError>
    requires there { index < length store.old.runs }
    requires begun { is_there (run_in store.old index) ≡ true }
    requires run { ordinal_of index ≡ wanted.run }
    requires waits { waits_workflow (runs_in store.old) wanted ≡ true }
    requires open { is_open (run_in store.old index) ≡ true }
    ensures same { state store.new ≡ state store.old }
    ensures plan { IfOk result (λ plan. FitsStep store.new plan moment
        (take_workflow (runs_at store.old moment) wanted)) }
{
    let shown = store.run(index).shown(store.alloc())?;
    let task = WorkflowTask {
        attempt: wanted.attempt,
        run: store.run_id(index),
        scheduled: wanted.event,
        started: shown as u64 + 1,
        workflow_id: store.run(index).workflow_id().clone()?,
    };
    let facts = started_facts(store.alloc(), wanted.event)?;
    add_facts(store, moment, index, facts, Answer::WorkflowTask(task))
}

/// The place of the run whose workflow task waits to be taken as it is named.
fn find_waiting<T: KeepsRun>(
    store: &Store<T>,
    wanted: WaitingTask,
) -> Result<Option<usize>, AllocError>
    ensures waits { IfOk result (λ found. waits_workflow (runs_in store.now) wanted
        ≡ is_some found) }
    ensures found { IfOk result (λ found. IfSome found
        (λ index. (ordinal_of index ≡ wanted.run) × (index < length store.now.runs)
        × (is_there (run_in store.now index) ≡ true))) }
    ensures open { IfOk result (λ found. IfSome found
        (λ index. is_open (run_in store.now index) ≡ true)) }
{
    let Some(index) = store.place_of(wanted.run) else {
        return Ok(None);
    };
    let task = store.run(index).task(store.alloc())?;
    if is_scheduled(task.phase)
        && task.scheduled == wanted.event
        && task.attempt == wanted.attempt
    {
        Ok(Some(index))
    } else {
        Ok(None)
    }
}

/// The place of the run whose workflow task is running at that attempt.
fn find_running<T: KeepsRun>(
    store: &Store<T>,
    taken: TakenTask,
) -> Result<Option<usize>, AllocError>
    ensures runs { IfOk result (λ found. runs_workflow (runs_in store.now) taken
        ≡ is_some found) }
    ensures found { IfOk result (λ found. IfSome found
        (λ index. (ordinal_of index ≡ taken.run) × (index < length store.now.runs)
        × (is_there (run_in store.now index) ≡ true))) }
{
    let Some(index) = store.place_on(taken.shard, taken.run) else {
        return Ok(None);
    };
    let task = store.run(index).task(store.alloc())?;
    if is_started(task.phase) && task.scheduled == taken.event && task.attempt == taken.attempt {
        Ok(Some(index))
    } else {
        Ok(None)
    }
}

/// A workflow task is completed.
#[tactic(auto, unfolding(service_model::specs::Tasks::complete_workflow_task))]
pub(crate) fn complete_workflow_task<T: KeepsRun>(
    store: &mut Store<T>,
    moment: Moment,
    request: &CompleteWorkflowTask,
) -> Result<Plan<T>, AllocError>
    ensures same { state store.new ≡ state store.old }
    ensures plan { IfOk result (λ plan. FitsStep store.new plan moment
        (complete_workflow_task (runs_at store.old moment) request.now)) }
{
    match find_running(store, request.task)? {
        Some(index) => complete_running_task(store, moment, index, request),
        None => Ok(refused(moment, Refusal::NotFound)),
    }
}

/// The end of the started task of the run at a place, and the run that follows where it continues
/// as new: both, or neither.
fn complete_running_task<T: KeepsRun>(
    store: &mut Store<T>,
    moment: Moment,
    index: usize,
    request: &CompleteWorkflowTask,
) -> Result<Plan<T>, AllocError>
    requires there { index < length store.old.runs }
    requires begun { is_there (run_in store.old index) ≡ true }
    requires run { ordinal_of index ≡ request.now.task.run }
    requires runs { runs_workflow (runs_in store.old) request.now.task ≡ true }
    ensures same { state store.new ≡ state store.old }
    ensures plan { IfOk result (λ plan. FitsStep store.new plan moment
        (complete_judged (runs_at store.old moment) request.now
        (judge_all store.old.setup (run_id store.old.setup (next_ordinal (runs_at store.old moment)))
        (run_at (runs_at store.old moment) request.now.task.run) [] request.now.commands))) }
{
    let commands = request.commands.as_slice();
    let Completion { plan, fault } = store.complete_in(index, commands, moment)?;
    // Only a completion that was judged without a fault begins another run.
    let created = make_follower(store, moment, index, fault, commands)?;
    let parts = Parts::none().add(MoreOf { index, plan }).make(created);
    Ok(parts.plan(moment, ended(fault)))
}

/// A workflow task is failed by its worker.
#[tactic(auto, unfolding(service_model::specs::Tasks::fail_workflow_task))]
pub(crate) fn fail_workflow_task<T: KeepsRun>(
    store: &mut Store<T>,
    moment: Moment,
    request: &FailWorkflowTask,
) -> Result<Plan<T>, AllocError>
    ensures same { state store.new ≡ state store.old }
    ensures plan { IfOk result (λ plan. FitsStep store.new plan moment
        (fail_workflow_task (runs_at store.old moment) request.now)) }
{
    match find_running(store, request.task)? {
        Some(index) => fail_running_task(store, moment, index, request),
        None => Ok(refused(moment, Refusal::NotFound)),
    }
}

/// The failure of the started task of the run at a place.
fn fail_running_task<T: KeepsRun>(
    store: &mut Store<T>,
    moment: Moment,
    index: usize,
    request: &FailWorkflowTask,
) -> Result<Plan<T>, AllocError>
    requires there { index < length store.old.runs }
    requires begun { is_there (run_in store.old index) ≡ true }
    requires run { ordinal_of index ≡ request.now.task.run }
    requires runs { runs_workflow (runs_in store.old) request.now.task ≡ true }
    ensures same { state store.new ≡ state store.old }
    ensures plan { IfOk result (λ plan. FitsStep store.new plan moment
        (adds request.now.task.run
        (map plain (failed_task (run_at (runs_at store.old moment) request.now.task.run)
        WorkflowWorkerUnhandledFailure request.now.message)) Failed)) }
{
    let message = request.message.clone()?;
    let plan = store.fail_in(index, message, moment)?;
    let more = MoreOf { index, plan };
    Ok(adding(moment, more, Answer::Failed))
}
