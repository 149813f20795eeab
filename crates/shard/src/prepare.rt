//! The first half of a step: what each request needs made.
//!
//! Rules: N3.

ghost use Rattle.std.specs.Prelude.{◌≡◌, max, IfOk};
ghost use Rattle.shard_store.specs.ShardView.{state};
ghost use Rattle.shard_store.specs.Fitting.{FitsStep};
ghost use Rattle.shard.specs.Deciding.{outcome_in};

use crate::attempts::{cancel_activity, complete_activity};
use crate::counts::{count_dispatch, read_next_dispatch};
use crate::ends::{request_cancel, terminate_workflow};
use crate::heartbeats::record_heartbeat;
use crate::reads::{describe_run, read_history};
use crate::signal_starts::signal_with_start;
use crate::signals::signal_workflow;
use crate::starts::start_workflow;
use crate::tasks::{complete_workflow_task, fail_workflow_task, start_task};
use crate::turns::timer_turn;
use crate::verdicts::fail_activity;
use mutable_state_keeper::KeepsRun;
use service_model_types::request::{Operation, Request};
use shard_deliveries::{acknowledge_transfer, deliver_transfer, read_next_transfer};
use shard_store::{Plan, Store};
use std::alloc::AllocError;
use wf_event_values::Moment;

/// Makes all that the request's step needs. The shard stands for the same contents, whatever the
/// result.
pub fn prepare<T: KeepsRun>(store: &mut Store<T>, request: &Request) -> Result<Plan<T>, AllocError>
    ensures same { state store.new ≡ state store.old }
    ensures plan { IfOk result (λ plan. FitsStep store.new plan
        (max request.now.at store.old.last)
        (outcome_in (state store.old) (max request.now.at store.old.last)
        request.now.operation)) }
{
    let moment = request.at.later(store.last());
    prepare_at(store, moment, &request.operation)
}

/// The same at the step's moment.
fn prepare_at<T: KeepsRun>(
    store: &mut Store<T>,
    moment: Moment,
    operation: &Operation,
) -> Result<Plan<T>, AllocError>
    ensures same { state store.new ≡ state store.old }
    ensures plan { IfOk result (λ plan. FitsStep store.new plan moment
        (outcome_in (state store.old) moment operation.now)) }
{
    match operation {
        Operation::Start(start) => start_workflow(store, moment, start.get()),
        Operation::Signal(signal) => signal_workflow(store, moment, signal),
        Operation::SignalWithStart(both) => signal_with_start(store, moment, both.get()),
        Operation::RequestCancel(cancel) => request_cancel(store, moment, cancel),
        Operation::Terminate(end) => terminate_workflow(store, moment, end),
        Operation::History(read) => read_history(store, moment, read),
        Operation::Describe(read) => describe_run(store, moment, read),
        Operation::StartTask(task) => start_task(store, moment, *task),
        Operation::CompleteWorkflowTask(end) => complete_workflow_task(store, moment, end),
        Operation::FailWorkflowTask(end) => fail_workflow_task(store, moment, end),
        Operation::CompleteActivity(end) => complete_activity(store, moment, end),
        Operation::FailActivity(end) => fail_activity(store, moment, end),
        Operation::CancelActivity(end) => cancel_activity(store, moment, end),
        Operation::Heartbeat(beat) => record_heartbeat(store, moment, beat),
        Operation::TimerTurn => timer_turn(store, moment),
        Operation::NextTransfer(to) => read_next_transfer(store, moment, *to),
        Operation::Deliver(transfer) => deliver_transfer(store, moment, transfer.get()),
        Operation::Acknowledge(number) => acknowledge_transfer(store, moment, number),
        Operation::NextDispatch => read_next_dispatch(store, moment),
        Operation::Dispatched(number) => count_dispatch(store, moment, *number),
    }
}
