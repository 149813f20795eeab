//! Starting a child.
//!
//! Rules: X2.

ghost use Rattle.std.specs.Prelude.{◌≡◌, IfOk, true};
ghost use Rattle.service_model.specs.Deliveries.{effect};
ghost use Rattle.service_model_types.specs.declared.transfer.TransferContent.TheVariants as content;
ghost use Rattle.shard_store.specs.Fitting.{FitsStep};
ghost use Rattle.shard_store.specs.ShardView.{runs_at, runs_in, state};
ghost use Rattle.shard_deliveries.specs.Accepting.{MayAccept};
ghost use Rattle.shard_deliveries.specs.Children.{child_beginning, is_free_for, starts_child};

use crate::accepts::accept_with;
use id_policy::{Latest, decide};
use mutable_state_keeper::KeepsRun;
use service_model_types::answer::Answer;
use service_model_types::decided::Decision;
use service_model_types::limits::used_task_timeout;
use service_model_types::transfer::{
    ChildStartFailed, ChildStarted, Sent, StartChildTransfer, Transfer, TransferContent,
};
use shard_steps::{Beginning, first_task};
use shard_store::{Count, Parts, Plan, Store};
use std::alloc::{AllocError, Global};
use wf_event::Boxed;
use wf_event::payloads::{Parent, WorkflowExecutionStarted};
use wf_event_values::{ConflictPolicy, Items, Moment};

/// A child's start, by the decision on its workflow ID. Where its queue is not known here the parent
/// is told the same as of an ID that is taken.
#[tactic(auto, unfolding(service_model::specs::Deliveries::effect))]
pub(crate) fn start_child<T: KeepsRun>(
    store: &mut Store<T>,
    moment: Moment,
    transfer: &Transfer,
    child: &StartChildTransfer,
) -> Result<Plan<T>, AllocError>
    requires { MayAccept store.old transfer.now }
    ensures same { state store.new ≡ state store.old }
    ensures plan { IfOk result (λ plan. FitsStep store.new plan moment
        (effect (runs_at store.old moment) transfer.now (content.StartChild child.now))) }
{
    if store.setup().knows_queue(&child.task_queue) && is_free_for(store, child) {
        return start_child_where_free(store, moment, transfer, child);
    }
    let answer = Sent {
        to: child.parent_run.shard(),
        content: TransferContent::ChildStartFailed(ChildStartFailed {
            parent_run: child.parent_run,
            initiated: child.initiated,
        }),
    };
    accept_with(store, moment, transfer, answer)
}

/// Whether the policies let a child have a new run of its workflow ID. An open one is in its way.
fn is_free_for<T: KeepsRun>(store: &Store<T>, child: &StartChildTransfer) -> bool
    ensures { result ≡ is_free_for (runs_in store.now) child.now }
{
    match store.latest(&child.workflow_id) {
        Some(index) => {
            let latest = Latest {
                status: store.run(index).status(),
                request_id: None,
            };
            let decision = decide(Some(&latest), child.reuse, ConflictPolicy::Fail, None);
            matches!(decision, Decision::New)
        }
        None => true,
    }
}

/// A child's run, where nothing stands in its way.
fn start_child_where_free<T: KeepsRun>(
    store: &mut Store<T>,
    moment: Moment,
    transfer: &Transfer,
    child: &StartChildTransfer,
) -> Result<Plan<T>, AllocError>
    requires accepts { MayAccept store.old transfer.now }
    requires free { is_free_for (runs_in store.old) child.now ≡ true }
    ensures same { state store.new ≡ state store.old }
    ensures plan { IfOk result (λ plan. FitsStep store.new plan moment
        (starts_child (runs_at store.old moment) transfer.now child.now)) }
{
    let beginning = child_beginning(store.alloc(), child)?;
    let made = store.prepare_made(moment, beginning)?;
    let answer = Sent {
        to: child.parent_run.shard(),
        content: TransferContent::ChildStarted(ChildStarted {
            parent_run: child.parent_run,
            initiated: child.initiated,
            run: store.run_id(store.count()),
        }),
    };
    let boxed = Boxed::new(store.alloc(), answer)?;
    let count = Count::Accepts(transfer.from);
    let parts = Parts::none().make(Some(made));
    let parts = parts.count(count).answer(Some(boxed));
    Ok(parts.plan(moment, Answer::Accepted(transfer.number)))
}

/// How a child's run begins.
fn child_beginning(alloc: Global, child: &StartChildTransfer) -> Result<Beginning, AllocError>
    ensures { IfOk result (λ b. b ≡ child_beginning child.now) }
{
    let mut facts = Vec::new(alloc);
    facts.push(first_task(&child.task_queue)?)?;
    Ok(Beginning {
        started: WorkflowExecutionStarted {
            workflow_id: child.workflow_id.clone()?,
            workflow_type: child.workflow_type.clone()?,
            task_queue: child.task_queue.clone()?,
            input: child.input.clone()?,
            run_timeout: child.run_timeout,
            task_timeout: used_task_timeout(child.task_timeout),
            continued_from: None,
            parent: Some(Parent {
                run: child.parent_run,
                event: child.initiated,
            }),
            execution_deadline: None,
        },
        request_id: None,
        facts: Items::from_vec(facts),
    })
}
