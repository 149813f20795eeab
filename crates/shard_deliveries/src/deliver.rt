//! A transfer is delivered.
//!
//! Rules: X7.

ghost use Rattle.std.specs.Prelude.{◌≡◌, ◌<◌, IfOk};
ghost use Rattle.service_model.specs.Deliveries.{by_delivery, deliver, delivery_of, accepted_from, effect};
ghost use Rattle.shard_store.specs.Fitting.{FitsStep};
ghost use Rattle.shard_store.specs.ShardView.{runs_at, state};
ghost use Rattle.shard_deliveries.specs.Accepting.{MayAccept};

use crate::answers::{
    tell_child_closed, tell_child_start_failed, tell_child_started, tell_external_done,
};
use crate::checks::{comes_from, is_for_shard};
use crate::children::close_child_by_policy;
use crate::externals::{deliver_cancel_request, deliver_signal};
use crate::starts::start_child;
use mutable_state_keeper::KeepsRun;
use service_model_types::answer::Answer;
use service_model_types::transfer::{Delivery, Transfer, TransferContent};
use shard_store::{Plan, Store, answered, refused};
use std::alloc::AllocError;
use wf_event_values::{Field, Moment, Refusal};

/// A transfer is delivered. It is refused where its source isn't one of the service's shards, or the run
/// that asks isn't one of the source's (`InvalidArgument(from)`), and where the workflow ID that it
/// asks something of belongs to another shard (`InvalidArgument(workflow_id)`).
#[tactic(auto, unfolding(service_model::specs::Deliveries::deliver))]
pub fn deliver_transfer<T: KeepsRun>(
    store: &mut Store<T>,
    moment: Moment,
    transfer: &Transfer,
) -> Result<Plan<T>, AllocError>
    ensures same { state store.new ≡ state store.old }
    ensures plan { IfOk result (λ plan. FitsStep store.new plan moment
        (deliver (runs_at store.old moment) store.old.accepted transfer.now)) }
{
    let setup = store.setup();
    if transfer.from >= setup.shards || !comes_from(setup, transfer) {
        return Ok(refused(moment, Refusal::InvalidArgument(Field::From)));
    }
    if !is_for_shard(store, &transfer.content) {
        return Ok(refused(moment, Refusal::InvalidArgument(Field::WorkflowId)));
    }
    deliver_by_number(store, moment, transfer)
}

/// A transfer of one of the shards to this one.
fn deliver_by_number<T: KeepsRun>(
    store: &mut Store<T>,
    moment: Moment,
    transfer: &Transfer,
) -> Result<Plan<T>, AllocError>
    requires { transfer.now.from < store.old.setup.shards }
    ensures same { state store.new ≡ state store.old }
    ensures plan { IfOk result (λ plan. FitsStep store.new plan moment
        (by_delivery (runs_at store.old moment) transfer.now
        (delivery_of (accepted_from store.old.accepted transfer.now.from)
        transfer.now.number))) }
{
    store.catch_up()?;
    let number = transfer.number;
    match store.judge_delivery(transfer) {
        Delivery::Accepted => take_effect(store, moment, transfer),
        Delivery::AlreadyDelivered => Ok(answered(moment, Answer::AlreadyDelivered(number))),
        Delivery::OutOfOrder => Ok(answered(moment, Answer::OutOfOrder(number))),
    }
}

/// What a transfer does that is the next one of its source.
fn take_effect<T: KeepsRun>(
    store: &mut Store<T>,
    moment: Moment,
    transfer: &Transfer,
) -> Result<Plan<T>, AllocError>
    requires { MayAccept store.old transfer.now }
    ensures same { state store.new ≡ state store.old }
    ensures plan { IfOk result (λ plan. FitsStep store.new plan moment
        (effect (runs_at store.old moment) transfer.now transfer.now.content)) }
{
    match &transfer.content {
        TransferContent::StartChild(child) => start_child(store, moment, transfer, child),
        TransferContent::ChildStarted(child) => {
            tell_child_started(store, moment, transfer, child)
        }
        TransferContent::ChildStartFailed(child) => {
            tell_child_start_failed(store, moment, transfer, child)
        }
        TransferContent::ChildClosed(child) => { tell_child_closed(store, moment, transfer, child) }
        TransferContent::CloseChild(child) => close_child_by_policy(store, moment, transfer, child),
        TransferContent::SignalExternal(ask) => { deliver_signal(store, moment, transfer, ask) }
        TransferContent::CancelExternal(ask) => {
            deliver_cancel_request(store, moment, transfer, ask)
        }
        TransferContent::ExternalDone(done) => { tell_external_done(store, moment, transfer, done) }
    }
}
