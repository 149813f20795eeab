//! Whether two shards keep the same.

ghost use Rattle.std.specs.Prelude.{◌≡◌, ◌<◌, IfOk, IsTrue, length};
ghost use Rattle.shard_issued.specs.Outstanding.{IsCaughtUp};
ghost use Rattle.shard_store.specs.ShardView.{run_in, state, states};
ghost use Rattle.transfer.specs.Outboxes.{waiting_to};

use crate::same_runs::is_same_run;
use event_sameness::{is_same_content, is_same_dispatch};
use mutable_state_keeper::{KeepsRun, TellsRun};
use service_model_types::content::Setup;
use shard_store::Store;
use std::alloc::{AllocError, Global};
use wf_event_values::Id;

/// Whether two lists of names are the same.
fn are_same_ids(one: &[Id], other: &[Id]) -> bool
    ensures { IsTrue result → one.now ≡ other.now }
{
    one == other
}

/// Whether two shards were opened with the same.
fn is_same_setup(one: &Setup, other: &Setup) -> bool
    ensures { IsTrue result → one.now ≡ other.now }
{
    one.service == other.service
        && one.shard == other.shard
        && one.shards == other.shards
        && one.retention.millis() == other.retention.millis()
        && are_same_ids(one.queues.as_slice(), other.queues.as_slice())
}

/// Whether two shards have the same run at a place, or both none.
fn is_same_place<T: TellsRun>(
    alloc: Global,
    one: &Store<T>,
    other: &Store<T>,
    index: usize,
) -> Result<bool, AllocError>
    requires ours { index < length one.now.runs }
    requires theirs { index < length other.now.runs }
    ensures { IfOk result (λ same. IsTrue same
        → run_in one.now index ≡ run_in other.now index) }
{
    match (one.run_at(index), other.run_at(index)) {
        (Some(ours), Some(theirs)) => is_same_run(alloc, ours, theirs),
        (None, None) => Ok(true),
        _ => Ok(false),
    }
}

/// Whether they have the same runs.
fn are_same_runs<T: TellsRun>(
    alloc: Global,
    one: &Store<T>,
    other: &Store<T>,
) -> Result<bool, AllocError>
    ensures { IfOk result (λ same. IsTrue same → states one.now.runs ≡ states other.now.runs) }
{
    if one.count() != other.count() {
        return Ok(false);
    }
    for index in 0..one.count() {
        if !is_same_place(alloc, one, other, index)? {
            return Ok(false);
        }
    }
    Ok(true)
}

/// Whether the same dispatches wait in two shards.
fn are_same_dispatches<T: KeepsRun>(one: &Store<T>, other: &Store<T>) -> bool
    requires ours { IsCaughtUp one.now.changed }
    requires theirs { IsCaughtUp other.now.changed }
    ensures { IsTrue result → one.now.waiting ≡ other.now.waiting }
{
    if one.counted_dispatches() != other.counted_dispatches() {
        return false;
    }
    for index in 0..usize::MAX {
        match (one.dispatch_at(index), other.dispatch_at(index)) {
            (Some(ours), Some(theirs)) if is_same_dispatch(ours, theirs) => {}
            (None, None) => return true,
            _ => return false,
        }
    }
    false
}

/// Whether the same transfers to a shard wait in two.
fn are_same_transfers_to<T: KeepsRun>(one: &Store<T>, other: &Store<T>, to: u16) -> bool
    requires ours { IsCaughtUp one.now.changed }
    requires theirs { IsCaughtUp other.now.changed }
    requires there { to < one.now.setup.shards }
    requires there_too { to < other.now.setup.shards }
    ensures { IsTrue result
        → waiting_to one.now.outgoing to ≡ waiting_to other.now.outgoing to }
{
    if one.acknowledged_by(to) != other.acknowledged_by(to) {
        return false;
    }
    for index in 0..usize::MAX {
        match (one.transfer_at(to, index), other.transfer_at(to, index)) {
            (Some(ours), Some(theirs)) if is_same_content(ours, theirs) => {}
            (None, None) => return true,
            _ => return false,
        }
    }
    false
}

/// Whether the same transfers wait, to all shards.
fn are_same_transfers<T: KeepsRun>(one: &Store<T>, other: &Store<T>) -> bool
    requires ours { IsCaughtUp one.now.changed }
    requires theirs { IsCaughtUp other.now.changed }
    requires shards { one.now.setup.shards ≡ other.now.setup.shards }
    ensures { IsTrue result → one.now.outgoing ≡ other.now.outgoing }
{
    let _ours = one.accepted();
    let _theirs = other.accepted();
    for to in 0..one.setup().shards {
        if !are_same_transfers_to(one, other, to) {
            return false;
        }
    }
    true
}

/// Whether two shards keep the same.
pub(crate) fn is_same<T: TellsRun>(
    alloc: Global,
    one: &Store<T>,
    other: &Store<T>,
) -> Result<bool, AllocError>
    requires ours { IsCaughtUp one.now.changed }
    requires theirs { IsCaughtUp other.now.changed }
    ensures { IfOk result (λ same. IsTrue same → state one.now ≡ state other.now) }
{
    if !is_same_setup(one.setup(), other.setup()) {
        return Ok(false);
    }
    if one.last().millis() != other.last().millis() || one.accepted() != other.accepted() {
        return Ok(false);
    }
    if !are_same_dispatches(one, other) || !are_same_transfers(one, other) {
        return Ok(false);
    }
    are_same_runs(alloc, one, other)
}
