//! Reading and counting the transfers that a shard issued.
//!
//! Rules: X7, Q4.

ghost use Rattle.std.specs.Prelude.{◌≡◌, ◌<◌, IfOk};
ghost use Rattle.shard_issued.specs.Sending.{count_to, next_to};
ghost use Rattle.shard_store.specs.Fitting.{FitsStep};
ghost use Rattle.shard_store.specs.ShardView.{state};

use mutable_state_keeper::KeepsRun;
use service_model_types::answer::{Acknowledged, Answer};
use service_model_types::request::Acknowledge;
use service_model_types::transfer::Transfer;
use shard_store::{Count, Parts, Plan, Store, answered, refused};
use std::alloc::AllocError;
use transfer::copied;
use wf_event::Boxed;
use wf_event_values::{Field, Moment, Refusal};

/// The first transfer to a shard that is not acknowledged. A shard that is not there is an invalid
/// argument `to`.
#[tactic(auto, unfolding(shard_issued::specs::Sending::next_to))]
pub fn read_next_transfer<T: KeepsRun>(
    store: &mut Store<T>,
    moment: Moment,
    to: u16,
) -> Result<Plan<T>, AllocError>
    ensures same { state store.new ≡ state store.old }
    ensures plan { IfOk result (λ plan. FitsStep store.new plan moment
        (next_to store.old.setup store.old.outgoing to)) }
{
    if to >= store.setup().shards {
        return Ok(refused(moment, Refusal::InvalidArgument(Field::To)));
    }
    store.catch_up()?;
    let Some((number, content)) = store.next_transfer(to) else {
        return Ok(answered(moment, Answer::NoTransfer));
    };
    let content = copied(content)?;
    let from = store.setup().shard;
    let next = Boxed::new(store.alloc(), Transfer::restored(from, number, content))?;
    Ok(answered(moment, Answer::Transfer(next)))
}

/// A transfer to a shard was delivered: it is counted, where it is the first that was not. A shard that
/// is not there is an invalid argument `to`.
#[tactic(auto, unfolding(shard_issued::specs::Sending::count_to))]
pub fn acknowledge_transfer<T: KeepsRun>(
    store: &mut Store<T>,
    moment: Moment,
    request: &Acknowledge,
) -> Result<Plan<T>, AllocError>
    ensures same { state store.new ≡ state store.old }
    ensures plan { IfOk result (λ plan. FitsStep store.new plan moment
        (count_to store.old.setup store.old.outgoing request.now)) }
{
    if request.to >= store.setup().shards {
        return Ok(refused(moment, Refusal::InvalidArgument(Field::To)));
    }
    store.catch_up()?;
    let judgement = store.judge_acknowledgement(request.to, request.number);
    let count = match judgement {
        Acknowledged::Acknowledged => Count::Acknowledges(request.to),
        _ => Count::Nothing,
    };
    let parts = Parts::none().count(count);
    Ok(parts.plan(moment, Answer::Counted(judgement)))
}
