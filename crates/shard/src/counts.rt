//! Reading and counting the dispatches.
//!
//! Rules: Q2, Q3.

ghost use Rattle.std.specs.Prelude.{◌≡◌, IfOk};
ghost use Rattle.service_model.specs.Outcome.{answered};
ghost use Rattle.shard_issued.specs.Issuing.{next_waiting, count_waiting};
ghost use Rattle.shard_store.specs.Fitting.{FitsStep};
ghost use Rattle.shard_store.specs.ShardView.{state};

use mutable_state_keeper::KeepsRun;
use service_model_types::answer::{Acknowledged, Answer, NumberedDispatch};
use service_model_types::content::Dispatch;
use shard_store::{Count, Parts, Plan, Store, answered};
use std::alloc::AllocError;
use wf_event_values::Moment;

/// The first dispatch that is not counted.
pub(crate) fn read_next_dispatch<T: KeepsRun>(
    store: &mut Store<T>,
    moment: Moment,
) -> Result<Plan<T>, AllocError>
    ensures same { state store.new ≡ state store.old }
    ensures plan { IfOk result (λ plan. FitsStep store.new plan moment
        (next_waiting store.old.waiting)) }
{
    store.catch_up()?;
    let Some(first) = store.first_dispatch() else {
        return Ok(answered(moment, Answer::NoDispatch));
    };
    let dispatch = copy_of(first)?;
    let Some(number) = store.counted_dispatches().checked_add(1) else {
        return Err(AllocError);
    };
    let next = NumberedDispatch { number, dispatch };
    Ok(answered(moment, Answer::Dispatch(next)))
}

/// A dispatch was pushed: it is counted, where it is the first that was not.
pub(crate) fn count_dispatch<T: KeepsRun>(
    store: &mut Store<T>,
    moment: Moment,
    number: u64,
) -> Result<Plan<T>, AllocError>
    ensures same { state store.new ≡ state store.old }
    ensures plan { IfOk result (λ plan. FitsStep store.new plan moment
        (count_waiting store.old.waiting number)) }
{
    store.catch_up()?;
    let counted = store.counted_dispatches();
    if number <= counted {
        return Ok(answered(moment, Answer::Counted(Acknowledged::Already)));
    }
    if number - 1 != counted || store.waiting_dispatches() == 0 {
        return Ok(answered(moment, Answer::Counted(Acknowledged::OutOfOrder)));
    }
    let answer = Answer::Counted(Acknowledged::Acknowledged);
    Ok(Parts::none().count(Count::Dispatch).plan(moment, answer))
}

/// A copy of a dispatch, with texts of its own.
fn copy_of(dispatch: &Dispatch) -> Result<Dispatch, AllocError>
    ensures { IfOk result (λ copy. copy ≡ dispatch.now) }
{
    Ok(Dispatch {
        queue: dispatch.queue.clone()?,
        hint: dispatch.hint,
    })
}
