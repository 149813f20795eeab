//! Timer turns: the first deadline of the shard fires, if it is due.
//!
//! Rules: D1, D2, D3, D4, D11, D12, D13, D14, R1, R2, R6.

ghost use Rattle.std.specs.Prelude.{◌≡◌, IfOk, Some};
ghost use Rattle.service_model.specs.TimerTurns.{all_dues, due_now, fire_due, is_retention, least, timer_turn};
ghost use Rattle.shard_issued.specs.Outstanding.{IsCaughtUp};
ghost use Rattle.timeouts.specs.Slots.{run_due};
ghost use Rattle.shard_store.specs.ShardView.{runs_at, state, states};
ghost use Rattle.shard_store.specs.Fitting.{FitsStep};

use crate::more::add_facts;
use mutable_state_keeper::KeepsRun;
use service_model_types::answer::{Answer, Fired};
use shard_steps::fired_facts;
use shard_store::{Plan, Store, answered, taking};
use std::alloc::AllocError;
use timeouts::Due;
use wf_event_values::{DeadlineClass, Moment};

/// The first deadline fires, where it is due.
#[tactic(auto, unfolding(service_model::specs::TimerTurns::timer_turn))]
pub(crate) fn timer_turn<T: KeepsRun>(
    store: &mut Store<T>,
    moment: Moment,
) -> Result<Plan<T>, AllocError>
    ensures same { state store.new ≡ state store.old }
    ensures plan { IfOk result (λ plan. FitsStep store.new plan moment
        (timer_turn (runs_at store.old moment))) }
{
    match store.due_now(moment)? {
        Some(due) => fire_first(store, moment, due),
        None => Ok(answered(moment, Answer::NothingDue)),
    }
}

/// Whether a deadline of this class deletes its run.
fn is_retention(class: DeadlineClass) -> bool
    ensures { result ≡ is_retention class }
{
    match class {
        DeadlineClass::Retention => true,
        _ => false,
    }
}

/// The first deadline fires: it deletes its run, or adds to it.
fn fire_first<T: KeepsRun>(
    store: &mut Store<T>,
    moment: Moment,
    due: Due,
) -> Result<Plan<T>, AllocError>
    requires caught_up { IsCaughtUp store.old.changed }
    requires first { due_now moment (least (all_dues store.old.setup.retention
        (states store.old.runs))) ≡ Some (run_due due) }
    ensures same { state store.new ≡ state store.old }
    ensures plan { IfOk result (λ plan. FitsStep store.new plan moment
        (fire_due (runs_at store.old moment) (Some (run_due due)))) }
{
    let Some(index) = store.place_of(due.run) else {
        unreachable!()
    };
    let answer = Answer::Fired(Fired {
        class: due.class,
        due: due.due,
        event: due.event,
        run: store.run_id(index),
    });
    if is_retention(due.class) {
        return Ok(taking(moment, index, answer));
    }
    let facts = fired_facts(store.alloc(), store.run(index), moment, due)?;
    let plan = add_facts(store, moment, index, facts, answer)?;
    Ok(plan)
}
