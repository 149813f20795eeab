//! Steps of a delivery that is accepted.

ghost use Rattle.std.specs.Prelude.{◌≡◌, ◌<◌, ◌∷◌, [], IfOk, None, Some, length, option_to_list, true};
ghost use Rattle.service_model.specs.RunState.{is_there};
ghost use Rattle.service_model.specs.Deliveries.{accepts, accepts_only, adds_outside};
ghost use Rattle.mutable_state.specs.Steps.{FitStep};
ghost use Rattle.shard_store.specs.Fitting.{FitsStep};
ghost use Rattle.shard_store.specs.ShardView.{ordinal_of, run_in, runs_at, state};
ghost use Rattle.shard_deliveries.specs.Accepting.{IsFromOutside, MayAccept};

use crate::events::event_facts;
use mutable_state_keeper::KeepsRun;
use service_model_types::answer::Answer;
use service_model_types::journal::Fact;
use service_model_types::transfer::{Sent, Transfer};
use shard_store::{Count, Parts, Plan, Store};
use std::alloc::AllocError;
use wf_event::{Attributes, Boxed};
use wf_event_values::{Items, Moment};

/// A delivery that changes no run, and is answered so by a transfer.
pub(crate) fn accept_with<T: KeepsRun>(
    store: &Store<T>,
    moment: Moment,
    transfer: &Transfer,
    answer: Sent,
) -> Result<Plan<T>, AllocError>
    requires { MayAccept store.now transfer.now }
    ensures { IfOk result (λ plan. FitsStep store.now plan moment
        (accepts transfer.now None None (answer ∷ []))) }
{
    let boxed = Boxed::new(store.alloc(), answer)?;
    Ok(accept_alone(store, moment, transfer, Some(boxed)))
}

/// A delivery that changes no run, and is answered so by a transfer, if by one.
fn accept_alone<T: KeepsRun>(
    store: &Store<T>,
    moment: Moment,
    transfer: &Transfer,
    answer: Option<Boxed<Sent>>,
) -> Plan<T>
    requires { MayAccept store.now transfer.now }
    ensures { FitsStep store.now result moment
        (accepts transfer.now None None (option_to_list answer)) }
{
    Parts::none()
        .count(Count::Accepts(transfer.from))
        .answer(answer)
        .plan(moment, Answer::Accepted(transfer.number))
}

/// A delivery that changes nothing but the count.
pub(crate) fn accept_only<T: KeepsRun>(
    store: &Store<T>,
    moment: Moment,
    transfer: &Transfer,
) -> Plan<T>
    requires { MayAccept store.now transfer.now }
    ensures { FitsStep store.now result moment (accepts_only transfer.now) }
{
    accept_alone(store, moment, transfer, None)
}

/// A delivery that adds facts to the run at a place.
pub(crate) fn accept_facts<T: KeepsRun>(
    store: &mut Store<T>,
    moment: Moment,
    transfer: &Transfer,
    index: usize,
    facts: Items<Fact>,
    answer: Option<Boxed<Sent>>,
) -> Result<Plan<T>, AllocError>
    requires accepts { MayAccept store.old transfer.now }
    requires there { index < length store.old.runs }
    requires begun { is_there (run_in store.old index) ≡ true }
    requires fits { FitStep moment (run_in store.old index) facts }
    ensures same { state store.new ≡ state store.old }
    ensures plan { IfOk result (λ plan. FitsStep store.new plan moment
        (accepts transfer.now (Some (record { run = ordinal_of index; facts = facts })) None
        (option_to_list answer))) }
{
    let more = store.prepare_in(index, moment, facts)?;
    let count = Count::Accepts(transfer.from);
    let parts = Parts::none().add(more).count(count).answer(answer);
    Ok(parts.plan(moment, Answer::Accepted(transfer.number)))
}

/// A delivery that adds an event to the open run at a place.
pub(crate) fn accept_event<T: KeepsRun>(
    store: &mut Store<T>,
    moment: Moment,
    transfer: &Transfer,
    index: usize,
    event: Attributes,
    answer: Option<Boxed<Sent>>,
) -> Result<Plan<T>, AllocError>
    requires accepts { MayAccept store.old transfer.now }
    requires there { index < length store.old.runs }
    requires begun { is_there (run_in store.old index) ≡ true }
    requires outside { IsFromOutside (run_in store.old index) event }
    ensures same { state store.new ≡ state store.old }
    ensures plan { IfOk result (λ plan. FitsStep store.new plan moment
        (accepts transfer.now
        (adds_outside (runs_at store.old moment) (ordinal_of index) (event ∷ [])) None
        (option_to_list answer))) }
{
    let facts = event_facts(store.alloc(), store.run(index), event)?;
    accept_facts(store, moment, transfer, index, facts, answer)
}
