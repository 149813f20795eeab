//! Starting a run. Each function is a layer of the definition: what is refused before the workflow
//! ID's runs are looked at, what the latest of them decides, the run that is made.
//!
//! Rules: I1, I2, I3, I4, I5, I6, I7, I8, I10.

ghost use Rattle.std.specs.Prelude.{◌≡◌, ◌<◌, length, IfOk, Some, None, ◌∷◌, [], true};
ghost use Rattle.service_model.specs.IdPolicy.{TerminateThenNew, decide, is_same_request};
ghost use Rattle.service_model.specs.Outcome.{latest_run};
ghost use Rattle.service_model.specs.RunState.{id_of, is_open, is_there};
ghost use Rattle.service_model.specs.Starts.{by_decision, start, start_request, starts_new, started_fact, first_task};
ghost use Rattle.shard_store.specs.ShardView.{ordinal_of, run_in, runs_at, state, states};
ghost use Rattle.shard_steps.specs.Starts.{first_facts, MayBegin};
ghost use Rattle.shard_store.specs.Fitting.{FitsStep, IsFree};
ghost use Rattle.shard.specs.Deciding.{decided, decided_by};

use id_policy::{Latest, decide};
use mutable_state_keeper::KeepsRun;
use service_model_types::answer::Answer;
use service_model_types::decided::Decision;
use service_model_types::request::Start;
use shard_steps::{Beginning, beginning_of, replaced_reason, terminated_facts};
use shard_store::{Parts, Plan, Store, answered, refused};
use std::alloc::AllocError;
use wf_event_values::{ConflictPolicy, Field, Id, Moment, Refusal, ReusePolicy};

/// A start of a workflow.
#[tactic(auto, unfolding(service_model::specs::Starts::start))]
pub(crate) fn start_workflow<T: KeepsRun>(
    store: &mut Store<T>,
    moment: Moment,
    request: &Start,
) -> Result<Plan<T>, AllocError>
    ensures same { state store.new ≡ state store.old }
    ensures plan { IfOk result (λ plan. FitsStep store.new plan moment
        (start (runs_at store.old moment) request.now)) }
{
    if !store.is_home_of(&request.workflow_id) {
        return Ok(refused(moment, Refusal::InvalidArgument(Field::WorkflowId)));
    }
    if !store.setup().knows_queue(&request.task_queue) {
        return Ok(refused(moment, Refusal::UnknownTaskQueue));
    }
    start_known_queue(store, moment, request)
}

/// A start, decided by the workflow ID's latest run.
fn start_known_queue<T: KeepsRun>(
    store: &mut Store<T>,
    moment: Moment,
    request: &Start,
) -> Result<Plan<T>, AllocError>
    ensures same { state store.new ≡ state store.old }
    ensures plan { IfOk result (λ plan. FitsStep store.new plan moment
        (decided (runs_at store.old moment) request.now)) }
{
    match store.latest(&request.workflow_id) {
        Some(index) => start_behind(store, moment, index, request),
        None => start_where_free(store, moment, request),
    }
}

/// A start of a workflow ID whose latest run is at that place.
fn start_behind<T: KeepsRun>(
    store: &mut Store<T>,
    moment: Moment,
    index: usize,
    request: &Start,
) -> Result<Plan<T>, AllocError>
    requires there { index < length store.old.runs }
    requires begun { is_there (run_in store.old index) ≡ true }
    requires latest { latest_run (states store.old.runs) request.now.workflow_id
        ≡ Some (ordinal_of index) }
    ensures same { state store.new ≡ state store.old }
    ensures plan { IfOk result (λ plan. FitsStep store.new plan moment
        (decided_by (runs_at store.old moment) request.now (Some (ordinal_of index)))) }
{
    let run = store.run_id(index);
    let given = &request.request_id;
    match decision_by(store, index, given, request.reuse, request.conflict) {
        Decision::New => start_where_free(store, moment, request),
        Decision::Same | Decision::Existing => Ok(answered(moment, Answer::Existing(run))),
        Decision::TerminateThenNew => replace_open_run(store, moment, index, request),
        Decision::Refused => Ok(refused(moment, Refusal::AlreadyStarted(run))),
    }
}

/// What the policies decide on a start of that request id, where the workflow ID's latest run is at
/// that place.
pub(crate) fn decision_by<T: KeepsRun>(
    store: &Store<T>,
    index: usize,
    given: &Option<Id>,
    reuse: ReusePolicy,
    conflict: ConflictPolicy,
) -> Decision
    requires there { index < length store.now.runs }
    requires begun { is_there (run_in store.now index) ≡ true }
    ensures { let latest = run_in store.now index in
        result ≡ decide (Some latest.status)
        (is_same_request given.now (start_request latest)) reuse conflict }
{
    let run = store.run(index);
    let latest = Latest {
        status: run.status(),
        request_id: run.start_request(),
    };
    decide(Some(&latest), reuse, conflict, given.as_ref())
}

/// The run of a start that nothing stands in the way of.
fn start_where_free<T: KeepsRun>(
    store: &mut Store<T>,
    moment: Moment,
    request: &Start,
) -> Result<Plan<T>, AllocError>
    requires { IsFree (states store.old.runs) request.now.workflow_id }
    ensures same { state store.new ≡ state store.old }
    ensures plan { IfOk result (λ plan. FitsStep store.new plan moment
        (starts_new (runs_at store.old moment) None
        (started_fact moment request.now ∷ first_task request.now.task_queue ∷ []))) }
{
    let beginning = beginning_of(store.alloc(), moment, request)?;
    begin_run(store, moment, beginning)
}

/// A run that begins so, where nothing stands in its way.
pub(crate) fn begin_run<T: KeepsRun>(
    store: &mut Store<T>,
    moment: Moment,
    beginning: Beginning,
) -> Result<Plan<T>, AllocError>
    requires begins { MayBegin moment beginning }
    requires free { IsFree (states store.old.runs) beginning.started.workflow_id }
    ensures same { state store.new ≡ state store.old }
    ensures plan { IfOk result (λ plan. FitsStep store.new plan moment
        (starts_new (runs_at store.old moment) None (first_facts beginning))) }
{
    let made = store.prepare_made(moment, beginning)?;
    let answer = Answer::Started(store.run_id(store.count()));
    Ok(Parts::none().make(Some(made)).plan(moment, answer))
}

/// The termination of the workflow ID's open run, which is at that place, and the run of the start:
/// both, or neither.
fn replace_open_run<T: KeepsRun>(
    store: &mut Store<T>,
    moment: Moment,
    index: usize,
    request: &Start,
) -> Result<Plan<T>, AllocError>
    requires there { index < length store.old.runs }
    requires begun { is_there (run_in store.old index) ≡ true }
    requires named { id_of (run_in store.old index) ≡ request.now.workflow_id }
    requires open { is_open (run_in store.old index) ≡ true }
    ensures same { state store.new ≡ state store.old }
    ensures plan { IfOk result (λ plan. FitsStep store.new plan moment
        (by_decision (runs_at store.old moment) (ordinal_of index)
        (started_fact moment request.now ∷ first_task request.now.task_queue ∷ [])
        TerminateThenNew)) }
{
    let facts = terminated_facts(store.alloc(), replaced_reason(store.alloc())?)?;
    let more = store.prepare_in(index, moment, facts)?;
    let beginning = beginning_of(store.alloc(), moment, request)?;
    let made = store.prepare_made(moment, beginning)?;
    let answer = Answer::Started(store.run_id(store.count()));
    let parts = Parts::none().add(more).make(Some(made));
    Ok(parts.plan(moment, answer))
}
