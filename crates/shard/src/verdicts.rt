//! The failures of attempts that workers report, and the verdicts on them.
//!
//! Rules: A1, A7, A8, A9, A11, A12, A13, A14, A15, A16.

ghost use Rattle.std.specs.Prelude.{◌≡◌, IfOk};
ghost use Rattle.service_model.specs.Activities.{by_verdict, fail_activity};
ghost use Rattle.shard_store.specs.Fitting.{FitsStep};
ghost use Rattle.shard.specs.Running.{HasAttempt, row_of};
ghost use Rattle.shard_store.specs.ShardView.{runs_at, state};
ghost use Rattle.shard_steps.specs.Attempts.{HasNext};

use crate::attempts::{RunningAttempt, attempt_running, end_activity};
use crate::heartbeats::note_attempt;
use mutable_state_keeper::KeepsRun;
use retry::Ended;
use service_model_types::answer::{Answer, Retrying};
use service_model_types::decided::Verdict;
use service_model_types::journal::Note;
use service_model_types::request::FailActivity;
use shard_steps::{failure, verdict_of};
use shard_store::{Plan, Store, refused};
use std::alloc::AllocError;
use wf_event_values::{Moment, Refusal};

/// An activity's attempt fails.
#[tactic(auto, unfolding(service_model::specs::Activities::fail_activity))]
pub(crate) fn fail_activity<T: KeepsRun>(
    store: &mut Store<T>,
    moment: Moment,
    request: &FailActivity,
) -> Result<Plan<T>, AllocError>
    ensures same { state store.new ≡ state store.old }
    ensures plan { IfOk result (λ plan.
        FitsStep store.new plan moment (fail_activity (runs_at store.old moment) request.now)) }
{
    let Some(attempt) = attempt_running(store, request.task)? else {
        return Ok(refused(moment, Refusal::NotFound));
    };
    let ended = Ended::Failure {
        error_type: request.error_type.as_ref(),
        non_retryable: request.non_retryable,
    };
    let Some(verdict) = verdict_of(&attempt.activity, ended, moment) else {
        return Ok(refused(moment, Refusal::NotFound));
    };
    let plan = fail_by_verdict(store, moment, request, &attempt, verdict)?;
    Ok(plan)
}

/// What a verdict makes of a running attempt that failed.
fn fail_by_verdict<T: KeepsRun>(
    store: &mut Store<T>,
    moment: Moment,
    request: &FailActivity,
    attempt: &RunningAttempt,
    verdict: Verdict,
) -> Result<Plan<T>, AllocError>
    requires running { HasAttempt store.old request.now.task attempt.now.index
        (row_of attempt.now) }
    requires next { HasNext request.now.task.attempt verdict }
    ensures same { state store.new ≡ state store.old }
    ensures plan { IfOk result (λ plan. FitsStep store.new plan moment
        (by_verdict (runs_at store.old moment) request.now (row_of attempt.now) verdict)) }
{
    match verdict {
        Verdict::GiveUp(state) => {
            let last = failure(store.alloc(), request, state)?;
            let answer = Answer::ActivityFailed(state);
            end_activity(store, moment, request.task, attempt, last, answer)
        }
        Verdict::Retry { ready } => {
            let answer = Answer::Retrying(Retrying {
                attempt: request.task.attempt + 1,
                ready,
            });
            note_attempt(
                store,
                moment,
                attempt.index,
                request.task,
                Note::Ended,
                answer,
            )
        }
    }
}
