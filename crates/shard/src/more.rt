//! Steps that add facts to a run.

ghost use Rattle.std.specs.Prelude.{◌≡◌, ◌<◌, IfOk, length, true};
ghost use Rattle.service_model.specs.RunState.{is_there};
ghost use Rattle.service_model.specs.Outcome.{adds};
ghost use Rattle.mutable_state.specs.Steps.{FitStep};
ghost use Rattle.shard_store.specs.Fitting.{FitsStep};
ghost use Rattle.shard_store.specs.ShardView.{ordinal_of, run_in, state};

use mutable_state_keeper::KeepsRun;
use service_model_types::answer::Answer;
use service_model_types::journal::Fact;
use shard_store::{Plan, Store, adding};
use std::alloc::AllocError;
use wf_event_values::{Items, Moment};

/// A step that adds facts to the run at a place, and answers so.
pub(crate) fn add_facts<T: KeepsRun>(
    store: &mut Store<T>,
    moment: Moment,
    index: usize,
    facts: Items<Fact>,
    answer: Answer,
) -> Result<Plan<T>, AllocError>
    requires there { index < length store.old.runs }
    requires begun { is_there (run_in store.old index) ≡ true }
    requires fits { FitStep moment (run_in store.old index) facts }
    ensures same { state store.new ≡ state store.old }
    ensures plan { IfOk result (λ plan. FitsStep store.new plan moment
        (adds (ordinal_of index) facts answer)) }
{
    let more = store.prepare_in(index, moment, facts)?;
    Ok(adding(moment, more, answer))
}
