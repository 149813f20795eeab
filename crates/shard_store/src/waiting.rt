//! The tasks of a shard that wait to be taken.

ghost use Rattle.std.specs.Prelude.{◌≡◌, ◌<◌, ◌^◌, IfOk, length};
ghost use Rattle.service_model.specs.Waiting.{all_waiting, not_handed_over};
ghost use Rattle.shard_store.specs.ShardView.{state, states};

use crate::runs::Runs;
use crate::store::Store;
use mutable_state_keeper::KeepsRun;
use service_model_types::content::{Dispatch, Setup};
use shard_issued::waiting_tasks;
use std::alloc::{AllocError, Global};

impl<T: KeepsRun> Store<T> {
    /// The tasks of all runs that wait to be taken, in the order of the runs.
    pub fn waiting_tasks(&self, alloc: Global) -> Result<Vec<Dispatch>, AllocError>
        ensures { IfOk result (λ waiting.
            waiting.items ≡ all_waiting self.now.setup (states self.now.runs)) }
    {
        waiting_in(alloc, &self.setup, &self.runs)
    }

    /// Those whose dispatches were counted: the others are handed over by dispatch turns.
    pub fn counted_tasks(&mut self, alloc: Global) -> Result<Vec<Dispatch>, AllocError>
        ensures same { state self.new ≡ state self.old }
        ensures counted { IfOk result (λ tasks. tasks.items ≡ not_handed_over
            self.old.waiting.items (all_waiting self.old.setup (states self.old.runs))) }
    {
        self.catch_up()?;
        let tasks = self.waiting_tasks(alloc)?;
        self.dispatches.not_handed_over(alloc, tasks)
    }
}

/// Those of runs that are all that a shard has.
fn waiting_in<T: KeepsRun>(
    alloc: Global,
    setup: &Setup,
    runs: &Runs<T>,
) -> Result<Vec<Dispatch>, AllocError>
    requires { length runs.now.items < 2 ^ 60 }
    ensures { IfOk result (λ waiting.
        waiting.items ≡ all_waiting setup.now (states runs.now.items)) }
{
    let mut waiting = Vec::new(alloc);
    for index in 0..runs.len() {
        let place = &runs[index];
        let Some(run) = place.run() else {
            continue;
        };
        let mut found = waiting_tasks(alloc, setup, run, index as u64 + 1)?;
        waiting.append(&mut found)?;
    }
    Ok(waiting)
}
