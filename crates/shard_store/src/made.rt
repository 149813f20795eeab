//! The runs that steps make, with room for them.

ghost use Rattle.std.specs.Prelude.{◌≡◌, ◌+◌, ◌<◌, ◌≤◌, ◌^◌, length, OnOk, IfOk};
ghost use Rattle.shard_issued.specs.Outstanding.{IsCaughtUp};
ghost use Rattle.shard_steps.specs.Starts.{MayBegin};
ghost use Rattle.shard_store.specs.ShardView.{state};
ghost use Rattle.shard_store.specs.Fitting.{IsMade};

use crate::place::Place;
use crate::plan::NewRun;
use crate::store::Store;
use mutable_state_keeper::KeepsRun;
use service_model_types::limits::MOST_MEMBERS;
use shard_steps::{Beginning, new_run};
use std::alloc::AllocError;
use wf_event_values::Moment;

impl<T: KeepsRun> Store<T> {
    /// A run that begins so, with room for it.
    pub fn prepare_made(
        &mut self,
        moment: Moment,
        beginning: Beginning,
    ) -> Result<NewRun<T>, AllocError>
        requires { MayBegin moment beginning }
        ensures same { state self.new ≡ state self.old }
        ensures runs { self.new.runs ≡ self.old.runs }
        ensures caught_up { OnOk result (IsCaughtUp self.new.changed) }
        ensures made { IfOk result (λ made. IsMade self.new moment made beginning) }
    {
        let id = beginning.started.workflow_id.as_str();
        let key = String::from_str(self.alloc, id)?;
        let begun = new_run(self.alloc, moment, beginning)?;
        let run = Place::new(self.alloc, begun)?;
        self.reserve_runs(1)?;
        Ok(NewRun { run, key })
    }

    /// Makes room for so many more runs.
    pub(crate) fn reserve_runs(&mut self, additional: usize) -> Result<(), AllocError>
        ensures same { state self.new ≡ state self.old }
        ensures runs { self.new.runs ≡ self.old.runs }
        ensures room { OnOk result (additional ≤ self.new.room) }
        ensures caught_up { OnOk result (IsCaughtUp self.new.changed) }
        ensures few { OnOk result (length self.new.runs + additional < 2 ^ 60) }
    {
        if additional > MOST_MEMBERS.saturating_sub(self.runs.len()) {
            return Err(AllocError);
        }
        self.catch_up()?;
        self.runs.reserve(additional)?;
        self.deadlines.reserve(additional)?;
        self.dispatches.reserve(additional)?;
        self.index.reserve(additional)
    }
}
