//! Plans for one run, and room for them in it.

ghost use Rattle.std.specs.Prelude.{◌≡◌, ◌≤◌, ◌<◌, ◌+◌, [], length, true, IfOk, OnOk};
ghost use Rattle.wf_event_values.specs.declared.policies.Cause.TheVariants.{WorkflowWorkerUnhandledFailure};
ghost use Rattle.service_model.specs.Completion.{judge_all, failed_task};
ghost use Rattle.service_model.specs.Outcome.{run_id};
ghost use Rattle.service_model.specs.Pending.{IsStarted};
ghost use Rattle.service_model.specs.RunState.{is_there};
ghost use Rattle.mutable_state.specs.RunView.{HasRoomFor};
ghost use Rattle.task_completion.specs.PlannedEnds.{IsPlanned, IsCompletion};
ghost use Rattle.shard_issued.specs.Outstanding.{IsCaughtUp};
ghost use Rattle.shard_store.specs.ShardView.{run_in, state, states};
ghost use Rattle.shard_store.specs.Fitting.{IsPrepared, state_at, view_at};

use crate::plan::MoreOf;
use crate::store::Store;
use event_pieces::SharedEvents;
use mutable_state::{PlannedFacts, StepFacts};
use mutable_state_keeper::KeepsRun;
use service_model_types::journal::Fact;
use std::alloc::AllocError;
use task_completion::{Completion, plan_completion, plan_failure};
use wf_command::Command;
use wf_event_values::{Cause, Items, Moment, Text};

impl<T: KeepsRun> Store<T> {
    /// Makes room for a step's facts in the run at a place.
    fn make_room(&mut self, index: usize, more: StepFacts) -> Result<PlannedFacts, AllocError>
        requires { is_there (run_in self.old index) ≡ true }
        ensures same { state self.new ≡ state self.old }
        ensures there { index < length self.new.runs }
        ensures caught_up { OnOk result (IsCaughtUp self.new.changed) }
        ensures made { IfOk result (λ plan. plan.change ≡ more) }
        ensures room { IfOk result (λ plan.
            HasRoomFor (view_at self.new.runs index) plan.change.facts) }
    {
        self.catch_up()?;
        let place = self.runs.place_mut(index);
        let run = place.get_mut();
        run.prepare(more)
    }

    /// The history of the run at a place, of which others may have a share.
    pub fn share_events(&mut self, index: usize) -> Result<SharedEvents, AllocError>
        requires { is_there (run_in self.old index) ≡ true }
        ensures same { state self.new ≡ state self.old }
        ensures events { IfOk result (λ events. events ≡ (run_in self.old index).shown) }
    {
        let place = self.runs.place_mut(index);
        let run = place.get_mut();
        run.share_events(self.alloc)
    }

    /// What a step's facts add to the run at a place, with room for them.
    pub fn prepare_in(
        &mut self,
        index: usize,
        moment: Moment,
        facts: Items<Fact>,
    ) -> Result<MoreOf, AllocError>
        requires { is_there (run_in self.old index) ≡ true }
        ensures same { state self.new ≡ state self.old }
        ensures more { IfOk result (λ more. IsPrepared self.new moment index facts more) }
    {
        let plan = self.make_room(index, StepFacts { moment, facts })?;
        Ok(MoreOf { index, plan })
    }

    /// Plans the end of the started task of the run at a place.
    pub fn complete_in(
        &mut self,
        index: usize,
        commands: &[Command],
        moment: Moment,
    ) -> Result<Completion, AllocError>
        requires there { index < length self.old.runs }
        requires started { (state_at (states self.old.runs) index).task ≡ IsStarted }
        ensures same { state self.new ≡ state self.old }
        ensures there { index < length self.new.runs }
        ensures caught_up { OnOk result (IsCaughtUp self.new.changed) }
        ensures plan { IfOk result (λ c. IsCompletion (view_at self.new.runs index) moment
            (judge_all self.old.setup (run_id self.old.setup (length self.old.runs + 1))
            (state_at (states self.old.runs) index) [] commands.now) c) }
    {
        self.catch_up()?;
        let next = self.run_id(self.runs.len());
        let place = self.runs.place_mut(index);
        let run = place.get_mut();
        plan_completion(self.alloc, run, &self.setup, next, commands, moment)
    }

    /// Plans the failure of the started task of the run at a place.
    pub fn fail_in(
        &mut self,
        index: usize,
        message: Text,
        moment: Moment,
    ) -> Result<PlannedFacts, AllocError>
        requires there { index < length self.old.runs }
        requires started { (state_at (states self.old.runs) index).task ≡ IsStarted }
        ensures same { state self.new ≡ state self.old }
        ensures there { index < length self.new.runs }
        ensures caught_up { OnOk result (IsCaughtUp self.new.changed) }
        ensures plan { IfOk result (λ plan. IsPlanned (view_at self.new.runs index) moment
            (failed_task (state_at (states self.old.runs) index)
            WorkflowWorkerUnhandledFailure message) plan) }
    {
        self.catch_up()?;
        let cause = Cause::WorkflowWorkerUnhandledFailure;
        let place = self.runs.place_mut(index);
        let run = place.get_mut();
        plan_failure(self.alloc, run, cause, message, moment)
    }
}
