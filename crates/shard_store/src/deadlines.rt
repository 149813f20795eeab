//! The first deadlines of a shard's runs, and what a step leaves to be looked up.

ghost use Rattle.std.specs.Prelude.{◌≡◌, None, option_map, IfOk, OnOk};
ghost use Rattle.service_model.specs.TimerTurns.{all_dues, due_now, least};
ghost use Rattle.timeouts.specs.Slots.{run_due};
ghost use Rattle.shard_issued.specs.Outstanding.{IsCaughtUp};
ghost use Rattle.shard_store.specs.ShardView.{state, states};

use crate::store::Store;
use mutable_state_keeper::KeepsRun;
use std::alloc::AllocError;
use timeouts::Due;
use wf_event_values::Moment;

impl<T: KeepsRun> Store<T> {
    /// Looks up the first deadlines, the dispatches and the transfers of the runs that changed since.
    pub fn catch_up(&mut self) -> Result<(), AllocError>
        ensures same { state self.new ≡ state self.old }
        ensures runs { self.new.runs ≡ self.old.runs }
        ensures caught_up { OnOk result (IsCaughtUp self.new.changed) }
    {
        self.catch_up_grown()?;
        self.catch_up_made()?;
        self.catch_up_sent()
    }

    /// Looks up those of the run to which the last step added.
    fn catch_up_grown(&mut self) -> Result<(), AllocError>
        ensures same { state self.new ≡ state self.old }
        ensures runs { self.new.runs ≡ self.old.runs }
        ensures caught_up { OnOk result (self.new.changed.grown ≡ None) }
    {
        let Some(index) = self.changed.grown else {
            return Ok(());
        };
        let place = &self.runs[index];
        let due = place.first_due(self.alloc, self.setup.retention, index as u64 + 1)?;
        let issued = place.issued(self.alloc, &self.setup, &self.dispatches, index)?;
        let shown = place.shown(self.alloc)?;
        self.deadlines.set(index, due)?;
        self.dispatches.issue(index, shown, issued)?;
        self.changed.grown = None;
        Ok(())
    }

    /// Looks up those of the run that the last step made.
    fn catch_up_made(&mut self) -> Result<(), AllocError>
        requires { self.old.changed.grown ≡ None }
        ensures same { state self.new ≡ state self.old }
        ensures runs { self.new.runs ≡ self.old.runs }
        ensures grown { self.new.changed.grown ≡ None }
        ensures made { OnOk result (self.new.changed.made ≡ None) }
    {
        let Some(index) = self.changed.made else {
            return Ok(());
        };
        let place = &self.runs[index];
        let due = place.first_due(self.alloc, self.setup.retention, index as u64 + 1)?;
        let issued = place.dispatches(self.alloc, &self.setup, index as u64 + 1)?;
        let shown = place.shown(self.alloc)?;
        self.deadlines.set(index, due)?;
        self.dispatches.issue(index, shown, issued)?;
        self.changed.made = None;
        Ok(())
    }

    /// The first deadline of the shard, where its moment has come.
    pub fn due_now(&mut self, moment: Moment) -> Result<Option<Due>, AllocError>
        ensures same { state self.new ≡ state self.old }
        ensures caught_up { OnOk result (IsCaughtUp self.new.changed) }
        ensures due { IfOk result (λ due. option_map run_due due
            ≡ due_now moment (least (all_dues self.old.setup.retention (states self.old.runs)))) }
    {
        self.catch_up()?;
        Ok(self.deadlines.due(moment))
    }
}
