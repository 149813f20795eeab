//! The runs that a request names, by their places.

ghost use Rattle.std.specs.Prelude.{◌≡◌, ◌≤◌, ◌<◌, length, IfSome, Some, is_some, option_map, true};
ghost use Rattle.service_model.specs.Deliveries.{own_run};
ghost use Rattle.service_model.specs.Outcome.{has_run, named_run, latest_run, open_run, run_id};
ghost use Rattle.service_model.specs.RunState.{is_open, is_there};
ghost use Rattle.shard_steps.specs.Attempts.{has_run_of};
ghost use Rattle.shard_store.specs.ShardView.{ordinal_of, run_in, runs_in, states};

use crate::store::Store;
use mutable_state_keeper::KeepsRun;
use wf_event_values::{Id, RunId};

impl<T: KeepsRun> Store<T> {
    /// The place of the latest run of a workflow ID.
    pub fn latest(&self, id: &Id) -> Option<usize>
        ensures found { option_map ordinal_of result ≡ latest_run (states self.now.runs) id.now }
        ensures there { IfSome result (λ index. index < length self.now.runs) }
        ensures begun { IfSome result (λ index. is_there (run_in self.now index) ≡ true) }
    {
        self.index.get(id.as_str()).copied()
    }

    /// The place of the run that a request names, or else of the workflow ID's latest run.
    pub fn named(&self, id: &Id, run: Option<RunId>) -> Option<usize>
        ensures found { option_map ordinal_of result ≡ named_run (runs_in self.now) id.now run }
        ensures there { IfSome result (λ index. index < length self.now.runs) }
        ensures begun { IfSome result (λ index. is_there (run_in self.now index) ≡ true) }
    {
        match run {
            Some(run) => self.own_named(id, run),
            None => self.latest(id),
        }
    }

    /// The same, where that run is open.
    pub fn named_open(&self, id: &Id, run: Option<RunId>) -> Option<usize>
        ensures found { option_map ordinal_of result ≡ open_run (runs_in self.now) id.now run }
        ensures there { IfSome result (λ index. index < length self.now.runs) }
        ensures begun { IfSome result (λ index. is_there (run_in self.now index) ≡ true) }
        ensures open { IfSome result (λ index. is_open (run_in self.now index) ≡ true) }
    {
        let index = self.named(id, run)?;
        if self.run(index).is_open() {
            Some(index)
        } else {
            None
        }
    }

    /// The place of a run of this shard, by its run id.
    pub fn own(&self, run: RunId) -> Option<usize>
        ensures found { option_map ordinal_of result ≡ own_run (runs_in self.now) run }
        ensures there { IfSome result (λ index. index < length self.now.runs) }
        ensures begun { IfSome result (λ index. is_there (run_in self.now index) ≡ true) }
    {
        if run.service() != self.setup.service {
            return None;
        }
        self.place_on(run.shard(), run.ordinal())
    }

    /// The same, where the workflow ID is its.
    fn own_named(&self, id: &Id, run: RunId) -> Option<usize>
        ensures found { option_map ordinal_of result
            ≡ named_run (runs_in self.now) id.now (Some run) }
        ensures there { IfSome result (λ index. index < length self.now.runs) }
        ensures begun { IfSome result (λ index. is_there (run_in self.now index) ≡ true) }
    {
        let index = self.own(run)?;
        if self.run(index).workflow_id() == id {
            Some(index)
        } else {
            None
        }
    }

    /// The place of the run with that ordinal on the shard of that number, where that is this one.
    pub fn place_on(&self, shard: u16, ordinal: u64) -> Option<usize>
        ensures some { has_run_of (runs_in self.now) shard ordinal ≡ is_some result }
        ensures found { IfSome result (λ index. ordinal_of index ≡ ordinal) }
        ensures there { IfSome result (λ index. index < length self.now.runs) }
        ensures begun { IfSome result (λ index. is_there (run_in self.now index) ≡ true) }
    {
        if shard != self.setup.shard {
            return None;
        }
        self.place_of(ordinal)
    }

    /// The place of the run with that ordinal. Ordinals count from 1, and stand in run ids, hints,
    /// tokens and deadlines alone.
    pub fn place_of(&self, ordinal: u64) -> Option<usize>
        ensures some { has_run (runs_in self.now) ordinal ≡ is_some result }
        ensures found { IfSome result (λ index. ordinal_of index ≡ ordinal) }
        ensures there { IfSome result (λ index. index < length self.now.runs) }
        ensures begun { IfSome result (λ index. is_there (run_in self.now index) ≡ true) }
    {
        let n = ordinal as usize;
        if n < 1 || n > self.runs.len() {
            return None;
        }
        let index = n - 1;
        if self.is_there(index) {
            Some(index)
        } else {
            None
        }
    }

    /// The run id of the run at a place, or of the next run.
    pub fn run_id(&self, index: usize) -> RunId
        requires { index ≤ length self.now.runs }
        ensures { result ≡ run_id self.now.setup (ordinal_of index) }
    {
        RunId::new(self.setup.service, self.setup.shard, index as u64 + 1)
    }
}
