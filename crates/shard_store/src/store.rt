//! What a shard keeps in memory.

ghost use Rattle.std.specs.Prelude.{◌≡◌, ◌<◌, ◌^◌, ◌==◌, [], IfOk, length, option_copied, replicate, slice_get, true};
ghost use Rattle.service_model.specs.Aging.{AreAged};
ghost use Rattle.service_model.specs.Outcome.{Outcome};
ghost use Rattle.service_model_types.specs.Routing.{shard_of};
ghost use Rattle.service_model.specs.RunState.{is_there};
ghost use Rattle.service_model.specs.Service.{opening};
ghost use Rattle.shard_issued.specs.Outstanding.{IsCaughtUp};
ghost use Rattle.shard_store.specs.ShardView.{IsSetup, run_in, state, states};
ghost use Rattle.shard_store.specs.Fitting.{FitsChange, state_after};
ghost use Rattle.shard_store.specs.Open.{IsOneOpen};
ghost use Rattle.shard_store.specs.Standing.{Grows, StandsFor};
ghost use Rattle.transfer.specs.Logs.{none_waits};

use crate::plan::Plan;
use crate::runs::Runs;
use indexmap::IndexMap;
use mutable_state_keeper::{KeepsRun, Run};
use service_model_types::answer::Reply;
use service_model_types::content::{Dispatch, Setup};
use shard_issued::{Changed, Dispatches, Transfers};
use std::alloc::{AllocError, Global};
use std::marker::Model;
use timeouts::ByPlace;
use wf_event_values::{Id, Moment};

/// What a shard keeps, where `T` keeps its runs.
pub struct Store<T: KeepsRun> {
    pub(crate) alloc: Global,
    pub(crate) setup: Setup,
    /// A place for each run that was ever made.
    pub(crate) runs: Runs<T>,
    /// The place of each workflow ID's latest run.
    pub(crate) index: IndexMap<String, usize>,
    /// The first deadline of each run, at the run's place.
    pub(crate) deadlines: ByPlace,
    /// The tasks that are to be handed to their queues.
    pub(crate) dispatches: Dispatches,
    /// What other shards are to be told, and how much of what they told was accepted.
    pub(crate) transfers: Transfers,
    /// The places of the runs that the last step changed, where their deadlines and dispatches were
    /// not looked up since: that may take memory, so the next step does it.
    pub(crate) changed: Changed,
    pub(crate) last: Moment,
}

impl<T: KeepsRun> Drop for Store<T> {
    fn drop(self) {
        let Store {
            alloc: _,
            setup: _,
            runs: _,
            index: _,
            deadlines: _,
            dispatches: _,
            transfers: _,
            changed: _,
            last: _,
        } = self;
    }
}

impl<T: KeepsRun> Model for Store<T> {
    ghost use Rattle.std.specs.Prelude.{◌<◌, ◌^◌, length, min};
    ghost use Rattle.indexmap.specs.IndexMap.{get_by_text, spare};
    ghost use Rattle.shard_store.specs.ShardView.{ShardView, IsIndexed, IsSetup, states};
    ghost use Rattle.shard_issued.specs.Issuing.{all_waiting};
    ghost use Rattle.shard_issued.specs.Outstanding.{HasFirsts, HasShown, outstanding};
    ghost use Rattle.shard_issued.specs.Sending.{all_outgoing, KeepsTransfers};

    ghost Value = { ShardView };

    ghost view = { λ a. record {
      setup = a.setup;
      runs = a.runs.items;
      changed = outstanding a.changed a.transfers;
      last = a.last;
      room = min a.runs.room (min (spare a.index) (min a.deadlines.room a.dispatches.room));
      waiting = all_waiting a.setup a.dispatches a.changed (states a.runs.items);
      outgoing = all_outgoing a.setup a.transfers (states a.runs.items);
      accepted = a.transfers.accepted;
    } };

    ghost invariant = { λ a. IsSetup a.setup
        × IsIndexed (get_by_text a.index) a.runs.items
        × (length a.runs.items < 2 ^ 60)
        × HasFirsts a.setup.retention a.deadlines.slots a.changed (states a.runs.items)
        × HasShown a.dispatches.shown a.changed (states a.runs.items)
        × KeepsTransfers a.setup.shards (length a.runs.items) a.transfers };
}

impl<T: KeepsRun> Store<T> {
    /// What a shard without runs keeps.
    pub fn new(alloc: Global, setup: Setup) -> Result<Store<T>, AllocError>
        requires { IsSetup setup }
        ensures state { IfOk result (λ store. state store ≡ record {
          setup = setup;
          runs = [];
          last = 0;
          waiting = none_waits;
          outgoing = replicate setup.shards none_waits;
          accepted = replicate setup.shards 0;
        }) }

        // It stands for the content that every shard opens with.
        ensures stands { IfOk result (λ store. StandsFor store (opening setup)) }
    {
        let runs = Runs::new(alloc)?;
        let transfers = Transfers::new(alloc, setup.shards)?;
        Ok(Store {
            alloc,
            setup,
            runs,
            index: IndexMap::new(alloc),
            deadlines: ByPlace::new(alloc),
            dispatches: Dispatches::new(alloc),
            transfers,
            changed: Changed::none(),
            last: Moment::zero(),
        })
    }

    /// The allocator of all that steps make.
    pub fn alloc(&self) -> Global {
        self.alloc
    }

    /// The service's and the shard's settings.
    pub fn setup(&self) -> &Setup
        ensures value { result.now ≡ self.now.setup }
        ensures fits { IsSetup result.now }
    {
        &self.setup
    }

    /// Whether a workflow ID belongs to this shard.
    pub fn is_home_of(&self, id: &Id) -> bool
        ensures { result ≡ (shard_of self.now.setup id.now == self.now.setup.shard) }
    {
        self.setup.shard_of(id) == self.setup.shard
    }

    /// The moment of the last step.
    pub fn last(&self) -> Moment
        ensures { result ≡ self.now.last }
    {
        self.last
    }

    /// How many runs there are.
    pub fn count(&self) -> usize
        ensures count { result ≡ length self.now.runs }
        ensures few { result < 2 ^ 60 }
    {
        self.runs.len()
    }

    /// The run at a place.
    pub fn run(&self, index: usize) -> &Run<T>
        requires { is_there (run_in self.now index) ≡ true }
        ensures { result.now.state ≡ run_in self.now index }
    {
        let place = &self.runs[index];
        place.get()
    }

    /// Whether a run is at a place.
    pub(crate) fn is_there(&self, index: usize) -> bool
        requires { index < length self.now.runs }
        ensures { result ≡ is_there (run_in self.now index) }
    {
        let place = &self.runs[index];
        place.is_there()
    }

    /// The first dispatch that waits.
    pub fn first_dispatch(&self) -> Option<&Dispatch>
        requires { IsCaughtUp self.now.changed }
        ensures { option_copied result ≡ slice_get self.now.waiting.items 0 }
    {
        self.dispatches.first()
    }

    /// How many dispatches wait.
    pub fn waiting_dispatches(&self) -> usize
        requires { IsCaughtUp self.now.changed }
        ensures { result ≡ length self.now.waiting.items }
    {
        self.dispatches.count()
    }

    /// How many dispatches were counted.
    pub fn counted_dispatches(&self) -> u64
        ensures { result ≡ self.now.waiting.counted }
    {
        self.dispatches.counted()
    }

    /// Does what was planned. It takes no memory.
    pub fn commit(&mut self, plan: Plan<T>) -> Reply
        requires fits { (o : Outcome) × FitsChange self.old plan.moment plan.change o }

        // Of two runs of one workflow ID the older has closed, and closed no later.
        requires one { IsOneOpen (states self.old.runs) }
        requires aged { AreAged self.old.last (states self.old.runs) }
        ensures state { state self.new ≡ state_after plan (state self.old) }

        // Each older run showed before what it shows first after, or was deleted.
        ensures grows { Grows (states self.old.runs) (states self.new.runs) }

        ensures reply { result ≡ plan.reply }
    {
        self.finish(plan)
    }

    fn finish(&mut self, plan: Plan<T>) -> Reply
        requires fits { (o : Outcome) × FitsChange self.old plan.moment plan.change o }
        requires one { IsOneOpen (states self.old.runs) }
        requires aged { AreAged self.old.last (states self.old.runs) }
        ensures state { state self.new ≡ state_after plan (state self.old) }
        ensures reply { result ≡ plan.reply }
    {
        let (moment, change, reply) = plan.into_parts();
        self.carry_out(change);
        self.last = moment;
        reply
    }
}
