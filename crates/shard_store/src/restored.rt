//! What a shard keeps, restored piece by piece: first what was counted, then each run at its place, then
//! what waits.
//!
//! What a run issued was counted, or waits and is restored itself: so what its history would issue again is
//! dropped.

ghost use Rattle.std.specs.Prelude.{◌≡◌, ◌+◌, ◌<◌, ◌^◌, ◌≤◌, ◌∷◌, ◌++◌, [], IfOk, OnOk, length, map, replicate};
ghost use Rattle.service_model.specs.RunState.{no_run};
ghost use Rattle.shard_issued.specs.Outstanding.{IsCaughtUp};
ghost use Rattle.shard_store.specs.ShardView.{IsSetup, state, states};
ghost use Rattle.transfer.specs.Logs.{counted_off, with_issued};
ghost use Rattle.transfer.specs.Outboxes.{with_all_sent};

use crate::place::Place;
use crate::plan::NewRun;
use crate::runs::Runs;
use crate::store::Store;
use indexmap::IndexMap;
use mutable_state_keeper::{KeepsRun, Run};
use service_model_types::content::{Dispatch, Setup};
use service_model_types::transfer::Sent;
use shard_issued::{Changed, Dispatches, Transfers};
use std::alloc::{AllocError, Global};
use timeouts::ByPlace;
use wf_event::Boxed;
use wf_event_values::Moment;

/// For so many places of deleted runs room is made at once: more would take memory that is given back.
const GONE_AT_ONCE: u64 = 1024;

impl<T: KeepsRun> Store<T> {
    /// What a shard without runs keeps, of whose dispatches so many were counted, and of whose transfers
    /// each shard acknowledged so many, and that accepted so many from each.
    ///
    /// # Errors
    /// Where memory was refused.
    pub fn restored(
        alloc: Global,
        setup: Setup,
        dispatched: u64,
        acknowledged: &[u64],
        accepted: Vec<u64>,
    ) -> Result<Store<T>, AllocError>
        requires setup { IsSetup setup }
        requires acknowledged { length acknowledged.now ≡ setup.shards }
        requires accepted { length accepted.items ≡ setup.shards }
        ensures { IfOk result (λ store. state store ≡ record {
          setup = setup;
          runs = [];
          last = 0;
          waiting = counted_off dispatched;
          outgoing = map counted_off acknowledged.now;
          accepted = accepted.items;
        }) }
    {
        let runs = Runs::new(alloc)?;
        let transfers = Transfers::restored(alloc, acknowledged, accepted)?;
        Ok(Store {
            alloc,
            setup,
            runs,
            index: IndexMap::new(alloc),
            deadlines: ByPlace::new(alloc),
            dispatches: Dispatches::restored(alloc, dispatched),
            transfers,
            changed: Changed::none(),
            last: Moment::zero(),
        })
    }

    /// One more run, at the next place. What waits comes after all runs: none does then.
    ///
    /// # Errors
    /// Where memory was refused.
    pub fn restore_run(&mut self, run: Run<T>) -> Result<(), AllocError>
        ensures { OnOk result (state self.new ≡ record (state self.old) {
          runs = states self.old.runs ++ run.state ∷ [];
          waiting = counted_off self.old.waiting.counted;
        }) }
    {
        let key = String::from_str(self.alloc, run.workflow_id().as_str())?;
        let run = Place::new(self.alloc, run)?;
        self.reserve_runs(1)?;
        self.add(NewRun { run, key });
        self.catch_up()?;
        self.drop_waiting();
        Ok(())
    }

    /// No dispatch waits.
    fn drop_waiting(&mut self)
        requires { IsCaughtUp self.old.changed }
        ensures { state self.new
            ≡ record (state self.old) { waiting = counted_off self.old.waiting.counted } }
    {
        self.dispatches.drop_waiting();
    }

    /// The next places, of so many runs that were deleted.
    ///
    /// # Errors
    /// Where memory was refused.
    pub fn restore_gone(&mut self, count: u64) -> Result<(), AllocError>
        ensures { OnOk result (state self.new
            ≡ record (state self.old) { runs = states self.old.runs ++ replicate count no_run }) }
    {
        let mut left = count;
        while left > 0 {
            let some = left.min(GONE_AT_ONCE);
            self.reserve_runs(some as usize)?;
            self.add_gone(some as usize);
            left -= some;
        }
        Ok(())
    }

    /// The next places, of so many runs that were deleted. They have no deadline, and nothing to issue.
    fn add_gone(&mut self, count: usize)
        requires caught_up { IsCaughtUp self.old.changed }
        requires room { count ≤ self.old.room }
        requires few { length self.old.runs + count < 2 ^ 60 }
        ensures { state self.new
            ≡ record (state self.old) { runs = states self.old.runs ++ replicate count no_run } }
    {
        self.runs.extend_gone(count);
        self.deadlines.extend_none(count);
        self.dispatches.add_runs(count);
    }

    /// One more dispatch that waits, after the others.
    ///
    /// # Errors
    /// Where memory was refused.
    pub fn restore_dispatch(&mut self, dispatch: Dispatch) -> Result<(), AllocError>
        ensures { OnOk result (state self.new ≡ record (state self.old) {
          waiting = with_issued (state self.old).waiting (dispatch ∷ []);
        }) }
    {
        self.catch_up()?;
        self.dispatches.put_back(dispatch)
    }

    /// One more transfer that isn't acknowledged, after the others to its shard.
    ///
    /// # Errors
    /// Where memory was refused.
    pub fn restore_transfer(&mut self, sent: Sent) -> Result<(), AllocError>
        ensures { OnOk result (state self.new ≡ record (state self.old) {
          outgoing = with_all_sent (sent ∷ []) 0 (state self.old).outgoing;
        }) }
    {
        self.catch_up()?;
        let sent = Boxed::new(self.alloc, sent)?;
        self.answer_by(Some(sent));
        Ok(())
    }

    /// The moment of the last step.
    pub fn restore_last(&mut self, last: Moment)
        ensures { state self.new ≡ record (state self.old) { last = last } }
    {
        self.last = last;
    }
}
