//! How a plan is carried out. Nothing here takes memory.

ghost use Rattle.std.specs.Prelude.{◌≡◌, ℕ, List, None, Some, IfSome, bytes_eq, cond, length};
ghost use Rattle.indexmap.specs.IndexMap.{get_by_text};
ghost use Rattle.service_model.specs.Aging.{IsOldestRun};
ghost use Rattle.service_model.specs.Outcome.{Outcome};
ghost use Rattle.shard_store.specs.ShardView.{state, states};
ghost use Rattle.shard_store.specs.Fitting.{FitsChange, after_added, after_answer, after_change, after_count, after_created, after_taken, taken_of, without, HasPlace, HasRoom, MayAdd, MayAnswer, MayCount, MayGrow, MayTake};
ghost use Rattle.shard_store.specs.declared.plan.Change.TheVariants as change;

use crate::plan::{Change, Count, MoreOf, NewRun, Parts};
use crate::store::Store;
use indexmap::IndexMap;
use mutable_state_keeper::KeepsRun;
use service_model_types::transfer::Sent;
use shard_issued::{Changed, readied};
use wf_event::Boxed;
use wf_event_values::Id;

impl<T: KeepsRun> Store<T> {
    /// Deletes a run, or does all else.
    pub(crate) fn carry_out(&mut self, change: Change<T>)
        requires fits { (at : ℕ) × (o : Outcome) × FitsChange self.old at change o }
        requires oldest { IfSome (taken_of change) (IsOldestRun (states self.old.runs)) }
        ensures { state self.new ≡ after_change change (state self.old) }
    {
        match change {
            Change::Takes(index) => self.take_away(index),
            Change::Makes(parts) => self.carry_on(parts),
        }
    }

    /// Moves on a count, adds to an older run, answers a transfer, and adds a new run.
    fn carry_on(&mut self, parts: Parts<T>)
        requires { (at : ℕ) × (o : Outcome) × FitsChange self.old at (change.Makes parts) o }
        ensures { state self.new ≡ after_change (change.Makes parts) (state self.old) }
    {
        let Parts {
            added,
            created,
            count,
            answer,
        } = parts;
        self.move_on(count);
        self.grow_by(added);
        self.answer_by(answer);
        self.add_new(created);
    }

    /// Moves a count on.
    fn move_on(&mut self, count: Count)
        requires { MayCount self.old count }
        ensures state { state self.new ≡ after_count count (state self.old) }
        ensures runs { self.new.runs ≡ self.old.runs }
        ensures changed { self.new.changed ≡ self.old.changed }
        ensures room { self.new.room ≡ self.old.room }
    {
        match count {
            Count::Nothing => {}
            Count::Dispatch => self.dispatches.count_first(),
            Count::Accepts(from) => self.transfers.accept(from),
            Count::Acknowledges(to) => self.transfers.acknowledge(to),
        }
    }

    /// Adds a step's facts to a run, if it has any.
    fn grow_by(&mut self, added: Option<MoreOf>)
        requires { MayGrow self.old added }
        ensures state { state self.new ≡ after_added added (state self.old) }
        ensures count { length self.new.runs ≡ length self.old.runs }
        ensures made { self.new.changed.made ≡ self.old.changed.made }
        ensures answer { self.new.changed.answer ≡ self.old.changed.answer }
        ensures room { self.new.room ≡ self.old.room }
    {
        match added {
            Some(more) => self.grow(more),
            None => {}
        }
    }

    /// Notes the answer to a transfer, if the step gives one.
    pub(crate) fn answer_by(&mut self, answer: Option<Boxed<Sent>>)
        requires { MayAnswer self.old answer }
        ensures state { state self.new ≡ after_answer answer (state self.old) }
        ensures runs { self.new.runs ≡ self.old.runs }
        ensures made { self.new.changed.made ≡ self.old.changed.made }
        ensures room { self.new.room ≡ self.old.room }
    {
        match answer {
            Some(answer) => self.transfers.mark_answer(answer.into_inner()),
            None => {}
        }
    }

    /// Adds a step's facts to a run.
    fn grow(&mut self, more: MoreOf)
        requires { HasRoom self.old more }
        ensures state { state self.new ≡ after_added (Some more) (state self.old) }
        ensures count { length self.new.runs ≡ length self.old.runs }
        ensures made { self.new.changed.made ≡ self.old.changed.made }
        ensures answer { self.new.changed.answer ≡ self.old.changed.answer }
        ensures room { self.new.room ≡ self.old.room }
    {
        let MoreOf { index, plan } = more;
        let ready = readied(plan.change.facts.as_slice());
        let shown = self.dispatches.shown(index);
        self.runs.commit(index, plan);
        self.dispatches.mark_ready(ready);
        self.transfers.mark_grown(index, shown);
        self.changed = Changed {
            grown: Some(index),
            made: None,
        };
    }

    /// Adds a run, if the step makes one.
    fn add_new(&mut self, created: Option<NewRun<T>>)
        requires { MayAdd self.old created }
        ensures { state self.new ≡ after_created created (state self.old) }
    {
        match created {
            Some(created) => self.add(created),
            None => {}
        }
    }

    /// Adds a run.
    pub(crate) fn add(&mut self, created: NewRun<T>)
        requires { HasPlace self.old created }
        ensures { state self.new ≡ after_created (Some created) (state self.old) }
    {
        let NewRun { run, key } = created;
        let index = self.runs.len();
        let _ = self.index.insert(key, index).unwrap();
        self.runs.push(run);
        self.deadlines.push_none();
        self.dispatches.add_run();
        self.changed.made = Some(index);
    }

    /// Deletes a run. Its place stays.
    fn take_away(&mut self, index: usize)
        requires may { MayTake self.old index }
        requires oldest { IsOldestRun (states self.old.runs) index }
        ensures { state self.new ≡ after_taken (Some index) (state self.old) }
    {
        let place = &self.runs[index];
        let run = place.get();
        let id = run.workflow_id();
        forget_latest(&mut self.index, id, index);
        self.runs.clear(index);
        self.deadlines.clear(index);
        self.dispatches.forget(index);
    }
}

/// Forgets that a workflow ID's latest run is at a place, if it is there.
fn forget_latest(index: &mut IndexMap<String, usize>, id: &Id, place: usize)
    ensures { (w : List ℕ) → get_by_text index.new w ≡ cond (bytes_eq id.now w)
        (without place (get_by_text index.old id.now)) (get_by_text index.old w) }
{
    let Some(latest) = index.get(id.as_str()).copied() else {
        return;
    };
    if latest == place {
        let _ = index.swap_remove(id.as_str());
    }
}
