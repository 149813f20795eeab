//! What is in use in a run, with the first deadline of each thing.

ghost use Rattle.std.specs.Prelude.{◌≡◌, ◌+◌, ◌<◌, ◌≤◌, ◌^◌, [], length, filter, find, is_some, option_copied, option_map, List, OnOk};
ghost use Rattle.std.specs.List.{AllByRecursion};
ghost use Rattle.wf_event.specs.declared.event.Event.{Event};
ghost use Rattle.service_model.specs.TimerTurns.{least};
ghost use Rattle.timeouts.specs.Slots.{run_due};
ghost use Rattle.mutable_state.specs.Filed.{all_firsts, KeepsDues, HasId, IsAdded, without_id};
ghost use Rattle.mutable_state.specs.Opens.{is_one, is_pending_of, without, marked, unmarked, added, asked_in, noted_in, MayNote};
ghost use Rattle.mutable_state.specs.Rooms.{one_if};
ghost use Rattle.mutable_state.specs.Rows.{keys, living, AreRising, IsNamed};

use crate::dues::{first_due_at, first_row_due};
use crate::notes::Notes;
use crate::open::{Open, activity_of};
use crate::rows::{Row, count_pending, place_at};
use buffered::History;
use service_model_types::journal::NoteFact;
use std::alloc::{AllocError, Global};
use std::marker::Model;
use timeouts::{Deadlines, Due, DueId};
use wf_event::{Class, Opener};
use wf_event_values::Moment;

/// What is kept where something is in use. What is in use no more leaves a dead row, until more than
/// half of all are dead.
pub(crate) struct Lists {
    rows: Vec<Row>,
    /// The first deadline of each thing in use that has one, of the run 0.
    deadlines: Deadlines,
    /// How many rows are dead, at least.
    dead: usize,
    /// The last event that opened something.
    last: u64,
    /// Whether a row may be settled by an event that is buffered.
    has_marked: bool,
}

impl Drop for Lists {
    fn drop(self) {
        let Lists {
            rows: _,
            deadlines: _,
            dead: _,
            last: _,
            has_marked: _,
        } = self;
    }
}

/// What is in use in a run, in the order in which it was opened. In many runs nothing is, which takes
/// no memory.
pub struct InUse {
    lists: Option<Box<Lists>>,
    alloc: Global,
}

impl Drop for InUse {
    fn drop(self) {
        let InUse { lists: _, alloc: _ } = self;
    }
}

impl Model for InUse {
    ghost use Rattle.std.specs.Prelude.{IfSome};
    ghost use Rattle.std.specs.Option.{option_map_or};
    ghost use Rattle.mutable_state.specs.Opens.{OpenRows, no_rows};
    ghost use Rattle.mutable_state.specs.Listed.{in_lists, AreInOrder};

    ghost Value = { OpenRows };

    ghost view = { λ u. option_map_or (λ b. in_lists b.value) u.lists no_rows };

    ghost invariant = { λ u. IfSome u.lists (λ b. AreInOrder b.value) };
}

impl InUse {
    /// Nothing.
    pub(crate) fn none(alloc: Global) -> InUse
        ensures rows { result.rows ≡ [] }
        ensures last { result.last ≡ 0 }
        ensures dues { result.firsts ≡ [] }
    {
        InUse { lists: None, alloc }
    }

    /// Makes room for so many more, and for so many deadlines.
    pub(crate) fn reserve(&mut self, additional: usize, deadlines: usize) -> Result<(), AllocError>
        ensures same { self.new.rows ≡ self.old.rows }
        ensures last { self.new.last ≡ self.old.last }
        ensures dues { (es : List Event) → KeepsDues es self.old → KeepsDues es self.new }
        ensures ok { OnOk result (additional ≤ self.new.room) }
        ensures ok_due { OnOk result (deadlines ≤ self.new.due_room) }
        ensures room { self.old.room ≤ self.new.room }
        ensures due_room { self.old.due_room ≤ self.new.due_room }
    {
        if let Some(boxed) = self.lists.as_mut() {
            let lists = boxed.as_mut();
            lists.rows.reserve(additional)?;
            return lists.deadlines.reserve(deadlines);
        }
        if additional > 0 || deadlines > 0 {
            let empty = Lists {
                rows: Vec::new(self.alloc),
                deadlines: Deadlines::new(self.alloc),
                dead: 0,
                last: 0,
                has_marked: false,
            };
            let mut boxed = Box::new(self.alloc, empty)?;
            let lists = boxed.as_mut();
            lists.rows.reserve(additional)?;
            lists.deadlines.reserve(deadlines)?;
            self.lists = Some(boxed);
        }
        Ok(())
    }

    /// Gives the room up, where nothing is in use.
    pub(crate) fn give_back(&mut self)
        ensures rows { self.new.rows ≡ self.old.rows }
        ensures last { self.new.last ≤ self.old.last }
        ensures dues { (es : List Event) → KeepsDues es self.old → KeepsDues es self.new }
    {
        let Some(boxed) = self.lists.as_mut() else {
            return;
        };
        let lists = boxed.as_mut();
        lists.deadlines.give_back();
        if lists.rows.len() > 0 {
            return;
        }
        self.lists = None;
    }

    /// It is in use, and nothing settles it. The event, which the history has, comes after all that
    /// opened something.
    pub(crate) fn add(&mut self, history: &History, opened: Option<Class>, event: u64)
        requires room { one_if (is_some opened) ≤ self.old.room }
        requires due_room { one_if (is_some opened) ≤ self.old.due_room }
        requires behind { self.old.last < event }
        ensures rows { self.new.rows ≡ added opened event self.old.rows }
        ensures last { self.new.last ≤ event }
        ensures dues { KeepsDues history.now.lists.events self.old →
            KeepsDues history.now.lists.events self.new }
        ensures room { self.old.room ≤ self.new.room + one_if (is_some opened) }
        ensures due_room { self.old.due_room ≤ self.new.due_room + one_if (is_some opened) }
    {
        let Some(boxed) = self.lists.as_mut() else {
            return;
        };
        let lists = boxed.as_mut();
        let Some(class) = opened else {
            return;
        };
        let open = Open {
            opener: Opener { class, event },
            is_settled: false,
            notes: Notes::new(),
        };
        let due = file(&mut lists.deadlines, first_row_due(&open, history));
        lists.rows.push_reserved(Row {
            event,
            kept: Some(open),
            due,
        });
        lists.last = event;
    }

    /// It is in use no more.
    pub(crate) fn settle(&mut self, settled: Option<Opener>)
        ensures rows { self.new.rows ≡ without settled self.old.rows }
        ensures last { self.new.last ≡ self.old.last }
        ensures dues { (es : List Event) → KeepsDues es self.old → KeepsDues es self.new }
        ensures room { self.old.room ≤ self.new.room }
        ensures due_room { self.old.due_room ≤ self.new.due_room }
    {
        let Some(boxed) = self.lists.as_mut() else {
            return;
        };
        let lists = boxed.as_mut();
        let Some(opener) = settled else {
            return;
        };
        let Some(place) = place_at(lists.rows.as_slice(), opener) else {
            return;
        };
        let row = &mut lists.rows[place];
        unfile(&mut lists.deadlines, row.due);
        row.clear();
        lists.dead = lists.dead.saturating_add(1);
        if lists.dead <= lists.rows.len() / 2 {
            return;
        }
        lists.rows.retain(|row| row.kept.is_some());
        lists.dead = 0;
    }

    /// What settles it is buffered.
    pub(crate) fn mark(&mut self, settled: Option<Opener>)
        ensures rows { self.new.rows ≡ marked settled self.old.rows }
        ensures last { self.new.last ≡ self.old.last }
        ensures dues { (es : List Event) → KeepsDues es self.old → KeepsDues es self.new }
        ensures room { self.old.room ≤ self.new.room }
        ensures due_room { self.old.due_room ≤ self.new.due_room }
    {
        let Some(boxed) = self.lists.as_mut() else {
            return;
        };
        let lists = boxed.as_mut();
        let Some(opener) = settled else {
            return;
        };
        let Some(place) = place_at(lists.rows.as_slice(), opener) else {
            return;
        };
        let row = &mut lists.rows[place];
        unfile(&mut lists.deadlines, row.due);
        row.mark();
        lists.has_marked = true;
    }

    /// This activity is asked to cancel.
    pub(crate) fn ask(&mut self, asked: Option<u64>)
        ensures rows { self.new.rows ≡ asked_in asked self.old.rows }
        ensures last { self.new.last ≡ self.old.last }
        ensures dues { (es : List Event) → KeepsDues es self.old → KeepsDues es self.new }
        ensures room { self.old.room ≤ self.new.room }
        ensures due_room { self.old.due_room ≤ self.new.due_room }
    {
        let Some(boxed) = self.lists.as_mut() else {
            return;
        };
        let lists = boxed.as_mut();
        let Some(activity) = asked else {
            return;
        };
        let Some(place) = place_at(lists.rows.as_slice(), activity_of(activity)) else {
            return;
        };
        lists.rows[place].ask();
    }

    /// One more note on an activity, made at this moment.
    pub(crate) fn note(&mut self, history: &History, at: Moment, note: NoteFact)
        requires due_room { 0 < self.old.due_room }
        requires may { MayNote note self.old.rows }
        ensures rows { self.new.rows ≡ noted_in at note self.old.rows }
        ensures last { self.new.last ≡ self.old.last }
        ensures dues { KeepsDues history.now.lists.events self.old →
            KeepsDues history.now.lists.events self.new }
        ensures room { self.old.room ≤ self.new.room }
        ensures due_room { self.old.due_room ≤ self.new.due_room + 1 }
    {
        let Some(boxed) = self.lists.as_mut() else {
            return;
        };
        let lists = boxed.as_mut();
        let (activity, note) = note.into_parts();
        let Some(place) = place_at(lists.rows.as_slice(), activity_of(activity)) else {
            return;
        };
        let row = &mut lists.rows[place];
        unfile(&mut lists.deadlines, row.due);
        row.note(at, note);
        row.due = file(&mut lists.deadlines, first_due_at(row, history));
    }

    /// All that is marked is in use no more.
    pub(crate) fn write_held(&mut self)
        ensures rows { self.new.rows ≡ unmarked self.old.rows }
        ensures last { self.new.last ≡ self.old.last }
        ensures dues { (es : List Event) → KeepsDues es self.old → KeepsDues es self.new }
        ensures room { self.old.room ≤ self.new.room }
        ensures due_room { self.old.due_room ≤ self.new.due_room }
    {
        let Some(boxed) = self.lists.as_mut() else {
            return;
        };
        let lists = boxed.as_mut();
        if !lists.has_marked {
            return;
        }
        lists.rows.retain(|row| row.is_unmarked());
        lists.dead = 0;
        lists.has_marked = false;
    }

    /// Nothing is in use any more.
    pub(crate) fn clear(&mut self)
        ensures rows { self.new.rows ≡ [] }
        ensures last { self.new.last ≡ self.old.last }
        ensures dues { (es : List Event) → KeepsDues es self.old → KeepsDues es self.new }
        ensures room { self.old.room ≤ self.new.room }
        ensures due_room { self.old.due_room ≤ self.new.due_room }
    {
        let Some(boxed) = self.lists.as_mut() else {
            return;
        };
        let lists = boxed.as_mut();
        lists.rows.clear();
        lists.deadlines.clear();
        lists.dead = 0;
        lists.has_marked = false;
    }

    /// The rows of what is in use, and dead ones among them.
    pub(crate) fn rows(&self) -> &[Row]
        ensures few { length result.now < 2 ^ 63 }
        ensures rising { AreRising (keys result.now) }
        ensures named { AllByRecursion IsNamed result.now }
        ensures alive { living result.now ≡ self.now.rows }
    {
        match &self.lists {
            Some(lists) => lists.rows.as_slice(),
            None => &[],
        }
    }

    /// This one, where it is in use.
    pub(crate) fn find(&self, opener: Opener) -> Option<&Open>
        ensures { option_copied result ≡ find (is_one opener) self.now.rows }
    {
        let rows = self.rows();
        let place = place_at(rows, opener)?;
        rows[place].kept.as_ref()
    }

    /// How many of the class are pending.
    pub(crate) fn count(&self, class: Class) -> u64
        ensures { result ≡ length (filter (is_pending_of class) self.now.rows) }
    {
        count_pending(self.rows(), class)
    }

    /// The first deadline of all, as that of the run 0.
    pub(crate) fn first_due(&self) -> Option<Due>
        ensures { option_map run_due result ≡ least (all_firsts self.now.firsts) }
    {
        match &self.lists {
            Some(lists) => lists.deadlines.least(),
            None => None,
        }
    }
}

/// Adds a deadline, where there is one.
fn file(deadlines: &mut Deadlines, due: Option<Due>) -> Option<DueId>
    requires { 0 < deadlines.old.room }
    ensures added { IsAdded deadlines.old.members deadlines.new.members due result }
    ensures room { deadlines.old.room ≤ deadlines.new.room + 1 }
{
    match due {
        Some(due) => Some(deadlines.add(due)),
        None => None,
    }
}

/// Removes a deadline, where there is one.
fn unfile(deadlines: &mut Deadlines, id: Option<DueId>)
    requires { HasId deadlines.old.members id }
    ensures members { deadlines.new.members ≡ without_id id deadlines.old.members }
    ensures room { deadlines.old.room ≤ deadlines.new.room }
{
    if let Some(id) = id {
        deadlines.remove(id);
    }
}
