//! The rows in which what is in use lies.

ghost use Rattle.std.specs.Prelude.{◌≡◌, ◌<◌, ◌^◌, filter, length, option_map, None};
ghost use Rattle.std.specs.List.{AllByRecursion};
ghost use Rattle.mutable_state.specs.Noted.{MayAdd, asked, noted};
ghost use Rattle.mutable_state.specs.Rows.{keys, AreRising, IsPlaceOf, IsNamed, HasRow, is_at, is_pending_at, is_unmarked_at, MayAddIn, marked_in, asked_one, noted_one};

use crate::open::Open;
use service_model_types::journal::Note;
use timeouts::DueId;
use wf_event::{Class, Opener};
use wf_event_values::Moment;

/// A thing by the event that opened it, where it is still in use.
pub(crate) struct Row {
    pub(crate) event: u64,
    pub(crate) kept: Option<Open>,
    /// The id of its first deadline, where it has one.
    pub(crate) due: Option<DueId>,
}

impl Drop for Row {
    fn drop(self) {
        let Row {
            event: _,
            kept: _,
            due: _,
        } = self;
    }
}

impl Row {
    /// Whether this one is here.
    fn has(&self, opener: Opener) -> bool
        ensures { result ≡ is_at opener self.now }
    {
        match &self.kept {
            Some(open) => open.is(opener),
            None => false,
        }
    }

    /// Whether what is here is pending, and of the class.
    fn is_pending_of(&self, class: Class) -> bool
        ensures { result ≡ is_pending_at class self.now }
    {
        match &self.kept {
            Some(open) => open.is_pending_of(class),
            None => false,
        }
    }

    /// Whether something is here that no event settles which is buffered.
    pub(crate) fn is_unmarked(&self) -> bool
        ensures { result ≡ is_unmarked_at self.now }
    {
        match &self.kept {
            Some(open) => !open.is_settled,
            None => false,
        }
    }

    /// What is here is in use no more.
    pub(crate) fn clear(&mut self)
        ensures { self.new ≡ record self.old {
          kept = None;
          due = None;
        } }
    {
        self.kept = None;
        self.due = None;
    }

    /// What settles it is buffered: it has no deadline any more.
    pub(crate) fn mark(&mut self)
        ensures { self.new ≡ record self.old {
          kept = option_map marked_in self.old.kept;
          due = None;
        } }
    {
        self.due = None;
        if let Some(open) = &mut self.kept {
            open.is_settled = true;
        }
    }

    /// It is asked to cancel.
    pub(crate) fn ask(&mut self)
        ensures { self.new ≡ record self.old { kept = option_map asked_one self.old.kept } }
    {
        if let Some(open) = &mut self.kept {
            open.notes.cancel_requested = true;
        }
    }

    /// One more note on it, made at this moment.
    pub(crate) fn note(&mut self, at: Moment, note: Note)
        requires { MayAddIn note self.old.kept }
        ensures { self.new
            ≡ record self.old { kept = option_map (noted_one at note) self.old.kept } }
    {
        if let Some(open) = &mut self.kept {
            open.notes.add(at, note);
        }
    }
}

/// At how many rows something of the class is pending.
pub(crate) fn count_pending(rows: &[Row], class: Class) -> u64
    ensures { result ≡ length (filter (is_pending_at class) rows.now) }
{
    rows.iter().filter(|row| row.is_pending_of(class)).count() as u64
}

/// The place of the row of an event, found by halving.
fn place_of(rows: &[Row], event: u64) -> Option<usize>
    requires few { length rows.now < 2 ^ 63 }
    requires rising { AreRising (keys rows.now) }
    ensures { IsPlaceOf event (keys rows.now) result }
{
    let mut low = 0;
    let mut high = rows.len();
    while low < high {
        let middle = low + (high - low) / 2;
        let found = rows[middle].event;
        if found == event {
            return Some(middle);
        }
        if found < event {
            low = middle + 1;
        } else {
            high = middle;
        }
    }
    None
}

/// The place of the row at which this one is.
pub(crate) fn place_at(rows: &[Row], opener: Opener) -> Option<usize>
    requires few { length rows.now < 2 ^ 63 }
    requires rising { AreRising (keys rows.now) }
    requires named { AllByRecursion IsNamed rows.now }
    ensures { HasRow opener rows.now result }
{
    let place = place_of(rows, opener.event)?;
    if rows[place].has(opener) {
        return Some(place);
    }
    None
}
