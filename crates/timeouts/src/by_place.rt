//! Deadlines by numbers, and the first of them.

ghost use Rattle.std.specs.Prelude.{◌≡◌, ℕ, ◌+◌, ◌<◌, ◌≤◌, ◌∷◌, ◌++◌, [], OnErr, OnOk, IfSome, IfNone, None, Some, length, replicate, slice_set};
ghost use Rattle.timeouts.specs.Places.{ids_of, noted};
ghost use Rattle.timeouts.specs.Slots.{due_at, IsLeastAt};
ghost use Rattle.timeouts.specs.declared.due.Due.{Due};

use crate::deadlines::{Deadlines, DueId};
use crate::due::Due;
use sparse_numbers::SparseNumbers;
use std::alloc::{AllocError, Global};
use std::marker::Model;
use wf_event_values::Moment;

/// A deadline, or none, at each number from 0 on.
#[derive(Drop)]
pub struct ByPlace {
    heap: Deadlines,
    /// The id of the deadline at each number: none, or one more than its own number.
    notes: SparseNumbers,
}

impl Model for ByPlace {
    ghost use Rattle.std.specs.Prelude.{map};
    ghost use Rattle.timeouts.specs.Slots.{Slots};
    ghost use Rattle.timeouts.specs.Places.{ids_of, known_by, IsByPlace};

    ghost Value = { Slots };

    ghost view = { λ a. record {
      slots = map (known_by a.heap.members) (ids_of a.notes.items);
      room = a.notes.room;
    } };

    ghost invariant = { λ a. IsByPlace a.heap.members (ids_of a.notes.items) };
}

impl ByPlace {
    /// No number, and no room, which takes no memory.
    pub fn new(alloc: Global) -> ByPlace
        ensures { result.slots ≡ [] }
    {
        ByPlace {
            heap: Deadlines::new(alloc),
            notes: SparseNumbers::new(alloc),
        }
    }

    /// Makes room for so many more numbers. Where memory is refused, the deadlines stay as they
    /// were.
    pub fn reserve(&mut self, additional: usize) -> Result<(), AllocError>
        ensures same { self.new.slots ≡ self.old.slots }
        ensures ok { OnOk result (additional ≤ self.new.room) }
        ensures room { self.old.room ≤ self.new.room }
    {
        self.notes.reserve(additional)
    }

    /// The next number, at which no deadline is. It takes no memory.
    pub fn push_none(&mut self)
        requires { 0 < self.old.room }
        ensures slots { self.new.slots ≡ self.old.slots ++ None ∷ [] }
        ensures room { self.old.room ≤ self.new.room + 1 }
    {
        self.notes.push_reserved(0);
    }

    /// So many more numbers, at which no deadline is. It takes no memory.
    pub fn extend_none(&mut self, count: usize)
        requires { count ≤ self.old.room }
        ensures { self.new.slots ≡ self.old.slots ++ replicate count None }
    {
        self.notes.extend_zeros_reserved(count);
    }

    /// Puts a deadline, or none, at a number in the place of what was there. Where memory is refused,
    /// none is there.
    pub fn set(&mut self, number: usize, due: Option<Due>) -> Result<(), AllocError>
        requires { number < length self.old.slots }
        ensures ok { OnOk result (self.new.slots ≡ slice_set self.old.slots number due) }
        ensures err { OnErr result (self.new.slots ≡ slice_set self.old.slots number None) }
        ensures room { self.new.room ≡ self.old.room }
    {
        self.remove(number);
        match due {
            Some(due) => self.put(number, due),
            None => Ok(()),
        }
    }

    /// Removes what is at a number, at which none comes again. It takes no memory, and where nothing is
    /// at the numbers about it memory is given back.
    pub fn clear(&mut self, number: usize)
        requires { number < length self.old.slots }
        ensures slots { self.new.slots ≡ slice_set self.old.slots number None }
        ensures room { self.new.room ≡ self.old.room }
    {
        self.remove(number);
        self.notes.give_back(number);
    }

    /// Removes what is at a number. It takes no memory.
    fn remove(&mut self, number: usize)
        requires { number < length self.old.slots }
        ensures slots { self.new.slots ≡ slice_set self.old.slots number None }
        ensures room { self.new.room ≡ self.old.room }
    {
        let Some(id) = noted(self.notes.get(number)) else {
            return;
        };
        self.heap.remove(id);
        self.notes.replace(number, 0);
    }

    /// Puts a deadline at a number at which none is. Where memory is refused, none is there still.
    fn put(&mut self, number: usize, due: Due) -> Result<(), AllocError>
        requires there { number < length self.old.slots }
        requires none { due_at self.old number ≡ None }
        ensures ok { OnOk result (self.new.slots ≡ slice_set self.old.slots number (Some due)) }
        ensures err { OnErr result (self.new.slots ≡ self.old.slots) }
        ensures room { self.new.room ≡ self.old.room }
    {
        self.heap.reserve(1)?;
        let id = self.heap.add(due);
        if let Err(refused) = note(&mut self.notes, number, id) {
            self.heap.remove(id);
            return Err(refused);
        }
        Ok(())
    }

    /// The deadline that fires first.
    pub fn least(&self) -> Option<Due>
        ensures least { IfSome result (IsLeastAt (due_at self.now)) }
        ensures empty { IfNone result ((k : ℕ) → due_at self.now k ≡ None) }
    {
        self.heap.least()
    }

    /// The deadline that fires first, where its moment has come.
    pub fn due(&self, moment: Moment) -> Option<Due>
        ensures least { IfSome result (λ d. IsLeastAt (due_at self.now) d × (d.due ≤ moment)) }
        ensures none { IfNone result
            ((k : ℕ) (d : Due) → due_at self.now k ≡ Some d → moment < d.due) }
    {
        self.heap.due(moment)
    }
}

/// The id that is noted so.
fn noted(note: usize) -> Option<DueId>
    ensures { result ≡ noted note }
{
    if note == 0 {
        return None;
    }
    Some(DueId { number: note - 1 })
}

/// Notes an id at a number. Where memory is refused, the notes stay as they were.
fn note(notes: &mut SparseNumbers, number: usize, id: DueId) -> Result<(), AllocError>
    requires { number < length notes.old.items }
    ensures ok { OnOk result
        (ids_of notes.new.items ≡ slice_set (ids_of notes.old.items) number (Some id)) }
    ensures err { OnErr result (notes.new.items ≡ notes.old.items) }
    ensures room { notes.new.room ≡ notes.old.room }
{
    match id.number.checked_add(1) {
        Some(note) => notes.set(number, note),
        None => Err(AllocError),
    }
}
