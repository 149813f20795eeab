//! The places of a shard's runs. Where the runs of many places in a row were deleted, these take next to
//! nothing.

ghost use Rattle.std.specs.Borrow.{sem};
ghost use Rattle.std.specs.Prelude.{◌≡◌, ◌≢◌, ◌<◌, ◌≤◌, ◌++◌, ◌∷◌, [], IfOk, OnOk, length, replicate, slice_index_or, slice_set};
ghost use Rattle.mutable_state.specs.Steps.{after_step, FitStep};
ghost use Rattle.mutable_state.specs.RunView.{HasRoomFor, RunView};
ghost use Rattle.shard_store.specs.Places.{empty_place};

use crate::place::Place;
use mutable_state::PlannedFacts;
use mutable_state_keeper::KeepsRun;
use sparse_numbers::SparseNumbers;
use std::alloc::{AllocError, Global};
use std::marker::Model;
use std::ops::Index;

/// A place for each run that was ever made.
pub(crate) struct Runs<T: KeepsRun> {
    /// The slot of each place: the first one, where no run is there.
    slots: SparseNumbers,
    /// What is in each slot. Where a run goes, the one in the last slot takes its slot.
    kept: Vec<Place<T>>,
    /// The place of each slot but the first.
    places: Vec<usize>,
}

impl<T: KeepsRun> Drop for Runs<T> {
    fn drop(self) {
        let Runs {
            slots: _,
            kept: _,
            places: _,
        } = self;
    }
}

impl<T: KeepsRun> Model for Runs<T> {
    ghost use Rattle.std.specs.Prelude.{◌-◌, map, min, vec_capacity, vec_len};
    ghost use Rattle.shard_store.specs.Places.{AreSlots, RunsView, in_slot};

    ghost Value = { RunsView };

    ghost view = { λ a. record {
      items = map (in_slot a.kept.items) a.slots.items;
      room = min (min a.slots.room (vec_capacity a.places - vec_len a.places))
          (vec_capacity a.kept - vec_len a.kept);
    } };

    ghost invariant = { λ a. AreSlots a.slots.items a.places.items a.kept.items };
}

impl<T: KeepsRun> Runs<T> {
    /// No place.
    pub(crate) fn new(alloc: Global) -> Result<Runs<T>, AllocError>
        ensures { IfOk result (λ runs. runs.items ≡ []) }
    {
        let mut kept = Vec::new(alloc);
        let mut places = Vec::new(alloc);
        kept.push(Place::empty())?;
        places.push(0)?;
        Ok(Runs {
            slots: SparseNumbers::new(alloc),
            kept,
            places,
        })
    }

    /// How many places there are.
    pub(crate) fn len(&self) -> usize
        ensures { result ≡ length self.now.items }
    {
        self.slots.len()
    }

    /// Makes room for so many more runs.
    pub(crate) fn reserve(&mut self, additional: usize) -> Result<(), AllocError>
        ensures same { self.new.items ≡ self.old.items }
        ensures ok { OnOk result (additional ≤ self.new.room) }
    {
        self.slots.reserve(additional)?;
        self.kept.reserve(additional)?;
        self.places.reserve(additional)
    }

    /// One more place, with this at it. It takes no memory.
    pub(crate) fn push(&mut self, place: Place<T>)
        requires { 0 < self.old.room }
        ensures { self.new.items ≡ self.old.items ++ place ∷ [] }
    {
        let slot = self.kept.len();
        let index = self.slots.len();
        self.kept.push_reserved(place);
        self.places.push_reserved(index);
        self.slots.push_reserved(slot);
    }

    /// So many more places, of runs that were deleted. It takes no memory.
    pub(crate) fn extend_gone(&mut self, count: usize)
        requires { count ≤ self.old.room }
        ensures { self.new.items ≡ self.old.items ++ replicate count empty_place }
    {
        self.slots.extend_zeros_reserved(count);
    }

    /// Deletes what is at a place. It takes no memory, and where nothing is at the places about it memory is
    /// given back.
    pub(crate) fn clear(&mut self, index: usize)
        requires { index < length self.old.items }
        ensures { self.new.items ≡ slice_set self.old.items index empty_place }
    {
        let slot = self.slots.get(index);
        if slot == 0 {
            return;
        }
        let _ = self.kept.swap_remove(slot);
        let _ = self.places.swap_remove(slot);
        self.slots.replace(index, 0);
        self.slots.give_back(index);
        if slot < self.kept.len() {
            let moved = self.places[slot];
            self.slots.replace(moved, slot);
        }
    }
}

impl<T: KeepsRun> Index<usize> for Runs<T> {
    type Output = Place<T>;

    ghost can_index = { λ a index. index < length a.items };

    ghost index_gives = { λ a index place. place ≡ slice_index_or a.items index place };

    fn index(&self, index: usize) -> &Place<T> {
        let slot = self.slots.get(index);
        &self.kept[slot]
    }
}

impl<T: KeepsRun> Runs<T> {
    ghost use Rattle.shard_store.specs.Lending.{lends_run};

    /// The place of a run that is there, to be changed.
    pub(crate) fn place_mut(&mut self, index: usize) -> &mut Place<T>
        requires { slice_index_or self.old.items index empty_place ≢ empty_place }
        ensures* writes_back { sem 𝓛 (lends_run T.row T.KeepsRun self.entry index result) }
        ensures value { result.now ≡ slice_index_or self.old.items index result.now }
        ensures full { result.now ≢ empty_place }
    {
        let slot = self.slots.get(index);
        &mut self.kept[slot]
    }

    /// Adds a step's facts to the run at a place. It takes no memory.
    pub(crate) fn commit(&mut self, index: usize, plan: PlannedFacts)
        requires there { index < length self.old.items }
        requires room { HasRoomFor
            (slice_index_or self.old.items index empty_place) plan.change.facts }
        requires fit { FitStep plan.change.moment
            (slice_index_or self.old.items index empty_place).state plan.change.facts }
        ensures run { (now : RunView) × (self.new.items ≡ slice_set self.old.items index now)
            × (now.state ≡ after_step plan.change.moment plan.change.facts
            (slice_index_or self.old.items index empty_place).state) }
        ensures room { self.new.room ≡ self.old.room }
    {
        let slot = self.slots.get(index);
        if slot == 0 {
            // To no run only a step without facts may come.
            return;
        }
        let place = &mut self.kept[slot];
        place.commit(plan);
    }
}
