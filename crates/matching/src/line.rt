//! The ring in which a queue's hints lie, and how it is laid out.
//!
//! It is the ring of `crossbeam_queue`: two counts, and slots that each have a stamp. That crate's rule
//! and its lemmas are cited. Its own type leaves what a pass knows as it was where a call finds
//! nothing; here the pass remembers what it found, so the calls on the ring stand here.
ghost use Rattle.std.specs.Prelude.{◌≡◌, ◌+◌, ℕ, ◌*◌, ◌^◌, ◌<◌, ◌≤◌, [], List, Some, length, slice_get, slice_index_or, nat_lt, if◌then◌else◌, vec_len, vec_capacity, IfOk};
ghost use Rattle.crossbeam_queue.specs.Stamps.{Laps};
ghost use Rattle.crossbeam_queue.specs.Passes.{view};
ghost use Rattle.matching.specs.Entries.{FromShards};
ghost use Rattle.matching.specs.PassSteps.{maker};

use crate::rule::{About, Board, Seat};
use atomic_table::Table;
use service_model_types::request::Hint;
use std::alloc::{AllocError, Global};
use std::snapshot::Snapshot;

// Indexes of words in the table. The tail, the head and the first stamp lie 128 bytes apart, so that
// they share no cache line.
pub(crate) const TAIL: usize = 16;

pub(crate) const HEAD: usize = 32;

pub(crate) const STAMPS: usize = 48;

/// A ring with room for `cap` hints.
pub(crate) struct Line {
    pub(crate) table: Board,
    pub(crate) cap: usize,
    pub(crate) one_lap: u64,
    ghost sized: { (table.shared.table_id.words ≡ cap + 48)
        × (table.shared.table_id.slots ≡ cap) × Laps cap one_lap },
}

impl Drop for Line {
    fn drop(self) {
        let Line {
            table: _,
            cap: _,
            one_lap: _,
        } = self;
    }
}

impl Line {
    ghost use Rattle.matching.specs.Rings.{IsSeatOf};

    /// A ring with these hints in it, and the seat that makes its passes.
    pub(crate) fn open(
        alloc: Global,
        waiting: Vec<Hint>,
        capacity: usize,
        passes: usize,
        shards: u16,
    ) -> Result<(Line, Seat), AllocError>
        requires some { 0 < capacity }
        requires fits { length waiting.items ≤ capacity }
        requires shards { FromShards shards waiting.items }
        ensures room { IfOk result (λ r. r.0.cap ≡ capacity) }
        ensures about { IfOk result (λ r. (r.0.table.shared.key.passes ≡ passes)
            × (r.0.table.shared.key.waiting.value.items ≡ waiting.items)) }
        ensures own { IfOk result (λ r. IsSeatOf r.0 r.1) }
        ensures maker { IfOk result (λ r. view r.1 ≡ maker passes shards capacity waiting.items) }
    {
        // No allocator has room for so many stamps.
        if capacity >= 1 << 60 {
            return Err(AllocError);
        }
        let one_lap = (capacity as u64 + 1).next_power_of_two();
        let about = About {
            passes: passes as u64,
            shards: u64::from(shards),
            capacity: capacity as u64,
            waiting: Snapshot::of(&waiting),
        };
        let words = stamps(alloc, waiting.len(), capacity, one_lap)?;
        let slots = filled(alloc, &waiting, capacity)?;
        let Ok((table, seat)) = Table::new(alloc, words.as_slice(), slots, &about) else {
            return Err(AllocError);
        };
        let line = Line {
            table,
            cap: capacity,
            one_lap,
        };
        Ok((line, seat))
    }
}

/// The stamp of a slot while the first `count` are full.
fn first_stamp(slot: usize, count: usize) -> u64
    requires { slot < 2 ^ 60 }
    ensures { result ≡ (if nat_lt slot count then slot + 1 else slot) }
{
    if slot < count {
        slot as u64 + 1
    } else {
        slot as u64
    }
}

/// The stamp of so many pushes, which is a lap once all slots are full.
fn first_tail(count: usize, capacity: usize, one_lap: u64) -> u64
    ensures { result ≡ (if nat_lt count capacity then count else one_lap) }
{
    if count < capacity {
        count as u64
    } else {
        one_lap
    }
}

/// The counts and the stamps of a ring whose first slots are full.
fn stamps(
    alloc: Global,
    count: usize,
    capacity: usize,
    one_lap: u64,
) -> Result<Vec<u64>, AllocError>
    requires { capacity < 2 ^ 60 }
    ensures size { IfOk result (λ v. length v.items ≡ capacity + 48) }
    ensures counts { IfOk result (λ v.
        (slice_index_or v.items 16 0 ≡ (if nat_lt count capacity then count else one_lap))
        × (slice_index_or v.items 32 0 ≡ 0)) }
    ensures stamps { IfOk result (λ v. (i : ℕ) → i < capacity
        → slice_index_or v.items (i + 48) 0 ≡ (if nat_lt i count then i + 1 else i)) }
{
    let tail = first_tail(count, capacity, one_lap);
    let mut words = Vec::from_elem(alloc, 0u64, capacity + STAMPS)?;
    let row = words.as_mut_slice();
    row[TAIL] = tail;
    for i in 0..capacity {
        row[i + STAMPS] = first_stamp(i, count);
    }
    Ok(words)
}

/// The slots of a ring that has these hints in its first slots.
fn filled(
    alloc: Global,
    waiting: &Vec<Hint>,
    capacity: usize,
) -> Result<Vec<Option<Hint>>, AllocError>
    ensures size { IfOk result (λ v. length v.items ≡ capacity) }
    ensures each { IfOk result (λ v. (i : ℕ) → i < capacity
        → slice_get v.items i ≡ Some (slice_get waiting.now.items i)) }
{
    let mut slots = Vec::with_capacity(alloc, capacity)?;
    for i in 0..capacity {
        slots.push_reserved(waiting.get(i).copied());
    }
    Ok(slots)
}
