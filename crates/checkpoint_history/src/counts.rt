//! Whether the contents of all shards are in order, by how many transfers the shards count.
//!
//! Those of one moment are. Where one shard is older than the others, another may have accepted what it
//! has yet to issue, or may count as acknowledged what it has yet to accept: these counts show that.

ghost use Rattle.std.specs.Prelude.{◌≡◌, ◌↔◌, IfOk, IsTrue};
ghost use Rattle.checkpoint_history.specs.CountedPairs.{CountInOrder, count_at};
ghost use Rattle.checkpoint_history.specs.Counts.{TellsOrder};

use std::alloc::{AllocError, Global};
use wf_event_values::Items;

/// How many transfers a shard counts, by the numbers of the other shards.
pub struct TransferCounts {
    /// How many it issued to each shard.
    pub issued: Items<u64>,
    /// How many of them each shard has acknowledged.
    pub acknowledged: Items<u64>,
    /// How many it has accepted from each shard.
    pub accepted: Items<u64>,
}

impl Drop for TransferCounts {
    fn drop(self) {
        let TransferCounts {
            issued: _,
            acknowledged: _,
            accepted: _,
        } = self;
    }
}

impl TransferCounts {
    /// A copy of them.
    ///
    /// # Errors
    /// Where memory was refused.
    pub fn copy(&self, alloc: Global) -> Result<TransferCounts, AllocError>
        ensures { IfOk result (λ copy. copy ≡ self.now) }
    {
        Ok(TransferCounts {
            issued: copied(alloc, self.issued.as_slice())?,
            acknowledged: copied(alloc, self.acknowledged.as_slice())?,
            accepted: copied(alloc, self.accepted.as_slice())?,
        })
    }
}

/// A copy of counts.
pub(crate) fn copied(alloc: Global, counts: &[u64]) -> Result<Items<u64>, AllocError>
    ensures { IfOk result (λ copies. copies ≡ counts.now) }
{
    let mut copies = Vec::new(alloc);
    copies.extend_from_slice(counts)?;
    Ok(Items::from_vec(copies))
}

/// A count by a shard's number; 0 where there is none.
fn count_at(counts: &[u64], shard: usize) -> u64
    ensures { result ≡ count_at counts.now shard }
{
    match counts.get(shard) {
        Some(count) => *count,
        None => 0,
    }
}

/// Whether the transfers from one shard to another are in order, by what both count.
fn count_in_order(
    source: &TransferCounts,
    from: usize,
    destination: &TransferCounts,
    to: usize,
) -> bool
    ensures { IsTrue result ↔ CountInOrder source.now from destination.now to }
{
    let accepted = count_at(destination.accepted.as_slice(), from);
    count_at(source.acknowledged.as_slice(), to) <= accepted
        && accepted <= count_at(source.issued.as_slice(), to)
}

/// Whether the contents with these counts, one of each shard, are in order: of the transfers from any of
/// them to any other no more are acknowledged than are accepted, and no more are accepted than were
/// issued.
pub fn are_in_order(shards: &[TransferCounts]) -> bool
    ensures { TellsOrder shards.now result }
{
    for from in 0..shards.len() {
        for to in 0..shards.len() {
            if !count_in_order(&shards[from], from, &shards[to], to) {
                return false;
            }
        }
    }
    true
}
