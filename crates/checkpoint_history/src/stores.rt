//! How many transfers the shards of a service count, read from what they keep.

ghost use Rattle.std.specs.Prelude.{◌≡◌, IfOk};
ghost use Rattle.checkpoint_history.specs.StoreCounts.{CountsAreTheContents, counts_in};
ghost use Rattle.shard_issued.specs.Outstanding.{IsCaughtUp};
ghost use Rattle.shard_store.specs.ShardView.{state};

use crate::counts::{TransferCounts, copied};
use mutable_state_keeper::KeepsRun;
use shard_store::Store;
use std::alloc::{AllocError, Global};
use wf_event_values::Items;

/// How many transfers a shard counts.
///
/// # Errors
/// Where memory was refused.
pub fn transfer_counts<T: KeepsRun>(
    alloc: Global,
    store: &mut Store<T>,
) -> Result<TransferCounts, AllocError>
    ensures same { state store.new ≡ state store.old }
    ensures counts { IfOk result (λ counts. counts ≡ counts_in (state store.old)) }
{
    store.catch_up()?;
    counts_read(alloc, store)
}

/// The same of a shard that has looked up all that it issued.
fn counts_read<T: KeepsRun>(alloc: Global, store: &Store<T>) -> Result<TransferCounts, AllocError>
    requires { IsCaughtUp store.now.changed }
    ensures { IfOk result (λ counts. counts ≡ counts_in (state store.now)) }
{
    let accepted = copied(alloc, store.accepted())?;
    let mut issued = Vec::new(alloc);
    let mut acknowledged = Vec::new(alloc);
    for to in 0..store.setup().shards {
        issued.push(store.issued_to(to))?;
        acknowledged.push(store.acknowledged_by(to))?;
    }
    Ok(TransferCounts {
        issued: Items::from_vec(issued),
        acknowledged: Items::from_vec(acknowledged),
        accepted,
    })
}

/// What a shard counts is what each content counts for which the shard stands: so all of these count the
/// same, whatever else they differ in.
pub fn counts_are_those_of_the_contents()
    ensures { CountsAreTheContents }
{}
