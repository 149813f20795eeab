//! Whether the contents of a service's shards, as their snapshots restore them, are in order.
//!
//! Those of one moment are. Where one file is older than the others, another shard may have accepted what
//! this one has yet to issue: then they are not. Files of several moments between which no transfer moved
//! are in order too.

ghost use Rattle.std.specs.Prelude.{◌≡◌, ℕ, ◌↔◌, IfOk, IsTrue, length, map};
ghost use Rattle.checkpoint_history.specs.Orders.{AreInOrder};
ghost use Rattle.checkpoints.specs.Checkpoints.{AreCounted, Spell};
ghost use Rattle.checkpoints.specs.Restored.{AreRestored, text_of};
ghost use Rattle.gate.specs.Records.{Each};
ghost use Rattle.service_model_types.specs.declared.content.Content.{Content};
ghost use Rattle.service_model_types.specs.declared.settings.Settings.{Settings};

use crate::restored::Restored;
use checkpoint_history::{TransferCounts, are_in_order};
use shard_gate::KeepsShard;
use shard_snapshot::texts_spell_one_content;
use std::alloc::{AllocError, Global};

/// What all of them count.
fn all_counts<S>(alloc: Global, shards: &[Restored<S>]) -> Result<Vec<TransferCounts>, AllocError>
    ensures { IfOk result (λ all. all.items ≡ map (λ r. r.counts) shards.now) }
{
    let mut all = Vec::new(alloc);
    for restored in shards {
        all.push(restored.counts.copy(alloc)?)?;
    }
    Ok(all)
}

/// Whether the contents of all shards are in order: whatever contents they stand for, and so also those
/// that their texts spell. Of the transfers from any of them to any other no more are acknowledged than
/// are accepted, and no more are accepted than were issued.
///
/// # Errors
/// Where memory was refused.
pub fn stand_in_order<S: KeepsShard>(
    alloc: Global,
    shards: &[Restored<S>],
) -> Result<bool, AllocError>
    requires { Each shards.now (λ k r. AreCounted S.stands r.shard r.counts) }
    ensures stand { IfOk result (λ told. (start : ℕ → Content)
        → Each shards.now (λ k r. S.stands r.shard (start k))
        → IsTrue told ↔ AreInOrder (length shards.now) start) }
    ensures spelled { IfOk result (λ told. (K : Settings) (content : ℕ → Content)
        → AreRestored S.stands K shards.now → Spell K (map text_of shards.now) content
        → IsTrue told ↔ AreInOrder K.shards content) }
{
    texts_spell_one_content();
    let all = all_counts(alloc, shards)?;
    let told = are_in_order(all.as_slice());
    Ok(told)
}
