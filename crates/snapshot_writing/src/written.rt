//! The snapshot of a shard.

ghost use Rattle.std.specs.Prelude.{◌≡◌, IfOk, string_bytes};
ghost use Rattle.shard_store.specs.ShardView.{state};
ghost use Rattle.shard_snapshot.specs.Texts.{IsSnapshot};

use crate::fault::SnapshotFault;
use crate::same::is_same;
use crate::shards::written;
use mutable_state_keeper::TellsRun;
use shard_store::Store;
use std::alloc::Global;

/// The text of a shard's snapshot: it spells a content for which the shard stands. The shard is as it
/// was, whatever the result.
///
/// # Errors
/// Where memory was refused, or where the text that was made is not that of the shard.
pub fn snapshot<T: TellsRun>(alloc: Global, store: &mut Store<T>) -> Result<String, SnapshotFault>
    ensures same { state store.new ≡ state store.old }
    ensures text { IfOk result (λ text.
        IsSnapshot store.old.setup (string_bytes text) store.new) }
{
    store.catch_up()?;
    let (text, mut again) = written(alloc, store)?;
    again.catch_up()?;
    if !is_same(alloc, store, &again)? {
        return Err(SnapshotFault::OtherShard);
    }
    Ok(text)
}
