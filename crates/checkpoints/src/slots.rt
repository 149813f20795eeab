//! Shards that were restored, as shards that go on from contents.

ghost use Rattle.std.specs.Prelude.{◌≡◌, IfOk, length, map};
ghost use Rattle.checkpoints.specs.Restored.{AreRestored, text_of};
ghost use Rattle.checkpoints.specs.Resumed.{AreInSlots};

use crate::restored::Restored;
use script::Outcome;
use service_model_types::request::Request;
use service_model_types::settings::Settings;
use shard_gate::{KeepsShard, Resumed, ShardObject, Starts};
use std::alloc::{AllocError, Global};
use step_record::Record;

/// The shards in their slots, each with its record.
pub(crate) fn in_slots<S: ShardObject, H: Starts>(
    alloc: Global,
    shards: Vec<Restored<S>>,
    records: Vec<Record<Request>>,
) -> Result<Vec<(Resumed<S, H>, Record<Request>)>, AllocError>
    requires { length records.items ≡ length shards.items }
    ensures { IfOk result (λ given. AreInSlots shards.items records.items given.items) }
{
    let mut given = Vec::new(alloc);
    let mut records = records.into_iter();
    for restored in shards {
        let Restored {
            shard,
            counts: _,
            text: _,
        } = restored;
        let slot = given.len();
        match records.next() {
            Some(record) => given.push((Resumed::new(shard, slot), record))?,
            None => unreachable!(),
        }
    }
    Ok(given)
}

/// The shards alone.
pub(crate) fn bare<S: KeepsShard, H: Starts>(
    alloc: Global,
    outcome: Outcome<Resumed<S, H>>,
) -> Result<Outcome<S>, AllocError>
    ensures refused { IfOk result (λ o. o.refused ≡ outcome.refused) }
    ensures records { IfOk result (λ o. o.records.items ≡ outcome.records.items) }
{
    let Outcome {
        refused,
        records,
        shards: resumed,
    } = outcome;
    let mut shards = Vec::new(alloc);
    for shard in resumed {
        shards.push(shard.into_shard())?;
    }
    Ok(Outcome {
        refused,
        records,
        shards,
    })
}
