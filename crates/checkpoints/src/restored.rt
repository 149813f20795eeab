//! A service's shards as their snapshots restore them.

ghost use Rattle.std.specs.Prelude.{◌≡◌, ◌<◌, ◌^◌, IfErr, IfNone, IfOk, IfSome, length, map};
ghost use Rattle.checkpoints.specs.Faults.{IsNoShard, IsShardFault};
ghost use Rattle.checkpoints.specs.Restored.{AreRestored, IsRestored, text_of};
ghost use Rattle.service.specs.Contents.{setup_of};
ghost use Rattle.shard_store.specs.ShardView.{IsSetup};

use crate::checkpointed::Checkpointed;
use crate::fault::LoadFault;
use checkpoint_history::TransferCounts;
use service_model_types::content::Setup;
use service_model_types::limits::MOST_SHARDS;
use service_model_types::settings::Settings;
use shard_gate::{Handing, ShardObject};
use std::alloc::{AllocError, Global};
use std::snapshot::Snapshot;
use wf_event_values::{Field, Span};

/// A shard that was restored, how many transfers it counts, and the text of its snapshot, which is known
/// to proofs alone.
#[derive(Drop)]
pub struct Restored<S> {
    pub shard: S,
    pub counts: TransferCounts,
    pub text: Snapshot<Vec<u8>>,
}

/// The setup of a service's shard; none where it has no such shard.
fn setup_in(alloc: Global, settings: &Settings, shard: u64) -> Result<Option<Setup>, AllocError>
    ensures some { IfOk result (λ found. IfSome found (λ setup.
        (setup ≡ setup_of settings.now shard) × IsSetup setup)) }
    ensures none { IfOk result (λ found. IfNone found (IsNoShard settings.now shard)) }
{
    if settings.shards > MOST_SHARDS || shard >= settings.shards || settings.service >= 1 << 48 {
        return Ok(None);
    }
    let Ok(retention) = Span::new(Field::Retention, settings.retention) else {
        return Ok(None);
    };
    Ok(Some(Setup {
        service: settings.service,
        shard: shard as u16,
        shards: settings.shards as u16,
        queues: settings.copy_queues(alloc)?,
        retention,
    }))
}

/// The service's shard of this number, by the text of its snapshot: it stands for the content that this
/// spells.
///
/// # Errors
/// `Settings` where the service has no such shard; else as [`Checkpointed::restore`].
pub fn restore_shard<S: Checkpointed>(
    alloc: Global,
    settings: &Settings,
    shard: u64,
    text: &Vec<u8>,
) -> Result<Restored<S>, LoadFault>
    ensures text { IfOk result (λ r. r.text.value ≡ text.now) }
    ensures restored { IfOk result (λ r. IsRestored S.stands settings.now shard r) }
    ensures err { IfErr result (IsShardFault settings.now shard text.now.items) }
{
    let Some(setup) = setup_in(alloc, settings, shard)? else {
        return Err(LoadFault::Settings);
    };
    let (shard, counts) = S::restore(alloc, setup, text.as_slice())?;
    Ok(Restored {
        shard,
        counts,
        text: Snapshot::of(text),
    })
}

/// A shard without runs, as it is restored from the text of its snapshot.
///
/// # Errors
/// `Settings` where the service has no such shard; `Memory`; else as [`restore_shard`], which doesn't come.
pub fn begin_shard<S: Checkpointed>(
    alloc: Global,
    settings: &Settings,
    shard: u64,
) -> Result<Restored<S>, LoadFault>
    ensures { IfOk result (λ r. IsRestored S.stands settings.now shard r) }
{
    let Some(setup) = setup_in(alloc, settings, shard)? else {
        return Err(LoadFault::Settings);
    };
    let text = match S::open(alloc, setup)?.snapshot(alloc) {
        Ok(text) => text.into_bytes(),
        Err(_) => return Err(LoadFault::Memory),
    };
    restore_shard(alloc, settings, shard, &text)
}

/// The shards, as ones whose records are handed out.
///
/// # Errors
/// Where memory was refused.
pub fn handed_out<S: ShardObject>(
    alloc: Global,
    settings: &Settings,
    shards: Vec<Restored<S>>,
) -> Result<Vec<Restored<Handing<S>>>, AllocError>
    requires { AreRestored S.stands settings.now shards.items }
    ensures restored { IfOk result (λ handed.
        AreRestored (λ x. S.stands x.object) settings.now handed.items) }
    ensures texts { IfOk result (λ handed.
        map text_of handed.items ≡ map text_of shards.items) }
{
    let mut handed = Vec::new(alloc);
    for restored in shards {
        let Restored {
            shard,
            counts,
            text,
        } = restored;
        let shard = Handing { object: shard };
        handed.push(Restored {
            shard,
            counts,
            text,
        })?;
    }
    Ok(handed)
}
