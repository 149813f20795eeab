//! What the shards of a service are opened from: of each its setup and its record.

ghost use Rattle.std.specs.Prelude.{◌≡◌, ◌<◌, length, map, true, IfOk};
ghost use Rattle.std.specs.List.{range_with_len};
ghost use Rattle.service.specs.Contents.{setup_of};
ghost use Rattle.service.specs.Reopening.{are_records, record_at};
ghost use Rattle.service.specs.Services.{IsInRange};

use service_model_types::content::Setup;
use service_model_types::request::Request;
use service_model_types::settings::Settings;
use std::alloc::{AllocError, Global};
use step_record::Record;
use wf_event_values::{Field, Span};

/// A record for each shard: those that are given, or else empty ones.
fn one_each(
    alloc: Global,
    settings: &Settings,
    records: Vec<Record<Request>>,
) -> Result<Vec<Record<Request>>, AllocError>
    requires { are_records settings.now records.items ≡ true }
    ensures { IfOk result (λ all.
        all.items ≡ map (record_at records.items) (range_with_len 0 settings.now.shards)) }
{
    if records.len() != 0 {
        return Ok(records);
    }
    let mut all = Vec::new(alloc);
    for _ in 0..settings.shards {
        all.push(Record::new(alloc))?;
    }
    Ok(all)
}

/// One shard's setup.
fn setup(alloc: Global, settings: &Settings, shard: u64) -> Result<Setup, AllocError>
    requires range { IsInRange settings.now }
    requires shard { shard < 64 }
    ensures { IfOk result (λ s. s ≡ setup_of settings.now shard) }
{
    let queues = settings.copy_queues(alloc)?;
    let Ok(retention) = Span::new(Field::Retention, settings.retention) else {
        unreachable!()
    };
    Ok(Setup {
        service: settings.service,
        shard: shard as u16,
        shards: settings.shards as u16,
        queues,
        retention,
    })
}

/// Each shard's setup beside its record.
fn beside_setups(
    alloc: Global,
    settings: &Settings,
    records: Vec<Record<Request>>,
) -> Result<Vec<(Setup, Record<Request>)>, AllocError>
    requires range { IsInRange settings.now }
    requires count { length records.items ≡ settings.now.shards }
    ensures setups { IfOk result (λ v. map (λ g. g.0) v.items
        ≡ map (λ k. setup_of settings.now k) (range_with_len 0 (length v.items))) }
    ensures records { IfOk result (λ v. map (λ g. g.1) v.items ≡ records.items) }
{
    let mut all = Vec::new(alloc);
    for log in records {
        let shard = all.len() as u64;
        all.push((setup(alloc, settings, shard)?, log))?;
    }
    Ok(all)
}

/// Each shard's setup, with its record: one of those that are given, or else an empty one.
pub(crate) fn setups_and_records(
    alloc: Global,
    settings: &Settings,
    records: Vec<Record<Request>>,
) -> Result<Vec<(Setup, Record<Request>)>, AllocError>
    requires range { IsInRange settings.now }
    requires count { are_records settings.now records.items ≡ true }
    ensures setups { IfOk result (λ v. map (λ g. g.0) v.items
        ≡ map (λ k. setup_of settings.now k) (range_with_len 0 settings.now.shards)) }
    ensures records { IfOk result (λ v. map (λ g. g.1) v.items
        ≡ map (record_at records.items) (range_with_len 0 settings.now.shards)) }
{
    let all = one_each(alloc, settings, records)?;
    beside_setups(alloc, settings, all)
}
