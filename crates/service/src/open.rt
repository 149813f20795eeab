//! How a service is opened or resumed.
//!
//! The settings are looked at first, then how many records there are. The shards are opened behind
//! their gate, each as its record left it. The hints of all tasks that wait are put into their queues.
//! The gate gives as many passes as the settings say, so do the task queues, and one of each becomes a
//! pass of the service. The room that `close` needs is made here.

ghost use Rattle.std.specs.Prelude.{◌≡◌, ◌≢◌, ℕ, ◌<◌, All, List, Some, Ok, Err, length, map, slice_get, IfOk, IfErr};
ghost use Rattle.gate.specs.Records.{Each};
ghost use Rattle.shard_gate.specs.Opening.{Opens as OpensBehind};
ghost use Rattle.shard_gate.specs.Starts.{Start, opened_with, starting};
ghost use Rattle.matching.specs.Named.{IsPassOf as IsPassOfQueues, capacity_of, given_of, names_of, shards_of};
ghost use Rattle.service.specs.HeldHints.{HoldAtOpening, Opens, OpensFrom};
ghost use Rattle.service.specs.Reopening.{held_from, most_held, opens, opens_from, records_fault};
ghost use Rattle.service.specs.Resuming.{Resumes, resumes_from};
ghost use Rattle.service.specs.Starting.{AreStarts};
ghost use Rattle.service.specs.Ranges.{are_different, are_queues, range_fault, stands_in};
ghost use Rattle.service.specs.ServiceViews.{Pass as PassView};
ghost use Rattle.service.specs.Services.{IsInRange};

use crate::close::PassRoom;
use crate::reopen::setups_and_records;
use crate::service::{Pass, Service};
use matching::{Queues, QueuesPass};
use service_model_types::content::Dispatch;
use service_model_types::limits::{
    MOST_CAPACITY, MOST_PASSES, MOST_QUEUES, MOST_SHARDS, SERVICE_NUMBERS,
};
use service_model_types::request::Request;
use service_model_types::settings::Settings;
use shard_gate::{Opened, ShardGate, ShardObject, ShardPass, Source};
use std::alloc::{AllocError, Global};
use std::sync::Mutex;
use step_record::Record;
use wf_event_values::{Field, Id, LONGEST_SPAN, Refusal};

impl<S: ShardObject> Service<S> {
    /// Opens a service and gives its passes, numbered from 0.
    ///
    /// Without records nothing was done in it. With one record of each shard it goes on where these
    /// end: each shard stands for the replay of its record under these settings, every pass has seen
    /// that record, and each task that waits to be taken has its hint in its queue again, by shard,
    /// run and event, as pushed by the first pass.
    ///
    /// # Errors
    /// `InvalidArgument` with the first setting out of its range, in the order shards, passes,
    /// service, queues, capacity, retention, and then with `records` where there is neither none
    /// nor one of each shard; `QueueFull` where the hints don't fit; `NoMemory`.
    pub fn open(
        alloc: Global,
        settings: &Settings,
        records: Vec<Record<Request>>,
    ) -> Result<(Service<S>, Vec<Pass<S>>), Refusal>
        ensures ok { IfOk result (λ r. Opens settings.now records.items r.0 r.1.items) }
        ensures err { IfErr result (λ e.
            e ≢ Refusal.NoMemory → opens settings.now records.items ≡ Err e) }
    {
        Service::open_from(alloc, Source::Records, settings, records)
    }

    /// The same from records or from a journal's. From a journal it is never refused for the tasks that
    /// wait: the hints of those whose dispatches were counted are in their queues again, however many
    /// these are. The other tasks are handed over by dispatch turns.
    ///
    /// # Errors
    /// Those of `open`; `QueueFull` from records alone.
    pub fn open_from(
        alloc: Global,
        source: Source,
        settings: &Settings,
        records: Vec<Record<Request>>,
    ) -> Result<(Service<S>, Vec<Pass<S>>), Refusal>
        ensures ok { IfOk result (λ r.
            OpensFrom source settings.now records.items r.0 r.1.items) }
        ensures err { IfErr result (λ e. e ≢ Refusal.NoMemory
            → opens_from source settings.now records.items ≡ Err e) }
    {
        check_ranges(settings)?;
        check_records(settings, &records)?;
        let given = setups_and_records(alloc, settings, records)?;
        let opened = ShardGate::open(alloc, given, source, settings.passes as usize)?;
        behind_gate(alloc, source, settings, opened)
    }

    /// Resumes a service from its shards and gives its passes, numbered from 0.
    ///
    /// Each shard comes with the content at which it starts (`S.opening`), for which it stands, and with
    /// the record of what was done since. It goes on where that ends, as [`Service::open_from`] goes on
    /// where records end: every pass has seen the record, and the hints of the tasks that wait are in
    /// their queues again, by shard, run and event, as pushed by the first pass. Each reply is the
    /// sequential service's from that content on.
    ///
    /// # Errors
    /// `InvalidArgument` with the first setting out of its range, in the order of `open`; `QueueFull`
    /// where the hints don't fit, from records alone; `UnknownTaskQueue` where one is of a queue that the
    /// settings don't have; `NoMemory`.
    pub fn resume(
        alloc: Global,
        source: Source,
        settings: &Settings,
        shards: Vec<(S, Record<Request>)>,
    ) -> Result<(Service<S>, Vec<Pass<S>>), Refusal>
        requires starts { AreStarts settings.now
            (opened_with (map (starting S.opening) shards.items)) }
        requires standing { Each shards.items (λ k x. S.stands x.0 (S.opening x.0)) }
        ensures ok { IfOk result (λ r. Resumes source settings.now
            (map (starting S.opening) shards.items) r.0 r.1.items) }
        ensures err { IfErr result (λ e. e ≢ Refusal.NoMemory
            → resumes_from source settings.now (map (starting S.opening) shards.items)
            ≡ Err e) }
    {
        check_ranges(settings)?;
        let opened = ShardGate::resume(alloc, shards, source, settings.passes as usize)?;
        behind_gate(alloc, source, settings, opened)
    }
}

/// The service behind a gate that was opened, with its passes. The hints of the tasks that wait are put
/// into their queues.
fn behind_gate<S: ShardObject>(
    alloc: Global,
    source: Source,
    settings: &Settings,
    opened: Opened<S>,
) -> Result<(Service<S>, Vec<Pass<S>>), Refusal>
    requires range { range_fault settings.now ≡ Ok tt }
    requires count { length opened.passes.items ≡ settings.now.passes }
    requires shards { All (λ d. d.hint.shard < settings.now.shards) opened.waiting.items }
    ensures ok { IfOk result (λ r. (shards : List Start)
        → OpensBehind source shards settings.now.passes
        opened.gate opened.passes.items opened.waiting.items
        → AreStarts settings.now (opened_with shards)
        → Resumes source settings.now shards r.0 r.1.items) }
    ensures err { IfErr result (λ e. e ≢ Refusal.NoMemory
        → held_from source settings.now opened.waiting.items ≡ Err e) }
{
    let Opened {
        gate,
        passes: inner,
        waiting,
    } = opened;
    let (queues, hints) = open_queues(alloc, source, settings, waiting)?;
    let passes = paired(alloc, inner, hints)?;
    let room = PassRoom::new(alloc)?;
    let service = Service {
        settings: settings.copy(alloc)?,
        gate,
        queues,
        handed_down: Mutex::new(room),
    };
    Ok((service, passes))
}

/// There may be no record, or one of each shard.
fn check_records(settings: &Settings, records: &[Record<Request>]) -> Result<(), Refusal>
    ensures { result ≡ records_fault settings.now records.now }
{
    let count = records.len() as u64;
    if count == 0 || count == settings.shards {
        return Ok(());
    }
    Err(Refusal::InvalidArgument(Field::Records))
}

/// The first setting out of its range is an invalid argument.
fn check_ranges(settings: &Settings) -> Result<(), Refusal>
    ensures { result ≡ range_fault settings.now }
{
    if settings.shards < 1 || settings.shards > MOST_SHARDS {
        return Err(Refusal::InvalidArgument(Field::Shards));
    }
    if settings.passes < 1 || settings.passes > MOST_PASSES {
        return Err(Refusal::InvalidArgument(Field::Passes));
    }
    if settings.service >= SERVICE_NUMBERS {
        return Err(Refusal::InvalidArgument(Field::Service));
    }
    if !are_queues(settings.queues.as_slice()) {
        return Err(Refusal::InvalidArgument(Field::Queues));
    }
    if settings.capacity < 1 || settings.capacity > MOST_CAPACITY {
        return Err(Refusal::InvalidArgument(Field::Capacity));
    }
    if settings.retention > LONGEST_SPAN {
        return Err(Refusal::InvalidArgument(Field::Retention));
    }
    Ok(())
}

/// Whether there may be queues of these names.
fn are_queues(names: &[Id]) -> bool
    ensures { result ≡ are_queues names.now }
{
    let count = names.len();
    1 <= count && count <= MOST_QUEUES && are_different(names)
}

/// Whether no name stands twice.
fn are_different(names: &[Id]) -> bool
    ensures { result ≡ are_different names.now }
{
    for place in 0..names.len() {
        if stands_in(names.split_at(place + 1).1, &names[place]) {
            return false;
        }
    }
    true
}

/// Whether the name is one of these.
fn stands_in(names: &[Id], name: &Id) -> bool
    ensures { result ≡ stands_in name.now names.now }
{
    names.iter().any(|other| other == name)
}

/// How many hints may wait in one queue at the opening.
fn most_held(source: Source, settings: &Settings, waiting: &Vec<Dispatch>) -> usize
    ensures { result ≡ most_held source settings.now waiting.now.items }
{
    match source {
        Source::Records => settings.capacity as usize,
        Source::Journal => waiting.len(),
    }
}

/// The task queues, which hold the hints of the tasks that wait, and what each pass calls them with.
fn open_queues(
    alloc: Global,
    source: Source,
    settings: &Settings,
    waiting: Vec<Dispatch>,
) -> Result<(Queues, Vec<QueuesPass>), Refusal>
    requires range { IsInRange settings.now }
    requires shards { All (λ d. d.hint.shard < settings.now.shards) waiting.items }
    ensures names { IfOk result (λ r. names_of r.0 ≡ settings.now.queues) }
    ensures capacity { IfOk result (λ r. capacity_of r.0 ≡ settings.now.capacity) }
    ensures shards { IfOk result (λ r. shards_of r.0 ≡ settings.now.shards) }
    ensures given { IfOk result (λ r. given_of r.0 ≡ settings.now.passes) }
    ensures count { IfOk result (λ r. length r.1.items ≡ settings.now.passes) }
    ensures own { IfOk result (λ r.
        (k : ℕ) (p : QueuesPass) → slice_get r.1.items k ≡ Some p
        → IsPassOfQueues p r.0) }
    ensures held { IfOk result (λ r.
        HoldAtOpening source settings.now waiting.items r.1.items) }
    ensures err { IfErr result (λ e. e ≢ Refusal.NoMemory
        → held_from source settings.now waiting.items ≡ Err e) }
{
    let names = settings.copy_queues(alloc)?.into_vec();
    let capacity = settings.capacity as usize;
    let passes = settings.passes as usize;
    let shards = settings.shards as u16;
    let most = most_held(source, settings, &waiting);
    Queues::open(alloc, names, capacity, passes, shards, waiting, most)
}

/// The passes on the shards with those at the queues.
fn paired<S: ShardObject>(
    alloc: Global,
    inner: Vec<ShardPass<S>>,
    hints: Vec<QueuesPass>,
) -> Result<Vec<Pass<S>>, AllocError>
    requires { length inner.items ≡ length hints.items }
    ensures inner { IfOk result (λ v. map (λ (p : PassView). p.inner) v.items ≡ inner.items) }
    ensures hints { IfOk result (λ v. map (λ (p : PassView). p.hints) v.items ≡ hints.items) }
{
    let mut passes = Vec::with_capacity(alloc, inner.len())?;
    let mut hints = hints.into_iter();
    for inner in inner {
        match hints.next() {
            Some(hints) => passes.push(Pass { inner, hints })?,
            None => unreachable!(),
        }
    }
    Ok(passes)
}
