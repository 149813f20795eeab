//! How shards are opened, each as its record left it: from nothing before it, or from a content for
//! which the shard stands.

ghost use Rattle.std.specs.Prelude.{◌≡◌, ◌≤◌, List, length, map, IfOk};
ghost use Rattle.std.specs.List.{AllByRecursion};
ghost use Rattle.gate.specs.Passes.{view as seen_by};
ghost use Rattle.gate.specs.Records.{Each, KeepsAll, replay};
ghost use Rattle.service_model_types.specs.declared.content.Content.{Content};
ghost use Rattle.service_model_types.specs.declared.content.Setup.{Setup as TheSetup};
ghost use Rattle.service_model.specs.Service.{Entry as TheEntry, after};
ghost use Rattle.shard_gate.specs.Opening.{IsSetup, Opens};
ghost use Rattle.shard_gate.specs.Sources.{hinted};
ghost use Rattle.shard_gate.specs.Starts.{from_setups, starting, waiting_in};
ghost use Rattle.shard_gate.specs.GateViews.{PassView};

use crate::close::{Closed, GatePasses};
use crate::shard_gate::{ShardGate, ShardPass};
use crate::shard_object::ShardObject;
use crate::source::Source;
use gate::{Gate, replayed};
use service_model_types::content::{Dispatch, Setup};
use service_model_types::request::Request;
use std::alloc::{AllocError, Global};
use std::sync::Mutex;
use step_record::Record;

/// A gate that was opened, its passes, and the tasks whose hints are to be pushed again.
#[derive(Drop)]
pub struct Opened<S: ShardObject> {
    pub gate: ShardGate<S>,
    /// Numbered from 0.
    pub passes: Vec<ShardPass<S>>,
    /// By shard, run and event.
    pub waiting: Vec<Dispatch>,
}

/// A shard as its record left it, with that record, and the tasks whose hints are to be pushed again.
#[derive(Drop)]
struct Reopened<S: ShardObject> {
    shard: S,
    log: Record<Request>,
    waiting: Vec<Dispatch>,
}

/// The shards with their records, and the tasks whose hints are to be pushed again.
#[derive(Drop)]
struct Laid<S: ShardObject> {
    objects: Vec<(S, Record<Request>)>,
    waiting: Vec<Dispatch>,
}

/// The tasks of a shard whose hints are pushed again.
fn hinted<S: ShardObject>(
    alloc: Global,
    source: Source,
    shard: &mut S,
) -> Result<Vec<Dispatch>, AllocError>
    ensures same { (c : Content) → S.stands shard.old c → S.stands shard.new c }
    ensures same_opening { S.opening shard.new ≡ S.opening shard.old }
    ensures tasks { IfOk result (λ tasks.
        (c : Content) → S.stands shard.old c → tasks.items ≡ hinted source c) }
{
    match source {
        Source::Records => shard.waiting(alloc),
        Source::Journal => shard.counted_tasks(alloc),
    }
}

/// One shard, as its record left it.
fn reopen<S: ShardObject>(
    alloc: Global,
    source: Source,
    start: S,
    log: Record<Request>,
) -> Result<Reopened<S>, AllocError>
    requires { S.stands start (S.opening start) }
    ensures opening { IfOk result (λ r. S.opening r.shard ≡ S.opening start) }
    ensures log { IfOk result (λ r. r.log ≡ log) }
    ensures stands { IfOk result (λ r.
        S.stands r.shard (replay S.after (S.opening r.shard) r.log)) }
    ensures keeping { IfOk result (λ r. KeepsAll S.after S.keeps (S.opening r.shard) r.log) }
    ensures waiting { IfOk result (λ r.
        r.waiting.items ≡ hinted source (replay after (S.opening start) log)) }
{
    let (mut shard, log) = replayed(alloc, start, log)?;
    let waiting = hinted(alloc, source, &mut shard)?;
    Ok(Reopened {
        shard,
        log,
        waiting,
    })
}

/// All shards, each as its record left it.
fn lay<S: ShardObject>(
    alloc: Global,
    source: Source,
    given: Vec<(S, Record<Request>)>,
) -> Result<Laid<S>, AllocError>
    requires { Each given.items (λ k x. S.stands x.0 (S.opening x.0)) }
    ensures starts { IfOk result (λ l.
        map (starting S.opening) l.objects.items ≡ map (starting S.opening) given.items) }
    ensures standing { IfOk result (λ l. Each l.objects.items (λ k x.
        S.stands x.0 (replay S.after (S.opening x.0) x.1))) }
    ensures keeping { IfOk result (λ l. Each l.objects.items (λ k x.
        KeepsAll S.after S.keeps (S.opening x.0) x.1)) }
    ensures waiting { IfOk result (λ l.
        l.waiting.items ≡ waiting_in source (map (starting S.opening) given.items)) }
{
    let mut objects = Vec::new(alloc);
    let mut all = Vec::new(alloc);
    for (start, log) in given {
        let Reopened {
            shard,
            log,
            mut waiting,
        } = reopen(alloc, source, start, log)?;
        objects.push((shard, log))?;
        all.append(&mut waiting)?;
    }
    Ok(Laid {
        objects,
        waiting: all,
    })
}

/// Shards without runs, each beside its record.
fn without_runs<S: ShardObject>(
    alloc: Global,
    given: Vec<(Setup, Record<Request>)>,
) -> Result<Vec<(S, Record<Request>)>, AllocError>
    requires { AllByRecursion (λ (g : TheSetup × List TheEntry). IsSetup g.0) given.items }
    ensures starts { IfOk result (λ v.
        map (starting S.opening) v.items ≡ from_setups given.items) }
    ensures standing { IfOk result (λ v. Each v.items (λ k x. S.stands x.0 (S.opening x.0))) }
{
    let mut objects = Vec::new(alloc);
    for (setup, log) in given {
        let shard = S::open(alloc, setup)?;
        objects.push((shard, log))?;
    }
    Ok(objects)
}

/// The passes of a gate as those of its shards.
fn as_shard_passes<S: ShardObject>(
    alloc: Global,
    inner: Vec<gate::Pass<S>>,
) -> Result<Vec<ShardPass<S>>, AllocError>
    ensures tables { IfOk result (λ v. map (λ (p : PassView). p.table) v.items
        ≡ map (λ p. p.seat.table_id) inner.items) }
    ensures known { IfOk result (λ v. map (λ (p : PassView). p.known) v.items
        ≡ map (λ p. seen_by p) inner.items) }
{
    let mut passes = Vec::with_capacity(alloc, inner.len())?;
    for inner in inner {
        passes.push(ShardPass { inner })?;
    }
    Ok(passes)
}

impl<S: ShardObject> ShardGate<S> {
    /// Opens a gate over 1 to 64 shards, each as its record left it, and gives 1 to 256 passes,
    /// numbered from 0. Before its record each shard has no runs.
    ///
    /// # Errors
    /// Where memory was refused.
    pub fn open(
        alloc: Global,
        given: Vec<(Setup, Record<Request>)>,
        source: Source,
        passes: usize,
    ) -> Result<Opened<S>, AllocError>
        requires slots { (1 ≤ length given.items) × (length given.items ≤ 64) }
        requires passes { (1 ≤ passes) × (passes ≤ 256) }
        requires setups { AllByRecursion
            (λ (g : TheSetup × List TheEntry). IsSetup g.0) given.items }
        ensures { IfOk result (λ r. Opens source
            (from_setups given.items) passes r.gate r.passes.items r.waiting.items) }
    {
        let shards = without_runs(alloc, given)?;
        ShardGate::resume(alloc, shards, source, passes)
    }

    /// Opens a gate over 1 to 64 shards as `open` does, where each shard starts at the content with
    /// which it comes (`S.opening`), whatever that is, and for which it stands. Its record is what was
    /// done since.
    ///
    /// # Errors
    /// Where memory was refused.
    pub fn resume(
        alloc: Global,
        shards: Vec<(S, Record<Request>)>,
        source: Source,
        passes: usize,
    ) -> Result<Opened<S>, AllocError>
        requires slots { (1 ≤ length shards.items) × (length shards.items ≤ 64) }
        requires passes { (1 ≤ passes) × (passes ≤ 256) }
        requires standing { Each shards.items (λ k x. S.stands x.0 (S.opening x.0)) }
        ensures { IfOk result (λ r. Opens source
            (map (starting S.opening) shards.items) passes r.gate r.passes.items r.waiting.items) }
    {
        let Laid { objects, waiting } = lay(alloc, source, shards)?;
        let count = objects.len();
        let (gate, inner) = Gate::open(alloc, objects, passes)?;
        let passes = as_shard_passes(alloc, inner)?;
        let room = GatePasses::new(alloc)?;
        let closed = Closed::new(alloc, count)?;
        let gate = ShardGate {
            gate,
            handed_down: Mutex::new(room),
            closed,
        };
        Ok(Opened {
            gate,
            passes,
            waiting,
        })
    }
}
