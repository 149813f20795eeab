//! A script over several lanes of a service that goes on from its records, or from its shards.

ghost use Rattle.std.specs.Prelude.{◌≡◌, ℕ, [], true, map, IfOk, IfErr, OnErr};
ghost use Rattle.gate.specs.Records.{Each};
ghost use Rattle.shard_gate.specs.Starts.{opened_with, starting};
ghost use Rattle.service.specs.AtClose.{base_of};
ghost use Rattle.service.specs.Starting.{AreStarts};
ghost use Rattle.script.specs.Endings.{IfRefused, IsDeviceFault, IsResumedFault};
ghost use Rattle.lanes.specs.Begun.{BeganWith, Exactly, hints_of};
ghost use Rattle.lanes.specs.Reopened.{HaltedFrom, HaltedOver, HaltedResumed, IsFaultFrom, RanFrom, RanOver, RanResumed};

use crate::run::run_lanes;
use script::{Outcome, ScriptFault, opening_fault, print_trace};
use service::{Closed, KeepsShard, Pass, Service, Source};
use service_model_types::request::Request;
use service_model_types::settings::Settings;
use std::alloc::Global;
use std::io::{Read, Write};
use std::sync::Wait;
use std::thread::Threads;
use step_record::Record;
use wire_counted::Counted;

/// Opens a service from the records, one of each shard or none, serves every line of the input in its
/// lane as [`run_lanes`] does, and closes the service. Without records nothing was done before.
///
/// There is one list of all steps of all lanes, in the order of their tickets. With `trace` it is
/// written after the last reply, a line for each step. It begins with the first step of each shard, so
/// no records are given then.
///
/// The records come back with what the lines did after them: each begins with the one that was given,
/// and what each pass did in it is there once and in order.
///
/// Where the opening is refused, nothing was read or written. After any other fault what was written
/// is as `run_lanes` says, and no record comes back.
pub fn run_lanes_from<S: KeepsShard + Send + Sync, H: Threads + Wait + Sync, R: Read, W: Write>(
    rt: &H,
    alloc: Global,
    settings: &Settings,
    trace: bool,
    records: Vec<Record<Request>>,
    reader: &mut Counted<R>,
    writer: &mut Counted<W>,
) -> Result<Outcome<S>, ScriptFault>
    requires { trace ≡ true → records.items ≡ [] }
    ensures ran { IfOk result (λ o. RanFrom settings.now trace records.items
        (R.remaining reader.old.inner) (W.contents writer.old.inner)
        (R.remaining reader.new.inner) (W.contents writer.new.inner)
        o.refused o.records.items) }
    ensures halted { OnErr result (HaltedFrom settings.now trace records.items
        (R.remaining reader.old.inner) (W.contents writer.old.inner)
        (R.remaining reader.new.inner) (W.contents writer.new.inner)) }
    ensures untouched { IfErr result (λ e.
        IfRefused e ((reader.new ≡ reader.old) × (writer.new ≡ writer.old))) }
    ensures fault { IfErr result (λ e. IsFaultFrom settings.now records.items e
        reader.old.failures reader.new.failures writer.old.failures writer.new.failures) }
{
    let (service, passes) = match Service::<S>::open(alloc, settings, records) {
        Ok(opened) => opened,
        Err(refusal) => return Err(opening_fault(refusal)),
    };
    run_over(rt, alloc, settings, trace, service, passes, reader, writer)
}

/// [`run_lanes_from`] from shards that are given, each with the record of what was done since the content
/// at which it starts and for which it stands. Each goes on where its record ends, and comes back with
/// what the lines did after it. No steps are written.
///
/// Where resuming is refused, nothing was read or written: for the first setting out of its range, or for
/// hints that don't fit. A task that waits in a queue which the settings don't have is a fault of
/// `Memory`.
pub fn run_lanes_resumed<S: KeepsShard + Send + Sync, H: Threads + Wait + Sync, R: Read, W: Write>(
    rt: &H,
    alloc: Global,
    source: Source,
    settings: &Settings,
    shards: Vec<(S, Record<Request>)>,
    reader: &mut Counted<R>,
    writer: &mut Counted<W>,
) -> Result<Outcome<S>, ScriptFault>
    requires starts { AreStarts settings.now
        (opened_with (map (starting S.opening) shards.items)) }
    requires standing { Each shards.items (λ k x. S.stands x.0 (S.opening x.0)) }
    ensures ran { IfOk result (λ o. RanResumed
        source settings.now (map (starting S.opening) shards.items)
        (R.remaining reader.old.inner) (W.contents writer.old.inner)
        (R.remaining reader.new.inner) (W.contents writer.new.inner)
        o.refused o.records.items) }
    ensures halted { OnErr result (HaltedResumed
        source settings.now (map (starting S.opening) shards.items)
        (R.remaining reader.old.inner) (W.contents writer.old.inner)
        (R.remaining reader.new.inner) (W.contents writer.new.inner)) }
    ensures untouched { IfErr result (λ e.
        IfRefused e ((reader.new ≡ reader.old) × (writer.new ≡ writer.old))) }
    ensures fault { IfErr result (λ e. IsResumedFault
        source settings.now (map (starting S.opening) shards.items) e
        reader.old.failures reader.new.failures writer.old.failures writer.new.failures) }
{
    let (service, passes) = match Service::resume(alloc, source, settings, shards) {
        Ok(resumed) => resumed,
        Err(refusal) => return Err(opening_fault(refusal)),
    };
    run_over(rt, alloc, settings, false, service, passes, reader, writer)
}

/// Serves every line of the input in its lane, and closes the service. With `trace` all steps are
/// written after the last reply.
fn run_over<S: KeepsShard + Send + Sync, H: Threads + Wait + Sync, R: Read, W: Write>(
    rt: &H,
    alloc: Global,
    settings: &Settings,
    trace: bool,
    service: Service<S>,
    passes: Vec<Pass<S>>,
    reader: &mut Counted<R>,
    writer: &mut Counted<W>,
) -> Result<Outcome<S>, ScriptFault>
    requires began { BeganWith settings.now service.gate.origin.bases service passes.items }
    requires traced { trace ≡ true → (s : ℕ) → base_of service s ≡ [] }
    ensures ran { IfOk result (λ o. RanOver
        (Exactly service passes.items) (hints_of (Exactly service passes.items))
        settings.now trace service.gate.origin.bases
        (R.remaining reader.old.inner) (W.contents writer.old.inner)
        (R.remaining reader.new.inner) (W.contents writer.new.inner)
        o.refused o.records.items) }
    ensures halted { OnErr result (HaltedOver
        (Exactly service passes.items) settings.now trace
        (R.remaining reader.old.inner) (W.contents writer.old.inner)
        (R.remaining reader.new.inner) (W.contents writer.new.inner)) }
    ensures fault { IfErr result (λ e. IsDeviceFault e
        reader.old.failures reader.new.failures writer.old.failures writer.new.failures) }
{
    let ended = run_lanes(rt, alloc, settings, &service, passes, reader, writer)?;
    let closed = service.close(ended.passes);
    print_trace(alloc, trace, &closed, writer)?;
    let Closed {
        records,
        tickets: _,
        shards,
    } = closed;
    Ok(Outcome {
        refused: ended.refused,
        records,
        shards,
    })
}
