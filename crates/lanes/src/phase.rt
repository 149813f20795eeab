//! The lines of a batch between two barriers, and what the lanes do at a barrier.

ghost use Rattle.std.specs.Prelude.{◌≡◌, ◌+◌, ◌<◌, ◌≤◌, ◌^◌, All, length, map, IfOk, IfErr, OnErr};
ghost use Rattle.script.specs.Endings.{IsWriteFault};
ghost use Rattle.lanes.specs.Course.{AllMet, FirstMet};
ghost use Rattle.lanes.specs.Lanes.{EachWorked, Worked, calls_of, passes_of};
ghost use Rattle.lanes.specs.Printed.{PhaseBegun, PhasePrinted};

use crate::door::Door;
use crate::lane::Lane;
use crate::place::Place;
use crate::print::print;
use script::ScriptFault;
use service::ShardObject;
use std::alloc::Global;
use std::io::Write;
use std::sync::Wait;
use std::thread;
use std::thread::Threads;
use wire_counted::Counted;

/// Lets all lanes make their calls at the same time, each in a thread of its own.
fn serve_lanes<R: Threads + Wait + Sync, S: ShardObject + Send + Sync, D: Door<S> + Sync>(
    rt: &R,
    alloc: Global,
    door: &D,
    lanes: &mut [Lane<S>],
)
    requires { All (λ l. D.admits door.now l.pass) lanes.old }
    ensures own { All (λ l. D.admits door.now l.pass) lanes.new }
    ensures count { length lanes.new ≡ length lanes.old }
    ensures worked { EachWorked (D.serves door.now) lanes.old lanes.new }
{
    let threads = lanes.len();
    if threads > 0 {
        thread::for_each_mut(
            rt,
            lanes,
            threads,
            &|_, lane: &mut Lane<S>|
                requires { D.admits door.now lane.now.pass }
                ensures own { D.admits door.entry.now lane.exit.now.pass }
                ensures worked { Worked (D.serves door.entry.now) lane.entry.now lane.exit.now }
            { lane.serve(rt, alloc, door) },
        );
    }
}

/// The first lane meets every other, in their order.
pub(crate) fn meet_others<S: ShardObject, D: Door<S>>(door: &D, lanes: &mut [Lane<S>])
    requires { All (λ l. D.admits door.now l.pass) lanes.old }
    ensures own { All (λ l. D.admits door.now l.pass) lanes.new }
    ensures count { length lanes.new ≡ length lanes.old }
    ensures met { FirstMet (D.meets door.now) (passes_of lanes.old) (passes_of lanes.new) }
    ensures asked { map calls_of lanes.new ≡ map calls_of lanes.old }
{
    if let Some((first, rest)) = lanes.split_first_mut() {
        for other in rest {
            door.meet(&mut first.pass, &mut other.pass);
        }
    }
}

/// The first lane meets every other twice, so that all of them have seen what any of them did.
pub(crate) fn meet_all<S: ShardObject, D: Door<S>>(door: &D, lanes: &mut [Lane<S>])
    requires { All (λ l. D.admits door.now l.pass) lanes.old }
    ensures own { All (λ l. D.admits door.now l.pass) lanes.new }
    ensures count { length lanes.new ≡ length lanes.old }
    ensures met { AllMet (D.meets door.now) (passes_of lanes.old) (passes_of lanes.new) }
    ensures asked { map calls_of lanes.new ≡ map calls_of lanes.old }
{
    meet_others(door, lanes);
    meet_others(door, lanes);
}

/// Lets all lanes make their calls, and writes the replies to the lines, which are numbered from this
/// one on. It says whether one of them is a refusal.
pub(crate) fn serve_phase<
    R: Threads + Wait + Sync,
    S: ShardObject + Send + Sync,
    D: Door<S> + Sync,
    W: Write,
>(
    rt: &R,
    alloc: Global,
    door: &D,
    lanes: &mut [Lane<S>],
    first: u64,
    places: &[Place],
    writer: &mut Counted<W>,
) -> Result<bool, ScriptFault>
    requires own { All (λ l. D.admits door.now l.pass) lanes.old }
    requires numbers { first + length places.now < 2 ^ 64 }
    ensures own { All (λ l. D.admits door.now l.pass) lanes.new }
    ensures count { length lanes.new ≡ length lanes.old }
    ensures printed { IfOk result (λ refused.
        PhasePrinted (D.serves door.now) first places.now lanes.old lanes.new refused
        (W.contents writer.old.inner) (W.contents writer.new.inner)) }
    ensures begun { OnErr result (PhaseBegun (D.serves door.now) first places.now lanes.old
        (W.contents writer.old.inner) (W.contents writer.new.inner)) }
    ensures grows { writer.old.failures ≤ writer.new.failures }
    ensures fault { IfErr result (λ e. IsWriteFault e writer.old.failures writer.new.failures) }
{
    serve_lanes(rt, alloc, door, lanes);
    let refused = print(alloc, lanes, first, places, writer)?;
    if let Err(error) = writer.flush() {
        return Err(ScriptFault::Write(error));
    }
    Ok(refused)
}
