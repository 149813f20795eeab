//! Passes on threads of their own.

ghost use Rattle.std.specs.Prelude.{◌≡◌, ◌<◌, ℕ, get_or, length};
ghost use Rattle.std.specs.Thread.{IsSync};
ghost use Rattle.gate.specs.GateViews.{slots, IsPassOf};
ghost use Rattle.gate_tests.specs.InOrder.{ComesBack, InOrder};

use crate::passes::{close, counters, give_back, open, take_pass};
use gate::{ClosedSlot, Gate, Pass};
use gate_counter::Counter;
use std::alloc::{AllocError, AllocGlobal};
use std::process::Abort;
use std::rt::Clock;
use std::sync::{Barrier, Wait};
use std::thread;
use std::thread::Threads;
use std::time::Duration;
use step_record::Record;

const SLOTS: u64 = 3;

const STEPS: u64 = 300;

/// Enters the slot, and leaves it some time after the other thread has begun to step there.
fn enter_and_leave_late<R: Wait + Clock>(
    rt: &R,
    begun: &Barrier,
    gate: &Gate<Counter>,
    pass: Pass<Counter>,
) -> Option<u64>
    requires { IsPassOf pass gate.now × (0 < slots gate.now) }
{
    let held = gate.try_enter(pass, 0, 5).ok()?;
    begun.wait(rt);
    thread::sleep(rt, Duration::from_millis(50));
    Some(held.leave().1)
}

/// Steps on the slot once the other thread is inside.
fn step_behind<R: Wait>(
    rt: &R,
    begun: &Barrier,
    gate: &Gate<Counter>,
    mut pass: Pass<Counter>,
) -> Result<u64, (AllocError, u64)>
    requires { IsPassOf pass gate.now × (0 < slots gate.now) }
{
    begun.wait(rt);
    gate.step(rt, &mut pass, 0, 4)
}

/// A step that finds another pass inside waits until that one has left. It doesn't say that memory
/// is wanting.
#[test]
fn a_step_waits_for_a_pass_inside(rt: HostRuntime) {
    let (gate, mut passes) = open(&rt, counters(&rt, 1), 2);
    let two = take_pass(&gate, &mut passes);
    let one = take_pass(&gate, &mut passes);
    let begun = Barrier::new(2);
    let (shared, met, handle) = (&gate, &begun, &rt);
    let (left, stepped) = thread::join(
        &rt,
        move || -> Option<u64>
            requires { IsPassOf one shared.now × (0 < slots shared.now) }
        { enter_and_leave_late(handle, met, shared, one) },
        move || -> Result<u64, (AllocError, u64)>
            requires { IsPassOf two shared.now × (0 < slots shared.now) }
        { step_behind(handle, met, shared, two) },
    );
    assert!(rt; left == Some(5) && stepped == Ok(9));
}

/// One step after another, on the slots in turn. The requests on a slot rise by the number of slots.
fn step_in_turn<R: Wait>(rt: &R, gate: &Gate<Counter>, pass: &mut Pass<Counter>)
    requires { IsPassOf pass.old gate.now × (slots gate.now ≡ 3) }
    ensures { ComesBack gate.now pass.old pass.new }
{
    for i in 0..STEPS {
        let _ = gate.step(rt, pass, (i % SLOTS) as usize, i + 1);
    }
}

/// Each pass steps on a thread of its own.
fn step_together<R: Threads + Wait + Sync>(
    rt: &R,
    gate: &Gate<Counter>,
    passes: &mut [Pass<Counter>],
)
    requires own { InOrder gate.now passes.old }
    requires slots { slots gate.now ≡ 3 }
    ensures count { length passes.new ≡ length passes.old }
    ensures each { (k : ℕ) (d : _) → k < length passes.old
        → ComesBack gate.now (get_or passes.old k d) (get_or passes.new k d) }
{
    let threads = passes.len().max(1);
    thread::for_each_mut(
        rt,
        passes,
        threads,
        &|_place, pass: &mut Pass<Counter>|
            requires { IsPassOf pass.now gate.now × (slots gate.now ≡ 3) }
            ensures { ComesBack gate.entry.now pass.entry.now pass.exit.now }
        { step_in_turn(rt, gate, pass) },
    );
}

/// The same of all passes of a gate.
fn step_all_together<R: Threads + Wait + Sync>(
    rt: &R,
    gate: &Gate<Counter>,
    passes: &mut Vec<Pass<Counter>>,
)
    requires own { InOrder gate.now passes.old.items }
    requires slots { slots gate.now ≡ 3 }
    ensures own { InOrder gate.now passes.new.items }
    ensures count { length passes.new.items ≡ length passes.old.items }
{
    step_together(rt, gate, passes);
}

/// Two of four passes meet the two others, the last one and then one more.
fn meet_others<R: Abort>(rt: &R, gate: &Gate<Counter>, passes: &mut Vec<Pass<Counter>>)
    requires own { InOrder gate.now passes.old.items }
    requires count { length passes.old.items ≡ 4 }
    ensures own { InOrder gate.now passes.new.items }
    ensures count { length passes.new.items ≡ 4 }
{
    let mut d = take_pass(gate, passes);
    let mut c = take_pass(gate, passes);
    let mut b = take_pass(gate, passes);
    let mut a = take_pass(gate, passes);
    gate.meet(&mut a, &mut b);
    gate.meet(&mut c, &mut d);
    gate.meet(&mut a, &mut d);
    give_back(rt, gate, passes, a);
    give_back(rt, gate, passes, b);
    give_back(rt, gate, passes, c);
    give_back(rt, gate, passes, d);
}

/// Whether the pass's entries in the slot's record are the steps that it made there, in their order.
fn has_own_steps(record: &Record<u64>, pass: u8, slot: u64) -> bool {
    let mut next = slot.wrapping_add(1);
    for entry in record.as_slice() {
        if entry.pass == pass {
            if entry.request != next {
                return false;
            }
            next = next.wrapping_add(SLOTS);
        }
    }
    next == slot.wrapping_add(STEPS + 1)
}

/// Whether the slot of this number has 100 requests of each of four passes: its number and 1, 4 and so on.
fn has_all_steps(left: &ClosedSlot<Counter>, slot: u64) -> bool
    requires { slot < 3 }
{
    left.entries.len() == 400
        && left.tickets.len() == 400
        && left.object.value() == 4 * (100 * (slot + 1) + 3 * 4950)
        && has_own_steps(&left.entries, 0, slot)
        && has_own_steps(&left.entries, 1, slot)
        && has_own_steps(&left.entries, 2, slot)
        && has_own_steps(&left.entries, 3, slot)
}

#[test]
fn four_threads_step_on_three_slots(rt: HostRuntime) {
    let (gate, mut passes) = open(&rt, counters(&rt, 3), 4);
    step_all_together(&rt, &gate, &mut passes);
    meet_others(&rt, &gate, &mut passes);
    let closed = close(gate, passes);
    assert!(rt; closed.len() == 3);
    for slot in 0..SLOTS {
        assert!(rt; has_all_steps(&closed[slot as usize], slot));
    }
}
