//! Records that are handed out while passes step.

ghost use Rattle.std.specs.Prelude.{◌≡◌, ◌<◌, [], length};
ghost use Rattle.gate.specs.GateViews.{slots, given, IsPassOf};
ghost use Rattle.gate.specs.Records.{Each};
ghost use Rattle.gate_tests.specs.InOrder.{ComesBack, InOrder};

use crate::passes::{has_steps, open, take_pass};
use gate::{Gate, Handing, Pass};
use gate_counter::Counter;
use std::alloc::{AllocGlobal, Global};
use std::process::Abort;
use std::sync::Wait;
use std::thread;
use std::thread::Threads;
use step_record::Record;

/// The steps that a thread makes while another takes what the record grew by.
const STEPS: u64 = 300;

/// So many new counters whose records are handed out.
fn handing<R: Abort + AllocGlobal>(rt: &R, count: usize) -> Vec<(Handing<Counter>, Record<u64>)>
    ensures count { length result.items ≡ count }
    ensures fresh { Each result.items (λ k x. (x.0.object.value ≡ 0) × (x.1 ≡ [])) }
{
    let mut objects = Vec::new(rt.alloc());
    for _ in 0..count {
        let object = Handing {
            object: Counter::at(0),
        };
        match objects.push((object, Record::new(rt.alloc()))) {
            Ok(()) => {}
            Err(_) => panic!(rt; "no memory"),
        }
    }
    objects
}

/// Whether what a slot's record has grown by begins at this entry, has these steps and bears these
/// tickets.
fn is_handed_out(
    alloc: Global,
    gate: &Gate<Handing<Counter>>,
    pass: &mut Pass<Handing<Counter>>,
    first: usize,
    steps: &[(u8, u64)],
    tickets: &[u64],
) -> bool
    requires { IsPassOf pass.old gate.now × (0 < slots gate.now) }
    ensures { ComesBack gate.now pass.old pass.new }
{
    match gate.try_hand_out(alloc, pass, 0) {
        Ok(tail) => {
            tail.first == first
                && has_steps(&tail.entries, steps)
                && tail.tickets.as_slice() == tickets
        }
        Err(_) => false,
    }
}

/// Whether pieces follow each other, and steps go on from what was handed out.
fn goes_on(alloc: Global, gate: &Gate<Handing<Counter>>, pass: &mut Pass<Handing<Counter>>) -> bool
    requires { IsPassOf pass.old gate.now × (0 < slots gate.now) }
    ensures { ComesBack gate.now pass.old pass.new }
{
    gate.try_step(pass, 0, 5) == Ok(5)
        && gate.try_step(pass, 0, 6) == Ok(11)
        && is_handed_out(alloc, gate, pass, 0, &[(0, 5), (0, 6)], &[1, 2])
        && gate.try_step(pass, 0, 7) == Ok(18)
        && is_handed_out(alloc, gate, pass, 2, &[(0, 7)], &[3])
        && is_handed_out(alloc, gate, pass, 3, &[], &[])
        && gate.try_step(pass, 0, 1) == Ok(19)
        && gate.survey(pass) == 4
}

#[test]
fn pieces_follow_each_other(rt: HostRuntime) {
    let (gate, mut passes) = open(&rt, handing(&rt, 1), 1);
    let mut pass = take_pass(&gate, &mut passes);
    assert!(rt; goes_on(rt.alloc(), &gate, &mut pass));
}

/// Steps on the slot, one after another.
fn step_often<R: Wait>(rt: &R, gate: &Gate<Handing<Counter>>, pass: &mut Pass<Handing<Counter>>)
    requires { IsPassOf pass.old gate.now × (0 < slots gate.now) }
    ensures { ComesBack gate.now pass.old pass.new }
{
    for i in 0..STEPS {
        let _ = gate.step(rt, pass, 0, i + 1);
    }
}

/// Takes what the record has grown by again and again, until it has all steps. Whether each piece
/// began where the one before had ended, and each entry was the next step under the next ticket.
fn take_all<R: Wait>(
    rt: &R,
    alloc: Global,
    gate: &Gate<Handing<Counter>>,
    pass: &mut Pass<Handing<Counter>>,
) -> bool
    requires { IsPassOf pass.old gate.now × (0 < slots gate.now) }
    ensures { ComesBack gate.now pass.old pass.new }
{
    let mut taken = 0u64;
    for _ in rt.forever() {
        let Ok(tail) = gate.hand_out(rt, alloc, pass, 0) else {
            return false;
        };
        if tail.first as u64 != taken {
            return false;
        }
        for (entry, ticket) in tail.entries.as_slice().iter().zip(tail.tickets.as_slice()) {
            taken = taken.wrapping_add(1);
            if entry.request != taken || *ticket != taken {
                return false;
            }
        }
        if taken == STEPS {
            return true;
        }
        thread::yield_now();
    }
    unreachable!()
}

/// One thread steps while another takes what the record grows by.
#[test]
fn pieces_are_taken_beside_steps(rt: HostRuntime) {
    let (gate, mut passes) = open(&rt, handing(&rt, 1), 2);
    let mut two = take_pass(&gate, &mut passes);
    let mut one = take_pass(&gate, &mut passes);
    let (shared, handle, alloc) = (&gate, &rt, rt.alloc());
    let (_, whole) = thread::join(
        &rt,
        move || -> ()
            requires { IsPassOf one shared.now × (0 < slots shared.now) }
        { step_often(handle, shared, &mut one) },
        move || -> bool
            requires { IsPassOf two shared.now × (0 < slots shared.now) }
        { take_all(handle, alloc, shared, &mut two) },
    );
    assert!(rt; whole);
}
