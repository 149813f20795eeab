//! One pass alone, and two passes one after the other.

ghost use Rattle.std.specs.Prelude.{◌≡◌, ◌<◌, [], length};
ghost use Rattle.gate.specs.GateViews.{slots, given, IsPassOf};
ghost use Rattle.gate_tests.specs.InOrder.{ComesBack, InOrder};

use crate::passes::{close, counters, give_back, has_steps, open, record_of, take_pass};
use gate::{ClosedSlot, Gate, Pass, Refused, replayed};
use gate_counter::Counter;
use std::alloc::{AllocError, AllocGlobal};
use std::process::Abort;
use std::sync::Wait;
use step_record::Record;

/// Whether steps of the first pass are answered as they are to be, and those that are refused change
/// nothing.
fn are_answered<R: Wait>(rt: &R, gate: &Gate<Counter>, pass: &mut Pass<Counter>) -> bool
    requires { IsPassOf pass.old gate.now × (0 < slots gate.now) }
{
    pass.number() == 0
        && gate.try_step(pass, 0, 5) == Ok(5)
        && gate.try_step(pass, 0, 0) == Err((Refused::NoMemory, 0))
        && gate.step(rt, pass, 0, 7) == Ok(12)
        && gate.step(rt, pass, 0, 0) == Err((AllocError, 0))
}

#[test]
fn one_pass_steps(rt: HostRuntime) {
    let (gate, mut passes) = open(&rt, counters(&rt, 1), 1);
    assert!(rt; are_answered(&rt, &gate, &mut passes[0]));
}

/// Whether the one slot has this value and these steps, of which the last one was made under ticket 1.
fn is_left(closed: &[ClosedSlot<Counter>], value: u64, steps: &[(u8, u64)]) -> bool {
    match closed {
        [slot] => {
            slot.object.value() == value
                && !slot.entries.is_empty()
                && has_steps(&slot.entries, steps)
                && slot.tickets.as_slice() == [1].as_slice()
        }
        _ => false,
    }
}

/// A gate over a counter that has made all steps of a record, whose sum is 7, and its only pass.
fn open_behind<R: Abort + AllocGlobal>(
    rt: &R,
    steps: &[(u8, u64)],
) -> (Gate<Counter>, Vec<Pass<Counter>>)
    ensures one { (slots result.0 ≡ 1) × (given result.0 ≡ 1) × (length result.1.items ≡ 1) }
    ensures own { InOrder result.0 result.1.items }
{
    let Ok((counter, record)) = replayed(rt.alloc(), Counter::at(0), record_of(rt, steps)) else {
        panic!(rt; "not replayed")
    };
    assert!(rt; counter.value() == 7 && has_steps(&record, steps));
    let mut objects = Vec::new(rt.alloc());
    match objects.push((counter, record)) {
        Ok(()) => open(rt, objects, 1),
        Err(_) => panic!(rt; "no memory"),
    }
}

/// It goes on from there: the pass adds 3.
fn goes_on<R: Abort + AllocGlobal>(rt: &R, steps: &[(u8, u64)], whole: &[(u8, u64)]) {
    let (gate, mut passes) = open_behind(rt, steps);
    assert!(rt; gate.try_step(&mut passes[0], 0, 3) == Ok(10));
    assert!(rt; is_left(&close(gate, passes), 10, whole));
}

#[test]
fn an_opened_record_goes_on(rt: HostRuntime) {
    goes_on(&rt, &[(0, 5), (1, 2)], &[(0, 5), (1, 2), (0, 3)]);
    goes_on(&rt, &[(3, 5), (1, 2)], &[(3, 5), (1, 2), (0, 3)]);
}

#[test]
fn a_record_whose_step_is_refused_is_not_replayed(rt: HostRuntime) {
    let record = record_of(&rt, &[(0, 0)]);
    assert!(rt; replayed(rt.alloc(), Counter::at(0), record).is_err());
}

/// What a pass is and finds while another is inside the first slot: the second one is free.
fn step_beside(gate: &Gate<Counter>, mut pass: Pass<Counter>) -> (Pass<Counter>, bool)
    requires { IsPassOf pass gate.now × (1 < slots gate.now) }
    ensures { ComesBack gate.now pass result.0 }
{
    let steps = gate.try_step(&mut pass, 1, 3) == Ok(3)
        && gate.try_step(&mut pass, 0, 4) == Err((Refused::Busy, 4));
    match gate.try_enter(pass, 0, 4) {
        Ok(held) => (held.leave().0, false),
        Err((why, pass, request)) => (pass, steps && why == Refused::Busy && request == 4),
    }
}

/// One pass is inside the first slot while the other steps, and then the other steps there too.
fn enter_and_leave<R: Abort>(
    rt: &R,
    gate: &Gate<Counter>,
    one: Pass<Counter>,
    two: Pass<Counter>,
) -> (Pass<Counter>, Pass<Counter>)
    requires own { IsPassOf one gate.now × IsPassOf two gate.now }
    requires slots { 1 < slots gate.now }
    ensures { ComesBack gate.now one result.0 × ComesBack gate.now two result.1 }
{
    let Ok(held) = gate.try_enter(one, 0, 5) else {
        panic!(rt; "the slot was free")
    };
    let (mut two, is_kept_out) = step_beside(gate, two);
    let (mut one, reply) = held.leave();
    assert!(rt; is_kept_out && reply == 5);
    assert!(rt; gate.try_step(&mut two, 0, 4) == Ok(9));
    gate.meet(&mut one, &mut two);
    (one, two)
}

/// Whether both slots have the steps that were made there, under their tickets.
fn are_left(closed: &[ClosedSlot<Counter>]) -> bool {
    match closed {
        [first, second] => {
            first.object.value() == 9
                && has_steps(&first.entries, &[(0, 5), (1, 4)])
                && has_steps(&second.entries, &[(1, 3)])
                && first.tickets.as_slice() == [1, 3].as_slice()
                && second.tickets.as_slice() == [2].as_slice()
        }
        _ => false,
    }
}

#[test]
fn a_pass_inside_keeps_others_out(rt: HostRuntime) {
    let (gate, mut passes) = open(&rt, counters(&rt, 2), 2);
    let two = take_pass(&gate, &mut passes);
    let one = take_pass(&gate, &mut passes);
    let (one, two) = enter_and_leave(&rt, &gate, one, two);
    give_back(&rt, &gate, &mut passes, one);
    give_back(&rt, &gate, &mut passes, two);
    assert!(rt; are_left(&close(gate, passes)));
}
