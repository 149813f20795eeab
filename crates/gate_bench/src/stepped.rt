//! Steps through a gate.

ghost use Rattle.std.specs.Prelude.{◌≡◌, ℕ, ◌+◌, ◌<◌, ◌≤◌, [], Some, length, slice_get, IfOk};
ghost use Rattle.gate.specs.GateViews.{slots as slots_of, IsPassOf};

use crate::Outcome;
use gate::{Gate, Pass};
use gate_counter::Counter;
use std::alloc::{AllocError, Global};
use std::rt::Clock;
use std::sync::Wait;
use std::thread::Threads;
use std::time::{Duration, Instant};
use std::{io, thread};
use step_record::Record;

/// So many new counters, with empty records.
fn counters(alloc: Global, count: usize) -> Result<Vec<(Counter, Record<u64>)>, AllocError>
    ensures count { IfOk result (λ v. length v.items ≡ count) }
    ensures fresh { IfOk result (λ v.
        (k : ℕ) (x : _) → slice_get v.items k ≡ Some x
        → (x.0.value ≡ 0) × (x.1 ≡ [])) }
{
    let mut objects = Vec::new(alloc);
    for _ in 0..count {
        objects.push((Counter::at(0), Record::new(alloc)))?;
    }
    Ok(objects)
}

/// Takes the last pass.
fn take_pass(gate: &Gate<Counter>, passes: &mut Vec<Pass<Counter>>) -> Pass<Counter>
    requires some { 0 < length passes.old.items }
    requires own { (k : ℕ) (p : _) → slice_get passes.old.items k ≡ Some p
        → IsPassOf p gate.now }
    ensures own { IsPassOf result gate.now }
    ensures count { length passes.new.items + 1 ≡ length passes.old.items }
    ensures rest { (k : ℕ) (p : _) → slice_get passes.new.items k ≡ Some p
        → IsPassOf p gate.now }
{
    let Some(pass) = passes.pop() else {
        unreachable!()
    };
    pass
}

/// Adds 1 on the slots in turn, so many times.
fn step_in_turn<R: Wait>(
    rt: &R,
    gate: &Gate<Counter>,
    pass: &mut Pass<Counter>,
    slots: usize,
    steps: u64,
)
    requires own { IsPassOf pass.old gate.now }
    requires slots { (slots_of gate.now ≡ slots) × (0 < slots) }
{
    for i in 0..steps {
        let _ = gate.step(rt, pass, (i % slots as u64) as usize, 1);
    }
}

/// The same of each pass, on a thread of its own. How long that takes.
fn step_together<R: Wait + Threads + Sync + Clock>(
    rt: &R,
    gate: &Gate<Counter>,
    passes: &mut [Pass<Counter>],
    slots: usize,
    steps: u64,
) -> io::Result<Duration>
    requires own { (k : ℕ) (p : _) → slice_get passes.old k ≡ Some p → IsPassOf p gate.now }
    requires slots { (slots_of gate.now ≡ slots) × (0 < slots) }
{
    let threads = passes.len().max(1);
    let began = Instant::now(rt)?;
    thread::for_each_mut(
        rt,
        passes,
        threads,
        &|_place, pass: &mut Pass<Counter>|
            requires { IsPassOf pass.now gate.now
                × (slots_of gate.now ≡ slots) × (0 < slots) }
        { step_in_turn(rt, gate, pass, slots, steps) },
    );
    began.elapsed(rt)
}

/// What the counters come to. A step on each shows it.
fn sum<R: Wait>(rt: &R, gate: &Gate<Counter>, mut pass: Pass<Counter>, slots: usize) -> u64
    requires own { IsPassOf pass gate.now }
    requires slots { slots_of gate.now ≡ slots }
{
    let mut sum: u64 = 0;
    for slot in 0..slots {
        if let Ok(value) = gate.step(rt, &mut pass, slot, 1) {
            sum = sum.saturating_add(value.saturating_sub(1));
        }
    }
    sum
}

/// Steps of so many threads on a gate, each with a pass of its own.
pub(crate) fn step_through_gate<R: Wait + Threads + Sync + Clock + AllocGlobal>(
    rt: &R,
    threads: usize,
    slots: usize,
    steps: u64,
) -> io::Result<Outcome>
    requires threads { threads ≤ 4 }
    requires slots { (1 ≤ slots) × (slots ≤ 16) }
{
    let alloc = rt.alloc();
    let (gate, mut passes) = Gate::open(alloc, counters(alloc, slots)?, threads + 1)?;
    let reader = take_pass(&gate, &mut passes);
    let took = step_together(rt, &gate, &mut passes, slots, steps)?;
    let sum = sum(rt, &gate, reader, slots);
    Ok(Outcome { sum, took })
}
