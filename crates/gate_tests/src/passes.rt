//! Gates over counters, and their passes.

ghost use Rattle.std.specs.Prelude.{◌≡◌, ◌≤◌, ◌+◌, ◌<◌, ℕ, [], Some, length, slice_get};
ghost use Rattle.gate.specs.GateViews.{slots, given, IsPassOf};
ghost use Rattle.gate.specs.Passes.{view, number};
ghost use Rattle.gate.specs.Records.{Each, KeepsAll, replay};
ghost use Rattle.gate_tests.specs.InOrder.{ComesBack, InOrder};

use gate::{ClosedSlot, Gate, KeepsRecord, Object, Pass};
use gate_counter::Counter;
use std::alloc::AllocGlobal;
use std::process::Abort;
use step_record::{Entry, Record};

/// So many new counters, with empty records.
pub(crate) fn counters<R: Abort + AllocGlobal>(rt: &R, count: usize) -> Vec<(Counter, Record<u64>)>
    ensures count { length result.items ≡ count }
    ensures fresh { Each result.items (λ k x. (x.0.value ≡ 0) × (x.1 ≡ [])) }
{
    let mut objects = Vec::new(rt.alloc());
    for _ in 0..count {
        match objects.push((Counter::at(0), Record::new(rt.alloc()))) {
            Ok(()) => {}
            Err(_) => panic!(rt; "no memory"),
        }
    }
    objects
}

/// The record of these steps, each a pass's number and its request.
pub(crate) fn record_of<R: Abort + AllocGlobal>(rt: &R, steps: &[(u8, u64)]) -> Record<u64> {
    let mut entries = Vec::new(rt.alloc());
    for (pass, request) in steps {
        let entry = Entry {
            pass: *pass,
            request: *request,
        };
        if entries.push(entry).is_err() {
            panic!(rt; "no memory");
        }
    }
    Record::from_vec(entries)
}

/// Whether the record has just these steps.
pub(crate) fn has_steps(record: &Record<u64>, steps: &[(u8, u64)]) -> bool {
    record.len() == steps.len()
        && record.as_slice().iter().zip(steps).all(|(entry, step)| entry.pass == step.0
            && entry.request == step.1)
}

/// A gate over these objects, and so many passes in the order of their numbers.
pub(crate) fn open<O: Object + Drop, R: Abort + AllocGlobal>(
    rt: &R,
    objects: Vec<(O, Record<O::Request>)>,
    passes: usize,
) -> (Gate<O>, Vec<Pass<O>>)
    requires slots { (1 ≤ length objects.items) × (length objects.items ≤ 64) }
    requires passes { (1 ≤ passes) × (passes ≤ 256) }
    requires standing { Each objects.items (λ k x.
        O.stands x.0 (replay O.after (O.opening x.0) x.1)) }
    requires keeping { Each objects.items (λ k x.
        KeepsAll O.after O.keeps (O.opening x.0) x.1) }
    ensures slots { slots result.0 ≡ length objects.items }
    ensures given { (given result.0 ≡ passes) × (length result.1.items ≡ passes) }
    ensures own { InOrder result.0 result.1.items }
{
    match Gate::open(rt.alloc(), objects, passes) {
        Ok(opened) => opened,
        Err(_) => panic!(rt; "the gate was not opened"),
    }
}

/// Takes the last pass.
pub(crate) fn take_pass<O: Object>(gate: &Gate<O>, passes: &mut Vec<Pass<O>>) -> Pass<O>
    requires some { 0 < length passes.old.items }
    requires own { InOrder gate.now passes.old.items }
    ensures own { IsPassOf result gate.now }
    ensures last { length passes.old.items ≡ number (view result) + 1 }
    ensures less { length passes.old.items ≡ length passes.new.items + 1 }
    ensures rest { InOrder gate.now passes.new.items }
{
    let Some(pass) = passes.pop() else {
        unreachable!()
    };
    pass
}

/// Gives a pass back, after those with lower numbers.
pub(crate) fn give_back<O: Object, R: Abort>(
    rt: &R,
    gate: &Gate<O>,
    passes: &mut Vec<Pass<O>>,
    pass: Pass<O>,
)
    requires own { InOrder gate.now passes.old.items }
    requires pass { IsPassOf pass gate.now × (number (view pass) ≡ length passes.old.items) }
    ensures own { InOrder gate.now passes.new.items }
    ensures more { length passes.new.items ≡ length passes.old.items + 1 }
{
    match passes.push(pass) {
        Ok(()) => {}
        Err(_) => panic!(rt; "no memory"),
    }
}

/// The gate's objects and their records, where its passes lie in the order of their numbers.
pub(crate) fn close<O: KeepsRecord>(gate: Gate<O>, passes: Vec<Pass<O>>) -> Vec<ClosedSlot<O>>
    requires own { InOrder gate passes.items }
    requires count { length passes.items ≡ given gate }
    ensures { length result.items ≡ slots gate }
{
    gate.close(passes)
}
