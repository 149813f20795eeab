//! Two threads at one queue, and one pass alone.

ghost use Rattle.std.specs.Prelude.{◌≡◌, ℕ, ◌+◌, ◌<◌, ◌≤◌, Some, All, length, slice_get};
ghost use Rattle.std.specs.Thread.{IsSync};
ghost use Rattle.matching.specs.Named.{IsPassOf, shards_of};

use matching::{Queues, QueuesPass};
use service_model_types::content::Dispatch;
use service_model_types::request::Hint;
use std::alloc::AllocGlobal;
use std::process::Abort;
use std::sync::Wait;
use std::thread;
use std::thread::Threads;
use wf_event_values::{Field, Id, Refusal, TaskKind};

const COUNT: u64 = 2000;

fn hint(event: u64) -> Hint
    ensures { result.shard ≡ 0 }
{
    Hint {
        kind: TaskKind::Workflow,
        shard: 0,
        run: 1,
        event,
        attempt: 1,
    }
}

fn send_all<R: Wait>(rt: &R, queues: &Queues, mut pass: QueuesPass, name: &Id) -> QueuesPass
    requires own { IsPassOf pass queues.now }
    requires shards { 0 < shards_of queues.now }
    ensures { IsPassOf result queues.now }
{
    let mut next = 0;
    for _ in rt.forever() {
        if next >= COUNT {
            break;
        }
        match queues.push_hint(rt, &mut pass, name, hint(next)) {
            Ok(()) => next += 1,
            Err(_) => thread::yield_now(),
        }
    }
    pass
}

/// Whether all came, in their order.
fn poll_all<R: Wait>(rt: &R, queues: &Queues, mut pass: QueuesPass, name: &Id) -> (QueuesPass, bool)
    requires { IsPassOf pass queues.now }
    ensures { IsPassOf result.0 queues.now }
{
    let mut next = 0;
    let mut in_order = true;
    for _ in rt.forever() {
        if next >= COUNT {
            break;
        }
        match queues.pop_hint(rt, &mut pass, name, TaskKind::Workflow) {
            Ok(Some(found)) => {
                in_order &= found.event == next;
                next += 1;
            }
            _ => thread::yield_now(),
        }
    }
    (pass, in_order)
}

fn exchange<R: Threads + Wait + Sync>(
    rt: &R,
    queues: &Queues,
    one: QueuesPass,
    two: QueuesPass,
    name: &Id,
) -> bool
    requires own { IsPassOf one queues.now × IsPassOf two queues.now }
    requires shards { 0 < shards_of queues.now }
{
    let (_, (_, in_order)) = thread::join(
        rt,
        move || -> QueuesPass
            requires { IsSync R.row × IsPassOf one queues.now × (0 < shards_of queues.now) }
            ensures { IsPassOf result queues.entry.now }
        { send_all(rt, queues, one, name) },
        move || -> (QueuesPass, bool)
            requires { IsSync R.row × IsPassOf two queues.now }
            ensures { IsPassOf result.0 queues.entry.now }
        { poll_all(rt, queues, two, name) },
    );
    in_order
}

/// Takes the last pass.
fn take_pass(queues: &Queues, passes: &mut Vec<QueuesPass>) -> QueuesPass
    requires some { 0 < length passes.old.items }
    requires own { (k : ℕ) (p : QueuesPass) → slice_get passes.old.items k ≡ Some p
        → IsPassOf p queues.now }
    ensures own { IsPassOf result queues.now }
    ensures less { length passes.old.items ≡ length passes.new.items + 1 }
    ensures rest { (k : ℕ) (p : QueuesPass) → slice_get passes.new.items k ≡ Some p
        → IsPassOf p queues.now }
{
    let Some(pass) = passes.pop() else {
        unreachable!()
    };
    pass
}

fn name_of<R: Abort + AllocGlobal>(rt: &R, name: &str) -> Id {
    match Id::new(rt.alloc(), Field::Queues, name) {
        Ok(name) => name,
        Err(_) => panic!(rt; "no name"),
    }
}

/// Queues of the name `main` for hints of one shard, which hold these to begin with.
fn open<R: Abort + AllocGlobal>(
    rt: &R,
    capacity: usize,
    passes: usize,
    waiting: Vec<Dispatch>,
) -> (Queues, Vec<QueuesPass>)
    requires capacity { 0 < capacity }
    requires passes { passes ≤ 256 }
    requires waiting { All (λ d. d.hint.shard < 1) waiting.items }
    ensures shards { shards_of result.0 ≡ 1 }
    ensures count { length result.1.items ≡ passes }
    ensures own { (k : ℕ) (p : QueuesPass) → slice_get result.1.items k ≡ Some p
        → IsPassOf p result.0 }
{
    let most = waiting.len();
    match Queues::open(rt.alloc(), names(rt, 1), capacity, passes, 1, waiting, most) {
        Ok(opened) => opened,
        Err(_) => panic!(rt; "the queues were not opened"),
    }
}

/// The queue of that name is to hold a hint.
fn dispatch<R: Abort + AllocGlobal>(rt: &R, queue: &str, event: u64) -> Dispatch
    ensures { result.hint.shard ≡ 0 }
{
    Dispatch {
        queue: name_of(rt, queue),
        hint: hint(event),
    }
}

/// Dispatches that wait for these queues, each of its event.
fn waiting<R: Abort + AllocGlobal>(rt: &R, rows: &[(&str, u64)]) -> Vec<Dispatch>
    ensures { All (λ d. d.hint.shard < 1) result.items }
{
    let mut waiting = Vec::new(rt.alloc());
    for (queue, event) in rows {
        let Ok(()) = waiting.push(dispatch(rt, queue, *event)) else {
            panic!(rt; "no memory")
        };
    }
    waiting
}

#[test]
fn hints_come_in_order(rt: HostRuntime) {
    let name = name_of(&rt, "main");
    let (queues, mut passes) = open(&rt, 4, 2, Vec::new(rt.alloc()));
    let two = take_pass(&queues, &mut passes);
    let one = take_pass(&queues, &mut passes);
    assert!(rt; exchange(&rt, &queues, one, two, &name));
}

/// Pushes a hint of an event. Whether the queue was full.
fn finds_full<R: Wait>(
    rt: &R,
    queues: &Queues,
    pass: &mut QueuesPass,
    name: &Id,
    event: u64,
) -> bool
    requires { IsPassOf pass.old queues.now × (0 < shards_of queues.now) }
    ensures { IsPassOf pass.new queues.now }
{
    let pushed = queues.push_hint(rt, pass, name, hint(event));
    matches!(pushed, Err(Refusal::QueueFull))
}

/// Pops the next hint. Its event, 0 where there was none.
fn pop<R: Wait>(rt: &R, queues: &Queues, pass: &mut QueuesPass, name: &Id, kind: TaskKind) -> u64
    requires { IsPassOf pass.old queues.now }
    ensures { IsPassOf pass.new queues.now }
{
    match queues.pop_hint(rt, pass, name, kind) {
        Ok(found) => found.map_or(0, |hint| hint.event),
        Err(_) => u64::MAX,
    }
}

/// Whether a queue is full after two hints, and then empty after both.
fn fills_and_empties<R: Wait>(rt: &R, queues: &Queues, pass: &mut QueuesPass, name: &Id) -> bool
    requires { IsPassOf pass.old queues.now × (0 < shards_of queues.now) }
{
    queues.push_hint(rt, pass, name, hint(1)).is_ok()
        && queues.push_hint(rt, pass, name, hint(2)).is_ok()
        && finds_full(rt, queues, pass, name, 3)
        && pop(rt, queues, pass, name, TaskKind::Activity) == 0
        && pop(rt, queues, pass, name, TaskKind::Workflow) == 1
        && pop(rt, queues, pass, name, TaskKind::Workflow) == 2
        && pop(rt, queues, pass, name, TaskKind::Workflow) == 0
}

#[test]
fn a_full_queue_and_an_empty_one(rt: HostRuntime) {
    let name = name_of(&rt, "main");
    let (queues, mut passes) = open(&rt, 2, 1, Vec::new(rt.alloc()));
    let mut pass = take_pass(&queues, &mut passes);
    assert!(rt; fills_and_empties(&rt, &queues, &mut pass, &name));
}

/// What two passes find one after another, of hints 7 and 8 that waited from the opening on.
fn find_both<R: Abort + Wait>(
    rt: &R,
    queues: &Queues,
    one: &mut QueuesPass,
    two: &mut QueuesPass,
    name: &Id,
)
    requires { IsPassOf one.old queues.now × IsPassOf two.old queues.now
        × (0 < shards_of queues.now) }
{
    let kind = TaskKind::Workflow;
    assert!(rt; finds_full(rt, queues, one, name, 9));
    assert!(rt; pop(rt, queues, two, name, kind) == 7);
    assert!(rt; queues.push_hint(rt, two, name, hint(9)).is_ok());
    assert!(rt; pop(rt, queues, one, name, kind) == 8);
    queues.meet(one, two);
    assert!(rt; pop(rt, queues, one, name, kind) == 9);
}

#[test]
fn what_waits_at_the_opening_is_found(rt: HostRuntime) {
    let name = name_of(&rt, "main");
    let waiting = waiting(&rt, &[("main", 7), ("main", 8)]);
    let (queues, mut passes) = open(&rt, 2, 2, waiting);
    let mut two = take_pass(&queues, &mut passes);
    let mut one = take_pass(&queues, &mut passes);
    find_both(&rt, &queues, &mut one, &mut two, &name);
}

/// Whether a queue of capacity 2, in which hints 7, 8 and 9 waited from the opening on, takes no other
/// one until fewer than two wait.
fn takes_more_after_two<R: Wait>(rt: &R, queues: &Queues, pass: &mut QueuesPass, name: &Id) -> bool
    requires { IsPassOf pass.old queues.now × (0 < shards_of queues.now) }
{
    let kind = TaskKind::Workflow;
    finds_full(rt, queues, pass, name, 10)
        && pop(rt, queues, pass, name, kind) == 7
        && finds_full(rt, queues, pass, name, 10)
        && pop(rt, queues, pass, name, kind) == 8
        && queues.push_hint(rt, pass, name, hint(10)).is_ok()
        && finds_full(rt, queues, pass, name, 11)
        && pop(rt, queues, pass, name, kind) == 9
        && pop(rt, queues, pass, name, kind) == 10
        && pop(rt, queues, pass, name, kind) == 0
}

#[test]
fn more_may_wait_at_the_opening_than_the_capacity(rt: HostRuntime) {
    let name = name_of(&rt, "main");
    let waiting = waiting(&rt, &[("main", 7), ("main", 8), ("main", 9)]);
    let (queues, mut passes) = open(&rt, 2, 1, waiting);
    let mut pass = take_pass(&queues, &mut passes);
    assert!(rt; takes_more_after_two(&rt, &queues, &mut pass, &name));
}

/// So many names `main`.
fn names<R: Abort + AllocGlobal>(rt: &R, count: usize) -> Vec<Id>
    ensures { length result.items ≡ count }
{
    let mut names = Vec::new(rt.alloc());
    for _ in 0..count {
        let Ok(()) = names.push(name_of(rt, "main")) else {
            panic!(rt; "no memory")
        };
    }
    names
}

/// Why queues of the name `main`, in each of which one hint may wait, can't be opened with these.
fn is_refused<R: Abort + AllocGlobal>(rt: &R, waiting: Vec<Dispatch>) -> Option<Refusal>
    requires { All (λ d. d.hint.shard < 1) waiting.items }
{
    Queues::open(rt.alloc(), names(rt, 1), 1, 1, 1, waiting, 1).err()
}

#[test]
fn what_does_not_fit_is_refused(rt: HostRuntime) {
    let refused = is_refused(&rt, waiting(&rt, &[("main", 7), ("main", 8)]));
    assert!(rt; matches!(refused, Some(Refusal::QueueFull)));
    let refused = is_refused(&rt, waiting(&rt, &[("other", 7)]));
    assert!(rt; matches!(refused, Some(Refusal::UnknownTaskQueue)));
}

/// Ample memory suffices for as many queues as there may be, each as long as it may be.
#[test]
fn the_largest_queues_are_opened(rt: HostRuntime) {
    let opened = Queues::open(
        rt.alloc(),
        names(&rt, 64),
        65_536,
        1,
        1,
        Vec::new(rt.alloc()),
        65_536,
    );
    assert!(rt; opened.is_ok());
}
