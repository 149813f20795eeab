//! What the queues hold that are filled before anybody else can call them.
ghost use Rattle.std.specs.Prelude.{◌≡◌, ◌≢◌, ◌*◌, ◌+◌, ◌<◌, ◌≤◌, ◌^◌, ℕ, List, [], map, replicate, length, Ok, Err, MatchResult, IfOk};
ghost use Rattle.wf_event_values.specs.declared.refusal.Refusal.TheVariants.{NoMemory};
ghost use Rattle.service_model_types.specs.declared.request.Hint.{Hint};
ghost use Rattle.matching.specs.Holding.{held_by, pushed, pushed_at};
ghost use Rattle.matching.specs.Named.{place_in};

use crate::queues::{place_of, slot_of};
use service_model_types::content::Dispatch;
use service_model_types::request::Hint;
use std::alloc::{AllocError, Global};
use wf_event_values::{Id, Refusal};

/// What each queue holds once these dispatches were pushed, one after another, where at most so many
/// may wait in one.
///
/// # Errors
/// `UnknownTaskQueue` where a dispatch names no queue, `QueueFull` where there is no room for it.
pub(crate) fn held(
    alloc: Global,
    names: &Vec<Id>,
    most: usize,
    waiting: Vec<Dispatch>,
) -> Result<Vec<Vec<Hint>>, Refusal>
    requires { length names.now.items ≤ 64 }
    ensures count { IfOk result (λ all. length all.items ≡ 2 * length names.now.items) }
    ensures held { MatchResult result
        (λ all. held_by names.now.items most waiting.items ≡ Ok (map (λ v. v.items) all.items))
        (λ e. e ≢ NoMemory → held_by names.now.items most waiting.items ≡ Err e) }
{
    let mut all = empty(alloc, 2 * names.len())?;
    for dispatch in waiting {
        push(&mut all, names, most, &dispatch)?;
    }
    Ok(all)
}

/// So many empty lists.
fn empty(alloc: Global, count: usize) -> Result<Vec<Vec<Hint>>, AllocError>
    ensures { IfOk result (λ all. map (λ v. v.items) all.items ≡ replicate count []) }
{
    let mut all = Vec::with_capacity(alloc, count)?;
    for _ in 0..count {
        all.push_reserved(Vec::new(alloc));
    }
    Ok(all)
}

/// Puts a dispatch's hint after those that wait in the queue that it names.
fn push(
    all: &mut Vec<Vec<Hint>>,
    names: &Vec<Id>,
    most: usize,
    dispatch: &Dispatch,
) -> Result<(), Refusal>
    requires { length all.old.items ≡ 2 * length names.now.items }
    ensures count { length all.new.items ≡ length all.old.items }
    ensures pushed { MatchResult result
        (λ _. pushed most (map (λ v. v.items) all.old.items)
        (place_in names.now.items dispatch.now.queue) dispatch.now.hint
        ≡ Ok (map (λ v. v.items) all.new.items))
        (λ e. e ≢ NoMemory → pushed most (map (λ v. v.items) all.old.items)
        (place_in names.now.items dispatch.now.queue) dispatch.now.hint ≡ Err e) }
{
    let Some(place) = place_of(names, &dispatch.queue) else {
        return Err(Refusal::UnknownTaskQueue);
    };
    let hint = dispatch.hint;
    push_at(all, slot_of(place, hint.kind), most, hint)
}

/// The same in the queue of a slot.
fn push_at(all: &mut Vec<Vec<Hint>>, slot: usize, most: usize, hint: Hint) -> Result<(), Refusal>
    requires { slot < length all.old.items }
    ensures count { length all.new.items ≡ length all.old.items }
    ensures pushed { MatchResult result
        (λ _. pushed_at most (map (λ v. v.items) all.old.items) slot hint
        ≡ Ok (map (λ v. v.items) all.new.items))
        (λ e. e ≢ NoMemory
        → pushed_at most (map (λ v. v.items) all.old.items) slot hint ≡ Err e) }
{
    let waiting = &mut all[slot];
    if waiting.len() >= most {
        return Err(Refusal::QueueFull);
    }
    waiting.push(hint)?;
    Ok(())
}
