//! Facts from outside a worker.
//!
//! Rules: W1, A4.

ghost use Rattle.std.specs.Prelude.{◌≡◌, IfOk};
ghost use Rattle.service_model.specs.Outcome.{outside, is_no_task};

use mutable_state::plain;
use mutable_state_keeper::{KeepsRun, Run};
use service_model_types::journal::Fact;
use service_model_types::phase::TaskPhase;
use std::alloc::{AllocError, Global};
use wf_event_values::Items;

/// Facts from outside, and a workflow task where none is scheduled or started.
pub fn from_outside<T: KeepsRun>(
    alloc: Global,
    run: &Run<T>,
    facts: Vec<Fact>,
) -> Result<Items<Fact>, AllocError>
    ensures { IfOk result (λ all. all ≡ outside run.now.state facts.items) }
{
    let mut facts = facts;
    if is_none(run.task(alloc)?.phase) {
        facts.push(plain(run.schedule_task(1)?))?;
    }
    Ok(Items::from_vec(facts))
}

/// Whether no workflow task is scheduled or started.
pub(crate) fn is_none(phase: TaskPhase) -> bool
    ensures { result ≡ is_no_task phase }
{
    matches!(phase, TaskPhase::None)
}
