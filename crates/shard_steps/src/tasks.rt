//! The start of a workflow task, and what its end asks and answers.
//!
//! Rules: W2, W4, W5, W6, W13, W15.

ghost use Rattle.std.specs.Prelude.{◌≡◌, ◌∷◌, [], IfOk};
ghost use Rattle.wf_event.specs.declared.attributes.Attributes.TheVariants.{WorkflowTaskStarted};
ghost use Rattle.service_model.specs.Journal.{plain};
ghost use Rattle.shard_steps.specs.Tasks.{ended};

use mutable_state::plain;
use service_model_types::answer::Answer;
use service_model_types::journal::Fact;
use std::alloc::{AllocError, Global};
use wf_event::Attributes;
use wf_event_values::{Cause, Items};

/// What the start of a task adds to its run.
pub fn started_facts(alloc: Global, scheduled: u64) -> Result<Items<Fact>, AllocError>
    ensures { IfOk result (λ facts. facts ≡ plain (WorkflowTaskStarted scheduled) ∷ []) }
{
    let mut facts = Vec::new(alloc);
    facts.push(plain(Attributes::WorkflowTaskStarted(scheduled)))?;
    Ok(Items::from_vec(facts))
}

/// What the end of a task answers.
pub fn ended(fault: Option<Cause>) -> Answer
    ensures { result ≡ ended fault }
{
    match fault {
        Some(cause) => Answer::TaskFailed(cause),
        None => Answer::Completed,
    }
}
