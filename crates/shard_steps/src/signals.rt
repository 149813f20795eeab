//! What a signal adds to its run.
//!
//! Rules: H3.

ghost use Rattle.std.specs.Prelude.{◌≡◌, ◌∷◌, [], IfOk};
ghost use Rattle.service_model.specs.Outcome.{outside};
ghost use Rattle.service_model.specs.Signals.{signal_fact};

use crate::outside::from_outside;
use mutable_state_keeper::{KeepsRun, Run};
use service_model_types::journal::{EventFact, Fact, copied};
use std::alloc::{AllocError, Global};
use wf_event::Attributes;
use wf_event::payloads::WorkflowExecutionSignaled;
use wf_event_values::{Id, Items, Text};

/// The facts of a signal, with a workflow task where none is scheduled or started.
pub fn signal_facts<T: KeepsRun>(
    alloc: Global,
    run: &Run<T>,
    request_id: &Option<Id>,
    name: &Text,
    input: &Text,
) -> Result<Items<Fact>, AllocError>
    ensures { IfOk result (λ facts. facts ≡ outside run.now.state
        (signal_fact request_id.now name.now input.now ∷ [])) }
{
    let mut facts = Vec::new(alloc);
    facts.push(signal_fact(request_id, name, input)?)?;
    from_outside(alloc, run, facts)
}

/// A signal, made by a request id.
pub(crate) fn signal_fact(
    request_id: &Option<Id>,
    name: &Text,
    input: &Text,
) -> Result<Fact, AllocError>
    ensures { IfOk result (λ fact. fact ≡ signal_fact request_id.now name.now input.now) }
{
    Ok(Fact::Event(EventFact {
        attributes: Attributes::WorkflowExecutionSignaled(WorkflowExecutionSignaled {
            name: name.clone()?,
            input: input.clone()?,
        }),
        request_id: copied(request_id)?,
    }))
}
