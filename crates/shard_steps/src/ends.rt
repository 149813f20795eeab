//! What a request to cancel and a termination add to a run.
//!
//! Rules: C1, C2, C3.

ghost use Rattle.std.specs.Prelude.{◌≡◌, ◌∷◌, [], ◌&&◌, IfOk, codes};
ghost use Rattle.wf_event.specs.declared.attributes.Attributes.TheVariants.{WorkflowExecutionCancelRequested, WorkflowExecutionTerminated};
ghost use Rattle.wf_event_values.specs.declared.policies.CancelSource.TheVariants.{Client};
ghost use Rattle.service_model.specs.Cancels.{is_client, is_same_or_absent};
ghost use Rattle.service_model.specs.Journal.{plain};
ghost use Rattle.service_model.specs.Outcome.{made_by, outside};

use crate::outside::from_outside;
use mutable_state::plain;
use mutable_state_keeper::{KeepsRun, Run};
use service_model_types::journal::{CancelRequest, EventFact, Fact, copied};
use std::alloc::{AllocError, Global};
use wf_event::Attributes;
use wf_event_values::{CancelSource, Field, Id, Items, Text};

/// The facts of a client's request to cancel, with a workflow task where none is scheduled or started.
pub fn cancel_facts<T: KeepsRun>(
    alloc: Global,
    run: &Run<T>,
    request_id: &Option<Id>,
) -> Result<Items<Fact>, AllocError>
    ensures { IfOk result (λ facts. facts ≡ outside run.now.state
        (made_by request_id.now (WorkflowExecutionCancelRequested Client) ∷ [])) }
{
    let mut facts = Vec::new(alloc);
    facts.push(Fact::Event(EventFact {
        attributes: Attributes::WorkflowExecutionCancelRequested(CancelSource::Client),
        request_id: copied(request_id)?,
    }))?;
    from_outside(alloc, run, facts)
}

/// Whether a client's request to cancel is the one that was made before.
pub fn is_repeated(request_id: &Option<Id>, before: &CancelRequest) -> bool
    ensures { result ≡ is_client before.now.by_whom
        && is_same_or_absent request_id.now before.now.request_id }
{
    is_client(before.by_whom) && is_same_or_absent(request_id, &before.request_id)
}

fn is_client(source: CancelSource) -> bool
    ensures { result ≡ is_client source }
{
    matches!(source, CancelSource::Client)
}

/// An absent request id is the same as an absent one.
fn is_same_or_absent(one: &Option<Id>, other: &Option<Id>) -> bool
    ensures { result ≡ is_same_or_absent one.now other.now }
{
    match (one, other) {
        (None, None) => true,
        (Some(one), Some(other)) => one == other,
        _ => false,
    }
}

/// The reason of a termination by a start that replaces the run.
pub fn replaced_reason(alloc: Global) -> Result<Text, AllocError>
    ensures { IfOk result (λ reason. reason ≡ codes "TerminateExisting") }
{
    let Ok(reason) = Text::new(alloc, Field::Reason, "TerminateExisting") else {
        return Err(AllocError);
    };
    Ok(reason)
}

/// The facts of a termination.
pub fn terminated_facts(alloc: Global, reason: Text) -> Result<Items<Fact>, AllocError>
    ensures { IfOk result (λ facts. facts ≡ plain (WorkflowExecutionTerminated reason) ∷ []) }
{
    let mut facts = Vec::new(alloc);
    facts.push(plain(Attributes::WorkflowExecutionTerminated(reason)))?;
    Ok(Items::from_vec(facts))
}
