//! What an event asks of another workflow.

ghost use Rattle.std.specs.Prelude.{◌≡◌, option_copied};
ghost use Rattle.service_model.specs.Deliveries.{asked_id};

use wf_event::Attributes;
use wf_event_values::Id;

/// The workflow ID that an event asks something of.
pub fn asked_id(attributes: &Attributes) -> Option<&Id>
    ensures { option_copied result ≡ asked_id attributes.now }
{
    match attributes {
        Attributes::StartChildWorkflowExecutionInitiated(asked) => Some(&asked.get().workflow_id),
        Attributes::SignalExternalWorkflowExecutionInitiated(asked) => Some(
            &asked.get().workflow_id,
        ),
        Attributes::RequestCancelExternalWorkflowExecutionInitiated(asked) => {
            Some(&asked.get().workflow_id)
        }
        _ => None,
    }
}
