//! What is asked of a running activity, each line by the token of its task.
//!
//! Rules: L7.

ghost use Rattle.wf_event_values.specs.Gives.{Gives};
ghost use Rattle.wire_requests.specs.Activities.{activity_text_of, fail_activity_of};

use crate::tasks::activity_task_in;
use service_model_types::request::{ActivityText, FailActivity};
use service_model_types::settings::Settings;
use std::alloc::Global;
use wf_event_values::{Field, Refusal, Text};
use wire_fields::{optional, or_default, required};
use wire_trees::Tree;

/// A token, and a text under this key, which is empty where it is missing.
#[tactic(auto, unfolding(crate::specs::Activities::activity_text_of))]
pub(crate) fn activity_text<V: Tree>(
    alloc: Global,
    settings: &Settings,
    key: Field,
    line: &V,
) -> Result<ActivityText, Refusal>
    ensures { Gives result (activity_text_of settings.now key (V.stands_for line.now)) }
{
    let token = required(alloc, line, Field::Token)?;
    let task = activity_task_in(settings, token)?;
    let text = or_default(alloc, line, key, Text::empty(alloc))?;
    Ok(ActivityText { task, text })
}

#[tactic(auto, unfolding(crate::specs::Activities::fail_activity_of))]
pub(crate) fn fail_activity<V: Tree>(
    alloc: Global,
    settings: &Settings,
    line: &V,
) -> Result<FailActivity, Refusal>
    ensures { Gives result (fail_activity_of settings.now (V.stands_for line.now)) }
{
    let token = required(alloc, line, Field::Token)?;
    let task = activity_task_in(settings, token)?;
    let message = or_default(alloc, line, Field::Message, Text::empty(alloc))?;
    let error_type = optional(alloc, line, Field::ErrorType)?;
    let non_retryable = or_default(alloc, line, Field::NonRetryable, false)?;
    Ok(FailActivity {
        task,
        message,
        error_type,
        non_retryable,
    })
}
