//! How a run began.

use wf_event::payloads::WorkflowExecutionStarted;
use wf_event_values::Id;

/// What the first event of a run carries, and the request id that made it, if there was one.
#[derive(Clone, Copy)]
pub struct Start<'a> {
    pub started: &'a WorkflowExecutionStarted,
    pub request_id: Option<&'a Id>,
}
