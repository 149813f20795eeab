//! What a line was found to be.

use wf_event_values::Refusal;

/// What a line was found to be.
#[derive(Clone, Copy)]
pub(crate) enum Place {
    /// It has no reply.
    Barrier,
    /// It was refused before any lane had it.
    Refused(Refusal),
    /// A call in a lane.
    InLane(u8),
}
