//! What is decided of a workflow ID and of an attempt that ended.
//!
//! Rules: I1, I2, I3, I4, I5, I6, I7, I8, A7, A8, A9, A12, A13, A14, A15, A16.

use wf_event_values::RetryState;

/// What a start does, by the latest run of its workflow ID (Temporal's documentation of Workflow Id
/// reuse and conflict policies).
#[derive(Clone, Copy)]
pub enum Decision {
    /// A new run is made.
    New,
    /// The latest run is the one that this very request started.
    Same,
    /// The open run is answered, and none is made.
    Existing,
    /// The open run is terminated, and a new one is made in the same step.
    TerminateThenNew,
    /// The latest run is in the way.
    Refused,
}

/// What becomes of an activity whose attempt ended without success (Temporal's documentation of
/// retry policies).
#[derive(Clone, Copy)]
pub enum Verdict {
    /// It is tried again, from this moment on, in milliseconds.
    Retry { ready: u64 },
    /// It is not, and why.
    GiveUp(RetryState),
}
