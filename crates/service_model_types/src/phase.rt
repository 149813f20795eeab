//! Where a workflow task and an activity stand.
//!
//! Rules: W1.

/// Where a run's workflow task stands.
#[derive(Clone, Copy)]
pub enum TaskPhase {
    /// There is none.
    None,
    /// It waits to be taken.
    Scheduled,
    /// A worker has it.
    Started,
}

/// Where an activity stands.
#[derive(Clone, Copy)]
pub enum ActivityPhase {
    /// An attempt waits to be taken.
    Queued,
    /// A worker has the attempt.
    Running,
    /// An attempt ended, and the next one waits for its moment.
    Waiting,
}
