//! What shards are opened from.

/// What a service is opened from.
#[derive(Clone, Copy)]
pub enum Source {
    /// Records: the hints of all tasks that wait are pushed to their queues again, and have to fit.
    Records,
    /// A journal: those of the tasks whose dispatches were counted, however many these are. The others
    /// are handed over by their own dispatches.
    Journal,
}
