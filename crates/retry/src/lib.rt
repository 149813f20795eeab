//! Whether an activity is tried again, and how long it waits before that (Temporal, Retry Policies).
#![tactic(auto)]

mod verdict;
mod waits;

pub use verdict::{Ended, verdict_on};
pub use waits::{maximum_of, wait_after};
