//! What a start does with a workflow ID that was used before (Temporal, Workflow ID reuse policy
//! and Workflow ID conflict policy).
#![tactic(auto)]

mod decision;

pub use decision::{Latest, decide};
