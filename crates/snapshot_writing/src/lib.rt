//! The text of a shard's snapshot.
//!
//! A text is made from what the shard keeps, restored line by line as it is made, and what was restored is
//! compared with the shard. So its promise doesn't rest on the order or the choice of the lines.
#![tactic(auto)]

mod fault;
mod notes;
mod runs;
mod same;
mod same_runs;
mod shards;
mod written;

pub use fault::SnapshotFault;
pub use written::snapshot;
