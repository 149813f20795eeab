//! Services that go on from the snapshots of their shards.
//!
//! A shard is restored from the text of its snapshot, and stands for the content that this spells. What was
//! done since comes from a record, which may be empty, or that which a journal has. The
//! shard keeps less than that: what is promised of a script holds of every content for which its shards
//! stand, and so also of those that all records from the first step on leave.
#![tactic(auto)]

mod checkpointed;
mod fault;
mod in_lanes;
mod journaled;
mod lanes_journaled;
mod order;
mod queues;
mod restored;
mod scripts;
mod slots;

pub use checkpointed::Checkpointed;
pub use fault::LoadFault;
pub use in_lanes::{run_lanes_restored, run_lanes_standing};
pub use journaled::{run_restored_journaled, run_standing_journaled};
pub use lanes_journaled::{run_lanes_restored_journaled, run_lanes_standing_journaled};
pub use order::stand_in_order;
pub use restored::{Restored, begin_shard, handed_out, restore_shard};
pub use scripts::{run_restored, run_standing};
pub use snapshot_writing::SnapshotFault;
