//! Transfers between shards: what a shard issued to each destination, and what it accepted from
//! each source.
//!
//! The transfers of one shard to another are numbered 1, 2, 3, .. (this service's rule; a shard may
//! also send to itself). The destination accepts each number once and in order, and the source then
//! acknowledges it.
#![tactic(auto)]

mod copies;
mod inbox;
mod issue_log;
mod outbox;

pub use copies::copied;
pub use inbox::Inbox;
pub use issue_log::IssueLog;
pub use outbox::Outbox;
