//! The workflow service: its calls, over shards that keep their runs by tables.
//!
//! Here the two sides of the tree meet: the calls ([`service`]), which know a shard by what the gate
//! asks of one, and the shard, which knows no pass and no call.
#![tactic(auto)]

pub use service::{Closed, Refused};

/// A shard, whose runs are kept by tables.
pub type Shard = shard::Shard<mutable_state::Run>;

/// A workflow service.
pub type Service = service::Service<Shard>;

/// The right to call one service. It is one thread's at a time.
pub type Pass = service::Pass<Shard>;

/// A pass that keeps others from the shard where its start was served.
pub type Held<'a> = service::Held<'a, Shard>;
