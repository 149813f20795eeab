//! Many shards behind one gate, whatever keeps each of them.
//!
//! Who serves a workflow service stands on this, and on no way of keeping a shard's runs. A shard is
//! an object of the gate that answers as the sequential service does ([`ShardObject`]). Here the gate's
//! promises on any object are told in that service's words, once for all calls above, and without the
//! type of what keeps a shard.
//!
//! A shard starts without runs, or at a content for which it stands ([`Resumed`]). What its record adds
//! is told from there on.
#![tactic(auto)]

mod close;
mod hand_out;
mod handing;
mod held;
mod open;
mod resumed;
mod shard_gate;
mod shard_object;
mod source;

pub use close::Closed;
pub use gate::{Handing, HandsOut, KeepsRecord, Refused, Tail};
pub use held::HeldShard;
pub use open::Opened;
pub use resumed::{Resumed, Starts};
pub use shard_gate::{ShardGate, ShardPass};
pub use shard_object::{KeepsShard, ShardObject};
pub use source::Source;
