//! The service: its calls, each on the shard of the workflow ID, the hint or the task token that it
//! names.
//!
//! Many threads call one service at once, each with a [`Pass`] of its own. A shard, whatever keeps it,
//! lies with its record in one slot of a gate; a call enters that slot, serves its request, adds an
//! entry to the record and leaves. So each reply is the sequential service's at that place of the
//! record. A service that is [opened](Service::open) starts without runs and goes on where its records
//! end; one that is [resumed](Service::resume) starts at a content of each shard.
//!
//! Two passes that [meet](Service::meet) agree on what was done so far, and [`Service::close`]
//! gives the records, which settle any dispute, and their tickets, by which all steps of all shards
//! stand in one list ([`histories_are_in_order`]).
#![tactic(auto)]

mod activities;
mod any_call;
mod calls;
mod close;
mod dispatch_turns;
mod hand_out;
mod held;
mod laws;
mod meet;
mod open;
mod polls;
mod reopen;
mod route;
mod service;
mod tasks;
mod transfer_turns;
mod turns;
mod workflows;

pub use close::ShardsLeft;
pub use gate::Refused;
pub use held::Held;
pub use laws::{histories_are_in_order, journals_are_opened};
pub use service::{Pass, Service};
pub use shard_gate::{
    Closed, Handing, HandsOut, KeepsRecord, KeepsShard, ShardObject, Source, Tail,
};
