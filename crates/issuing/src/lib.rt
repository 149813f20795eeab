//! What a run issues, by the events that a step wrote: dispatches of the tasks that they schedule,
//! requests to other shards as its commands ask for them, and, where the step closed it, a transfer to
//! each child that it leaves and one to its parent.
#![tactic(auto)]

mod closings;
mod dispatches;
mod left;
mod requests;
mod transfers;

pub use dispatches::dispatches_of;
pub use transfers::transfers_behind;
