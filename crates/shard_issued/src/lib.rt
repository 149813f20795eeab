//! What the steps of a shard issued: the dispatches and the transfers that wait to be counted.
//!
//! They are known by the places of the runs that issue them. A step notes which runs it changed, and
//! what these issue is looked up after it, since that may take memory.
#![tactic(auto)]

mod awaiting;
mod changed;
mod dispatches;
mod handed_over;
mod transfers;

pub use awaiting::waiting_tasks;
pub use changed::Changed;
pub use dispatches::{Dispatches, readied};
pub use transfers::{Transfers, Unsent};
