//! Transfers between shards, as a shard serves them: it tells the next one that it issued, takes one
//! that is delivered, and counts one that was.
//!
//! A delivery has an effect only under the number after the last one that was accepted from its
//! source. Then all that it does is one step: what a run gets, the run that is made, the transfer that
//! answers, and the count.
//!
//! Functions are named by what they settle. Each makes the plan of it, and the shard stands for what it
//! stood for.
#![tactic(auto)]

mod accepts;
mod answers;
mod checks;
mod children;
mod counts;
mod deliver;
mod events;
mod externals;
mod pending;
mod starts;

pub use counts::{acknowledge_transfer, read_next_transfer};
pub use deliver::deliver_transfer;
