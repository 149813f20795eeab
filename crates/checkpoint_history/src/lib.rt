//! One history of all shards from where their snapshots end: starts whose counts of transfers are in
//! order, and what is so of every run from there.
#![tactic(auto)]

mod counts;
pub mod histories;
pub mod laws;
mod stores;

pub use counts::{TransferCounts, are_in_order};
pub use stores::{counts_are_those_of_the_contents, transfer_counts};
