//! Lines that are written by pieces of text, and whether a text stands in quotes as it is.
#![tactic(auto)]

mod pieces;
mod plain;

pub use pieces::{put_both, put_number};
pub use plain::is_plain;
