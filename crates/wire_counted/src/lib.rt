//! Readers and writers whose failed calls are counted, and how whole texts pass through them.
#![tactic(auto)]

mod counted;
mod whole;

pub use counted::Counted;
pub use whole::{read_some, write_whole};
