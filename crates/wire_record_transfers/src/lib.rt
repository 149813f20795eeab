//! Transfers as a record has them, and back.
#![tactic(auto)]

mod contents;
mod kinds;
mod known;
mod put_contents;
mod reading;
mod writing;

pub use known::known_transfer;
pub use reading::transfer;
pub use writing::put_transfer;
