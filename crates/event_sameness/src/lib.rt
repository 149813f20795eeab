//! Whether two events, what two transfers carry or two dispatches are the same.
#![tactic(auto)]

mod activities;
mod children;
mod dispatches;
mod events;
mod externals;
mod names;
mod runs;
mod tasks;
mod timers;
mod transfers;
mod values;

pub use dispatches::is_same_dispatch;
pub use events::{is_same_attributes, is_same_event};
pub use transfers::is_same_content;
