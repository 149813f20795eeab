//! Replies as lines of compact JSON, each with the number of the line that it answers. What can be
//! answered stands in `service_model_types`; events are written by `wire_events`.
//!
//! Rules: L10.
#![tactic(auto)]

mod answers;
mod quick;
mod replies;
mod tasks;

pub use replies::{reply_text, reply_text_in};
