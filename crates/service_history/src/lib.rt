//! The history of a service, as laws that a caller can cite: what [`history::merged`] makes of what
//! [`service::Service::close`] gives is its one history, and a resumed service goes on with the history
//! of the one before it.
#![tactic(auto)]

pub mod laws;
pub mod resumed;
