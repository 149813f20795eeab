//! Task queues: of each named queue, the hints of tasks that may wait to be taken.
#![tactic(auto)]

mod alone;
mod close;
mod count;
mod held;
mod line;
mod looks;
mod meet;
mod open;
mod queue;
mod queues;
mod rule;
mod seats;
mod steps;
mod view;

pub use alone::one_pass;
pub use queues::{Queues, QueuesPass};
