//! What a step of one run adds and answers.
//!
//! Given a run, these functions decide what a request or a deadline does to it, and make the facts
//! and texts of that. Which run a request names, `shard` says, and where it is kept, `shard_store`.
#![tactic(auto)]

mod activities;
mod activity_turns;
mod attempts;
mod ends;
mod notes;
mod outside;
mod signals;
mod starts;
mod tasks;
mod turns;
mod verdicts;

pub use activities::attempt_task;
pub use attempts::{ended_facts, is_running};
pub use ends::{cancel_facts, is_repeated, replaced_reason, terminated_facts};
pub use notes::note_facts;
pub use outside::from_outside;
pub use signals::signal_facts;
pub use starts::{Beginning, beginning_of, first_task, new_run, signaled_beginning};
pub use tasks::{ended, started_facts};
pub use turns::fired_facts;
pub use verdicts::{failure, verdict_of};
