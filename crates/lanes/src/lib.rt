//! Scripts over several lanes: a line goes to the thread of its lane, and all lanes run at the same time.
//!
//! `run_lanes` reads what is there, lets every lane serve its own lines of it in their order, each in a
//! thread of its own with its own pass, and writes the replies in the order of the lines before it reads
//! on. At a barrier and at the end the lanes' passes meet.
//! `run_lanes_from` does so over a service that it opens from records, and gives the records of its end;
//! where it is asked for, it writes the one history of all shards after the last reply.
//! `run_lanes_journaled` commits the steps of each read to a journal before it tells the replies to it.
//! `run_lanes_resumed` and `run_lanes_resumed_journaled` do so from shards that are given.
#![tactic(auto)]

mod answer;
mod batch;
mod batches;
mod beside;
mod calls;
mod door;
mod journaled;
mod lane;
mod phase;
mod place;
mod print;
mod reading;
mod reopened;
mod replies;
mod room;
mod run;
mod settle;
mod sorted;
mod tails;

pub use door::Door;
pub use journaled::{LanesJournaled, run_lanes_journaled, run_lanes_resumed_journaled};
pub use reopened::{run_lanes_from, run_lanes_resumed};
pub use run::{LanesOutcome, run_lanes};
