//! Scripts: lines of requests in, lines of replies out.
//!
//! `run_one` serves the lines of a reader one after another, and writes one reply line for each but
//! the barriers. What it prints is the definition `output`: the replies of the sequential service to
//! the lines of the text, one after another, under the lines' numbers, and where it is asked for,
//! after the last one all steps that were made. `run_from` does the same from where records end, and
//! `run_resumed` from shards that are given. All give the record of each shard.
#![tactic(auto)]

mod batch;
mod fault;
mod journaled;
pub mod laws;
mod line;
mod parts;
mod reading;
mod run;
mod script;
mod serving;
mod tails;
mod trace;

pub use fault::{JournaledFault, ScriptFault};
pub use journaled::{
    Journaled, commit, empty, of_commit, of_serving, run_journaled, run_resumed_journaled,
};
pub use line::{LINE_LIMIT, Line};
pub use reading::asked;
pub use run::{CHUNK, Outcome, run_from, run_one, run_resumed};
pub use serving::opening_fault;
pub use tails::write_tails;
pub use trace::print_trace;
pub use wire_lines::cut;
