//! What a shard keeps in memory: its runs, the index of their workflow IDs, their first deadlines,
//! the dispatches that wait, and its transfers. A plan says what a step does to it, with all that
//! it needs made; `commit` only moves what was made, so it can't fail.
//!
//! What a request asks for, the crate above decides.
#![tactic(auto)]

mod carry_out;
mod deadlines;
mod find;
mod in_run;
mod made;
mod place;
mod plan;
mod readers;
mod restored;
mod runs;
mod store;
mod transfers;
mod waiting;

pub use place::Place;
pub use plan::{Change, Count, MoreOf, NewRun, Parts, Plan, adding, answered, refused, taking};
pub use store::Store;
