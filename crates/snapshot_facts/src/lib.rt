//! What a snapshot has of a run: its facts, each a step of its own, as they are read off what is known of
//! the run; and the test by which they may come again, one after another.
#![tactic(auto)]

ghost use Rattle.snapshot_facts.specs.Restoring.{PassesMayCome};

mod restoring;

pub use restoring::{may_come, try_add};

/// Whatever the state of a run: a fact that passes the test may be a step of its own.
pub fn what_passes_may_come()
    ensures { PassesMayCome }
{}
