//! What was served, with a journal or without one.

ghost use Rattle.std.specs.Prelude.{◌≡◌};
ghost use Rattle.wfserve_run.specs.Status.{is_refused, served_status};

use lanes::LanesJournaled;
use script::{Journaled, Outcome};
use service::{Handing, KeepsShard, ShardObject};

/// What was served with a journal.
#[derive(Drop)]
pub enum WithJournal<S: ShardObject> {
    /// By one pass.
    OnePass(Journaled<S>),
    /// In a lane for each pass.
    InLanes(LanesJournaled<S>),
    /// From a checkpoint on: whether a reply was a refusal.
    AfterCheckpoint(bool),
}

impl<S: ShardObject> WithJournal<S> {
    /// Whether a reply was a refusal.
    pub fn refused(&self) -> bool
        ensures { result ≡ is_refused self.now }
    {
        match self {
            WithJournal::OnePass(journaled) => journaled.refused,
            WithJournal::InLanes(journaled) => journaled.refused,
            WithJournal::AfterCheckpoint(refused) => *refused,
        }
    }
}

/// What was served.
#[derive(Drop)]
pub enum Served<S: KeepsShard> {
    /// A script whose records stay in memory.
    Script(Outcome<S>),
    /// One whose records went to a journal.
    Journaled(WithJournal<Handing<S>>),
    /// No line: the version was asked for, and printed.
    Version,
}

impl<S: KeepsShard> Served<S> {
    /// 1 where a reply was a refusal, else 0.
    pub fn status(&self) -> u8
        ensures { result ≡ served_status self.now }
    {
        match self {
            Served::Script(outcome) => outcome.status(),
            Served::Journaled(journaled) => { if journaled.refused() { 1 } else { 0 } }
            Served::Version => 0,
        }
    }
}
