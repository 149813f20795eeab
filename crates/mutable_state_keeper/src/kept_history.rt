//! A run's history, as it is read.

ghost use Rattle.std.specs.Prelude.{◌≡◌};
ghost use Rattle.mutable_state_keeper.specs.Histories.{lists_in};

use buffered::History;

/// The history of a run, and what is buffered. A run in tables lends it. One that keeps no list of
/// its events makes one for whoever asks.
#[derive(Drop)]
pub enum KeptHistory<'a> {
    Lent(&'a History),
    Made(Box<History>),
}

impl<'a> KeptHistory<'a> {
    pub fn get(&self) -> &History
        ensures { result.now.lists ≡ lists_in self.now }
    {
        match self {
            KeptHistory::Lent(history) => history,
            KeptHistory::Made(history) => &**history,
        }
    }
}
