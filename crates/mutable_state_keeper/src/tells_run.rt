//! What keeps a run so that the run can be made again elsewhere.

ghost use Rattle.std.specs.Prelude.{◌≡◌, map, IfOk, IsTrue};
ghost use Rattle.mutable_state.specs.Activities.{row_said};
ghost use Rattle.mutable_state.specs.RunView.{texts};

use crate::keeps_run::KeepsRun;
use crate::run::Run;
use mutable_state::Activity;
use std::alloc::{AllocError, Global};

/// What keeps a run, and tells of it what can't be told from its history.
pub trait TellsRun: KeepsRun {
    ghost use Rattle.std.specs.Prelude.{◌≡◌};

    /// The request ids of its signals, in their order.
    fn signal_requests(&self) -> &[String]
        ensures { texts result.now ≡ (Self.state self.now).signal_requests };

    /// Copies of the activities in use, in the order in which they were scheduled: also of those whose
    /// end is buffered.
    ///
    /// # Errors
    /// Where memory was refused.
    fn activities(&self, alloc: Global) -> Result<Vec<Activity>, AllocError>
        ensures { IfOk result (λ found.
            map row_said found.items ≡ (Self.state self.now).activities) };

    /// Whether two runs are the same in all but their events. Where these are the same too, the runs
    /// are.
    ///
    /// # Errors
    /// Where memory was refused.
    fn is_same_beside_events(&self, alloc: Global, other: &Self) -> Result<bool, AllocError>
        ensures { IfOk result (λ same. IsTrue same
            → (Self.state self.now).shown ≡ (Self.state other.now).shown
            → (Self.state self.now).held ≡ (Self.state other.now).held
            → Self.state self.now ≡ Self.state other.now) };
}

impl TellsRun for mutable_state::Run {
    fn signal_requests(&self) -> &[String] {
        mutable_state::Run::signal_requests(self)
    }

    fn activities(&self, alloc: Global) -> Result<Vec<Activity>, AllocError> {
        mutable_state::Run::activities(self, alloc)
    }

    fn is_same_beside_events(&self, alloc: Global, other: &Self) -> Result<bool, AllocError> {
        mutable_state::Run::is_same_beside_events(self, alloc, other)
    }
}

impl<T: TellsRun> Run<T> {
    /// The request ids of its signals, in their order.
    pub fn signal_requests(&self) -> &[String]
        ensures { texts result.now ≡ self.now.state.signal_requests }
    {
        self.kept.signal_requests()
    }

    /// Copies of the activities in use, in the order in which they were scheduled: also of those whose
    /// end is buffered.
    ///
    /// # Errors
    /// Where memory was refused.
    pub fn activities(&self, alloc: Global) -> Result<Vec<Activity>, AllocError>
        ensures { IfOk result (λ found. map row_said found.items ≡ self.now.state.activities) }
    {
        self.kept.activities(alloc)
    }

    /// Whether two runs are the same in all but their events. Where these are the same too, the runs
    /// are.
    ///
    /// # Errors
    /// Where memory was refused.
    pub fn is_same_beside_events(&self, alloc: Global, other: &Run<T>) -> Result<bool, AllocError>
        ensures { IfOk result (λ same. IsTrue same
            → self.now.state.shown ≡ other.now.state.shown
            → self.now.state.held ≡ other.now.state.held
            → self.now.state ≡ other.now.state) }
    {
        self.kept.is_same_beside_events(alloc, &other.kept)
    }
}
