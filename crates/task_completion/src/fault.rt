//! Why commands have no effect.

ghost use Rattle.std.specs.Prelude.{◌≡◌};
ghost use Rattle.task_completion.specs.declared.fault.Fault.TheVariants.{Faulty, NoMemory};

use std::alloc::{AllocError, AllocFailed};
use wf_event_values::Cause;

/// A command is faulty for this cause, or a growth of memory was refused.
#[derive(Clone, Copy)]
pub(crate) enum Fault {
    Faulty(Cause),
    NoMemory,
}

impl From<Cause> for Fault {
    ghost from_gives = { λ cause fault. fault ≡ Faulty cause };

    fn from(cause: Cause) -> Fault {
        Fault::Faulty(cause)
    }
}

impl From<AllocError> for Fault {
    ghost from_gives = { λ _ fault. fault ≡ NoMemory };

    fn from(_error: AllocError) -> Fault {
        Fault::NoMemory
    }
}

impl<T: Drop> From<AllocFailed<T>> for Fault {
    ghost from_gives = { λ _ fault. fault ≡ NoMemory };

    fn from(_error: AllocFailed<T>) -> Fault {
        Fault::NoMemory
    }
}
