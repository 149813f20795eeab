//! Why a snapshot gives no shard of a service.

ghost use Rattle.std.specs.Prelude.{◌≡◌};
ghost use Rattle.checkpoints.specs.Faults.{load_fault};
ghost use Rattle.checkpoints.specs.declared.fault.LoadFault.TheVariants.{Memory};

use shard_snapshot::{Damage, RestoreFault};
use std::alloc::{AllocError, AllocFailed};

/// Why a text gives no shard of a service.
#[derive(Clone, Copy)]
pub enum LoadFault {
    /// Memory was refused.
    Memory,
    /// The line of this number, from 1 on, is damaged so.
    Damaged(u64, Damage),
    /// A task queue that is named in it is none of the service's.
    Queue,
    /// The service's settings are out of their ranges, or it has no such shard.
    Settings,
}

impl From<AllocError> for LoadFault {
    ghost from_gives = { λ _ e. e ≡ Memory };

    fn from(_error: AllocError) -> LoadFault {
        LoadFault::Memory
    }
}

impl<T: Drop> From<AllocFailed<T>> for LoadFault {
    ghost from_gives = { λ _ e. e ≡ Memory };

    fn from(_error: AllocFailed<T>) -> LoadFault {
        LoadFault::Memory
    }
}

impl From<RestoreFault> for LoadFault {
    ghost from_gives = { λ fault e. e ≡ load_fault fault };

    /// A text in memory is always read.
    fn from(fault: RestoreFault) -> LoadFault {
        match fault {
            RestoreFault::Damaged(line, damage) => LoadFault::Damaged(line, damage),
            RestoreFault::Memory => LoadFault::Memory,
            RestoreFault::Read(_) => LoadFault::Memory,
        }
    }
}
