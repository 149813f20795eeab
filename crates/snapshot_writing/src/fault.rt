//! Why there is no snapshot of a shard.

ghost use Rattle.std.specs.Prelude.{◌≡◌};
ghost use Rattle.snapshot_writing.specs.declared.fault.SnapshotFault.TheVariants.{Memory, NotRestored};

use shard_snapshot::{Damage, RestoreFault};
use std::alloc::{AllocError, AllocFailed};

/// Why there is no snapshot of a shard.
#[derive(Clone, Copy)]
pub enum SnapshotFault {
    /// Memory was refused.
    Memory,
    /// The text that was made doesn't restore the shard: this line, from 1 on, is damaged so. It is a
    /// fault of the service, and nothing that memory or a device can cause.
    NotRestored(u64, Damage),
    /// The text that was made restores another shard. It is such a fault too.
    OtherShard,
}

impl From<RestoreFault> for SnapshotFault {
    ghost use Rattle.snapshot_writing.specs.Faults.{fault_of};

    ghost from_gives = { λ fault e. e ≡ fault_of fault };

    fn from(fault: RestoreFault) -> SnapshotFault {
        match fault {
            RestoreFault::Damaged(line, damage) => SnapshotFault::NotRestored(line, damage),
            // Nothing is read where a text is made.
            RestoreFault::Memory | RestoreFault::Read(_) => SnapshotFault::Memory,
        }
    }
}

impl From<AllocError> for SnapshotFault {
    ghost from_gives = { λ _ e. e ≡ Memory };

    fn from(_error: AllocError) -> SnapshotFault {
        SnapshotFault::Memory
    }
}

impl<T: Drop> From<AllocFailed<T>> for SnapshotFault {
    ghost from_gives = { λ _ e. e ≡ Memory };

    fn from(_error: AllocFailed<T>) -> SnapshotFault {
        SnapshotFault::Memory
    }
}
