//! Why a snapshot is not restored.

ghost use Rattle.std.specs.Prelude.{◌≡◌};
ghost use Rattle.shard_snapshot.specs.declared.fault.RestoreFault.TheVariants.{Memory};

use crate::damage::Damage;
use std::alloc::AllocError;
use std::io;

/// Why a snapshot is not restored.
#[derive(Drop)]
pub enum RestoreFault {
    /// Memory was refused.
    Memory,
    /// The reader failed, with this.
    Read(io::Error),
    /// The line of this number, from 1 on, is damaged so. It is never `NoMemory`.
    Damaged(u64, Damage),
}

impl From<AllocError> for RestoreFault {
    ghost from_gives = { λ _ e. e ≡ Memory };

    fn from(_error: AllocError) -> RestoreFault {
        RestoreFault::Memory
    }
}
