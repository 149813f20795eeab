//! How a line of a snapshot is damaged, and why a piece lays nothing.

ghost use Rattle.std.specs.Prelude.{◌≡◌};
ghost use Rattle.shard_snapshot.specs.declared.damage.Damage.TheVariants.{NoMemory};

use std::alloc::{AllocError, AllocFailed};

/// How a line of a snapshot is damaged, or why a piece lays nothing. `Settings`, `Lines`, `NoPiece` and `Cut`
/// are found in whole texts alone.
#[derive(Clone, Copy)]
pub enum Damage {
    /// A piece stands where none of its kind may come.
    Order,
    /// There isn't a count for each shard.
    Count,
    /// A fact doesn't fit its run.
    Fact,
    /// A run doesn't fit the earlier ones of its workflow ID, or the last moment.
    Run,
    /// A dispatch or a transfer is another shard's, or has another number than the next one.
    Issue,
    /// The head names other settings.
    Settings,
    /// The end counts another number of lines.
    Lines,
    /// A line is the text of no piece.
    NoPiece,
    /// The text ends before its end, or within a line.
    Cut,
    /// Memory was refused. That is no damage of the piece.
    NoMemory,
}

impl From<AllocError> for Damage {
    ghost from_gives = { λ _ damage. damage ≡ NoMemory };

    fn from(_error: AllocError) -> Damage {
        Damage::NoMemory
    }
}

impl<T: Drop> From<AllocFailed<T>> for Damage {
    ghost from_gives = { λ _ damage. damage ≡ NoMemory };

    fn from(_error: AllocFailed<T>) -> Damage {
        Damage::NoMemory
    }
}
