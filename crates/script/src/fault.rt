//! Why a script ends early.

ghost use Rattle.std.specs.Prelude.{◌≡◌};
ghost use Rattle.script.specs.declared.fault.JournaledFault.TheVariants.{Script};
ghost use Rattle.script.specs.declared.fault.ScriptFault.TheVariants.{Memory};

use std::alloc::{AllocError, AllocFailed};
use std::io;
use thiserror::Error;

/// Why a script ends early.
#[derive(Debug, Drop, Error)]
pub enum ScriptFault {
    #[error("out of memory")]
    Memory,
    #[error("reading: {0}")]
    Read(io::Error),
    #[error("writing: {0}")]
    Write(io::Error),
    /// The setting of this name is out of its range.
    #[error("--{0} is out of range")]
    Setting(&'static str),
    /// There is neither no record nor one of each shard.
    #[error("the records are neither none nor one of each shard")]
    Records,
    /// The tasks that wait in the records are more than their queues hold.
    #[error("more tasks wait in the records than their queues hold: raise --capacity")]
    QueueFull,
}

impl From<AllocError> for ScriptFault {
    ghost from_gives = { λ _ e. e ≡ Memory };

    fn from(_error: AllocError) -> ScriptFault {
        ScriptFault::Memory
    }
}

impl<T: Drop> From<AllocFailed<T>> for ScriptFault {
    ghost from_gives = { λ _ e. e ≡ Memory };

    fn from(_error: AllocFailed<T>) -> ScriptFault {
        ScriptFault::Memory
    }
}

/// Why a script with a journal ends early. Nothing more is answered then: of what a batch answered
/// nothing is told before its steps are on the disk.
#[derive(Debug, Drop, Error)]
pub enum JournaledFault {
    /// The opening, the reader, or memory.
    #[error(transparent)]
    Script(ScriptFault),
    /// The journal's file, or the stream on which replies are told.
    #[error("the journal or the replies could not be written")]
    Device,
    /// The journal's file has some 2^63 bytes.
    #[error("the journal is full")]
    Full,
    /// Steps of the shards' records were handed out to another caller, or made by one.
    #[error("steps were handed out elsewhere")]
    HandedOut,
}

impl From<ScriptFault> for JournaledFault {
    ghost from_gives = { λ e f. f ≡ Script e };

    fn from(fault: ScriptFault) -> JournaledFault {
        JournaledFault::Script(fault)
    }
}

impl From<AllocError> for JournaledFault {
    ghost from_gives = { λ _ f. f ≡ Script Memory };

    fn from(_error: AllocError) -> JournaledFault {
        JournaledFault::Script(ScriptFault::Memory)
    }
}

impl<T: Drop> From<AllocFailed<T>> for JournaledFault {
    ghost from_gives = { λ _ f. f ≡ Script Memory };

    fn from(_error: AllocFailed<T>) -> JournaledFault {
        JournaledFault::Script(ScriptFault::Memory)
    }
}
