//! How long a pass stays away from a slot that it found taken.
ghost use Rattle.std.specs.Prelude.{◌≡◌, ◌≤◌};

use std::thread;

/// The most yields between two tries.
const MOST_YIELDS: u32 = 64;

/// The pauses between one step's tries: after the nth try that found the slot taken, `2^n` yields,
/// and at most 64. A slot is left soon, so the first pauses are short; where many passes want one
/// slot, longer ones leave the processor to the pass that is inside.
///
/// A yield is no step on a slot, so no contract speaks of it.
#[derive(Drop)]
pub(crate) struct Pauses {
    yields: u32,
    ghost few: { yields ≤ 64 },
}

impl Pauses {
    pub(crate) fn new() -> Pauses {
        Pauses { yields: 2 }
    }

    /// Yields so many times, and twice as many the next time.
    pub(crate) fn pause(&mut self) {
        for _ in 0..self.yields {
            thread::yield_now();
        }
        self.yields = (self.yields * 2).min(MOST_YIELDS);
    }
}
