//! `gate_bench [STEPS]`: counters on which threads step through a gate, and under locks.
//!
//! 1, 2 and 4 threads step on 1 slot and on 16, each thread on all slots in turn. Without STEPS they
//! make a few steps, and what the counters come to is printed, which is the same every time. With
//! STEPS each thread makes so many, and the steps per second of all threads are printed too, with
//! the ratio of the gate's to the locks'.
#![tactic(auto)]

ghost use Rattle.std.specs.Prelude.{◌≤◌};

mod locked;
mod stepped;

use crate::locked::step_under_locks;
use crate::stepped::step_through_gate;
use std::io::{self, ErrorKind};
use std::rt::{Clock, Env};
use std::sync::Wait;
use std::thread::Threads;
use std::time::Duration;

/// The steps of each thread where no number is given.
const FEW: u64 = 160;

/// What the counters come to together, and how long that took.
#[derive(Clone, Copy)]
pub(crate) struct Outcome {
    pub(crate) sum: u64,
    pub(crate) took: Duration,
}

impl Outcome {
    /// Steps per second.
    fn rate(self) -> u128 {
        u128::from(self.sum).saturating_mul(1_000_000) / self.took.as_micros().max(1)
    }

    /// This outcome's rate in hundredths of the other's.
    fn hundredths_of(self, other: Outcome) -> u128 {
        self.rate().saturating_mul(100) / other.rate().max(1)
    }
}

/// The number of steps that the command line asks for, if any.
///
/// # Errors
/// `InvalidInput` for a word that is no number; those of reading the command line.
fn steps_asked<R: Env + AllocGlobal>(rt: &R) -> io::Result<Option<u64>> {
    let mut words = std::env::args(rt)?;
    words.next();
    let Some(word) = words.next() else {
        return Ok(None);
    };
    match word.parse() {
        Ok(steps) => Ok(Some(steps)),
        Err(_) => Err(io::Error::from(ErrorKind::InvalidInput)),
    }
}

/// Prints a rate, and the ratio of the gate's to it.
fn print_beside<R: Print>(rt: &R, gate: Outcome, name: &str, other: Outcome) -> io::Result<()> {
    let ratio = gate.hundredths_of(other);
    println!(rt;
        "    {name} {} steps/s, ratio {}.{:02}",
        other.rate(),
        ratio / 100,
        ratio % 100
    )
}

/// Makes the steps of one case in each way, and prints what came of it.
fn compare<R: Wait + Threads + Sync + Clock + Print + AllocGlobal>(
    rt: &R,
    asked: Option<u64>,
    threads: usize,
    slots: usize,
) -> io::Result<()>
    requires threads { threads ≤ 4 }
    requires slots { (1 ≤ slots) × (slots ≤ 16) }
{
    let steps = asked.unwrap_or(FEW);
    let gate = step_through_gate(rt, threads, slots, steps)?;
    let lock = step_under_locks(rt, threads, slots, steps, false)?;
    let kept = step_under_locks(rt, threads, slots, steps, true)?;
    println!(rt;
        "threads {threads}, slots {slots}: gate {}, locks {}, locks with records {}",
        gate.sum, lock.sum, kept.sum
    )?;
    if asked.is_some() {
        println!(rt; "    gate {} steps/s", gate.rate())?;
        print_beside(rt, gate, "locks", lock)?;
        print_beside(rt, gate, "locks with records", kept)?;
    }
    Ok(())
}

fn main(rt: HostRuntime) -> io::Result<()> {
    let asked = steps_asked(&rt)?;
    compare(&rt, asked, 1, 1)?;
    compare(&rt, asked, 2, 1)?;
    compare(&rt, asked, 4, 1)?;
    compare(&rt, asked, 1, 16)?;
    compare(&rt, asked, 2, 16)?;
    compare(&rt, asked, 4, 16)
}
