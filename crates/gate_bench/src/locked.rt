//! Steps under locks, one round each counter.

use crate::Outcome;
use gate::Object;
use gate_counter::Counter;
use std::alloc::{AllocError, Global};
use std::rt::Clock;
use std::sync::{Mutex, Wait};
use std::thread::Threads;
use std::time::{Duration, Instant};
use std::{io, thread};

/// A counter, and the steps that it has made, where they are kept.
#[derive(Drop)]
struct Kept {
    counter: Counter,
    record: Option<Vec<(u8, u64)>>,
}

impl Kept {
    fn new(alloc: Global, keeps: bool) -> Kept {
        Kept {
            counter: Counter::at(0),
            record: keeps.then(|| Vec::new(alloc)),
        }
    }

    /// A step in the two halves that the gate makes it in.
    fn step(&mut self, number: u8, request: u64) -> Result<u64, AllocError> {
        if let Some(record) = &mut self.record {
            record.push((number, request))?;
        }
        let plan = self.counter.prepare(&request)?;
        Ok(self.counter.commit(plan))
    }
}

/// So many new counters under locks.
fn counters(alloc: Global, count: usize, keeps: bool) -> Result<Vec<Mutex<Kept>>, AllocError> {
    let mut all = Vec::new(alloc);
    for _ in 0..count {
        all.push(Mutex::new(Kept::new(alloc, keeps)))?;
    }
    Ok(all)
}

/// Adds 1 on the counters in turn, so many times.
fn step_in_turn<R: Wait>(rt: &R, counters: &Vec<Mutex<Kept>>, number: u8, steps: u64) {
    let mut place = 0;
    for _ in 0..steps {
        let Some(counter) = counters.get(place) else {
            return;
        };
        let _ = counter.lock(rt).step(number, 1);
        place = if place + 1 < counters.len() {
            place + 1
        } else {
            0
        };
    }
}

/// What the counters come to.
fn sum(counters: Vec<Mutex<Kept>>) -> u64 {
    let mut sum: u64 = 0;
    for counter in counters {
        sum = sum.saturating_add(counter.into_inner().counter.value());
    }
    sum
}

/// So many threads step on the counters at the same time. How long that takes.
fn step_together<R: Wait + Threads + Sync + Clock + AllocGlobal>(
    rt: &R,
    counters: &Vec<Mutex<Kept>>,
    threads: usize,
    steps: u64,
) -> io::Result<Duration> {
    let began = Instant::now(rt)?;
    thread::map_indices(
        rt,
        rt.alloc(),
        threads,
        &move |i| { step_in_turn(rt, counters, (i % 256) as u8, steps) },
    )?;
    began.elapsed(rt)
}

/// Steps of so many threads on counters under locks, with a record each or without.
pub(crate) fn step_under_locks<R: Wait + Threads + Sync + Clock + AllocGlobal>(
    rt: &R,
    threads: usize,
    slots: usize,
    steps: u64,
    keeps: bool,
) -> io::Result<Outcome> {
    let counters = counters(rt.alloc(), slots, keeps)?;
    let took = step_together(rt, &counters, threads, steps)?;
    let sum = sum(counters);
    Ok(Outcome { sum, took })
}
