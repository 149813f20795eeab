//! What is said about records that took long to restore.

use service_model_types::request::Request;
use std::io;
use std::rt::Clock;
use std::time::{Duration, Instant};
use step_record::Record;

/// How many steps the records have.
fn steps_in(records: &[Record<Request>]) -> u64 {
    let mut steps: u64 = 0;
    for one in records {
        steps = steps.saturating_add(one.len() as u64);
    }
    steps
}

/// Says on standard error how many steps were restored from this path, where that took longer than a
/// second.
pub(crate) fn say_restored<H: Clock, P: Eprint>(
    rt: &H,
    process: &P,
    path: &str,
    began: io::Result<Instant>,
    records: &[Record<Request>],
) {
    let Ok(spent) = began.and_then(|began| began.elapsed(rt)) else {
        return;
    };
    if spent >= Duration::from_secs(1) {
        let steps = steps_in(records);
        let _ = eprintln!(process; "wfserve: {path}: {steps} steps restored");
    }
}
