//! Room on a thread's heap.

use std::alloc::Global;

/// How many bytes: a good part of what a thread keeps of one batch.
const ROOM: usize = 1_048_576;

/// Makes room on the heap of the thread that calls this.
///
/// The C library has a heap for each thread, and grows it by a page at a time, for which each thread waits
/// for all others. What is taken at once and given back stays there.
pub(crate) fn make_room(alloc: Global) {
    let _ = Vec::<u8>::with_capacity(alloc, ROOM);
}
