//! The program `wfserve [--shards N] [--passes P] [--service K] [--queues NAMES] [--capacity C]
//! [--retention MS] [--load DIR] [--save DIR] [--snapshot DIR] [--journal DIR] [--trace] [FILE]`, over
//! whatever gives it its arguments and takes what it writes.
//!
//! It serves each line of FILE, or of standard input, and prints one reply line for each but the
//! barriers: one after another with one pass, in a lane for each pass where there are more. With
//! `--load` it goes on from the snapshots or the records in that folder, one file of each shard, or from
//! the journal in it. At the end it writes records with `--save`, and snapshots with `--snapshot`. With
//! `--journal` it goes on from the journal in that folder, and prints the replies to what one read gave
//! once their steps are on the disk. A journal goes on from its checkpoint, where it has one. With
//! `--trace` it prints, after the last reply, a line for each step of any shard, in the order of their
//! tickets.
//!
//! Its exit status is 0, or 1 where a reply was a refusal, or 2 for a fault, whose text goes to
//! standard error. Faults are looked for in this order: the command line, the file, the folders to
//! write in, the snapshots or records, the settings' ranges, the opening, and then reading, writing and
//! memory, and last what is written at the end; with a journal the settings' ranges come before the
//! folder and the journal.
#![tactic(auto)]

mod checkpoint;
mod fault;
mod journal;
mod journal_faults;
mod journal_start;
mod loading;
mod paths;
mod program;
mod records;
mod restored;
mod served;
mod snapshots;

pub use fault::Fault;
pub use journal::LockFiles;
pub use program::{run, status};
pub use served::{Served, WithJournal};
