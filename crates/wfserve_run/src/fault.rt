//! Why the program ends with status 2.

use script::ScriptFault;
use std::alloc::AllocError;
use std::io;
use thiserror::Error;

/// Why the program ends with status 2.
#[derive(Debug, Drop, Error)]
pub enum Fault {
    #[error("out of memory")]
    Memory(#[from(alloc)] AllocError),
    #[error("the command line: {0}")]
    Arguments(io::Error),
    #[error(transparent)]
    Words(script_settings::Fault),
    #[error("{path}: {error}")]
    File {
        path: String,
        error: io::Error,
    },
    /// This whole line of a record's file is the first that is no entry.
    #[error("{path}: line {line} is no step of a record")]
    BadRecord {
        path: String,
        line: u64,
    },
    /// There is a record of a shard that the settings leave out.
    #[error("{path}: --shards leaves this record out")]
    LeftOut {
        path: String,
    },
    /// There is a snapshot of a shard that the settings leave out.
    #[error("{path}: --shards leaves this snapshot out")]
    LeftOutSnapshot {
        path: String,
    },
    /// This line of a snapshot is the first that is damaged, and so.
    #[error("{path}: line {line}: {damage}")]
    BadSnapshot {
        path: String,
        line: u64,
        damage: &'static str,
    },
    /// A snapshot names a task queue that the settings don't have.
    #[error("{path}: it names a task queue that --queues leaves out")]
    LeftOutQueue {
        path: String,
    },
    /// Of the transfers from one shard to another more are accepted than were issued, or more are acknowledged
    /// than are accepted, by the snapshots in this folder, or of this checkpoint.
    #[error("{path}: the snapshots are not of one moment: transfers were accepted that were not issued, or acknowledged that were not accepted")]
    OutOfOrder {
        path: String,
    },
    /// The folder has a journal, and this file beside it.
    #[error("{path}: beside a journal: which of them is to be loaded?")]
    BesideJournal {
        path: String,
    },
    /// The folder has snapshots, and this record beside them.
    #[error("{path}: a record beside snapshots: which of them is to be loaded?")]
    BesideSnapshots {
        path: String,
    },
    /// Records were to be saved of a service that was opened from snapshots.
    #[error("--save writes records from the first step on, which snapshots don't have: use --snapshot")]
    SaveBehindSnapshots,
    /// The checkpoint of a journal is nothing that was written as one, or of other shards.
    #[error("{path}: no checkpoint of this version")]
    BadCheckpoint {
        path: String,
    },
    /// A snapshot isn't the one that the checkpoint was made with.
    #[error("{path}: the checkpoint was made with a snapshot of other bytes")]
    OtherSnapshot {
        path: String,
    },
    /// The journal isn't the one that the checkpoint was made of.
    #[error("{path}: the checkpoint is of another journal: no such batch ends at byte {at}")]
    OtherJournal {
        path: String,
        at: u64,
    },
    /// The text that was made of a shard would not restore it. Nothing that an operator does causes it.
    #[error("{path}: no snapshot can be made of this shard; please report it")]
    NoSnapshot {
        path: String,
    },
    #[error("standard output: {0}")]
    Output(io::Error),
    #[error(transparent)]
    Script(ScriptFault),
    /// Another process has this journal open.
    #[error("{path}: another process has this journal open")]
    InUse {
        path: String,
    },
    /// No crash leaves such a journal: what stands at this byte is nothing that was written.
    #[error("{path}: damaged at byte {at}")]
    Damaged {
        path: String,
        at: u64,
    },
    /// The journal was begun with another value of this setting.
    #[error("{path}: the journal is of another --{setting}")]
    OtherSettings {
        path: String,
        setting: &'static str,
    },
    /// The journal begins with no settings, or in a form of another version.
    #[error("{path}: no journal of this version")]
    OtherForm {
        path: String,
    },
    /// This batch of the journal's steps has a line that is no step.
    #[error("{path}: batch {batch} has a line that is no step")]
    BadBatch {
        path: String,
        batch: usize,
    },
    /// The journal's file is as long as a file can be.
    #[error("{path}: the journal is full")]
    Full {
        path: String,
    },
    /// Steps of the records were handed out to another caller than the journal, or made by one.
    #[error("steps were handed out elsewhere")]
    HandedOut,
}
