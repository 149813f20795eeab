//! What a line of a snapshot says.

use service_model_types::content::Dispatch;
use service_model_types::journal::Note;
use service_model_types::transfer::Transfer;
use wf_event::Event;
use wf_event_values::{Id, Items, Moment, Span};

/// What the shard was opened with; its queues are told at each opening.
#[derive(Drop)]
pub struct Head {
    pub service: u64,
    pub shard: u16,
    pub shards: u16,
    /// For how long a run is kept that has closed; for ever where it is 0.
    pub retention: Span,
}

/// Notes that are alike: so many of them were made at one moment on the activity that this event
/// scheduled.
#[derive(Drop)]
pub struct NotePiece {
    pub activity: u64,
    pub at: Moment,
    pub note: Note,
    /// At least 1.
    pub times: u32,
}

/// What a shard has counted.
#[derive(Drop)]
pub struct CountedPiece {
    /// How many dispatches were counted.
    pub dispatched: u64,
    /// How many transfers were accepted of each shard.
    pub accepted: Items<u64>,
    /// How many transfers each shard acknowledged.
    pub acknowledged: Items<u64>,
}

/// A transfer that waits for its acknowledgement.
#[derive(Drop)]
pub struct TransferPiece {
    pub to: u16,
    /// As it is delivered: this shard, its number there and what it says.
    pub transfer: Transfer,
}

/// The end of a snapshot.
#[derive(Clone, Copy)]
pub struct EndPiece {
    /// The moment of the shard's last step.
    pub last: Moment,
    /// How many lines came before.
    pub lines: u64,
}

/// What a line of a snapshot says.
#[derive(Drop)]
pub enum Piece {
    /// The first line.
    Head(Head),
    /// So many places of runs that were deleted.
    Gone(u64),
    /// An event of the run, under its number in the run. The one with id 1 begins a run.
    Event(Event),
    /// The request id that made the next event.
    Request(Id),
    Note(NotePiece),
    Counted(CountedPiece),
    /// A dispatch that waits to be counted.
    Dispatch(Dispatch),
    /// A transfer that was issued, and that its shard has not acknowledged.
    Transfer(TransferPiece),
    /// The last line.
    End(EndPiece),
}
