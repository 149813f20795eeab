//! What the holder of a seat at a queue knows. No value of these types is made.
use service_model_types::request::Hint;
use std::collections::LinkedList;

/// Whose a view is.
pub enum Holder {
    Nobody,
    Pass,
    /// What a pass tells another.
    Note,
    /// What makes the passes.
    Maker,
}

/// What a pass has seen and done.
pub struct Part {
    pub number: u64,
    pub put: LinkedList<(u8, Hint)>,
    pub taken: LinkedList<(u8, Hint)>,
    pub pushed: LinkedList<(u8, Hint)>,
    pub popped: LinkedList<(u8, Hint)>,
}

/// What the holder of a seat at a queue knows. The rule ties it to what the queue holds.
pub struct View {
    pub kind: Holder,
    /// The pass's number.
    pub number: u64,
    /// How many passes were made.
    pub made: u64,
    /// How many passes there are in all.
    pub given: u64,
    /// How many shards there are: each hint names one of them.
    pub shards: u64,
    /// How many hints the queue has room for.
    pub capacity: u64,
    /// The hints that it was opened with.
    pub opened: LinkedList<Hint>,
    /// All that was put, as it was seen last, each hint with the number of the pass that pushed it.
    pub put: LinkedList<(u8, Hint)>,
    /// All that was taken, each hint with the number of the pass that popped it.
    pub taken: LinkedList<(u8, Hint)>,
    /// The pass's own pushes.
    pub pushed: LinkedList<(u8, Hint)>,
    /// The pass's own pops.
    pub popped: LinkedList<(u8, Hint)>,
    /// What a note told of what was put, before it is compared.
    pub told_put: LinkedList<(u8, Hint)>,
    /// The same of what was taken.
    pub told_taken: LinkedList<(u8, Hint)>,
    /// What passes knew that were handed in to this one at the close.
    pub handed: LinkedList<Part>,
}
