//! What a shard has.
use crate::journal::JournalEntry;
use crate::request::Hint;
use crate::transfer::TransferContent;
use wf_event_values::{Id, Items, Moment, Span};

/// A shard's settings.
pub struct Setup {
    pub service: u64,
    pub shard: u16,
    pub shards: u16,
    pub queues: Items<Id>,
    /// For how long a run is kept that has closed; for ever where it is 0.
    pub retention: Span,
}

impl Drop for Setup {
    fn drop(self) {
        let Setup {
            service: _,
            shard: _,
            shards: _,
            queues: _,
            retention: _,
        } = self;
    }
}

impl Setup {
    ghost use Rattle.std.specs.Prelude.{◌≡◌};
    ghost use Rattle.service_model_types.specs.Routing.{knows_queue};

    /// Whether the service was opened with a queue of that name.
    pub fn knows_queue(&self, queue: &Id) -> bool
        ensures { result ≡ knows_queue self.now queue.now }
    {
        self.queues.as_slice().iter().any(|known| known == queue)
    }
}

/// All transfers ever issued to one shard, and how many it acknowledged.
pub struct Outgoing {
    pub issued: Items<TransferContent>,
    pub acknowledged: u64,
}

impl Drop for Outgoing {
    fn drop(self) {
        let Outgoing {
            issued: _,
            acknowledged: _,
        } = self;
    }
}

/// A hint with the queue that it is to be pushed to.
pub struct Dispatch {
    pub queue: Id,
    pub hint: Hint,
}

impl Drop for Dispatch {
    fn drop(self) {
        let Dispatch { queue: _, hint: _ } = self;
    }
}

/// A shard's content.
pub struct Content {
    pub setup: Setup,
    pub runs: Items<Items<JournalEntry>>,
    pub outgoing: Items<Outgoing>,
    pub accepted: Items<u64>,
    pub dispatches: Items<Dispatch>,
    pub dispatched: u64,
    pub last_moment: Moment,
    pub steps: u64,
}

impl Drop for Content {
    fn drop(self) {
        let Content {
            setup: _,
            runs: _,
            outgoing: _,
            accepted: _,
            dispatches: _,
            dispatched: _,
            last_moment: _,
            steps: _,
        } = self;
    }
}
