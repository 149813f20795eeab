//! What is so of records and of the shards that are opened from them, as laws that a caller can cite.

ghost use Rattle.script.specs.OpeningLaws.{OpensEmpty};
ghost use Rattle.script.specs.RecordLaws.{RecordsGrow, RecordsTellContents, RecordsTellSteps};

/// Without records nothing was done: each shard is as it is opened, no hint waits, and the shards'
/// records are empty.
pub fn without_records_nothing_was_done()
    ensures { OpensEmpty }
{}

/// Records keep all that was done: after any lines each shard is what its record makes of it, so a
/// service that is opened from these records goes on where the lines ended. A record only grows, by
/// the steps on its shard, in their order among all steps.
pub fn records_keep_what_was_done()
    ensures contents { RecordsTellContents }
    ensures grow { RecordsGrow }
    ensures steps { RecordsTellSteps }
{}
