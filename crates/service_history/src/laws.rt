//! What is so of the records and the tickets of a service that was opened without records.

ghost use Rattle.service_history.specs.Laws.{ClosedMayBeMerged, MergedIsTheHistory};

use service::histories_are_in_order;

/// What the service gives when it is closed meets the condition of [`history::merged`].
pub fn closed_records_may_be_merged()
    ensures { ClosedMayBeMerged }
{}

/// What is merged is the one history of all shards: each shard's record is its part of it, and what
/// comes before a step in it grounds that step. At every place of it, for every pair of shards, the
/// acknowledged transfers begin the accepted ones, and these begin the issued ones: none is lost,
/// doubled or invented.
pub fn what_is_merged_is_the_history()
    ensures { MergedIsTheHistory }
{
    histories_are_in_order();
}
