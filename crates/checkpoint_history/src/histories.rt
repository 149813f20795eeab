//! What is so of the records and the tickets of a service whose shards went on from contents in order,
//! as the snapshots of one moment spell them.

ghost use Rattle.checkpoint_history.specs.Histories.{LeavesInOrder, MergedGoesOn, OpenedIsBegun, ResumedInOrder, ResumedIsBegun, SinceMayBeMerged};

use crate::laws::{openings_are_in_order, transfers_go_on};

/// What such a service did since its opening meets the condition of [`history::merged`].
pub fn records_since_may_be_merged()
    ensures { SinceMayBeMerged }
{}

/// What is merged is the one history of all shards since the opening: each shard's record since then is
/// its part of it, and what comes before a step in it, or was there at the start, grounds that step. At
/// every place of it, for every pair of shards, no more transfers are acknowledged than accepted, no more
/// accepted than issued, and those accepted since the start are those issued under the next numbers: none
/// is lost, doubled or invented, also none of those that were on their way as the snapshots were made.
pub fn what_is_merged_goes_on()
    ensures { MergedGoesOn }
{
    transfers_go_on();
}

/// The contents that the shards have at the close are in order again: their snapshots are of one moment.
pub fn what_is_left_is_in_order()
    ensures { LeavesInOrder }
{
    transfers_go_on();
}

/// A service that was opened without records is one of these.
pub fn opened_services_begin_in_order()
    ensures { OpenedIsBegun }
{
    openings_are_in_order();
}

/// A service that was resumed goes on from what the shards' records leave of the contents at which they
/// were given: where those are in order, its history since then goes on so.
pub fn resumed_services_begin_there()
    ensures begun { ResumedIsBegun }
    ensures ordered { ResumedInOrder }
{}
