//! What is so of transfers in runs from contents that were there before.

ghost use Rattle.checkpoint_history.specs.Orders.{NeverAgain, OpeningsAreInOrder, TransfersGoOn};

/// In any run of all shards in which what comes before each step grounds it, from contents in which no
/// more transfers are acknowledged than accepted, and no more accepted than issued: so it is at every
/// place of the run, and what was accepted since is what was issued under the next numbers, in order.
pub fn transfers_go_on()
    ensures { TransfersGoOn }
{}

/// What a shard had accepted at the start it never accepts again: a delivery of it is answered
/// `AlreadyDelivered`, or refused, and changes nothing but the shard's last moment and its number of
/// steps.
pub fn what_was_accepted_is_over()
    ensures { NeverAgain }
{}

/// Shards without runs are in order, and what is so of a run from there is what
/// [`transfers_are_in_order`](service_model::transfers_are_in_order) says.
pub fn openings_are_in_order()
    ensures { OpeningsAreInOrder }
{}
