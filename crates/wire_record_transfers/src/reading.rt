//! The transfer that a JSON value has.

ghost use Rattle.wf_event_values.specs.Gives.{Gives};
ghost use Rattle.wire_record_transfers.specs.Reading.{transfer_of};

use crate::contents::content;
use service_model_types::transfer::Transfer;
use std::alloc::Global;
use wf_event_values::{Field, Refusal};
use wire_fields::required;
use wire_record_rows::{inner, keyed, shard_in};
use wire_trees::Tree;

/// The transfer that a JSON value has. Its keys may stand in another order, and others beside them.
#[tactic(auto, unfolding(crate::specs::Reading::transfer_of))]
pub fn transfer<V: Tree>(alloc: Global, object: &V) -> Result<Transfer, Refusal>
    ensures { Gives result (transfer_of (V.stands_for object.now)) }
{
    let from = shard_in(required(alloc, object, Field::From)?)?;
    let kind = keyed(alloc, object, "kind")?;
    let number = keyed(alloc, object, "number")?;
    let content = content(alloc, kind, inner(object, "content")?)?;
    Ok(Transfer {
        from,
        number,
        content,
    })
}
