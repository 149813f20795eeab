//! The lines that ask a shard for a turn.
//!
//! Rules: L8.

ghost use Rattle.std.specs.Prelude.{◌≡◌};
ghost use Rattle.wf_event_values.specs.Gives.{Gives};
ghost use Rattle.wire_requests.specs.Turns.{dispatch_turn_of, shard_in, stop_in, timer_turn_of, transfer_turn_of};

use service_model_types::call::{DispatchTurn, Stop, TimerTurn, TransferTurn};
use service_model_types::settings::Settings;
use std::alloc::Global;
use wf_event_values::{Field, Moment, Refusal};
use wire_fields::{or_default, required};
use wire_trees::Tree;

/// The shard that a number names: one that is there, else this field is at fault.
fn shard_in(settings: &Settings, field: Field, number: u64) -> Result<u16, Refusal>
    ensures { result ≡ shard_in settings.now field number }
{
    match u16::try_from(number) {
        Ok(shard) if number < settings.shards => Ok(shard),
        _ => Err(Refusal::InvalidArgument(field)),
    }
}

/// Where a turn ends, by the number of parts after which it does: 0 is the end, and 1 and 2 come before.
fn stop_in(parts: u64) -> Result<Stop, Refusal>
    ensures { result ≡ stop_in parts }
{
    match parts {
        0 => Ok(Stop::AtEnd),
        1 => Ok(Stop::AfterFirstPart),
        2 => Ok(Stop::AfterSecondPart),
        _ => Err(Refusal::InvalidArgument(Field::Stop)),
    }
}

#[tactic(auto, unfolding(crate::specs::Turns::timer_turn_of))]
pub(crate) fn timer_turn<V: Tree>(
    alloc: Global,
    settings: &Settings,
    at: Moment,
    line: &V,
) -> Result<TimerTurn, Refusal>
    ensures { Gives result (timer_turn_of settings.now at (V.stands_for line.now)) }
{
    let shard = shard_in(settings, Field::Shard, required(alloc, line, Field::Shard)?)?;
    Ok(TimerTurn { shard, at })
}

#[tactic(auto, unfolding(crate::specs::Turns::dispatch_turn_of))]
pub(crate) fn dispatch_turn<V: Tree>(
    alloc: Global,
    settings: &Settings,
    at: Moment,
    line: &V,
) -> Result<DispatchTurn, Refusal>
    ensures { Gives result (dispatch_turn_of settings.now at (V.stands_for line.now)) }
{
    let shard = shard_in(settings, Field::Shard, required(alloc, line, Field::Shard)?)?;
    let stop = stop_in(or_default(alloc, line, Field::Stop, 0)?)?;
    Ok(DispatchTurn { shard, stop, at })
}

#[tactic(auto, unfolding(crate::specs::Turns::transfer_turn_of))]
pub(crate) fn transfer_turn<V: Tree>(
    alloc: Global,
    settings: &Settings,
    at: Moment,
    line: &V,
) -> Result<TransferTurn, Refusal>
    ensures { Gives result (transfer_turn_of settings.now at (V.stands_for line.now)) }
{
    let from = shard_in(settings, Field::From, required(alloc, line, Field::From)?)?;
    let to = shard_in(settings, Field::To, required(alloc, line, Field::To)?)?;
    let stop = stop_in(or_default(alloc, line, Field::Stop, 0)?)?;
    Ok(TransferTurn { from, to, stop, at })
}
