//! Keys that only records have.

ghost use Rattle.std.specs.Prelude.{◌≡◌, Ok, Err, MatchResult};
ghost use Rattle.wf_event_values.specs.Gives.{Gives};
ghost use Rattle.wire_record_rows.specs.Keys.{keyed, inner, shard_in};

use std::alloc::Global;
use wf_event_values::{Field, Refusal};
use wire_fields::FieldValue;
use wire_trees::Tree;

/// A key that has to be there.
pub fn keyed<T: FieldValue, V: Tree>(alloc: Global, object: &V, key: &str) -> Result<T, Refusal>
    ensures { Gives result (keyed T.value_of key.now (V.stands_for object.now)) }
{
    match object.member(key) {
        Some(value) => T::from_value(alloc, Field::Line, value),
        None => Err(Refusal::InvalidArgument(Field::Line)),
    }
}

/// The value under a key.
pub fn inner<'a, V: Tree>(object: &'a V, key: &str) -> Result<&'a V, Refusal>
    ensures { MatchResult result (λ v. inner key.now (V.stands_for object.now) ≡ Ok (V.stands_for v.now))
        (λ e. inner key.now (V.stands_for object.now) ≡ Err e) }
{
    match object.member(key) {
        Some(value) => Ok(value),
        None => Err(Refusal::InvalidArgument(Field::Line)),
    }
}

/// The shard that a number is.
pub fn shard_in(number: u64) -> Result<u16, Refusal>
    ensures { result ≡ shard_in number }
{
    match u16::try_from(number) {
        Ok(shard) => Ok(shard),
        Err(_) => Err(Refusal::InvalidArgument(Field::Line)),
    }
}
