//! Fields that are required, that have a default, or that may be missing.
//!
//! They are inlined: a line has most of the optional fields not, and a call costs more than the look-up.

ghost use Rattle.std.specs.Prelude.{◌≡◌};
ghost use Rattle.wf_event_values.specs.Gives.{Gives};
ghost use Rattle.wire_fields.specs.Fields.{required, or_default, optional};

use crate::kinds::FieldValue;
use std::alloc::Global;
use wf_event_values::{Field, Refusal};
use wire_trees::Tree;

/// A field that has to be there: one that is missing is an invalid argument.
#[inline(always)]
pub fn required<T: FieldValue, V: Tree>(
    alloc: Global,
    object: &V,
    field: Field,
) -> Result<T, Refusal>
    ensures { Gives result (required T.value_of field (V.stands_for object.now)) }
{
    match object.member(field.name()) {
        Some(value) => T::from_value(alloc, field, value),
        None => Err(Refusal::InvalidArgument(field)),
    }
}

/// A field, or its default where it is missing.
#[inline(always)]
pub fn or_default<T: FieldValue + Drop, V: Tree>(
    alloc: Global,
    object: &V,
    field: Field,
    default: T,
) -> Result<T, Refusal>
    ensures { Gives result (or_default T.value_of default field (V.stands_for object.now)) }
{
    match object.member(field.name()) {
        Some(value) => T::from_value(alloc, field, value),
        None => Ok(default),
    }
}

/// A field, where it is there.
#[inline(always)]
pub fn optional<T: FieldValue, V: Tree>(
    alloc: Global,
    object: &V,
    field: Field,
) -> Result<Option<T>, Refusal>
    ensures { Gives result (optional T.value_of field (V.stands_for object.now)) }
{
    match object.member(field.name()) {
        Some(value) => Ok(Some(T::from_value(alloc, field, value)?)),
        None => Ok(None),
    }
}
