//! What a field's value is read as.

ghost use Rattle.std.specs.Prelude.{◌≡◌, Ok, Err, MatchResult, map};
ghost use Rattle.std.specs.Option.{ok_or};
ghost use Rattle.wf_event_values.specs.Gives.{Gives};
ghost use Rattle.wf_event_values.specs.declared.refusal.Refusal.TheVariants.{InvalidArgument};
ghost use Rattle.wire_fields.specs.Kinds.{string_of, text_of, id_of, number_of, moment_of, span_of, flag_of, run_of, token_of, array_of, elements_of, reuse_of, reuse_named, conflict_of, conflict_named, parent_close_of, parent_close_named};

use std::alloc::Global;
use task_token::{RunText, TaskToken};
use wf_event_values::{
    ConflictPolicy, Field, Id, Moment, ParentClosePolicy, Refusal, ReusePolicy, RunId, Span, Text,
};
use wire_trees::Tree;

/// A type that a field's value is read as.
pub trait FieldValue: Sized {
    ghost use Rattle.std.specs.Prelude.{Result};
    ghost use Rattle.serde_json.specs.Data.{Data};
    ghost use Rattle.wf_event_values.specs.declared.field.Field.{Field};
    ghost use Rattle.wf_event_values.specs.declared.refusal.Refusal.{Refusal};

    ghost value_of: { Field → Data → Result Self Refusal };

    /// The value, or the refusal that it gives under the name of this field.
    fn from_value<V: Tree>(alloc: Global, field: Field, value: &V) -> Result<Self, Refusal>
        ensures { Gives result (value_of field (V.stands_for value.now)) };
}

/// The text of a value; one of another kind is an invalid argument.
fn string<V: Tree>(field: Field, value: &V) -> Result<&str, Refusal>
    ensures { MatchResult result (λ text. string_of field (V.stands_for value.now) ≡ Ok text.now)
        (λ e. string_of field (V.stands_for value.now) ≡ Err e) }
{
    value.text().ok_or(Refusal::InvalidArgument(field))
}

impl FieldValue for Text {
    ghost value_of = { text_of };

    fn from_value<V: Tree>(alloc: Global, field: Field, value: &V) -> Result<Text, Refusal> {
        Text::new(alloc, field, string(field, value)?)
    }
}

impl FieldValue for Id {
    ghost value_of = { id_of };

    fn from_value<V: Tree>(alloc: Global, field: Field, value: &V) -> Result<Id, Refusal> {
        Id::new(alloc, field, string(field, value)?)
    }
}

impl FieldValue for u64 {
    ghost value_of = { number_of };

    fn from_value<V: Tree>(_alloc: Global, field: Field, value: &V) -> Result<u64, Refusal> {
        value.whole_number().ok_or(Refusal::InvalidArgument(field))
    }
}

impl FieldValue for Moment {
    ghost value_of = { moment_of };

    fn from_value<V: Tree>(alloc: Global, field: Field, value: &V) -> Result<Moment, Refusal> {
        Moment::new(field, u64::from_value(alloc, field, value)?)
    }
}

impl FieldValue for Span {
    ghost value_of = { span_of };

    fn from_value<V: Tree>(alloc: Global, field: Field, value: &V) -> Result<Span, Refusal> {
        Span::new(field, u64::from_value(alloc, field, value)?)
    }
}

impl FieldValue for bool {
    ghost value_of = { flag_of };

    fn from_value<V: Tree>(_alloc: Global, field: Field, value: &V) -> Result<bool, Refusal> {
        value.truth().ok_or(Refusal::InvalidArgument(field))
    }
}

impl FieldValue for RunId {
    ghost value_of = { run_of };

    /// A text that is no run id is `NotFound`.
    fn from_value<V: Tree>(_alloc: Global, field: Field, value: &V) -> Result<RunId, Refusal> {
        RunId::read(string(field, value)?)
    }
}

impl FieldValue for TaskToken {
    ghost value_of = { token_of };

    /// A text that is no token is `InvalidToken`.
    fn from_value<V: Tree>(alloc: Global, field: Field, value: &V) -> Result<TaskToken, Refusal> {
        TaskToken::read(alloc, string(field, value)?)
    }
}

/// The elements of an array; a value of another kind is an invalid argument.
pub fn array<V: Tree>(field: Field, value: &V) -> Result<&[V], Refusal>
    ensures { MatchResult result
        (λ elements. array_of field (V.stands_for value.now)
        ≡ Ok (map V.stands_for elements.now))
        (λ e. array_of field (V.stands_for value.now) ≡ Err e) }
{
    match value.values() {
        Some(elements) => Ok(elements),
        None => Err(Refusal::InvalidArgument(field)),
    }
}

/// The elements of an array; a longer array than that, or a value of another kind, is an invalid argument.
pub fn elements<V: Tree>(field: Field, most: usize, value: &V) -> Result<&[V], Refusal>
    ensures { MatchResult result
        (λ elements. elements_of most field (V.stands_for value.now)
        ≡ Ok (map V.stands_for elements.now))
        (λ e. elements_of most field (V.stands_for value.now) ≡ Err e) }
{
    let elements = array(field, value)?;
    if elements.len() > most {
        return Err(Refusal::InvalidArgument(field));
    }
    Ok(elements)
}

fn reuse_named(name: &str) -> Option<ReusePolicy>
    ensures { result ≡ reuse_named name.now }
{
    match name {
        "AllowDuplicate" => Some(ReusePolicy::AllowDuplicate),
        "AllowDuplicateFailedOnly" => Some(ReusePolicy::AllowDuplicateFailedOnly),
        "RejectDuplicate" => Some(ReusePolicy::RejectDuplicate),
        _ => None,
    }
}

impl FieldValue for ReusePolicy {
    ghost value_of = { reuse_of };

    fn from_value<V: Tree>(
        _alloc: Global,
        field: Field,
        value: &V,
    ) -> Result<ReusePolicy, Refusal> {
        reuse_named(string(field, value)?).ok_or(Refusal::InvalidArgument(field))
    }
}

fn conflict_named(name: &str) -> Option<ConflictPolicy>
    ensures { result ≡ conflict_named name.now }
{
    match name {
        "Fail" => Some(ConflictPolicy::Fail),
        "UseExisting" => Some(ConflictPolicy::UseExisting),
        "TerminateExisting" => Some(ConflictPolicy::TerminateExisting),
        _ => None,
    }
}

impl FieldValue for ConflictPolicy {
    ghost value_of = { conflict_of };

    fn from_value<V: Tree>(
        _alloc: Global,
        field: Field,
        value: &V,
    ) -> Result<ConflictPolicy, Refusal> {
        conflict_named(string(field, value)?).ok_or(Refusal::InvalidArgument(field))
    }
}

fn parent_close_named(name: &str) -> Option<ParentClosePolicy>
    ensures { result ≡ parent_close_named name.now }
{
    match name {
        "Terminate" => Some(ParentClosePolicy::Terminate),
        "Abandon" => Some(ParentClosePolicy::Abandon),
        "RequestCancel" => Some(ParentClosePolicy::RequestCancel),
        _ => None,
    }
}

impl FieldValue for ParentClosePolicy {
    ghost value_of = { parent_close_of };

    fn from_value<V: Tree>(
        _alloc: Global,
        field: Field,
        value: &V,
    ) -> Result<ParentClosePolicy, Refusal> {
        parent_close_named(string(field, value)?).ok_or(Refusal::InvalidArgument(field))
    }
}
