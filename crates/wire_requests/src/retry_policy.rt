//! A retry policy, as a command has it (Temporal, Retry Policies).
//!
//! Rules: L9.

ghost use Rattle.std.specs.Prelude.{◌≡◌, [], map};
ghost use Rattle.wf_event_values.specs.Gives.{Gives};
ghost use Rattle.wire_fields.specs.Kinds.{text_of};
ghost use Rattle.wire_fields.specs.Steps.{for_each};
ghost use Rattle.wire_requests.specs.RetryPolicies.{texts_of, counts_as, growth_of, policy_fields_of, policy_of, default_policy};

use std::alloc::Global;
use std::marker::Model;
use wf_event::payloads::PolicyFields;
use wf_event_values::{Field, Items, Refusal, Text};
use wire_fields::{FieldValue, array, or_default};
use wire_trees::Tree;

/// A list of texts, as a field's value.
#[derive(Drop)]
struct Texts {
    all: Items<Text>,
}

impl Model for Texts {
    ghost use Rattle.std.specs.Prelude.{List, ℕ};

    ghost Value = { List (List ℕ) };

    ghost view = { λ t. t.all };
}

/// All texts, or the fault of the first faulty one.
fn each_text<V: Tree>(alloc: Global, field: Field, values: &[V]) -> Result<Items<Text>, Refusal>
    ensures { Gives result (for_each (text_of field) (map V.stands_for values.now)) }
{
    let mut texts = Vec::new(alloc);
    for value in values {
        texts.push(Text::from_value(alloc, field, value)?)?;
    }
    Ok(Items::from_vec(texts))
}

impl FieldValue for Texts {
    ghost value_of = { texts_of };

    fn from_value<V: Tree>(alloc: Global, field: Field, value: &V) -> Result<Texts, Refusal> {
        let all = each_text(alloc, field, array(field, value)?)?;
        Ok(Texts { all })
    }
}

/// A retry policy, as a field's value.
#[derive(Drop)]
pub(crate) struct Policy {
    pub(crate) fields: PolicyFields,
}

impl Model for Policy {
    ghost use Rattle.wf_event.specs.declared.payloads.PolicyFields.{PolicyFields};

    ghost Value = { PolicyFields };

    ghost view = { λ p. p.fields };
}

impl Policy {
    /// That of a command that names none.
    pub(crate) fn by_default(alloc: Global) -> Policy
        ensures { result ≡ default_policy }
    {
        Policy {
            fields: PolicyFields {
                attempts: 0,
                coefficient: 200,
                initial: 1000,
                maximum: 0,
                non_retryable: Items::from_vec(Vec::new(alloc)),
            },
        }
    }
}

/// What a whole factor counts as, in hundredths: one above a thousand as the first coefficient that
/// is out of range.
pub fn counts_as(factor: u64) -> u64
    ensures { result ≡ counts_as factor }
{
    if factor <= 1000 {
        100 * factor
    } else {
        100_001
    }
}

/// A policy's coefficient, in hundredths. It may be written as a whole factor, but not as both.
fn growth<V: Tree>(alloc: Global, object: &V) -> Result<u64, Refusal>
    ensures { Gives result (growth_of (V.stands_for object.now)) }
{
    let coefficient = object.member(Field::Coefficient.name());
    let factor = object.member(Field::Factor.name());
    match (coefficient, factor) {
        (None, None) => Ok(200),
        (Some(value), None) => u64::from_value(alloc, Field::Coefficient, value),
        (None, Some(value)) => Ok(counts_as(u64::from_value(alloc, Field::Factor, value)?)),
        (Some(_), Some(_)) => Err(Refusal::InvalidArgument(Field::Coefficient)),
    }
}

#[tactic(auto, unfolding(crate::specs::RetryPolicies::policy_fields_of))]
fn policy_fields<V: Tree>(alloc: Global, object: &V) -> Result<PolicyFields, Refusal>
    ensures { Gives result (policy_fields_of (V.stands_for object.now)) }
{
    let none = Texts {
        all: Items::from_vec(Vec::new(alloc)),
    };
    let attempts = or_default(alloc, object, Field::Attempts, 0)?;
    let coefficient = growth(alloc, object)?;
    let initial = or_default(alloc, object, Field::Initial, 1000)?;
    let maximum = or_default(alloc, object, Field::Maximum, 0)?;
    let types = or_default(alloc, object, Field::NonRetryable, none)?;
    Ok(PolicyFields {
        attempts,
        coefficient,
        initial,
        maximum,
        non_retryable: types.all,
    })
}

impl FieldValue for Policy {
    ghost value_of = { policy_of };

    fn from_value<V: Tree>(alloc: Global, field: Field, value: &V) -> Result<Policy, Refusal> {
        if !value.has_members() {
            return Err(Refusal::InvalidArgument(field));
        }
        let fields = policy_fields(alloc, value)?;
        Ok(Policy { fields })
    }
}
