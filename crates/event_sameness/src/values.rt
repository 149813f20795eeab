//! Whether two plain values, or two optional ones, are the same.

ghost use Rattle.std.specs.Prelude.{◌≡◌, option_copied, IsTrue};

use wf_event::payloads::Parent;
use wf_event_values::{Moment, RunId, Span, Text};

/// Whether two moments are the same.
pub(crate) fn is_same_moment(one: Moment, other: Moment) -> bool
    ensures same { IsTrue result → one ≡ other }
    ensures found { one ≡ other → IsTrue result }
{
    one.millis() == other.millis()
}

/// Whether two durations are the same.
pub(crate) fn is_same_span(one: Span, other: Span) -> bool
    ensures same { IsTrue result → one ≡ other }
    ensures found { one ≡ other → IsTrue result }
{
    one.millis() == other.millis()
}

/// Whether two names of runs are the same.
pub(crate) fn is_same_run(one: RunId, other: RunId) -> bool
    ensures same { IsTrue result → one ≡ other }
    ensures found { one ≡ other → IsTrue result }
{
    one == other
}

/// Whether two parents are the same.
pub(crate) fn is_same_parent(one: Parent, other: Parent) -> bool
    ensures same { IsTrue result → one ≡ other }
    ensures found { one ≡ other → IsTrue result }
{
    is_same_run(one.run, other.run) && one.event == other.event
}

/// Whether two optional texts are the same.
pub(crate) fn is_same_optional_text(one: Option<&Text>, other: Option<&Text>) -> bool
    ensures same { IsTrue result → option_copied one.entry ≡ option_copied other.entry }
    ensures found { option_copied one.entry ≡ option_copied other.entry → IsTrue result }
{
    match (one, other) {
        (Some(one), Some(other)) => one == other,
        (None, None) => true,
        _ => false,
    }
}

/// Whether two optional names of runs are the same.
pub(crate) fn is_same_optional_run(one: Option<RunId>, other: Option<RunId>) -> bool
    ensures same { IsTrue result → one ≡ other }
    ensures found { one ≡ other → IsTrue result }
{
    match (one, other) {
        (Some(one), Some(other)) => is_same_run(one, other),
        (None, None) => true,
        _ => false,
    }
}

/// Whether two optional parents are the same.
pub(crate) fn is_same_optional_parent(one: Option<Parent>, other: Option<Parent>) -> bool
    ensures same { IsTrue result → one ≡ other }
    ensures found { one ≡ other → IsTrue result }
{
    match (one, other) {
        (Some(one), Some(other)) => is_same_parent(one, other),
        (None, None) => true,
        _ => false,
    }
}

/// Whether two optional numbers are the same.
pub(crate) fn is_same_optional_number(one: Option<u64>, other: Option<u64>) -> bool
    ensures same { IsTrue result → one ≡ other }
    ensures found { one ≡ other → IsTrue result }
{
    match (one, other) {
        (Some(one), Some(other)) => one == other,
        (None, None) => true,
        _ => false,
    }
}

/// Whether two lists of texts are the same.
pub(crate) fn are_same_texts(ours: &[Text], theirs: &[Text]) -> bool
    ensures same { IsTrue result → ours.now ≡ theirs.now }
    ensures found { ours.now ≡ theirs.now → IsTrue result }
{
    ours == theirs
}
