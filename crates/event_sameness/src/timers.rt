//! Whether two events say the same about a timer or a marker.

ghost use Rattle.std.specs.Prelude.{◌≡◌, IsTrue};
ghost use Rattle.event_sameness.specs.Groups.{group, OfTimerOrMarker};

use crate::values::is_same_span;
use wf_event::Attributes;
use wf_event::payloads::{MarkerRecorded, TimerEnd, TimerStarted};

/// Whether both are of one kind that speaks of a timer or a marker, and carry the same.
#[tactic(auto, unfolding(crate::specs::Groups::group))]
pub(crate) fn is_same_of_timer_or_marker(one: &Attributes, other: &Attributes) -> bool
    ensures same { IsTrue result → one.now ≡ other.now }
    ensures found { group one.now ≡ OfTimerOrMarker → one.now ≡ other.now → IsTrue result }
{
    match (one, other) {
        (Attributes::TimerStarted(one), Attributes::TimerStarted(other)) => {
            is_same_timer(one, other)
        }
        (Attributes::TimerFired(one), Attributes::TimerFired(other)) => {
            is_same_timer_end(one, other)
        }
        (Attributes::TimerCanceled(one), Attributes::TimerCanceled(other)) => {
            is_same_timer_end(one, other)
        }
        (Attributes::MarkerRecorded(one), Attributes::MarkerRecorded(other)) => {
            is_same_marker(one, other)
        }
        _ => false,
    }
}

fn is_same_timer(one: &TimerStarted, other: &TimerStarted) -> bool
    ensures same { IsTrue result → one.now ≡ other.now }
    ensures found { one.now ≡ other.now → IsTrue result }
{
    one.timer_id == other.timer_id && is_same_span(one.duration, other.duration)
}

fn is_same_timer_end(one: &TimerEnd, other: &TimerEnd) -> bool
    ensures same { IsTrue result → one.now ≡ other.now }
    ensures found { one.now ≡ other.now → IsTrue result }
{
    one.timer_id == other.timer_id && one.started == other.started
}

fn is_same_marker(one: &MarkerRecorded, other: &MarkerRecorded) -> bool
    ensures same { IsTrue result → one.now ≡ other.now }
    ensures found { one.now ≡ other.now → IsTrue result }
{
    one.name == other.name && one.details == other.details
}
