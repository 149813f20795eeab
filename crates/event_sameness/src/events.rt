//! Whether two events are the same.

ghost use Rattle.std.specs.Prelude.{◌≡◌, IsTrue};

use crate::activities::is_same_of_activity;
use crate::children::is_same_of_child;
use crate::externals::is_same_of_external;
use crate::runs::is_same_of_run;
use crate::tasks::is_same_of_task;
use crate::timers::is_same_of_timer_or_marker;
use crate::values::is_same_moment;
use wf_event::{Attributes, Event};

/// Whether two events are the same.
pub fn is_same_event(one: &Event, other: &Event) -> bool
    ensures same { IsTrue result → one.now ≡ other.now }
    ensures found { one.now ≡ other.now → IsTrue result }
{
    one.id == other.id
        && is_same_moment(one.at, other.at)
        && is_same_attributes(&one.attributes, &other.attributes)
}

/// Whether two events are of one kind and carry the same.
pub fn is_same_attributes(one: &Attributes, other: &Attributes) -> bool
    ensures same { IsTrue result → one.now ≡ other.now }
    ensures found { one.now ≡ other.now → IsTrue result }
{
    is_same_of_run(one, other)
        || is_same_of_task(one, other)
        || is_same_of_activity(one, other)
        || is_same_of_timer_or_marker(one, other)
        || is_same_of_child(one, other)
        || is_same_of_external(one, other)
}
