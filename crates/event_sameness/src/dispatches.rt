//! Whether two dispatches are the same.

ghost use Rattle.std.specs.Prelude.{◌≡◌, IsTrue};

use crate::names::is_same_task_kind;
use service_model_types::content::Dispatch;
use service_model_types::request::Hint;

/// Whether two dispatches are the same: the queues, and what is pushed to them.
pub fn is_same_dispatch(one: &Dispatch, other: &Dispatch) -> bool
    ensures same { IsTrue result → one.now ≡ other.now }
    ensures found { one.now ≡ other.now → IsTrue result }
{
    one.queue == other.queue && is_same_hint(one.hint, other.hint)
}

fn is_same_hint(one: Hint, other: Hint) -> bool
    ensures same { IsTrue result → one ≡ other }
    ensures found { one ≡ other → IsTrue result }
{
    is_same_task_kind(one.kind, other.kind)
        && one.shard == other.shard
        && one.run == other.run
        && one.event == other.event
        && one.attempt == other.attempt
}
