//! The tasks whose dispatches were counted.
//!
//! Rules: J5.

ghost use Rattle.std.specs.Prelude.{◌≡◌, IfOk};
ghost use Rattle.service_model.specs.Waiting.{not_handed_over};
ghost use Rattle.shard_issued.specs.HandedOver.{HasKeys, key_of};

use crate::dispatches::Dispatches;
use indexmap::IndexSet;
use service_model_types::content::Dispatch;
use service_model_types::request::Hint;
use std::alloc::{AllocError, Global};
use std::collections::VecDeque;

/// What tells the tasks of a shard apart: the run's ordinal, the event that scheduled the task, and
/// the number of its attempt.
type TaskKey = (u64, u64, u32);

impl Dispatches {
    /// Those of these tasks that none of the dispatches that wait hands over, in their order.
    ///
    /// # Errors
    /// Where memory was refused.
    pub fn not_handed_over(
        &self,
        alloc: Global,
        tasks: Vec<Dispatch>,
    ) -> Result<Vec<Dispatch>, AllocError>
        ensures { IfOk result (λ left.
            left.items ≡ not_handed_over self.now.waiting.items tasks.items) }
    {
        let keys = keys_of(alloc, &self.waiting)?;
        let mut left = tasks;
        left.retain(|task| !keys.contains(&key_of(&task.hint)));
        Ok(left)
    }
}

fn key_of(hint: &Hint) -> TaskKey
    ensures { result ≡ key_of hint.now }
{
    (hint.run, hint.event, hint.attempt)
}

/// The keys of the tasks that these dispatches hand over.
fn keys_of(alloc: Global, waiting: &VecDeque<Dispatch>) -> Result<IndexSet<TaskKey>, AllocError>
    ensures { IfOk result (λ keys. HasKeys keys waiting.now.items) }
{
    let mut keys = IndexSet::new(alloc);
    for index in 0..waiting.len() {
        let dispatch = &waiting[index];
        keys.insert(key_of(&dispatch.hint))?;
    }
    Ok(keys)
}
