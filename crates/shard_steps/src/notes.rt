//! Notes on activities.

ghost use Rattle.std.specs.Prelude.{◌≡◌, ◌∷◌, [], IfOk};
ghost use Rattle.service_model.specs.Outcome.{noted};

use service_model_types::journal::{Fact, Note, NoteFact};
use std::alloc::{AllocError, Global};
use wf_event_values::Items;

/// A note on an activity.
pub fn note_facts(alloc: Global, activity: u64, note: Note) -> Result<Items<Fact>, AllocError>
    ensures { IfOk result (λ facts. facts ≡ noted activity note ∷ []) }
{
    let mut facts = Vec::new(alloc);
    facts.push(Fact::Note(NoteFact { activity, note }))?;
    Ok(Items::from_vec(facts))
}
