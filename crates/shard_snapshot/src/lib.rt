//! A shard restored from its snapshot, piece by piece.
#![tactic(auto)]

ghost use Rattle.std.specs.Prelude.{◌≡◌, ℕ, List, Some};
ghost use Rattle.service_model_types.specs.declared.content.Content.{Content};
ghost use Rattle.service_model_types.specs.declared.content.Setup.{Setup};
ghost use Rattle.shard_snapshot.specs.Found.{content_in};
ghost use Rattle.shard_snapshot.specs.Stages.{IsOfShard, Spells};

mod damage;
mod ends;
mod fault;
mod restoring;
mod text;
mod writing;

pub use damage::Damage;
pub use fault::RestoreFault;
pub use restoring::Restoring;
pub use text::{restore, restore_text};
pub use writing::Writing;

/// A content that a text spells is one of a shard with the text's setup: it counts what it accepted of
/// each shard, and its dispatches name it.
pub fn spelled_contents_are_of_their_shard()
    ensures { (setup : Setup) (text : List ℕ) (S : Content)
        → Spells setup text S → IsOfShard setup S }
{}

/// A text spells one content, which is found by its lines.
pub fn texts_spell_one_content()
    ensures one { (setup : Setup) (text : List ℕ) (S T : Content)
        → Spells setup text S → Spells setup text T → S ≡ T }
    ensures found { (setup : Setup) (text : List ℕ) (S : Content)
        → Spells setup text S → content_in setup text ≡ Some S }
{}
