//! Bytes, cut into lines.
#![tactic(auto)]

ghost use Rattle.std.specs.Prelude.{◌≡◌, [], List, ℕ};
ghost use Rattle.wire_lines.specs.Lines.{before_last, parts};
ghost use Rattle.wire_lines.specs.Pending.{ended};

mod line;

pub use line::cut;

/// The lines that end in a text, as it comes in by parts, are all of its parts but the last.
pub fn lines_end_at_line_feeds()
    ensures { (text : List ℕ) → ended [] text ≡ before_last (parts text) }
{}
