//! Objects as rows in the order of their keys, rows written on a page, and values read by the keys that
//! only records have.
#![tactic(auto)]

ghost use Rattle.std.specs.Prelude.{◌≡◌, ◌≤◌, ℕ, Some, false, IsUtf8};
ghost use Rattle.serde_json.specs.Data.{Data};
ghost use Rattle.serde_json.specs.Read.{read};
ghost use Rattle.serde_json.specs.Written.{compact_text};
ghost use Rattle.wire_record_rows.specs.Plain.{IsPlain, HasUtf8, has_feed};

mod keys;
mod put;

pub use keys::{inner, keyed, shard_in};
pub use put::{put_if_count, put_if_id, put_if_number, put_if_run, put_if_span, put_if_text};

/// The text of a plain value reads as the value.
pub fn plain_texts_read_again()
    ensures { (n : ℕ) (d : Data) → n ≤ 127 → IsPlain n d → read (compact_text d) ≡ Some d }
{}

/// The text of a plain value is one line.
pub fn plain_texts_are_one_line()
    ensures { (n : ℕ) (d : Data) → IsPlain n d → has_feed (compact_text d) ≡ false }
{}

/// The text of a plain value whose texts are UTF-8 is UTF-8.
pub fn plain_texts_are_utf8()
    ensures { (n : ℕ) (d : Data) → IsPlain n d → HasUtf8 d → IsUtf8 (compact_text d) }
{}
