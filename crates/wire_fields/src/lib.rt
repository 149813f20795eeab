//! The fields of a line that was read as a JSON object: of which kind, and whether they may be missing.
#![tactic(auto)]

mod fields;
mod kinds;

pub use fields::{optional, or_default, required};
pub use kinds::{FieldValue, array, elements};
