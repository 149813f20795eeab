//! JSON values: what they are asked, and a way to read one that copies no text.
#![tactic(auto)]

mod borrowed;
mod lengths;
mod reading;
mod tree;

pub use borrowed::BorrowedValue;
pub use reading::{Unread, borrowed_value};
pub use tree::Tree;
