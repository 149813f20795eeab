//! The page that JSON texts are written on, token by token.
#![tactic(auto)]

mod page;

pub use page::Page;
