//! What is so of every content that a record leaves, as laws that a caller can cite. A service that is
//! opened from records begins with such contents.
#![tactic(auto)]

pub mod laws;
