//! A long list of numbers of which most are 0. Where all of a page are 0 it takes no memory.
#![tactic(auto)]

mod numbers;
mod page;
mod pages;

pub use numbers::SparseNumbers;
