//! The texts of run ids and of task tokens: one text a value, and every other text refused.
#![tactic(auto)]

mod run;
mod token;

pub use run::{RUN_TEXT_LENGTH, RunText};
pub use token::{TOKEN_TEXT_LENGTH, TaskToken};
