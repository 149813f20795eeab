//! Commands as a record has them: each with every key of its type, and back.
#![tactic(auto)]

mod commands;
mod known;
mod older;
mod put_external;
mod put_policy;
mod reading;

pub use commands::put_commands;
pub use known::{
    known_commands, known_id, known_if_id, known_if_run, known_if_text, known_run, known_text,
};
pub use older::{all_count, factors_in, put_older_commands};
pub use reading::AllCommands;
