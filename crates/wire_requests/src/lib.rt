//! A line, read as what it asks of a service: a barrier, a call in its lane, or the refusal that
//! names its first faulty field. The fields of each operation are read in the order in which PROFILE
//! lists them.
//!
//! Rules: L3, L5.
#![tactic(auto)]

mod activities;
mod activity_commands;
mod calls;
mod commands;
mod ends;
mod external_commands;
mod op;
mod operations;
mod polls;
mod retry_policy;
mod starts;
mod tasks;
mod turns;

pub use calls::{Asked, LaneCall, LineReader, read_line};
pub use commands::{CommandType, each_command};
pub use ends::{request_cancel, terminate};
pub use operations::{read, signal};
pub use retry_policy::counts_as;
pub use starts::{signal_with_start, start};
pub use tasks::{is_workflow, task_of_kind};
