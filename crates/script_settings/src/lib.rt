//! What the words of the command line set:
//! `wfserve [--shards N] [--passes P] [--service K] [--queues NAMES] [--capacity C] [--retention MS]
//! [--load DIR] [--save DIR] [--snapshot DIR] [--journal DIR] [--trace] [FILE]`.
#![tactic(auto)]

mod command_line;
mod fault;
mod queues;
mod words;

pub use command_line::CommandLine;
pub use fault::Fault;
pub use words::settings_of;
