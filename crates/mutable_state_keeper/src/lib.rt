//! A run, whatever keeps it. Contracts see its state, and its room for more facts.
//!
//! `KeepsRun` has the few questions that each way to keep a run answers for itself. All others are
//! answered once, by `Run`, from these.
//!
//! The service keeps its runs by tables. A run that is kept by its journal alone serves to test them.
#![tactic(auto)]

mod keeps_run;
mod kept_history;
mod readings;
mod run;
mod start;
mod tables;
mod tells_run;

pub use keeps_run::KeepsRun;
pub use kept_history::KeptHistory;
pub use run::Run;
pub use start::Start;
pub use tells_run::TellsRun;
