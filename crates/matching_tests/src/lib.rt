//! Task queues over threads: what no contract says about them, that hints get through and that calls
//! find memory.
#![tactic(auto)]

#[cfg(test)]
mod tests;
