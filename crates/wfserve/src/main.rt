//! `wfserve [OPTIONS] [FILE]`: a workflow service over lines of JSON, run over the
//! process's own files, arguments and standard streams.
#![tactic(auto)]

use std::process::ExitCode;
use wfserve_run::run;

fn main(rt: HostRuntime) -> ExitCode {
    ExitCode::from(run(&rt, &rt))
}
