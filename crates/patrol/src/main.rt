//! The program: does what its words ask for, and ends with the status of the run.
#![tactic(auto)]

use sg_cli::run_process;
use std::process::ExitCode;

fn main(rt: HostRuntime) -> ExitCode {
    run_process(&rt)
}
