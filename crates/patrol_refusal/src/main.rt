//! The same program once more, for the gate: a run that ends with another status than 0, and prints nothing.
#![tactic(auto)]

use sg_cli::run_process;
use std::process::ExitCode;

fn main(rt: HostRuntime) -> ExitCode {
    run_process(&rt)
}
