//! The program `rotor-explain`, over the current folder and the standard output.
#![tactic(auto)]

use explain_main::run;
use std::process::ExitCode;

fn main(rt: HostRuntime) -> ExitCode {
    run(&rt)
}
