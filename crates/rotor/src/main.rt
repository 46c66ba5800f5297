//! The program `rotor`, over the current folder and the standard output.
#![tactic(auto)]

use rotor_main::run;
use std::process::ExitCode;

fn main(rt: HostRuntime) -> ExitCode {
    run(&rt)
}
