//! The program `rotor-lsp`, over the folders of the system, the standard input and the standard output.
#![tactic(auto)]

use lsp_main::run;
use std::process::ExitCode;

fn main(rt: HostRuntime) -> ExitCode {
    run(&rt)
}
