//! The program in a folder in which the renaming is refused: it ends with 1.
#![tactic(auto)]

use rotor_main::run;
use std::process::ExitCode;

fn main(rt: HostRuntime) -> ExitCode {
    run(&rt)
}
