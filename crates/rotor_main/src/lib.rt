//! The program over a runtime: its words, its current folder and its standard output.
#![tactic(auto)]

ghost use Rattle.std.specs.Prelude.{◌≡◌, ◌⊎◌, None, map, string_bytes};
ghost use Rattle.std.specs.Process.{exit_status};
ghost use Rattle.cli_words.specs.Words.{command_of};
ghost use Rattle.command_replies.specs.declared.status.Status.{Status};
ghost use Rattle.command_replies.specs.Status.{code_of};
ghost use Rattle.rotor_run.specs.Run.{IsRun};

use command_replies::Status;
use rotor_run::run_command;
use std::fs::File;
use std::process::ExitCode;
use std::rt::{Env, Files};
use std::{env, io};
use tree_io::{HostSink, HostTree};

/// The exit code if the system refused the words for another reason than want of memory.
const NO_WORDS: u8 = 7;

/// Runs the command of the words behind the program's name, over the current folder and the standard output, and
/// returns the code of its status. If there is no memory for the words, the code is that of `Memory`; if the system
/// refuses them for another reason, it is 7. Then the folder and the output are not called.
pub fn run<R: Env + Files<File = File> + Print + AllocGlobal>(rt: &R) -> ExitCode
    ensures { (exit_status result ≡ 7) ⊎ ((status : Status) × (exit_status result ≡ code_of status)) }
{
    match words_of(rt) {
        Ok(words) => run_words(rt, &words),
        Err(error) if error.kind() == io::ErrorKind::OutOfMemory => exit_code(Status::Memory),
        Err(_) => ExitCode::from(NO_WORDS),
    }
}

/// Runs the command of the words over the current folder and the standard output, and returns the code of its status.
fn run_words<R: Files<File = File> + Print + AllocGlobal>(rt: &R, words: &[String]) -> ExitCode
    ensures { (status : Status) × IsRun (command_of (map string_bytes words.now)) None None None None status × (exit_status result ≡ code_of status) }
{
    let mut out = HostSink::new(rt);
    let ended = run_command(rt.alloc(), words, HostTree::new(rt), &mut out);
    exit_code(ended.status)
}

/// The exit code of a status.
fn exit_code(status: Status) -> ExitCode
    ensures { exit_status result ≡ code_of status }
{
    ExitCode::from(status.code())
}

/// The words behind the program's name.
fn words_of<R: Env + AllocGlobal>(rt: &R) -> io::Result<Vec<String>> {
    let mut words = Vec::new(rt.alloc());
    for word in env::args(rt)?.skip(1) {
        words.push(word)?;
    }
    Ok(words)
}
