//! The program over a runtime: its words, its current folder and its standard output.
ghost use Rattle.std.specs.Prelude.{◌≡◌, ◌⊎◌};
ghost use Rattle.std.specs.Process.{exit_status};
ghost use Rattle.explain_main.specs.declared.code.ExitStatus.{ExitStatus};
ghost use Rattle.explain_main.specs.Code.{code_of};

use crate::code::ExitStatus;
use crate::explanation::explain_words;
use std::fs::File;
use std::process::ExitCode;
use std::rt::{Env, Files};
use std::{env, io};
use tree_io::{HostSink, HostTree};

/// The exit code if the system refused the words for another reason than want of memory.
const NO_WORDS: u8 = 7;

/// Explains what `rotor` would answer to the words behind the program's name, over the current folder and the standard
/// output, and returns the code of its status. If there is no memory for the words, the code is that of `Memory`; if
/// the system refuses them for another reason, it is 7. Then the folder and the output are not called.
pub fn run<R: Env + Files<File = File> + Print + AllocGlobal>(rt: &R) -> ExitCode
    ensures { (exit_status result ≡ 7) ⊎ ((status : ExitStatus) × (exit_status result ≡ code_of status)) }
{
    let words = match words_of(rt) {
        Ok(words) => words,
        Err(error) if error.kind() == io::ErrorKind::OutOfMemory => {
            return exit_code(ExitStatus::Memory);
        }
        Err(_) => return ExitCode::from(NO_WORDS),
    };
    let mut tree = HostTree::new(rt);
    let mut out = HostSink::new(rt);
    exit_code(explain_words(rt.alloc(), &words, &mut tree, &mut out))
}

/// The exit code of a status.
fn exit_code(status: ExitStatus) -> ExitCode
    ensures { exit_status result ≡ code_of status }
{
    ExitCode::from(status.code())
}

/// The words behind the program's name.
fn words_of<R: Env + AllocGlobal>(rt: &R) -> io::Result<Vec<String>> {
    let mut words = Vec::new(rt.alloc());
    for word in env::args(rt)?.skip(1) {
        words.push(word)?;
    }
    Ok(words)
}
