//! The program over a runtime: its words, the folders of the system, its standard input and output.
ghost use Rattle.std.specs.Prelude.{◌≡◌};
ghost use Rattle.std.specs.Process.{exit_status};
ghost use Rattle.lsp_main.specs.Served.{code_of};

use crate::ended::Ended;
use crate::served::serve_words;
use document_answers::DocumentAnswers;
use folders::HostFolders;
use lsp_server::ServeError;
use std::fs::File;
use std::io::{Eprint, Input};
use std::process::ExitCode;
use std::rt::{Env, Files};
use std::{env, io};

/// Serves an editor over the folders of the system, the standard input and the standard output, and returns the status:
/// 0 after `shutdown`, else 1; 2 if a word behind the program's name is not `--stdio`. If the program stops before its
/// input ends, it says why in one line on the standard error. It says nothing else there but its usage.
pub fn run<R: Env + Files<File = File> + Print + Eprint + Input + AllocGlobal>(rt: &R) -> ExitCode {
    let ended = match words_of(rt) {
        Ok(words) => serve(rt, &words),
        Err(error) => Ended::Stopped(ServeError::Input(error)),
    };
    // the status says the same
    let _said = say(rt, &ended);
    exit_code(&ended)
}

/// Serves an editor, if the words are accepted.
fn serve<R: Env + Files<File = File> + Print + Input + AllocGlobal>(
    rt: &R,
    words: &[String],
) -> Ended {
    let mut answers = DocumentAnswers::new(HostFolders::new(rt));
    let mut input = rt.reader();
    let mut output = io::writer(rt);
    serve_words(rt.alloc(), words, &mut answers, &mut input, &mut output)
}

/// Says on the standard error what the words are to be, or why the server stopped.
fn say<R: Eprint>(rt: &R, ended: &Ended) -> io::Result<()> {
    match ended {
        Ended::Served(_) => Ok(()),
        Ended::Usage => eprintln!(rt; "usage: rotor-lsp [--stdio]"),
        Ended::Stopped(error) => eprintln!(rt; "rotor-lsp: {error}"),
    }
}

/// The exit code of an end.
fn exit_code(ended: &Ended) -> ExitCode
    ensures { exit_status result ≡ code_of ended.now }
{
    ExitCode::from(ended.code())
}

/// The words behind the program's name.
fn words_of<R: Env + AllocGlobal>(rt: &R) -> io::Result<Vec<String>> {
    let mut words = Vec::new(rt.alloc());
    for word in env::args(rt)?.skip(1) {
        words.push(word)?;
    }
    Ok(words)
}
