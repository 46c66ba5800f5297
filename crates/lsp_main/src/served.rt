//! The program over any answers, any input and any output.
ghost use Rattle.std.specs.Prelude.{◌≡◌};
ghost use Rattle.lsp_main.specs.Served.{IsServed, are_accepted};

use crate::ended::Ended;
use lsp_server::{Answers, serve};
use std::alloc::Global;
use std::io::{Read, Write};

/// Serves an editor, if each word is `--stdio`: it reads the messages of the input and writes one response for each
/// request, in order. After another word it reads and writes nothing. No folder changes.
pub fn serve_words<A: Answers, R: Read, W: Write>(
    alloc: Global,
    words: &[String],
    answers: &mut A,
    input: &mut R,
    output: &mut W,
) -> Ended
    ensures served { IsServed words.now A.replies (A.content answers.old) (R.remaining input.old) (W.contents output.old) (W.contents output.new) result }
    ensures usage { result ≡ Ended.Usage → (input.new ≡ input.old) × (output.new ≡ output.old) }
    ensures kept { A.content answers.new ≡ A.content answers.old }
{
    if !are_accepted(words) {
        return Ended::Usage;
    }
    match serve(alloc, answers, input, output) {
        Ok(status) => Ended::Served(status),
        Err(error) => Ended::Stopped(error),
    }
}

/// Whether each word is `--stdio`.
fn are_accepted(words: &[String]) -> bool
    ensures { result ≡ are_accepted words.now }
{
    words.iter().all(|word| word.as_str() == "--stdio")
}
