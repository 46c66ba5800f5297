//! How many warnings a folder has, in one line.
ghost use Rattle.std.specs.Prelude.{◌≡◌, IfOk, map};
ghost use Rattle.ml_lexer.specs.Lexed.{view_tokens};
ghost use Rattle.ml_trees.specs.View.{view_project};
ghost use Rattle.project_reading.specs.Reads.{Reads};
ghost use Rattle.project_reading.specs.Sources.{AreCut};
ghost use Rattle.difference_words.specs.Warnings.{CountsWarnings, count_line as count_line_of, named as named_of};

use crate::folder::folder_differences;
use messages::{format_count, join_words};
use project_reading::Read;
use rotor_base::{Files, Memory, Row};
use std::alloc::Global;

/// A line that says in how many places OCaml may read a folder otherwise; if there is none, nothing. The one error is
/// want of memory.
#[tactic(auto, using(crate::proofs::Warned::line_known))]
pub fn counted_differences(alloc: Global, files: &Files, read: &Read<'_>) -> Result<Row<u8>, Memory>
    requires reads { Reads files.now (view_project read.now.project) }
    requires cut { AreCut files.now.entries (map (λ list. view_tokens list.items) read.now.tokens.items) }
    ensures { IfOk result (CountsWarnings files.now) }
{
    let list = folder_differences(alloc, files, read)?;
    Ok(count_line(alloc, list.as_slice().len() as u64)?)
}

/// The line of a number of places.
fn count_line(alloc: Global, count: u64) -> Result<Row<u8>, Memory>
    ensures { IfOk result (λ line. line ≡ count_line_of count) }
{
    if count == 0 {
        return Ok(Row::new(alloc));
    }
    let places = format_count(alloc, count, "place")?;
    join_words(
        alloc,
        &[
            b"warning: in ",
            places.as_slice(),
            b" OCaml may read this folder otherwise; `rotor-explain check` names ",
            choose_pronoun(count),
            b"\n",
        ],
    )
}

/// How the sentence names so many places.
fn choose_pronoun(count: u64) -> &'static [u8]
    ensures { result.now ≡ named_of count }
{
    if count == 1 { b"it" } else { b"them" }
}
