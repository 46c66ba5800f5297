//! What is said of a word over the files of a project.
ghost use Rattle.std.specs.Prelude.{◌≡◌, ◌≤◌, Err, IfOk, All, length, map};
ghost use Rattle.rotor_base.specs.Limits.{max_file_bytes, max_sources};
ghost use Rattle.value_sites.specs.Sound.{IsSound};
ghost use Rattle.ml_trees.specs.View.{view_project};
ghost use Rattle.binding_model.specs.Facts.{facts as facts_of};
ghost use Rattle.rename_files.specs.Answer.{Accepts, Checks};
ghost use Rattle.rename_project.specs.Steps.{IsRefusedFor};
ghost use Rattle.refusal_words.specs.Cut.{view_cut};
ghost use Rattle.cli_words.specs.Target.{target_of};
ghost use Rattle.explain_at.specs.At.{IsRejected, SaysAt, SaysOver, SaysTarget, no_place as no_place_of};

use crate::place::refuse_at;
use crate::spot::explain_spot;
use cli_words::read_target;
use explain::{Explanation, explain_check};
use messages::{Message, join_words, shown_word};
use ml_trees::Project;
use project_reading::read_project;
use refusal_words::{CutSource, cut_sources, explain_nameless};
use rename_project::resolve;
use rotor_base::{Facts, Files, Memory, Refusal, SourceFile, Target};
use std::alloc::Global;
use text_places::Position;

/// What is said of the value at a place of the files of a project. The word is `FILE:LINE:COLUMN`, with lines and
/// columns from 1, and columns in bytes. If the token there declares or uses a value of the folder, it is the target of
/// its declaration, `FILE#N`. The one error is want of memory.
pub fn explain_at(alloc: Global, files: &Files, word: &str) -> Result<Explanation, Memory>
    ensures { IfOk result (SaysAt files.now word.now) }
{
    let read = match read_project(alloc, files) {
        Ok(read) => read,
        Err(why) => return explain_rejected_folder(alloc, files, &why),
    };
    match resolve(alloc, &read.project) {
        Ok(resolved) => explain_over(alloc, files, &read.project, &resolved.facts, word),
        Err(why) => explain_rejected_folder(alloc, files, &why),
    }
}

/// What is said of a folder that is refused: what `check` says of it.
fn explain_rejected_folder(
    alloc: Global,
    files: &Files,
    why: &Refusal,
) -> Result<Explanation, Memory>
    requires { IsRefusedFor (λ w. Checks files.now (Err w)) why.now }
    ensures { IfOk result (IsRejected files.now) }
{
    match why {
        Refusal::Memory => Err(Memory),
        _ => explain_check(alloc, files),
    }
}

/// What is said of a word over the files of a project that is accepted.
fn explain_over(
    alloc: Global,
    files: &Files,
    project: &Project,
    facts: &Facts,
    word: &str,
) -> Result<Explanation, Memory>
    requires sound { IsSound (view_project project.now) }
    requires accepts { Accepts files.now (view_project project.now) }
    requires facts { facts.now ≡ facts_of (view_project project.now) }
    ensures { IfOk result (SaysOver files.now word.now) }
{
    let sources = files.entries();
    let cuts = cut_sources(alloc, sources)?;
    explain_word(alloc, project, facts, sources, &cuts, word)
}

/// What is said of a word over sources that are cut.
fn explain_word(
    alloc: Global,
    project: &Project,
    facts: &Facts,
    sources: &[SourceFile],
    cuts: &[CutSource<'_>],
    word: &str,
) -> Result<Explanation, Memory>
    requires sound { IsSound (view_project project.now) }
    requires facts { facts.now ≡ facts_of (view_project project.now) }
    requires few { length sources.now ≤ max_sources }
    requires same { length sources.now ≡ length cuts.now }
    requires small { All (λ cut. length cut.tokens.items ≤ max_file_bytes) cuts.now }
    ensures { IfOk result (SaysTarget sources.now (view_project project.now) (map view_cut cuts.now) word.now (target_of word.now)) }
{
    match read_target(alloc, word)? {
        Target::Spot { file, line, column } => {
            let here = Position { line, column };
            explain_spot(alloc, project, facts, sources, cuts, file.as_bytes(), here)
        }
        Target::At { .. } | Target::Dotted(_) => refuse_at(alloc, no_place(alloc, word)?),
    }
}

/// The message of a word that is no `FILE:LINE:COLUMN`.
fn no_place(alloc: Global, word: &str) -> Result<Message, Memory>
    ensures { IfOk result (λ message. message ≡ no_place_of word.now) }
{
    let word = shown_word(alloc, word.as_bytes())?;
    let text = join_words(alloc, &[b"`", word.as_slice(), b"` is no FILE:LINE:COLUMN"])?;
    explain_nameless(alloc, text)
}
