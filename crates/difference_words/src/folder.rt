//! The warnings of a folder.
ghost use Rattle.std.specs.Prelude.{◌≡◌, IfOk, map};
ghost use Rattle.ml_lexer.specs.Lexed.{view_tokens};
ghost use Rattle.ml_trees.specs.View.{view_project};
ghost use Rattle.project_reading.specs.Reads.{Reads};
ghost use Rattle.project_reading.specs.Sources.{AreCut};
ghost use Rattle.reading_differences.specs.Differences.{AreDifferences};
ghost use Rattle.refusal_words.specs.Cut.{AreCuts, view_cut};
ghost use Rattle.difference_words.specs.Warning.{warning_of as warning_for};
ghost use Rattle.difference_words.specs.Warnings.{AreWarnings, AreWarningsOf};

use crate::warning::warning_of;
use messages::Message;
use project_reading::Read;
use reading_differences::{Difference, differences};
use refusal_words::{CutSource, cut_sources};
use rotor_base::{Files, Memory, Row};
use std::alloc::Global;

/// The warnings of a folder that is read as a project, in the order of their places. The one error is want of memory.
#[tactic(auto, using(crate::proofs::Warned::warned))]
pub fn warnings(alloc: Global, files: &Files, read: &Read<'_>) -> Result<Row<Message>, Memory>
    requires reads { Reads files.now (view_project read.now.project) }
    requires cut { AreCut files.now.entries (map (λ list. view_tokens list.items) read.now.tokens.items) }
    ensures { IfOk result (AreWarnings files.now) }
{
    let list = folder_differences(alloc, files, read)?;
    Ok(warnings_of(alloc, files, list.as_slice())?)
}

/// The places at which OCaml may read a folder otherwise.
#[tactic(auto, using(crate::proofs::Warned::differences_known))]
pub(crate) fn folder_differences(
    alloc: Global,
    files: &Files,
    read: &Read<'_>,
) -> Result<Row<Difference>, Memory>
    requires reads { Reads files.now (view_project read.now.project) }
    requires cut { AreCut files.now.entries (map (λ list. view_tokens list.items) read.now.tokens.items) }
    ensures { IfOk result (AreDifferences files.now) }
{
    Ok(differences(alloc, files, read)?)
}

/// The warnings of places of a folder.
#[tactic(auto, using(crate::proofs::Warned::none_said, crate::proofs::Warned::some_said))]
fn warnings_of(alloc: Global, files: &Files, list: &[Difference]) -> Result<Row<Message>, Memory>
    ensures { IfOk result (AreWarningsOf files.now list.now) }
{
    if list.is_empty() {
        return Ok(Row::new(alloc));
    }
    let cuts = cut_sources(alloc, files.entries())?;
    Ok(messages_of(alloc, &cuts, list)?)
}

/// The warning of each place.
fn messages_of(
    alloc: Global,
    cuts: &[CutSource<'_>],
    list: &[Difference],
) -> Result<Row<Message>, Memory>
    ensures { IfOk result (λ messages. messages ≡ map (warning_for (map view_cut cuts.now)) list.now) }
{
    let mut messages = Vec::new(alloc);
    for difference in list {
        messages.push(warning_of(alloc, cuts, difference)?)?;
    }
    Ok(Row::from_vec(messages))
}
