//! What is said of a folder that is checked.
ghost use Rattle.std.specs.Prelude.{◌≡◌, Err, IfOk, Ok, map};
ghost use Rattle.ml_lexer.specs.Lexed.{view_tokens};
ghost use Rattle.value_sites.specs.Sound.{IsSound};
ghost use Rattle.ml_trees.specs.View.{view_project};
ghost use Rattle.binding_model.specs.Facts.{facts as facts_of};
ghost use Rattle.project_reading.specs.Reads.{Reads};
ghost use Rattle.project_reading.specs.Sources.{AreCut};
ghost use Rattle.rename_files.specs.Answer.{Checks};
ghost use Rattle.rename_model.specs.Project.{refusals_of_project};
ghost use Rattle.rename_project.specs.Steps.{IsFreeOf, IsRefusedFor};
ghost use Rattle.explain.specs.Says.{SaysCheck, counts_text as counts_text_of};

use crate::ending::Ending;
use crate::explanation::Explanation;
use crate::opened::{Opened, open_folder};
use crate::refused::{explain_project, is_memory};
use difference_words::warnings;
use messages::{format_count, join_words};
use rotor_base::{Counts, Files, Memory, Refusal, Row};
use std::alloc::Global;
use value_places::PlacedProject;

/// What is said of the files of a project: warnings of the places at which OCaml may read them otherwise, and what they
/// have; or the first refusal of `check`, and if a source is outside the language, a message for each that is. The one
/// error is want of memory.
pub fn explain_check(alloc: Global, files: &Files) -> Result<Explanation, Memory>
    ensures { IfOk result (SaysCheck files.now) }
{
    match open_folder(alloc, files) {
        Ok(opened) => explain_checked_folder(alloc, files, &opened),
        Err(refusal) => refused_check(alloc, files, &refusal),
    }
}

/// What is said of a folder that `check` refuses.
fn refused_check(alloc: Global, files: &Files, refusal: &Refusal) -> Result<Explanation, Memory>
    requires { IsRefusedFor (λ why. Checks files.now (Err why)) refusal.now }
    ensures { IfOk result (SaysCheck files.now) }
{
    if is_memory(refusal) {
        return Err(Memory);
    }
    explain_project(alloc, files, refusal)
}

/// What is said of a folder that is read.
fn explain_checked_folder(
    alloc: Global,
    files: &Files,
    opened: &Opened<'_>,
) -> Result<Explanation, Memory>
    requires reads { Reads files.now (view_project opened.now.read.project) }
    requires sound { IsSound (view_project opened.now.read.project) }
    requires cut { AreCut files.now.entries (map (λ list. view_tokens list.items) opened.now.read.tokens.items) }
    requires passed { IsFreeOf (refusals_of_project (view_project opened.now.read.project)) }
    requires facts { opened.now.resolved.facts ≡ facts_of (view_project opened.now.read.project) }
    ensures { IfOk result (SaysCheck files.now) }
{
    let counts = counts_of(alloc, files, opened)?;
    let messages = warnings(alloc, files, &opened.read)?;
    Ok(Explanation {
        ending: Ending::Done,
        messages,
        text: counts_text(alloc, &counts)?,
        places: Row::new(alloc),
    })
}

/// What a project has.
fn counts_of(alloc: Global, files: &Files, opened: &Opened<'_>) -> Result<Counts, Memory>
    requires reads { Reads files.now (view_project opened.now.read.project) }
    requires sound { IsSound (view_project opened.now.read.project) }
    requires passed { IsFreeOf (refusals_of_project (view_project opened.now.read.project)) }
    requires facts { opened.now.resolved.facts ≡ facts_of (view_project opened.now.read.project) }
    ensures { IfOk result (λ counts. Checks files.now (Ok counts)) }
{
    let placed = PlacedProject::new(alloc, &opened.read.project)?;
    Ok(Counts {
        files: files.entries().len() as u64,
        units: opened.read.project.units.as_slice().len() as u64,
        declarations: placed.binders().len() as u64,
        references: opened.resolved.facts.refs.as_slice().len() as u64,
        links: opened.resolved.facts.links.as_slice().len() as u64,
    })
}

/// What is said of what a project has.
fn counts_text(alloc: Global, counts: &Counts) -> Result<Row<u8>, Memory>
    ensures { IfOk result (λ text. text ≡ counts_text_of counts.now) }
{
    let files = format_count(alloc, counts.files, "source")?;
    let units = format_count(alloc, counts.units, "unit")?;
    let declarations = format_count(alloc, counts.declarations, "declaration")?;
    let uses = format_count(alloc, counts.references, "use")?;
    join_words(
        alloc,
        &[
            files.as_slice(),
            b", ",
            units.as_slice(),
            b", ",
            declarations.as_slice(),
            b", ",
            uses.as_slice(),
            b": all of it is read\n",
        ],
    )
}
