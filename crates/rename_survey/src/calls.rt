//! The survey of files.

ghost use Rattle.std.specs.Prelude.{◌≡◌, List, IfErr, IfOk, Err, Ok};
ghost use Rattle.ml_trees.specs.Tree.{UnitTree};
ghost use Rattle.ml_trees.specs.View.{view_project};
ghost use Rattle.value_sites.specs.Sound.{IsSound};
ghost use Rattle.binding_model.specs.Facts.{facts as facts_of};
ghost use Rattle.binding_model.specs.Renaming.{places};
ghost use Rattle.rename_project.specs.Steps.{IsRefusedFor};
ghost use Rattle.rename_survey.specs.Survey.{binders_of, IsFirstBad, Surveys};

use crate::answer::{Binder, Survey};
use crate::binders::list_binders;
use capture_check::first_repeat;
use ml_trees::Project;
use project_reading::read_project;
use rename_parts::find_least_unmatched;
use rename_project::resolve_facts;
use rotor_base::{Facts, Files, Memory, Refusal};
use std::alloc::Global;
use value_places::PlacedProject;

/// The survey of the project that files are read as.
///
/// # Errors
///
/// The refusals of `read_project`. Else `Heavy` with the first site to end that is too heavy, also if a name occurs
/// twice in a group. `Memory`.
pub fn survey(alloc: Global, files: &Files) -> Result<Survey, Refusal>
    ensures surveyed { IfOk result (λ survey. Surveys files.now (Ok survey)) }
    ensures refused { IfErr result (IsRefusedFor (λ why. Surveys files.now (Err why))) }
{
    let read = read_project(alloc, files)?;
    let facts = resolve_facts(alloc, &read.project)?.facts;
    let (binders, bad) = look_over(alloc, &read.project, &facts)?;
    Ok(Survey {
        project: read.project,
        binders,
        facts,
        bad,
    })
}

/// The binders of a project, and its first refusal of `Duplicate` and `Unmatched`, or none. `Memory` is the only error.
fn look_over(
    alloc: Global,
    project: &Project,
    facts: &Facts,
) -> Result<(Vec<Binder>, Option<Refusal>), Memory>
    requires sound { IsSound (view_project project.now) }
    requires facts { facts.now ≡ facts_of (view_project project.now) }
    ensures binders { IfOk result (λ found. found.0.items ≡ binders_of (view_project project.now)) }
    ensures bad { IfOk result (λ found. IsFirstBad (view_project project.now) found.1) }
{
    let placed = PlacedProject::new(alloc, project)?;
    let bad = find_first_bad(alloc, &placed, facts)?;
    let binders = list_binders(alloc, &placed)?;
    Ok((binders, bad))
}

/// The first of `Duplicate` and `Unmatched` that holds of a project with these places and facts, or none. `Memory` is
/// the only error.
fn find_first_bad(
    alloc: Global,
    placed: &PlacedProject<'_>,
    facts: &Facts,
) -> Result<Option<Refusal>, Memory>
    ensures { (us : List UnitTree) → placed.now ≡ places us → facts.now ≡ facts_of us → IfOk result (IsFirstBad us) }
{
    if let Some(repeat) = first_repeat(alloc, placed, facts.groups.as_slice())? {
        return Ok(Some(Refusal::Duplicate {
            first: repeat.first,
            again: repeat.again,
        }));
    }
    match find_least_unmatched(facts.links.as_slice()) {
        None => Ok(None),
        Some(item) => Ok(Some(Refusal::Unmatched { item })),
    }
}
