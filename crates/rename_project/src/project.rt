//! The refusals of a project, in their order.

ghost use Rattle.std.specs.Prelude.{◌≡◌, None, Some, IfErr, IfOk, OnOk};
ghost use Rattle.value_sites.specs.Sound.{IsSound};
ghost use Rattle.ml_trees.specs.View.{view_project};
ghost use Rattle.shape_core.specs.Node.{entries_of};
ghost use Rattle.shape_core.specs.Shape.{none};
ghost use Rattle.binding_model.specs.Facts.{facts, least, unmatched_items};
ghost use Rattle.binding_model.specs.Renaming.{places};
ghost use Rattle.rotor_base.specs.declared.place.Place.{Place};
ghost use Rattle.rotor_base.specs.declared.refusal.Refusal.TheVariants as refusal;
ghost use Rattle.binding_model.specs.Scopes.{after_units};
ghost use Rattle.binding_model.specs.Sums.{heavy};
ghost use Rattle.rename_model.specs.Project.{IsDuplicate, IsHeavy, refusals_of_project};
ghost use Rattle.rename_project.specs.Steps.{IsRefusedFor, IsFreeOf};

use capture_check::first_repeat;
use ml_trees::Project;
use mod_shape::{Resolved, facts, groups};
use rename_parts::find_least_unmatched;
use rotor_base::{Link, Refusal};
use shape_core::FactError;
use std::alloc::Global;
use value_places::PlacedProject;

/// The facts of a project and the scope after its units, if it has no refusal: no name occurs twice in a group, no site
/// is too heavy, and no link lacks its source. The caller ensures that the project is sound, as what `read_project`
/// reads is.
///
/// # Errors
///
/// The first of these that holds:
///
/// - `Duplicate` with the least place that repeats a name of its group, and the least place of that name there.
/// - `Heavy` with the first site to end that is too heavy.
/// - `Unmatched` with the least item of a link that lacks its source.
///
/// And `Memory`.
pub fn resolve(alloc: Global, project: &Project) -> Result<Resolved, Refusal>
    requires { IsSound (view_project project.now) }
    ensures facts { IfOk result (λ done. done.facts ≡ facts (view_project project.now)) }
    ensures top { IfOk result (λ done. entries_of done.top ≡ after_units none (view_project project.now)) }
    ensures light { OnOk result (heavy (view_project project.now) ≡ None) }
    ensures passed { OnOk result (IsFreeOf (refusals_of_project (view_project project.now))) }
    ensures refused { IfErr result (IsRefusedFor (refusals_of_project (view_project project.now))) }
{
    let placed = PlacedProject::new(alloc, project)?;
    resolve_placed(alloc, project, &placed)
}

/// What [`resolve`] returns, of a project whose places are listed. The errors are those of [`resolve`].
pub fn resolve_placed(
    alloc: Global,
    project: &Project,
    placed: &PlacedProject<'_>,
) -> Result<Resolved, Refusal>
    requires sound { IsSound (view_project project.now) }
    requires placed { placed.now ≡ places (view_project project.now) }
    ensures facts { IfOk result (λ done. done.facts ≡ facts (view_project project.now)) }
    ensures top { IfOk result (λ done. entries_of done.top ≡ after_units none (view_project project.now)) }
    ensures light { OnOk result (heavy (view_project project.now) ≡ None) }
    ensures passed { OnOk result (IsFreeOf (refusals_of_project (view_project project.now))) }
    ensures refused { IfErr result (IsRefusedFor (refusals_of_project (view_project project.now))) }
{
    check_groups(alloc, project, placed)?;
    let resolved = resolve_facts(alloc, project)?;
    check_links(resolved.facts.links.as_slice())?;
    Ok(resolved)
}

/// Returns `Ok` if no name occurs twice in a group, and else `Duplicate`. It has the least place that repeats a name of
/// its group, and the least place of that name there. The only other error is `Memory`.
fn check_groups(alloc: Global, project: &Project, placed: &PlacedProject<'_>) -> Result<(), Refusal>
    requires sound { IsSound (view_project project.now) }
    requires placed { placed.now ≡ places (view_project project.now) }
    ensures passed { OnOk result (IsFreeOf (IsDuplicate (view_project project.now))) }
    ensures refused { IfErr result (IsRefusedFor (IsDuplicate (view_project project.now))) }
{
    let groups = groups(alloc, project)?;
    match first_repeat(alloc, placed, groups.as_slice())? {
        None => Ok(()),
        Some(repeat) => Err(Refusal::Duplicate {
            first: repeat.first,
            again: repeat.again,
        }),
    }
}

/// The facts of a project and the scope after its units, if no site is too heavy. The caller ensures that the project
/// is sound. The errors are `Heavy` with the first site to end that is too heavy, and `Memory`.
pub fn resolve_facts(alloc: Global, project: &Project) -> Result<Resolved, Refusal>
    requires { IsSound (view_project project.now) }
    ensures facts { IfOk result (λ done. done.facts ≡ facts (view_project project.now)) }
    ensures top { IfOk result (λ done. entries_of done.top ≡ after_units none (view_project project.now)) }
    ensures light { OnOk result (heavy (view_project project.now) ≡ None) }
    ensures refused { IfErr result (IsRefusedFor (IsHeavy (view_project project.now))) }
{
    match facts(alloc, project) {
        Ok(resolved) => Ok(resolved),
        Err(FactError::Heavy { at }) => Err(Refusal::Heavy { at }),
        Err(FactError::Memory) => Err(Refusal::Memory),
    }
}

/// Returns `Unmatched` with the least item of a link that lacks its source, or `Ok` if no link lacks it.
fn check_links(links: &[Link]) -> Result<(), Refusal>
    ensures passed { OnOk result (least (unmatched_items links.now) ≡ None) }
    ensures refused { IfErr result (λ why. (item : Place) × (least (unmatched_items links.now) ≡ Some item) × (why ≡ refusal.Unmatched item)) }
{
    match find_least_unmatched(links) {
        None => Ok(()),
        Some(item) => Err(Refusal::Unmatched { item }),
    }
}
