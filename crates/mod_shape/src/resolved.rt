//! The facts, the groups and the looks of a project.

ghost use Rattle.std.specs.Prelude.{◌≡◌, IfOk, IsOk, Err, Some, None};
ghost use Rattle.rotor_base.specs.declared.place.Place.{Place};
ghost use Rattle.value_sites.specs.Sound.{IsSound};
ghost use Rattle.ml_trees.specs.View.{view_project};
ghost use Rattle.shape_core.specs.declared.error.FactError.TheVariants.{Heavy};
ghost use Rattle.shape_core.specs.Shape.{none};
ghost use Rattle.shape_core.specs.Node.{entries_of};
ghost use Rattle.binding_model.specs.Facts.{facts as facts_of};
ghost use Rattle.binding_model.specs.Looks.{looks as looks_of};
ghost use Rattle.binding_model.specs.Scopes.{after_units};
ghost use Rattle.binding_model.specs.Sums.{heavy};

use crate::project::units;
use found_facts::{facts_in, looks_in, recorder_of, start_from_nothing};
use ml_trees::Project;
use rotor_base::{Facts, Looks, Memory, Place, Row, Watch};
use shape_core::{FactError, Scope};
use std::alloc::Global;

/// The facts of a project, and the scope after all its units.
#[derive(Drop)]
pub struct Resolved {
    pub facts: Facts,
    pub top: Scope,
}

/// The facts of a project, and the scope after all its units. The errors are `Heavy` at the first site to end that is
/// too heavy, and `Memory`.
#[tactic(auto, using(crate::proofs::Resolving::facts_taken, crate::proofs::Resolving::light_taken, crate::proofs::Resolving::heavy_taken))]
pub fn facts(alloc: Global, project: &Project) -> Result<Resolved, FactError>
    requires sound { IsSound (view_project project.now) }
    ensures facts { IfOk result (λ done. done.facts ≡ facts_of (view_project project.now)) }
    ensures top { IfOk result (λ done. entries_of done.top ≡ after_units none (view_project project.now)) }
    ensures light { IsOk result → heavy (view_project project.now) ≡ None }
    ensures heavy { (at : Place) → result ≡ Err (Heavy at) → heavy (view_project project.now) ≡ Some at }
{
    let mut found = start_from_nothing(alloc, None);
    let mut top = Scope::new(alloc)?;
    units(alloc, &mut found, &project.units, &mut top)?;
    let facts = facts_in(found)?;
    Ok(Resolved { facts, top })
}

/// The groups of a project, in which no name may occur twice. They depend on the trees alone, so a project that is too
/// heavy has them too. `Memory` is the only error.
#[tactic(auto, using(crate::proofs::Resolving::groups_told))]
pub fn groups(alloc: Global, project: &Project) -> Result<Row<Row<Place>>, Memory>
    ensures { IfOk result (λ groups. groups ≡ (facts_of (view_project project.now)).groups) }
{
    group_walk::units(alloc, &project.units)
}

/// What the look-ups of the old or of the new name find in a project, and would find after the renaming. `Memory` is
/// the only error.
#[tactic(auto, using(crate::proofs::Resolving::looks_taken))]
pub fn looks(alloc: Global, project: &Project, watch: &Watch) -> Result<Looks, Memory>
    requires sound { IsSound (view_project project.now) }
    requires light { heavy (view_project project.now) ≡ None }
    ensures { IfOk result (λ looks. looks ≡ looks_of watch.now (view_project project.now)) }
{
    let recorder = recorder_of(alloc, watch)?;
    let mut found = start_from_nothing(alloc, Some(recorder));
    let mut top = Scope::new(alloc)?;
    match units(alloc, &mut found, &project.units, &mut top) {
        Ok(()) => looks_in(found),
        Err(_) => Err(Memory),
    }
}
