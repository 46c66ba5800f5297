//! What the calls before a renaming return: the project, its facts, the binder that a target names, and the watch.

ghost use Rattle.std.specs.Prelude.{◌≡◌, None, IfOk};
ghost use Rattle.value_sites.specs.Sound.{IsSound};
ghost use Rattle.ml_trees.specs.View.{view_project};
ghost use Rattle.dependency_kernel.specs.Foot.{IsFoot};
ghost use Rattle.binding_model.specs.Facts.{facts as facts_of};
ghost use Rattle.binding_model.specs.Renaming.{IsBinder};
ghost use Rattle.binding_model.specs.Renaming.{name_of};
ghost use Rattle.binding_model.specs.Sums.{heavy};

use dependency_kernel::footprint;
use ml_trees::Project;
use project_reading::read_project;
use rename_project::{find_aim, resolve_placed};
use rotor_base::{Facts, Files, Name, Place, Refusal, Target, Watch};
use std::alloc::Global;
use value_places::PlacedProject;

/// A project, its facts, the place of a binder, and the renaming of its footprint that is watched.
#[derive(Drop)]
pub struct Watched {
    pub project: Project,
    pub facts: Facts,
    pub binder: Place,
    pub watch: Watch,
}

/// The renaming that a target and a new name request, if the project has no refusal and the target names a binder.
pub fn watch_target(
    alloc: Global,
    files: &Files,
    target: &Target,
    name: &str,
) -> Result<Watched, Refusal>
    ensures sound { IfOk result (λ found. IsSound (view_project found.project)) }
    ensures facts { IfOk result (λ found. found.facts ≡ facts_of (view_project found.project)) }
    ensures light { IfOk result (λ found. heavy (view_project found.project) ≡ None) }
    ensures binds { IfOk result (λ found. IsBinder (view_project found.project) found.binder) }
    ensures old { IfOk result (λ found. found.watch.old ≡ name_of (view_project found.project) found.binder) }
    ensures foot { IfOk result (λ found. IsFoot found.facts.links found.binder found.watch.foot) }
{
    let read = read_project(alloc, files)?;
    let placed = PlacedProject::new(alloc, &read.project)?;
    let resolved = resolve_placed(alloc, &read.project, &placed)?;
    let aim = find_aim(alloc, files, &read, &placed, &resolved.top, target)?;
    drop(placed);
    let foot = footprint(alloc, &resolved.facts, aim.place)?;
    let new = Name::new(alloc, name.as_bytes())?;
    Ok(Watched {
        project: read.project,
        facts: resolved.facts,
        binder: aim.place,
        watch: Watch {
            old: aim.mark.name,
            new,
            foot,
        },
    })
}
