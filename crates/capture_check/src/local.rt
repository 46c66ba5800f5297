//! The first fault of a renaming, by what the look-ups of the old project pass.

ghost use Rattle.std.specs.Prelude.{◌≡◌, List, IfOk};
ghost use Rattle.ml_trees.specs.Tree.{UnitTree};
ghost use Rattle.ml_trees.specs.View.{view_project};
ghost use Rattle.value_sites.specs.Sound.{IsSound};
ghost use Rattle.binding_model.specs.Facts.{facts as project_facts};
ghost use Rattle.binding_model.specs.Looks.{looks as project_looks};
ghost use Rattle.binding_model.specs.Local.{IsWatched};
ghost use Rattle.binding_model.specs.Renaming.{places};
ghost use Rattle.capture_check.specs.Local.{IsLocalFault};

use crate::changes::{first_capture, first_mislink};
use crate::fault::Fault;
use crate::first::fault_of;
use crate::looked::{link_table, members_of, ref_table, would_links, would_refs};
use crate::named::BinderNames;
use crate::repeats::first_repeat_of;
use ml_trees::Project;
use rotor_base::{Facts, Looks, Memory, Watch};
use std::alloc::Global;
use value_places::PlacedProject;

/// The first clash, capture or mislink that the renaming of a footprint would make. It is what [`crate::first_fault`]
/// answers for the renamed project, which is not resolved here. `Memory` is the only error.
pub fn local_fault(
    alloc: Global,
    project: &Project,
    facts: &Facts,
    looks: &Looks,
    watch: &Watch,
) -> Result<Option<Fault>, Memory>
    requires sound { IsSound (view_project project.now) }
    requires facts { facts.now ≡ project_facts (view_project project.now) }
    requires looks { looks.now ≡ project_looks watch.now (view_project project.now) }
    requires watched { IsWatched (view_project project.now) watch.now }
    ensures { IfOk result (IsLocalFault (view_project project.now) watch.now) }
{
    let placed = PlacedProject::new(alloc, project)?;
    local_fault_of(alloc, &placed, facts, looks, watch)
}

/// The fault that [`local_fault`] returns, of a project whose places are listed. It is that of each sound project with
/// these places, facts and looks.
pub fn local_fault_of(
    alloc: Global,
    placed: &PlacedProject<'_>,
    facts: &Facts,
    looks: &Looks,
    watch: &Watch,
) -> Result<Option<Fault>, Memory>
    ensures { (us : List UnitTree) → placed.now ≡ places us → IsSound us → facts.now ≡ project_facts us → looks.now ≡ project_looks watch.now us → IsWatched us watch.now → IfOk result (IsLocalFault us watch.now) }
{
    let members = members_of(alloc, watch.foot.decls.as_slice())?;
    let ref_looks = ref_table(alloc, looks.refs.as_slice())?;
    let refs = would_refs(alloc, &members, &ref_looks, facts.refs.as_slice())?;
    let link_looks = link_table(alloc, looks.links.as_slice())?;
    let links = would_links(alloc, &members, &link_looks, facts.links.as_slice())?;
    let names = BinderNames {
        placed,
        renamed: &members,
        new: watch.new.as_bytes(),
    };
    let repeat = first_repeat_of(alloc, &names, facts.groups.as_slice())?;
    let capture = first_capture(facts.refs.as_slice(), &refs);
    let mislink = first_mislink(facts.links.as_slice(), &links);
    Ok(fault_of(repeat, capture, mislink))
}
