//! The binder at a place.

ghost use Rattle.std.specs.Prelude.{◌≡◌, ◌<◌, ◌==◌, IfOk, IfSome, Some, length};
ghost use Rattle.ml_trees.specs.View.{view_project, view_part_of, view_file};
ghost use Rattle.value_sites.specs.Sound.{IsSound};
ghost use Rattle.value_sites.specs.Places.{mark};
ghost use Rattle.ml_syntax.specs.Sites.{view_site};
ghost use Rattle.binding_model.specs.Renaming.{file_places};
ghost use Rattle.rename_model.specs.Target.{first_at};
ghost use Rattle.rename_parts.specs.Binders.{mark_at, IsMarkAt, IsMarkIn};

use ml_syntax::{Site, binders};
use ml_trees::{FileTree, Project};
use rotor_base::{Memory, Name, Place};
use std::alloc::Global;
use value_places::{PlacedProject, number_of_file};
use value_sites::Mark;

/// The binder at a place, or none, of a project whose places are listed. `Memory` is the only error.
pub fn placed_binder(
    alloc: Global,
    placed: &PlacedProject<'_>,
    place: Place,
) -> Result<Option<Mark>, Memory>
    ensures { IfOk result (IsMarkIn placed.now place) }
{
    match placed.site_at(place) {
        Some(site) if site.binds => Ok(Some(mark_of_site(alloc, site)?)),
        _ => Ok(None),
    }
}

/// The mark of a site.
fn mark_of_site(alloc: Global, site: &Site) -> Result<Mark, Memory>
    ensures { IfOk result (λ found. found ≡ mark (view_site site.now)) }
{
    Ok(Mark {
        token: site.token,
        name: Name::new(alloc, site.name.as_bytes())?,
        pun: site.pun,
        operator: site.operator,
    })
}

/// The binder at a place, or none. The call walks the place's file alone. `Memory` is the only error.
pub fn binder_at(alloc: Global, project: &Project, place: Place) -> Result<Option<Mark>, Memory>
    requires { IsSound (view_project project.now) }
    ensures { IfOk result (IsMarkAt (view_project project.now) place) }
{
    for unit in &project.units {
        if let Some(found) = binder_in(alloc, &unit.body, place)? {
            return Ok(Some(found));
        }
        if let Some(found) = binder_in(alloc, &unit.face, place)? {
            return Ok(Some(found));
        }
    }
    Ok(None)
}

/// The binder at a place of a part of a unit.
fn binder_in(alloc: Global, part: &Option<FileTree>, place: Place) -> Result<Option<Mark>, Memory>
    ensures { IfOk result (λ found. found ≡ mark_at (file_places (view_part_of part.now)) place) }
{
    match part {
        None => Ok(None),
        Some(tree) => binder_of(alloc, tree, place),
    }
}

/// The binder at a place of a file.
fn binder_of(alloc: Global, tree: &FileTree, place: Place) -> Result<Option<Mark>, Memory>
    ensures { IfOk result (λ found. found ≡ mark_at (file_places (Some (view_file tree.now))) place) }
{
    if number_of_file(tree) != place.file {
        return Ok(None);
    }
    let mut marks = binders(alloc, tree)?;
    match mark_of(&marks, place.token) {
        None => Ok(None),
        Some(at) => Ok(Some(marks.swap_remove(at))),
    }
}

/// The position of the first mark of a token.
fn mark_of(marks: &[Mark], token: u32) -> Option<usize>
    ensures found { result ≡ first_at (λ m. m.token == token) marks.now }
    ensures within { IfSome result (λ at. at < length marks.now) }
{
    for at in 0..marks.len() {
        if marks[at].token == token {
            return Some(at);
        }
    }
    None
}
