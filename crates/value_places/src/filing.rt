//! The places of files, one file after another.

ghost use Rattle.std.specs.Prelude.{◌≡◌, ◌==◌, ◌++◌, ◌∷◌, ℕ, [], IfOk, OnOk, Some, filter, if◌then◌else◌, map, slice_index_or};
ghost use Rattle.ml_trees.specs.View.{view_file, view_part_of};
ghost use Rattle.binding_model.specs.Renaming.{file_places};
ghost use Rattle.binding_model.specs.Scopes.{here};
ghost use Rattle.value_places.specs.Binders.{binder_places};
ghost use Rattle.value_places.specs.Placed.{Adds, number_of};

use ml_syntax::{Site, list_sites};
use ml_trees::FileTree;
use rotor_base::{Memory, Place, Row};
use std::alloc::Global;

/// The places of files: the sites of each file, at the file's number, and the binders in order.
#[derive(Drop)]
pub(crate) struct Filed {
    pub files: Vec<Row<Site>>,
    pub binders: Vec<Place>,
}

/// Adds the places of a part of a unit.
pub(crate) fn add_part(
    alloc: Global,
    filed: &mut Filed,
    part: &Option<FileTree>,
) -> Result<(), Memory>
    ensures files { OnOk result (Adds filed.old.files.items (view_part_of part.now) filed.new.files.items) }
    ensures binders { OnOk result (filed.new.binders.items ≡ filed.old.binders.items ++ binder_places (file_places (view_part_of part.now))) }
{
    match part {
        None => Ok(()),
        Some(tree) => add_file(alloc, filed, tree),
    }
}

/// Adds the places of a file.
fn add_file(alloc: Global, filed: &mut Filed, tree: &FileTree) -> Result<(), Memory>
    ensures files { OnOk result (Adds filed.old.files.items (Some (view_file tree.now)) filed.new.files.items) }
    ensures binders { OnOk result (filed.new.binders.items ≡ filed.old.binders.items ++ binder_places (file_places (Some (view_file tree.now)))) }
{
    let number = number_of_file(tree);
    let sites = list_sites(alloc, tree)?;
    add_binders(&mut filed.binders, number, &sites)?;
    set_file(alloc, &mut filed.files, number, sites)?;
    Ok(())
}

/// Adds the places of a file's binders.
fn add_binders(list: &mut Vec<Place>, file: u32, sites: &[Site]) -> Result<(), Memory>
    ensures { OnOk result (list.new.items ≡ list.old.items ++ map (λ x. here file x.token) (filter (λ x. x.binds) sites.now)) }
{
    for site in sites {
        add_binder(list, file, site)?;
    }
    Ok(())
}

/// Adds a place of a file, if it is a binder.
fn add_binder(list: &mut Vec<Place>, file: u32, site: &Site) -> Result<(), Memory>
    ensures { OnOk result (list.new.items ≡ (if site.now.binds then list.old.items ++ here file site.now.token ∷ [] else list.old.items)) }
{
    if site.binds {
        list.push(Place {
            file,
            token: site.token,
        })?;
    }
    Ok(())
}

/// Puts the sites of a file at its number.
fn set_file(
    alloc: Global,
    files: &mut Vec<Row<Site>>,
    number: u32,
    sites: Vec<Site>,
) -> Result<(), Memory>
    ensures { OnOk result ((n : ℕ) → slice_index_or files.new.items n [] ≡ (if number == n then sites.items else slice_index_or files.old.items n [])) }
{
    let at = number as usize;
    for _ in files.len()..at + 1 {
        files.push(Row::new(alloc))?;
    }
    files[at] = Row::from_vec(sites);
    Ok(())
}

/// The number of a file.
pub fn number_of_file(tree: &FileTree) -> u32
    ensures { result ≡ number_of (view_file tree.now) }
{
    match tree {
        FileTree::Body(file, _) => *file,
        FileTree::Face(file, _) => *file,
    }
}
