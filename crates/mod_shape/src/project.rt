//! Units, resolved one after another.

ghost use Rattle.std.specs.Prelude.{◌≡◌, IfOk, OnOk, Some, map};
ghost use Rattle.ml_trees.specs.View.{view_file, view_part_of, view_unit};
ghost use Rattle.shape_core.specs.Node.{entries_of};
ghost use Rattle.binding_model.specs.Scopes.{file_shape, unit_shape, after_units};
ghost use Rattle.binding_model.specs.Steps.{UnitStart, ◌⨾◌};
ghost use Rattle.binding_model.specs.Taken.{HasTaken, HasStopped, taken, Going};
ghost use Rattle.binding_model.specs.Walk.{file_steps, maybe_file_steps, file_number as number_of_file, last_file as last_of, unit_steps, units_steps};
ghost use Rattle.mod_shape.specs.Joined.{maybe_shape, joined_steps, joined_shape};

use binding_model::Found;
use ml_trees::{FileTree, UnitTree};
use mod_resolve::{signature, structure};
use name_resolve::{begin_unit, end_weighed_site, match_target, pin_outside};
use rotor_base::{Memory, Name, Place};
use shape_core::{FactError, Scope, Shared, SharedEntry, make_opaque, make_struct};
use std::alloc::Global;

/// The shapes of the files of a unit.
#[derive(Drop)]
struct Parts {
    body: Option<Shared>,
    face: Option<Shared>,
}

/// The shape of a file, in the scope of the units before it.
#[tactic(auto, using(binding_model::proofs::Takings::heavy_stays))]
fn file(
    alloc: Global,
    found: &mut Found,
    tree: &FileTree,
    scope: &mut Scope,
) -> Result<Shared, FactError>
    ensures taken { HasTaken result found.old found.new (file_steps (entries_of scope.old) (view_file tree.now)) }
    ensures heavy { HasStopped result found.old (file_steps (entries_of scope.old) (view_file tree.now)) }
    ensures shape { IfOk result (λ shape. shape ≡ file_shape (entries_of scope.old) (view_file tree.now)) }
    ensures scope { IfOk result (λ _. scope.new ≡ scope.old) }
{
    match tree {
        FileTree::Body(number, items) => {
            let entries = structure(alloc, found, *number, items, scope)?;
            Ok(make_struct(alloc, entries)?)
        }
        FileTree::Face(number, items) => {
            let entries = signature(alloc, found, *number, items, scope)?;
            Ok(make_struct(alloc, entries)?)
        }
    }
}

/// The shape of a file, if there is one, in the scope of the units before it.
#[tactic(auto, using(binding_model::proofs::Takings::heavy_stays))]
fn optional_file(
    alloc: Global,
    found: &mut Found,
    tree: &Option<FileTree>,
    scope: &mut Scope,
) -> Result<Option<Shared>, FactError>
    ensures taken { HasTaken result found.old found.new (maybe_file_steps (entries_of scope.old) (view_part_of tree.now)) }
    ensures heavy { HasStopped result found.old (maybe_file_steps (entries_of scope.old) (view_part_of tree.now)) }
    ensures shape { IfOk result (λ o. o ≡ maybe_shape (entries_of scope.old) (view_part_of tree.now)) }
    ensures scope { IfOk result (λ _. scope.new ≡ scope.old) }
{
    match tree {
        Some(tree) => Ok(Some(file(alloc, found, tree, scope)?)),
        None => Ok(None),
    }
}

/// Begins a unit, and resolves its body and then its interface.
#[tactic(auto, using(binding_model::proofs::Takings::heavy_stays))]
fn unit_parts(
    alloc: Global,
    found: &mut Found,
    tree: &UnitTree,
    scope: &mut Scope,
) -> Result<Parts, FactError>
    ensures taken { HasTaken result found.old found.new (UnitStart ⨾ maybe_file_steps (entries_of scope.old) (view_part_of tree.now.body) ⨾ maybe_file_steps (entries_of scope.old) (view_part_of tree.now.face)) }
    ensures heavy { HasStopped result found.old (UnitStart ⨾ maybe_file_steps (entries_of scope.old) (view_part_of tree.now.body) ⨾ maybe_file_steps (entries_of scope.old) (view_part_of tree.now.face)) }
    ensures body { IfOk result (λ parts. parts.body ≡ maybe_shape (entries_of scope.old) (view_part_of tree.now.body)) }
    ensures face { IfOk result (λ parts. parts.face ≡ maybe_shape (entries_of scope.old) (view_part_of tree.now.face)) }
    ensures scope { IfOk result (λ _. scope.new ≡ scope.old) }
{
    begin_unit(found);
    let body = optional_file(alloc, found, &tree.body, scope)?;
    let face = optional_file(alloc, found, &tree.face, scope)?;
    Ok(Parts { body, face })
}

/// Matches a body with its interface, and pins an interface alone. The result is the unit's shape. `Memory` is the only
/// error.
fn join_parts(alloc: Global, found: &mut Found, parts: Parts) -> Result<Shared, Memory>
    ensures taken { OnOk result (taken (Going found.old) (joined_steps parts.body parts.face) ≡ Going found.new) }
    ensures shape { IfOk result (λ shape. shape ≡ joined_shape parts.body parts.face) }
{
    let Parts { body, face } = parts;
    match face {
        Some(face) => {
            match_or_pin(alloc, found, body, &face)?;
            Ok(face)
        }
        None => match body {
            Some(body) => Ok(body),
            None => make_opaque(alloc),
        },
    }
}

/// Matches a body, if there is one, with an interface, and pins an interface alone. `Memory` is the only error.
fn match_or_pin(
    alloc: Global,
    found: &mut Found,
    body: Option<Shared>,
    face: &Shared,
) -> Result<(), Memory>
    ensures { OnOk result (taken (Going found.old) (joined_steps body (Some face.now)) ≡ Going found.new) }
{
    match body {
        Some(body) => match_target(alloc, found, &body, face),
        None => pin_outside(alloc, found, face),
    }
}

/// The number of a file.
fn file_number(tree: &FileTree) -> u32
    ensures { result ≡ number_of_file (view_file tree.now) }
{
    match tree {
        FileTree::Body(number, _) => *number,
        FileTree::Face(number, _) => *number,
    }
}

/// The number of the last file of a unit.
fn last_file(tree: &UnitTree) -> u32
    ensures { result ≡ last_of (view_part_of tree.now.body) (view_part_of tree.now.face) }
{
    match &tree.face {
        Some(face) => file_number(face),
        None => match &tree.body {
            Some(body) => file_number(body),
            None => 0,
        },
    }
}

/// The shape of a unit, in the scope of the units before it.
#[tactic(auto, using(crate::proofs::Joins::units_joined, binding_model::proofs::Takings::heavy_stays))]
fn unit(
    alloc: Global,
    found: &mut Found,
    tree: &UnitTree,
    scope: &mut Scope,
) -> Result<Shared, FactError>
    ensures taken { HasTaken result found.old found.new (unit_steps (entries_of scope.old) (view_unit tree.now)) }
    ensures heavy { HasStopped result found.old (unit_steps (entries_of scope.old) (view_unit tree.now)) }
    ensures shape { IfOk result (λ shape. shape ≡ unit_shape (entries_of scope.old) (view_unit tree.now)) }
    ensures scope { IfOk result (λ _. scope.new ≡ scope.old) }
{
    let parts = unit_parts(alloc, found, tree, scope)?;
    let shape = join_parts(alloc, found, parts)?;
    let at = Place {
        file: last_file(tree),
        token: 1,
    };
    end_weighed_site(found, at, &shape)?;
    Ok(shape)
}

/// The units of a project, each in the scope of those before it. The scope goes on with them. `Heavy` at the first site
/// that is too heavy, or `Memory`.
#[tactic(auto, using(name_resolve::proofs::Lemmas::scopes_joined, binding_model::proofs::Takings::heavy_stays))]
pub fn units(
    alloc: Global,
    found: &mut Found,
    list: &[UnitTree],
    scope: &mut Scope,
) -> Result<(), FactError>
    ensures taken { HasTaken result found.old found.new (units_steps (entries_of scope.old) (map view_unit list.now)) }
    ensures heavy { HasStopped result found.old (units_steps (entries_of scope.old) (map view_unit list.now)) }
    ensures grown { IfOk result (λ _. entries_of scope.new ≡ after_units (entries_of scope.old) (map view_unit list.now)) }
{
    for tree in list {
        let shape = unit(alloc, found, tree, scope)?;
        let name = Name::new(alloc, tree.name.as_bytes())?;
        scope.push(SharedEntry::Mod(name, shape))?;
    }
    Ok(())
}
