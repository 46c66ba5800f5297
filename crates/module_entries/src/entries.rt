//! What items add and open.

ghost use Rattle.std.specs.Prelude.{◌≡◌, ◌++◌, [], true, IfOk, None, OnOk, Some};
ghost use Rattle.ml_trees.specs.View.{view_name, view_module_name};
ghost use Rattle.value_sites.specs.Places.{name_sites};
ghost use Rattle.shape_core.specs.Shape.{a_mty, none};
ghost use Rattle.shape_core.specs.Node.{entries_of};
ghost use Rattle.binding_model.specs.Scopes.{bound, named};
ghost use Rattle.binding_model.specs.Walk.{name_at};

use ml_trees::{ModuleName, ValueName, Word};
use name_resolve::{Opened, bind_name};
use rotor_base::{Memory, Name};
use shape_core::{Shared, SharedEntry};
use std::alloc::Global;

/// What an item adds to its structure and to the scope after it, and what it opens in the scope alone.
#[derive(Drop)]
pub struct Added {
    pub shown: Vec<SharedEntry>,
    pub opened: Option<Opened>,
}

/// An item that adds nothing.
pub fn add_nothing(alloc: Global) -> Added
    ensures shown { result.shown.items ≡ [] }
    ensures opened { result.opened ≡ None }
{
    Added {
        shown: Vec::new(alloc),
        opened: None,
    }
}

/// An item that adds these entries.
pub fn add_shown(entries: Vec<SharedEntry>) -> Added
    ensures shown { result.shown.items ≡ entries.items }
    ensures opened { result.opened ≡ None }
{
    Added {
        shown: entries,
        opened: None,
    }
}

/// An item that opens a module.
pub fn add_opened(alloc: Global, opened: Opened) -> Added
    ensures shown { result.shown.items ≡ [] }
    ensures opened { result.opened ≡ Some opened }
{
    Added {
        shown: Vec::new(alloc),
        opened: Some(opened),
    }
}

/// Adds entries at the end. `Memory` is the only error.
pub fn append(made: &mut Vec<SharedEntry>, entries: Vec<SharedEntry>) -> Result<(), Memory>
    ensures { OnOk result (made.new.items ≡ made.old.items ++ entries.items) }
{
    for entry in entries {
        made.push(entry)?;
    }
    Ok(())
}

/// The value that a `val` or an `external` declares. `Memory` is the only error.
pub fn declare_value(alloc: Global, file: u32, name: &ValueName) -> Result<Vec<SharedEntry>, Memory>
    ensures { IfOk result (λ v. entries_of v.items ≡ bound file (name_sites [] true (view_name name.now))) }
{
    let mut values = Vec::new(alloc);
    bind_name(alloc, file, name, &mut values)?;
    Ok(values)
}

/// A module of this name, if it is no `_`, and this shape. `Memory` is the only error.
pub fn named_module(
    alloc: Global,
    name: &ModuleName,
    shape: Shared,
) -> Result<Vec<SharedEntry>, Memory>
    ensures { IfOk result (λ v. entries_of v.items ≡ named (view_module_name name.now) shape) }
{
    let mut entries = Vec::new(alloc);
    if let ModuleName::Upper(word) = name {
        let name = Name::new(alloc, word.name.as_bytes())?;
        entries.push(SharedEntry::Mod(name, shape))?;
    }
    Ok(entries)
}

/// A module type of this name and shape. `Memory` is the only error.
pub fn type_entry(alloc: Global, name: &Word, shape: Shared) -> Result<Vec<SharedEntry>, Memory>
    ensures { IfOk result (λ v. entries_of v.items ≡ a_mty name.now.name shape none) }
{
    let name = Name::new(alloc, name.name.as_bytes())?;
    let mut entries = Vec::new(alloc);
    entries.push(SharedEntry::Mty(name, shape))?;
    Ok(entries)
}

/// The token of the name of a module. It takes no memory.
pub fn token_of(name: &ModuleName) -> u32
    ensures { result ≡ name_at (view_module_name name.now) }
{
    match name {
        ModuleName::Upper(word) => word.token,
        ModuleName::Any { at } => *at,
    }
}
