//! The values that bindings and variables bring.

ghost use Rattle.std.specs.Prelude.{◌≡◌, IfOk, OnOk};
ghost use Rattle.ml_trees.specs.View.{view_binding, bindings, view_variable};
ghost use Rattle.shape_core.specs.Shape.{◌⊕◌, a_mod, none};
ghost use Rattle.shape_core.specs.Node.{entries_of};
ghost use Rattle.binding_model.specs.Scopes.{bound, let_bound};
ghost use Rattle.binding_model.specs.Steps.{GroupOf};
ghost use Rattle.binding_model.specs.Taken.{taken, Going};
ghost use Rattle.binding_model.specs.Variables.{binding_variables, bindings_variables, for_variables};

use binding_model::Found;
use ml_trees::{Binding, Variable, Word};
use name_resolve::{bind_name, bind_variable, group, variables};
use rotor_base::{Memory, Name};
use shape_core::{Shared, SharedEntry};
use std::alloc::Global;

/// The values of a `let` with all its parts. `Memory` is the only error.
#[tactic(auto, using(name_resolve::proofs::Lemmas::scopes_joined))]
pub fn let_values(
    alloc: Global,
    file: u32,
    first: &Binding,
    rest: &[Binding],
) -> Result<Vec<SharedEntry>, Memory>
    ensures { IfOk result (λ v. entries_of v.items ≡ let_bound file (view_binding first.now) (bindings rest.now)) }
{
    let mut values = Vec::new(alloc);
    binding_values(alloc, file, first, &mut values)?;
    more_values(alloc, file, rest, &mut values)?;
    Ok(values)
}

/// Adds the values of several parts.
fn more_values(
    alloc: Global,
    file: u32,
    list: &[Binding],
    made: &mut Vec<SharedEntry>,
) -> Result<(), Memory>
    ensures { OnOk result (entries_of made.new.items ≡ entries_of made.old.items ⊕ bound file (bindings_variables (bindings list.now))) }
{
    for part in list {
        binding_values(alloc, file, part, made)?;
    }
    Ok(())
}

/// Adds the values of a part of a `let`.
#[tactic(auto, using(ml_trees::proofs::Variants::binding_views))]
fn binding_values(
    alloc: Global,
    file: u32,
    part: &Binding,
    made: &mut Vec<SharedEntry>,
) -> Result<(), Memory>
    ensures { OnOk result (entries_of made.new.items ≡ entries_of made.old.items ⊕ bound file (binding_variables (view_binding part.now))) }
{
    match part {
        Binding::Plain { pat, .. } => variables(alloc, file, pat, made),
        Binding::Applied { name, .. } => bind_name(alloc, file, name, made),
    }
}

/// The variable of a `for`, as a group. `Memory` is the only error.
pub fn variable_group(
    alloc: Global,
    found: &mut Found,
    file: u32,
    variable: &Variable,
) -> Result<Vec<SharedEntry>, Memory>
    ensures taken { OnOk result (taken (Going found.old) (GroupOf (bound file (for_variables (view_variable variable.now)))) ≡ Going found.new) }
    ensures values { IfOk result (λ v. entries_of v.items ≡ bound file (for_variables (view_variable variable.now))) }
{
    let mut values = Vec::new(alloc);
    bind_variable(alloc, file, variable, &mut values)?;
    group(alloc, found, &values)?;
    Ok(values)
}

/// A module of this name and shape. `Memory` is the only error.
pub fn module_entry(alloc: Global, name: &Word, shape: Shared) -> Result<Vec<SharedEntry>, Memory>
    ensures { IfOk result (λ v. entries_of v.items ≡ a_mod name.now.name shape none) }
{
    let name = Name::new(alloc, name.name.as_bytes())?;
    let mut entries = Vec::new(alloc);
    entries.push(SharedEntry::Mod(name, shape))?;
    Ok(entries)
}
