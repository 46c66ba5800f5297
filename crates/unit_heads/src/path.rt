//! The heads of paths.

ghost use Rattle.std.specs.Prelude.{◌≡◌, ◌++◌, ◌∷◌, [], OnOk, if◌then◌else◌};
ghost use Rattle.ml_trees.specs.View.{view_words};
ghost use Rattle.unit_heads.specs.Heads.{is_among, module_head, prefix_head};

use crate::bound::Bound;
use ml_trees::Word;
use rotor_base::{Memory, Name};
use std::alloc::Global;

/// Adds the head of the path of a module, if it is not bound. `Memory` is the only error.
pub fn add_head(
    alloc: Global,
    bound: &Bound,
    found: &mut Vec<Name>,
    path: &[Word],
) -> Result<(), Memory>
    ensures { OnOk result (found.new.items ≡ module_head bound.now found.old.items (view_words path.now)) }
{
    match path {
        [] => Ok(()),
        [first, ..] => add_unless_bound(alloc, bound, found, first.name.as_bytes()),
    }
}

/// Adds a name, if it is not bound.
fn add_unless_bound(
    alloc: Global,
    bound: &Bound,
    found: &mut Vec<Name>,
    name: &[u8],
) -> Result<(), Memory>
    ensures { OnOk result (found.new.items ≡ (if is_among bound.now name.now then found.old.items else found.old.items ++ name.now ∷ [])) }
{
    if bound.contains(name) {
        return Ok(());
    }
    found.push(Name::new(alloc, name)?)?;
    Ok(())
}

/// Adds the head of the names before the last one of a path, if it is not bound. `Memory` is the only error.
pub fn add_prefix(
    alloc: Global,
    bound: &Bound,
    found: &mut Vec<Name>,
    path: &[Word],
) -> Result<(), Memory>
    ensures { OnOk result (found.new.items ≡ prefix_head bound.now found.old.items (view_words path.now)) }
{
    match path {
        [] => Ok(()),
        [_] => Ok(()),
        [first, ..] => add_unless_bound(alloc, bound, found, first.name.as_bytes()),
    }
}
