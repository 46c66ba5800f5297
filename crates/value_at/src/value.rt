//! The value at a place.

ghost use Rattle.std.specs.Prelude.{◌≡◌, IfOk};
ghost use Rattle.value_sites.specs.Sound.{IsSound};
ghost use Rattle.ml_trees.specs.View.{view_project};
ghost use Rattle.binding_model.specs.Facts.{facts as facts_of};
ghost use Rattle.binding_model.specs.Renaming.{goal_at};
ghost use Rattle.value_at.specs.Value.{IsValueAt, used_value};

use ml_trees::Project;
use rename_parts::binder_at;
use rotor_base::{Facts, Goal, Memory, Place, Ref};
use std::alloc::Global;

/// What is at a place.
#[derive(Clone, Copy, Debug, PartialEq, Eq)]
pub enum ValueAt {
    /// It declares or uses the value that this place declares.
    Value(Place),
    /// It uses a value that the folder does not declare.
    Outside,
    /// It uses a value that a module from outside the folder may hide.
    Blurred,
    /// It declares and uses no value.
    NoValue,
}

/// What is at a place of a project, by its facts. The caller ensures that the project is sound and that the facts are
/// its own. `Memory` is the only error.
pub fn value_at(
    alloc: Global,
    project: &Project,
    facts: &Facts,
    place: Place,
) -> Result<ValueAt, Memory>
    requires sound { IsSound (view_project project.now) }
    requires facts { facts.now ≡ facts_of (view_project project.now) }
    ensures { IfOk result (IsValueAt (view_project project.now) place) }
{
    if let Some(_binder) = binder_at(alloc, project, place)? {
        return Ok(ValueAt::Value(place));
    }
    Ok(used_value(goal_at(facts.refs.as_slice(), place)))
}

/// The goal of the reference at a place.
fn goal_at(refs: &[Ref], place: Place) -> Option<Goal>
    ensures { result ≡ goal_at refs.now place }
{
    for reference in refs {
        if reference.at == place {
            return Some(reference.goal);
        }
    }
    None
}

/// What a reference with a goal uses; if there is no reference, nothing.
fn used_value(goal: Option<Goal>) -> ValueAt
    ensures { result ≡ used_value goal }
{
    match goal {
        None => ValueAt::NoValue,
        Some(Goal::Decl(place)) => ValueAt::Value(place),
        Some(Goal::Blur { .. }) => ValueAt::Blurred,
        Some(Goal::Outside | Goal::Missing | Goal::Hidden) => ValueAt::Outside,
    }
}
