//! What is added to the state of a resolver.

ghost use Rattle.std.specs.Prelude.{◌≡◌, OnOk, IfOk};
ghost use Rattle.shape_core.specs.Shape.{Opaque, value_in};
ghost use Rattle.shape_core.specs.Node.{entries_of};
ghost use Rattle.binding_model.specs.Facts.{decls};
ghost use Rattle.binding_model.specs.Steps.{UseAlone, UseUnder, GroupOf, WeighedSite, OpenedSite, UnitStart};
ghost use Rattle.binding_model.specs.Taken.{HasTaken, HasStopped, taken, Going};

use crate::recording::{record_under, record_use};
use binding_model::Found;
use rotor_base::{Goal, MAX_OPENED, MAX_WEIGHT, MAX_WEIGHT_SUM, MAX_WORK, Memory, Place, Ref, Row};
use shape_core::{FactError, Kind, Scope, Shared, SharedEntry, kind, val_in, val_of, weight_of};
use std::alloc::Global;

/// Looks a value up by its name alone. `Memory` is the only error.
#[tactic(auto, using(crate::proofs::Recorders::uses_alone))]
pub fn use_alone(found: &mut Found, scope: &mut Scope, at: Place, name: &[u8]) -> Result<(), Memory>
    ensures done { OnOk result (taken (Going found.old) (UseAlone at name.now (entries_of scope.old)) ≡ Going found.new) }
    ensures scope { scope.new ≡ scope.old }
{
    let goal = match val_in(scope, name) {
        Some(goal) => goal,
        None => Goal::Outside,
    };
    found.refs.push(Ref { at, goal })?;
    record_use(&mut found.recorder, scope, at, name, goal)
}

/// Looks a value up under a module. `Memory` is the only error.
pub fn use_under(found: &mut Found, shape: &Shared, at: Place, name: &[u8]) -> Result<(), Memory>
    ensures { OnOk result (taken (Going found.old) (UseUnder at name.now shape.now) ≡ Going found.new) }
{
    let goal = goal_under(shape, name);
    found.refs.push(Ref { at, goal })?;
    record_under(&mut found.recorder, shape, at, name, goal)
}

/// Looks a value up under a module of which nothing is known. `Memory` is the only error.
#[tactic(auto, using(crate::proofs::Recorders::uses_under))]
pub fn use_outside(found: &mut Found, at: Place, name: &[u8]) -> Result<(), Memory>
    ensures { OnOk result (taken (Going found.old) (UseUnder at name.now Opaque) ≡ Going found.new) }
{
    let goal = Goal::Outside;
    found.refs.push(Ref { at, goal })?;
    Ok(())
}

/// What a look-up of a value under a module gives.
fn goal_under(shape: &Shared, name: &[u8]) -> Goal
    ensures { result ≡ value_in shape.now name.now }
{
    match kind(shape) {
        Kind::Struct => match val_of(shape, name) {
            Some(goal) => goal,
            None => Goal::Missing,
        },
        Kind::Functor => Goal::Outside,
        Kind::Unitary => Goal::Outside,
        Kind::Opaque => Goal::Outside,
    }
}

/// Adds a group: the declarations of values that may not share a name. `Memory` is the only error.
pub fn group(alloc: Global, found: &mut Found, values: &[SharedEntry]) -> Result<(), Memory>
    ensures { OnOk result (taken (Going found.old) (GroupOf (entries_of values.now)) ≡ Going found.new) }
{
    let places = list_declared(alloc, values)?;
    found.groups.push(places)?;
    Ok(())
}

/// The declarations of the values among entries.
fn list_declared(alloc: Global, values: &[SharedEntry]) -> Result<Row<Place>, Memory>
    ensures { IfOk result (λ places. places ≡ decls (entries_of values.now)) }
{
    let mut places = Row::new(alloc);
    for value in values {
        if let SharedEntry::Val(_, Goal::Decl(place)) = value {
            places.push(*place)?;
        }
    }
    Ok(places)
}

/// Ends a weighed site. The only error is `Heavy`, at the site, if its shape, the sum of weights or the work so far is
/// over its bound.
pub fn end_weighed_site(found: &mut Found, at: Place, shape: &Shared) -> Result<(), FactError>
    ensures taken { HasTaken result found.old found.new (WeighedSite at shape.now) }
    ensures heavy { HasStopped result found.old (WeighedSite at shape.now) }
{
    let weight = weight_of(shape);
    if weight > MAX_WEIGHT
        || found.sums.weight > MAX_WEIGHT_SUM - weight
        || found.sums.work > MAX_WORK
    {
        return Err(FactError::Heavy { at });
    }
    found.sums.weight += weight;
    Ok(())
}

/// Ends an opening site. The only error is `Heavy`, at the site, if the weights that the unit has opened are over their
/// bound.
pub fn end_opening_site(found: &mut Found, at: Place, shape: &Shared) -> Result<(), FactError>
    ensures taken { HasTaken result found.old found.new (OpenedSite at shape.now) }
    ensures heavy { HasStopped result found.old (OpenedSite at shape.now) }
{
    let weight = weight_of(shape);
    if found.sums.opened > MAX_OPENED || weight > MAX_OPENED - found.sums.opened {
        return Err(FactError::Heavy { at });
    }
    found.sums.opened += weight;
    Ok(())
}

/// Ends an opening site of a module of which nothing is known: it opens no weight. The only error is `Heavy`, at the
/// site, if the unit has opened too much weight before.
pub fn end_opening_of_nothing(found: &mut Found, at: Place) -> Result<(), FactError>
    ensures taken { HasTaken result found.old found.new (OpenedSite at Opaque) }
    ensures heavy { HasStopped result found.old (OpenedSite at Opaque) }
{
    if found.sums.opened > MAX_OPENED {
        return Err(FactError::Heavy { at });
    }
    Ok(())
}

/// Begins a unit: no weight is opened yet.
pub fn begin_unit(found: &mut Found)
    ensures { taken (Going found.old) UnitStart ≡ Going found.new }
{
    found.sums.opened = 0;
}
