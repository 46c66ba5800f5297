//! The words that the places of a project take under a map of names.

ghost use Rattle.std.specs.Prelude.{◌≡◌, ◌&&◌, IfOk, OnOk, bytes_eq, not, option_copied};
ghost use Rattle.std.specs.BTreeMap.{get};
ghost use Rattle.rotor_base.specs.declared.place.Place.{Place};
ghost use Rattle.rotor_base.specs.Place.{same_place, place_cmp};
ghost use Rattle.shape_core.specs.Shape.{or_else, some_if};
ghost use Rattle.binding_model.specs.Renaming.{at_place, goal_at};
ghost use Rattle.value_places.specs.Placed.{name_in};
ghost use Rattle.rename_respell.specs.Respelled.{changed_from};
ghost use Rattle.rename_respell.specs.Tables.{word_in};

use rotor_base::{Goal, Memory, Name, Place, Ref};
use std::alloc::Global;
use std::collections::BTreeMap;
use value_places::PlacedProject;

/// The new name of each binder that takes another one.
pub type NewNames<'m> = BTreeMap<Place, &'m [u8]>;

/// The goal of each reference.
pub type Goals = BTreeMap<Place, Goal>;

/// The new names of binders, and the goals of references.
#[derive(Drop)]
pub struct NewWords<'m> {
    pub names: NewNames<'m>,
    pub goals: Goals,
}

impl<'m> NewWords<'m> {
    /// The new word of a place, if it takes one.
    pub fn find_word(&self, place: Place) -> Option<&'m [u8]>
        ensures { option_copied result ≡ word_in self.now.names self.now.goals place }
    {
        let binder = match self.goals.get(&place) {
            None => place,
            Some(Goal::Decl(binder)) => *binder,
            Some(_) => return None,
        };
        self.names.get(&binder).copied()
    }
}

/// The entries of a map that give a binder another name than its own, as a table. If a place has several, the first
/// counts. `Memory` is the only error.
pub fn new_names<'m>(
    alloc: Global,
    placed: &PlacedProject<'_>,
    map: &'m [(Place, Name)],
) -> Result<NewNames<'m>, Memory>
    ensures { IfOk result (λ names. (p : Place) → option_copied (get place_cmp names p) ≡ at_place (changed_from (name_in placed.now) map.now) p) }
{
    let mut names = BTreeMap::new(alloc);
    for entry in map {
        if !has_name(placed, entry.0, &entry.1) {
            add_name(&mut names, entry.0, &entry.1)?;
        }
    }
    Ok(names)
}

/// Whether a place has this name.
fn has_name(placed: &PlacedProject<'_>, place: Place, name: &Name) -> bool
    ensures { result ≡ bytes_eq name.now (name_in placed.now place) }
{
    name.as_bytes() == placed.name_at(place)
}

/// Adds a name, if its place has none.
fn add_name<'m>(names: &mut NewNames<'m>, place: Place, name: &'m Name) -> Result<(), Memory>
    ensures { OnOk result ((p : Place) → option_copied (get place_cmp names.new p) ≡ or_else (option_copied (get place_cmp names.old p)) (some_if (same_place place p) name.now)) }
{
    if !names.contains_key(&place) {
        names.insert(place, name.as_bytes())?;
    }
    Ok(())
}

/// The goal of each reference, by its place. If a place has several, the first counts. `Memory` is the only error.
pub fn goal_table(alloc: Global, refs: &[Ref]) -> Result<Goals, Memory>
    ensures { IfOk result (λ goals. (p : Place) → get place_cmp goals p ≡ goal_at refs.now p) }
{
    let mut goals = BTreeMap::new(alloc);
    for reference in refs {
        add_goal(&mut goals, *reference)?;
    }
    Ok(goals)
}

/// Adds the goal of a reference, if its place has none.
fn add_goal(goals: &mut Goals, reference: Ref) -> Result<(), Memory>
    ensures { OnOk result ((p : Place) → get place_cmp goals.new p ≡ or_else (get place_cmp goals.old p) (some_if (same_place reference.at p) reference.goal)) }
{
    if !goals.contains_key(&reference.at) {
        goals.insert(reference.at, reference.goal)?;
    }
    Ok(())
}
