//! The variables of patterns, as entries of a scope.

ghost use Rattle.std.specs.Prelude.{◌≡◌, ◌++◌, OnOk, [], true};
ghost use Rattle.rotor_base.specs.declared.place.Goal.TheVariants.{Decl};
ghost use Rattle.ml_trees.specs.View.{view_name, view_pat, view_variable};
ghost use Rattle.value_sites.specs.Places.{name_sites};
ghost use Rattle.shape_core.specs.Shape.{◌⊕◌, a_val, none};
ghost use Rattle.shape_core.specs.Node.{entries_of};
ghost use Rattle.binding_model.specs.Scopes.{here, bound};
ghost use Rattle.binding_model.specs.Variables.{variables as vars, for_variables};
ghost use Rattle.name_resolve.specs.Marked.{marked};

use ml_trees::{Pat, ValueName, Variable};
use rotor_base::{Goal, Memory, Name, Place};
use shape_core::SharedEntry;
use std::alloc::Global;
use value_sites::{Mark, operator_of};

/// Adds the value that is declared at a place. `Memory` is the only error.
#[tactic(auto, using(crate::proofs::Lemmas::entries_appended))]
pub fn bind(
    alloc: Global,
    file: u32,
    token: u32,
    name: &[u8],
    made: &mut Vec<SharedEntry>,
) -> Result<(), Memory>
    ensures { OnOk result (entries_of made.new.items ≡ entries_of made.old.items ⊕ a_val name.now (Decl (here file token)) none) }
{
    let goal = Goal::Decl(Place { file, token });
    made.push(SharedEntry::Val(Name::new(alloc, name)?, goal))?;
    Ok(())
}

/// Adds the value that a name declares. `Memory` is the only error.
#[tactic(auto, using(crate::proofs::Lemmas::scopes_joined))]
pub fn bind_name(
    alloc: Global,
    file: u32,
    name: &ValueName,
    made: &mut Vec<SharedEntry>,
) -> Result<(), Memory>
    ensures { OnOk result (entries_of made.new.items ≡ entries_of made.old.items ⊕ bound file (name_sites [] true (view_name name.now))) }
{
    match name {
        ValueName::Lower(word) => bind(alloc, file, word.token, word.name.as_bytes(), made),
        ValueName::Operator { word, .. } => match operator_of(word) {
            Some(name) => bind(alloc, file, word.token, name, made),
            None => Ok(()),
        },
    }
}

/// Adds the variable of a `for`. `Memory` is the only error.
#[tactic(auto, using(crate::proofs::Lemmas::scopes_joined))]
pub fn bind_variable(
    alloc: Global,
    file: u32,
    variable: &Variable,
    made: &mut Vec<SharedEntry>,
) -> Result<(), Memory>
    ensures { OnOk result (entries_of made.new.items ≡ entries_of made.old.items ⊕ bound file (for_variables (view_variable variable.now))) }
{
    match variable {
        Variable::Lower(word) => bind(alloc, file, word.token, word.name.as_bytes(), made),
        Variable::Any { .. } => Ok(()),
    }
}

/// Adds the variables of a pattern, in order of tokens; an or-pattern has those of its first part alone. `Memory` is
/// the only error. It takes stack at each level of the pattern.
#[tactic(auto, using(crate::proofs::Lemmas::marks_bound))]
pub fn variables(
    alloc: Global,
    file: u32,
    pat: &Pat,
    made: &mut Vec<SharedEntry>,
) -> Result<(), Memory>
    ensures { OnOk result (entries_of made.new.items ≡ entries_of made.old.items ⊕ bound file (vars (view_pat pat.now))) }
{
    bind_marks(file, binding_model::variables(alloc, pat)?, made)
}

/// Adds the values that are declared at places of a file.
#[tactic(auto, using(crate::proofs::Lemmas::scopes_joined))]
fn bind_marks(file: u32, marks: Vec<Mark>, made: &mut Vec<SharedEntry>) -> Result<(), Memory>
    ensures { OnOk result (entries_of made.new.items ≡ entries_of made.old.items ⊕ marked file marks.items) }
{
    for mark in marks {
        let place = Place {
            file,
            token: mark.token,
        };
        made.push(SharedEntry::Val(mark.name, Goal::Decl(place)))?;
    }
    Ok(())
}
