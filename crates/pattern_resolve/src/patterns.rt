//! Patterns, resolved: their or-patterns, each at its end.

ghost use Rattle.std.specs.Prelude.{◌≡◌, OnOk, IfOk};
ghost use Rattle.rotor_base.specs.declared.place.Goal.TheVariants.{Decl};
ghost use Rattle.ml_trees.specs.View.{view_pat, view_pat_field, pats, pat_fields};
ghost use Rattle.shape_core.specs.Shape.{a_val, none};
ghost use Rattle.shape_core.specs.Node.{entries_of};
ghost use Rattle.binding_model.specs.Scopes.{here, bound};
ghost use Rattle.binding_model.specs.Steps.{GroupOf, ◌⨾◌};
ghost use Rattle.binding_model.specs.Taken.{taken, Going};
ghost use Rattle.binding_model.specs.Variables.{variables as vars};
ghost use Rattle.binding_model.specs.Walk.{pat_steps, pats_steps, field_pat_steps, fields_pat_steps, ties};

use binding_model::Found;
use ml_trees::{Pat, PatField};
use name_resolve::{bind, group, tie_parts, variables};
use rotor_base::Memory;
use shape_core::{SharedEntry, make_struct};
use std::alloc::Global;

/// A pattern: each or-pattern in it gives its groups and links at its end. `Memory` is the only error. It takes stack
/// at each level of the pattern.
#[cycle(patterns)]
#[tactic(auto, using(ml_trees::proofs::Variants::pat_views))]
pub fn pattern(alloc: Global, found: &mut Found, file: u32, pat: &Pat) -> Result<(), Memory>
    ensures { OnOk result (taken (Going found.old) (pat_steps file (view_pat pat.now)) ≡ Going found.new) }
{
    match pat {
        Pat::As { pat, .. } => pattern(alloc, found, file, pat),
        Pat::Or { first, rest } => {
            pattern(alloc, found, file, first)?;
            patterns(alloc, found, file, rest)?;
            tie_all(alloc, found, file, first, rest)
        }
        Pat::Tuple { first, rest } => {
            pattern(alloc, found, file, first)?;
            patterns(alloc, found, file, rest)
        }
        Pat::Cons { first, rest } => {
            pattern(alloc, found, file, first)?;
            patterns(alloc, found, file, rest)
        }
        Pat::List { first, rest, .. } => {
            pattern(alloc, found, file, first)?;
            patterns(alloc, found, file, rest)
        }
        Pat::ConstrApply { argument, .. } => pattern(alloc, found, file, argument),
        Pat::TagApply { argument, .. } => pattern(alloc, found, file, argument),
        Pat::Lazy { pat, .. } => pattern(alloc, found, file, pat),
        Pat::Exception { pat, .. } => pattern(alloc, found, file, pat),
        Pat::Paren { pat, .. } => pattern(alloc, found, file, pat),
        Pat::Typed { pat, .. } => pattern(alloc, found, file, pat),
        Pat::Opened { pat, .. } => pattern(alloc, found, file, pat),
        Pat::Record { first, rest, .. } => {
            field(alloc, found, file, first)?;
            fields(alloc, found, file, rest)
        }
        Pat::Any { .. } => Ok(()),
        Pat::Value(_) => Ok(()),
        Pat::Literal(_) => Ok(()),
        Pat::Negative { .. } => Ok(()),
        Pat::Range { .. } => Ok(()),
        Pat::Constr(_) => Ok(()),
        Pat::Tag(_) => Ok(()),
        Pat::Bool { .. } => Ok(()),
        Pat::Unit { .. } => Ok(()),
        Pat::Empty { .. } => Ok(()),
    }
}

#[cycle(patterns)]
fn patterns(alloc: Global, found: &mut Found, file: u32, list: &[Pat]) -> Result<(), Memory>
    ensures { OnOk result (taken (Going found.old) (pats_steps file (pats list.now)) ≡ Going found.new) }
{
    for part in list {
        pattern(alloc, found, file, part)?;
    }
    Ok(())
}

#[cycle(patterns)]
#[tactic(auto, using(ml_trees::proofs::Variants::pat_field_views))]
fn field(alloc: Global, found: &mut Found, file: u32, part: &PatField) -> Result<(), Memory>
    ensures { OnOk result (taken (Going found.old) (field_pat_steps file (view_pat_field part.now)) ≡ Going found.new) }
{
    match part {
        PatField::Punned { .. } => Ok(()),
        PatField::Matched { pat, .. } => pattern(alloc, found, file, pat),
    }
}

#[cycle(patterns)]
fn fields(alloc: Global, found: &mut Found, file: u32, list: &[PatField]) -> Result<(), Memory>
    ensures { OnOk result (taken (Going found.old) (fields_pat_steps file (pat_fields list.now)) ≡ Going found.new) }
{
    for part in list {
        field(alloc, found, file, part)?;
    }
    Ok(())
}

/// The parts of an or-pattern after the first, each tied to the part before it.
#[tactic(auto, using(crate::proofs::Lists::ties_so))]
fn tie_all(
    alloc: Global,
    found: &mut Found,
    file: u32,
    first: &Pat,
    rest: &[Pat],
) -> Result<(), Memory>
    ensures { OnOk result (taken (Going found.old) (ties file (vars (view_pat first.now)) (pats rest.now)) ≡ Going found.new) }
{
    let mut before = make_struct(alloc, values_of(alloc, file, first)?)?;
    for part in rest {
        let values = variables_group(alloc, found, file, part)?;
        let values = make_struct(alloc, values)?;
        tie_parts(found, &values, &before)?;
        before = values;
    }
    Ok(())
}

/// The variables of a pattern. `Memory` is the only error.
pub fn values_of(alloc: Global, file: u32, pat: &Pat) -> Result<Vec<SharedEntry>, Memory>
    ensures { IfOk result (λ v. entries_of v.items ≡ bound file (vars (view_pat pat.now))) }
{
    let mut values = Vec::new(alloc);
    variables(alloc, file, pat, &mut values)?;
    Ok(values)
}

/// The variables of a pattern, as a group. `Memory` is the only error.
pub fn variables_group(
    alloc: Global,
    found: &mut Found,
    file: u32,
    pat: &Pat,
) -> Result<Vec<SharedEntry>, Memory>
    ensures taken { OnOk result (taken (Going found.old) (GroupOf (bound file (vars (view_pat pat.now)))) ≡ Going found.new) }
    ensures values { IfOk result (λ v. entries_of v.items ≡ bound file (vars (view_pat pat.now))) }
{
    let values = values_of(alloc, file, pat)?;
    group(alloc, found, &values)?;
    Ok(values)
}

/// A pattern, and its variables as a group. `Memory` is the only error.
pub fn pattern_group(
    alloc: Global,
    found: &mut Found,
    file: u32,
    pat: &Pat,
) -> Result<Vec<SharedEntry>, Memory>
    ensures taken { OnOk result (taken (Going found.old) (pat_steps file (view_pat pat.now) ⨾ GroupOf (bound file (vars (view_pat pat.now)))) ≡ Going found.new) }
    ensures values { IfOk result (λ v. entries_of v.items ≡ bound file (vars (view_pat pat.now))) }
{
    pattern(alloc, found, file, pat)?;
    variables_group(alloc, found, file, pat)
}

/// One variable, as a group. `Memory` is the only error.
pub fn value_group(
    alloc: Global,
    found: &mut Found,
    file: u32,
    token: u32,
    name: &[u8],
) -> Result<Vec<SharedEntry>, Memory>
    ensures taken { OnOk result (taken (Going found.old) (GroupOf (a_val name.now (Decl (here file token)) none)) ≡ Going found.new) }
    ensures values { IfOk result (λ v. entries_of v.items ≡ a_val name.now (Decl (here file token)) none) }
{
    let mut values = Vec::new(alloc);
    bind(alloc, file, token, name, &mut values)?;
    group(alloc, found, &values)?;
    Ok(values)
}
