//! The facts and the looks of an expression.

ghost use Rattle.std.specs.Prelude.{◌≡◌, ◌≤◌, IfOk, IsOk, Err, Some, None};
ghost use Rattle.rotor_base.specs.Limits.{max_work};
ghost use Rattle.rotor_base.specs.declared.place.Place.{Place};
ghost use Rattle.value_sites.specs.Sound.{IsWithinFile};
ghost use Rattle.ml_trees.specs.View.{view};
ghost use Rattle.shape_core.specs.declared.error.FactError.TheVariants.{Heavy};
ghost use Rattle.shape_core.specs.Node.{entries_of};
ghost use Rattle.binding_model.specs.Facts.{facts_of};
ghost use Rattle.binding_model.specs.Looks.{looks_in as looks_of};
ghost use Rattle.binding_model.specs.Sums.{no_sums, sums_after, heavy_from};
ghost use Rattle.binding_model.specs.Taken.{Tracks};
ghost use Rattle.binding_model.specs.Walk.{expr_steps};

use crate::expressions::expression;
use binding_model::Sums;
use found_facts::{facts_in, looks_in, recorder_of, start_from_nothing, start_from_sums};
use ml_trees::Expr;
use rotor_base::{Facts, Looks, MAX_WORK, Memory, Place, Watch};
use shape_core::{FactError, Scope};
use std::alloc::Global;

/// The references, links and groups of an expression in its scope, and the sums after it if `sums` are those before it.
/// Nothing is said of the links if the work is over its bound. The errors are `Heavy`, at the first site to end that is
/// too heavy, and `Memory`. The scope is as it was, also after an `Err`.
#[tactic(auto, using(crate::proofs::Told::refs_told, crate::proofs::Told::links_told, crate::proofs::Told::groups_told, crate::proofs::Told::sums_told, crate::proofs::Told::light_told, crate::proofs::Told::heavy_told))]
pub fn expr_refs(
    alloc: Global,
    scope: &mut Scope,
    file: u32,
    e: &Expr,
    sums: Sums,
) -> Result<(Facts, Sums), FactError>
    requires weight { sums.weight ≤ max_work }
    requires work { sums.work ≤ 4194305 }
    requires opened { sums.opened ≤ max_work }
    requires numbered { IsWithinFile (view e.now) }
    ensures refs { IfOk result (λ done. done.0.refs ≡ (facts_of (expr_steps file (entries_of scope.old) (view e.now))).refs) }
    ensures links { IfOk result (λ done. done.1.work ≤ max_work → done.0.links ≡ (facts_of (expr_steps file (entries_of scope.old) (view e.now))).links) }
    ensures groups { IfOk result (λ done. done.0.groups ≡ (facts_of (expr_steps file (entries_of scope.old) (view e.now))).groups) }
    ensures sums { IfOk result (λ done. Tracks (sums_after sums (expr_steps file (entries_of scope.old) (view e.now))) done.1) }
    ensures light { IsOk result → heavy_from sums (expr_steps file (entries_of scope.old) (view e.now)) ≡ None }
    ensures heavy { (at : Place) → result ≡ Err (Heavy at) → heavy_from sums (expr_steps file (entries_of scope.old) (view e.now)) ≡ Some at }
    ensures scope { scope.new ≡ scope.old }
{
    let mut found = start_from_sums(alloc, sums);
    expression(alloc, &mut found, file, e, scope)?;
    let sums = found.sums;
    let facts = facts_in(found)?;
    Ok((facts, sums))
}

/// What the look-ups of the old or of the new name find in an expression, and would find after the renaming. The links
/// are numbered from 0. `Memory` is the only error: there is no memory, or the work of the expression is over its
/// bound. The scope is as it was, also after an `Err`.
#[tactic(auto, using(crate::proofs::Told::looks_told))]
pub fn expr_looks(
    alloc: Global,
    scope: &mut Scope,
    file: u32,
    e: &Expr,
    watch: &Watch,
) -> Result<Looks, Memory>
    requires numbered { IsWithinFile (view e.now) }
    requires light { heavy_from no_sums (expr_steps file (entries_of scope.old) (view e.now)) ≡ None }
    ensures looks { IfOk result (λ looks. looks ≡ looks_of watch.now (expr_steps file (entries_of scope.old) (view e.now))) }
    ensures scope { scope.new ≡ scope.old }
{
    let recorder = recorder_of(alloc, watch)?;
    let mut found = start_from_nothing(alloc, Some(recorder));
    match expression(alloc, &mut found, file, e, scope) {
        Ok(()) => {}
        Err(_) => return Err(Memory),
    }
    if found.sums.work > MAX_WORK {
        return Err(Memory);
    }
    looks_in(found)
}
