//! A pattern and the row behind it, as one pattern.

ghost use Rattle.std.specs.Prelude.{Some};
ghost use Rattle.ml_trees.specs.View.{view_names, view_pat, pats};
ghost use Rattle.token_reading.specs.PatReading as r;
ghost use Rattle.token_reading.specs.Gives.{Gives};

use ml_trees::{Pat, ValueName};
use std::alloc::Global;
use token_reading::{ReadError, boxed};

/// A pattern and the names behind it, as one pattern. `Memory` is the only error.
#[tactic(auto, using(crate::proofs::Lone::grown, ml_trees::proofs::Variants::pat_views))]
#[inline(never)]
pub fn grown_as(alloc: Global, first: Pat, names: Vec<ValueName>) -> Result<Pat, ReadError>
    ensures { Gives view_pat result (Some (r.grown_as (view_pat first) (view_names names.items))) }
{
    if names.len() == 0 {
        return Ok(first);
    }
    let pat = boxed(alloc, first)?;
    Ok(Pat::As { pat, names })
}

/// A pattern and those behind it between `|`, as one pattern. `Memory` is the only error.
#[tactic(auto, using(crate::proofs::Lone::grown, ml_trees::proofs::Variants::pat_views))]
#[inline(never)]
pub fn grown_or(alloc: Global, first: Pat, rest: Vec<Pat>) -> Result<Pat, ReadError>
    ensures { Gives view_pat result (Some (r.grown_or (view_pat first) (pats rest.items))) }
{
    if rest.len() == 0 {
        return Ok(first);
    }
    let first = boxed(alloc, first)?;
    Ok(Pat::Or { first, rest })
}

/// A pattern and those behind it between `,`, as one pattern. `Memory` is the only error.
#[tactic(auto, using(crate::proofs::Lone::grown, ml_trees::proofs::Variants::pat_views))]
#[inline(never)]
pub fn grown_tuple(alloc: Global, first: Pat, rest: Vec<Pat>) -> Result<Pat, ReadError>
    ensures { Gives view_pat result (Some (r.grown_tuple (view_pat first) (pats rest.items))) }
{
    if rest.len() == 0 {
        return Ok(first);
    }
    let first = boxed(alloc, first)?;
    Ok(Pat::Tuple { first, rest })
}

/// A pattern and those behind it between `::`, as one pattern. `Memory` is the only error.
#[tactic(auto, using(crate::proofs::Lone::grown, ml_trees::proofs::Variants::pat_views))]
#[inline(never)]
pub fn grown_cons(alloc: Global, first: Pat, rest: Vec<Pat>) -> Result<Pat, ReadError>
    ensures { Gives view_pat result (Some (r.grown_cons (view_pat first) (pats rest.items))) }
{
    if rest.len() == 0 {
        return Ok(first);
    }
    let first = boxed(alloc, first)?;
    Ok(Pat::Cons { first, rest })
}
