//! An expression and the row behind it, as one expression.

ghost use Rattle.std.specs.Prelude.{◌≡◌, ◌+◌, ◌∷◌, [], Some};
ghost use Rattle.ml_trees.specs.View.{view, links, commas, ops, arguments, parts};
ghost use Rattle.token_reading.specs.Gives.{Gives};
ghost use Rattle.expr_reading.specs.ExprReading as r;
ghost use Rattle.std.specs.Prelude.{◌++◌, OnOk, IfErr};
ghost use Rattle.token_reading.specs.declared.error.ReadError.TheVariants as unread;

use ml_trees::{Argument, Expr, Part, Word};
use std::alloc::Global;
use token_reading::{ReadError, boxed};

/// Adds to a row what a box holds. `Memory` is the only error.
#[inline(never)]
pub fn push_boxed<T: Drop>(row: &mut Vec<T>, next: Box<T>) -> Result<(), ReadError>
    ensures items { OnOk result (row.new.items ≡ row.old.items ++ next.value ∷ []) }
    ensures memory { IfErr result (λ e. e ≡ unread.Memory) }
{
    row.push(Box::into_inner(next))?;
    Ok(())
}

/// Expressions between `;`, with or without a last `;`. `Memory` is the only error.
#[tactic(auto, using(crate::proofs::Rows::grown, ml_trees::proofs::Variants::expr_views))]
#[inline(never)]
pub fn grown_seq(
    alloc: Global,
    first: Box<Expr>,
    rest: Vec<Expr>,
    last: bool,
) -> Result<Box<Expr>, ReadError>
    ensures { Gives (λ e. view e.value) result (Some (r.grown_seq (view first.value) (links rest.items) last)) }
{
    if !last && rest.len() == 0 {
        return Ok(first);
    }
    boxed(alloc, Expr::Seq { first, rest, last })
}

/// Operands between `:=` or `<-`. `Memory` is the only error.
#[tactic(auto, using(crate::proofs::Rows::grown, ml_trees::proofs::Variants::expr_views))]
#[inline(never)]
pub fn grown_assign(
    alloc: Global,
    first: Box<Expr>,
    rest: Vec<(Word, Expr)>,
) -> Result<Box<Expr>, ReadError>
    ensures { Gives (λ e. view e.value) result (Some (r.grown_chain 3 (view first.value) (ops rest.items))) }
{
    if rest.len() == 0 {
        return Ok(first);
    }
    boxed(alloc, Expr::Assign { first, rest })
}

/// Operands between `,`. `Memory` is the only error.
#[tactic(auto, using(crate::proofs::Rows::grown, ml_trees::proofs::Variants::expr_views))]
#[inline(never)]
pub fn grown_tuple(alloc: Global, first: Box<Expr>, rest: Vec<Expr>) -> Result<Box<Expr>, ReadError>
    ensures { Gives (λ e. view e.value) result (Some (r.grown_chain 4 (view first.value) (commas rest.items))) }
{
    if rest.len() == 0 {
        return Ok(first);
    }
    boxed(alloc, Expr::Tuple { first, rest })
}

/// Operands between operators of one level. `Memory` is the only error.
#[tactic(auto, using(crate::proofs::Rows::grown, ml_trees::proofs::Variants::expr_views))]
#[inline(never)]
pub fn grown_chain(
    alloc: Global,
    first: Box<Expr>,
    level: u32,
    rest: Vec<(Word, Expr)>,
) -> Result<Box<Expr>, ReadError>
    ensures { Gives (λ e. view e.value) result (Some (r.grown_chain level (view first.value) (ops rest.items))) }
{
    if rest.len() == 0 {
        return Ok(first);
    }
    boxed(alloc, Expr::Chain { level, first, rest })
}

/// A function and its arguments. `Memory` is the only error.
#[tactic(auto, using(crate::proofs::Rows::grown, ml_trees::proofs::Variants::expr_views))]
#[inline(never)]
pub fn grown_apply(
    alloc: Global,
    first: Box<Expr>,
    rest: Vec<Argument>,
) -> Result<Box<Expr>, ReadError>
    ensures { Gives (λ e. view e.value) result (Some (r.grown_apply (view first.value) (arguments rest.items))) }
{
    if rest.len() == 0 {
        return Ok(first);
    }
    boxed(
        alloc,
        Expr::Apply {
            function: first,
            arguments: rest,
        },
    )
}

/// An expression and the parts behind it. `Memory` is the only error.
#[tactic(auto, using(crate::proofs::Rows::grown, ml_trees::proofs::Variants::expr_views))]
#[inline(never)]
pub fn grown_postfix(
    alloc: Global,
    first: Box<Expr>,
    rest: Vec<Part>,
) -> Result<Box<Expr>, ReadError>
    ensures { Gives (λ e. view e.value) result (Some (r.grown_postfix (view first.value) (parts rest.items))) }
{
    if rest.len() == 0 {
        return Ok(first);
    }
    boxed(
        alloc,
        Expr::Postfix {
            base: first,
            parts: rest,
        },
    )
}
