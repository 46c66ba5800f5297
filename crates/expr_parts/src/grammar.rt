//! The context of the readers of expressions.

ghost use Rattle.std.specs.Prelude.{IfOk, IfErr, ◌≡◌, ◌≤◌, length};
ghost use Rattle.rotor_base.specs.Limits.{max_file_bytes};
ghost use Rattle.ml_trees.specs.View.{view};
ghost use Rattle.token_reading.specs.Gives.{Gives};
ghost use Rattle.token_reading.specs.Tokens.{from};
ghost use Rattle.expr_reading.specs.ExprReading as r;
ghost use Rattle.expr_reading.specs.ExprReading.{read_expr};
ghost use Rattle.expr_parts.specs.Reads.{Nests};
ghost use Rattle.token_reading.specs.declared.error.ReadError.TheVariants as unread;

use expr_reading::Wanted;
use ml_trees::{Expr, Fixed};
use std::alloc::Global;
use token_reading::{ReadError, TokenTable, expect_at};

/// The context of the readers of expressions. The reader of what nests deeper is `sub`, so that each reader is proved
/// by itself.
#[derive(Clone, Copy)]
pub struct Grammar<F> {
    pub alloc: Global,
    /// More than the tokens that are left to the expressions within: how often a reader may go down, or a loop turn.
    pub depth: usize,
    /// How many levels expressions may still nest.
    pub levels: usize,
    pub sub: F,
}

impl<
    F: Copy
        + Fn(
            Global,
            &TokenTable<'_>,
            usize,
            usize,
            Wanted,
            usize,
        ) -> Result<(Box<Expr>, usize), ReadError>,
> Grammar<F> {
    /// What is wanted at a place, read by `sub`, and the place after it. The errors are `Syntax` and `Memory`.
    #[inline(never)]
    pub fn sub(
        &self,
        tokens: &TokenTable<'_>,
        wanted: Wanted,
        at: usize,
    ) -> Result<(Box<Expr>, usize), ReadError>
        requires nests { Nests self.now.depth (F.pre self.now.sub) (F.post self.now.sub) }
        requires few { length tokens.now ≤ max_file_bytes }
        ensures { Gives (λ x. (view x.0.value, from tokens.now x.1)) result (read_expr self.now.depth wanted (from tokens.now at)) }
    {
        (self.sub)(self.alloc, tokens, self.depth, self.levels, wanted, at)
    }

    /// The same, by value. The errors are `Syntax` and `Memory`.
    #[inline(never)]
    pub fn value(
        &self,
        tokens: &TokenTable<'_>,
        wanted: Wanted,
        at: usize,
    ) -> Result<(Expr, usize), ReadError>
        requires nests { Nests self.now.depth (F.pre self.now.sub) (F.post self.now.sub) }
        requires few { length tokens.now ≤ max_file_bytes }
        ensures { Gives (λ x. (view x.0, from tokens.now x.1)) result (read_expr self.now.depth wanted (from tokens.now at)) }
    {
        let (value, at) = self.sub(tokens, wanted, at)?;
        Ok((Box::into_inner(value), at))
    }

    /// An `=` and an expression. The errors are `Syntax` and `Memory`.
    #[inline(never)]
    pub fn equals_value(
        &self,
        tokens: &TokenTable<'_>,
        at: usize,
    ) -> Result<((u32, Box<Expr>), usize), ReadError>
        requires nests { Nests self.now.depth (F.pre self.now.sub) (F.post self.now.sub) }
        requires few { length tokens.now ≤ max_file_bytes }
        ensures { Gives (λ x. (x.0.0, view x.0.1.value, from tokens.now x.1)) result (r.equals_expr (read_expr self.now.depth) self.now.depth (from tokens.now at)) }
    {
        let (equals, at) = expect_at(tokens, Fixed::Equals, at)?;
        let (value, at) = self.sub(tokens, Wanted::Expression, at)?;
        Ok(((equals, value), at))
    }

    /// The same readers, one level deeper: an operand is deeper than its operator. `Memory` is the only error.
    #[inline(never)]
    pub fn go_deeper(&self) -> Result<Grammar<F>, ReadError>
        ensures depth { IfOk result (λ g. g.depth ≡ self.now.depth) }
        ensures sub { IfOk result (λ g. g.sub ≡ self.now.sub) }
        ensures memory { IfErr result (λ e. e ≡ unread.Memory) }
    {
        if self.levels == 0 {
            return Err(ReadError::Memory);
        }
        Ok(Grammar {
            alloc: self.alloc,
            depth: self.depth,
            levels: self.levels - 1,
            sub: self.sub,
        })
    }
}
