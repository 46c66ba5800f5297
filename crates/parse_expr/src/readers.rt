//! The readers of expressions.

ghost use Rattle.std.specs.Prelude.{◌≡◌, IfOk, IfErr};
ghost use Rattle.token_reading.specs.declared.error.ReadError.TheVariants as unread;

use expr_parts::Grammar;
use expr_reading::Wanted;
use ml_trees::Expr;
use std::alloc::Global;
use token_reading::{ReadError, TokenTable};

/// The readers of expressions, over their context.
#[derive(Clone, Copy)]
pub(crate) struct Readers<F> {
    pub(crate) grammar: Grammar<F>,
}

impl<
    F: Copy
        + Fn(
            Global,
            &TokenTable<'_>,
            usize,
            usize,
            Wanted,
            usize,
        ) -> Result<(Box<Expr>, usize), ReadError>,
> Readers<F> {
    /// The same readers, one level deeper.
    #[inline(never)]
    pub(crate) fn go_deeper(&self) -> Result<Readers<F>, ReadError>
        ensures depth { IfOk result (λ r. r.grammar.depth ≡ self.now.grammar.depth) }
        ensures sub { IfOk result (λ r. r.grammar.sub ≡ self.now.grammar.sub) }
        ensures memory { IfErr result (λ e. e ≡ unread.Memory) }
    {
        Ok(Readers {
            grammar: self.grammar.go_deeper()?,
        })
    }
}
