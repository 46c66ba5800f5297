//! The knot of the readers.

ghost use Rattle.std.specs.Prelude.{◌≤◌, length};
ghost use Rattle.rotor_base.specs.Limits.{max_file_bytes};
ghost use Rattle.ml_trees.specs.View.{view};
ghost use Rattle.token_reading.specs.Gives.{Gives};
ghost use Rattle.token_reading.specs.Tokens.{from};
ghost use Rattle.expr_reading.specs.ExprReading as r;
ghost use Rattle.expr_reading.specs.ExprReading.{read_expr};
ghost use Rattle.expr_parts.specs.Reads.{Nests};

use crate::readers::Readers;
use expr_atoms::Atoms;
use expr_levels::fits;
use expr_parts::Grammar;
use expr_reading::Wanted;
use ml_trees::Expr;
use std::alloc::Global;
use token_reading::{ReadError, TokenTable};

/// At how many levels the readers ask once whether what they have read has too many. In between, a tree may become some
/// fourteen nodes higher at each level.
const LEVELS_PER_TEST: usize = 16;

/// What is wanted at a place, nested at most so deep and of at most so many levels, and the place after it. The errors
/// are `Syntax` and `Memory`.
#[inline(never)]
pub fn read(
    alloc: Global,
    tokens: &TokenTable<'_>,
    depth: usize,
    levels: usize,
    wanted: Wanted,
    at: usize,
) -> Result<(Box<Expr>, usize), ReadError>
    requires { length tokens.now ≤ max_file_bytes }
    ensures { Gives (λ x. (view x.0.value, from tokens.now x.1)) result (read_expr depth wanted (from tokens.now at)) }
{
    let (tree, end) = read_nested(alloc, tokens, depth, levels, wanted, at)?;
    if !is_low(&tree, end.saturating_sub(at), levels) {
        return Err(ReadError::Memory);
    }
    Ok((tree, end))
}

/// The same, but that the tree may have more levels: it is tested at every sixteenth one.
#[tactic(auto, unfolding(expr_reading::specs::ExprReading::read_expr))]
#[inline(never)]
fn read_nested(
    alloc: Global,
    tokens: &TokenTable<'_>,
    depth: usize,
    levels: usize,
    wanted: Wanted,
    at: usize,
) -> Result<(Box<Expr>, usize), ReadError>
    requires { length tokens.now ≤ max_file_bytes }
    ensures { Gives (λ x. (view x.0.value, from tokens.now x.1)) result (read_expr depth wanted (from tokens.now at)) }
{
    if depth == 0 {
        return Err(ReadError::Syntax);
    }
    if levels == 0 {
        return Err(ReadError::Memory);
    }
    let readers = Readers {
        grammar: Grammar {
            alloc,
            depth: depth - 1,
            levels: levels - 1,
            sub: read_nested,
        },
    };
    let (tree, end) = readers.read_wanted(tokens, wanted, at)?;
    if levels % LEVELS_PER_TEST == LEVELS_PER_TEST / 2
        && !is_low(&tree, end.saturating_sub(at), levels)
    {
        return Err(ReadError::Memory);
    }
    Ok((tree, end))
}

/// Whether a tree of so many words has at most so many levels. No tree has more levels than words.
#[inline(never)]
pub(crate) fn is_low(tree: &Expr, words: usize, levels: usize) -> bool {
    words <= levels || fits(tree, levels)
}

impl<
    F: Copy
        + Fn(
            Global,
            &TokenTable<'_>,
            usize,
            usize,
            Wanted,
            usize,
        ) -> Result<(Box<Expr>, usize), ReadError>,
> Readers<F> {
    /// What is wanted at a place.
    #[inline(never)]
    fn read_wanted(
        &self,
        tokens: &TokenTable<'_>,
        wanted: Wanted,
        at: usize,
    ) -> Result<(Box<Expr>, usize), ReadError>
        requires nests { Nests self.now.grammar.depth (F.pre self.now.grammar.sub) (F.post self.now.grammar.sub) }
        requires few { length tokens.now ≤ max_file_bytes }
        ensures { Gives (λ x. (view x.0.value, from tokens.now x.1)) result (r.one_of (read_expr self.now.grammar.depth) self.now.grammar.depth wanted (from tokens.now at)) }
    {
        let atoms = Atoms {
            grammar: self.grammar,
        };
        match wanted {
            Wanted::Sequence => self.sequence(tokens, at),
            Wanted::Expression => self.expression(tokens, at),
            Wanted::Operand => self.read_unary(tokens, at),
            Wanted::Postfix => atoms.postfix(tokens, at),
            Wanted::Prefixed => atoms.read_prefixed(tokens, at),
        }
    }
}
