//! Items that hold expressions.

ghost use Rattle.std.specs.Prelude.{◌≤◌, ◌<◌, ◌+◌, length};
ghost use Rattle.rotor_base.specs.Limits.{max_file_bytes};
ghost use Rattle.ml_trees.specs.View.{view, view_item};
ghost use Rattle.token_reading.specs.Gives.{Gives};
ghost use Rattle.token_reading.specs.Tokens.{from};
ghost use Rattle.expr_reading.specs.declared.wanted.Wanted.TheVariants as wanted;
ghost use Rattle.expr_reading.specs.ExprReading.{read_expr};
ghost use Rattle.module_reading.specs.ModReading as r;

use expr_forms::Forms;
use expr_parts::Grammar;
use expr_reading::Wanted;
use ml_trees::{Expr, Fixed, Item};
use parse_expr::read;
use std::alloc::Global;
use token_reading::{Kind, ReadError, TokenTable, kind_at, number};

/// What is wanted at a place, as the function that the readers of bindings call.
fn read_nested(
    alloc: Global,
    tokens: &TokenTable<'_>,
    depth: usize,
    levels: usize,
    wanted: Wanted,
    at: usize,
) -> Result<(Box<Expr>, usize), ReadError>
    requires { length tokens.now ≤ max_file_bytes }
    ensures { Gives (λ x. (view x.0.value, from tokens.now x.1)) result (read_expr depth wanted (from tokens.now at)) }
{
    read(alloc, tokens, depth, levels, wanted, at)
}

/// A sequence expression.
pub(crate) fn sequence(
    alloc: Global,
    tokens: &TokenTable<'_>,
    depth: usize,
    levels: usize,
    at: usize,
) -> Result<(Expr, usize), ReadError>
    requires { length tokens.now ≤ max_file_bytes }
    ensures { Gives (λ x. (view x.0, from tokens.now x.1)) result (read_expr depth wanted.Sequence (from tokens.now at)) }
{
    let (tree, after) = read(alloc, tokens, depth, levels, Wanted::Sequence, at)?;
    Ok((Box::into_inner(tree), after))
}

/// The bindings of the item `let` at `start`.
#[tactic(auto, using(ml_trees::proofs::Variants::item_views))]
fn some_bindings(
    alloc: Global,
    tokens: &TokenTable<'_>,
    depth: usize,
    levels: usize,
    start: usize,
    recursive: bool,
    at: usize,
) -> Result<(Item, usize), ReadError>
    requires few { length tokens.now ≤ max_file_bytes }
    requires begun { start < length tokens.now }
    ensures { Gives (λ x. (view_item x.0, from tokens.now x.1)) result (r.some_bindings depth recursive (start + 1) (from tokens.now at)) }
{
    let forms = Forms {
        grammar: Grammar {
            alloc,
            depth,
            levels,
            sub: read_nested,
        },
    };
    let ((first, rest), at) = forms.all_bindings(tokens, at)?;
    let first = Box::into_inner(first);
    let item = Item::Value {
        at: number(start),
        recursive,
        first,
        rest,
    };
    Ok((item, at))
}

/// After the `let` at a place: an item.
#[tactic(auto, unfolding(module_reading::specs::ModReading::value_rest))]
pub(crate) fn value_item(
    alloc: Global,
    tokens: &TokenTable<'_>,
    depth: usize,
    levels: usize,
    at: usize,
) -> Result<(Item, usize), ReadError>
    requires few { length tokens.now ≤ max_file_bytes }
    requires begun { at < length tokens.now }
    ensures { Gives (λ x. (view_item x.0, from tokens.now x.1)) result (r.value_rest depth (at + 1) (from tokens.now (at + 1))) }
{
    match kind_at(tokens, at + 1) {
        Kind::Fixed(Fixed::Rec) => some_bindings(alloc, tokens, depth, levels, at, true, at + 2),
        _ => some_bindings(alloc, tokens, depth, levels, at, false, at + 1),
    }
}
