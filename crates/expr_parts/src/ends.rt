//! Small tests of expressions.

ghost use Rattle.std.specs.Prelude.{◌≡◌};
ghost use Rattle.ml_trees.specs.View.{view, view_field, links, fields};
ghost use Rattle.token_reading.specs.Tokens.{from};
ghost use Rattle.expr_reading.specs.ExprReading as r;
ghost use Rattle.ml_trees.specs.WellFormed.{is_constr, is_bare, is_postfix};

use crate::edge::{Edge, is_calm, on_edge};
use ml_trees::{Expr, Field, Fixed};
use token_reading::{Kind, TokenTable, kind_at};

/// Whether it is a constructor, alone or behind Prefix words.
#[tactic(auto, unfolding(ml_trees::specs::View::view))]
#[inline(never)]
pub fn is_constr(expr: &Expr) -> bool
    ensures { result ≡ is_constr (view expr.now) }
{
    match expr {
        Expr::Constr(_) => true,
        Expr::Prefixed { operand, .. } => is_constr(operand),
        _ => false,
    }
}

/// Whether it is a constructor or a tag without an argument.
#[tactic(auto, unfolding(ml_trees::specs::View::view))]
#[inline(never)]
pub fn is_bare(expr: &Expr) -> bool
    ensures { result ≡ is_bare (view expr.now) }
{
    matches!(expr, Expr::Constr(_) | Expr::Tag(_))
}

/// Whether it has parts behind it.
#[tactic(auto, unfolding(ml_trees::specs::View::view))]
#[inline(never)]
pub fn is_postfix(expr: &Expr) -> bool
    ensures { result ≡ is_postfix (view expr.now) }
{
    match expr {
        Expr::Postfix { .. } => true,
        _ => false,
    }
}

/// Whether the operator at a place may follow.
#[inline(never)]
pub fn goes_on(expr: &Expr, tokens: &TokenTable<'_>, at: usize) -> bool
    ensures { result ≡ r.goes_on (view expr.now) (from tokens.now at) }
{
    match kind_at(tokens, at) {
        Kind::Fixed(Fixed::LeftArrow) => is_calm(expr) && is_postfix(expr),
        _ => is_calm(expr),
    }
}

/// Whether a `;` may follow a field.
#[tactic(auto, using(ml_trees::proofs::Variants::field_views))]
#[inline(never)]
pub fn ends_field(field: &Field) -> bool
    ensures { result ≡ r.ends_field (view_field field.now) }
{
    match field {
        Field::FieldPun { .. } => true,
        Field::Assigned { value, .. } => !on_edge(Edge::Form, value),
    }
}

/// The same of the last of some fields.
#[inline(never)]
pub fn fields_end(first: &Field, rest: &[Field]) -> bool
    ensures { result ≡ r.ends_field (r.last_field (view_field first.now) (fields rest.now)) }
{
    match rest.last() {
        Some(field) => ends_field(field),
        None => ends_field(first),
    }
}

/// Whether a `;` may follow a row of expressions.
#[inline(never)]
pub fn row_ends(first: &Expr, rest: &[Expr]) -> bool
    ensures { result ≡ r.no_form (r.last_of (view first.now) (links rest.now)) }
{
    match rest.last() {
        Some(expr) => !on_edge(Edge::Form, expr),
        None => !on_edge(Edge::Form, first),
    }
}
