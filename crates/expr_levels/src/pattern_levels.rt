//! The levels of patterns.

ghost use Rattle.std.specs.Prelude.{◌≡◌, nat_le};
ghost use Rattle.ml_trees.specs.View.{view_pat, view_pat_field, pats, pat_fields};
ghost use Rattle.expr_levels.specs.Height.{pat_height, inside_pat, pats_height, pat_field_height, pat_fields_height};

use ml_trees::{Pat, PatField};

/// Whether a pattern has at most so many levels.
#[cycle(pattern_levels)]
#[tactic(auto, using(crate::proofs::Heights::within_next))]
#[inline(never)]
pub fn pattern_fits(pat: &Pat, levels: usize) -> bool
    ensures { result ≡ nat_le (pat_height (view_pat pat.now)) levels }
{
    levels > 0 && inside_fits(pat, levels - 1)
}

/// Whether the inside of a pattern has at most so many levels.
#[cycle(pattern_levels)]
#[tactic(auto, using(crate::proofs::Heights::within, ml_trees::proofs::Variants::pat_views))]
fn inside_fits(pat: &Pat, levels: usize) -> bool
    ensures { result ≡ nat_le (inside_pat (view_pat pat.now)) levels }
{
    match pat {
        Pat::As { pat, .. } => pattern_fits(pat, levels),
        Pat::Or { first, rest } => pattern_fits(first, levels) && patterns_fit(rest, levels),
        Pat::Tuple { first, rest } => pattern_fits(first, levels) && patterns_fit(rest, levels),
        Pat::Cons { first, rest } => pattern_fits(first, levels) && patterns_fit(rest, levels),
        Pat::ConstrApply { argument, .. } => pattern_fits(argument, levels),
        Pat::TagApply { argument, .. } => pattern_fits(argument, levels),
        Pat::Lazy { pat, .. } => pattern_fits(pat, levels),
        Pat::Exception { pat, .. } => pattern_fits(pat, levels),
        Pat::Any { .. } => true,
        Pat::Value(_) => true,
        Pat::Literal(_) => true,
        Pat::Negative { .. } => true,
        Pat::Range { .. } => true,
        Pat::Constr(_) => true,
        Pat::Tag(_) => true,
        Pat::Bool { .. } => true,
        Pat::Unit { .. } => true,
        Pat::Paren { pat, .. } => pattern_fits(pat, levels),
        Pat::Typed { pat, .. } => pattern_fits(pat, levels),
        Pat::Empty { .. } => true,
        Pat::List { first, rest, .. } => pattern_fits(first, levels) && patterns_fit(rest, levels),
        Pat::Record { first, rest, .. } => field_fits(first, levels) && fields_fit(rest, levels),
        Pat::Opened { pat, .. } => pattern_fits(pat, levels),
    }
}

#[cycle(pattern_levels)]
#[tactic(auto, using(crate::proofs::Heights::within))]
#[inline(never)]
fn patterns_fit(list: &[Pat], levels: usize) -> bool
    ensures { result ≡ nat_le (pats_height (pats list.now)) levels }
{
    for pat in list {
        if !pattern_fits(pat, levels) {
            return false;
        }
    }
    true
}

#[cycle(pattern_levels)]
#[tactic(auto, using(crate::proofs::Heights::within, ml_trees::proofs::Variants::pat_field_views))]
#[inline(never)]
fn field_fits(field: &PatField, levels: usize) -> bool
    ensures { result ≡ nat_le (pat_field_height (view_pat_field field.now)) levels }
{
    match field {
        PatField::Punned { .. } => true,
        PatField::Matched { pat, .. } => pattern_fits(pat, levels),
    }
}

#[cycle(pattern_levels)]
#[tactic(auto, using(crate::proofs::Heights::within))]
#[inline(never)]
fn fields_fit(list: &[PatField], levels: usize) -> bool
    ensures { result ≡ nat_le (pat_fields_height (pat_fields list.now)) levels }
{
    for field in list {
        if !field_fits(field, levels) {
            return false;
        }
    }
    true
}
