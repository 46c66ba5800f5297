//! The right edge of an expression.

ghost use Rattle.std.specs.Prelude.{◌≡◌};
ghost use Rattle.ml_trees.specs.View.{view};
ghost use Rattle.ml_trees.specs.WellFormed.{on_edge};
ghost use Rattle.expr_reading.specs.ExprReading.{is_calm};
ghost use Rattle.expr_parts.specs.Edges.{test_of};

use ml_trees::Expr;

/// What is looked for on the right edge.
#[derive(Clone, Copy, Debug, PartialEq, Eq)]
pub enum Edge {
    /// A form of level 1.
    Form,
    If,
    /// An `if` that lacks a closing `else`.
    OpenIf,
    /// A `match`, `try` or `function`.
    Cases,
}

/// Whether the right edge has what is looked for.
#[tactic(auto, unfolding(ml_trees::specs::View::view))]
#[inline(never)]
pub fn on_edge(looked_for: Edge, expr: &Expr) -> bool
    ensures { result ≡ on_edge (test_of looked_for) (view expr.now) }
{
    match expr {
        Expr::Seq { first, rest, last } => {
            if *last {
                return false;
            }
            match rest.last() {
                Some(operand) => on_edge(looked_for, operand),
                None => on_edge(looked_for, first),
            }
        }
        Expr::Let { body, .. } => looked_for == Edge::Form || on_edge(looked_for, body),
        Expr::LetOpen { body, .. } => looked_for == Edge::Form || on_edge(looked_for, body),
        Expr::LetModule { body, .. } => looked_for == Edge::Form || on_edge(looked_for, body),
        Expr::Fun { body, .. } => looked_for == Edge::Form || on_edge(looked_for, body),
        Expr::Function { first, rest, .. } => match looked_for {
            Edge::Form => true,
            Edge::Cases => true,
            _ => match rest.last() {
                Some(case) => on_edge(looked_for, &case.body),
                None => on_edge(looked_for, &first.body),
            },
        },
        Expr::Match { first, rest, .. } => match looked_for {
            Edge::Form => true,
            Edge::Cases => true,
            _ => match rest.last() {
                Some(case) => on_edge(looked_for, &case.body),
                None => on_edge(looked_for, &first.body),
            },
        },
        Expr::Try { first, rest, .. } => match looked_for {
            Edge::Form => true,
            Edge::Cases => true,
            _ => match rest.last() {
                Some(case) => on_edge(looked_for, &case.body),
                None => on_edge(looked_for, &first.body),
            },
        },
        Expr::If {
            then,
            more,
            otherwise,
            ..
        } => match looked_for {
            Edge::If => true,
            _ => match otherwise {
                Some(operand) => on_edge(looked_for, operand),
                None => match looked_for {
                    Edge::OpenIf => true,
                    _ => match more.last() {
                        Some(branch) => on_edge(looked_for, &branch.then),
                        None => on_edge(looked_for, then),
                    },
                },
            },
        },
        Expr::Assign { first, rest } => match rest.last() {
            Some(link) => on_edge(looked_for, &link.1),
            None => on_edge(looked_for, first),
        },
        Expr::Tuple { first, rest } => match rest.last() {
            Some(operand) => on_edge(looked_for, operand),
            None => on_edge(looked_for, first),
        },
        Expr::Chain { first, rest, .. } => match rest.last() {
            Some(link) => on_edge(looked_for, &link.1),
            None => on_edge(looked_for, first),
        },
        Expr::Minus { operand, .. } => on_edge(looked_for, operand),
        _ => false,
    }
}

/// Whether an operator may follow.
#[inline(never)]
pub fn is_calm(expr: &Expr) -> bool
    ensures { result ≡ is_calm (view expr.now) }
{
    !on_edge(Edge::Form, expr) && !on_edge(Edge::If, expr)
}
