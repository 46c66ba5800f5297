//! The laws of expressions, each as the contract of a function.

ghost use Rattle.expr_reading.specs.Longest.{OneExprReading};

/// Two well-formed expressions of the same words are one.
#[tactic(auto, using(crate::proofs::LawsExpr::one_expr_reading))]
pub fn one_expr_reading()
    ensures { OneExprReading }
{}
