//! The law of `let` and `in`, as the contract of a function.

ghost use Rattle.matched_lets.specs.Laws.{LetsHaveTheirIn};

/// Tokens that begin with a well-formed expression do not begin with a `let` whose `in` is missing.
#[tactic(auto, using(crate::proofs::HaveIn::lets_have_their_in))]
pub fn lets_have_their_in()
    ensures { LetsHaveTheirIn }
{}
