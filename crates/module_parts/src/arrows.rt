//! The parts before the arrows of a module type.

ghost use Rattle.std.specs.Prelude.{◌≡◌, ℕ, List, Some, IfOk};
ghost use Rattle.ml_trees.specs.Tok.{Tok};
ghost use Rattle.token_reading.specs.Gives.{Gives};
ghost use Rattle.ml_trees.specs.View.{view_mod_type};
ghost use Rattle.module_parts.specs.Arrows.{read_so, before_arrow, before_arrows};

use ml_trees::{FunctorParam, ModType};
use rotor_base::Memory;
use std::alloc::Global;
use token_reading::ReadError;

/// The part before an arrow.
#[derive(Drop)]
pub enum Domain {
    /// The number of the token `functor`, and the parameters behind it.
    Functor { at: u32, params: Vec<FunctorParam> },
    /// A parameter in parentheses.
    Param(FunctorParam),
    /// A module type, and the place after it.
    Plain { body: ModType, end: usize },
}

/// A module type up to its first arrow.
#[derive(Drop)]
pub enum Step {
    /// The part before the arrow.
    Before(Domain),
    /// No arrow follows.
    Whole(ModType),
}

/// An arrow, with the parts before and behind it.
#[tactic(auto, using(ml_trees::proofs::Variants::mod_type_views))]
#[inline(never)]
fn arrow(alloc: Global, domain: Domain, behind: ModType) -> Result<ModType, Memory>
    ensures { IfOk result (λ whole. (end : ℕ → List Tok) (at : ℕ) → read_so end (Some (whole, at)) ≡ before_arrow end domain (read_so end (Some (behind, at)))) }
{
    let behind = Box::new(alloc, behind)?;
    match domain {
        Domain::Functor { at, params } => Ok(ModType::FunctorType {
            at,
            params,
            result: behind,
        }),
        Domain::Param(param) => {
            let param = Box::new(alloc, param)?;
            Ok(ModType::ParamArrow {
                param,
                result: behind,
            })
        }
        Domain::Plain { body, .. } => {
            let param = Box::new(alloc, body)?;
            Ok(ModType::Arrow {
                param,
                result: behind,
            })
        }
    }
}

/// The part before an arrow with what was read behind it, and the place after it. If nothing was, a module type ends
/// before the arrow.
fn with_arrow(
    alloc: Global,
    domain: Domain,
    behind: Option<(ModType, usize)>,
) -> Result<Option<(ModType, usize)>, Memory>
    ensures { IfOk result (λ whole. (end : ℕ → List Tok) → read_so end whole ≡ before_arrow end domain (read_so end behind)) }
{
    match behind {
        Some((found, end)) => Ok(Some((arrow(alloc, domain, found)?, end))),
        None => match domain {
            Domain::Plain { body, end } => Ok(Some((body, end))),
            _ => Ok(None),
        },
    }
}

/// The same for each arrow, from the last on. The errors are `Syntax` and `Memory`.
pub fn with_arrows(
    alloc: Global,
    before: Vec<Domain>,
    last: Option<(ModType, usize)>,
) -> Result<(ModType, usize), ReadError>
    ensures { (end : ℕ → List Tok) → Gives (λ x. (view_mod_type x.0, end x.1)) result (before_arrows end before.items (read_so end last)) }
{
    let mut before = before;
    let mut whole = last;
    while let Some(domain) = before.pop() {
        whole = with_arrow(alloc, domain, whole)?;
    }
    whole.ok_or(ReadError::Syntax)
}
