//! The knot of the readers.

ghost use Rattle.std.specs.Prelude.{◌≤◌, length};
ghost use Rattle.rotor_base.specs.Limits.{max_file_bytes};
ghost use Rattle.ml_trees.specs.View as v;
ghost use Rattle.token_reading.specs.Gives.{Gives};
ghost use Rattle.token_reading.specs.Tokens.{from};
ghost use Rattle.module_reading.specs.ModReading.{read_mod, read_type};

use crate::readers::Readers;
use ml_trees::{ModExpr, ModType};
use module_parts::{Modules, Step, with_arrows};
use std::alloc::Global;
use token_reading::{ReadError, TokenTable};

/// A module expression, nested at most so deep and over at most so many levels, and the place after it.
#[cycle(modules)]
#[tactic(auto, unfolding(module_reading::specs::ModReading::read_mod))]
pub(crate) fn read_module(
    alloc: Global,
    tokens: &TokenTable<'_>,
    depth: usize,
    levels: usize,
    at: usize,
) -> Result<(ModExpr, usize), ReadError>
    requires { length tokens.now ≤ max_file_bytes }
    ensures { Gives (λ x. (v.view_mod x.0, from tokens.now x.1)) result (read_mod depth (from tokens.now at)) }
{
    if depth == 0 {
        return Err(ReadError::Syntax);
    }
    if levels == 0 {
        return Err(ReadError::Memory);
    }
    let readers = Readers {
        parts: Modules {
            alloc,
            depth: depth - 1,
            levels: levels - 1,
            modules: read_module,
            types: read_module_type,
        },
    };
    readers.module(tokens, at)
}

/// A module type, the same. A loop reads the part before each arrow; each arrow is a level.
#[cycle(modules)]
#[tactic(auto, unfolding(module_reading::specs::ModReading::read_type))]
pub(crate) fn read_module_type(
    alloc: Global,
    tokens: &TokenTable<'_>,
    depth: usize,
    levels: usize,
    at: usize,
) -> Result<(ModType, usize), ReadError>
    requires { length tokens.now ≤ max_file_bytes }
    ensures { Gives (λ x. (v.view_mod_type x.0, from tokens.now x.1)) result (read_type depth (from tokens.now at)) }
{
    let mut before = Vec::new(alloc);
    let mut at = at;
    for turn in 0..depth {
        if turn >= levels {
            return Err(ReadError::Memory);
        }
        let readers = Readers {
            parts: Modules {
                alloc,
                depth: depth - turn - 1,
                levels: levels - turn - 1,
                modules: read_module,
                types: read_module_type,
            },
        };
        let (step, after) = match readers.step(tokens, at) {
            Ok(found) => found,
            Err(ReadError::Syntax) => return with_arrows(alloc, before, None),
            Err(ReadError::Memory) => return Err(ReadError::Memory),
        };
        match step {
            Step::Before(domain) => {
                before.push(domain)?;
                at = after;
            }
            Step::Whole(last) => return with_arrows(alloc, before, Some((last, after))),
        }
    }
    with_arrows(alloc, before, None)
}
