//! The context of the readers of modules.

ghost use Rattle.std.specs.Prelude.{◌≤◌, length};
ghost use Rattle.rotor_base.specs.Limits.{max_file_bytes};
ghost use Rattle.ml_trees.specs.View as v;
ghost use Rattle.token_reading.specs.Gives.{Gives};
ghost use Rattle.token_reading.specs.Tokens.{from};
ghost use Rattle.module_reading.specs.ModReading.{read_mod, read_type};
ghost use Rattle.module_parts.specs.Reads.{ReadsModules, ReadsTypes};

use ml_trees::{ModExpr, ModType};
use std::alloc::Global;
use token_reading::{ReadError, TokenTable};

/// The context of the readers of modules and module types. The readers of what nests deeper are `modules` and `types`,
/// so that each reader is proved by itself.
#[derive(Clone, Copy)]
pub struct Modules<F, G> {
    pub alloc: Global,
    /// More than the tokens that are left: how often a reader may go down, or a loop turn.
    pub depth: usize,
    /// How many levels may still nest.
    pub levels: usize,
    pub modules: F,
    pub types: G,
}

impl<
    F: Copy
        + Fn(Global, &TokenTable<'_>, usize, usize, usize) -> Result<(ModExpr, usize), ReadError>,
    G: Copy
        + Fn(Global, &TokenTable<'_>, usize, usize, usize) -> Result<(ModType, usize), ReadError>,
> Modules<F, G> {
    /// A module expression, read by `modules`. The errors are `Syntax` and `Memory`.
    pub fn sub_module(
        &self,
        tokens: &TokenTable<'_>,
        at: usize,
    ) -> Result<(ModExpr, usize), ReadError>
        requires modules { ReadsModules self.now.depth (F.pre self.now.modules) (F.post self.now.modules) }
        requires types { ReadsTypes self.now.depth (G.pre self.now.types) (G.post self.now.types) }
        requires few { length tokens.now ≤ max_file_bytes }
        ensures { Gives (λ x. (v.view_mod x.0, from tokens.now x.1)) result (read_mod self.now.depth (from tokens.now at)) }
    {
        (self.modules)(self.alloc, tokens, self.depth, self.levels, at)
    }

    /// A module type, read by `types`. The errors are `Syntax` and `Memory`.
    pub fn sub_type(
        &self,
        tokens: &TokenTable<'_>,
        at: usize,
    ) -> Result<(ModType, usize), ReadError>
        requires modules { ReadsModules self.now.depth (F.pre self.now.modules) (F.post self.now.modules) }
        requires types { ReadsTypes self.now.depth (G.pre self.now.types) (G.post self.now.types) }
        requires few { length tokens.now ≤ max_file_bytes }
        ensures { Gives (λ x. (v.view_mod_type x.0, from tokens.now x.1)) result (read_type self.now.depth (from tokens.now at)) }
    {
        (self.types)(self.alloc, tokens, self.depth, self.levels, at)
    }
}
