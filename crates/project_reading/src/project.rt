//! The project that files are read as.

ghost use Rattle.std.specs.Prelude.{IfErr, IfOk, map};
ghost use Rattle.ml_lexer.specs.Lexed.{view_tokens};
ghost use Rattle.value_sites.specs.Sound.{IsSound};
ghost use Rattle.ml_trees.specs.View.{view_project};
ghost use Rattle.project_reading.specs.Known.{AreKnown};
ghost use Rattle.project_reading.specs.Reads.{IsRefused, Reads};
ghost use Rattle.project_reading.specs.Sources.{AreCut};

use crate::known::KnownTrees;
use crate::order::{link_order, units_at};
use crate::sources::read_sources;
use crate::units::gather_units;
use ml_trees::Project;
use rotor_base::{Files, Refusal, Token};
use std::alloc::Global;

/// What files are read as.
#[derive(Drop)]
pub struct Read<'a> {
    /// The units with their trees, in the order of linking.
    pub project: Project,
    /// The tokens of each source, in order of the sources.
    pub tokens: Vec<Vec<Token<'a>>>,
}

/// The project that files are read as (the manual's chapter on compilation units), with the tokens of its sources.
///
/// # Errors
///
/// Of the first source, in byte order of names, that is not read: `Lex` or `LongName` with the byte at which its
/// cutting stops; else `Form` with the first token at which a refused form begins; else `Deep` with the first token
/// after which the nesting is over the limit; else `Syntax`. Else `Cycle`, if there is no manifest and units remain of
/// which none can be taken, with the first unit that lies on a cycle. `Memory`.
pub fn read_project<'a>(alloc: Global, files: &'a Files) -> Result<Read<'a>, Refusal>
    ensures project { IfOk result (λ read. Reads files.now (view_project read.project)) }
    ensures sound { IfOk result (λ read. IsSound (view_project read.project)) }
    ensures tokens { IfOk result (λ read. AreCut files.now.entries (map (λ list. view_tokens list.items) read.tokens.items)) }
    ensures refused { IfErr result (IsRefused files.now) }
{
    read_rest(alloc, files, KnownTrees::new(alloc))
}

/// What [`read_project`] returns, if some trees are known. A source whose tree is known is cut into tokens, and its
/// tokens are not read. The caller ensures that the known trees are those of the files. The errors are those of
/// [`read_project`].
pub fn read_rest<'a>(
    alloc: Global,
    files: &'a Files,
    known: KnownTrees,
) -> Result<Read<'a>, Refusal>
    requires { AreKnown files.now.entries known }
    ensures project { IfOk result (λ read. Reads files.now (view_project read.project)) }
    ensures sound { IfOk result (λ read. IsSound (view_project read.project)) }
    ensures tokens { IfOk result (λ read. AreCut files.now.entries (map (λ list. view_tokens list.items) read.tokens.items)) }
    ensures refused { IfErr result (IsRefused files.now) }
{
    let sources = files.entries();
    let (trees, tokens) = match read_sources(alloc, sources, known) {
        Ok(read) => read,
        Err(why) => return Err(why),
    };
    let units = gather_units(alloc, sources, trees)?;
    let positions = match link_order(alloc, &units, files.manifest()) {
        Ok(positions) => positions,
        Err(why) => return Err(why),
    };
    let units = units_at(alloc, units, &positions)?;
    Ok(Read {
        project: Project { units },
        tokens,
    })
}
