//! What a project that is kept was read as.
ghost use Rattle.std.specs.Prelude.{◌≡◌, IfOk, List, map};
ghost use Rattle.rotor_base.specs.Files.{FileSet};
ghost use Rattle.ml_lexer.specs.Lexed.{view_tokens};
ghost use Rattle.ml_trees.specs.Tree.{UnitTree};
ghost use Rattle.project_reading.specs.Reads.{Reads};
ghost use Rattle.project_reading.specs.Sources.{AreCut};
ghost use Rattle.refusal_words.specs.Cut.{AreCuts, view_cut};

use ml_trees::Project;
use project_reading::Read;
use refusal_words::CutSource;
use rotor_base::{Memory, Token};
use std::alloc::Global;

/// A project with the tokens of its sources, which are cut. If files of these sources are read as a project, each
/// source is cut into its tokens. The one error is want of memory.
pub fn read_of<'a>(
    alloc: Global,
    project: Project,
    cuts: &[CutSource<'a>],
) -> Result<Read<'a>, Memory>
    ensures project { IfOk result (λ read. read.project ≡ project) }
    ensures tokens { IfOk result (λ read. (files : FileSet) (us : List UnitTree) → AreCuts files.entries (map view_cut cuts.now) → Reads files us → AreCut files.entries (map (λ list. view_tokens list.items) read.tokens.items)) }
{
    let tokens = token_lists(alloc, cuts)?;
    Ok(Read { project, tokens })
}

/// The lists of the tokens of sources.
fn token_lists<'a>(alloc: Global, cuts: &[CutSource<'a>]) -> Result<Vec<Vec<Token<'a>>>, Memory>
    ensures { IfOk result (λ lists. map (λ list. view_tokens list.items) lists.items ≡ map (λ cut. view_tokens cut.tokens.items) cuts.now) }
{
    let mut lists = Vec::new(alloc);
    for cut in cuts {
        lists.push(cut.tokens.to_vec(alloc)?)?;
    }
    Ok(lists)
}
