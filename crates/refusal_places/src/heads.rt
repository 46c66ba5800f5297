//! The heads of the paths in tokens.
ghost use Rattle.std.specs.Prelude.{◌≡◌, ◌≤◌, ◌+◌, [], All, IfOk, length, map};
ghost use Rattle.rotor_base.specs.Limits.{max_file_bytes};
ghost use Rattle.ml_lexer.specs.Lexed.{view_tokens};
ghost use Rattle.ml_trees.specs.View.{view_unit};
ghost use Rattle.unit_heads.specs.Heads.{unit_heads};
ghost use Rattle.refusal_words.specs.Cut.{view_cut};
ghost use Rattle.refusal_places.specs.Heads.{cut_heads as cut_heads_of, heads_of as heads_for};

use crate::unread::kind_of;
use ml_trees::{FileTree, UnitTree};
use need_chains::UnitHeads;
use parse_module::{FileKind, body_items, face_items};
use refusal_words::CutSource;
use rotor_base::{Memory, Name, Row, Token, source_unit};
use std::alloc::Global;
use unit_order::needs;

/// The units of sources, with the heads in each. The one error is want of memory.
pub(crate) fn all_heads(alloc: Global, cuts: &[CutSource<'_>]) -> Result<Vec<UnitHeads>, Memory>
    requires { All (λ cut. length cut.tokens.items ≤ max_file_bytes) cuts.now }
    ensures { IfOk result (λ heads. heads.items ≡ map cut_heads_of (map view_cut cuts.now)) }
{
    let mut heads = Vec::new(alloc);
    for cut in cuts {
        heads.push(cut_heads(alloc, cut)?)?;
    }
    Ok(heads)
}

/// The unit of a source, and the heads in the source.
fn cut_heads(alloc: Global, cut: &CutSource<'_>) -> Result<UnitHeads, Memory>
    requires { length cut.now.tokens.items ≤ max_file_bytes }
    ensures { IfOk result (λ heads. heads ≡ cut_heads_of (view_cut cut.now)) }
{
    let unit = source_unit(alloc, cut.name)?;
    let heads = heads_of(alloc, &cut.tokens, kind_of(cut.name))?;
    Ok(UnitHeads {
        unit: unit.name,
        heads: Row::from_vec(heads),
    })
}

/// The heads of the items with which tokens begin.
pub(crate) fn heads_of(
    alloc: Global,
    tokens: &[Token<'_>],
    kind: FileKind,
) -> Result<Vec<Name>, Memory>
    requires { length tokens.now ≤ max_file_bytes }
    ensures { IfOk result (λ heads. heads.items ≡ heads_for kind (view_tokens tokens.now)) }
{
    let unit = match kind {
        FileKind::Body => body_unit(alloc, tokens)?,
        FileKind::Face => face_unit(alloc, tokens)?,
    };
    needs(alloc, &unit)
}

/// A unit whose body has the items with which tokens begin.
#[tactic(auto, using(crate::proofs::Heading::body_heads))]
fn body_unit(alloc: Global, tokens: &[Token<'_>]) -> Result<UnitTree, Memory>
    requires { length tokens.now ≤ max_file_bytes }
    ensures { IfOk result (λ unit. unit_heads (view_unit unit) ≡ heads_for FileKind.Body (view_tokens tokens.now)) }
{
    match body_items(alloc, tokens) {
        Ok((items, _)) => Ok(UnitTree {
            name: Name::new(alloc, b"")?,
            body: Some(FileTree::Body(0, items)),
            face: None,
        }),
        Err(_) => Err(Memory),
    }
}

/// A unit whose interface has the items with which tokens begin.
#[tactic(auto, using(crate::proofs::Heading::face_heads))]
fn face_unit(alloc: Global, tokens: &[Token<'_>]) -> Result<UnitTree, Memory>
    requires { length tokens.now ≤ max_file_bytes }
    ensures { IfOk result (λ unit. unit_heads (view_unit unit) ≡ heads_for FileKind.Face (view_tokens tokens.now)) }
{
    match face_items(alloc, tokens) {
        Ok((items, _)) => Ok(UnitTree {
            name: Name::new(alloc, b"")?,
            body: None,
            face: Some(FileTree::Face(0, items)),
        }),
        Err(_) => Err(Memory),
    }
}
