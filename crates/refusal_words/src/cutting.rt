//! Sources cut into tokens.
ghost use Rattle.std.specs.Prelude.{◌≡◌, ◌⊎◌, ◌≤◌, All, Err, IfOk, length, map};
ghost use Rattle.rotor_base.specs.Limits.{max_file_bytes};
ghost use Rattle.ml_lexer.specs.Lexed.{view_tokens};
ghost use Rattle.refusal_words.specs.Cut.{AreCuts, AreLexemes, IsCut, view_cut};

use crate::cut::CutSource;
use ml_lexer::{LexError, lex};
use rotor_base::{Memory, SourceFile, Token};
use std::alloc::Global;

/// The sources, each with its tokens. The one error is want of memory.
pub fn cut_sources<'a>(
    alloc: Global,
    sources: &'a [SourceFile],
) -> Result<Vec<CutSource<'a>>, Memory>
    requires { All (λ file. length file.bytes ≤ max_file_bytes) sources.now }
    ensures { IfOk result (λ cuts. AreCuts sources.entry.now (map view_cut cuts.items)) }
{
    let mut cuts = Vec::new(alloc);
    for source in sources {
        cuts.push(cut_source(alloc, source)?)?;
    }
    Ok(cuts)
}

/// A source with its tokens. The one error is want of memory.
pub fn cut_source<'a>(alloc: Global, source: &'a SourceFile) -> Result<CutSource<'a>, Memory>
    requires { length source.now.bytes ≤ max_file_bytes }
    ensures { IfOk result (λ cut. IsCut source.entry.now (view_cut cut)) }
{
    let bytes = source.bytes.as_slice();
    let tokens = tokens_of(alloc, bytes)?;
    Ok(CutSource {
        name: source.name.as_str().as_bytes(),
        bytes,
        tokens,
    })
}

/// The tokens of some bytes; bytes that the lexer refuses have none.
fn tokens_of<'a>(alloc: Global, bytes: &'a [u8]) -> Result<Vec<Token<'a>>, Memory>
    requires { length bytes.now ≤ max_file_bytes }
    ensures { IfOk result (λ tokens. AreLexemes bytes.entry.now (view_tokens tokens.items)) }
{
    match lex(alloc, bytes) {
        Ok(tokens) => Ok(tokens),
        Err(LexError::Bad { .. }) => Ok(Vec::new(alloc)),
        Err(LexError::LongName { .. }) => Ok(Vec::new(alloc)),
        Err(LexError::Memory) => Err(Memory),
    }
}
