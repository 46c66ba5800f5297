//! The sources of a project, one after another, as their tokens and their trees.

ghost use Rattle.std.specs.Prelude.{◌≡◌, ◌≤◌, All, IfErr, IfOk, List, Some, length, map, slice_get};
ghost use Rattle.rotor_base.specs.declared.source.SourceFile.{SourceFile};
ghost use Rattle.rotor_base.specs.Limits.{max_file_bytes, max_sources};
ghost use Rattle.rotor_base.specs.Stem.{is_body_name};
ghost use Rattle.ml_lexer.specs.Lexed.{Lexed, view_tokens};
ghost use Rattle.ml_trees.specs.View.{view_file};
ghost use Rattle.project_reading.specs.Known.{AreKnown};
ghost use Rattle.project_reading.specs.Source.{IsSourceRefused, ReadsAs, kind_of_source};
ghost use Rattle.project_reading.specs.Sources.{AreCut, AreSourcesRefused, ReadAll};

use crate::known::KnownTrees;
use ml_lexer::{LexError, lex};
use ml_trees::FileTree;
use parse_base::ParseError;
use parse_module::{FileKind, parse_file};
use rotor_base::{Place, Refusal, SourceFile, Token, is_body};
use std::alloc::Global;

/// The tokens of a source with its number.
fn tokens_of<'a>(
    alloc: Global,
    number: u32,
    source: &'a SourceFile,
) -> Result<Vec<Token<'a>>, Refusal>
    requires { length source.now.bytes ≤ max_file_bytes }
    ensures cut { IfOk result (λ tokens. Lexed source.now.bytes (view_tokens tokens.items)) }
    ensures few { IfOk result (λ tokens. length tokens.items ≤ max_file_bytes) }
    ensures refused { IfErr result (IsSourceRefused number source.now) }
{
    match lex(alloc, source.bytes.as_slice()) {
        Ok(tokens) => Ok(tokens),
        Err(LexError::Bad { offset }) => Err(Refusal::Lex {
            file: number,
            offset,
        }),
        Err(LexError::LongName { offset }) => Err(Refusal::LongName {
            file: number,
            offset,
        }),
        Err(LexError::Memory) => Err(Refusal::Memory),
    }
}

/// What a source is, by the ending of its name.
fn kind_of(source: &SourceFile) -> FileKind
    ensures { result ≡ kind_of_source source.now.name }
{
    if is_body(source.name.as_str().as_bytes()) {
        FileKind::Body
    } else {
        FileKind::Face
    }
}

/// The tree of a source with its number, from its tokens.
fn tree_of(
    alloc: Global,
    number: u32,
    source: &SourceFile,
    tokens: &[Token<'_>],
) -> Result<FileTree, Refusal>
    requires few { length tokens.now ≤ max_file_bytes }
    requires cut { Lexed source.now.bytes (view_tokens tokens.now) }
    ensures tree { IfOk result (λ tree. ReadsAs number source.now (view_file tree)) }
    ensures refused { IfErr result (IsSourceRefused number source.now) }
{
    match parse_file(alloc, tokens, number, kind_of(source)) {
        Ok(tree) => Ok(tree),
        Err(ParseError::Form { token, kind }) => Err(Refusal::Form {
            at: Place {
                file: number,
                token,
            },
            kind,
        }),
        Err(ParseError::Deep { token }) => Err(Refusal::Deep {
            at: Place {
                file: number,
                token,
            },
        }),
        Err(ParseError::Syntax) => Err(Refusal::Syntax { file: number }),
        Err(ParseError::Memory) => Err(Refusal::Memory),
    }
}

/// The tree of a source with its number: the one that is known, or what its tokens are read as.
fn find_tree(
    alloc: Global,
    number: u32,
    source: &SourceFile,
    tokens: &[Token<'_>],
    known: &mut KnownTrees,
) -> Result<FileTree, Refusal>
    requires few { length tokens.now ≤ max_file_bytes }
    requires cut { Lexed source.now.bytes (view_tokens tokens.now) }
    ensures tree { IfOk result (λ tree. (sources : List SourceFile) → AreKnown sources known.old → slice_get sources number ≡ Some source.now → ReadsAs number source.now (view_file tree)) }
    ensures refused { IfErr result (IsSourceRefused number source.now) }
    ensures known { (sources : List SourceFile) → AreKnown sources known.old → AreKnown sources known.new }
{
    match known.take(number as usize) {
        Some(tree) => Ok(tree),
        None => tree_of(alloc, number, source, tokens),
    }
}

/// The trees and the tokens of sources, in order. A tree that is known is taken.
pub(crate) fn read_sources<'a>(
    alloc: Global,
    sources: &'a [SourceFile],
    known: KnownTrees,
) -> Result<(Vec<FileTree>, Vec<Vec<Token<'a>>>), Refusal>
    requires known { AreKnown sources.now known }
    requires few { length sources.now ≤ max_sources }
    requires small { All (λ file. length file.bytes ≤ max_file_bytes) sources.now }
    ensures trees { IfOk result (λ read. ReadAll 0 sources.now (map view_file read.0.items)) }
    ensures tokens { IfOk result (λ read. AreCut sources.now (map (λ list. view_tokens list.items) read.1.items)) }
    ensures refused { IfErr result (AreSourcesRefused sources.now) }
{
    let mut left = known;
    let mut trees = Vec::new(alloc);
    let mut cut = Vec::new(alloc);
    for (number, source) in sources.iter().enumerate() {
        let tokens = match tokens_of(alloc, number as u32, source) {
            Ok(tokens) => tokens,
            Err(why) => return Err(why),
        };
        let tree = match find_tree(alloc, number as u32, source, &tokens, &mut left) {
            Ok(tree) => tree,
            Err(why) => return Err(why),
        };
        trees.push(tree)?;
        cut.push(tokens)?;
    }
    Ok((trees, cut))
}
