//! A file's tokens as its tree.

ghost use Rattle.std.specs.Prelude.{◌≡◌, ◌≢◌, ◌≤◌, ◌+◌, length, Err, None, Some, IfOk};
ghost use Rattle.rotor_base.specs.Limits.{max_file_bytes};
ghost use Rattle.ml_trees.specs.View as v;
ghost use Rattle.ml_trees.specs.View.{view_file};
ghost use Rattle.parse_base.specs.Forms.{first_form};
ghost use Rattle.token_reading.specs.Gives.{Gives};
ghost use Rattle.token_reading.specs.Tokens.{from};
ghost use Rattle.parse_base.specs.Nesting.{DeepIs};
ghost use Rattle.parse_base.specs.declared.error.ParseError.TheVariants as refused;
ghost use Rattle.module_reading.specs.ModReading.{body_start, face_start, read_body, read_face};
ghost use Rattle.parse_module.specs.Parts.{read_file};
ghost use Rattle.parse_module.specs.Whole.{IsTreeOf, HasNoTree, told_form, told_deep};

use crate::readers::Readers;
use crate::reading::{read_module, read_module_type};
use ml_trees::{FileTree, Item, SigItem};
use module_parts::Modules;
use parse_base::{ParseError, deep_token, scan_forms};
use parse_expr::MAX_DEEPER;
use rotor_base::Token;
use std::alloc::Global;
use token_reading::{ReadError, TokenTable};

/// What a source is: the body of a unit (`.ml`) or its interface (`.mli`).
#[derive(Clone, Copy, Debug, PartialEq, Eq)]
pub enum FileKind {
    Body,
    Face,
}

/// The items with which the tokens of a body begin, read one after another as long as each can be read whole, and the
/// place after the last one, counted from 0. There are at most 1,048,576 tokens.
///
/// # Errors
///
/// `Memory` alone, as for [`parse_file`].
pub fn body_items(alloc: Global, tokens: &[Token<'_>]) -> Result<(Vec<Item>, usize), ReadError>
    requires few { length tokens.now ≤ max_file_bytes }
    ensures { Gives (λ x. (v.items x.0.items, from tokens.now x.1)) result (Some (body_start (length tokens.now + 1) (from tokens.now 0))) }
{
    let table = TokenTable::new(alloc, tokens)?;
    read_body_items(alloc, &table)
}

/// The items with which the tokens of an interface begin; places and errors as for [`body_items`].
pub fn face_items(alloc: Global, tokens: &[Token<'_>]) -> Result<(Vec<SigItem>, usize), ReadError>
    requires few { length tokens.now ≤ max_file_bytes }
    ensures { Gives (λ x. (v.sig_items x.0.items, from tokens.now x.1)) result (Some (face_start (length tokens.now + 1) (from tokens.now 0))) }
{
    let table = TokenTable::new(alloc, tokens)?;
    read_face_items(alloc, &table)
}

/// The items with which the tokens of a body begin, as [`body_items`] gives them.
fn read_body_items(alloc: Global, tokens: &TokenTable<'_>) -> Result<(Vec<Item>, usize), ReadError>
    requires few { length tokens.now ≤ max_file_bytes }
    ensures { Gives (λ x. (v.items x.0.items, from tokens.now x.1)) result (Some (body_start (length tokens.now + 1) (from tokens.now 0))) }
{
    let readers = Readers {
        parts: Modules {
            alloc,
            depth: tokens.len() + 1,
            levels: MAX_DEEPER,
            modules: read_module,
            types: read_module_type,
        },
    };
    readers.items(tokens, 0)
}

/// The items with which the tokens of an interface begin, as [`face_items`] gives them.
fn read_face_items(
    alloc: Global,
    tokens: &TokenTable<'_>,
) -> Result<(Vec<SigItem>, usize), ReadError>
    requires few { length tokens.now ≤ max_file_bytes }
    ensures { Gives (λ x. (v.sig_items x.0.items, from tokens.now x.1)) result (Some (face_start (length tokens.now + 1) (from tokens.now 0))) }
{
    let parts = Modules {
        alloc,
        depth: tokens.len() + 1,
        levels: MAX_DEEPER,
        modules: read_module,
        types: read_module_type,
    };
    parts.sig_items(tokens, 0)
}

/// The tree of a body, with the number of its file.
fn body(alloc: Global, tokens: &TokenTable<'_>, file: u32) -> Result<FileTree, ReadError>
    requires { length tokens.now ≤ max_file_bytes }
    ensures { Gives view_file result (read_body file (length tokens.now + 1) (from tokens.now 0)) }
{
    let (items, end) = read_body_items(alloc, tokens)?;
    if end < tokens.len() {
        return Err(ReadError::Syntax);
    }
    Ok(FileTree::Body(file, items))
}

/// The tree of an interface, with the number of its file.
fn face(alloc: Global, tokens: &TokenTable<'_>, file: u32) -> Result<FileTree, ReadError>
    requires { length tokens.now ≤ max_file_bytes }
    ensures { Gives view_file result (read_face file (length tokens.now + 1) (from tokens.now 0)) }
{
    let (items, after) = read_face_items(alloc, tokens)?;
    if after < tokens.len() {
        return Err(ReadError::Syntax);
    }
    Ok(FileTree::Face(file, items))
}

/// The tree of a body or of an interface.
fn read_whole(
    alloc: Global,
    tokens: &TokenTable<'_>,
    file: u32,
    kind: FileKind,
) -> Result<FileTree, ReadError>
    requires { length tokens.now ≤ max_file_bytes }
    ensures { Gives view_file result (read_file kind file (length tokens.now + 1) (from tokens.now 0)) }
{
    match kind {
        FileKind::Body => body(alloc, tokens, file),
        FileKind::Face => face(alloc, tokens, file),
    }
}

/// The tree of a whole file (the manual's chapter on compilation units), with the file's number. There are at most
/// 1,048,576 tokens. The Err is `Form` with the first refused form, or else `Deep` with the first token after which the
/// nesting is over 256, or else `Syntax` if no file of this kind has these tokens, or `Memory`. `Memory` is also the
/// answer for a file that nests past the bound on levels.
pub fn parse_file(
    alloc: Global,
    tokens: &[Token<'_>],
    file: u32,
    kind: FileKind,
) -> Result<FileTree, ParseError>
    requires few { length tokens.now ≤ max_file_bytes }
    // It is well-formed, has these words, and no other file of this kind and number has them.
    ensures found { IfOk result (λ tree. IsTreeOf kind file (from tokens.now 0) (view_file tree)) }
    // The answer names the first refused form; if there is none, it names none.
    ensures form { result ≢ Err refused.Memory → first_form 1 tokens.now ≡ told_form result }
    // If there is none, the answer names the first token after which the nesting is over 256, or none if it never is.
    ensures deep { result ≢ Err refused.Memory → first_form 1 tokens.now ≡ None → DeepIs tokens.now (told_deep result) }
    // No file of this kind has these words.
    ensures none { result ≡ Err refused.Syntax → HasNoTree kind file (from tokens.now 0) }
{
    if let Some((token, kind)) = scan_forms(tokens) {
        return Err(ParseError::Form { token, kind });
    }
    let table = TokenTable::new(alloc, tokens)?;
    parse_table(alloc, &table, file, kind)
}

/// The tree of a whole file that has no refused form; errors as for [`parse_file`].
fn parse_table(
    alloc: Global,
    tokens: &TokenTable<'_>,
    file: u32,
    kind: FileKind,
) -> Result<FileTree, ParseError>
    requires few { length tokens.now ≤ max_file_bytes }
    ensures found { IfOk result (λ tree. IsTreeOf kind file (from tokens.now 0) (view_file tree)) }
    ensures form { told_form result ≡ None }
    ensures deep { result ≢ Err refused.Memory → DeepIs tokens.now (told_deep result) }
    ensures none { result ≡ Err refused.Syntax → HasNoTree kind file (from tokens.now 0) }
{
    if let Some(token) = deep_token(alloc, tokens)? {
        return Err(ParseError::Deep { token });
    }
    match read_whole(alloc, tokens, file, kind) {
        Ok(tree) => Ok(tree),
        Err(ReadError::Syntax) => Err(ParseError::Syntax),
        Err(ReadError::Memory) => Err(ParseError::Memory),
    }
}
