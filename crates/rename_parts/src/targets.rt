//! The place that a target names.

ghost use Rattle.std.specs.Prelude.{◌≡◌, ◌<◌, ◌≤◌, IfSome, length};
ghost use Rattle.std.specs.Option.{option_copied};
ghost use Rattle.rotor_base.specs.Limits.{max_file_bytes, max_sources};
ghost use Rattle.ml_lexer.specs.Lexed.{view_tokens};
ghost use Rattle.shape_core.specs.Node.{entries_of};
ghost use Rattle.shape_core.specs.Shape.{entries_in, find_mod, find_mty, or_else};
ghost use Rattle.rename_model.specs.Target.{number_of, offset_of, lexeme_over, token_over, decl_found, dotted};

use rotor_base::{Goal, Name, Place, SourceFile, Token};
use shape_core::{Scope, Shared, mod_in, mod_of, mty_in, mty_of, val_in, val_of};

/// The position of the source of this name in the list, or none if the list lacks it.
pub fn number_of(files: &[SourceFile], name: &[u8]) -> Option<u32>
    requires { length files.now ≤ max_sources }
    ensures found { result ≡ number_of files.now name.now }
    ensures within { IfSome result (λ number. number < length files.now) }
{
    let mut number: u32 = 0;
    for file in files {
        if file.name.as_str().as_bytes() == name {
            return Some(number);
        }
        number += 1;
    }
    None
}

/// The number of the token that holds the byte at a line and a column, all three from 1.
pub fn token_at(bytes: &[u8], tokens: &[Token], line: u32, column: u32) -> Option<u32>
    requires bytes { length bytes.now ≤ max_file_bytes }
    requires tokens { length tokens.now ≤ max_file_bytes }
    ensures { result ≡ token_over (line, column) bytes.now (view_tokens tokens.now) }
{
    let offset = offset_of(bytes, line, column)?;
    lexeme_over(tokens, offset)
}

/// The offset of the byte at a line and a column; a line ends before its LF.
fn offset_of(bytes: &[u8], line: u32, column: u32) -> Option<u32>
    requires { length bytes.now ≤ max_file_bytes }
    ensures { result ≡ offset_of (line, column) bytes.now }
{
    let mut offset: u32 = 0;
    let mut at_line: u32 = 1;
    let mut at_column: u32 = 1;
    for byte in bytes {
        if at_line == line && at_column == column {
            return if *byte == b'\n' { None } else { Some(offset) };
        }
        if *byte == b'\n' {
            at_line += 1;
            at_column = 1;
        } else {
            at_column += 1;
        }
        offset += 1;
    }
    None
}

/// The number of the token that holds a byte, from 1.
fn lexeme_over(tokens: &[Token], offset: u32) -> Option<u32>
    requires { length tokens.now ≤ max_file_bytes }
    ensures { result ≡ lexeme_over offset (view_tokens tokens.now) }
{
    let mut number: u32 = 1;
    for token in tokens {
        if token.start <= offset && offset < token.end {
            return Some(number);
        }
        number += 1;
    }
    None
}

/// The declaration that a dotted path names, walked from a scope.
pub fn find_dotted(top: &Scope, path: &[Name]) -> Option<Place>
    ensures { result ≡ dotted (entries_of top.now) path.now }
{
    let (first, rest) = path.split_first()?;
    if rest.is_empty() {
        return declaration_of(val_in(top, first.as_bytes()));
    }
    walk_dotted(step_from(top, first)?, rest)
}

/// The declaration that a dotted path names, walked from a module.
fn walk_dotted(shape: &Shared, path: &[Name]) -> Option<Place>
    ensures { result ≡ dotted (entries_in shape.now) path.now }
{
    let mut inside = shape;
    for (at, name) in path.iter().enumerate() {
        if at + 1 == path.len() {
            return declaration_of(val_of(inside, name.as_bytes()));
        }
        inside = step_in(inside, name)?;
    }
    None
}

/// The last module of a name in a scope, else the last module type of that name.
fn step_from<'a>(top: &'a Scope, name: &Name) -> Option<&'a Shared>
    ensures { option_copied result ≡ or_else (find_mod (entries_of top.now) name.now) (find_mty (entries_of top.now) name.now) }
{
    match mod_in(top, name.as_bytes()) {
        Some(shape) => Some(shape),
        None => mty_in(top, name.as_bytes()),
    }
}

/// The last module of a name in a module, else the last module type of that name.
fn step_in<'a>(shape: &'a Shared, name: &Name) -> Option<&'a Shared>
    ensures { option_copied result ≡ or_else (find_mod (entries_in shape.now) name.now) (find_mty (entries_in shape.now) name.now) }
{
    match mod_of(shape, name.as_bytes()) {
        Some(shape) => Some(shape),
        None => mty_of(shape, name.as_bytes()),
    }
}

/// The declaration that a look-up found, also behind outside modules.
fn declaration_of(goal: Option<Goal>) -> Option<Place>
    ensures { result ≡ decl_found goal }
{
    match goal? {
        Goal::Decl(place) => Some(place),
        Goal::Blur {
            by: _,
            passed: _,
            behind,
        } => behind,
        Goal::Outside | Goal::Missing | Goal::Hidden => None,
    }
}
