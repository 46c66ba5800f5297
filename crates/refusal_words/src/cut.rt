//! A source and its tokens.
ghost use Rattle.std.specs.Prelude.{◌≤◌, length};
ghost use Rattle.rotor_base.specs.Limits.{max_file_bytes};

use rotor_base::Token;

/// A source by its name and its bytes, with its tokens. Of a source that the lexer refuses, it has none.
#[derive(Drop)]
pub struct CutSource<'a> {
    pub name: &'a [u8],
    pub bytes: &'a [u8],
    pub tokens: Vec<Token<'a>>,
    ghost small: { length bytes.now ≤ max_file_bytes },
}
