//! The lexemes of a file.

ghost use Rattle.std.specs.Prelude.{◌≡◌, ◌≤◌, ◌^◌, length, IfOk, IfErr};
ghost use Rattle.rotor_base.specs.Limits.{max_file_bytes};
ghost use Rattle.ml_lexer.specs.Lexed.{Lexed, view_tokens};
ghost use Rattle.ml_lexer.specs.Answers.{FaultIs};

use crate::LexError;
use crate::bytes::{front, skip};
use crate::piece::{Piece, piece_at};
use rotor_base::Token;
use std::alloc::Global;

/// The lexemes of a file of at most 1,048,576 bytes, each with its class and its span, in order. The errors are `Bad`,
/// `LongName` and `Memory`.
pub fn lex<'a>(alloc: Global, src: &'a [u8]) -> Result<Vec<Token<'a>>, LexError>
    requires { length src.now ≤ max_file_bytes }
    ensures found { IfOk result (λ tokens. Lexed src.now (view_tokens tokens.items)) }
    ensures few { IfOk result (λ tokens. length tokens.items ≤ length src.now) }
    ensures fault { IfErr result (λ error. FaultIs src.now error) }
{
    let mut tokens = Vec::new(alloc);
    let mut rest = src;
    while !rest.is_empty() {
        let at = (src.len() - rest.len()) as u32;
        let len = match piece_at(rest) {
            Piece::Trivia(len) => len,
            Piece::Lexeme(class, len) => {
                tokens.push(Token {
                    class,
                    start: at,
                    end: at + len as u32,
                    bytes: front(rest, len),
                })?;
                len
            }
            Piece::Bad => return Err(LexError::Bad { offset: at }),
            Piece::LongName => return Err(LexError::LongName { offset: at }),
        };
        rest = skip(rest, len);
    }
    tokens.shrink_to_fit();
    Ok(tokens)
}
