//! The token of a cursor.

ghost use Rattle.std.specs.Prelude.{◌≡◌, ◌<◌, ◌≤◌, IfSome, length};
ghost use Rattle.std.specs.List.{position};
ghost use Rattle.rotor_base.specs.Limits.{max_file_bytes};
ghost use Rattle.ml_lexer.specs.Lexed.{view_token, view_tokens};
ghost use Rattle.rename_model.specs.Target.{holds};
ghost use Rattle.rename_parts.specs.Hits.{is_lower};
ghost use Rattle.value_at.specs.Cursor.{cursor_position, is_word_before, is_word_over, token_at};

use rotor_base::{Class, Token};

/// The number, from 1, of the token that a cursor at a byte means: the lower-case word that holds the byte, else the
/// lower-case word that ends before it, else the token that holds it. If there is none, `None`. It takes no memory.
pub fn token_at(tokens: &[Token], offset: u32) -> Option<u32>
    requires { length tokens.now ≤ max_file_bytes }
    ensures { result ≡ token_at offset (view_tokens tokens.now) }
{
    let at = cursor_position(tokens, offset)?;
    Some(at as u32 + 1)
}

/// The position of the token that a cursor at a byte means.
fn cursor_position(tokens: &[Token], offset: u32) -> Option<usize>
    ensures at { result ≡ cursor_position offset (view_tokens tokens.now) }
    ensures within { IfSome result (λ at. at < length tokens.now) }
{
    if let Some(at) = word_over(tokens, offset) {
        return Some(at);
    }
    if let Some(at) = word_before(tokens, offset) {
        return Some(at);
    }
    token_over(tokens, offset)
}

/// The position of the lower-case word that holds a byte.
fn word_over(tokens: &[Token], offset: u32) -> Option<usize>
    ensures at { result ≡ position (λ token. is_word_over offset (view_token token)) tokens.now }
    ensures within { IfSome result (λ at. at < length tokens.now) }
{
    tokens
        .iter()
        .position(|token| is_lower(token) && holds(token, offset))
}

/// The position of the lower-case word that ends before a byte.
fn word_before(tokens: &[Token], offset: u32) -> Option<usize>
    ensures at { result ≡ position (λ token. is_word_before offset (view_token token)) tokens.now }
    ensures within { IfSome result (λ at. at < length tokens.now) }
{
    tokens
        .iter()
        .position(|token| is_lower(token) && token.end == offset)
}

/// The position of the token that holds a byte.
fn token_over(tokens: &[Token], offset: u32) -> Option<usize>
    ensures at { result ≡ position (λ token. holds offset (view_token token)) tokens.now }
    ensures within { IfSome result (λ at. at < length tokens.now) }
{
    tokens.iter().position(|token| holds(token, offset))
}

/// Whether a token is a lower-case word.
fn is_lower(token: &Token) -> bool
    ensures { result ≡ is_lower token.now.class }
{
    token.class == Class::Lower
}

/// Whether a token holds a byte.
fn holds(token: &Token, offset: u32) -> bool
    ensures { result ≡ holds offset (view_token token.now) }
{
    token.start <= offset && offset < token.end
}
