//! Tests of tokens.
ghost use Rattle.std.specs.Prelude.{◌≡◌};
ghost use Rattle.std.specs.Str.{bytes_eq};
ghost use Rattle.ml_lexer.specs.Lexed.{view_token};
ghost use Rattle.module_openings.specs.Lexemes.{begins_nest as begins_nest_of, ends_nest as ends_nest_of, ends_value as ends_value_of, is_lower as is_lower_of, is_upper as is_upper_of, is_word_class as is_word_class_of};

use rotor_base::{Class, Token};

/// Whether a token has these bytes.
pub fn is_word(token: &Token<'_>, word: &[u8]) -> bool
    ensures { result ≡ bytes_eq token.now.bytes.now word.now }
{
    token.bytes == word
}

/// Whether a token is a name that begins with an upper-case letter.
pub fn is_upper(token: &Token<'_>) -> bool
    ensures { result ≡ is_upper_of (view_token token.now) }
{
    token.class == Class::Upper
}

/// Whether a token is a name that begins with a lower-case letter or `_`.
pub fn is_lower(token: &Token<'_>) -> bool
    ensures { result ≡ is_lower_of (view_token token.now) }
{
    token.class == Class::Lower
}

/// Whether a class is none of keywords, operators and marks.
fn is_word_class(class: Class) -> bool
    ensures { result ≡ is_word_class_of class }
{
    !matches!(
        class,
        Class::Keyword | Class::Prefix | Class::Infix | Class::Mark
    )
}

/// Whether a token is a bracket that opens, or a word that `end` or `done` closes.
#[tactic(auto, unfolding(crate::specs::Lexemes::begins_nest))]
pub(crate) fn begins_nest(token: &Token<'_>) -> bool
    ensures { result ≡ begins_nest_of (view_token token.now) }
{
    is_word(token, b"(")
        || is_word(token, b"[")
        || is_word(token, b"[|")
        || is_word(token, b"[<")
        || is_word(token, b"[>")
        || is_word(token, b"{")
        || is_word(token, b"begin")
        || is_word(token, b"do")
        || is_word(token, b"struct")
        || is_word(token, b"sig")
}

/// Whether a token closes it.
#[tactic(auto, unfolding(crate::specs::Lexemes::ends_nest))]
pub(crate) fn ends_nest(token: &Token<'_>) -> bool
    ensures { result ≡ ends_nest_of (view_token token.now) }
{
    is_word(token, b")")
        || is_word(token, b"]")
        || is_word(token, b"|]")
        || is_word(token, b"}")
        || is_word(token, b"end")
        || is_word(token, b"done")
}

/// Whether an expression may end with a token.
#[tactic(auto, unfolding(crate::specs::Lexemes::ends_value))]
pub(crate) fn ends_value(token: &Token<'_>) -> bool
    ensures { result ≡ ends_value_of (view_token token.now) }
{
    is_word_class(token.class)
        || ends_nest(token)
        || is_word(token, b"true")
        || is_word(token, b"false")
}
