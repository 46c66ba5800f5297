//! The levels of operators.

ghost use Rattle.std.specs.Prelude.{◌≡◌};
ghost use Rattle.token_reading.specs.Tokens.{from};
ghost use Rattle.ml_trees.specs.WellFormed.{keyword_level, infix_level};
ghost use Rattle.expr_parts.specs.Rows.{first_level};

use ml_trees::Fixed;
use rotor_base::Class;
use token_reading::{Kind, TokenTable, kind_at, text};

/// The level of a keyword that is an operator, or 0.
#[inline(never)]
fn keyword_level(bytes: &[u8]) -> u32
    ensures { result ≡ keyword_level bytes.now }
{
    if bytes == b"mod".as_slice()
        || bytes == b"land".as_slice()
        || bytes == b"lor".as_slice()
        || bytes == b"lxor".as_slice()
    {
        return 11;
    }
    if bytes == b"lsl".as_slice() || bytes == b"lsr".as_slice() || bytes == b"asr".as_slice() {
        return 12;
    }
    0
}

/// The level of an operator by its first characters (the manual's chapter on expressions), or 0.
#[tactic(auto, unfolding(ml_trees::specs::WellFormed::infix_level))]
#[inline(never)]
fn infix_level(bytes: &[u8]) -> u32
    ensures { result ≡ infix_level bytes.now }
{
    if bytes == b"||".as_slice() {
        return 5;
    }
    if bytes == b"&&".as_slice() {
        return 6;
    }
    if bytes == b"!=".as_slice() {
        return 7;
    }
    match bytes.first() {
        Some(b'=' | b'<' | b'>' | b'|' | b'&' | b'$') => 7,
        Some(b'@' | b'^') => 8,
        Some(b'+' | b'-') => 10,
        Some(b'*') => {
            if bytes.get(1) == Some(&b'*') {
                return 12;
            }
            11
        }
        Some(b'/' | b'%') => 11,
        _ => 0,
    }
}

/// The level of the operator at a place, or 0.
#[inline(never)]
pub fn level_at(tokens: &TokenTable<'_>, at: usize) -> u32
    ensures { result ≡ first_level (from tokens.now at) }
{
    match kind_at(tokens, at) {
        Kind::Fixed(Fixed::LeftArrow) => 3,
        Kind::Fixed(Fixed::Comma) => 4,
        Kind::Fixed(Fixed::ColonColon) => 9,
        Kind::Fixed(Fixed::Equals) => 7,
        Kind::Word(Class::Mark) => {
            if text(tokens, at) == b":=".as_slice() {
                return 3;
            }
            0
        }
        Kind::Word(Class::Keyword) => keyword_level(text(tokens, at)),
        Kind::Word(Class::Infix) => infix_level(text(tokens, at)),
        _ => 0,
    }
}
