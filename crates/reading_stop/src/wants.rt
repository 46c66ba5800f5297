//! What tokens are.

use crate::step::Want;
use expr_parts::level_at;
use ml_trees::Fixed;
use rotor_base::Class;
use token_reading::{Kind, TokenTable, has_fixed, is_minus, is_operator, kind_at};

/// Whether the token at a place is as it is wanted. Behind the last one there is none.
pub(crate) fn is_wanted(tokens: &TokenTable<'_>, want: Want, at: usize) -> bool {
    match want {
        Want::Fixed(fixed) => has_fixed(tokens, fixed, at),
        Want::Class(class) => is_of(kind_at(tokens, at), class),
        Want::Level(level) => level_at(tokens, at) == level,
        Want::Operator => is_operator(tokens, at),
        Want::Literal => is_literal(kind_at(tokens, at)),
        Want::Number => is_number(kind_at(tokens, at)),
        Want::BesideType => is_beside_type(kind_at(tokens, at), bytes_at(tokens, at)),
        Want::InsideType => is_inside_type(kind_at(tokens, at)),
        Want::InsideDeclaration => is_inside_declaration(kind_at(tokens, at)),
        Want::Assigns
        | Want::Minus
        | Want::Bang
        | Want::NamedLabel
        | Want::OptionalLabel
        | Want::PunLabel => is_spelled(kind_at(tokens, at), bytes_at(tokens, at), want),
    }
}

/// The bytes of the token at a place; behind the last one, none.
fn bytes_at<'a>(tokens: &TokenTable<'a>, at: usize) -> &'a [u8] {
    match tokens.as_slice().get(at) {
        Some(token) => token.bytes,
        None => b"",
    }
}

fn is_of(kind: Kind, class: Class) -> bool {
    match kind {
        Kind::Word(found) => found == class,
        Kind::Fixed(_) | Kind::End => false,
    }
}

/// Whether a token of this kind and these bytes is spelled as it is wanted.
fn is_spelled(kind: Kind, bytes: &[u8], want: Want) -> bool {
    match kind {
        Kind::Word(Class::Mark) => want == Want::Assigns && bytes == b":=".as_slice(),
        Kind::Word(Class::Infix) => want == Want::Minus && is_minus(bytes),
        Kind::Word(Class::Prefix) => want == Want::Bang && bytes == b"!".as_slice(),
        Kind::Word(Class::Label) => is_label(bytes, want),
        _ => false,
    }
}

/// Whether a label of these bytes is as it is wanted.
fn is_label(bytes: &[u8], want: Want) -> bool {
    match want {
        Want::NamedLabel => bytes.last() == Some(&b':'),
        Want::PunLabel => bytes.last() != Some(&b':'),
        Want::OptionalLabel => bytes.first() == Some(&b'?') && bytes.last() == Some(&b':'),
        _ => false,
    }
}

fn is_literal(kind: Kind) -> bool {
    matches!(
        kind,
        Kind::Word(Class::Int | Class::Float | Class::Char | Class::Text | Class::Quoted)
    )
}

fn is_number(kind: Kind) -> bool {
    matches!(kind, Kind::Word(Class::Int | Class::Float))
}

/// Whether a token may be in a type, outside its brackets.
fn is_beside_type(kind: Kind, bytes: &[u8]) -> bool {
    match kind {
        Kind::Word(Class::Lower | Class::Upper | Class::TypeVar | Class::Tag) => true,
        Kind::Word(Class::Infix) => bytes == b"*".as_slice(),
        Kind::Word(Class::Label) => is_label(bytes, Want::OptionalLabel),
        Kind::Fixed(Fixed::Dot | Fixed::Arrow | Fixed::Colon | Fixed::As | Fixed::Underscore) => {
            true
        }
        _ => false,
    }
}

/// Whether a mark is a bracket of a type or of a declaration.
fn is_bracket(fixed: Fixed) -> bool {
    matches!(
        fixed,
        Fixed::LeftParen
            | Fixed::RightParen
            | Fixed::LeftBracket
            | Fixed::RightBracket
            | Fixed::LeftBrace
            | Fixed::RightBrace
            | Fixed::LeftLess
            | Fixed::LeftGreater
    )
}

/// Whether a fixed word is a mark that types and declarations may contain.
fn is_mark(fixed: Fixed) -> bool {
    matches!(
        fixed,
        Fixed::LeftArray
            | Fixed::RightArray
            | Fixed::Semicolon
            | Fixed::Comma
            | Fixed::Dot
            | Fixed::DotDot
            | Fixed::Colon
            | Fixed::ColonColon
            | Fixed::ColonGreater
            | Fixed::Arrow
            | Fixed::LeftArrow
            | Fixed::Bar
            | Fixed::Equals
            | Fixed::Tilde
            | Fixed::Question
    )
}

/// Whether a token may be inside the brackets of a type, and is none of them.
fn is_inside_type(kind: Kind) -> bool {
    match kind {
        Kind::Fixed(
            Fixed::As
            | Fixed::Of
            | Fixed::Mutable
            | Fixed::Private
            | Fixed::Type
            | Fixed::Underscore,
        ) => true,
        Kind::Fixed(fixed) => is_mark(fixed),
        Kind::Word(class) => class != Class::Keyword,
        Kind::End => false,
    }
}

/// Whether a token may be in a declaration, and is no bracket.
fn is_inside_declaration(kind: Kind) -> bool {
    match kind {
        Kind::Fixed(
            Fixed::And
            | Fixed::As
            | Fixed::Constraint
            | Fixed::Mutable
            | Fixed::Nonrec
            | Fixed::Of
            | Fixed::Private
            | Fixed::Underscore,
        ) => true,
        Kind::Fixed(fixed) => is_mark(fixed),
        Kind::Word(class) => class != Class::Keyword,
        Kind::End => false,
    }
}
