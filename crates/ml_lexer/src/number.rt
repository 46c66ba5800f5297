//! The numbers.

ghost use Rattle.std.specs.Prelude.{◌≡◌, ◌+◌, ◌<◌, ◌≤◌, ◌^◌, length, true, ◌==◌, ◌&&◌, slice_index};
ghost use Rattle.std.specs.List.{prefix_len, list_any};
ghost use Rattle.std.specs.Char.{is_ascii_digit};
ghost use Rattle.ml_lexer.specs.Numbers.{is_digit_of, digits_length, has_head, base_of as base_spec, head_length, fraction_length, begins_exponent as exponent_spec, sign_end as sign_spec, exponent_length, has_floats as floats_spec, float_part_length, suffix_length, unless_identifier_follows as unless_spec, number_at as number_spec};
ghost use Rattle.ml_lexer.specs.Bytes.{among};
ghost use Rattle.ml_lexer.specs.Pieces.{Within};

use crate::bytes::{byte_at, is_identifier, skip};
use crate::piece::Piece;
use rotor_base::Class;

/// The base of a number.
#[derive(Clone, Copy)]
pub enum Base {
    Binary,
    Octal,
    Decimal,
    Hexadecimal,
}

/// The number that begins here, at a digit.
#[tactic(auto, unfolding(crate::specs::Numbers::number_at))]
pub fn number_at(bytes: &[u8]) -> Piece
    requires few { length bytes.now ≤ 2 ^ 20 }
    requires some { 0 < length bytes.now }
    ensures value { result ≡ number_spec bytes.now }
    ensures within { Within result bytes.now }
{
    let base = base_of(bytes);
    let head = head_len(base);
    let whole = head + digits_len(base, skip(bytes, head));
    let more = float_part_len(base, skip(bytes, whole));
    if more > 0 {
        unless_identifier_follows(Class::Float, whole + more, bytes)
    } else {
        unless_identifier_follows(Class::Int, whole + suffix_len(skip(bytes, whole)), bytes)
    }
}

/// The base that the first bytes determine: `0x`, `0o` or `0b` with a digit of it, or decimal.
#[tactic(auto, unfolding(crate::specs::Numbers::base_of))]
fn base_of(bytes: &[u8]) -> Base
    ensures value { result ≡ base_spec bytes.now }
    ensures within { 0 < length bytes.now → head_length result ≤ length bytes.now }
{
    if has_head(b"xX", Base::Hexadecimal, bytes) {
        Base::Hexadecimal
    } else if has_head(b"oO", Base::Octal, bytes) {
        Base::Octal
    } else if has_head(b"bB", Base::Binary, bytes) {
        Base::Binary
    } else {
        Base::Decimal
    }
}

/// Whether `0`, one of two letters and a digit of a base are at the front.
fn has_head(letters: &[u8], base: Base, bytes: &[u8]) -> bool
    ensures value { result ≡ (slice_index bytes.now 0 == 48 && list_any (λ x. x == slice_index bytes.now 1) letters.now && is_digit_of base (slice_index bytes.now 2)) }
    ensures within { result ≡ true → 3 ≤ length bytes.now }
{
    byte_at(bytes, 0) == b'0'
        && letters.contains(&byte_at(bytes, 1))
        && is_digit(base, byte_at(bytes, 2))
}

/// Whether a byte is a digit of a base.
fn is_digit(base: Base, byte: u8) -> bool
    ensures value { result ≡ is_digit_of base byte }
    ensures present { result ≡ true → 0 < byte }
{
    match base {
        Base::Binary => b"01".contains(&byte),
        Base::Octal => b"01234567".contains(&byte),
        Base::Decimal => byte.is_ascii_digit(),
        Base::Hexadecimal => byte.is_ascii_hexdigit(),
    }
}

/// How many bytes there are up to the first digit, with it.
fn head_len(base: Base) -> usize
    ensures value { result ≡ head_length base }
    ensures small { result ≤ 3 }
    ensures some { 0 < result }
{
    match base {
        Base::Decimal => 1,
        _ => 3,
    }
}

/// How many digits and `_` are at the front.
#[tactic(auto, unfolding(crate::specs::Numbers::digits_length))]
fn digits_len(base: Base, bytes: &[u8]) -> usize
    ensures value { result ≡ digits_length base bytes.now }
    ensures within { result ≤ length bytes.now }
{
    bytes
        .iter()
        .take_while(|byte| is_digit(base, **byte) || **byte == b'_')
        .count()
}

/// The length of a `.` with digits and `_`; if there is none, 0.
#[tactic(auto, unfolding(crate::specs::Numbers::fraction_length))]
fn fraction_len(base: Base, bytes: &[u8]) -> usize
    ensures value { result ≡ fraction_length base bytes.now }
    ensures within { result ≤ length bytes.now }
{
    if byte_at(bytes, 0) == b'.' {
        1 + digits_len(base, skip(bytes, 1))
    } else {
        0
    }
}

/// Whether a byte is the letter of an exponent.
fn begins_exponent(base: Base, byte: u8) -> bool
    ensures value { result ≡ exponent_spec base byte }
    ensures present { result ≡ true → 0 < byte }
{
    match base {
        Base::Decimal => b"eE".contains(&byte),
        Base::Hexadecimal => b"pP".contains(&byte),
        _ => false,
    }
}

/// The length of the letter of an exponent with its optional sign.
fn sign_end(bytes: &[u8]) -> usize
    ensures value { result ≡ sign_spec bytes.now }
    ensures small { result ≤ 2 }
{
    if b"+-".contains(&byte_at(bytes, 1)) {
        2
    } else {
        1
    }
}

/// How many decimal digits are at the front.
fn decimal_len(bytes: &[u8]) -> usize
    ensures value { result ≡ prefix_len is_ascii_digit bytes.now }
    ensures within { result ≤ length bytes.now }
{
    bytes
        .iter()
        .take_while(|byte| byte.is_ascii_digit())
        .count()
}

/// The length of an exponent; if there is none, 0.
#[tactic(auto, unfolding(crate::specs::Numbers::exponent_length))]
fn exponent_len(base: Base, bytes: &[u8]) -> usize
    ensures value { result ≡ exponent_length base bytes.now }
    ensures within { result ≤ length bytes.now }
{
    let sign = sign_end(bytes);
    let digits = decimal_len(skip(bytes, sign));
    if begins_exponent(base, byte_at(bytes, 0)) && digits > 0 {
        sign + digits
    } else {
        0
    }
}

/// Whether numbers of a base may be Floats.
fn has_floats(base: Base) -> bool
    ensures { result ≡ floats_spec base }
{
    matches!(base, Base::Decimal | Base::Hexadecimal)
}

/// The length of a fraction, an exponent or both; if there is neither, 0.
#[tactic(auto, unfolding(crate::specs::Numbers::float_part_length))]
fn float_part_len(base: Base, bytes: &[u8]) -> usize
    requires few { length bytes.now ≤ 2 ^ 20 }
    ensures value { result ≡ float_part_length base bytes.now }
    ensures within { result ≤ length bytes.now }
{
    let fraction = fraction_len(base, bytes);
    if has_floats(base) {
        fraction + exponent_len(base, skip(bytes, fraction))
    } else {
        0
    }
}

/// The length of the suffix of an Int; if there is none, 0.
fn suffix_len(bytes: &[u8]) -> usize
    ensures value { result ≡ suffix_length bytes.now }
    ensures within { result ≤ length bytes.now }
{
    if b"lLn".contains(&byte_at(bytes, 0)) {
        1
    } else {
        0
    }
}

/// A number of this length; if an identifier character follows directly, Bad.
fn unless_identifier_follows(class: Class, len: usize, bytes: &[u8]) -> Piece
    requires some { 0 < len }
    requires within { len ≤ length bytes.now }
    ensures value { result ≡ unless_spec class len bytes.now }
    ensures within { Within result bytes.now }
{
    if is_identifier(byte_at(bytes, len)) {
        Piece::Bad
    } else {
        Piece::Lexeme(class, len)
    }
}
