//! The pieces of a file: the lexeme or trivia that begins at a byte.

ghost use Rattle.std.specs.Prelude.{◌≡◌, ◌+◌, ◌<◌, ◌≤◌, ◌^◌, length, true, slice_index, IfSome};
ghost use Rattle.ml_lexer.specs.Bytes.{is_word_start};
ghost use Rattle.ml_lexer.specs.Pieces.{trivia as trivia_spec, ended as ended_spec, word_class as word_class_spec, word_at as word_spec, marked_word_at as marked_spec, is_keyword_class as keyword_spec, label_at as label_spec, is_text, is_mark_operator as mark_operator_spec, operator_of as operator_of_spec, operator_at as operator_spec, mark_length, mark_of as mark_of_spec, char_or_variable as char_spec, begins_label as begins_label_spec, begins_operator as begins_operator_spec, sign_at as sign_spec, lexeme_at as lexeme_spec, piece_at as piece_spec, Within};

use crate::bytes::{begins_word, byte_at, front, operator_len, skip, word_len};
use crate::number::number_at;
use crate::quotes::{char_len, opens_quoted, quoted_len, text_len};
use crate::trivia::{attribute_len, comment_len, opens_comment};
use rotor_base::{Class, MAX_NAME_BYTES, is_name};

/// What begins at a byte, with its length.
#[derive(Clone, Copy)]
pub enum Piece {
    Trivia(usize),
    Lexeme(Class, usize),
    /// Nothing, or what is no lexeme or does not end.
    Bad,
    /// A word of more than 255 bytes.
    LongName,
}

/// Trivia of this length; if it does not end, Bad.
fn trivia(len: Option<usize>) -> Piece
    ensures { result ≡ trivia_spec len }
{
    match len {
        Some(len) => Piece::Trivia(len),
        None => Piece::Bad,
    }
}

/// A lexeme of this length; if it does not end, Bad.
fn make_lexeme(class: Class, len: Option<usize>) -> Piece
    ensures { result ≡ ended_spec class len }
{
    match len {
        Some(len) => Piece::Lexeme(class, len),
        None => Piece::Bad,
    }
}

/// The class of a word.
#[tactic(auto, unfolding(crate::specs::Pieces::word_class))]
fn word_class(word: &[u8]) -> Class
    ensures { result ≡ word_class_spec word.now }
{
    if byte_at(word, 0).is_ascii_uppercase() {
        Class::Upper
    } else if is_name(word) {
        Class::Lower
    } else {
        Class::Keyword
    }
}

/// The word that begins here.
#[tactic(auto, unfolding(crate::specs::Pieces::word_at))]
fn word_at(bytes: &[u8]) -> Piece
    requires some { 0 < length bytes.now }
    ensures value { result ≡ word_spec bytes.now }
    ensures within { Within result bytes.now }
{
    let len = word_len(bytes);
    if len > MAX_NAME_BYTES {
        Piece::LongName
    } else {
        Piece::Lexeme(word_class(front(bytes, len)), len)
    }
}

/// The lexeme of one byte and a word.
#[tactic(auto, unfolding(crate::specs::Pieces::marked_word_at))]
fn marked_word_at(class: Class, bytes: &[u8]) -> Piece
    ensures value { result ≡ marked_spec class bytes.now }
    ensures within { Within result bytes.now }
{
    if !begins_word(byte_at(bytes, 1)) {
        return Piece::Bad;
    }
    let len = word_len(skip(bytes, 1));
    if len > MAX_NAME_BYTES {
        Piece::LongName
    } else {
        Piece::Lexeme(class, 1 + len)
    }
}

/// Whether a class is that of keywords.
fn is_keyword_class(class: Class) -> bool
    ensures { result ≡ keyword_spec class }
{
    matches!(class, Class::Keyword)
}

/// Whether a Label begins here.
#[tactic(auto, unfolding(crate::specs::Pieces::begins_label))]
fn begins_label(bytes: &[u8]) -> bool
    ensures value { result ≡ begins_label_spec bytes.now }
    ensures within { result ≡ true → 2 ≤ length bytes.now }
{
    b"~?".contains(&byte_at(bytes, 0)) && begins_word(byte_at(bytes, 1))
}

/// The Label that begins here.
#[tactic(auto, unfolding(crate::specs::Pieces::label_at))]
fn label_at(bytes: &[u8]) -> Piece
    requires some { 2 ≤ length bytes.now }
    ensures value { result ≡ label_spec bytes.now }
    ensures within { Within result bytes.now }
{
    let word = skip(bytes, 1);
    let len = word_len(word);
    if len > MAX_NAME_BYTES {
        return Piece::LongName;
    }
    if is_keyword_class(word_class(front(word, len))) {
        return Piece::Bad;
    }
    let colon = if byte_at(bytes, 1 + len) == b':' {
        1
    } else {
        0
    };
    Piece::Lexeme(Class::Label, 1 + len + colon)
}

/// Whether an operator is a Mark.
fn is_mark_operator(word: &[u8]) -> bool
    ensures { result ≡ mark_operator_spec word.now }
{
    word == b"|".as_slice()
        || word == b"=".as_slice()
        || word == b"->".as_slice()
        || word == b"<-".as_slice()
        || word == b"~".as_slice()
        || word == b"?".as_slice()
}

/// The class of an operator.
#[tactic(auto, unfolding(crate::specs::Pieces::operator_of))]
fn operator_class(word: &[u8]) -> Class
    ensures { result ≡ operator_of_spec word.now }
{
    if is_mark_operator(word) {
        Class::Mark
    } else if word == b"!=".as_slice() {
        Class::Infix
    } else if b"!~?".contains(&byte_at(word, 0)) {
        Class::Prefix
    } else {
        Class::Infix
    }
}

/// Whether an operator begins here.
#[tactic(auto, unfolding(crate::specs::Pieces::begins_operator))]
fn begins_operator(bytes: &[u8]) -> bool
    ensures value { result ≡ begins_operator_spec bytes.now }
    ensures within { result ≡ true → 0 < length bytes.now }
{
    b"#!$%&*+-/<=>?@^|~".contains(&byte_at(bytes, 0))
}

/// The operator that begins here.
#[tactic(auto, unfolding(crate::specs::Pieces::operator_at))]
fn operator_at(bytes: &[u8]) -> Piece
    requires some { 0 < length bytes.now }
    ensures value { result ≡ operator_spec bytes.now }
    ensures within { Within result bytes.now }
{
    let len = 1 + operator_len(skip(bytes, 1));
    Piece::Lexeme(operator_class(front(bytes, len)), len)
}

/// The length of the Mark that begins here and is no run of operator characters; if there is none, 0.
#[tactic(auto, unfolding(crate::specs::Pieces::mark_length))]
fn mark_len(bytes: &[u8]) -> usize
    ensures value { result ≡ mark_length bytes.now }
    ensures within { result ≤ length bytes.now }
{
    let first = byte_at(bytes, 0);
    let second = byte_at(bytes, 1);
    if first == b'[' && second == b'%' && byte_at(bytes, 2) == b'%' {
        3
    } else if first == b'[' && b"|<>%".contains(&second) {
        2
    } else if first == b'{' && second == b'%' {
        2
    } else if first == b'|' && second == b']' {
        2
    } else if first == b';' && second == b';' {
        2
    } else if first == b'.' && second == b'.' {
        2
    } else if first == b':' && b":=>".contains(&second) {
        2
    } else if b"()[]{};,.:".contains(&first) {
        1
    } else {
        0
    }
}

/// The Char that begins here; if no Char begins, the TypeVar.
fn char_or_variable(len: Option<usize>, bytes: &[u8]) -> Piece
    requires within { IfSome len (λ n. (0 < n) × (n ≤ length bytes.now)) }
    ensures value { result ≡ char_spec len bytes.now }
    ensures within { Within result bytes.now }
{
    match len {
        Some(len) => Piece::Lexeme(Class::Char, len),
        None => marked_word_at(Class::TypeVar, bytes),
    }
}

/// The lexeme that begins here.
#[tactic(auto, unfolding(crate::specs::Pieces::lexeme_at))]
fn lexeme_at(bytes: &[u8]) -> Piece
    requires few { length bytes.now ≤ 2 ^ 20 }
    requires some { 0 < length bytes.now }
    ensures value { result ≡ lexeme_spec bytes.now }
    ensures within { Within result bytes.now }
{
    let first = byte_at(bytes, 0);
    if begins_word(first) {
        return word_at(bytes);
    }
    if first.is_ascii_digit() {
        return number_at(bytes);
    }
    if first == b'"' {
        return make_lexeme(Class::Text, text_len(bytes));
    }
    if opens_quoted(bytes) {
        return make_lexeme(Class::Quoted, quoted_len(bytes));
    }
    if first == b'\'' {
        return char_or_variable(char_len(bytes), bytes);
    }
    if first == b'`' {
        return marked_word_at(Class::Tag, bytes);
    }
    if begins_label(bytes) {
        return label_at(bytes);
    }
    sign_at(bytes)
}

/// The Mark, Prefix or Infix that begins here.
#[tactic(auto, unfolding(crate::specs::Pieces::sign_at))]
fn sign_at(bytes: &[u8]) -> Piece
    requires some { 0 < length bytes.now }
    ensures value { result ≡ sign_spec bytes.now }
    ensures within { Within result bytes.now }
{
    let len = mark_len(bytes);
    if len > 1 {
        return Piece::Lexeme(Class::Mark, len);
    }
    if begins_operator(bytes) {
        return operator_at(bytes);
    }
    if len > 0 {
        Piece::Lexeme(Class::Mark, len)
    } else {
        Piece::Bad
    }
}

/// The lexeme or trivia that begins here.
#[tactic(auto, unfolding(crate::specs::Pieces::piece_at))]
pub fn piece_at(bytes: &[u8]) -> Piece
    requires few { length bytes.now ≤ 2 ^ 20 }
    requires some { 0 < length bytes.now }
    ensures value { result ≡ piece_spec bytes.now }
    ensures within { Within result bytes.now }
{
    if b" \t\n\r\x0c".contains(&byte_at(bytes, 0)) {
        return Piece::Trivia(1);
    }
    if opens_comment(bytes) {
        return trivia(comment_len(bytes));
    }
    if byte_at(bytes, 0) == b'[' && byte_at(bytes, 1) == b'@' {
        return trivia(attribute_len(bytes));
    }
    lexeme_at(bytes)
}
