ghost use Rattle.std.specs.Prelude.{◌≡◌, ◌≤◌, [], IfOk, length, take};
ghost use Rattle.std.specs.List.{list_all, list_any};
ghost use Rattle.std.specs.Str.{bytes_eq};
ghost use Rattle.rotor_base.specs.NameBytes.{max_inline_bytes};
ghost use Rattle.rotor_base.specs.Name.{is_value_name, is_keyword_word, is_reserved_word, starts_as_value_name, is_identifier_byte};

use crate::{MAX_NAME_BYTES, Memory};
use std::alloc::Global;
use std::marker::Model;

/// The most bytes of a name that needs no memory of its own.
const MAX_INLINE_BYTES: usize = 22;

/// The bytes of a name: in the value itself if they are few, and else in a vector.
#[derive(Debug, Drop)]
pub(crate) enum Bytes {
    Inline {
        len: u8,
        room: [u8; MAX_INLINE_BYTES],
    },
    Owned(Box<Vec<u8>>),
}

/// The word of an identifier or an operator. Contracts see it as the list of its bytes. A name of at most 22 bytes is
/// copied without memory.
#[derive(Debug)]
pub struct Name {
    bytes: Bytes,
}

impl Model for Name {
    ghost use Rattle.std.specs.Prelude.{List, ℕ};
    ghost use Rattle.rotor_base.specs.NameBytes.{FitsInline, bytes_of};

    ghost Value = { List ℕ };

    ghost view = { λ n. bytes_of n.bytes };

    ghost invariant = { λ n. FitsInline n.bytes };
}

impl Drop for Name {
    fn drop(self) {
        let Name { bytes: _ } = self;
    }
}

impl Name {
    /// The name of these bytes. `Memory` is the only error.
    pub fn new(alloc: Global, bytes: &[u8]) -> Result<Self, Memory>
        ensures { IfOk result (λ name. name ≡ bytes.now) }
    {
        let bytes = if bytes.len() <= MAX_INLINE_BYTES {
            Bytes::Inline {
                len: bytes.len() as u8,
                room: pad(bytes),
            }
        } else {
            Bytes::Owned(Box::new(alloc, bytes.to_vec(alloc)?)?)
        };
        Ok(Name { bytes })
    }

    /// The name without bytes. It takes no memory.
    pub fn make_empty() -> Self
        ensures { result ≡ [] }
    {
        Name {
            bytes: Bytes::Inline {
                len: 0,
                room: [0; MAX_INLINE_BYTES],
            },
        }
    }

    /// The bytes.
    pub fn as_bytes(&self) -> &[u8]
        ensures { result.now ≡ self.now }
    {
        match &self.bytes {
            Bytes::Inline { len, room } => &room[..*len as usize],
            Bytes::Owned(bytes) => bytes.as_slice(),
        }
    }
}

/// Some bytes, with zeros behind them.
fn pad(bytes: &[u8]) -> [u8; MAX_INLINE_BYTES]
    requires { length bytes.now ≤ max_inline_bytes }
    ensures { take (length bytes.now) result ≡ bytes.now }
{
    let mut room = [0; MAX_INLINE_BYTES];
    room[..bytes.len()].copy_from_slice(bytes);
    room
}

/// The keywords of the language.
const KEYWORDS: [&str; 56] = [
    "and",
    "as",
    "assert",
    "asr",
    "begin",
    "class",
    "constraint",
    "do",
    "done",
    "downto",
    "else",
    "end",
    "exception",
    "external",
    "false",
    "for",
    "fun",
    "function",
    "functor",
    "if",
    "in",
    "include",
    "inherit",
    "initializer",
    "land",
    "lazy",
    "let",
    "lor",
    "lsl",
    "lsr",
    "lxor",
    "match",
    "method",
    "mod",
    "module",
    "mutable",
    "new",
    "nonrec",
    "object",
    "of",
    "open",
    "or",
    "private",
    "rec",
    "sig",
    "struct",
    "then",
    "to",
    "true",
    "try",
    "type",
    "val",
    "virtual",
    "when",
    "while",
    "with",
];

/// Whether a word may name a value: a lower-case letter or `_`, then letters, digits, `_` and `'`, at most 255
/// bytes in all, no keyword and not `_` alone (the manual's chapter on lexical conventions). It takes no memory.
pub fn is_name(word: &[u8]) -> bool
    ensures { result ≡ is_value_name word.now }
{
    if !begins_as_value_name(word) {
        return false;
    }
    if word.len() > MAX_NAME_BYTES {
        return false;
    }
    if is_reserved(word) {
        return false;
    }
    is_identifier(word)
}

/// Whether a word begins with a lower-case letter or `_`.
fn begins_as_value_name(word: &[u8]) -> bool
    ensures { result ≡ starts_as_value_name word.now }
{
    match word {
        [] => false,
        [first, ..] => first.is_ascii_lowercase() || *first == b'_',
    }
}

/// Whether all bytes of a word are identifier characters.
fn is_identifier(word: &[u8]) -> bool
    ensures { result ≡ list_all is_identifier_byte word.now }
{
    word.iter().all(|byte| byte.is_ascii_alphanumeric() || *byte == b'_' || *byte == b'\'')
}

/// Whether a word is a keyword or `_`.
fn is_reserved(word: &[u8]) -> bool
    ensures { result ≡ is_reserved_word word.now }
{
    is_keyword(word) || word == b"_".as_slice()
}

/// Whether a word is one of the keywords.
#[tactic(auto, unfolding(crate::specs::Name::is_keyword_word))]
fn is_keyword(word: &[u8]) -> bool
    ensures { result ≡ is_keyword_word word.now }
{
    is_among(word, &KEYWORDS)
}

/// Whether a word is one of some words.
fn is_among(word: &[u8], words: &[&str]) -> bool
    ensures { result ≡ list_any (λ other. bytes_eq other.now word.now) words.now }
{
    words.iter().any(|other| other.as_bytes() == word)
}
