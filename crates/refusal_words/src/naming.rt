//! The sentences of new names that are refused.
ghost use Rattle.std.specs.Prelude.{◌≡◌, IfOk};
ghost use Rattle.std.specs.List.{list_all};
ghost use Rattle.rotor_base.specs.Name.{is_identifier_byte};
ghost use Rattle.refusal_words.specs.Naming.{bad_name as bad_name_of, begins_high as begins_high_of, begins_low as begins_low_of, filled_text as filled_text_of, letters_text as letters_text_of, name_text as name_text_of, same_name as same_name_of, word_text as word_text_of};

use crate::parts::{make_error, text, wrap_word};
use messages::{Kind, Message, shown_word};
use rotor_base::{MAX_NAME_BYTES, Memory, Row};
use std::alloc::Global;

/// The message of a new name that is no value name. A word that looks like one is a keyword. The one error is want of
/// memory.
pub fn bad_name(alloc: Global, name: &[u8]) -> Result<Message, Memory>
    ensures { IfOk result (λ message. message ≡ bad_name_of name.now) }
{
    let text = name_text(alloc, name)?;
    Ok(make_error(alloc, Kind::BadName, text, None))
}

/// The sentence of a new name that is no value name.
fn name_text(alloc: Global, name: &[u8]) -> Result<Row<u8>, Memory>
    ensures { IfOk result (λ text. text ≡ name_text_of name.now) }
{
    match name {
        [] => text(alloc, "the new name is empty"),
        [_, ..] => filled_text(alloc, name),
    }
}

/// The sentence of a new name that is not empty.
fn filled_text(alloc: Global, name: &[u8]) -> Result<Row<u8>, Memory>
    ensures { IfOk result (λ text. text ≡ filled_text_of name.now) }
{
    if name.len() > MAX_NAME_BYTES {
        text(alloc, "the new name has more than 255 bytes")
    } else if name == b"_".as_slice() {
        text(alloc, "`_` alone is no name")
    } else {
        word_text(alloc, name)
    }
}

/// The sentence of a new name by its letters.
fn word_text(alloc: Global, name: &[u8]) -> Result<Row<u8>, Memory>
    ensures { IfOk result (λ text. text ≡ word_text_of name.now) }
{
    let word = shown_word(alloc, name)?;
    wrap_word(alloc, "`", word.as_slice(), letters_text(name))
}

/// What is said of a new name by its letters.
fn letters_text(name: &[u8]) -> &'static str
    ensures { result.now ≡ letters_text_of name.now }
{
    if begins_high(name) {
        "` begins with an upper-case letter, as constructors and modules do"
    } else if begins_low(name) && is_identifier(name) {
        "` is a keyword"
    } else {
        "` is no value name: a lower-case letter or `_`, then letters, digits, `_` and `'`, all ASCII"
    }
}

/// Whether a word begins with an upper-case letter.
fn begins_high(word: &[u8]) -> bool
    ensures { result ≡ begins_high_of word.now }
{
    match word {
        [] => false,
        [first, ..] => first.is_ascii_uppercase(),
    }
}

/// Whether a word begins with a lower-case letter.
fn begins_low(word: &[u8]) -> bool
    ensures { result ≡ begins_low_of word.now }
{
    match word {
        [] => false,
        [first, ..] => first.is_ascii_lowercase(),
    }
}

/// Whether all bytes of a word are letters, digits, `_` and `'`.
fn is_identifier(word: &[u8]) -> bool
    ensures { result ≡ list_all is_identifier_byte word.now }
{
    word.iter().all(|byte| byte.is_ascii_alphanumeric() || *byte == b'_' || *byte == b'\'')
}

/// The message of a new name that is the old one. The one error is want of memory.
pub fn same_name(alloc: Global, name: &[u8]) -> Result<Message, Memory>
    ensures { IfOk result (λ message. message ≡ same_name_of name.now) }
{
    let word = shown_word(alloc, name)?;
    let text = wrap_word(alloc, "its name is `", word.as_slice(), "` already")?;
    Ok(make_error(alloc, Kind::SameName, text, None))
}
