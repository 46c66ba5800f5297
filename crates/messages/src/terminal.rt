//! What a terminal shows of bytes.
ghost use Rattle.std.specs.Prelude.{◌≡◌, IfOk, string_bytes, take};
ghost use Rattle.messages.specs.Shown.{characters_of, hides, safe as safe_of, safe_bytes, shown_of, shown_word_of};

use crate::words::join_words;
use rotor_base::{Memory, Row};
use std::alloc::Global;

/// The most characters of a word of the command line in a message.
const WORD_WIDTH: usize = 60;
/// How many of them precede the dots if it has more.
const CUT_WORD: usize = 57;

/// The characters of some bytes; bytes that are no UTF-8 are U+FFFD in them.
pub(crate) fn characters(alloc: Global, bytes: &[u8]) -> Result<Vec<char>, Memory>
    ensures { IfOk result (λ list. list.items ≡ characters_of bytes.now) }
{
    let text = String::from_utf8_lossy(alloc, bytes)?;
    Ok(text.chars().collect(alloc)?)
}

/// Whether a terminal must not get a character: a control character but the tab, a direction mark, or a byte that is no
/// UTF-8.
fn is_hidden(character: char) -> bool
    ensures { result ≡ hides character }
{
    match character {
        '\t' => false,
        '\u{0}'..='\u{1f}' => true,
        '\u{7f}'..='\u{9f}' => true,
        '\u{200e}'..='\u{200f}' => true,
        '\u{202a}'..='\u{202e}' => true,
        '\u{2066}'..='\u{2069}' => true,
        '\u{feff}' => true,
        '\u{fffd}' => true,
        _ => false,
    }
}

/// What a terminal gets for a character.
fn show_character(character: char) -> char
    ensures { result ≡ safe_of character }
{
    if is_hidden(character) { '?' } else { character }
}

/// What a terminal gets for some characters.
pub(crate) fn safe_text(alloc: Global, characters: &[char]) -> Result<String, Memory>
    ensures { IfOk result (λ text. string_bytes text ≡ safe_bytes characters.now) }
{
    Ok(
        characters
            .iter()
            .map(|character| show_character(*character))
            .collect(alloc)?,
    )
}

/// The first characters, at most so many.
pub(crate) fn take_first(list: &[char], len: usize) -> &[char]
    ensures { result.now ≡ take len list.now }
{
    if len < list.len() { &list[..len] } else { list }
}

/// What a terminal gets for some bytes. The one error is want of memory.
pub fn show_bytes(alloc: Global, bytes: &[u8]) -> Result<Row<u8>, Memory>
    ensures { IfOk result (λ text. text ≡ shown_of bytes.now) }
{
    let characters = characters(alloc, bytes)?;
    let text = safe_text(alloc, &characters)?;
    Ok(Row::from_vec(text.into_bytes()))
}

/// A word of the command line in a message: at most 60 characters, of which the last three are dots if it has more. The
/// one error is want of memory.
pub fn shown_word(alloc: Global, word: &[u8]) -> Result<Row<u8>, Memory>
    ensures { IfOk result (λ text. text ≡ shown_word_of word.now) }
{
    let characters = characters(alloc, word)?;
    if characters.len() <= WORD_WIDTH {
        let text = safe_text(alloc, &characters)?;
        return Ok(Row::from_vec(text.into_bytes()));
    }
    let text = safe_text(alloc, take_first(&characters, CUT_WORD))?;
    join_words(alloc, &[text.as_bytes(), b"..."])
}
