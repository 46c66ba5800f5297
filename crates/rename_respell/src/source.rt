//! The bytes of a source with new words at its places.

ghost use Rattle.std.specs.Prelude.{◌≡◌, ◌≤◌, ◌++◌, IfOk, OnOk, length, option_copied};
ghost use Rattle.rotor_base.specs.Limits.{max_file_bytes};
ghost use Rattle.ml_lexer.specs.Lexed.{Lexed, view_tokens};
ghost use Rattle.ml_lexer.specs.Respelled.{respelled};
ghost use Rattle.binding_model.specs.Renaming.{in_file};
ghost use Rattle.rename_respell.specs.Respelled.{label_with, new_texts};
ghost use Rattle.rename_respell.specs.Tables.{text_of, words_in};

use crate::words::NewWords;
use rotor_base::{Class, Memory, Place, Token};
use std::alloc::Global;
use value_sites::label_of;

/// The bytes of a source whose tokens take new words. In a label the word alone changes. `Memory` is the only error.
pub fn respell_source(
    alloc: Global,
    source: &[u8],
    tokens: &[Token],
    file: u32,
    words: &NewWords,
) -> Result<Vec<u8>, Memory>
    requires small { length source.now ≤ max_file_bytes }
    requires cut { Lexed source.now (view_tokens tokens.now) }
    ensures { IfOk result (λ bytes. bytes.items ≡ respelled source.now (view_tokens tokens.now) (new_texts (in_file (words_in words.now.names words.now.goals) file) 1 (view_tokens tokens.now))) }
{
    let mut bytes = Vec::new(alloc);
    let mut from: usize = 0;
    let mut number: u32 = 1;
    for token in tokens {
        let place = Place {
            file,
            token: number,
        };
        bytes.extend_from_slice(&source[from..token.start as usize])?;
        add_text(&mut bytes, token, words.find_word(place))?;
        from = token.end as usize;
        number += 1;
    }
    bytes.extend_from_slice(&source[from..])?;
    Ok(bytes)
}

/// Adds the text of a token, with its new word if it takes one.
fn add_text(bytes: &mut Vec<u8>, token: &Token, word: Option<&[u8]>) -> Result<(), Memory>
    ensures { OnOk result (bytes.new.items ≡ bytes.old.items ++ text_of (option_copied word.entry) token.now.class token.now.bytes.now) }
{
    match word {
        None => bytes.extend_from_slice(token.bytes)?,
        Some(word) if token.class == Class::Label => add_label(bytes, token.bytes, word)?,
        Some(word) => bytes.extend_from_slice(word)?,
    }
    Ok(())
}

/// Adds a label with another word.
fn add_label(bytes: &mut Vec<u8>, label: &[u8], word: &[u8]) -> Result<(), Memory>
    ensures { OnOk result (bytes.new.items ≡ bytes.old.items ++ label_with label.now word.now) }
{
    let behind = label_of(label).len();
    match label {
        [] => bytes.extend_from_slice(word)?,
        [mark, rest @ ..] => {
            bytes.push(*mark)?;
            bytes.extend_from_slice(word)?;
            bytes.extend_from_slice(&rest[behind..])?;
        }
    }
    Ok(())
}
