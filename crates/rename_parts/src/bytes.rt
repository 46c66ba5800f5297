//! The new bytes of a source, and whether they are too many.

ghost use Rattle.std.specs.Prelude.{◌≡◌, ◌≤◌, ◌∷◌, ◌++◌, ◌&&◌, [], IfOk, OnOk, All, length, if◌then◌else◌};
ghost use Rattle.std.specs.BTreeSet.{contains};
ghost use Rattle.rotor_base.specs.Limits.{max_file_bytes, max_name_bytes, max_sources};
ghost use Rattle.rotor_base.specs.Place.{place_cmp};
ghost use Rattle.ml_lexer.specs.Lexed.{Lexed, view_tokens};
ghost use Rattle.ml_lexer.specs.Respelled.{respelled};
ghost use Rattle.edits.specs.Lexemes.{GiveWords};
ghost use Rattle.edits.specs.Replaced.{HasShortText};
ghost use Rattle.rotor_base.specs.Files.{are_over};
ghost use Rattle.rename_model.specs.Bytes.{position_with};
ghost use Rattle.rename_parts.specs.Hits.{hit_words, is_lower};

use edits::{Edit, apply};
use rotor_base::{Class, MAX_FILE_BYTES, MAX_TOTAL_BYTES, Memory, Name, Place, SourceFile, Token};
use std::alloc::Global;
use std::collections::BTreeSet;

/// The bytes of a source after its lower-case words at the places of a set have taken a new word. `Memory` is the only
/// error.
pub fn new_bytes(
    alloc: Global,
    source: &[u8],
    tokens: &[Token],
    file: u32,
    set: &BTreeSet<Place>,
    new: &[u8],
) -> Result<Vec<u8>, Memory>
    requires source { length source.now ≤ max_file_bytes }
    requires cut { Lexed source.now (view_tokens tokens.now) }
    requires new { length new.now ≤ max_name_bytes }
    ensures { IfOk result (λ bytes. bytes.items ≡ respelled source.now (view_tokens tokens.now) (hit_words set.now file new.now 1 (view_tokens tokens.now))) }
{
    let edits = edits_of(alloc, tokens, file, set, new)?;
    apply(alloc, source, &edits)
}

/// The edits that give the lower-case words at the places of a set a new word.
fn edits_of(
    alloc: Global,
    tokens: &[Token],
    file: u32,
    set: &BTreeSet<Place>,
    new: &[u8],
) -> Result<Vec<Edit>, Memory>
    requires tokens { length tokens.now ≤ max_file_bytes }
    requires new { length new.now ≤ max_name_bytes }
    ensures words { IfOk result (λ list. GiveWords (view_tokens tokens.now) (hit_words set.now file new.now 1 (view_tokens tokens.now)) list.items) }
    ensures short { IfOk result (λ list. All HasShortText list.items) }
{
    let mut list = Vec::new(alloc);
    let mut number: u32 = 1;
    for token in tokens {
        let place = Place {
            file,
            token: number,
        };
        add_edit(alloc, &mut list, token, place, set, new)?;
        number += 1;
    }
    Ok(list)
}

/// Adds the edit that gives a token a new word, if it is a lower-case word at a place of the set.
fn add_edit(
    alloc: Global,
    list: &mut Vec<Edit>,
    token: &Token,
    place: Place,
    set: &BTreeSet<Place>,
    new: &[u8],
) -> Result<(), Memory>
    ensures { OnOk result (list.new.items ≡ (if is_lower token.now.class && contains place_cmp set.now place then list.old.items ++ (record { start = token.now.start; end = token.now.end; text = new.now }) ∷ [] else list.old.items)) }
{
    if !is_lower(token.class) {
        return Ok(());
    }
    if !set.contains(&place) {
        return Ok(());
    }
    let text = Name::new(alloc, new)?;
    list.push(Edit {
        start: token.start,
        end: token.end,
        text,
    })?;
    Ok(())
}

/// Whether a class is that of lower-case words.
fn is_lower(class: Class) -> bool
    ensures { result ≡ is_lower class }
{
    class == Class::Lower
}

/// The number of the first source with which those up to it are over the limits on bytes.
pub fn find_first_over(files: &[SourceFile]) -> Option<u32>
    requires { length files.now ≤ max_sources }
    ensures { result ≡ position_with are_over files.now }
{
    let mut total: u64 = 0;
    let mut number: u32 = 0;
    for file in files {
        let len = file.bytes.as_slice().len() as u64;
        if len > MAX_FILE_BYTES as u64 || total + len > MAX_TOTAL_BYTES as u64 {
            return Some(number);
        }
        total += len;
        number += 1;
    }
    None
}
