//! The names of sources, and the units that they give.
ghost use Rattle.std.specs.Prelude.{◌≡◌};
ghost use Rattle.std.specs.List.{list_all};
ghost use Rattle.rotor_base.specs.Stem.{is_body_name, is_face_name, is_source_name, is_stem_word, is_stem_byte, ends_stem};

use crate::MAX_NAME_BYTES;

/// Whether a file of this name is a source: a stem, then `.ml` or `.mli`. It takes no memory.
pub fn is_source(name: &[u8]) -> bool
    ensures { result ≡ is_source_name name.now }
{
    is_body(name) || is_face(name)
}

/// Whether a file of this name is the body of a unit: a stem, then `.ml`. It takes no memory.
pub fn is_body(name: &[u8]) -> bool
    ensures { result ≡ is_body_name name.now }
{
    is_stem_with(name, b".ml")
}

/// Whether a file of this name is the interface of a unit: a stem, then `.mli`. It takes no memory.
pub fn is_face(name: &[u8]) -> bool
    ensures { result ≡ is_face_name name.now }
{
    is_stem_with(name, b".mli")
}

/// Whether a name is a stem and then the ending.
#[tactic(auto, unfolding(crate::specs::Stem::ends_stem))]
fn is_stem_with(name: &[u8], ending: &[u8]) -> bool
    ensures { result ≡ ends_stem ending.now name.now }
{
    let (stem, rest) = name.split_at(name.len().saturating_sub(ending.len()));
    rest == ending && is_stem(stem)
}

/// Whether a word is a stem: a letter, then letters, digits and `_`, at most 255 bytes in all.
fn is_stem(word: &[u8]) -> bool
    ensures { result ≡ is_stem_word word.now }
{
    match word {
        [] => false,
        [first, ..] => {
            first.is_ascii_alphabetic() && word.len() <= MAX_NAME_BYTES && are_stem_bytes(word)
        }
    }
}

/// Whether all bytes are letters, digits and `_`.
fn are_stem_bytes(word: &[u8]) -> bool
    ensures { result ≡ list_all is_stem_byte word.now }
{
    word.iter()
        .all(|byte| byte.is_ascii_alphanumeric() || *byte == b'_')
}
