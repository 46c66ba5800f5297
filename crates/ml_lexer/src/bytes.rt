//! The characters of the language, at places of a slice.

ghost use Rattle.std.specs.Prelude.{◌≡◌, ◌<◌, ◌≤◌, ◌==◌, ◌||◌, ◌+◌, take, drop, length, slice_index};
ghost use Rattle.std.specs.List.{prefix_len};
ghost use Rattle.rotor_base.specs.Name.{is_identifier_byte};
ghost use Rattle.ml_lexer.specs.Bytes.{is_operator_byte, is_word_start, is_quoted_word_byte, identifier_length, word_length, operator_length};

/// The byte at a place, and 0 past the end.
pub fn byte_at(bytes: &[u8], at: usize) -> u8
    ensures value { result ≡ slice_index bytes.now at }
    ensures within { 0 < result → at < length bytes.now }
{
    if at < bytes.len() { bytes[at] } else { 0 }
}

/// The bytes from a place on, none past the end.
pub fn skip(bytes: &[u8], at: usize) -> &[u8]
    ensures { result.now ≡ drop at bytes.now }
{
    if at < bytes.len() { &bytes[at..] } else { &[] }
}

/// The first bytes; if there are not so many, all.
pub fn front(bytes: &[u8], len: usize) -> &[u8]
    ensures { result.now ≡ take len bytes.now }
{
    if len < bytes.len() {
        &bytes[..len]
    } else {
        bytes
    }
}

/// Whether a word may begin with this byte.
pub fn begins_word(byte: u8) -> bool
    ensures { result ≡ is_word_start byte }
{
    byte.is_ascii_alphabetic() || byte == b'_'
}

/// The length of the word that begins here: its first byte and all identifier characters that follow.
pub fn word_len(bytes: &[u8]) -> usize
    requires some { 0 < length bytes.now }
    ensures value { result ≡ word_length bytes.now }
    ensures within { result ≤ length bytes.now }
{
    1 + identifier_len(skip(bytes, 1))
}

/// Whether a byte is an identifier character.
pub fn is_identifier(byte: u8) -> bool
    ensures { result ≡ is_identifier_byte byte }
{
    byte.is_ascii_alphanumeric() || byte == b'_' || byte == b'\''
}

/// How many identifier characters are at the front.
pub fn identifier_len(bytes: &[u8]) -> usize
    ensures value { result ≡ identifier_length bytes.now }
    ensures within { result ≤ length bytes.now }
{
    bytes
        .iter()
        .take_while(|byte| is_identifier(**byte))
        .count()
}

/// Whether a byte is an operator character.
pub fn is_operator(byte: u8) -> bool
    ensures { result ≡ is_operator_byte byte }
{
    b"!$%&*+-./:<=>?@^|~".contains(&byte)
}

/// How many operator characters are at the front.
pub fn operator_len(bytes: &[u8]) -> usize
    ensures value { result ≡ operator_length bytes.now }
    ensures within { result ≤ length bytes.now }
{
    bytes.iter().take_while(|byte| is_operator(**byte)).count()
}

/// How many lower-case letters and `_` are at the front.
pub fn quoted_word_len(bytes: &[u8]) -> usize
    ensures value { result ≡ prefix_len is_quoted_word_byte bytes.now }
    ensures within { result ≤ length bytes.now }
{
    bytes
        .iter()
        .take_while(|byte| byte.is_ascii_lowercase() || **byte == b'_')
        .count()
}
