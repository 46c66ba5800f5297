//! What begins at the front of a text.

ghost use Rattle.std.specs.Prelude.{◌≡◌, ◌<◌, ◌≤◌, length, take};
ghost use Rattle.std.specs.Str.{is_utf8};
ghost use Rattle.text_places.specs.Fronts.{begins_with_feed, character, char_len, columns_of, front_of, line_end};

use crate::counting::Counting;

/// A line end, a character, or a byte that begins no character: its bytes, its columns, and whether it ends a line.
#[derive(Clone, Copy, Debug)]
pub struct Front {
    pub len: u32,
    pub columns: u32,
    pub ends_line: bool,
}

/// What begins at the front of a text that is not empty.
pub fn front_of(counting: Counting, bytes: &[u8]) -> Front
    requires { 0 < length bytes.now }
    ensures front { result ≡ front_of counting bytes.now }
    ensures some { 0 < result.len }
    ensures within { result.len ≤ length bytes.now }
    ensures narrow { result.columns ≤ result.len }
{
    match (counting, bytes) {
        (_, [b'\n', ..]) => line_end(1),
        (Counting::People, _) => character(counting, 1),
        (_, [b'\r', b'\n', ..]) => line_end(2),
        (_, [b'\r', ..]) => line_end(1),
        _ => character(counting, char_len(bytes)),
    }
}

/// A line end of so many bytes.
fn line_end(len: u32) -> Front
    ensures { result ≡ line_end len }
{
    Front {
        len,
        columns: 0,
        ends_line: true,
    }
}

/// A character of so many bytes.
fn character(counting: Counting, len: u32) -> Front
    ensures { result ≡ character counting len }
{
    Front {
        len,
        columns: columns_of(counting, len),
        ends_line: false,
    }
}

/// The columns of a character of so many bytes.
fn columns_of(counting: Counting, len: u32) -> u32
    ensures { result ≡ columns_of counting len }
{
    match counting {
        Counting::Utf16 if len == 4 => 2,
        Counting::Utf16 => 1,
        Counting::Utf8 | Counting::People => len,
    }
}

/// The number of bytes of the character at the front; a byte that begins none is for itself.
fn char_len(bytes: &[u8]) -> u32
    requires { 0 < length bytes.now }
    ensures len { result ≡ char_len bytes.now }
    ensures some { 0 < result }
    ensures within { result ≤ length bytes.now }
{
    if is_text(bytes, 1) {
        return 1;
    }
    if is_text(bytes, 2) {
        return 2;
    }
    if is_text(bytes, 3) {
        return 3;
    }
    if is_text(bytes, 4) {
        return 4;
    }
    1
}

/// Whether the first bytes, so many or all, are a text in UTF-8.
fn is_text(bytes: &[u8], len: usize) -> bool
    ensures { result ≡ is_utf8 (take len bytes.now) }
{
    let front = &bytes[..len.min(bytes.len())];
    str::from_utf8(front).is_ok()
}
