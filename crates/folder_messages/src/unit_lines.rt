//! The lines of `rotor.units`.
ghost use Rattle.std.specs.Prelude.{◌≡◌, ◌≤◌, All, IfOk, length, map};
ghost use Rattle.std.specs.List.{list_any};
ghost use Rattle.std.specs.Str.{bytes_eq};
ghost use Rattle.std.specs.Str.Lines.{lines};
ghost use Rattle.folder_messages.specs.Folder.{start_of as start_for};

use rotor_base::{Memory, next_line};
use std::alloc::Global;

/// The lines of some bytes.
pub(crate) fn unit_lines<'a>(alloc: Global, bytes: &'a [u8]) -> Result<Vec<&'a [u8]>, Memory>
    ensures { IfOk result (λ list. map (λ line. line.now) list.items ≡ lines bytes.entry.now) }
{
    let mut list = Vec::new(alloc);
    let mut rest = bytes;
    while let Some((line, behind)) = next_line(rest) {
        list.push(line)?;
        rest = behind;
    }
    Ok(list)
}

/// Whether a line is this word.
pub(crate) fn names_unit(lines: &[&[u8]], word: &[u8]) -> bool
    ensures { result ≡ list_any (bytes_eq word.now) (map (λ line. line.now) lines.now) }
{
    has_word(lines, word)
}

/// Whether a word is among some.
fn has_word(words: &[&[u8]], word: &[u8]) -> bool
    ensures { result ≡ list_any (λ other. bytes_eq word.now other.now) words.now }
{
    words.iter().any(|other| word == *other)
}

/// Where the line behind so many lines begins.
pub(crate) fn start_of(before: u32, bytes: &[u8]) -> usize
    ensures at { result ≡ start_for before bytes.now }
    ensures within { result ≤ length bytes.now }
{
    let mut left = before;
    for (at, byte) in bytes.iter().enumerate() {
        if left == 0 {
            return at;
        }
        if *byte == b'\n' {
            left -= 1;
        }
    }
    bytes.len()
}
