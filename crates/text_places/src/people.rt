//! Positions as people count: by the LFs before a byte.

ghost use Rattle.std.specs.Prelude.{◌≡◌, ◌+◌, ◌<◌, ◌≤◌, ◌^◌, length, take};
ghost use Rattle.text_places.specs.Marks.{position_of};
ghost use Rattle.text_places.specs.People.{column_behind, feeds_in as feeds_in_of};

use crate::counting::{Counting, Position};

/// The line and the column of a byte as people count. An offset behind the end has those of the end.
#[tactic(auto, using(crate::proofs::Counted::people_position))]
pub(crate) fn people_position(bytes: &[u8], offset: u32) -> Position
    requires { length bytes.now + 1 < 2 ^ 32 }
    ensures { result ≡ position_of Counting.People offset bytes.now }
{
    let front = bytes_before(bytes, offset as usize);
    Position {
        line: feeds_in(front) + 1,
        column: column_in(front),
    }
}

/// The first bytes, at most so many.
fn bytes_before(bytes: &[u8], len: usize) -> &[u8]
    ensures { result.now ≡ take len bytes.now }
{
    if len < bytes.len() {
        &bytes[..len]
    } else {
        bytes
    }
}

/// How many LFs there are.
fn feeds_in(bytes: &[u8]) -> u32
    requires { length bytes.now + 1 < 2 ^ 32 }
    ensures value { result ≡ feeds_in_of bytes.now }
    ensures within { result ≤ length bytes.now }
{
    let mut feeds = 0;
    for byte in bytes {
        if *byte == b'\n' {
            feeds += 1;
        }
    }
    feeds
}

/// The column behind some bytes, of which the first has column 1. It looks at the last line alone.
fn column_in(bytes: &[u8]) -> u32
    requires { length bytes.now + 1 < 2 ^ 32 }
    ensures { result ≡ column_behind 1 bytes.now }
{
    let mut column = 1;
    let mut rest = bytes;
    while let [before @ .., byte] = rest {
        if *byte == b'\n' {
            return column;
        }
        column += 1;
        rest = before;
    }
    column
}
