//! Walking along a text.

ghost use Rattle.std.specs.Prelude.{◌≡◌, ℕ, ◌+◌, ◌<◌, ◌≤◌, ◌^◌, IfNone, IfOk, IfSome, drop, length, map};
ghost use Rattle.std.specs.List.Sorted.{IsNonDecreasing};
ghost use Rattle.text_places.specs.Fronts.{front_of};
ghost use Rattle.text_places.specs.Marks.{last_upto, names_here, offset_of, position_of};
ghost use Rattle.text_places.specs.Stops.{IsWithin, marks_at, start_of, stop_behind};

use crate::counting::{Counting, Position, origin_of};
use crate::front::{Front, front_of};
use crate::people::people_position;
use rotor_base::Memory;
use std::alloc::Global;

/// A byte of a text at which something begins, or its end: its offset and its position.
#[derive(Clone, Copy)]
struct Stop {
    at: u32,
    here: Position,
}

/// The beginning of a text.
fn start_of(counting: Counting) -> Stop
    ensures { result ≡ start_of counting }
{
    Stop {
        at: 0,
        here: origin_of(counting),
    }
}

/// What begins at an offset; `None` at the end.
fn front_at(counting: Counting, bytes: &[u8], at: u32) -> Option<Front>
    requires { at ≤ length bytes.now }
    ensures front { IfSome result (λ front. front ≡ front_of counting (drop at bytes.now)) }
    ensures some { IfSome result (λ front. 0 < front.len) }
    ensures within { IfSome result (λ front. at + front.len ≤ length bytes.now) }
    ensures narrow { IfSome result (λ front. front.columns ≤ front.len) }
    ensures end { IfNone result (at ≡ length bytes.now) }
{
    let rest = &bytes[at as usize..];
    if rest.is_empty() {
        return None;
    }
    Some(front_of(counting, rest))
}

/// What is behind a stop and what begins there.
fn stop_behind(counting: Counting, stop: Stop, front: Front) -> Stop
    requires at { stop.at + front.len + 1 < 2 ^ 32 }
    requires line { stop.here.line ≤ stop.at + 1 }
    requires column { stop.here.column ≤ stop.at + 1 }
    requires some { 0 < front.len }
    requires narrow { front.columns ≤ front.len }
    ensures { result ≡ stop_behind counting stop front }
{
    let here = if front.ends_line {
        Position {
            line: stop.here.line + 1,
            column: origin_of(counting).column,
        }
    } else {
        Position {
            line: stop.here.line,
            column: stop.here.column + front.columns,
        }
    };
    Stop {
        at: stop.at + front.len,
        here,
    }
}

/// Whether a position names a byte that has the position `here`. `is_end` says whether the line ends there.
fn names_here(position: Position, here: Position, is_end: bool) -> bool
    ensures { result ≡ names_here position here is_end }
{
    position.line == here.line
        && (position.column == here.column || (is_end && here.column < position.column))
}

/// The byte that a line and a column name. Behind the end of a line it is the line's end. A line behind the last, and a
/// column inside a character, name none. A byte that is no UTF-8 is one column. It takes no memory.
pub fn offset_of(counting: Counting, bytes: &[u8], position: Position) -> Option<u32>
    requires { length bytes.now + 1 < 2 ^ 32 }
    ensures { result ≡ offset_of counting position bytes.now }
{
    let mut stop = start_of(counting);
    while let Some(front) = front_at(counting, bytes, stop.at) {
        if names_here(position, stop.here, front.ends_line) {
            return Some(stop.at);
        }
        stop = stop_behind(counting, stop, front);
    }
    if names_here(position, stop.here, true) {
        return Some(stop.at);
    }
    None
}

/// The line and the column of a byte. Inside a character or CR LF they are those of its first byte, and an offset
/// behind the end has those of the end. It takes no memory. As people count, it only counts the LFs before the byte.
pub fn position_of(counting: Counting, bytes: &[u8], offset: u32) -> Position
    requires { length bytes.now + 1 < 2 ^ 32 }
    ensures { result ≡ position_of counting offset bytes.now }
{
    match counting {
        Counting::People => people_position(bytes, offset),
        Counting::Utf16 | Counting::Utf8 => {
            go_forward(counting, bytes, start_of(counting), offset).here
        }
    }
}

/// The lines and columns of some bytes in order, by one walk along the text. `Memory` is the only error.
pub fn positions_of(
    alloc: Global,
    counting: Counting,
    bytes: &[u8],
    offsets: &[u32],
) -> Result<Vec<Position>, Memory>
    requires room { length bytes.now + 1 < 2 ^ 32 }
    requires ordered { IsNonDecreasing offsets.now }
    ensures { IfOk result (λ list. list.items ≡ map (λ offset. position_of counting offset bytes.now) offsets.now) }
{
    let mut positions = Vec::new(alloc);
    let mut stop = start_of(counting);
    for offset in offsets {
        stop = go_forward(counting, bytes, stop, *offset);
        positions.push(stop.here)?;
    }
    Ok(positions)
}

/// The last stop, from one on, that is not behind an offset.
fn go_forward(counting: Counting, bytes: &[u8], start: Stop, offset: u32) -> Stop
    requires room { length bytes.now + 1 < 2 ^ 32 }
    requires start { IsWithin bytes.now start }
    requires before { start.at ≤ offset }
    ensures within { IsWithin bytes.now result }
    ensures before { result.at ≤ offset }
    ensures last { last_upto offset start.here (marks_at counting bytes.now start) ≡ result.here }
    ensures same { (later : ℕ) → offset ≤ later → last_upto later start.here (marks_at counting bytes.now start) ≡ last_upto later result.here (marks_at counting bytes.now result) }
{
    let mut stop = start;
    while let Some(front) = front_at(counting, bytes, stop.at) {
        if offset - stop.at < front.len {
            return stop;
        }
        stop = stop_behind(counting, stop, front);
    }
    stop
}
