//! Where a stretch of a source is.
ghost use Rattle.std.specs.Prelude.{◌≡◌, ◌==◌, ◌+◌, ◌≤◌, ◌<◌, ◌^◌, IfOk, length, take, drop};
ghost use Rattle.std.specs.List.{position, position_or_len};
ghost use Rattle.messages.specs.Spot.{front_of_line, line_before, line_front, spot_of};
ghost use Rattle.std.specs.Str.Lines.{strip_carriage_return};

use crate::parts::Spot;
use rotor_base::{Memory, Row};
use std::alloc::Global;
use text_places::{Counting, position_of};

/// The stretch of a source from one offset up to another, both in bytes from 0. An offset behind the end is the end.
/// The one error is want of memory.
pub fn spot_in(
    alloc: Global,
    file: &[u8],
    bytes: &[u8],
    start: u32,
    end: u32,
) -> Result<Spot, Memory>
    requires { length bytes.now + 1 < 2 ^ 32 }
    ensures { IfOk result (λ spot. spot ≡ spot_of file.now bytes.now start end) }
{
    let here = position_of(Counting::People, bytes, start);
    let before = line_before(front(bytes, start as usize), here.column);
    let behind = line_front(rest(bytes, start as usize));
    Ok(Spot {
        file: Row::from_vec(file.to_vec(alloc)?),
        line: here.line,
        column: here.column,
        width: end.saturating_sub(start),
        before: Row::from_vec(front_of_line(before, behind).to_vec(alloc)?),
        behind: Row::from_vec(trim_return(behind).to_vec(alloc)?),
    })
}

/// The first bytes, at most so many.
pub(crate) fn front(bytes: &[u8], len: usize) -> &[u8]
    ensures { result.now ≡ take len bytes.now }
{
    if len < bytes.len() {
        &bytes[..len]
    } else {
        bytes
    }
}

/// The bytes behind the first ones, which are at most so many.
fn rest(bytes: &[u8], len: usize) -> &[u8]
    ensures { result.now ≡ drop len bytes.now }
{
    if len < bytes.len() {
        &bytes[len..]
    } else {
        &[]
    }
}

/// The bytes of a line before a column.
fn line_before(bytes: &[u8], column: u32) -> &[u8]
    ensures { result.now ≡ line_before column bytes.now }
{
    let len = column.saturating_sub(1) as usize;
    rest(bytes, bytes.len().saturating_sub(len))
}

/// The bytes before the first LF.
fn line_front(bytes: &[u8]) -> &[u8]
    ensures { result.now ≡ line_front bytes.now }
{
    match first_feed(bytes) {
        Some(end) => front(bytes, end),
        None => bytes,
    }
}

/// The position of the first LF.
fn first_feed(bytes: &[u8]) -> Option<usize>
    ensures { result ≡ position (λ b. b == 10) bytes.now }
{
    bytes.iter().position(|byte| *byte == b'\n')
}

/// The part of a line behind a place, without the CR that ends the line.
fn trim_return(behind: &[u8]) -> &[u8]
    ensures { result.now ≡ strip_carriage_return behind.now }
{
    match behind {
        [front @ .., b'\r'] => front,
        _ => behind,
    }
}

/// The part of a line before a place, which ends the line if nothing is behind it.
fn front_of_line<'a>(before: &'a [u8], behind: &[u8]) -> &'a [u8]
    ensures { result.now ≡ front_of_line before.entry.now behind.now }
{
    if behind.is_empty() {
        trim_return(before)
    } else {
        before
    }
}
