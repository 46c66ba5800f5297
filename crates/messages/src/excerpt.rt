//! The line of a source under a message, and the carets.
ghost use Rattle.std.specs.Prelude.{◌≡◌, ◌≤◌, IfOk, length, map, replicate, string_bytes, codes, [], cond};
ghost use Rattle.messages.specs.Excerpt.{carets_of, excerpt_of, last_of, line_of, lines_of, numbered, padding};

use crate::parts::Spot;
use crate::span::front;
use crate::terminal::{characters, safe_text, take_first};
use crate::words::join_words;
use report::number_text;
use rotor_base::{Memory, Row};
use std::alloc::Global;

/// The most characters of a line that an excerpt shows.
const WIDTH: usize = 120;
/// The most characters of them before the place.
const BEFORE: usize = 50;
/// The fewest columns of the number of a line.
const NUMBER_WIDTH: usize = 5;

/// The two lines under a message, each with its end: the source's line with its number, and the carets under the
/// stretch.
pub(crate) fn excerpt(alloc: Global, spot: &Spot) -> Result<Row<u8>, Memory>
    ensures { IfOk result (λ text. text ≡ excerpt_of spot.now) }
{
    let before = characters(alloc, spot.before.as_slice())?;
    let behind = characters(alloc, spot.behind.as_slice())?;
    let marked = characters(alloc, front(spot.behind.as_slice(), spot.width as usize))?;
    lines(alloc, spot.line, &before, &behind, marked.len())
}

/// The lines of a line with these characters before a place and from it on, of which so many are marked.
fn lines(
    alloc: Global,
    line: u32,
    before: &[char],
    behind: &[char],
    marked: usize,
) -> Result<Row<u8>, Memory>
    ensures { IfOk result (λ text. text ≡ lines_of line before.now behind.now marked) }
{
    let head = take_last(before, BEFORE);
    let tail = take_first(behind, WIDTH - head.len());
    let is_cut = head.len() < before.len();
    let number = pad_number(alloc, line)?;
    let shown = line_text(alloc, is_cut, head, tail, tail.len() < behind.len())?;
    let carets = caret_text(alloc, is_cut, head, marked.min(tail.len()))?;
    join_words(
        alloc,
        &[
            number.as_slice(),
            b" | ",
            shown.as_str().trim_end().as_bytes(),
            b"\n      | ",
            carets.as_slice(),
            b"\n",
        ],
    )
}

/// The number of a line, in five columns at least.
fn pad_number(alloc: Global, line: u32) -> Result<Row<u8>, Memory>
    ensures { IfOk result (λ text. text ≡ numbered line) }
{
    let digits = number_text(alloc, u64::from(line))?;
    let blanks = vec![in alloc; b' '; NUMBER_WIDTH.saturating_sub(digits.as_slice().len())]?;
    join_words(alloc, &[&blanks, digits.as_slice()])
}

/// The last characters, at most so many.
fn take_last(list: &[char], len: usize) -> &[char]
    ensures last { result.now ≡ last_of list.now len }
    ensures few { length result.now ≤ len }
{
    if len < list.len() {
        &list[list.len() - len..]
    } else {
        list
    }
}

/// What is shown of a line, with dots where it is cut.
fn line_text(
    alloc: Global,
    is_cut: bool,
    head: &[char],
    tail: &[char],
    has_more: bool,
) -> Result<String, Memory>
    ensures { IfOk result (λ text. string_bytes text ≡ line_of is_cut head.now tail.now has_more) }
{
    let mut text = String::new(alloc);
    text.push_str(dots(is_cut))?;
    text.push_str(safe_text(alloc, head)?.as_str())?;
    text.push_str(safe_text(alloc, tail)?.as_str())?;
    text.push_str(dots(has_more))?;
    Ok(text)
}

/// The dots where a line is cut.
fn dots(is_cut: bool) -> &'static str
    ensures { result.now ≡ cond is_cut (codes "..") [] }
{
    if is_cut { ".." } else { "" }
}

/// The carets, at least one, under a stretch behind some characters.
fn caret_text(alloc: Global, is_cut: bool, head: &[char], width: usize) -> Result<Row<u8>, Memory>
    ensures { IfOk result (λ text. text ≡ carets_of is_cut head.now width) }
{
    let blanks = blanks_under(alloc, head)?;
    let carets = vec![in alloc; b'^'; width.max(1)]?;
    join_words(alloc, &[margin(is_cut).as_bytes(), &blanks, &carets])
}

/// The blanks under the dots where a line is cut.
fn margin(is_cut: bool) -> &'static str
    ensures { result.now ≡ cond is_cut (codes "  ") [] }
{
    if is_cut { "  " } else { "" }
}

/// A tab under each tab, and a blank under each other character.
fn blanks_under(alloc: Global, head: &[char]) -> Result<Vec<u8>, Memory>
    ensures { IfOk result (λ blanks. blanks.items ≡ map padding head.now) }
{
    Ok(
        head.iter()
            .map(|character| pad_under(*character))
            .collect(alloc)?,
    )
}

/// What is under a character.
fn pad_under(character: char) -> u8
    ensures { result ≡ padding character }
{
    if character == '\t' { b'\t' } else { b' ' }
}
