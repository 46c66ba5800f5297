//! The sentences of folders that are not loaded.
ghost use Rattle.std.specs.Prelude.{◌≡◌, ◌+◌, ◌<◌, ◌^◌, IfOk, length};
ghost use Rattle.refusal_words.specs.Folder.{double_unit as double_unit_of, large_file as large_file_of, large_sum as large_sum_of, missing_unit as missing_unit_of, named_line as named_line_of, repeated_unit as repeated_unit_of, too_many as too_many_of, unknown_unit as unknown_unit_of};

use crate::parts::{help, make_error, make_error_at, wrap_word};
use messages::{Kind, Message, group_digits, join_words, shown_word, spot_in};
use rotor_base::{Memory, Row};
use std::alloc::Global;

/// What can be done about a line of `rotor.units`.
const ONE_LINE: &str = "each unit of the folder stands on one line";

/// The message of a folder that has so many sources. The one error is want of memory.
pub fn too_many(alloc: Global, count: u64) -> Result<Message, Memory>
    ensures { IfOk result (λ message. message ≡ too_many_of count) }
{
    let count = group_digits(alloc, count)?;
    let end = " sources; at most 2,000 are read";
    let text = wrap_word(alloc, "the folder has ", count.as_slice(), end)?;
    Ok(make_error(alloc, Kind::TooMany, text, None))
}

/// The message of a file that has too many bytes. The one error is want of memory.
pub fn large_file(alloc: Global, file: &[u8]) -> Result<Message, Memory>
    ensures { IfOk result (λ message. message ≡ large_file_of file.now) }
{
    let text = wrap_word(alloc, "", file, " has more than 1,048,576 bytes")?;
    Ok(make_error(alloc, Kind::TooLarge, text, None))
}

/// The message of sources that have too many bytes from this file on. The one error is want of memory.
pub fn large_sum(alloc: Global, file: &[u8]) -> Result<Message, Memory>
    ensures { IfOk result (λ message. message ≡ large_sum_of file.now) }
{
    let end = " the sources have more than 8,388,608 bytes";
    let text = wrap_word(alloc, "with ", file, end)?;
    Ok(make_error(alloc, Kind::TooLarge, text, None))
}

/// The message of two sources of one kind that make one unit. The one error is want of memory.
pub fn double_unit<'a>(
    alloc: Global,
    first: &'a [u8],
    second: &'a [u8],
    unit: &'a [u8],
) -> Result<Message, Memory>
    ensures { IfOk result (λ message. message ≡ double_unit_of first.entry.now second.entry.now unit.entry.now) }
{
    let text = join_words(
        alloc,
        &[
            first,
            b" and ",
            second,
            b" both make the unit `",
            unit,
            b"`",
        ],
    )?;
    let help = help(alloc, "rename or move one of them")?;
    Ok(make_error(alloc, Kind::DoubleUnit, text, help))
}

/// The message of a line of `rotor.units`, from one offset up to another, that names no unit. The one error is want of
/// memory.
pub fn unknown_unit(alloc: Global, units: &[u8], start: u32, end: u32) -> Result<Message, Memory>
    requires { length units.now + 1 < 2 ^ 32 }
    ensures { IfOk result (λ message. message ≡ unknown_unit_of units.now start end) }
{
    named_line(alloc, units, start, end, "` is no unit of this folder")
}

/// The message of a line of `rotor.units`, from one offset up to another, that names a unit of an earlier line. The one
/// error is want of memory.
pub fn repeated_unit(alloc: Global, units: &[u8], start: u32, end: u32) -> Result<Message, Memory>
    requires { length units.now + 1 < 2 ^ 32 }
    ensures { IfOk result (λ message. message ≡ repeated_unit_of units.now start end) }
{
    named_line(
        alloc,
        units,
        start,
        end,
        "` is named by an earlier line too",
    )
}

/// The message of a line of `rotor.units`, whose word precedes the rest of the sentence.
fn named_line(
    alloc: Global,
    units: &[u8],
    start: u32,
    end: u32,
    rest: &str,
) -> Result<Message, Memory>
    requires { length units.now + 1 < 2 ^ 32 }
    ensures { IfOk result (λ message. message ≡ named_line_of units.now start end rest.now) }
{
    let line = spot_in(alloc, b"rotor.units", units, start, end)?;
    let word = shown_word(alloc, line.behind.as_slice())?;
    let text = wrap_word(alloc, "`", word.as_slice(), rest)?;
    let help = help(alloc, ONE_LINE)?;
    Ok(make_error_at(Kind::BadManifest, text, line, Row::new(alloc), help))
}

/// The message of a unit that no line of `rotor.units` names. The one error is want of memory.
pub fn missing_unit(alloc: Global, unit: &[u8]) -> Result<Message, Memory>
    ensures { IfOk result (λ message. message ≡ missing_unit_of unit.now) }
{
    let begin = "rotor.units has no line for the unit `";
    let text = wrap_word(alloc, begin, unit, "`")?;
    let help = help(alloc, ONE_LINE)?;
    Ok(make_error(alloc, Kind::BadManifest, text, help))
}
