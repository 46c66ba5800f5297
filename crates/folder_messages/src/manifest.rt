//! The messages of `rotor.units`.
ghost use Rattle.std.specs.Prelude.{◌≡◌, ◌≤◌, ◌+◌, IfOk, length, map, string_bytes};
ghost use Rattle.std.specs.List.{list_any};
ghost use Rattle.std.specs.Str.{bytes_eq};
ghost use Rattle.std.specs.Str.Lines.{lines as lines_of};
ghost use Rattle.rotor_base.specs.Limits.{max_file_bytes};
ghost use Rattle.rotor_base.specs.Unit.{unit_of};
ghost use Rattle.folder_messages.specs.Folder.{is_less as is_less_of, least_unnamed as least_unnamed_of, line_message as line_message_of, manifest_message as manifest_message_of, missing_message as missing_message_of};

use crate::unit_lines::{names_unit, start_of, unit_lines};
use messages::Message;
use refusal_words::{missing_unit, repeated_unit, unknown_unit};
use rotor_base::{Memory, Name, source_unit};
use std::alloc::Global;
use std::cmp::Ordering;

/// The message of the line of this number, counted from 1, if it is bad, or of the first unit without a line.
pub(crate) fn manifest_message(
    alloc: Global,
    bytes: &[u8],
    names: &[String],
    line: u32,
) -> Result<Option<Message>, Memory>
    requires { length bytes.now ≤ max_file_bytes + 1 }
    ensures { IfOk result (λ message. message ≡ manifest_message_of bytes.now (map string_bytes names.now) line) }
{
    let lines = unit_lines(alloc, bytes)?;
    let before = line.saturating_sub(1);
    match lines.get(before as usize) {
        Some(word) => Ok(Some(line_message(alloc, bytes, names, before, *word)?)),
        None => missing_message(alloc, &lines, names),
    }
}

/// The message of the line behind so many lines.
fn line_message(
    alloc: Global,
    bytes: &[u8],
    names: &[String],
    before: u32,
    word: &[u8],
) -> Result<Message, Memory>
    requires small { length bytes.now ≤ max_file_bytes + 1 }
    requires short { length word.now ≤ length bytes.now }
    ensures { IfOk result (λ message. message ≡ line_message_of bytes.now (map string_bytes names.now) before word.now) }
{
    let start = start_of(before, bytes);
    let end = start + word.len();
    if makes_unit(alloc, names, word)? {
        repeated_unit(alloc, bytes, start as u32, end as u32)
    } else {
        unknown_unit(alloc, bytes, start as u32, end as u32)
    }
}

/// Whether a source makes this unit.
fn makes_unit(alloc: Global, names: &[String], word: &[u8]) -> Result<bool, Memory>
    ensures { IfOk result (λ makes. makes ≡ list_any (λ name. bytes_eq (unit_of name) word.now) (map string_bytes names.now)) }
{
    for name in names {
        if source_unit(alloc, name.as_bytes())?.name.as_bytes() == word {
            return Ok(true);
        }
    }
    Ok(false)
}

/// The message of the least unit that no line names, if there is one.
fn missing_message(
    alloc: Global,
    lines: &[&[u8]],
    names: &[String],
) -> Result<Option<Message>, Memory>
    ensures { IfOk result (λ message. message ≡ missing_message_of (map (λ line. line.now) lines.now) (map string_bytes names.now)) }
{
    let Some(unit) = least_unnamed(alloc, lines, names)? else {
        return Ok(None);
    };
    Ok(Some(missing_unit(alloc, unit.as_bytes())?))
}

/// The least unit of some sources that no line names, if there is one.
fn least_unnamed(alloc: Global, lines: &[&[u8]], names: &[String]) -> Result<Option<Name>, Memory>
    ensures { IfOk result (λ least. least ≡ least_unnamed_of (map (λ line. line.now) lines.now) (map string_bytes names.now)) }
{
    let mut least: Option<Name> = None;
    for name in names {
        let unit = source_unit(alloc, name.as_bytes())?.name;
        if !names_unit(lines, unit.as_bytes()) && is_less(&unit, &least) {
            least = Some(unit);
        }
    }
    Ok(least)
}

/// Whether a name is less than another in byte order, or there is no other.
fn is_less(name: &Name, other: &Option<Name>) -> bool
    ensures { result ≡ is_less_of name.now other.now }
{
    match other {
        Some(other) => matches!(name.as_bytes().cmp(other.as_bytes()), Ordering::Less),
        None => true,
    }
}
