//! The messages of files that are not taken as a project's.
ghost use Rattle.std.specs.Prelude.{◌≡◌, IfOk};
ghost use Rattle.explain_verify.specs.Lists.{double_message as double_message_of, large_message as large_message_of, load_message as load_message_of, manifest_message as manifest_message_of};

use messages::{Kind, Message, group_digits, join_words};
use refusal_words::{make_error, too_many};
use rotor_base::{LoadError, Memory, Row};
use std::alloc::Global;

/// The message of files that are not taken as a project's. Of a fault and of want of memory there is none.
pub(crate) fn load_message(alloc: Global, error: &LoadError) -> Result<Option<Message>, Memory>
    ensures { IfOk result (λ message. message ≡ load_message_of error.now) }
{
    match error {
        LoadError::TooMany { count } => Ok(Some(too_many(alloc, *count)?)),
        LoadError::TooLarge { file } => Ok(Some(large_message(alloc, file.as_bytes())?)),
        LoadError::DoubleUnit { unit } => Ok(Some(double_message(alloc, unit.as_bytes())?)),
        LoadError::BadManifest { line } => Ok(Some(manifest_message(alloc, *line)?)),
        LoadError::Read | LoadError::Memory => Ok(None),
    }
}

/// The message of a file with which there are too many bytes.
fn large_message(alloc: Global, file: &[u8]) -> Result<Message, Memory>
    ensures { IfOk result (λ message. message ≡ large_message_of file.now) }
{
    let text = join_words(
        alloc,
        &[
            file,
            b" has more than 1,048,576 bytes, or with it the sources have more than 8,388,608 bytes",
        ],
    )?;
    Ok(make_error(alloc, Kind::TooLarge, text, None))
}

/// The message of a unit that two files make.
fn double_message(alloc: Global, unit: &[u8]) -> Result<Message, Memory>
    ensures { IfOk result (λ message. message ≡ double_message_of unit.now) }
{
    let text = join_words(alloc, &[b"two files make the unit `", unit, b"`"])?;
    let help = Row::from_vec(b"rename or move one of them".to_vec(alloc)?);
    Ok(make_error(alloc, Kind::DoubleUnit, text, Some(help)))
}

/// The message of a manifest that has a bad line, or none for a unit.
fn manifest_message(alloc: Global, line: u32) -> Result<Message, Memory>
    ensures { IfOk result (λ message. message ≡ manifest_message_of line) }
{
    let number = group_digits(alloc, u64::from(line))?;
    let text = join_words(
        alloc,
        &[
            b"line ",
            number.as_slice(),
            b" of rotor.units names no unit or one of an earlier line, or a unit has no line",
        ],
    )?;
    let help = Row::from_vec(b"each unit of the folder stands on one line".to_vec(alloc)?);
    Ok(make_error(alloc, Kind::BadManifest, text, Some(help)))
}
