//! The message of a unit that two sources make.
ghost use Rattle.std.specs.Prelude.{◌≡◌, ◌&&◌, IfOk, filter, map, string_bytes};
ghost use Rattle.std.specs.Bool.{beq};
ghost use Rattle.std.specs.Str.{bytes_eq};
ghost use Rattle.rotor_base.specs.Stem.{is_body_name};
ghost use Rattle.rotor_base.specs.Unit.{unit_of};
ghost use Rattle.folder_messages.specs.Folder.{double_message as double_message_of, first_two as first_two_of, is_twin as is_twin_of, twins as twins_of};

use messages::Message;
use refusal_words::double_unit;
use rotor_base::{Memory, source_unit};
use std::alloc::Global;

/// The message of two sources of one kind that make one unit: two bodies, or else two interfaces.
pub(crate) fn double_message(
    alloc: Global,
    names: &[String],
    unit: &[u8],
) -> Result<Option<Message>, Memory>
    ensures { IfOk result (λ message. message ≡ double_message_of (map string_bytes names.now) unit.now) }
{
    let bodies = list_twins(alloc, names, unit, true)?;
    if let [first, second, ..] = bodies.as_slice() {
        return Ok(Some(double_unit(alloc, first.as_bytes(), second.as_bytes(), unit)?));
    }
    let faces = list_twins(alloc, names, unit, false)?;
    if let [first, second, ..] = faces.as_slice() {
        return Ok(Some(double_unit(alloc, first.as_bytes(), second.as_bytes(), unit)?));
    }
    Ok(None)
}

/// The names among some that make a unit and are of one kind.
fn list_twins(
    alloc: Global,
    names: &[String],
    unit: &[u8],
    is_body: bool,
) -> Result<Vec<String>, Memory>
    ensures { IfOk result (λ found. map string_bytes found.items ≡ twins_of (map string_bytes names.now) unit.now is_body) }
{
    let mut found = Vec::new(alloc);
    for name in names {
        if is_twin(alloc, name.as_str(), unit, is_body)? {
            found.push(String::from_str(alloc, name.as_str())?)?;
        }
    }
    Ok(found)
}

/// Whether a source makes a unit and is of a kind.
fn is_twin(alloc: Global, name: &str, unit: &[u8], is_body: bool) -> Result<bool, Memory>
    ensures { IfOk result (λ is. is ≡ is_twin_of unit.now is_body name.now) }
{
    let made = source_unit(alloc, name.as_bytes())?;
    Ok(made.is_body == is_body && made.name.as_bytes() == unit)
}
