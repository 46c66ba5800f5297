//! The lines of `batch`, `verify` and `recover`, as the rows give them.

use crate::reports::outcome::read_long;
use crate::reports::refusal::{read_place, read_refusal};
use report::{
    bad_batch_text, bad_list_text, bad_plan_text, batch_line, changed_line, files_line, fixed_text,
    nothing_text, other_byte_text, other_sources_text, pending_text, push_line, recovered_text,
    step_line, stopped_text, undo_line, verified_line,
};
use rotor_base::{Memory, Name, Row};
use row_pieces::read_number;
use std::alloc::Global;

/// A line of `batch`, if the pieces are one.
pub fn batch_text(
    alloc: Global,
    names: &[String],
    pieces: &[&str],
) -> Result<Option<Vec<u8>>, Memory> {
    let text = match pieces {
        ["steps", count] => end_line(alloc, batch_line(alloc, read_long(count))?)?,
        ["step", old, new, at] => {
            let (old, new) = (read_name(alloc, old)?, read_name(alloc, new)?);
            end_line(alloc, step_line(alloc, names, &old, &new, read_place(at))?)?
        }
        ["files", count] => end_line(alloc, files_line(alloc, read_long(count))?)?,
        ["undo", at, old] => {
            let old = read_name(alloc, old)?;
            end_line(alloc, undo_line(alloc, names, read_place(at), &old)?)?
        }
        ["stopped", step, why @ ..] => match read_refusal(alloc, why)? {
            Some(why) => stopped_text(alloc, names, read_number(step), &why)?,
            None => return Ok(None),
        },
        ["bad", line] => bad_batch_text(alloc, read_number(line))?,
        _ => return Ok(None),
    };
    Ok(Some(text))
}

/// A line of `verify`, if the pieces are one.
pub fn verify_text(
    alloc: Global,
    names: &[String],
    pieces: &[&str],
) -> Result<Option<Vec<u8>>, Memory> {
    let text = match pieces {
        ["changes", count] => end_line(alloc, verified_line(alloc, read_long(count))?)?,
        ["change", at, old, new] => {
            let (old, new) = (read_name(alloc, old)?, read_name(alloc, new)?);
            end_line(
                alloc,
                changed_line(alloc, names, read_place(at), &old, &new)?,
            )?
        }
        ["sources", other] => {
            let other = read_name(alloc, other)?;
            other_sources_text(alloc, &other)?
        }
        ["byte", file, offset] => other_byte_text(
            alloc,
            names,
            read_number(file),
            read_number(offset),
        )?,
        ["fixed", at] => fixed_text(alloc, names, read_place(at))?,
        ["bad", list, line] => bad_list_text(alloc, list, read_number(line))?,
        _ => return Ok(None),
    };
    Ok(Some(text))
}

/// A line of `recover` or of an open gate, if the pieces are one.
pub fn recover_text(alloc: Global, pieces: &[&str]) -> Result<Option<Vec<u8>>, Memory> {
    let text = match pieces {
        ["files", count] => recovered_text(alloc, read_long(count))?,
        ["nothing"] => nothing_text(alloc)?,
        ["noplan"] => bad_plan_text(alloc)?,
        ["pending"] => pending_text(alloc, false)?,
        ["pending", "json"] => pending_text(alloc, true)?,
        _ => return Ok(None),
    };
    Ok(Some(text))
}

/// A line with its end.
fn end_line(alloc: Global, line: Row<u8>) -> Result<Vec<u8>, Memory> {
    let mut text = Vec::new(alloc);
    push_line(&mut text, &[line.as_slice()])?;
    Ok(text)
}

fn read_name(alloc: Global, text: &str) -> Result<Name, Memory> {
    Name::new(alloc, text.as_bytes())
}
