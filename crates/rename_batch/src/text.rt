//! The report of an accepted batch.
ghost use Rattle.std.specs.Prelude.{◌≡◌, ◌++◌, IfOk, OnOk, flat_map, map, string_bytes};
ghost use Rattle.report.specs.Text.{ended};
ghost use Rattle.rename_batch.specs.Text.{batch_text as batch_text_of, change_line, undo_line as undo_line_of};

use crate::{Batched, Change, Undo};
use report::{batch_line, files_line, push_line, step_line, undo_line};
use rotor_base::Memory;
use std::alloc::Global;

/// The report of an accepted batch. `names` are the names of the sources by their numbers; a number past them has the
/// empty name. The one error is want of memory.
pub fn batch_text(alloc: Global, names: &[String], done: &Batched) -> Result<Vec<u8>, Memory>
    ensures { IfOk result (λ text. text.items ≡ batch_text_of (map string_bytes names.now) done.now) }
{
    let mut text = Vec::new(alloc);
    let steps = batch_line(alloc, done.done.as_slice().len() as u64)?;
    push_line(&mut text, &[steps.as_slice()])?;
    push_changes(alloc, &mut text, names, done.done.as_slice())?;
    let files = files_line(alloc, done.changed.as_slice().len() as u64)?;
    push_line(&mut text, &[files.as_slice()])?;
    push_undos(alloc, &mut text, names, done.undo.as_slice())?;
    Ok(text)
}

/// Adds the lines of the steps.
fn push_changes(
    alloc: Global,
    text: &mut Vec<u8>,
    names: &[String],
    changes: &[Change],
) -> Result<(), Memory>
    ensures { OnOk result (text.new.items ≡ text.old.items ++ flat_map ended (map (change_line (map string_bytes names.now)) changes.now)) }
{
    for change in changes {
        let line = step_line(alloc, names, &change.old, &change.new, change.at)?;
        push_line(text, &[line.as_slice()])?;
    }
    Ok(())
}

/// Adds the lines of the steps back.
fn push_undos(
    alloc: Global,
    text: &mut Vec<u8>,
    names: &[String],
    undos: &[Undo],
) -> Result<(), Memory>
    ensures { OnOk result (text.new.items ≡ text.old.items ++ flat_map ended (map (undo_line_of (map string_bytes names.now)) undos.now)) }
{
    for undo in undos {
        let line = undo_line(alloc, names, undo.at, &undo.old)?;
        push_line(text, &[line.as_slice()])?;
    }
    Ok(())
}
