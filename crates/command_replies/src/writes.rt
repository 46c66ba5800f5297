//! The writes of a reply.
ghost use Rattle.std.specs.Prelude.{◌≡◌, ◌++◌, [], IfOk, OnOk, slice_get};
ghost use Rattle.std.specs.List.{cons_option};
ghost use Rattle.project_load.specs.Rewritten.{files_at};
ghost use Rattle.rename_laws.specs.Laws.{ListsChanges};
ghost use Rattle.command_replies.specs.Said.{writes_of};

use crate::writing::Writing;
use apply_journal::{make_plan, safe_writes};
use rotor_base::{Memory, Renamed, Row, SourceFile, Text};
use std::alloc::Global;

/// The writes of a renaming that is done: with `--safe` those of a plan, with `--write` the changed files. `Memory` is
/// the only error.
pub fn writes_of(alloc: Global, writing: Writing, done: &Renamed) -> Result<Row<SourceFile>, Memory>
    requires { ListsChanges done.now }
    ensures { IfOk result (λ writes. writes ≡ writes_of writing (files_at done.now.files.entries done.now.changed)) }
{
    match writing {
        Writing::Show => Ok(Row::new(alloc)),
        Writing::Write => files_at(alloc, done.files.entries(), done.changed.as_slice()),
        Writing::Safe => {
            let plan = make_plan(alloc, &done.files, done.changed.as_slice())?;
            Ok(Row::from_vec(safe_writes(alloc, plan)?))
        }
    }
}

/// The files of these numbers. `Memory` is the only error.
#[tactic(auto, using(crate::proofs::Saying::pushed))]
pub fn files_at(
    alloc: Global,
    files: &[SourceFile],
    numbers: &[u32],
) -> Result<Row<SourceFile>, Memory>
    ensures { IfOk result (λ found. found ≡ files_at files.now numbers.now) }
{
    let mut found = Row::new(alloc);
    for number in numbers {
        let file = file_at(alloc, files, *number)?;
        push_if_some(&mut found, file)?;
    }
    Ok(found)
}

/// A copy of the file of a number, if there is one.
fn file_at(alloc: Global, files: &[SourceFile], number: u32) -> Result<Option<SourceFile>, Memory>
    ensures { IfOk result (λ found. found ≡ slice_get files.now number) }
{
    let Some(file) = files.get(number as usize) else {
        return Ok(None);
    };
    Ok(Some(copy_of(alloc, file)?))
}

/// Adds a file, if there is one.
fn push_if_some(found: &mut Row<SourceFile>, file: Option<SourceFile>) -> Result<(), Memory>
    ensures { OnOk result (found.new ≡ found.old ++ cons_option file []) }
{
    if let Some(file) = file {
        found.push(file)?;
    }
    Ok(())
}

/// A copy of a file.
fn copy_of(alloc: Global, file: &SourceFile) -> Result<SourceFile, Memory>
    ensures { IfOk result (λ copy. copy ≡ file.now) }
{
    let name = Text::from_string(String::from_str(alloc, file.name.as_str())?);
    let bytes = file.bytes.as_slice().to_vec(alloc)?;
    Ok(SourceFile {
        name,
        bytes: Row::from_vec(bytes),
    })
}
