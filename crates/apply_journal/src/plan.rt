//! Plans: the new bytes of the changed files, as one text.
ghost use Rattle.std.specs.Prelude.{◌≡◌, ◌++◌, ◌≤◌, ◌<◌, IfOk, OnOk, All, flat_map, length};
ghost use Rattle.std.specs.List.Sorted.{IsStrictlySortedBy};
ghost use Rattle.std.specs.Ordering.{nat_cmp};
ghost use Rattle.std.specs.Fmt.{decimal};
ghost use Rattle.rotor_base.specs.Limits.{max_plan_bytes};
ghost use Rattle.project_load.specs.Rewritten.{files_at};
ghost use Rattle.apply_journal.specs.Plan.{file_of, plan_entry, plan_text, IsPlan};

use rotor_base::{Files, Memory, Row, SourceFile, Text};
use std::alloc::Global;
use std::marker::Model;

/// A plan: the files that are to be written, with their text. Contracts see it as the list of its files.
#[derive(Debug, Drop)]
pub struct Plan {
    text: Vec<u8>,
    files: Vec<SourceFile>,
}

impl Model for Plan {
    ghost use Rattle.std.specs.Prelude.{List};
    ghost use Rattle.rotor_base.specs.declared.source.SourceFile.{SourceFile};
    ghost use Rattle.apply_journal.specs.Plan.{IsPlan};

    ghost Value = { List SourceFile };

    ghost view = { λ p. p.files.items };

    ghost invariant = { λ p. IsPlan p.text.items p.files.items };
}

impl Plan {
    /// The files, in byte order of their names. It takes no memory.
    pub fn files(&self) -> &[SourceFile]
        ensures files { result.now ≡ self.now }
        ensures plan { IsPlan (plan_text self.now) self.now }
    {
        &self.files
    }

    /// The text of the plan. It takes no memory.
    pub fn text(&self) -> &[u8]
        ensures text { result.now ≡ plan_text self.now }
        ensures some { 1 ≤ length result.now }
        ensures short { length result.now ≤ max_plan_bytes }
    {
        &self.text
    }

    /// The text of the plan, and its files.
    pub(crate) fn into_parts(self) -> (Vec<u8>, Vec<SourceFile>)
        ensures text { result.0.items ≡ plan_text self }
        ensures files { result.1.items ≡ self }
    {
        (self.text, self.files)
    }
}

/// The plan of the files of a project that have these numbers, counted from 0. The caller makes sure that each number
/// is below that of the files, and that each is greater than the one before it.
///
/// # Errors
///
/// `Memory` alone.
pub fn make_plan(alloc: Global, files: &Files, changed: &[u32]) -> Result<Plan, Memory>
    requires ordered { IsStrictlySortedBy nat_cmp changed.now }
    requires known { All (λ number. number < length files.now.entries) changed.now }
    ensures { IfOk result (λ plan. plan ≡ files_at files.now.entries changed.now) }
{
    let files = copy_files(alloc, files.entries(), changed)?;
    let text = write_text(alloc, &files)?;
    Ok(Plan { text, files })
}

/// Copies of the files that have these numbers.
fn copy_files(
    alloc: Global,
    files: &[SourceFile],
    numbers: &[u32],
) -> Result<Vec<SourceFile>, Memory>
    requires { All (λ number. number < length files.now) numbers.now }
    ensures { IfOk result (λ copies. copies.items ≡ files_at files.now numbers.now) }
{
    let mut copies = Vec::new(alloc);
    for number in numbers {
        let file = &files[*number as usize];
        copies.push(make_file(alloc, file.name.as_str(), file.bytes.as_slice())?)?;
    }
    Ok(copies)
}

/// A file of this name with these bytes.
pub(crate) fn make_file(alloc: Global, name: &str, bytes: &[u8]) -> Result<SourceFile, Memory>
    ensures { IfOk result (λ file. file ≡ file_of name.now bytes.now) }
{
    Ok(SourceFile {
        name: Text::from_string(String::from_str(alloc, name)?),
        bytes: Row::from_vec(bytes.to_vec(alloc)?),
    })
}

/// The text of the plan of some files.
fn write_text(alloc: Global, files: &[SourceFile]) -> Result<Vec<u8>, Memory>
    ensures { IfOk result (λ text. text.items ≡ plan_text files.now) }
{
    let mut text = Vec::new(alloc);
    text.extend_from_slice(b"rotor-plan 1\nfiles ")?;
    push_number(alloc, &mut text, files.len() as u64)?;
    text.extend_from_slice(b"\n")?;
    push_entries(alloc, &mut text, files)?;
    text.extend_from_slice(b"end\n")?;
    Ok(text)
}

/// Adds files to the text of a plan.
fn push_entries(alloc: Global, text: &mut Vec<u8>, files: &[SourceFile]) -> Result<(), Memory>
    ensures { OnOk result (text.new.items ≡ text.old.items ++ flat_map plan_entry files.now) }
{
    for file in files {
        push_entry(alloc, text, file)?;
    }
    Ok(())
}

/// Adds a file to the text of a plan.
fn push_entry(alloc: Global, text: &mut Vec<u8>, file: &SourceFile) -> Result<(), Memory>
    ensures { OnOk result (text.new.items ≡ text.old.items ++ plan_entry file.now) }
{
    text.extend_from_slice(file.name.as_str().as_bytes())?;
    text.extend_from_slice(b" ")?;
    push_number(alloc, text, file.bytes.as_slice().len() as u64)?;
    text.extend_from_slice(b"\n")?;
    text.extend_from_slice(file.bytes.as_slice())?;
    text.extend_from_slice(b"\n")?;
    Ok(())
}

/// Adds a number in decimal.
fn push_number(alloc: Global, text: &mut Vec<u8>, number: u64) -> Result<(), Memory>
    ensures { OnOk result (text.new.items ≡ text.old.items ++ decimal number) }
{
    let digits = format!(in alloc; "{number}")?;
    text.extend_from_slice(digits.as_bytes())?;
    Ok(())
}
