//! The renaming of `sample`, there and back.
ghost use Rattle.std.specs.Prelude.{◌≡◌, ◌↔◌, true, IfErr, IfOk, Ok, Err};
ghost use Rattle.rename_project.specs.Steps.{IsRefusedFor};
ghost use Rattle.sample_project.specs.Sample.{Answers, IsUndone, Samples, sample_target, undo_target};
ghost use Rattle.sample_project.specs.Sources.{sample_files};

use crate::sources::sample_files;
use rename_files::{answers_are_one, rename};
use rename_laws::{renamings_are_undone, undos_have_places};
use rotor_base::{Files, Memory, Name, Refusal, Renamed, Row, SampleReport, SourceFile, Target};
use std::alloc::Global;

/// Renames `U0.S.f` to `renamed` in the files of so many units, renames it back, and reports the numbers of the first
/// renaming and whether the sources are those at the start.
///
/// # Errors
///
/// The refusal of the first renaming. `Memory`.
pub fn sample(alloc: Global, units: u32) -> Result<SampleReport, Refusal>
    ensures sampled { IfOk result (λ report. Samples units (Ok report)) }
    ensures refused { IfErr result (IsRefusedFor (λ why. Samples units (Err why))) }
{
    let files = sample_files(alloc, units)?;
    let done = match rename_sample(alloc, units, &files) {
        Ok(done) => done,
        Err(refusal) => return Err(refusal),
    };
    let back = rename_back(alloc, &files, &done)?;
    Ok(SampleReport {
        units,
        footprint: done.foot.decls.as_slice().len() as u64,
        references: done.refs,
        undone: are_same(files.entries(), back.files.entries()),
    })
}

/// Renames `U0.S.f` to `renamed` in the files of so many units.
fn rename_sample(alloc: Global, units: u32, files: &Files) -> Result<Renamed, Refusal>
    requires { files.now ≡ sample_files units }
    ensures done { IfOk result (λ done. Answers units (Ok done)) }
    ensures undone { IfOk result (IsUndone (sample_files units)) }
    ensures back { IfOk result (IsUndone files.now) }
    ensures refused { IfErr result (IsRefusedFor (λ why. Answers units (Err why))) }
{
    renamings_are_undone();
    undos_have_places();
    let target = sample_target(alloc)?;
    rename(alloc, files, &target, b"renamed")
}

/// Renames back what was renamed in these files. No refusal holds.
fn rename_back(alloc: Global, files: &Files, done: &Renamed) -> Result<Renamed, Memory>
    requires { IsUndone files.now done.now }
    ensures { IfOk result (λ back. back.files ≡ files.now) }
{
    answers_are_one();
    let undo = undo_target(alloc, files.entries(), done)?;
    match rename(alloc, &done.files, &undo, done.old.as_bytes()) {
        Ok(back) => Ok(back),
        Err(_) => Err(Memory),
    }
}

/// The target `U0.S.f`.
fn sample_target(alloc: Global) -> Result<Target, Memory>
    ensures { IfOk result (λ target. target ≡ sample_target) }
{
    let mut path = Row::new(alloc);
    path.push(Name::new(alloc, b"U0")?)?;
    path.push(Name::new(alloc, b"S")?)?;
    path.push(Name::new(alloc, b"f")?)?;
    Ok(Target::Dotted(path))
}

/// The token that the undo of a renaming in these sources names.
fn undo_target(alloc: Global, entries: &[SourceFile], done: &Renamed) -> Result<Target, Memory>
    ensures { IfOk result (λ target. target ≡ undo_target entries.now done.now) }
{
    let name = match entries.get(done.undo_at.file as usize) {
        Some(file) => file.name.as_str().as_bytes(),
        None => b"",
    };
    Ok(Target::At {
        file: Name::new(alloc, name)?,
        token: done.undo_at.token,
    })
}

/// Whether these are the same sources.
fn are_same(some: &[SourceFile], others: &[SourceFile]) -> bool
    ensures { result ≡ true ↔ some.now ≡ others.now }
{
    some.len() == others.len()
        && some
            .iter()
            .zip(others)
            .all(|(one, other)| is_same(one, other))
}

/// Whether this is the same source.
fn is_same(one: &SourceFile, other: &SourceFile) -> bool
    ensures { result ≡ true ↔ one.now ≡ other.now }
{
    one.name.as_str() == other.name.as_str() && one.bytes.as_slice() == other.bytes.as_slice()
}
