//! The renamings of a batch, one after the other.
ghost use Rattle.std.specs.Prelude.{◌≡◌, ◌^◌, ◌<◌, ◌≤◌, Err, IfErr, IfOk, Ok, length, unwrap_or};
ghost use Rattle.rotor_base.specs.Limits.{max_sources};
ghost use Rattle.project_reading.specs.Known.{AreKnown};
ghost use Rattle.rename_batch.specs.Batch.{Answers, Batches, IsErrorOf, IsFailedFor, IsRefusedStep, NamesRefusal, Runs, changed_from, undos_of};

use crate::{BatchError, Batched, Change, Step, Undo};
use project_reading::KnownTrees;
use rename_files::rename_again;
use rotor_base::{Files, Memory, Name, Refusal, Renamed, Row, SourceFile, Text};
use std::alloc::Global;

/// Renames one step after the other, each in the files that the step before it left. The caller makes sure that there
/// are fewer than 4,294,967,296 steps.
///
/// # Errors
///
/// `At` with the number, from 1, of the first step that is refused, and its refusal. `Memory`.
pub fn batch(alloc: Global, files: &Files, steps: &[Step]) -> Result<Batched, BatchError>
    requires { length steps.now < 2 ^ 32 }
    ensures done { IfOk result (λ done. Batches files.now steps.now (Ok done)) }
    ensures refused { IfErr result (IsFailedFor (λ error. Batches files.now steps.now (Err error))) }
    ensures named { IfErr result NamesRefusal }
{
    let (last, done) = run_steps(alloc, files, steps)?;
    let changed = changed_sources(alloc, files.entries(), last.entries())?;
    let undo = undos(alloc, done.as_slice())?;
    Ok(Batched {
        files: last,
        changed,
        done,
        undo,
    })
}

/// The last files, and what each step has done.
fn run_steps(
    alloc: Global,
    files: &Files,
    steps: &[Step],
) -> Result<(Files, Row<Change>), BatchError>
    requires { length steps.now < 2 ^ 32 }
    ensures run { IfOk result (λ run. Runs files.now steps.now run.0 run.1) }
    ensures refused { IfErr result (IsFailedFor (λ error. Batches files.now steps.now (Err error))) }
    ensures named { IfErr result NamesRefusal }
{
    let mut last = None;
    let mut known = KnownTrees::new(alloc);
    let mut changes = Row::new(alloc);
    for at in 0..steps.len() {
        let (done, next) = run_step(
            alloc,
            find_latest(files, &last),
            known,
            &steps[at],
            at as u32 + 1,
        )?;
        known = next;
        changes.push(Change {
            old: done.old,
            new: done.new,
            at: done.undo_at,
        })?;
        last = Some(done.files);
    }
    Ok((take_latest(alloc, files, last)?, changes))
}

/// Does the step of this number in some files, of which some trees are known. It returns also the trees that are known
/// of the files that it leaves.
fn run_step(
    alloc: Global,
    files: &Files,
    known: KnownTrees,
    step: &Step,
    number: u32,
) -> Result<(Renamed, KnownTrees), BatchError>
    requires { AreKnown files.now.entries known }
    ensures done { IfOk result (λ again. Answers files.now step.now (Ok again.0)) }
    ensures known { IfOk result (λ again. AreKnown again.0.files.entries again.1) }
    ensures refused { IfErr result (IsFailedFor (IsRefusedStep files.now step.now number)) }
    ensures named { IfErr result NamesRefusal }
{
    match rename_again(alloc, files, known, &step.target, step.name.as_bytes()) {
        Ok(done) => Ok(done),
        Err(refusal) => Err(make_step_error(number, refusal)),
    }
}

/// The error of a step of this number that has this refusal.
fn make_step_error(step: u32, refusal: Refusal) -> BatchError
    ensures { IsErrorOf step refusal result }
{
    match refusal {
        Refusal::Memory => BatchError::Memory,
        refusal => BatchError::At { step, refusal },
    }
}

/// The files that the last step left, or the first ones before any step.
fn find_latest<'a>(first: &'a Files, last: &'a Option<Files>) -> &'a Files
    ensures { result.now ≡ unwrap_or last.now first.now }
{
    match last {
        Some(files) => files,
        None => first,
    }
}

/// The files that the last step left; if there is no step, a copy of the first ones.
fn take_latest(alloc: Global, first: &Files, last: Option<Files>) -> Result<Files, Memory>
    ensures { IfOk result (λ files. files ≡ unwrap_or last first.now) }
{
    match last {
        Some(files) => Ok(files),
        None => copy_files(alloc, first),
    }
}

/// A copy of some files.
fn copy_files(alloc: Global, files: &Files) -> Result<Files, Memory>
    ensures { IfOk result (λ copy. copy ≡ files.now) }
{
    let entries = copy_sources(alloc, files.entries())?;
    let manifest = match files.manifest() {
        None => None,
        Some(bytes) => Some(bytes.to_vec(alloc)?),
    };
    Ok(Files::from_parts(entries, manifest))
}

/// Copies of some sources.
fn copy_sources(alloc: Global, sources: &[SourceFile]) -> Result<Vec<SourceFile>, Memory>
    ensures { IfOk result (λ copies. copies.items ≡ sources.now) }
{
    let mut copies = Vec::new(alloc);
    for source in sources {
        copies.push(copy_source(alloc, source)?)?;
    }
    Ok(copies)
}

/// A copy of a source.
fn copy_source(alloc: Global, source: &SourceFile) -> Result<SourceFile, Memory>
    ensures { IfOk result (λ copy. copy ≡ source.now) }
{
    Ok(SourceFile {
        name: Text::from_string(String::from_str(alloc, source.name.as_str())?),
        bytes: Row::from_vec(source.bytes.as_slice().to_vec(alloc)?),
    })
}

/// The numbers of the sources whose bytes differ.
fn changed_sources(
    alloc: Global,
    olds: &[SourceFile],
    news: &[SourceFile],
) -> Result<Row<u32>, Memory>
    requires { length olds.now ≤ max_sources }
    ensures { IfOk result (λ changed. changed ≡ changed_from 0 olds.now news.now) }
{
    let mut changed = Row::new(alloc);
    for at in 0..olds.len().min(news.len()) {
        if olds[at].bytes.as_slice() != news[at].bytes.as_slice() {
            changed.push(at as u32)?;
        }
    }
    Ok(changed)
}

/// The steps back from some changes, the last change first.
fn undos(alloc: Global, changes: &[Change]) -> Result<Row<Undo>, Memory>
    ensures { IfOk result (λ undos. undos ≡ undos_of changes.now) }
{
    let mut undos = Vec::new(alloc);
    for change in changes {
        let old = Name::new(alloc, change.old.as_bytes())?;
        undos.push(Undo { at: change.at, old })?;
    }
    undos.reverse();
    Ok(Row::from_vec(undos))
}
