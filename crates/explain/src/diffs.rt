//! The diffs of changed sources.
ghost use Rattle.std.specs.Prelude.{IfOk, Some, slice_get};
ghost use Rattle.explain.specs.Diffs.{AreDiffs, IsDiffAt};

use rotor_base::{Memory, SourceFile};
use source_diff::diff;
use std::alloc::Global;

/// The diffs of the sources of these numbers, in order. The one error is want of memory.
pub fn diffs_text(
    alloc: Global,
    old: &[SourceFile],
    new: &[SourceFile],
    changed: &[u32],
) -> Result<Vec<u8>, Memory>
    ensures { IfOk result (λ text. AreDiffs old.now new.now changed.now text.items) }
{
    let mut text = Vec::new(alloc);
    for number in changed {
        let piece = diff_at(alloc, old, new, *number)?;
        text.extend_from_slice(&piece)?;
    }
    Ok(text)
}

/// The diff of the two versions of the source of a number, if there are both.
fn diff_at(
    alloc: Global,
    old: &[SourceFile],
    new: &[SourceFile],
    number: u32,
) -> Result<Vec<u8>, Memory>
    ensures { IfOk result (λ text. IsDiffAt (slice_get old.now number) (slice_get new.now number) text.items) }
{
    match old.get(number as usize) {
        Some(old) => diff_from(alloc, old, new, number),
        None => Ok(Vec::new(alloc)),
    }
}

/// The diff of a source and its new version, if there is one.
fn diff_from(
    alloc: Global,
    old: &SourceFile,
    new: &[SourceFile],
    number: u32,
) -> Result<Vec<u8>, Memory>
    ensures { IfOk result (λ text. IsDiffAt (Some old.now) (slice_get new.now number) text.items) }
{
    match new.get(number as usize) {
        Some(new) => diff_of(alloc, old, new),
        None => Ok(Vec::new(alloc)),
    }
}

/// The diff of two versions of a source.
fn diff_of(alloc: Global, old: &SourceFile, new: &SourceFile) -> Result<Vec<u8>, Memory>
    ensures { IfOk result (λ text. IsDiffAt (Some old.now) (Some new.now) text.items) }
{
    diff(
        alloc,
        old.name.as_str().as_bytes(),
        old.bytes.as_slice(),
        new.bytes.as_slice(),
    )
}
