//! The edits of a renaming.

ghost use Rattle.std.specs.Prelude.{◌≡◌, ◌<◌, ◌≤◌, All, IfErr, IfNone, IfOk, IfSome, OnOk, length};
ghost use Rattle.rotor_base.specs.Limits.{max_file_bytes};
ghost use Rattle.shape_core.specs.Places.{HasPlaces};
ghost use Rattle.rename_model.specs.Foot.{hits};
ghost use Rattle.renaming_edits.specs.Edits.{AreEdits, AreListed, IsDone, IsNoText, IsRefused, IsText};

use crate::error::EditsError;
use crate::source::{is_text, source_edits};
use rename_parts::hit_places;
use rotor_base::{Facts, Files, Memory, Place, Renamed, SourceFile};
use source_edits::TextEdit;
use std::alloc::Global;
use std::collections::BTreeSet;
use text_places::Counting;
use watched::set_of;

/// The edits of the source of a number.
#[derive(Debug, Drop)]
pub struct FileEdits {
    pub file: u32,
    pub edits: Vec<TextEdit>,
}

/// The edits of a renaming that was done over these files, for each source that changed, in order. The caller ensures
/// that the facts are those of the project of the files. If an editor applies the edits of a source as the Language
/// Server Protocol says, it has the new source. The other sources keep their bytes.
///
/// # Errors
///
/// `NotText` with a source that changed and is no text in UTF-8. `Memory`.
pub fn edits_of(
    alloc: Global,
    counting: Counting,
    files: &Files,
    facts: &Facts,
    done: &Renamed,
) -> Result<Vec<FileEdits>, EditsError>
    requires { IsDone files.now facts.now done.now }
    ensures edits { IfOk result (λ list. AreEdits counting files.now done.now list.items) }
    ensures texts { OnOk result (All (IsText files.now.entries) done.now.changed) }
    ensures refused { IfErr result (IsRefused files.now.entries done.now.changed) }
{
    let sources = files.entries();
    if let Some(file) = find_no_text(sources, done.changed.as_slice()) {
        return Err(EditsError::NotText { file });
    }
    let set = changed_places(alloc, facts, done)?;
    let list = listed_edits(alloc, counting, sources, done, &set)?;
    Ok(list)
}

/// The places that take the new word.
fn changed_places(alloc: Global, facts: &Facts, done: &Renamed) -> Result<BTreeSet<Place>, Memory>
    ensures { IfOk result (HasPlaces (hits facts.now.refs done.now.foot)) }
{
    let members = set_of(alloc, done.foot.decls.as_slice())?;
    let places = hit_places(alloc, facts.refs.as_slice(), &done.foot, &members)?;
    set_of(alloc, &places)
}

/// The first source of some numbers that is no text in UTF-8.
fn find_no_text(sources: &[SourceFile], numbers: &[u32]) -> Option<u32>
    requires { All (λ number. number < length sources.now) numbers.now }
    ensures found { IfSome result (IsNoText sources.now numbers.now) }
    ensures none { IfNone result (All (IsText sources.now) numbers.now) }
{
    for number in numbers {
        if !is_text(sources[*number as usize].bytes.as_slice()) {
            return Some(*number);
        }
    }
    None
}

/// The edits of each source that changed.
fn listed_edits(
    alloc: Global,
    counting: Counting,
    sources: &[SourceFile],
    done: &Renamed,
    set: &BTreeSet<Place>,
) -> Result<Vec<FileEdits>, Memory>
    requires within { All (λ number. number < length sources.now) done.now.changed }
    requires texts { All (IsText sources.now) done.now.changed }
    requires small { All (λ file. length file.bytes ≤ max_file_bytes) sources.now }
    ensures { IfOk result (λ list. AreListed counting set.now done.now.new sources.now done.now.changed list.items) }
{
    let mut list = Vec::new(alloc);
    for file in done.changed.as_slice() {
        let source = sources[*file as usize].bytes.as_slice();
        let edits = source_edits(alloc, counting, source, *file, set, done.new.as_bytes())?;
        list.push(FileEdits { file: *file, edits })?;
    }
    Ok(list)
}
