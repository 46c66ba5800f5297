//! A renaming that an editor asks for.

ghost use Rattle.std.specs.Prelude.{◌≡◌, IfErr, IfOk, None, map};
ghost use Rattle.ml_lexer.specs.Lexed.{view_tokens};
ghost use Rattle.value_sites.specs.Sound.{IsSound};
ghost use Rattle.ml_trees.specs.View.{view_project};
ghost use Rattle.shape_core.specs.Node.{entries_of};
ghost use Rattle.shape_core.specs.Shape.{none};
ghost use Rattle.binding_model.specs.Facts.{facts as facts_of};
ghost use Rattle.binding_model.specs.Scopes.{after_units};
ghost use Rattle.binding_model.specs.Sums.{heavy};
ghost use Rattle.project_reading.specs.Reads.{Reads};
ghost use Rattle.project_reading.specs.Sources.{AreCut};
ghost use Rattle.rename_model.specs.Project.{refusals_of_project};
ghost use Rattle.rename_project.specs.Steps.{IsFreeOf};
ghost use Rattle.editor_renaming.specs.Asked.{IsAnswer, IsRenamedTo, name_at, target_of};

use crate::accepted::accepted_edits;
use mod_shape::Resolved;
use project_reading::Read;
use rename_files::rename_in;
use renaming_edits::{EditsError, FileEdits};
use rotor_base::{Files, Memory, Name, Place, Refusal, Renamed, SourceFile, Target};
use std::alloc::Global;
use text_places::Counting;
use value_at::{ValueAt, value_at};

/// What a renaming that an editor asks for is answered.
#[derive(Drop)]
pub enum EditorRenaming {
    /// It is accepted: what it has done, and the edits of each source that changed.
    Edits {
        done: Renamed,
        edits: Vec<FileEdits>,
    },
    /// It is accepted, but the source of this number would change and is no text in UTF-8.
    NotText {
        file: u32,
    },
    /// It is refused.
    Refused(Refusal),
    /// The place declares and uses no value of the folder.
    NoValue(ValueAt),
}

/// Renames the value that a place declares or uses, over files that were read and resolved. The caller ensures what
/// [`rename_in`] requires. `Memory` is the only error.
pub fn rename_at(
    alloc: Global,
    counting: Counting,
    files: &Files,
    read: &Read<'_>,
    resolved: &Resolved,
    place: Place,
    name: &[u8],
) -> Result<EditorRenaming, Memory>
    requires reads { Reads files.now (view_project read.now.project) }
    requires sound { IsSound (view_project read.now.project) }
    requires cut { AreCut files.now.entries (map (λ list. view_tokens list.items) read.now.tokens.items) }
    requires passed { IsFreeOf (refusals_of_project (view_project read.now.project)) }
    requires light { heavy (view_project read.now.project) ≡ None }
    requires facts { resolved.now.facts ≡ facts_of (view_project read.now.project) }
    requires top { entries_of resolved.now.top ≡ after_units none (view_project read.now.project) }
    ensures { IfOk result (IsAnswer counting files.now (view_project read.now.project) place name.now) }
{
    match value_at(alloc, &read.project, &resolved.facts, place)? {
        ValueAt::Value(declaration) => {
            rename_value(alloc, counting, files, read, resolved, declaration, name)
        }
        found => Ok(EditorRenaming::NoValue(found)),
    }
}

/// Renames the value that a place declares.
fn rename_value(
    alloc: Global,
    counting: Counting,
    files: &Files,
    read: &Read<'_>,
    resolved: &Resolved,
    declaration: Place,
    name: &[u8],
) -> Result<EditorRenaming, Memory>
    requires reads { Reads files.now (view_project read.now.project) }
    requires sound { IsSound (view_project read.now.project) }
    requires cut { AreCut files.now.entries (map (λ list. view_tokens list.items) read.now.tokens.items) }
    requires passed { IsFreeOf (refusals_of_project (view_project read.now.project)) }
    requires light { heavy (view_project read.now.project) ≡ None }
    requires facts { resolved.now.facts ≡ facts_of (view_project read.now.project) }
    requires top { entries_of resolved.now.top ≡ after_units none (view_project read.now.project) }
    ensures { IfOk result (IsRenamedTo counting files.now declaration name.now) }
{
    let target = target_of(alloc, files.entries(), declaration)?;
    let done = match rename_in(alloc, files, read, resolved, &target, name) {
        Ok(done) => done,
        Err(why) => return Ok(EditorRenaming::Refused(why)),
    };
    match accepted_edits(alloc, counting, files, &resolved.facts, &target, &done) {
        Ok(edits) => Ok(EditorRenaming::Edits { done, edits }),
        Err(EditsError::NotText { file }) => Ok(EditorRenaming::NotText { file }),
        Err(EditsError::Memory) => Err(Memory),
    }
}

/// The target that names a place by its source and its token. The one error is want of memory.
pub fn target_of(alloc: Global, sources: &[SourceFile], place: Place) -> Result<Target, Memory>
    ensures { IfOk result (λ target. target ≡ target_of sources.now place) }
{
    Ok(Target::At {
        file: Name::new(alloc, name_at(sources, place.file))?,
        token: place.token,
    })
}

/// The name of the source of a number; if there is none, no bytes. It takes no memory.
pub fn name_at(sources: &[SourceFile], number: u32) -> &[u8]
    ensures { result.now ≡ name_at sources.now number }
{
    match sources.get(number as usize) {
        Some(source) => source.name.as_str().as_bytes(),
        None => &[],
    }
}
