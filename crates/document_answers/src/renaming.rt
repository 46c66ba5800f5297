//! Renamings.
ghost use Rattle.std.specs.Prelude.{Err, IfOk};
ghost use Rattle.lsp_answers.specs.Plain.{IsPlain};
ghost use Rattle.ml_trees.specs.View.{view_project};
ghost use Rattle.editor_renaming.specs.Asked.{name_at as name_at_of, target_of as target_for};
ghost use Rattle.value_at.specs.Value.{IsValueAt};
ghost use Rattle.value_at.specs.declared.value.ValueAt.TheVariants as value;
ghost use Rattle.document_scene.specs.Changes.{documents_of};
ghost use Rattle.document_scene.specs.Scene.{view_scene};
ghost use Rattle.document_answers.specs.Known.{IsKnown};
ghost use Rattle.query_failures.specs.Failure.{IsSaid};
ghost use Rattle.query_failures.specs.Renaming.{IsRenamingFailure};
ghost use Rattle.lsp_answers.specs.declared.answer.ErrorCode.TheVariants as code;
ghost use Rattle.rename_files.specs.Answer.{Renames};
ghost use Rattle.rename_project.specs.Steps.{IsRefusedFor};
ghost use Rattle.document_answers.specs.Refused.{Fails, Succeeds, no_text_text};
ghost use Rattle.document_answers.specs.Renaming.{AreChanges, RepliesRename};

use crate::over::{Around, is_memory};
use document_scene::document_edits;
use editor_renaming::{EditorRenaming, name_at, rename_at, target_of};
use lsp_answers::{Answer, Reply};
use query_failures::{plain_failure, renaming_failure};
use renaming_edits::FileEdits;
use rotor_base::{Files, Memory, Place, Refusal, SourceFile};
use std::alloc::Global;

/// The reply to a renaming of the value of a declaration, at a token that declares or uses it.
pub(crate) fn renaming_reply(
    alloc: Global,
    around: Around<'_>,
    place: Place,
    declared: Place,
    name: &[u8],
) -> Result<Reply, Memory>
    requires known { IsKnown around }
    requires value { IsValueAt (view_project around.read.now.project) place (value.Value declared) }
    ensures reply { IfOk result (RepliesRename around.entry.files.now (view_scene around.entry.scene) around.entry.has_versions place.file declared name.now) }
    ensures plain { IfOk result IsPlain }
{
    let (files, counting) = (around.files, around.scene.counting);
    let (read, resolved) = (around.read, around.resolved);
    let answer = rename_at(alloc, counting, files, read, resolved, place, name)?;
    match answer {
        EditorRenaming::Edits { done: _, edits } => changes_reply(alloc, around, place.file, edits),
        EditorRenaming::NotText { file } => no_text_reply(alloc, files.entries(), file),
        EditorRenaming::Refused(why) => refused_renaming(alloc, files, declared, name, &why),
        EditorRenaming::NoValue(_) => unreachable!(),
    }
}

/// The reply with the edits of a renaming.
fn changes_reply(
    alloc: Global,
    around: Around<'_>,
    asked: u32,
    edits: Vec<FileEdits>,
) -> Result<Reply, Memory>
    ensures reply { IfOk result (Succeeds (AreChanges around.entry.has_versions (documents_of (view_scene around.entry.scene) asked edits.items))) }
    ensures plain { IfOk result IsPlain }
{
    let documents = document_edits(alloc, around.scene, asked, edits)?;
    if around.has_versions {
        Ok(Ok(Answer::VersionedChanges(documents)))
    } else {
        Ok(Ok(Answer::Changes(documents)))
    }
}

/// The reply to a renaming that would change a source that is no text in UTF-8.
fn no_text_reply(alloc: Global, sources: &[SourceFile], file: u32) -> Result<Reply, Memory>
    ensures reply { IfOk result (Fails (IsSaid code.Refused (no_text_text (name_at_of sources.now file)))) }
    ensures plain { IfOk result IsPlain }
{
    let failure = plain_failure(
        alloc,
        &[
            name_at(sources, file),
            b" is not UTF-8, so an editor cannot be given its changes; `rotor rename` can make them",
        ],
    )?;
    Ok(Err(failure))
}

/// The reply to a renaming that is refused.
fn refused_renaming(
    alloc: Global,
    files: &Files,
    declared: Place,
    name: &[u8],
    why: &Refusal,
) -> Result<Reply, Memory>
    requires { IsRefusedFor (λ w. Renames files.now (target_for files.now.entries declared) name.now (Err w)) why.now }
    ensures refused { IfOk result (λ _. Renames files.now (target_for files.now.entries declared) name.now (Err why.now)) }
    ensures reply { IfOk result (Fails (IsRenamingFailure files.now (target_for files.now.entries declared) name.now why.now)) }
    ensures plain { IfOk result IsPlain }
{
    if is_memory(why) {
        return Err(Memory);
    }
    let target = target_of(alloc, files.entries(), declared)?;
    Ok(Err(renaming_failure(alloc, files, &target, name, why)?))
}
