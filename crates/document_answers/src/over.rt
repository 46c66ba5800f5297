//! A query over the files of a project.
ghost use Rattle.std.specs.Prelude.{◌≡◌, ◌<◌, ◌≤◌, All, IfOk, Some, length, map, string_bytes};
ghost use Rattle.rotor_base.specs.Limits.{max_file_bytes};
ghost use Rattle.lsp_answers.specs.Plain.{IsPlain};
ghost use Rattle.ml_lexer.specs.Lexed.{view_tokens};
ghost use Rattle.ml_trees.specs.View.{view_project};
ghost use Rattle.project_reading.specs.Sources.{AreCut};
ghost use Rattle.rename_files.specs.Answer.{Rejects};
ghost use Rattle.rename_model.specs.Target.{number_of as number_for};
ghost use Rattle.rename_project.specs.Steps.{IsRefusedFor};
ghost use Rattle.kept_projects.specs.Kept.{IsKept};
ghost use Rattle.refusal_words.specs.Cut.{AreCuts, view_cut};
ghost use Rattle.requests.specs.Asked.{query_words};
ghost use Rattle.text_places.specs.Marks.{offset_of as offset_for};
ghost use Rattle.text_places.specs.declared.counting.Position.{Position};
ghost use Rattle.explain.specs.Refused.{is_memory as is_memory_of};
ghost use Rattle.query_failures.specs.Folder.{IsProjectFailure};
ghost use Rattle.document_scene.specs.Scene.{view_scene};
ghost use Rattle.document_answers.specs.Asked.{RepliesTo};
ghost use Rattle.document_answers.specs.Known.{IsKnown, RepliesAround};
ghost use Rattle.document_answers.specs.Over.{RepliesInSource, counting_of as counting_for};
ghost use Rattle.document_answers.specs.Refused.{IsBad, IsRefused, IsRefusedAs, lacking_text};
ghost use Rattle.document_answers.specs.Value.{is_nameless as is_nameless_of};

use crate::refused::refused_reply;
use crate::value::{nothing_reply, token_reply};
use document_scene::Scene;
use document_uris::FilePlace;
use kept_projects::{KeptProject, open_project, read_of};
use lsp_answers::{Answer, Reply};
use ml_trees::Project;
use mod_shape::Resolved;
use open_documents::Documents;
use project_reading::Read;
use query_failures::{parameter_failure, plain_failure, project_failure};
use refusal_words::{CutSource, cut_sources};
use rename_parts::number_of;
use requests::{Client, Encoding, Query};
use rotor_base::{Files, Memory, Place, Refusal};
use std::alloc::Global;
use text_places::{Counting, Position, offset_of};
use value_at::{ValueAt, token_at};

/// A query at a place of a source: the client that asks it, and the documents that it holds in the folder of the
/// source.
#[derive(Clone, Copy)]
pub(crate) struct Asked<'a> {
    pub client: Client,
    pub held: &'a Documents,
    pub file: &'a FilePlace,
    pub position: Position,
    pub query: Query<&'a str>,
}

/// Files with what they are read as and what that is resolved to, the folder as an answer shows it, and whether the
/// editor takes versions.
#[derive(Clone, Copy)]
pub(crate) struct Around<'a> {
    pub files: &'a Files,
    pub read: &'a Read<'a>,
    pub resolved: &'a Resolved,
    pub scene: Scene<'a>,
    pub has_versions: bool,
}

/// The reply to a query over the files of a folder. If they are accepted as a project, it is kept.
pub(crate) fn answer_over_files(
    alloc: Global,
    last: &mut Option<KeptProject>,
    asked: Asked<'_>,
    files: Files,
) -> Result<Reply, Memory>
    ensures reply { IfOk result (RepliesTo asked.entry files) }
    ensures plain { IfOk result IsPlain }
{
    match number_of(files.entries(), asked.file.name.as_bytes()) {
        Some(number) => answer_over_source(alloc, last, asked, files, number),
        None => reply_without_source(alloc, asked.file.name.as_bytes(), asked.query),
    }
}

/// The reply to a query in a source that its folder lacks.
fn reply_without_source(alloc: Global, name: &[u8], query: Query<&str>) -> Result<Reply, Memory>
    ensures reply { IfOk result (IsRefusedAs (query_words query.entry) (lacking_text name.now)) }
    ensures plain { IfOk result IsPlain }
{
    let failure = plain_failure(alloc, &[name, b" is not in its folder"])?;
    Ok(refused_reply(query, failure))
}

/// The reply to a query at a place of the source of a number.
fn answer_over_source(
    alloc: Global,
    last: &mut Option<KeptProject>,
    asked: Asked<'_>,
    files: Files,
    number: u32,
) -> Result<Reply, Memory>
    requires number { number_for files.entries (string_bytes asked.file.now.name) ≡ Some number }
    requires within { number < length files.entries }
    ensures reply { IfOk result (RepliesTo asked.entry files) }
    ensures plain { IfOk result IsPlain }
{
    match open_project(alloc, last.take(), files) {
        Ok(kept) => {
            let (kept, reply) = answer_over_kept(alloc, asked, kept, number)?;
            *last = Some(kept);
            Ok(reply)
        }
        Err(refused) => rejected_reply(alloc, &refused.files, &refused.why, asked.query),
    }
}

/// The reply to a query at a place of the source of a number, over a project, which is returned too.
fn answer_over_kept(
    alloc: Global,
    asked: Asked<'_>,
    kept: KeptProject,
    number: u32,
) -> Result<(KeptProject, Reply), Memory>
    requires number { number_for kept.entries (string_bytes asked.file.now.name) ≡ Some number }
    requires within { number < length kept.entries }
    ensures reply { IfOk result (λ done. RepliesTo asked.entry kept done.1) }
    ensures plain { IfOk result (λ done. IsPlain done.1) }
{
    let (files, project, resolved) = kept.into_parts();
    let (project, reply) = answer_over_project(alloc, asked, &files, project, &resolved, number)?;
    Ok((KeptProject::from_parts(files, project, resolved), reply))
}

/// The same, over the files of the project.
fn answer_over_project(
    alloc: Global,
    asked: Asked<'_>,
    files: &Files,
    project: Project,
    resolved: &Resolved,
    number: u32,
) -> Result<(Project, Reply), Memory>
    requires kept { IsKept files.now (view_project project) resolved.now }
    requires number { number_for files.now.entries (string_bytes asked.file.now.name) ≡ Some number }
    requires within { number < length files.now.entries }
    ensures same { IfOk result (λ done. done.0 ≡ project) }
    ensures reply { IfOk result (λ done. RepliesTo asked.entry files.now done.1) }
    ensures plain { IfOk result (λ done. IsPlain done.1) }
{
    let cuts = cut_sources(alloc, files.entries())?;
    let read = read_of(alloc, project, &cuts)?;
    let reply = answer_over_read(alloc, asked, files, &cuts, &read, resolved, number)?;
    Ok((read.project, reply))
}

/// The same, over what the files are read as.
fn answer_over_read(
    alloc: Global,
    asked: Asked<'_>,
    files: &Files,
    cuts: &[CutSource<'_>],
    read: &Read<'_>,
    resolved: &Resolved,
    number: u32,
) -> Result<Reply, Memory>
    requires kept { IsKept files.now (view_project read.now.project) resolved.now }
    requires tokens { AreCut files.now.entries (map (λ list. view_tokens list.items) read.now.tokens.items) }
    requires cut { AreCuts files.now.entries (map view_cut cuts.now) }
    requires small { All (λ cut. length cut.tokens.items ≤ max_file_bytes) cuts.now }
    requires number { number_for files.now.entries (string_bytes asked.file.now.name) ≡ Some number }
    requires within { number < length cuts.now }
    ensures reply { IfOk result (RepliesTo asked.entry files.now) }
    ensures plain { IfOk result IsPlain }
{
    let scene = Scene {
        folder: asked.file.folder.as_str(),
        held: asked.held,
        sources: files.entries(),
        cuts,
        counting: counting_of(asked.client.encoding),
    };
    let around = Around {
        files,
        read,
        resolved,
        scene,
        has_versions: asked.client.document_changes,
    };
    answer_at_position(alloc, around, number, asked.position, asked.query)
}

/// The reply to a query over files that are refused as a project.
fn rejected_reply(
    alloc: Global,
    files: &Files,
    why: &Refusal,
    query: Query<&str>,
) -> Result<Reply, Memory>
    requires { IsRefusedFor (Rejects files.now) why.now }
    ensures rejected { IfOk result (λ _. Rejects files.now why.now) }
    ensures reply { IfOk result (IsRefused (query_words query.entry) (IsProjectFailure files.now why.now)) }
    ensures plain { IfOk result IsPlain }
{
    if is_memory(why) {
        return Err(Memory);
    }
    match query {
        Query::DocumentHighlight => Ok(Ok(Answer::Nothing)),
        _ => Ok(Err(project_failure(alloc, files, why)?)),
    }
}

/// Whether a refusal is want of memory.
pub(crate) fn is_memory(refusal: &Refusal) -> bool
    ensures { result ≡ is_memory_of refusal.now }
{
    matches!(refusal, Refusal::Memory)
}

/// How the client counts columns.
fn counting_of(encoding: Encoding) -> Counting
    ensures { result ≡ counting_for encoding }
{
    match encoding {
        Encoding::Utf8 => Counting::Utf8,
        Encoding::Utf16 => Counting::Utf16,
    }
}

/// The reply to a query at a position of the source of a number.
fn answer_at_position(
    alloc: Global,
    around: Around<'_>,
    number: u32,
    position: Position,
    query: Query<&str>,
) -> Result<Reply, Memory>
    requires known { IsKnown around }
    requires within { number < length around.scene.cuts.now }
    ensures reply { IfOk result (RepliesInSource around.entry.files.now (view_project around.entry.read.now.project) (view_scene around.entry.scene) around.entry.has_versions number position (query_words query.entry)) }
    ensures plain { IfOk result IsPlain }
{
    let cuts = around.scene.cuts;
    let cut = &cuts[number as usize];
    match offset_of(around.scene.counting, cut.bytes, position) {
        Some(offset) => answer_at_offset(alloc, around, cut, number, offset, query),
        None => bad_reply(alloc, b"the position names no character of the document"),
    }
}

/// The reply to a query whose parameters are bad.
fn bad_reply(alloc: Global, text: &[u8]) -> Result<Reply, Memory>
    ensures reply { IfOk result (IsBad text.now) }
    ensures plain { IfOk result IsPlain }
{
    Ok(Err(parameter_failure(alloc, text)?))
}

/// The reply to a query at a byte of a source.
fn answer_at_offset(
    alloc: Global,
    around: Around<'_>,
    cut: &CutSource<'_>,
    number: u32,
    offset: u32,
    query: Query<&str>,
) -> Result<Reply, Memory>
    requires known { IsKnown around }
    requires small { length cut.now.tokens.items ≤ max_file_bytes }
    ensures reply { (here : Position) → offset_for around.entry.scene.counting here cut.now.bytes.now ≡ Some offset → IfOk result (RepliesAround around.entry number (view_cut cut.now) here (query_words query.entry)) }
    ensures plain { IfOk result IsPlain }
{
    if is_nameless(query) {
        return bad_reply(alloc, b"newName is wanted");
    }
    match token_at(&cut.tokens, offset) {
        Some(token) => {
            let place = Place {
                file: number,
                token,
            };
            token_reply(alloc, around, place, query)
        }
        None => nothing_reply(alloc, around.scene.cuts, None, ValueAt::NoValue, query),
    }
}

/// Whether a query is a renaming without a new name.
fn is_nameless(query: Query<&str>) -> bool
    ensures { result ≡ is_nameless_of (query_words query.entry) }
{
    match query {
        Query::Rename { name: None } => true,
        _ => false,
    }
}
