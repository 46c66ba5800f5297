//! The messages of sources that are outside the language.
ghost use Rattle.std.specs.Prelude.{◌≡◌, ◌≢◌, ◌++◌, IfNone, IfOk, IfSome, None, OnOk};
ghost use Rattle.rotor_base.specs.declared.refusal.LoadError.TheVariants as load_error;
ghost use Rattle.project_reading.specs.Reads.{IsRefused};
ghost use Rattle.explain.specs.Sources.{IsNoProject, SaysSource, SaysSources, alone};
ghost use Rattle.explain.specs.Explanation.{listed};

use crate::refused::is_memory;
use messages::Message;
use project_reading::read_project;
use refusal_places::placed_message;
use refusal_words::cut_sources;
use rotor_base::{Files, LoadError, Memory, Refusal, Row, SourceFile, Text, is_source, make_files};
use std::alloc::Global;

/// The message of each source that is outside the language, with its first reason, in order. The one error is want of
/// memory.
pub(crate) fn unread_messages(alloc: Global, sources: &[SourceFile]) -> Result<Row<Message>, Memory>
    ensures { IfOk result (SaysSources sources.now) }
{
    let mut messages = Vec::new(alloc);
    for source in sources {
        push_said(&mut messages, source_message(alloc, source)?)?;
    }
    Ok(Row::from_vec(messages))
}

/// Adds a message, if there is one.
fn push_said(messages: &mut Vec<Message>, said: Option<Message>) -> Result<(), Memory>
    ensures { OnOk result (messages.new.items ≡ messages.old.items ++ listed said) }
{
    if let Some(message) = said {
        messages.push(message)?;
    }
    Ok(())
}

/// The first reason for which a source is outside the language, if there is one.
fn source_message(alloc: Global, source: &SourceFile) -> Result<Option<Message>, Memory>
    ensures { IfOk result (SaysSource source.now) }
{
    match load_source_alone(alloc, source)? {
        Some(files) => message_of_source_alone(alloc, source, &files),
        None => Ok(None),
    }
}

/// The first reason for which the source of a project is outside the language, if there is one.
fn message_of_source_alone(
    alloc: Global,
    source: &SourceFile,
    files: &Files,
) -> Result<Option<Message>, Memory>
    requires { files.now ≡ alone source.now }
    ensures { IfOk result (SaysSource source.now) }
{
    match read_project(alloc, files) {
        Ok(_) => Ok(None),
        Err(refusal) => outside_message(alloc, source, files, &refusal),
    }
}

/// The message of the source of a project that is not read.
fn outside_message(
    alloc: Global,
    _source: &SourceFile,
    files: &Files,
    refusal: &Refusal,
) -> Result<Option<Message>, Memory>
    requires alone { files.now ≡ alone _source.now }
    requires refused { IsRefused files.now refusal.now }
    ensures { IfOk result (SaysSource _source.now) }
{
    if is_memory(refusal) {
        return Err(Memory);
    }
    let cuts = cut_sources(alloc, files.entries())?;
    placed_message(alloc, &cuts, refusal)
}

/// The project of a source alone.
fn load_source_alone(alloc: Global, source: &SourceFile) -> Result<Option<Files>, Memory>
    ensures project { IfOk result (λ found. IfSome found (λ files. files ≡ alone source.now)) }
    ensures none { IfOk result (λ found. IfNone found (IsNoProject source.now)) }
{
    if !is_source(source.name.as_str().as_bytes()) {
        return Ok(None);
    }
    let mut entries = Vec::new(alloc);
    entries.push(copy_source(alloc, source)?)?;
    match make_files(alloc, entries, None) {
        Ok(files) => Ok(Some(files)),
        Err(error) => no_project(&error),
    }
}

/// A copy of a source.
fn copy_source(alloc: Global, source: &SourceFile) -> Result<SourceFile, Memory>
    ensures { IfOk result (λ copy. copy ≡ source.now) }
{
    Ok(SourceFile {
        name: Text::from_string(String::from_str(alloc, source.name.as_str())?),
        bytes: Row::from_vec(source.bytes.as_slice().to_vec(alloc)?),
    })
}

/// No project, if there was memory.
fn no_project(error: &LoadError) -> Result<Option<Files>, Memory>
    ensures none { IfOk result (λ found. found ≡ None) }
    ensures memory { OnOk result (error.now ≢ load_error.Memory) }
{
    match error {
        LoadError::Memory => Err(Memory),
        _ => Ok(None),
    }
}
