//! What is said of the file of a batch.
ghost use Rattle.std.specs.Prelude.{◌≡◌, ◌+◌, ◌<◌, ◌≤◌, IfOk, IfSome, Some, bytes_eq, length, string_bytes, take};
ghost use Rattle.std.specs.List.{list_any};
ghost use Rattle.std.specs.Option.{option_map};
ghost use Rattle.rotor_base.specs.Limits.{max_file_bytes};
ghost use Rattle.rotor_base.specs.Lines.{feed_lines};
ghost use Rattle.tree_io.specs.Outside.{HasCause};
ghost use Rattle.refusal_words.specs.Commands.{no_batch as no_batch_of};
ghost use Rattle.refusal_words.specs.Folder.{large_file as large_file_of};
ghost use Rattle.explain_batch.specs.File.{SaysBatch, SaysLine, batch_in, refused_with};

use crate::steps::explain_steps;
use explain::{Explanation, explain_unloaded};
use line_stretches::line_stretch;
use project_load::is_project_file;
use refusal_words::{batch_line, large_file, long_batch, no_batch};
use rename_batch::{BatchReadError, read_batch};
use rotor_base::{Files, MAX_BATCH_LINES, MAX_FILE_BYTES, Memory};
use std::alloc::Global;
use tree_io::{Tree, TreeError};

/// The most bytes of a batch that are read: one more than it may have.
const READ_LIMIT: u32 = MAX_FILE_BYTES + 1;

/// What is said of the batch in the file of this name, over the files of a project: how many steps and sources it has,
/// and the diffs of the sources; or the first step that is refused; or why the file is no batch. It writes nothing.
///
/// # Errors
///
/// `Failed` after a counted fault, and `Memory`.
pub fn explain_batch<T: Tree>(
    alloc: Global,
    file: &str,
    files: &Files,
    tree: &mut T,
) -> Result<Explanation, TreeError>
    ensures said { IfOk result (λ explanation. IfSome (T.content tree.old) (λ held. SaysBatch file.now (batch_in held file.now) files.now explanation)) }
    ensures content { T.content tree.new ≡ T.content tree.old }
    ensures cause { HasCause (T.faults tree.old) (T.faults tree.new) result }
{
    match read_batch_file(alloc, file, tree)? {
        None => Ok(explain_missing_file(alloc, file)?),
        Some(bytes) => Ok(explain_bytes(alloc, file, files, &bytes)?),
    }
}

/// What is said of a file that the folder lacks, or that is a source or the manifest.
fn explain_missing_file(alloc: Global, file: &str) -> Result<Explanation, Memory>
    ensures { IfOk result (λ explanation. explanation ≡ refused_with (no_batch_of file.now)) }
{
    explain_unloaded(alloc, Some(no_batch(alloc, file.as_bytes())?))
}

/// The first bytes of the file of a batch, as many as it may have and one more; none if the folder lacks the file, or
/// it is a source or the manifest.
fn read_batch_file<T: Tree>(
    alloc: Global,
    file: &str,
    tree: &mut T,
) -> Result<Option<Vec<u8>>, TreeError>
    ensures read { IfOk result (λ found. IfSome (T.content tree.old) (λ held. option_map (λ bytes. bytes.items) found ≡ option_map (take (max_file_bytes + 1)) (batch_in held file.now))) }
    ensures short { IfOk result (λ found. IfSome found (λ bytes. length bytes.items ≤ max_file_bytes + 1)) }
    ensures content { T.content tree.new ≡ T.content tree.old }
    ensures cause { HasCause (T.faults tree.old) (T.faults tree.new) result }
{
    let listed = tree.list(alloc)?;
    if is_project_file(file) {
        return Ok(None);
    }
    if !has_name(&listed, file) {
        return Ok(None);
    }
    Ok(Some(tree.read(alloc, file, READ_LIMIT)?))
}

/// Whether a name is listed.
fn has_name(listed: &[String], name: &str) -> bool
    ensures { result ≡ list_any (λ other. bytes_eq (string_bytes other) name.now) listed.now }
{
    listed.iter().any(|other| other.as_str() == name)
}

/// What is said of a batch of these bytes.
fn explain_bytes(
    alloc: Global,
    file: &str,
    files: &Files,
    bytes: &[u8],
) -> Result<Explanation, Memory>
    requires { length bytes.now ≤ max_file_bytes + 1 }
    ensures { IfOk result (SaysBatch file.now (Some bytes.now) files.now) }
{
    if bytes.len() > MAX_FILE_BYTES as usize {
        return explain_large_file(alloc, file);
    }
    match read_batch(alloc, bytes) {
        Ok(steps) => explain_steps(alloc, files, &steps),
        Err(BatchReadError::Line(number)) => explain_bad_line(alloc, file, bytes, number),
        Err(BatchReadError::Memory) => Err(Memory),
    }
}

/// What is said of a file that is too large.
fn explain_large_file(alloc: Global, file: &str) -> Result<Explanation, Memory>
    ensures { IfOk result (λ explanation. explanation ≡ refused_with (large_file_of file.now)) }
{
    explain_unloaded(alloc, Some(large_file(alloc, file.as_bytes())?))
}

/// What is said of a batch whose line of this number is bad.
fn explain_bad_line(
    alloc: Global,
    file: &str,
    bytes: &[u8],
    number: u32,
) -> Result<Explanation, Memory>
    requires { length bytes.now ≤ max_file_bytes }
    ensures { IfOk result (λ explanation. 0 < number → number ≤ length (feed_lines bytes.now) → SaysLine file.now bytes.now number explanation) }
{
    if number > MAX_BATCH_LINES {
        return explain_unloaded(alloc, Some(long_batch(alloc, file.as_bytes())?));
    }
    let (start, end) = line_stretch(bytes, number);
    let message = batch_line(alloc, file.as_bytes(), bytes, start, end)?;
    explain_unloaded(alloc, Some(message))
}
