//! The reply to `batch`.
ghost use Rattle.std.specs.Prelude.{◌≡◌, ◌+◌, ◌<◌, ◌^◌, IfOk, IfSome, IsErrOf, Some, map, take, length, string_bytes, bytes_eq};
ghost use Rattle.std.specs.List.{list_any};
ghost use Rattle.std.specs.Option.{option_map};
ghost use Rattle.tree_io.specs.Outside.{HasCause, StaysSteady};
ghost use Rattle.rotor_base.specs.Limits.{max_file_bytes};
ghost use Rattle.tree_io.specs.Writes.{HasRoom};
ghost use Rattle.command_replies.specs.Said.{IsCommandReply, SaysBatch, SaysFound, SaysSteps, bad_batch, batch_in, batched_reply, stopped_batch};

use crate::folder::{Opened, open_project};
use crate::reply::{Reply, pending_reply, reply_of, source_names, unloaded_reply};
use crate::status::{Status, status_of_refusal};
use crate::writes::files_at;
use project_load::is_project_file;
use rename_batch::{BatchError, BatchReadError, Batched, Step, batch, batch_text, read_batch};
use report::{bad_batch_text, stopped_text};
use rotor_base::{Files, LoadError, MAX_FILE_BYTES, Memory, Name, Refusal, Row};
use std::alloc::Global;
use tree_io::{Tree, TreeError, take_room};

/// The most bytes of a batch that are read: one more than it may have.
const READ_LIMIT: u32 = MAX_FILE_BYTES + 1;

/// The reply to `batch`, with its room. The batch is in the file of this name. The errors are `Failed` and `Memory`.
pub fn reply_to_batch<T: Tree>(
    alloc: Global,
    file: &str,
    write: bool,
    tree: &mut T,
) -> Result<Reply, TreeError>
    ensures kind { IfOk result IsCommandReply }
    ensures said { IfOk result (λ reply. IfSome (T.content tree.old) (λ held. SaysBatch file.now write held reply)) }
    ensures content { T.content tree.new ≡ T.content tree.old }
    ensures room { IfOk result (λ reply. HasRoom (T.room_for tree.new) reply.writes) }
    ensures cause { HasCause (T.faults tree.old) (T.faults tree.new) result }
    ensures steady { StaysSteady (T.is_steady tree.old) (T.is_steady tree.new) (IsErrOf result TreeError.Failed) }
{
    match open_project(alloc, write, tree)? {
        Opened::Project(files) => batch_reply(alloc, file, write, &files, tree),
        Opened::Pending => Ok(pending_reply(alloc, false)?),
        Opened::NotLoaded(error) => Ok(unloaded_reply(alloc, false, error)?),
    }
}

/// The reply to `batch` over the files of a project, with its room.
fn batch_reply<T: Tree>(
    alloc: Global,
    file: &str,
    write: bool,
    files: &Files,
    tree: &mut T,
) -> Result<Reply, TreeError>
    ensures kind { IfOk result IsCommandReply }
    ensures said { IfOk result (λ reply. IfSome (T.content tree.old) (λ held. SaysFound file.now write (batch_in held file.now) files.now reply)) }
    ensures content { T.content tree.new ≡ T.content tree.old }
    ensures room { IfOk result (λ reply. HasRoom (T.room_for tree.new) reply.writes) }
    ensures cause { HasCause (T.faults tree.old) (T.faults tree.new) result }
    ensures steady { StaysSteady (T.is_steady tree.old) (T.is_steady tree.new) (IsErrOf result TreeError.Failed) }
{
    let found = read_batch_file(alloc, file, tree)?;
    let reply = found_reply(alloc, file, write, files, found)?;
    take_room(alloc, reply.writes.as_slice(), tree)?;
    Ok(reply)
}

/// The first bytes of the file of a batch, as many as it may have and one more; none if the folder lacks the file, or
/// it is a source or the manifest.
fn read_batch_file<T: Tree>(
    alloc: Global,
    file: &str,
    tree: &mut T,
) -> Result<Option<Vec<u8>>, TreeError>
    ensures read { IfOk result (λ found. IfSome (T.content tree.old) (λ held. option_map (λ bytes. bytes.items) found ≡ option_map (take (max_file_bytes + 1)) (batch_in held file.now))) }
    ensures content { T.content tree.new ≡ T.content tree.old }
    ensures cause { HasCause (T.faults tree.old) (T.faults tree.new) result }
    ensures steady { StaysSteady (T.is_steady tree.old) (T.is_steady tree.new) (IsErrOf result TreeError.Failed) }
{
    let listed = tree.list(alloc)?;
    if is_project_file(file) {
        return Ok(None);
    }
    if !has_name(&listed, file) {
        return Ok(None);
    }
    Ok(Some(tree.read(alloc, file, READ_LIMIT)?))
}

/// Whether a name is listed.
fn has_name(listed: &[String], name: &str) -> bool
    ensures { result ≡ list_any (λ other. bytes_eq (string_bytes other) name.now) listed.now }
{
    listed.iter().any(|other| other.as_str() == name)
}

/// The reply to a batch in a file that holds these bytes, or that is not there.
fn found_reply(
    alloc: Global,
    file: &str,
    write: bool,
    files: &Files,
    found: Option<Vec<u8>>,
) -> Result<Reply, Memory>
    ensures { IfOk result (SaysFound file.now write (option_map (λ bytes. bytes.items) found) files.now) }
{
    match found {
        None => bad_batch(alloc, 0),
        Some(bytes) => bytes_reply(alloc, file, write, files, &bytes),
    }
}

/// The reply to a batch of these bytes.
fn bytes_reply(
    alloc: Global,
    file: &str,
    write: bool,
    files: &Files,
    bytes: &[u8],
) -> Result<Reply, Memory>
    ensures { IfOk result (SaysFound file.now write (Some bytes.now) files.now) }
{
    if bytes.len() > MAX_FILE_BYTES as usize {
        let name = Name::new(alloc, file.as_bytes())?;
        return unloaded_reply(alloc, false, LoadError::TooLarge { file: name });
    }
    match read_batch(alloc, bytes) {
        Ok(steps) => steps_reply(alloc, write, files, &steps),
        Err(BatchReadError::Line(number)) => bad_batch(alloc, number),
        Err(BatchReadError::Memory) => Err(Memory),
    }
}

/// The reply to a batch of these steps.
fn steps_reply(alloc: Global, write: bool, files: &Files, steps: &[Step]) -> Result<Reply, Memory>
    requires { length steps.now < 2 ^ 32 }
    ensures { IfOk result (SaysSteps write files.now steps.now) }
{
    let names = source_names(alloc, files.entries())?;
    match batch(alloc, files, steps) {
        Ok(batched) => batched_reply(alloc, write, &names, &batched),
        Err(BatchError::At { step, refusal }) => stopped_batch(alloc, &names, step, refusal),
        Err(BatchError::Memory) => Err(Memory),
    }
}

/// The reply to a batch that is done.
fn batched_reply(
    alloc: Global,
    write: bool,
    names: &[String],
    batched: &Batched,
) -> Result<Reply, Memory>
    ensures { IfOk result (λ reply. reply ≡ batched_reply write (map string_bytes names.now) batched.now) }
{
    let text = batch_text(alloc, names, batched)?;
    let writes = if write {
        files_at(alloc, batched.files.entries(), batched.changed.as_slice())?
    } else {
        Row::new(alloc)
    };
    Ok(Reply {
        status: Status::Done,
        writes,
        text: Row::from_vec(text),
    })
}

/// The reply to a batch whose step of this number is refused.
fn stopped_batch(
    alloc: Global,
    names: &[String],
    step: u32,
    refusal: Refusal,
) -> Result<Reply, Memory>
    ensures { IfOk result (λ reply. reply ≡ stopped_batch (map string_bytes names.now) step refusal) }
{
    let text = stopped_text(alloc, names, step, &refusal)?;
    Ok(reply_of(alloc, status_of_refusal(&refusal), text))
}

/// The reply to a batch whose line of this number is bad.
fn bad_batch(alloc: Global, number: u32) -> Result<Reply, Memory>
    ensures { IfOk result (λ reply. reply ≡ bad_batch number) }
{
    let text = bad_batch_text(alloc, number)?;
    Ok(reply_of(alloc, Status::Project, text))
}
