//! The messages of folders that are not loaded.
ghost use Rattle.std.specs.Prelude.{◌≡◌, IfOk, IfSome, option_map};
ghost use Rattle.tree_io.specs.Outside.{HasCause};
ghost use Rattle.project_load.specs.Load.{manifest_of, source_names};
ghost use Rattle.folder_messages.specs.Folder.{double_message as double_message_of, front_of, is_small as is_small_of, large_message as large_message_of, message_of, units_message};

use crate::listed::{listed_sources, read_listed};
use crate::{doubled, manifest};
use messages::Message;
use refusal_words::{large_file, large_sum, too_many};
use rotor_base::{LoadError, MAX_FILE_BYTES, Name, is_source};
use std::alloc::Global;
use tree_io::{Tree, TreeError};

/// The name of the manifest.
const MANIFEST: &[u8] = b"rotor.units";

/// The message of a folder that is not loaded, with what the folder has; of a fault and of want of memory, `None`. It
/// changes nothing.
///
/// # Errors
///
/// Those of the folder, and `Memory`.
pub fn folder_message<T: Tree>(
    alloc: Global,
    error: &LoadError,
    tree: &mut T,
) -> Result<Option<Message>, TreeError>
    ensures message { IfOk result (λ message. IfSome (T.content tree.old) (λ held. message ≡ message_of error.now held)) }
    ensures content { T.content tree.new ≡ T.content tree.old }
    ensures cause { HasCause (T.faults tree.old) (T.faults tree.new) result }
{
    match error {
        LoadError::TooMany { count } => Ok(Some(too_many(alloc, *count)?)),
        LoadError::TooLarge { file } => Ok(Some(large_message(alloc, file, tree)?)),
        LoadError::DoubleUnit { unit } => double_message(alloc, unit, tree),
        LoadError::BadManifest { line } => manifest_message(alloc, *line, tree),
        LoadError::Read | LoadError::Memory => Ok(None),
    }
}

/// The message of a file that is too large, or with which all so far are.
fn large_message<T: Tree>(alloc: Global, file: &Name, tree: &mut T) -> Result<Message, TreeError>
    ensures message { IfOk result (λ message. IfSome (T.content tree.old) (λ held. message ≡ large_message_of file.now held)) }
    ensures content { T.content tree.new ≡ T.content tree.old }
    ensures cause { HasCause (T.faults tree.old) (T.faults tree.new) result }
{
    let name = file.as_bytes();
    let found = read_listed(alloc, name, tree)?;
    if is_source(name) && is_small(&found) {
        Ok(large_sum(alloc, name)?)
    } else {
        Ok(large_file(alloc, name)?)
    }
}

/// Whether there is a file, and it has no more bytes than one may have.
fn is_small(found: &Option<Vec<u8>>) -> bool
    ensures { result ≡ is_small_of (option_map (λ bytes. bytes.items) found.now) }
{
    match found {
        Some(bytes) => bytes.len() <= MAX_FILE_BYTES as usize,
        None => false,
    }
}

/// The message of two sources of one kind that make one unit.
fn double_message<T: Tree>(
    alloc: Global,
    unit: &Name,
    tree: &mut T,
) -> Result<Option<Message>, TreeError>
    ensures message { IfOk result (λ message. IfSome (T.content tree.old) (λ held. message ≡ double_message_of (source_names held) unit.now)) }
    ensures content { T.content tree.new ≡ T.content tree.old }
    ensures cause { HasCause (T.faults tree.old) (T.faults tree.new) result }
{
    let names = listed_sources(alloc, tree)?;
    Ok(doubled::double_message(alloc, &names, unit.as_bytes())?)
}

/// The message of a line of `rotor.units` that is bad, or of the first unit without a line.
fn manifest_message<T: Tree>(
    alloc: Global,
    line: u32,
    tree: &mut T,
) -> Result<Option<Message>, TreeError>
    ensures message { IfOk result (λ message. IfSome (T.content tree.old) (λ held. message ≡ units_message (front_of (manifest_of held)) (source_names held) line)) }
    ensures content { T.content tree.new ≡ T.content tree.old }
    ensures cause { HasCause (T.faults tree.old) (T.faults tree.new) result }
{
    let Some(bytes) = read_listed(alloc, MANIFEST, tree)? else {
        return Ok(None);
    };
    let names = listed_sources(alloc, tree)?;
    Ok(manifest::manifest_message(alloc, &bytes, &names, line)?)
}
