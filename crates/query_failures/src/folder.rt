//! The failures of folders that are refused.
ghost use Rattle.std.specs.Prelude.{◌≡◌, IfOk, map, string_bytes};
ghost use Rattle.rotor_base.specs.Files.{names_of};
ghost use Rattle.query_failures.specs.Folder.{IsFolderFailure, IsProjectFailure, folder_sentence};

use crate::failure::noted_failure;
use crate::sentence::message_sentence;
use lsp_answers::Failure;
use messages::{Message, join_words};
use refusal_places::placed_message;
use refusal_words::cut_sources;
use report::{load_data, refusal_data};
use rotor_base::{Files, LoadError, Memory, Refusal, Row, SourceFile};
use std::alloc::Global;

/// The failure of a folder that is no project. The one error is want of memory.
pub fn folder_failure(
    alloc: Global,
    why: &LoadError,
    message: &Option<Message>,
) -> Result<Failure, Memory>
    ensures { IfOk result (IsFolderFailure why.now message.now) }
{
    let text = folder_sentence(alloc, message)?;
    noted_failure(alloc, text.as_slice(), load_data(alloc, why)?)
}

/// The failure of files that are refused as a project. The one error is want of memory.
pub fn project_failure(alloc: Global, files: &Files, why: &Refusal) -> Result<Failure, Memory>
    ensures { IfOk result (IsProjectFailure files.now why.now) }
{
    let cuts = cut_sources(alloc, files.entries())?;
    let message = placed_message(alloc, &cuts, why)?;
    let text = folder_sentence(alloc, &message)?;
    let names = names_of(alloc, files.entries())?;
    noted_failure(alloc, text.as_slice(), refusal_data(alloc, &names, why)?)
}

/// The sentence of a message; if there is none, that the folder is refused.
fn folder_sentence(alloc: Global, message: &Option<Message>) -> Result<Row<u8>, Memory>
    ensures { IfOk result (λ text. text ≡ folder_sentence message.now) }
{
    match message {
        Some(message) => message_sentence(alloc, message),
        None => join_words(alloc, &[b"the folder of this file is refused"]),
    }
}

/// The names of sources.
pub(crate) fn names_of(alloc: Global, sources: &[SourceFile]) -> Result<Vec<String>, Memory>
    ensures { IfOk result (λ names. map string_bytes names.items ≡ names_of sources.now) }
{
    let mut names = Vec::new(alloc);
    for source in sources {
        names.push(String::from_str(alloc, source.name.as_str())?)?;
    }
    Ok(names)
}
