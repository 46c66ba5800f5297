//! What notifications do to the documents.
ghost use Rattle.std.specs.Prelude.{◌≡◌, ℕ, List, string_bytes, IfNone, IfOk, IfSome, OnErr, OnOk};
ghost use Rattle.std.specs.Option.{option_copied, option_map};
ghost use Rattle.open_documents.specs.Workspace.{KeepsFolders};
ghost use Rattle.requests.specs.Notice.{change_words, notification_words};
ghost use Rattle.lsp_session.specs.Notes.{Changes, Closes, IsChange, IsProjectFile, IsText, Notes, Opens};

use document_uris::{FilePlace, read_uri};
use open_documents::{Document, OpenText, Workspace};
use project_load::is_project_file;
use requests::{Change, Notification};
use rotor_base::Memory;
use std::alloc::Global;

/// Does to the documents what a notification says.
pub(crate) fn take_notice(
    alloc: Global,
    notification: Notification<&str>,
    workspace: &mut Workspace,
) -> Result<(), Memory>
    ensures noted { OnOk result (Notes (notification_words notification.entry) workspace.old workspace.new) }
    ensures kept { OnErr result (KeepsFolders workspace.old workspace.new) }
{
    match notification {
        Notification::Open { uri, version, text } => open(alloc, uri, version, text, workspace),
        Notification::Change { uri, version, last } => change(alloc, uri, version, last, workspace),
        Notification::Close { uri } => close(alloc, uri, workspace),
        Notification::Exit | Notification::Other => Ok(()),
    }
}

/// The editor opened a document.
fn open(
    alloc: Global,
    uri: &str,
    version: Option<i64>,
    text: Option<&str>,
    workspace: &mut Workspace,
) -> Result<(), Memory>
    ensures opened { OnOk result (Opens uri.now version (option_copied text.entry) workspace.old workspace.new) }
    ensures kept { OnErr result (KeepsFolders workspace.old workspace.new) }
{
    let Some(place) = project_place(alloc, uri)? else {
        return Ok(());
    };
    let document = Document {
        uri: String::from_str(alloc, uri)?,
        version,
        text: open_text(alloc, text)?,
    };
    workspace.open(alloc, place.folder, place.name, document)
}

/// The editor changed a document.
fn change(
    alloc: Global,
    uri: &str,
    version: Option<i64>,
    last: Option<Change<&str>>,
    workspace: &mut Workspace,
) -> Result<(), Memory>
    ensures changed { OnOk result (Changes uri.now version (option_map change_words last.entry) workspace.old workspace.new) }
    ensures kept { OnErr result (KeepsFolders workspace.old workspace.new) }
{
    let Some(place) = project_place(alloc, uri)? else {
        return Ok(());
    };
    let text = changed_text(alloc, last)?;
    let uri = String::from_str(alloc, uri)?;
    workspace.change(alloc, place.folder, place.name, uri, version, text)
}

/// The editor closed a document.
fn close(alloc: Global, uri: &str, workspace: &mut Workspace) -> Result<(), Memory>
    ensures closed { OnOk result (Closes uri.now workspace.old workspace.new) }
    ensures kept { OnErr result (KeepsFolders workspace.old workspace.new) }
{
    if let Some(place) = project_place(alloc, uri)? {
        workspace.close(place.folder.as_str(), place.name.as_str());
    }
    Ok(())
}

/// The source or the manifest that a URI names.
fn project_place(alloc: Global, uri: &str) -> Result<Option<FilePlace>, Memory>
    ensures place { IfOk result (λ found. IfSome found (λ place. IsProjectFile uri.now (string_bytes place.folder) (string_bytes place.name))) }
    ensures none { IfOk result (λ found. IfNone found ((folder name : List ℕ) → ¬ (IsProjectFile uri.now folder name))) }
{
    let Some(place) = read_uri(alloc, uri)? else {
        return Ok(None);
    };
    if is_project_file(place.name.as_str()) {
        Ok(Some(place))
    } else {
        Ok(None)
    }
}

/// The text of a document that was opened.
fn open_text(alloc: Global, text: Option<&str>) -> Result<OpenText, Memory>
    ensures { IfOk result (IsText (option_copied text.entry)) }
{
    match text {
        Some(text) => Ok(OpenText::Known(String::from_str(alloc, text)?)),
        None => Ok(OpenText::Unknown),
    }
}

/// The text of a document after a change.
fn changed_text(alloc: Global, last: Option<Change<&str>>) -> Result<Option<OpenText>, Memory>
    ensures { IfOk result (IsChange (option_map change_words last.entry)) }
{
    match last {
        Some(Change::Full(text)) => Ok(Some(OpenText::Known(String::from_str(alloc, text)?))),
        Some(Change::Part) => Ok(Some(OpenText::Unknown)),
        None => Ok(None),
    }
}
