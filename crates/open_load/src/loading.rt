//! Loading a folder under documents.
ghost use Rattle.std.specs.Prelude.{IfOk};
ghost use Rattle.open_documents.specs.Documents.{AreKnown, documents};
ghost use Rattle.project_load.specs.Load.{IsOutside};
ghost use Rattle.open_load.specs.Loaded.{IsOpenFolder, IsUnloaded};

use folder_messages::{folder_message, reason_of};
use messages::Message;
use open_documents::{Documents, OpenTree};
use project_load::load;
use rotor_base::{Files, LoadError, Memory};
use std::alloc::Global;
use tree_io::{Tree, TreeError};

/// What a folder with the documents of an editor in place of its files is.
#[derive(Drop)]
pub enum OpenFolder {
    /// The files of its project.
    Files(Files),
    /// A call of the folder failed.
    Unread,
    /// It is no project: why, and the message that says so to a person, if there is one.
    Refused {
        why: LoadError,
        message: Option<Message>,
    },
}

/// Loads a folder with these documents in place of its files. The texts of the documents are known. The folder is read
/// and never written.
///
/// # Errors
///
/// `Memory` alone.
pub fn load_open<T: Tree + Drop>(
    alloc: Global,
    held: &Documents,
    folder: T,
) -> Result<OpenFolder, Memory>
    requires { AreKnown (documents held.now) }
    ensures { IfOk result (IsOpenFolder (T.content folder) (documents held.now)) }
{
    let mut tree = OpenTree::new(held, folder);
    match load(alloc, &mut tree) {
        Ok(files) => Ok(OpenFolder::Files(files)),
        Err(error) => make_unloaded(alloc, error, &mut tree),
    }
}

/// What a folder is that is not loaded.
fn make_unloaded<T: Tree>(
    alloc: Global,
    error: LoadError,
    tree: &mut T,
) -> Result<OpenFolder, Memory>
    ensures { IfOk result (IsUnloaded (T.content tree.old) error) }
{
    match reason_of(error) {
        Ok(why) => refused_folder(alloc, why, tree),
        Err(TreeError::Failed) => Ok(OpenFolder::Unread),
        Err(TreeError::Memory) => Err(Memory),
    }
}

/// A folder that is no project, with the message that says so.
fn refused_folder<T: Tree>(
    alloc: Global,
    why: LoadError,
    tree: &mut T,
) -> Result<OpenFolder, Memory>
    requires { IsOutside why → ⊥ }
    ensures { IfOk result (IsUnloaded (T.content tree.old) why) }
{
    match folder_message(alloc, &why, tree) {
        Ok(message) => Ok(OpenFolder::Refused { why, message }),
        Err(TreeError::Failed) => Ok(OpenFolder::Unread),
        Err(TreeError::Memory) => Err(Memory),
    }
}
