//! The reply to `rename`.
ghost use Rattle.std.specs.Prelude.{◌≡◌, IfOk, IfSome, IsErrOf, map, string_bytes};
ghost use Rattle.tree_io.specs.Outside.{HasCause, StaysSteady};
ghost use Rattle.tree_io.specs.Writes.{HasRoom};
ghost use Rattle.rename_laws.specs.Laws.{ListsChanges};
ghost use Rattle.command_replies.specs.Said.{IsCommandReply, SaysRename, SaysRenaming, renamed_reply};

use crate::folder::{Opened, open_project};
use crate::reply::{
    Reply, outcome_text, pending_reply, refused_reply, source_names, unloaded_reply,
};
use crate::status::Status;
use crate::writes::writes_of;
use crate::writing::Writing;
use rename_files::rename;
use rename_laws::changes_are_listed;
use rotor_base::{Files, Memory, Name, Outcome, Renamed, Row, Target};
use std::alloc::Global;
use tree_io::{Tree, TreeError, take_room};

/// The reply to `rename`, with its room. The errors are `Failed` and `Memory`.
pub fn reply_to_rename<T: Tree>(
    alloc: Global,
    target: &Target,
    name: &Name,
    writing: Writing,
    as_json: bool,
    tree: &mut T,
) -> Result<Reply, TreeError>
    ensures kind { IfOk result IsCommandReply }
    ensures said { IfOk result (λ reply. IfSome (T.content tree.old) (λ held. SaysRename target.now name.now writing as_json held reply)) }
    ensures content { T.content tree.new ≡ T.content tree.old }
    ensures room { IfOk result (λ reply. HasRoom (T.room_for tree.new) reply.writes) }
    ensures cause { HasCause (T.faults tree.old) (T.faults tree.new) result }
    ensures steady { StaysSteady (T.is_steady tree.old) (T.is_steady tree.new) (IsErrOf result TreeError.Failed) }
{
    match open_project(alloc, writing.is_writing(), tree)? {
        Opened::Project(files) => {
            let reply = renaming_reply(alloc, target, name, writing, as_json, &files)?;
            take_room(alloc, reply.writes.as_slice(), tree)?;
            Ok(reply)
        }
        Opened::Pending => Ok(pending_reply(alloc, as_json)?),
        Opened::NotLoaded(error) => Ok(unloaded_reply(alloc, as_json, error)?),
    }
}

/// The reply to `rename` over the files of a project.
fn renaming_reply(
    alloc: Global,
    target: &Target,
    name: &Name,
    writing: Writing,
    as_json: bool,
    files: &Files,
) -> Result<Reply, Memory>
    ensures { IfOk result (SaysRenaming target.now name.now writing as_json files.now) }
{
    changes_are_listed();
    let names = source_names(alloc, files.entries())?;
    match rename(alloc, files, target, name.as_bytes()) {
        Ok(done) => renamed_reply(alloc, writing, as_json, &names, done),
        Err(refusal) => refused_reply(alloc, as_json, &names, refusal),
    }
}

/// The reply to a renaming that is done, in files of these names.
fn renamed_reply(
    alloc: Global,
    writing: Writing,
    as_json: bool,
    names: &[String],
    done: Renamed,
) -> Result<Reply, Memory>
    requires { ListsChanges done }
    ensures { IfOk result (λ reply. reply ≡ renamed_reply writing as_json (map string_bytes names.now) done) }
{
    let writes = writes_of(alloc, writing, &done)?;
    let text = outcome_text(alloc, as_json, names, &Outcome::Done(done))?;
    Ok(Reply {
        status: Status::Done,
        writes,
        text: Row::from_vec(text),
    })
}
