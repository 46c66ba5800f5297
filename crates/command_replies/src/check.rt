//! The reply to `check`.
ghost use Rattle.std.specs.Prelude.{◌≡◌, [], IfOk, IfSome, IsErrOf};
ghost use Rattle.tree_io.specs.Outside.{HasCause, StaysSteady};
ghost use Rattle.command_replies.specs.Said.{IsCommandReply, SaysCheck, SaysChecked};

use crate::folder::load_project;
use crate::reply::{Reply, refused_reply, silent_reply, source_names, unloaded_reply};
use rename_files::check;
use rotor_base::{Files, Memory, Outcome};
use std::alloc::Global;
use tree_io::{Tree, TreeError};

/// The reply to `check`, which writes nothing. The errors are `Failed` and `Memory`.
pub fn reply_to_check<T: Tree>(alloc: Global, tree: &mut T) -> Result<Reply, TreeError>
    ensures kind { IfOk result IsCommandReply }
    ensures silent { IfOk result (λ reply. reply.writes ≡ []) }
    ensures said { IfOk result (λ reply. IfSome (T.content tree.old) (λ held. SaysCheck held reply)) }
    ensures content { T.content tree.new ≡ T.content tree.old }
    ensures cause { HasCause (T.faults tree.old) (T.faults tree.new) result }
    ensures steady { StaysSteady (T.is_steady tree.old) (T.is_steady tree.new) (IsErrOf result TreeError.Failed) }
{
    match load_project(alloc, tree)? {
        Ok(files) => Ok(checked_reply(alloc, &files)?),
        Err(error) => Ok(unloaded_reply(alloc, false, error)?),
    }
}

/// The reply to `check` over the files of a project.
fn checked_reply(alloc: Global, files: &Files) -> Result<Reply, Memory>
    ensures { IfOk result (SaysChecked files.now) }
{
    let names = source_names(alloc, files.entries())?;
    match check(alloc, files) {
        Ok(counts) => silent_reply(alloc, false, &names, &Outcome::Checked(counts)),
        Err(refusal) => refused_reply(alloc, false, &names, refusal),
    }
}
