//! The reply to `verify`.
ghost use Rattle.std.specs.Prelude.{◌≡◌, ◌↔◌, [], IfOk, IfSome, IsErrOf, Ok, OnOk, map, string_bytes};
ghost use Rattle.tree_io.specs.Outside.{HasCause, StaysSteady};
ghost use Rattle.project_load.specs.Listed.{IsOutsideList};
ghost use Rattle.command_replies.specs.Said.{IsCommandReply, IsJudged, RefusesList, SaysAgainst, SaysVerify, bad_list, judged_reply, status_of_verdict};

use crate::reply::{Reply, refused_reply, reply_of, source_names, unloaded_reply};
use crate::status::Status;
use project_load::{ListError, load_list};
use rename_verify::{Verdict, verdict_text, verify};
use report::bad_list_text;
use rotor_base::{Files, LoadError, Memory};
use std::alloc::Global;
use tree_io::{Tree, TreeError};

/// The reply to `verify` of a list of the old project and a list of the new one. The call reads the old list first. The
/// errors are `Failed` and `Memory`.
pub fn reply_to_verify<T: Tree>(
    alloc: Global,
    old: &str,
    new: &str,
    tree: &mut T,
) -> Result<Reply, TreeError>
    ensures kind { IfOk result IsCommandReply }
    ensures silent { IfOk result (λ reply. reply.writes ≡ []) }
    ensures said { IfOk result (λ reply. IfSome (T.content tree.old) (λ held. SaysVerify old.now new.now held reply)) }
    ensures content { T.content tree.new ≡ T.content tree.old }
    ensures cause { HasCause (T.faults tree.old) (T.faults tree.new) result }
    ensures steady { StaysSteady (T.is_steady tree.old) (T.is_steady tree.new) (IsErrOf result TreeError.Failed) }
{
    match load_list(alloc, tree, old) {
        Ok(files) => reply_against(alloc, &files, new, tree),
        Err(error) => list_reply(alloc, old, error),
    }
}

/// The reply to `verify` of these old files and a list of the new ones.
fn reply_against<T: Tree>(
    alloc: Global,
    old: &Files,
    list: &str,
    tree: &mut T,
) -> Result<Reply, TreeError>
    ensures kind { IfOk result IsCommandReply }
    ensures silent { IfOk result (λ reply. reply.writes ≡ []) }
    ensures said { IfOk result (λ reply. IfSome (T.content tree.old) (λ held. SaysAgainst old.now list.now held reply)) }
    ensures content { T.content tree.new ≡ T.content tree.old }
    ensures cause { HasCause (T.faults tree.old) (T.faults tree.new) result }
    ensures steady { StaysSteady (T.is_steady tree.old) (T.is_steady tree.new) (IsErrOf result TreeError.Failed) }
{
    match load_list(alloc, tree, list) {
        Ok(new) => Ok(judge(alloc, old, &new)?),
        Err(error) => list_reply(alloc, list, error),
    }
}

/// The reply to a list that gives no project, if neither the folder nor memory failed.
fn list_reply(alloc: Global, list: &str, error: ListError) -> Result<Reply, TreeError>
    ensures refused { IfOk result (RefusesList list.now error) }
    ensures answered { OnOk result (IsOutsideList error → ⊥) }
    ensures failed { IsErrOf result TreeError.Failed ↔ (error ≡ ListError.Read) }
{
    match error {
        ListError::Read => Err(TreeError::Failed),
        ListError::Load(LoadError::Memory) => Err(TreeError::Memory),
        ListError::Load(error) => Ok(unloaded_reply(alloc, false, error)?),
        ListError::BadList { line } => Ok(bad_list(alloc, list, line)?),
    }
}

/// The reply to a list whose line of this number is bad.
fn bad_list(alloc: Global, list: &str, number: u32) -> Result<Reply, Memory>
    ensures { IfOk result (λ reply. reply ≡ bad_list list.now number) }
{
    let text = bad_list_text(alloc, list, number)?;
    Ok(reply_of(alloc, Status::Project, text))
}

/// The reply to the verdict on two projects.
fn judge(alloc: Global, old: &Files, new: &Files) -> Result<Reply, Memory>
    ensures { IfOk result (IsJudged old.now new.now) }
{
    let names = source_names(alloc, old.entries())?;
    match verify(alloc, old, new) {
        Ok(verdict) => verdict_reply(alloc, &names, &verdict),
        Err(refusal) => refused_reply(alloc, false, &names, refusal),
    }
}

/// The reply to a verdict, in old files of these names.
fn verdict_reply(alloc: Global, names: &[String], verdict: &Verdict) -> Result<Reply, Memory>
    ensures { IfOk result (λ reply. reply ≡ judged_reply (map string_bytes names.now) (Ok verdict.now)) }
{
    let lines = verdict_text(alloc, names, verdict)?;
    Ok(reply_of(alloc, status_of_verdict(verdict), lines))
}

/// The status of a verdict.
fn status_of_verdict(verdict: &Verdict) -> Status
    ensures { result ≡ status_of_verdict verdict.now }
{
    match verdict {
        Verdict::Yes(_) => Status::Done,
        Verdict::No(_) => Status::Refused,
    }
}
