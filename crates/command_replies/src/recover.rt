//! The reply to `recover`.
ghost use Rattle.std.specs.Prelude.{◌≡◌, ◌-◌, IfOk, IfSome, IsErrOf, length};
ghost use Rattle.tree_io.specs.Outside.{HasCause, StaysSteady};
ghost use Rattle.tree_io.specs.Writes.{HasRoom};
ghost use Rattle.report.specs.Recover.{recovered_text};
ghost use Rattle.command_replies.specs.Said.{IsCommandReply, SaysRecovery, reply_of};

use crate::reply::{Reply, reply_of};
use crate::status::Status;
use apply_journal::{RecoverError, read_recovery};
use report::{bad_plan_text, nothing_text, recovered_text};
use rotor_base::{Memory, Row, SourceFile};
use std::alloc::Global;
use tree_io::{Tree, TreeError};

/// The reply to `recover`, with its room. The errors are `Failed` and `Memory`.
pub fn reply_to_recover<T: Tree>(alloc: Global, tree: &mut T) -> Result<Reply, TreeError>
    ensures kind { IfOk result IsCommandReply }
    ensures said { IfOk result (λ reply. IfSome (T.content tree.old) (λ held. SaysRecovery held reply)) }
    ensures content { T.content tree.new ≡ T.content tree.old }
    ensures room { IfOk result (λ reply. HasRoom (T.room_for tree.new) reply.writes) }
    ensures cause { HasCause (T.faults tree.old) (T.faults tree.new) result }
    ensures steady { StaysSteady (T.is_steady tree.old) (T.is_steady tree.new) (IsErrOf result TreeError.Failed) }
{
    match read_recovery(alloc, tree) {
        Ok(None) => Ok(reply_of(alloc, Status::Done, nothing_text(alloc)?)),
        Ok(Some(writes)) => Ok(recovered_reply(alloc, writes)?),
        Err(RecoverError::BadPlan) => Ok(reply_of(alloc, Status::Project, bad_plan_text(alloc)?)),
        Err(RecoverError::Read) => Err(TreeError::Failed),
        Err(RecoverError::Memory) => Err(TreeError::Memory),
        Err(RecoverError::Write) => unreachable!(),
    }
}

/// The reply to a recovery of these writes, the last of which closes the gate.
fn recovered_reply(alloc: Global, writes: Vec<SourceFile>) -> Result<Reply, Memory>
    ensures { IfOk result (λ reply. reply ≡ reply_of Status.Done writes.items (recovered_text (length writes.items - 1))) }
{
    let count = writes.len().saturating_sub(1);
    let text = recovered_text(alloc, count as u64)?;
    Ok(Reply {
        status: Status::Done,
        writes: Row::from_vec(writes),
        text: Row::from_vec(text),
    })
}
