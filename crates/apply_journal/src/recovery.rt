//! The recovery after a stop.
ghost use Rattle.std.specs.Prelude.{◌≡◌, ◌⊎◌, IfOk, IfSome, IsErrOf, IsPermutation, OnErr, OnOk, map, string_bytes};
ghost use Rattle.std.specs.Option.{ForSome, option_map};
ghost use Rattle.std.specs.FinMap.{keys};
ghost use Rattle.rotor_base.specs.declared.source.SourceFile.{SourceFile};
ghost use Rattle.tree_io.specs.Outside.{KeepsRoom, StaysSteady};
ghost use Rattle.tree_io.specs.Writes.{HasRoom};
ghost use Rattle.apply_journal.specs.Cause.{HasReadCause, HasRecoverCause, IsFault};
ghost use Rattle.apply_journal.specs.Plan.{IsPlan, plan_text};
ghost use Rattle.apply_journal.specs.Recovered.{ArePlanWrites, HoldsNoPlan, HoldsPlan, IsDue, IsLost, IsRecovered, IsStopped, KeepsRecovered, LeavesRecovered, plan_writes};

use crate::gate::{GATE, list_names, read_gate, read_listed};
use crate::plan::make_file;
use crate::safe::PLAN;
use crate::{PlanError, RecoverError, read_plan};
use rotor_base::{MAX_PLAN_BYTES, Memory, SourceFile};
use std::alloc::Global;
use tree_io::{Tree, take_room, write_all};

/// The most bytes of the plan's file that are read: one more than a plan may have.
const PLAN_LIMIT: u32 = MAX_PLAN_BYTES + 1;

/// What a recovery did.
#[derive(Clone, Copy, Debug, PartialEq, Eq)]
pub enum Recovery {
    /// The gate is not open, and nothing was written.
    Nothing,
    /// The plan's files were written, and the gate was closed.
    Done {
        /// The number of the plan's files.
        files: u32,
    },
}

/// Writes the files of the plan if the gate is open, in byte order of their names, and closes the gate. It takes all
/// its memory, the folder's room too, before the first write.
///
/// # Errors
///
/// `Read` and `Write` after a counted fault of the folder. `BadPlan` if the gate is open, and `rotor.plan` is not in
/// the folder or holds no plan. `Memory`. A failed write leaves the files before it written, and any bytes in its file;
/// every other error leaves the folder as it was.
pub fn recover<T: Tree>(alloc: Global, tree: &mut T) -> Result<Recovery, RecoverError>
    ensures recovered { IfOk result (λ recovery. IfSome (T.content tree.old) (λ held. IsRecovered held (T.content tree.new) recovery)) }
    ensures bad_plan { IsErrOf result RecoverError.BadPlan → ForSome (T.content tree.old) IsLost }
    ensures stopped { IsErrOf result RecoverError.Write → ForSome (T.content tree.old) (λ held. IsStopped held (T.content tree.new)) }
    ensures found { OnOk result (ForSome (T.content tree.old) (λ held. LeavesRecovered held (T.content tree.new))) }
    ensures kept { OnErr result (ForSome (T.content tree.old) (λ held. KeepsRecovered held (T.content tree.new))) }
    ensures unchanged { OnErr result ((IsErrOf result RecoverError.Write) ⊎ (T.content tree.new ≡ T.content tree.old)) }
    ensures room { KeepsRoom (T.room_for tree.old) (T.room_for tree.new) }
    ensures cause { HasRecoverCause (T.faults tree.old) (T.faults tree.new) result }
    ensures steady { StaysSteady (T.is_steady tree.old) (T.is_steady tree.new) (IsFault result) }
{
    let Some(writes) = read_recovery(alloc, tree)? else {
        return Ok(Recovery::Nothing);
    };
    match write_all(&writes, tree) {
        Ok(()) => Ok(Recovery::Done {
            files: writes.len() as u32 - 1,
        }),
        Err(_) => Err(RecoverError::Write),
    }
}

/// The writes of a recovery, `None` if the gate is not open: the files of the plan in byte order of their names, and
/// the empty gate. It takes the folder's room for them, and changes neither the files nor, without a fault, the count.
///
/// # Errors
///
/// `Read`, `BadPlan` and `Memory`, as [`recover`].
pub fn read_recovery<T: Tree>(
    alloc: Global,
    tree: &mut T,
) -> Result<Option<Vec<SourceFile>>, RecoverError>
    ensures due { IfOk result (λ found. IfSome (T.content tree.old) (λ held. IsDue held (option_map (λ writes. writes.items) found))) }
    ensures plan { IfOk result (λ found. IfSome found (λ writes. ArePlanWrites writes.items)) }
    ensures bad_plan { IsErrOf result RecoverError.BadPlan → ForSome (T.content tree.old) IsLost }
    ensures room_taken { IfOk result (λ found. IfSome found (λ writes. HasRoom (T.room_for tree.new) writes.items)) }
    ensures content { T.content tree.new ≡ T.content tree.old }
    ensures room { KeepsRoom (T.room_for tree.old) (T.room_for tree.new) }
    ensures cause { HasReadCause (T.faults tree.old) (T.faults tree.new) result }
    ensures reads { IsErrOf result RecoverError.Write → ⊥ }
    ensures steady { StaysSteady (T.is_steady tree.old) (T.is_steady tree.new) (IsErrOf result RecoverError.Read) }
{
    let listed = list_names(alloc, tree)?;
    if !read_gate(alloc, &listed, tree)? {
        return Ok(None);
    }
    let files = stored_plan(alloc, &listed, tree)?;
    let writes = add_closed_gate(alloc, files)?;
    take_room(alloc, &writes, tree)?;
    Ok(Some(writes))
}

/// The files of the plan that a folder holds.
fn stored_plan<T: Tree>(
    alloc: Global,
    listed: &[String],
    tree: &mut T,
) -> Result<Vec<SourceFile>, RecoverError>
    requires { ForSome (T.content tree.old) (λ held. IsPermutation (keys held) (map string_bytes listed.now)) }
    ensures held { IfOk result (λ files. IfSome (T.content tree.old) (λ held. HoldsPlan held files.items)) }
    ensures plan { IfOk result (λ files. IsPlan (plan_text files.items) files.items) }
    ensures bad_plan { IsErrOf result RecoverError.BadPlan → ForSome (T.content tree.old) HoldsNoPlan }
    ensures content { T.content tree.new ≡ T.content tree.old }
    ensures room { KeepsRoom (T.room_for tree.old) (T.room_for tree.new) }
    ensures cause { HasReadCause (T.faults tree.old) (T.faults tree.new) result }
    ensures reads { IsErrOf result RecoverError.Write → ⊥ }
    ensures steady { StaysSteady (T.is_steady tree.old) (T.is_steady tree.new) (IsErrOf result RecoverError.Read) }
{
    let Some(bytes) = read_listed(alloc, listed, PLAN, PLAN_LIMIT, tree)? else {
        return Err(RecoverError::BadPlan);
    };
    match read_plan(alloc, &bytes) {
        Ok(files) => Ok(files),
        Err(PlanError::Bad) => Err(RecoverError::BadPlan),
        Err(PlanError::Memory) => Err(RecoverError::Memory),
    }
}

/// The files of a plan, and the empty gate behind them.
pub(crate) fn add_closed_gate(
    alloc: Global,
    files: Vec<SourceFile>,
) -> Result<Vec<SourceFile>, Memory>
    ensures { IfOk result (λ writes. writes.items ≡ plan_writes files.items) }
{
    let mut writes = files;
    writes.push(make_file(alloc, GATE, b"")?)?;
    Ok(writes)
}
