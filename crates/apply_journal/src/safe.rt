//! Safe writes.
ghost use Rattle.std.specs.Prelude.{◌≡◌, IfOk, IsErr, OnOk, OnErr};
ghost use Rattle.tree_io.specs.Outside.{HasFault, KeepsRoom, StaysSteady};
ghost use Rattle.tree_io.specs.Writes.{HasRoom, Written, StoppedWriting};
ghost use Rattle.apply_journal.specs.Recovered.{plan_writes, safe_writes};

use crate::Plan;
use crate::gate::{GATE, OPEN};
use crate::plan::make_file;
use crate::recovery::add_closed_gate;
use rotor_base::{Failed, Memory, Row, SourceFile, Text};
use std::alloc::Global;
use tree_io::{Tree, write_all};

/// The name of the plan's file.
pub(crate) const PLAN: &str = "rotor.plan";

/// Takes the folder's room for all the writes of [`safe_apply`]. It changes neither the files nor the count.
///
/// # Errors
///
/// `Memory` alone.
pub fn take_room<T: Tree>(alloc: Global, tree: &mut T, plan: &Plan) -> Result<(), Memory>
    ensures room { OnOk result (HasRoom (T.room_for tree.new) (safe_writes plan.now)) }
    ensures kept { KeepsRoom (T.room_for tree.old) (T.room_for tree.new) }
    ensures content { T.content tree.new ≡ T.content tree.old }
    ensures count { T.faults tree.new ≡ T.faults tree.old }
    ensures steady { T.is_steady tree.old → T.is_steady tree.new }
{
    tree_io::take_room(alloc, plan.files(), tree)?;
    tree.room(alloc, PLAN, plan.text().len() as u32)?;
    tree.room(alloc, GATE, OPEN.len() as u32)
}

/// The writes of [`safe_apply`], in their order: the plan, the open gate, the plan's files, and the empty gate.
///
/// # Errors
///
/// `Memory` alone.
pub fn safe_writes(alloc: Global, plan: Plan) -> Result<Vec<SourceFile>, Memory>
    ensures { IfOk result (λ writes. writes.items ≡ safe_writes plan) }
{
    let (text, files) = plan.into_parts();
    let mut writes = Vec::new(alloc);
    writes.push(SourceFile {
        name: Text::from_string(String::from_str(alloc, PLAN)?),
        bytes: Row::from_vec(text),
    })?;
    writes.push(make_file(alloc, GATE, OPEN)?)?;
    let mut rest = add_closed_gate(alloc, files)?;
    writes.append(&mut rest)?;
    Ok(writes)
}

/// Writes the plan, opens the gate, writes the plan's files in byte order of their names, and closes the gate. It
/// takes no memory: the caller takes the room before the call.
///
/// # Errors
///
/// `Failed` after a counted fault of the folder.
pub fn safe_apply<T: Tree>(tree: &mut T, plan: &Plan) -> Result<(), Failed>
    requires { HasRoom (T.room_for tree.old) (safe_writes plan.now) }
    ensures written { OnOk result (Written (safe_writes plan.now) (T.content tree.old) (T.content tree.new)) }
    ensures stopped { OnErr result (StoppedWriting (safe_writes plan.now) (T.content tree.old) (T.content tree.new)) }
    ensures room { KeepsRoom (T.room_for tree.old) (T.room_for tree.new) }
    ensures cause { HasFault (T.faults tree.old) (T.faults tree.new) result }
    ensures steady { StaysSteady (T.is_steady tree.old) (T.is_steady tree.new) (IsErr result) }
{
    tree.write(PLAN, plan.text())?;
    tree.write(GATE, OPEN)?;
    write_and_close(plan.files(), tree)
}

/// Writes a plan's files in order, and closes the gate. It takes no memory.
fn write_and_close<T: Tree>(files: &[SourceFile], tree: &mut T) -> Result<(), Failed>
    requires { HasRoom (T.room_for tree.old) (plan_writes files.now) }
    ensures written { OnOk result (Written (plan_writes files.now) (T.content tree.old) (T.content tree.new)) }
    ensures stopped { OnErr result (StoppedWriting (plan_writes files.now) (T.content tree.old) (T.content tree.new)) }
    ensures room { KeepsRoom (T.room_for tree.old) (T.room_for tree.new) }
    ensures cause { HasFault (T.faults tree.old) (T.faults tree.new) result }
    ensures steady { StaysSteady (T.is_steady tree.old) (T.is_steady tree.new) (IsErr result) }
{
    write_all(files, tree)?;
    tree.write(GATE, b"")
}
