//! The room for a list of files, and their writes.
ghost use Rattle.std.specs.Prelude.{◌≡◌, [], OnOk, OnErr, IsErr};
ghost use Rattle.tree_io.specs.Outside.{HasFault, StaysSteady, KeepsRoom};
ghost use Rattle.tree_io.specs.Writes.{HasRoom, Written, StoppedWriting};

use crate::outside::Tree;
use rotor_base::{Failed, Memory, SourceFile};
use std::alloc::Global;

/// Takes the folder's room for each file that will be written, at least one byte for each name. It changes neither the
/// files nor the count.
///
/// # Errors
///
/// `Memory` alone.
pub fn take_room<T: Tree>(alloc: Global, writes: &[SourceFile], tree: &mut T) -> Result<(), Memory>
    ensures room { OnOk result (HasRoom (T.room_for tree.new) writes.now) }
    ensures kept { KeepsRoom (T.room_for tree.old) (T.room_for tree.new) }
    ensures content { T.content tree.new ≡ T.content tree.old }
    ensures count { T.faults tree.new ≡ T.faults tree.old }
    ensures steady { T.is_steady tree.old → T.is_steady tree.new }
{
    for file in writes {
        let len = file.bytes.as_slice().len().max(1);
        if len > u32::MAX as usize {
            return Err(Memory);
        }
        tree.room(alloc, file.name.as_str(), len as u32)?;
    }
    Ok(())
}

/// Writes the files, one after another, and stops at the first write that fails. It takes no memory: the caller takes
/// the room before the call.
///
/// # Errors
///
/// `Failed` after a counted fault of the folder.
pub fn write_all<T: Tree>(writes: &[SourceFile], tree: &mut T) -> Result<(), Failed>
    requires { HasRoom (T.room_for tree.old) writes.now }
    ensures written { OnOk result (Written writes.now (T.content tree.old) (T.content tree.new)) }
    ensures none { writes.now ≡ [] → tree.new ≡ tree.old }
    ensures stopped { OnErr result (StoppedWriting writes.now (T.content tree.old) (T.content tree.new)) }
    ensures room { KeepsRoom (T.room_for tree.old) (T.room_for tree.new) }
    ensures cause { HasFault (T.faults tree.old) (T.faults tree.new) result }
    ensures steady { StaysSteady (T.is_steady tree.old) (T.is_steady tree.new) (IsErr result) }
{
    for file in writes {
        tree.write(file.name.as_str(), file.bytes.as_slice())?;
    }
    Ok(())
}
