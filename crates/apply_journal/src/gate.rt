//! The gate, and the reading of a file that a folder may have.
ghost use Rattle.std.specs.Prelude.{◌≡◌, map, take, string_bytes, IfOk, IfErr, IfSome, IsErrOf, IsPermutation, Decides};
ghost use Rattle.std.specs.List.{list_any};
ghost use Rattle.std.specs.Option.{ForSome, option_map};
ghost use Rattle.std.specs.FinMap.{get, keys};
ghost use Rattle.std.specs.Str.{bytes_eq};
ghost use Rattle.tree_io.specs.Outside.{KeepsRoom, StaysSteady};
ghost use Rattle.apply_journal.specs.Cause.{HasReadCause, IsOutside};
ghost use Rattle.apply_journal.specs.Recovered.{IsOpen};

use crate::RecoverError;
use std::alloc::Global;
use tree_io::Tree;

/// The name of the gate's file.
pub(crate) const GATE: &str = "rotor.gate";
/// The bytes of an open gate.
pub(crate) const OPEN: &[u8] = b"open\n";
/// The most bytes of the gate's file that are read: one more than an open gate has.
const GATE_LIMIT: u32 = 6;

/// Whether the gate is open: the file `rotor.gate` is in the folder and holds just `open` and LF. It changes nothing.
///
/// # Errors
///
/// `Read` after a counted fault of the folder, and always if the count is greater afterwards; and `Memory`.
pub fn gate_open<T: Tree>(alloc: Global, tree: &mut T) -> Result<bool, RecoverError>
    ensures open { IfOk result (λ is_open. IfSome (T.content tree.old) (λ held. Decides is_open (IsOpen held))) }
    ensures outside { IfErr result IsOutside }
    ensures content { T.content tree.new ≡ T.content tree.old }
    ensures room { KeepsRoom (T.room_for tree.old) (T.room_for tree.new) }
    ensures cause { HasReadCause (T.faults tree.old) (T.faults tree.new) result }
    ensures steady { StaysSteady (T.is_steady tree.old) (T.is_steady tree.new) (IsErrOf result RecoverError.Read) }
{
    let listed = list_names(alloc, tree)?;
    read_gate(alloc, &listed, tree)
}

/// Whether the gate is open, in a folder that was listed.
pub(crate) fn read_gate<T: Tree>(
    alloc: Global,
    listed: &[String],
    tree: &mut T,
) -> Result<bool, RecoverError>
    requires { ForSome (T.content tree.old) (λ held. IsPermutation (keys held) (map string_bytes listed.now)) }
    ensures open { IfOk result (λ is_open. IfSome (T.content tree.old) (λ held. Decides is_open (IsOpen held))) }
    ensures outside { IfErr result IsOutside }
    ensures content { T.content tree.new ≡ T.content tree.old }
    ensures room { KeepsRoom (T.room_for tree.old) (T.room_for tree.new) }
    ensures cause { HasReadCause (T.faults tree.old) (T.faults tree.new) result }
    ensures steady { StaysSteady (T.is_steady tree.old) (T.is_steady tree.new) (IsErrOf result RecoverError.Read) }
{
    match read_listed(alloc, listed, GATE, GATE_LIMIT, tree)? {
        None => Ok(false),
        Some(bytes) => Ok(bytes.as_slice() == OPEN),
    }
}

/// The names of a folder.
pub(crate) fn list_names<T: Tree>(alloc: Global, tree: &mut T) -> Result<Vec<String>, RecoverError>
    ensures names { IfOk result (λ names. IfSome (T.content tree.old) (λ held. IsPermutation (keys held) (map string_bytes names.items))) }
    ensures outside { IfErr result IsOutside }
    ensures content { T.content tree.new ≡ T.content tree.old }
    ensures room { KeepsRoom (T.room_for tree.old) (T.room_for tree.new) }
    ensures cause { HasReadCause (T.faults tree.old) (T.faults tree.new) result }
    ensures steady { StaysSteady (T.is_steady tree.old) (T.is_steady tree.new) (IsErrOf result RecoverError.Read) }
{
    Ok(tree.list(alloc)?)
}

/// The first bytes of a file, as many as the limit, if its name is listed.
pub(crate) fn read_listed<T: Tree>(
    alloc: Global,
    listed: &[String],
    name: &str,
    limit: u32,
    tree: &mut T,
) -> Result<Option<Vec<u8>>, RecoverError>
    requires { ForSome (T.content tree.old) (λ held. IsPermutation (keys held) (map string_bytes listed.now)) }
    ensures read { IfOk result (λ found. IfSome (T.content tree.old) (λ held. option_map (λ bytes. bytes.items) found ≡ option_map (take limit) (get held name.now))) }
    ensures outside { IfErr result IsOutside }
    ensures content { T.content tree.new ≡ T.content tree.old }
    ensures room { KeepsRoom (T.room_for tree.old) (T.room_for tree.new) }
    ensures cause { HasReadCause (T.faults tree.old) (T.faults tree.new) result }
    ensures steady { StaysSteady (T.is_steady tree.old) (T.is_steady tree.new) (IsErrOf result RecoverError.Read) }
{
    if !is_listed(listed, name) {
        return Ok(None);
    }
    Ok(Some(tree.read(alloc, name, limit)?))
}

/// Whether a name is listed.
fn is_listed(listed: &[String], name: &str) -> bool
    ensures { result ≡ list_any (λ other. bytes_eq (string_bytes other) name.now) listed.now }
{
    listed.iter().any(|other| other.as_str() == name)
}
