//! Writes to the system's folder.
ghost use Rattle.std.specs.Prelude.{◌≡◌, ◌≤◌, length, IsTrue, OnOk};
ghost use Rattle.tree_io.specs.Disk.{PutsPart, Replaces, KeepsFront};

use crate::disk::{Disk, Found, Node};
use rotor_base::Failed;

/// Whether this run alone has the folder's lock.
pub(crate) fn is_owned<D: Disk>(disk: &mut D) -> bool {
    matches!(disk.lock_alone(), Ok(true))
}

/// Whether a write to this name may begin: nothing is there, or a regular file with no other name, no link, that can be
/// opened for writing.
pub(crate) fn is_writable<D: Disk>(disk: &mut D, name: &str) -> bool {
    match disk.look(name) {
        Ok(Found::Missing) => true,
        Ok(Found::File(node)) if node.names <= 1 => disk.reopen(name).is_ok(),
        _ => false,
    }
}

/// Makes a file hold just these bytes, and waits until they are on the disk. A link, a file with another name, and any
/// other kind of thing is a fault, and is not opened.
pub(crate) fn write_file<D: Disk>(disk: &mut D, name: &str, bytes: &[u8]) -> Result<(), Failed> {
    if !is_owned(disk) {
        return Err(Failed);
    }
    match disk.look(name) {
        Ok(Found::Missing) => write_new(disk, name, bytes),
        Ok(Found::File(node)) if node.names <= 1 => write_old(disk, name, node, bytes),
        _ => Err(Failed),
    }
}

/// Makes a file of these bytes.
fn write_new<D: Disk>(disk: &mut D, name: &str, bytes: &[u8]) -> Result<(), Failed>
    requires { D.may_make disk.old name.now }
{
    let Ok(mut file) = disk.make(name) else {
        return Err(Failed);
    };
    put_part(disk, &mut file, bytes, 0, bytes.len())?;
    if disk.sync(&mut file).is_err() || disk.sync_names().is_err() {
        return Err(Failed);
    }
    Ok(())
}

/// Writes over a file that a look found. If another was put in its place since then, nothing is written.
fn write_old<D: Disk>(disk: &mut D, name: &str, seen: Node, bytes: &[u8]) -> Result<(), Failed>
    requires { D.may_write disk.old name.now }
{
    let Ok(mut file) = disk.reopen(name) else {
        return Err(Failed);
    };
    let Ok(Found::File(node)) = disk.look_at(&file) else {
        return Err(Failed);
    };
    if node.device != seen.device || node.number != seen.number || node.names > 1 {
        return Err(Failed);
    }
    replace(disk, &mut file, node.len, bytes)
}

/// Puts these bytes in the place of the `len` bytes that an open file has, and waits until they are on the disk. Those
/// behind the old end are written first: if the disk has no room for them, the file is as it was.
fn replace<D: Disk>(
    disk: &mut D,
    file: &mut D::Target,
    len: u64,
    bytes: &[u8],
) -> Result<(), Failed>
    ensures bytes { OnOk result (Replaces len bytes.now (D.held file.old) (D.held file.new)) }
    ensures synced { OnOk result (D.is_synced file.new) }
{
    if bytes.len() as u64 > len {
        replace_by_more(disk, file, len as usize, bytes)
    } else {
        replace_by_fewer(disk, file, len, bytes)
    }
}

/// Puts more bytes in the place of those that an open file has, which end at `end`.
fn replace_by_more<D: Disk>(
    disk: &mut D,
    file: &mut D::Target,
    end: usize,
    bytes: &[u8],
) -> Result<(), Failed>
    requires { end ≤ length bytes.now }
    ensures bytes { OnOk result (Replaces end bytes.now (D.held file.old) (D.held file.new)) }
    ensures synced { OnOk result (D.is_synced file.new) }
{
    grow(disk, file, end, bytes)?;
    put_part(disk, file, bytes, 0, end)?;
    if disk.sync(file).is_err() {
        return Err(Failed);
    }
    Ok(())
}

/// Puts no more bytes in the place of the `len` bytes that an open file has.
fn replace_by_fewer<D: Disk>(
    disk: &mut D,
    file: &mut D::Target,
    len: u64,
    bytes: &[u8],
) -> Result<(), Failed>
    requires { length bytes.now ≤ len }
    ensures bytes { OnOk result (Replaces len bytes.now (D.held file.old) (D.held file.new)) }
    ensures synced { OnOk result (D.is_synced file.new) }
{
    put_part(disk, file, bytes, 0, bytes.len())?;
    let Ok(()) = disk.cut(file, bytes.len() as u64) else {
        return Err(Failed);
    };
    if disk.sync(file).is_err() {
        return Err(Failed);
    }
    Ok(())
}

/// Writes the bytes from an index on, which is the end of the file, and waits until they are on the disk. At a fault
/// the file gets its old length again. The bytes before the end stay.
fn grow<D: Disk>(disk: &mut D, file: &mut D::Target, end: usize, bytes: &[u8]) -> Result<(), Failed>
    requires { end ≤ length bytes.now }
    ensures bytes { OnOk result (PutsPart end (length bytes.now) bytes.now (D.held file.old) (D.held file.new)) }
    ensures synced { OnOk result (D.is_synced file.new) }
    ensures front { KeepsFront end (D.held file.old) (D.held file.new) }
{
    let grown = put_behind(disk, file, end, bytes);
    if grown.is_err() {
        let _ = disk.cut(file, end as u64);
    }
    grown
}

/// Writes the bytes from an index on, and waits until they are on the disk.
fn put_behind<D: Disk>(
    disk: &mut D,
    file: &mut D::Target,
    end: usize,
    bytes: &[u8],
) -> Result<(), Failed>
    requires { end ≤ length bytes.now }
    ensures bytes { OnOk result (PutsPart end (length bytes.now) bytes.now (D.held file.old) (D.held file.new)) }
    ensures synced { OnOk result (D.is_synced file.new) }
    ensures front { KeepsFront end (D.held file.old) (D.held file.new) }
{
    put_part(disk, file, bytes, end, bytes.len())?;
    if disk.sync(file).is_err() {
        return Err(Failed);
    }
    Ok(())
}

/// Writes the bytes from one index to another, each at its index. A write that takes nothing is a fault.
fn put_part<D: Disk>(
    disk: &mut D,
    file: &mut D::Target,
    bytes: &[u8],
    from: usize,
    upto: usize,
) -> Result<(), Failed>
    requires ordered { from ≤ upto }
    requires within { upto ≤ length bytes.now }
    ensures bytes { OnOk result (PutsPart from upto bytes.now (D.held file.old) (D.held file.new)) }
    ensures front { KeepsFront from (D.held file.old) (D.held file.new) }
{
    let mut at = from;
    while at < upto {
        let Ok(count) = disk.put(file, &bytes[at..upto], at as u64) else {
            return Err(Failed);
        };
        if count == 0 {
            return Err(Failed);
        }
        at += count;
    }
    Ok(())
}
