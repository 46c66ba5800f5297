//! Lists and reads of the system's folder.
ghost use Rattle.std.specs.Prelude.{◌≡◌, ◌≤◌, ◌<◌, true, length, vec_len, IfOk, IsTrue, OnSome};
ghost use Rattle.std.specs.Io.KnownBytes.{Consumes, IsAtEnd};

use crate::TreeError;
use crate::disk::{Disk, Found};
use std::alloc::Global;
use std::io::Read;

/// The most entries of a folder that is listed. One more is a fault.
const MAX_ENTRIES: usize = 1_048_576;
/// The most bytes that one read requests.
const CHUNK_BYTES: usize = 65_536;

/// The names in the folder, under a lock that other readers have too. A folder that was removed
/// lists nothing, and is a fault.
pub(crate) fn list_names<D: Disk>(disk: &mut D, alloc: Global) -> Result<Vec<String>, TreeError>
    ensures { IfOk result (λ names. vec_len names ≤ 1048576) }
{
    let Ok(true) = disk.share() else {
        return Err(TreeError::Failed);
    };
    let Ok(mut listing) = disk.names() else {
        return Err(TreeError::Failed);
    };
    let names = read_names(alloc, &mut listing)?;
    if names.is_empty() && !matches!(disk.is_removed(), Ok(false)) {
        return Err(TreeError::Failed);
    }
    Ok(names)
}

/// The names that a listing gives.
fn read_names<F: Read>(alloc: Global, listing: &mut F) -> Result<Vec<String>, TreeError>
    ensures { IfOk result (λ names. vec_len names ≤ 1048576) }
{
    let mut names = Vec::new(alloc);
    let mut chunk = [0; CHUNK_BYTES];
    for _ in 0..u64::MAX {
        let Ok(count) = listing.read(&mut chunk) else {
            return Err(TreeError::Failed);
        };
        if count == 0 {
            return Ok(names);
        }
        add_names(alloc, &chunk[..count], &mut names)?;
    }
    Err(TreeError::Failed)
}

/// Adds the names of a piece of a listing, in which a NUL ends each of them, all but those of the folder itself and of
/// the one above it.
fn add_names(alloc: Global, piece: &[u8], names: &mut Vec<String>) -> Result<(), TreeError>
    requires { vec_len names.old ≤ 1048576 }
    ensures within { vec_len names.new ≤ 1048576 }
    ensures kept { vec_len names.old ≤ vec_len names.new }
{
    for name in piece.split(|byte| *byte == 0) {
        if name.is_empty() || name == b".".as_slice() || name == b"..".as_slice() {
            continue;
        }
        let Ok(text) = std::str::from_utf8(name) else {
            return Err(TreeError::Failed);
        };
        if names.len() >= MAX_ENTRIES {
            return Err(TreeError::Failed);
        }
        names.push(String::from_str(alloc, text)?)?;
    }
    Ok(())
}

/// A file that was read, and what a look found at its name before that.
#[derive(Drop)]
pub(crate) struct Stamp {
    name: String,
    found: Found,
}

/// The first `limit` bytes of a file. Any other kind of thing, a folder or a FIFO say, is a fault and is not opened.
/// `shared` becomes true if the name is a link, or if the file has another name. The stamp of a file that was read is
/// added to `stamps`.
pub(crate) fn read_file<D: Disk>(
    disk: &mut D,
    alloc: Global,
    name: &str,
    limit: u32,
    shared: &mut bool,
    stamps: &mut Vec<Stamp>,
) -> Result<Vec<u8>, TreeError>
    ensures few { IfOk result (λ bytes. length bytes.items ≤ limit) }
    ensures kept { IsTrue shared.old → IsTrue shared.new }
{
    let Some(found) = look_to_read(disk, name, shared) else {
        return Err(TreeError::Failed);
    };
    let Ok(mut file) = disk.open(name) else {
        return Err(TreeError::Failed);
    };
    let bytes = read_front(alloc, &mut file, limit)?;
    let name = String::from_str(alloc, name)?;
    stamps.push(Stamp { name, found })?;
    Ok(bytes)
}

/// What a look finds at a name, if it leads to a regular file. `shared` becomes true if the name is a link, or if the
/// file has another name.
fn look_to_read<D: Disk>(disk: &mut D, name: &str, shared: &mut bool) -> Option<Found>
    ensures looked { OnSome result (D.may_read disk.new name.now) }
    ensures kept { IsTrue shared.old → IsTrue shared.new }
{
    match disk.look(name) {
        Ok(Found::File(node)) => {
            *shared = *shared || node.names > 1;
            Some(Found::File(node))
        }
        Ok(Found::Link) => {
            *shared = true;
            match disk.follow(name) {
                Ok(Found::File(_)) => Some(Found::Link),
                _ => None,
            }
        }
        _ => None,
    }
}

/// Whether a look finds at each name what it found before the file was read: the same file with the same length, which
/// was not changed since then.
pub(crate) fn are_unchanged<D: Disk>(disk: &mut D, stamps: &[Stamp]) -> bool {
    for stamp in stamps {
        match disk.look(&stamp.name) {
            Ok(found) if found == stamp.found => {}
            _ => return false,
        }
    }
    true
}

/// The first `limit` bytes that a reader gives. A read of nothing is the end of them, and an Err is a fault.
fn read_front<F: Read>(alloc: Global, file: &mut F, limit: u32) -> Result<Vec<u8>, TreeError>
    ensures few { IfOk result (λ bytes. length bytes.items ≤ limit) }
    ensures given { IfOk result (λ bytes. Consumes (F.remaining file.old) (F.remaining file.new) bytes.items) }
    ensures whole { IfOk result (λ bytes. length bytes.items < limit → IsAtEnd (F.remaining file.new)) }
{
    let mut bytes = Vec::new(alloc);
    let mut chunk = [0; CHUNK_BYTES];
    let most = limit as usize;
    while bytes.len() < most {
        let wanted = (most - bytes.len()).min(CHUNK_BYTES);
        let Ok(count) = file.read(&mut chunk[..wanted]) else {
            return Err(TreeError::Failed);
        };
        if count == 0 {
            break;
        }
        bytes.extend_from_slice(&chunk[..count])?;
    }
    Ok(bytes)
}
