//! Reading the names of a folder and its files.
ghost use Rattle.std.specs.Prelude.{◌≡◌, ◌⊎◌, ◌≤◌, ◌+◌, ◌^◌, ◌<◌, ◌||◌, nat_lt, Some, ℕ, map, take, length, string_bytes, IfOk, IfErr, IfSome, IsSome, IsErrOf, IsPermutation};
ghost use Rattle.std.specs.Option.{ForSome, is_some, option_map};
ghost use Rattle.std.specs.List.{AllByRecursion};
ghost use Rattle.std.specs.FinMap.{get, keys};
ghost use Rattle.rotor_base.specs.Limits.{max_file_bytes, max_total_bytes};
ghost use Rattle.rotor_base.specs.Files.{names_of, too_large};
ghost use Rattle.tree_io.specs.Outside.{IsFront, KeepsRoom, StaysSteady};
ghost use Rattle.project_load.specs.Cause.{HasReadCause};
ghost use Rattle.project_load.specs.Load.{IsOutside, files_in, manifest_of};
ghost use Rattle.project_load.specs.Naming.{seen};

use crate::names::MANIFEST;
use crate::naming::Naming;
use rotor_base::{LoadError, MAX_FILE_BYTES, MAX_TOTAL_BYTES, Memory, Name, Row, SourceFile, Text};
use std::alloc::Global;
use tree_io::{Tree, TreeError};

/// The most bytes of a file that are read: one more than it may have.
const READ_LIMIT: u32 = MAX_FILE_BYTES + 1;

/// The names of a folder.
pub(crate) fn list_names<T: Tree>(alloc: Global, tree: &mut T) -> Result<Vec<String>, LoadError>
    ensures names { IfOk result (λ names. IfSome (T.content tree.old) (λ held. IsPermutation (keys held) (map string_bytes names.items))) }
    ensures outside { IfErr result IsOutside }
    ensures content { T.content tree.new ≡ T.content tree.old }
    ensures room { KeepsRoom (T.room_for tree.old) (T.room_for tree.new) }
    ensures cause { HasReadCause (T.faults tree.old) (T.faults tree.new) result }
    ensures steady { StaysSteady (T.is_steady tree.old) (T.is_steady tree.new) (IsErrOf result LoadError.Read) }
{
    match tree.list(alloc) {
        Ok(names) => Ok(names),
        Err(TreeError::Failed) => Err(LoadError::Read),
        Err(TreeError::Memory) => Err(LoadError::Memory),
    }
}

/// The first bytes of a file, as many as it may have and one more.
pub(crate) fn read_front<T: Tree>(
    alloc: Global,
    name: &str,
    tree: &mut T,
) -> Result<Vec<u8>, LoadError>
    requires { ForSome (T.content tree.old) (λ held. IsSome (get held name.now)) }
    ensures bytes { IfOk result (λ bytes. IfSome (T.content tree.old) (λ held. IsFront (max_file_bytes + 1) (get held name.now) bytes.items)) }
    ensures limit { IfOk result (λ bytes. length bytes.items ≤ max_file_bytes + 1) }
    ensures outside { IfErr result IsOutside }
    ensures content { T.content tree.new ≡ T.content tree.old }
    ensures room { KeepsRoom (T.room_for tree.old) (T.room_for tree.new) }
    ensures cause { HasReadCause (T.faults tree.old) (T.faults tree.new) result }
    ensures steady { StaysSteady (T.is_steady tree.old) (T.is_steady tree.new) (IsErrOf result LoadError.Read) }
{
    match tree.read(alloc, name, READ_LIMIT) {
        Ok(bytes) => Ok(bytes),
        Err(TreeError::Failed) => Err(LoadError::Read),
        Err(TreeError::Memory) => Err(LoadError::Memory),
    }
}

/// The first bytes of the file of a source, as many as it may have and one more.
fn read_source<T: Tree>(
    alloc: Global,
    source: &str,
    naming: &Naming<'_>,
    tree: &mut T,
) -> Result<Vec<u8>, LoadError>
    requires { ForSome (seen naming.now (T.content tree.old)) (λ held. IsSome (get held source.now)) }
    ensures bytes { IfOk result (λ bytes. IfSome (seen naming.now (T.content tree.old)) (λ held. IsFront (max_file_bytes + 1) (get held source.now) bytes.items)) }
    ensures limit { IfOk result (λ bytes. length bytes.items ≤ max_file_bytes + 1) }
    ensures outside { IfErr result IsOutside }
    ensures content { T.content tree.new ≡ T.content tree.old }
    ensures room { KeepsRoom (T.room_for tree.old) (T.room_for tree.new) }
    ensures cause { HasReadCause (T.faults tree.old) (T.faults tree.new) result }
    ensures steady { StaysSteady (T.is_steady tree.old) (T.is_steady tree.new) (IsErrOf result LoadError.Read) }
{
    read_front(alloc, naming.file_of(source), tree)
}

/// The files of these names, read one after another.
pub(crate) fn read_sources<T: Tree>(
    alloc: Global,
    names: &[String],
    naming: &Naming<'_>,
    tree: &mut T,
) -> Result<Vec<SourceFile>, LoadError>
    requires { ForSome (seen naming.now (T.content tree.old)) (λ held. AllByRecursion (λ name. IsSome (get held name)) (map string_bytes names.now)) }
    ensures named { IfOk result (λ files. names_of files.items ≡ map string_bytes names.now) }
    ensures read { IfOk result (λ files. IfSome (seen naming.now (T.content tree.old)) (λ held. files.items ≡ files_in held (map string_bytes names.now))) }
    ensures refused { IfErr result (λ error. IfSome (seen naming.now (T.content tree.old)) (λ held. IsOutside error ⊎ (too_large (files_in held (map string_bytes names.now)) ≡ Some error))) }
    ensures content { T.content tree.new ≡ T.content tree.old }
    ensures room { KeepsRoom (T.room_for tree.old) (T.room_for tree.new) }
    ensures cause { HasReadCause (T.faults tree.old) (T.faults tree.new) result }
    ensures steady { StaysSteady (T.is_steady tree.old) (T.is_steady tree.new) (IsErrOf result LoadError.Read) }
{
    let mut files = Vec::new(alloc);
    let mut total: u64 = 0;
    for name in names {
        let bytes = read_source(alloc, name.as_str(), naming, tree)?;
        let len = bytes.len() as u64;
        if is_over(total, len) {
            return Err(too_large_file(alloc, name.as_str())?);
        }
        total += len;
        files.push(source_file(alloc, name.as_str(), bytes)?)?;
    }
    Ok(files)
}

/// Whether a file of so many bytes, behind files of so many in all, is too large, or all are.
fn is_over(total: u64, len: u64) -> bool
    requires { total + len < 2 ^ 64 }
    ensures { result ≡ (nat_lt max_file_bytes len || nat_lt max_total_bytes (total + len)) }
{
    len > MAX_FILE_BYTES as u64 || total + len > MAX_TOTAL_BYTES as u64
}

/// The refusal of a file that is too large.
pub(crate) fn too_large_file(alloc: Global, name: &str) -> Result<LoadError, Memory>
    ensures { IfOk result (λ error. error ≡ LoadError.TooLarge name.now) }
{
    Ok(LoadError::TooLarge {
        file: Name::new(alloc, name.as_bytes())?,
    })
}

/// A file of this name, with these bytes.
fn source_file(alloc: Global, name: &str, bytes: Vec<u8>) -> Result<SourceFile, Memory>
    ensures { IfOk result (λ file. file ≡ record { name = name.now; bytes = bytes.items }) }
{
    Ok(SourceFile {
        name: Text::from_string(String::from_str(alloc, name)?),
        bytes: Row::from_vec(bytes),
    })
}

/// The first bytes of the manifest, if the folder has one.
pub(crate) fn read_manifest<T: Tree>(
    alloc: Global,
    is_there: bool,
    naming: &Naming<'_>,
    tree: &mut T,
) -> Result<Option<Vec<u8>>, LoadError>
    requires { ForSome (seen naming.now (T.content tree.old)) (λ held. is_there ≡ is_some (manifest_of held)) }
    ensures read { IfOk result (λ manifest. IfSome (seen naming.now (T.content tree.old)) (λ held. option_map (λ bytes. bytes.items) manifest ≡ option_map (take (max_file_bytes + 1)) (manifest_of held))) }
    ensures outside { IfErr result IsOutside }
    ensures content { T.content tree.new ≡ T.content tree.old }
    ensures room { KeepsRoom (T.room_for tree.old) (T.room_for tree.new) }
    ensures cause { HasReadCause (T.faults tree.old) (T.faults tree.new) result }
    ensures steady { StaysSteady (T.is_steady tree.old) (T.is_steady tree.new) (IsErrOf result LoadError.Read) }
{
    if !is_there {
        return Ok(None);
    }
    Ok(Some(read_source(alloc, MANIFEST, naming, tree)?))
}
