//! Loading by a list.
ghost use Rattle.std.specs.Prelude.{◌≡◌, ◌⊎◌, ℕ, List, Err, IfErr, IfOk, IfSome, IsErrOf, map, string_bytes};
ghost use Rattle.std.specs.List.{list_any};
ghost use Rattle.std.specs.Option.{ForSome};
ghost use Rattle.std.specs.Str.{bytes_eq};
ghost use Rattle.std.specs.BTreeSet.{contains_text};
ghost use Rattle.rotor_base.specs.declared.refusal.LoadError.TheVariants as load_error;
ghost use Rattle.tree_io.specs.Outside.{KeepsRoom, StaysSteady};
ghost use Rattle.project_load.specs.Cause.{HasListCause, HasReadCause};
ghost use Rattle.project_load.specs.Entries.{AreHeld, IsFolder, IsListLoad, IsListed, table_of};
ghost use Rattle.project_load.specs.Listed.{IsListAnswer, IsOutsideList, Lists};
ghost use Rattle.project_load.specs.Load.{IsOutside};

use crate::ListError;
use crate::entries::{Entries, Folder, read_entries};
use crate::loading::load_named;
use crate::naming::Naming;
use crate::reading::{list_names, read_front, too_large_file};
use rotor_base::{Files, LoadError, MAX_FILE_BYTES, Memory};
use std::alloc::Global;
use std::collections::BTreeSet;
use tree_io::Tree;

/// The files of the project that a list names. A line of the list is `SOURCE FILE` with one space: SOURCE is the name
/// of a source or `rotor.units`, and FILE is the name of the file in the folder with its bytes. LF ends a line, and the
/// last line may lack it. The call lists the folder, reads the list, then reads each file in byte order of its SOURCE
/// and the manifest, each with a limit, and changes nothing.
///
/// # Errors
///
/// The first of these that the call meets:
///
/// - `Read`, if the folder failed. The answer is `Read` only if the count of faults rose, and always if it is greater
///   afterwards.
/// - `BadList` with 0, if the folder lacks the list.
/// - `Load` with `TooLarge`, if the list has more than 1,048,576 bytes.
/// - `BadList` with the number, from 1, of the first line that has another form, repeats a SOURCE or names a FILE that
///   the folder lacks.
/// - `Load` with what [`load`](crate::load) refuses of a folder that has the bytes of each FILE under its SOURCE. It is
///   never `Load` with `Read`.
/// - `Load` with `Memory`.
pub fn load_list<T: Tree>(alloc: Global, tree: &mut T, list: &str) -> Result<Files, ListError>
    ensures answer { IfSome (T.content tree.old) (λ held. IsListAnswer held list.now result) }
    ensures never { IfErr result (λ error. error ≡ ListError.Load load_error.Read → ⊥) }
    ensures cause { HasListCause (T.faults tree.old) (T.faults tree.new) result }
    ensures content { T.content tree.new ≡ T.content tree.old }
    ensures room { KeepsRoom (T.room_for tree.old) (T.room_for tree.new) }
    ensures steady { StaysSteady (T.is_steady tree.old) (T.is_steady tree.new) (IsErrOf result ListError.Read) }
{
    let folder = list_folder(alloc, tree)?;
    let entries = read_list(alloc, list, &folder, tree)?;
    load_entries(alloc, &entries, tree)
}

/// The names of a folder, as a set.
fn list_folder<T: Tree>(alloc: Global, tree: &mut T) -> Result<Folder, LoadError>
    ensures names { IfOk result (λ folder. IfSome (T.content tree.old) (λ held. IsFolder held folder)) }
    ensures outside { IfErr result IsOutside }
    ensures cause { HasReadCause (T.faults tree.old) (T.faults tree.new) result }
    ensures content { T.content tree.new ≡ T.content tree.old }
    ensures room { KeepsRoom (T.room_for tree.old) (T.room_for tree.new) }
    ensures steady { StaysSteady (T.is_steady tree.old) (T.is_steady tree.new) (IsErrOf result LoadError.Read) }
{
    let names = list_names(alloc, tree)?;
    Ok(set_of(alloc, names)?)
}

/// The set of some names.
fn set_of(alloc: Global, names: Vec<String>) -> Result<Folder, Memory>
    ensures { IfOk result (λ folder. (name : List ℕ) → contains_text folder name ≡ list_any (bytes_eq name) (map string_bytes names.items)) }
{
    let mut folder = BTreeSet::new(alloc);
    for name in names {
        folder.insert(name)?;
    }
    Ok(folder)
}

/// The entries of a list in the folder.
fn read_list<T: Tree>(
    alloc: Global,
    list: &str,
    folder: &Folder,
    tree: &mut T,
) -> Result<Entries, ListError>
    requires { ForSome (T.content tree.old) (λ held. IsFolder held folder.now) }
    ensures entries { IfOk result (λ entries. IfSome (T.content tree.old) (λ held. IsListed held list.now (table_of entries))) }
    ensures there { IfOk result (λ entries. IfSome (T.content tree.old) (λ held. AreHeld held (table_of entries))) }
    ensures refused { IfErr result (λ error. IfSome (T.content tree.old) (λ held. IsOutsideList error ⊎ Lists held list.now (Err error))) }
    ensures never { IfErr result (λ error. error ≡ ListError.Load load_error.Read → ⊥) }
    ensures cause { HasListCause (T.faults tree.old) (T.faults tree.new) result }
    ensures content { T.content tree.new ≡ T.content tree.old }
    ensures room { KeepsRoom (T.room_for tree.old) (T.room_for tree.new) }
    ensures steady { StaysSteady (T.is_steady tree.old) (T.is_steady tree.new) (IsErrOf result ListError.Read) }
{
    if !folder.contains(list) {
        return Err(ListError::BadList { line: 0 });
    }
    let bytes = read_front(alloc, list, tree)?;
    if bytes.len() > MAX_FILE_BYTES as usize {
        return Err(ListError::Load(too_large_file(alloc, list)?));
    }
    read_entries(alloc, folder, &bytes)
}

/// The files of the project that the entries of a list name.
fn load_entries<T: Tree>(alloc: Global, entries: &Entries, tree: &mut T) -> Result<Files, ListError>
    requires { ForSome (T.content tree.old) (λ held. AreHeld held (table_of entries.now)) }
    ensures answer { IfSome (T.content tree.old) (λ held. IsListLoad held (table_of entries.now) result) }
    ensures never { IfErr result (λ error. error ≡ ListError.Load load_error.Read → ⊥) }
    ensures cause { HasListCause (T.faults tree.old) (T.faults tree.new) result }
    ensures content { T.content tree.new ≡ T.content tree.old }
    ensures room { KeepsRoom (T.room_for tree.old) (T.room_for tree.new) }
    ensures steady { StaysSteady (T.is_steady tree.old) (T.is_steady tree.new) (IsErrOf result ListError.Read) }
{
    let sources = entries.sources(alloc)?;
    Ok(load_named(alloc, sources, &Naming::Listed(entries), tree)?)
}
