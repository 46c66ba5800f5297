//! Loading a folder.
ghost use Rattle.std.specs.Prelude.{◌≡◌, IfSome, IsErrOf, IsPermutation, map, string_bytes};
ghost use Rattle.std.specs.Option.{ForSome};
ghost use Rattle.std.specs.FinMap.{keys};
ghost use Rattle.tree_io.specs.Outside.{KeepsRoom, StaysSteady};
ghost use Rattle.project_load.specs.Cause.{HasReadCause};
ghost use Rattle.project_load.specs.Load.{IsLoad};
ghost use Rattle.project_load.specs.Naming.{seen};

use crate::names::{has_manifest, source_names};
use crate::naming::Naming;
use crate::reading::{list_names, read_manifest, read_sources};
use rotor_base::{Files, LoadError, MAX_SOURCES, make_files};
use std::alloc::Global;
use tree_io::Tree;

/// The files of a folder's project: its sources in byte order of their names, and its manifest. The call lists the
/// folder, reads each of them once, in this order and with a limit, and changes nothing.
///
/// # Errors
///
/// The first of these that the call meets: `Read`, if the folder failed; `TooMany`, before it reads; `TooLarge`, at the
/// file that is too large or with which all so far are; and what [`make_files`] refuses. The answer is `Read` only if
/// the count of faults rose, and always if it is greater afterwards. And `Memory`.
pub fn load<T: Tree>(alloc: Global, tree: &mut T) -> Result<Files, LoadError>
    ensures answer { IfSome (T.content tree.old) (λ held. IsLoad held result) }
    ensures cause { HasReadCause (T.faults tree.old) (T.faults tree.new) result }
    ensures content { T.content tree.new ≡ T.content tree.old }
    ensures room { KeepsRoom (T.room_for tree.old) (T.room_for tree.new) }
    ensures steady { StaysSteady (T.is_steady tree.old) (T.is_steady tree.new) (IsErrOf result LoadError.Read) }
{
    let listed = list_names(alloc, tree)?;
    load_named(alloc, listed, &Naming::Own, tree)
}

/// The files of the project in the folder that a naming shows, whose names are listed.
pub(crate) fn load_named<T: Tree>(
    alloc: Global,
    listed: Vec<String>,
    naming: &Naming<'_>,
    tree: &mut T,
) -> Result<Files, LoadError>
    requires { ForSome (seen naming.now (T.content tree.old)) (λ held. IsPermutation (keys held) (map string_bytes listed.items)) }
    ensures answer { IfSome (seen naming.now (T.content tree.old)) (λ held. IsLoad held result) }
    ensures cause { HasReadCause (T.faults tree.old) (T.faults tree.new) result }
    ensures content { T.content tree.new ≡ T.content tree.old }
    ensures room { KeepsRoom (T.room_for tree.old) (T.room_for tree.new) }
    ensures steady { StaysSteady (T.is_steady tree.old) (T.is_steady tree.new) (IsErrOf result LoadError.Read) }
{
    let is_there = has_manifest(&listed);
    let names = source_names(listed);
    let count = names.len();
    if count > MAX_SOURCES {
        return Err(LoadError::TooMany {
            count: count as u64,
        });
    }
    let entries = read_sources(alloc, &names, naming, tree)?;
    let manifest = read_manifest(alloc, is_there, naming, tree)?;
    make_files(alloc, entries, manifest)
}
