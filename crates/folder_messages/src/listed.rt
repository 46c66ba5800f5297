//! What a folder lists.
ghost use Rattle.std.specs.Prelude.{◌≡◌, ◌≤◌, ◌+◌, IfOk, IfSome, IsPermutation, length, map, option_map, string_bytes};
ghost use Rattle.std.specs.FinMap.{get, keys};
ghost use Rattle.std.specs.List.{list_any};
ghost use Rattle.std.specs.Option.{ForSome, is_some};
ghost use Rattle.std.specs.Str.{bytes_eq};
ghost use Rattle.rotor_base.specs.Limits.{max_file_bytes};
ghost use Rattle.tree_io.specs.Outside.{HasCause};
ghost use Rattle.project_load.specs.Load.{source_names as sources_named};
ghost use Rattle.folder_messages.specs.Folder.{front_of};

use project_load::source_names;
use rotor_base::MAX_FILE_BYTES;
use std::alloc::Global;
use tree_io::{Tree, TreeError};

/// The most bytes of a file that are read: one more than it may have.
const READ_LIMIT: u32 = MAX_FILE_BYTES + 1;

/// The first bytes of a file, as many as it may have and one more; none if the folder lacks it.
pub(crate) fn read_listed<T: Tree>(
    alloc: Global,
    name: &[u8],
    tree: &mut T,
) -> Result<Option<Vec<u8>>, TreeError>
    ensures bytes { IfOk result (λ found. IfSome (T.content tree.old) (λ held. option_map (λ bytes. bytes.items) found ≡ front_of (get held name.now))) }
    ensures short { IfOk result (λ found. ForSome found (λ bytes. length bytes.items ≤ max_file_bytes + 1)) }
    ensures content { T.content tree.new ≡ T.content tree.old }
    ensures cause { HasCause (T.faults tree.old) (T.faults tree.new) result }
{
    let listed = tree.list(alloc)?;
    read_among(alloc, &listed, name, tree)
}

/// The same, of a folder that lists these names.
fn read_among<T: Tree>(
    alloc: Global,
    listed: &[String],
    name: &[u8],
    tree: &mut T,
) -> Result<Option<Vec<u8>>, TreeError>
    requires { ForSome (T.content tree.old) (λ held. IsPermutation (keys held) (map string_bytes listed.now)) }
    ensures bytes { IfOk result (λ found. IfSome (T.content tree.old) (λ held. option_map (λ bytes. bytes.items) found ≡ front_of (get held name.now))) }
    ensures short { IfOk result (λ found. ForSome found (λ bytes. length bytes.items ≤ max_file_bytes + 1)) }
    ensures content { T.content tree.new ≡ T.content tree.old }
    ensures cause { HasCause (T.faults tree.old) (T.faults tree.new) result }
{
    let Some(found) = find_name(listed, name) else {
        return Ok(None);
    };
    Ok(Some(tree.read(alloc, found, READ_LIMIT)?))
}

/// The name among some that has these bytes.
fn find_name<'a>(listed: &'a [String], name: &[u8]) -> Option<&'a str>
    ensures there { is_some result ≡ list_any (λ other. bytes_eq (string_bytes other) name.now) listed.entry.now }
    ensures same { ForSome result (λ found. found.now ≡ name.now) }
{
    for other in listed {
        if other.as_bytes() == name {
            return Some(other.as_str());
        }
    }
    None
}

/// The names of the sources of a folder, in byte order.
pub(crate) fn listed_sources<T: Tree>(alloc: Global, tree: &mut T) -> Result<Vec<String>, TreeError>
    ensures names { IfOk result (λ names. IfSome (T.content tree.old) (λ held. map string_bytes names.items ≡ sources_named held)) }
    ensures content { T.content tree.new ≡ T.content tree.old }
    ensures cause { HasCause (T.faults tree.old) (T.faults tree.new) result }
{
    let listed = tree.list(alloc)?;
    Ok(source_names(listed))
}
