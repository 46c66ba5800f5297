//! The trees of sources put together as units.

ghost use Rattle.std.specs.Prelude.{◌≡◌, IfOk, OnOk, length, map, not};
ghost use Rattle.std.specs.List.{position};
ghost use Rattle.std.specs.Ordering.{is_gt, nat_cmp};
ghost use Rattle.std.specs.Cmp.Lexicographic.{slice_cmp};
ghost use Rattle.ml_trees.specs.View.{view_file, view_unit};
ghost use Rattle.unit_order.specs.Positions.{views};
ghost use Rattle.project_reading.specs.Gathered.{put_part, with_part, empty_unit};
ghost use Rattle.project_reading.specs.Units.{units_of};

use ml_trees::{FileTree, UnitTree};
use rotor_base::{Memory, Name, SourceFile, source_unit};
use std::alloc::Global;
use std::cmp::Ordering;

/// Whether a name is behind another in byte order.
fn is_behind(name: &[u8], other: &[u8]) -> bool
    ensures { result ≡ is_gt (slice_cmp nat_cmp name.now other.now) }
{
    name.cmp(other) == Ordering::Greater
}

/// The position of the first unit that is not before this name.
fn place_of(units: &[UnitTree], name: &[u8]) -> Option<usize>
    ensures { result ≡ position (λ unit. not (is_gt (slice_cmp nat_cmp name.now unit.name))) units.now }
{
    units
        .iter()
        .position(|unit| !is_behind(name, unit.name.as_bytes()))
}

/// A unit with one tree: its body, or its interface.
fn unit_with(name: Name, is_body: bool, tree: FileTree) -> UnitTree
    ensures { view_unit result ≡ with_part is_body (view_file tree) (empty_unit name) }
{
    let (body, face) = if is_body {
        (Some(tree), None)
    } else {
        (None, Some(tree))
    };
    UnitTree { name, body, face }
}

/// Puts a tree to a unit, as its body or as its interface.
fn set_part(unit: &mut UnitTree, is_body: bool, tree: FileTree)
    ensures { view_unit unit.new ≡ with_part is_body (view_file tree) (view_unit unit.old) }
{
    if is_body {
        unit.body = Some(tree);
    } else {
        unit.face = Some(tree);
    }
}

/// Puts a tree to the unit of this name, or a unit of this name with this tree to its place.
fn add_tree(
    units: &mut Vec<UnitTree>,
    name: Name,
    is_body: bool,
    tree: FileTree,
) -> Result<(), Memory>
    ensures { OnOk result (views units.new.items ≡ put_part is_body name (view_file tree) (views units.old.items)) }
{
    match place_of(units, name.as_bytes()) {
        None => units.push(unit_with(name, is_body, tree))?,
        Some(at) => {
            if units[at].name.as_bytes() == name.as_bytes() {
                set_part(&mut units[at], is_body, tree);
            } else {
                units.insert(at, unit_with(name, is_body, tree))?;
            }
        }
    }
    Ok(())
}

/// The units of sources that were read as these trees, in byte order of their names.
pub(crate) fn gather_units(
    alloc: Global,
    sources: &[SourceFile],
    trees: Vec<FileTree>,
) -> Result<Vec<UnitTree>, Memory>
    requires { length trees.items ≡ length sources.now }
    ensures { IfOk result (λ units. views units.items ≡ units_of sources.now (map view_file trees.items)) }
{
    let mut units = Vec::new(alloc);
    let mut left = trees;
    while let Some(tree) = left.pop() {
        let unit = source_unit(alloc, sources[left.len()].name.as_str().as_bytes())?;
        add_tree(&mut units, unit.name, unit.is_body, tree)?;
    }
    Ok(units)
}
