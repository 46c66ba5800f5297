//! The checks that `make_files` makes of the sources and the manifest, one in each function.
ghost use Rattle.std.specs.Prelude.{◌≡◌, ◌≤◌, ◌∷◌, List, ℕ, suc, filter, not, None, IfErr, IfOk, IsFalse, IsTrue, OnOk, Some, length};
ghost use Rattle.std.specs.List.{list_any};
ghost use Rattle.std.specs.Option.{ForSome, option_copied, option_map};
ghost use Rattle.std.specs.Str.{bytes_eq};
ghost use Rattle.std.specs.Str.Lines.{lines};
ghost use Rattle.rotor_base.specs.Limits.{max_file_bytes};
ghost use Rattle.rotor_base.specs.Files.{IsRefusedBy, too_many, too_large, long_manifest, double_unit, bad_manifest, bad_line, least_word, lesser, doubled_units};

use crate::lines::next_line;
use crate::unit::SourceUnit;
use crate::{LoadError, MAX_FILE_BYTES, MAX_SOURCES, MAX_TOTAL_BYTES, Memory, Name, SourceFile};
use std::alloc::Global;
use std::cmp::Ordering;
use std::collections::BTreeSet;

/// Whether there are not too many sources.
#[tactic(auto, unfolding(crate::specs::Files::too_many))]
pub(crate) fn check_count(files: &[SourceFile]) -> Result<(), LoadError>
    ensures passed { OnOk result (too_many files.now ≡ None) }
    ensures refused { IfErr result (IsRefusedBy (too_many files.now)) }
{
    let count = files.len();
    if count > MAX_SOURCES {
        return Err(LoadError::TooMany {
            count: count as u64,
        });
    }
    Ok(())
}

/// Whether no source is too large, and all together are not.
#[tactic(auto, unfolding(crate::specs::Files::too_large))]
pub(crate) fn check_sizes(alloc: Global, files: &[SourceFile]) -> Result<(), LoadError>
    ensures passed { OnOk result (too_large files.now ≡ None) }
    ensures refused { IfErr result (IsRefusedBy (too_large files.now)) }
{
    let mut total: u64 = 0;
    for file in files {
        let len = file.bytes.as_slice().len() as u64;
        if len > MAX_FILE_BYTES as u64 || total + len > MAX_TOTAL_BYTES as u64 {
            return Err(too_large_file(alloc, file.name.as_str().as_bytes())?);
        }
        total += len;
    }
    Ok(())
}

/// Whether the manifest, if there is one, is not too large.
#[tactic(auto, unfolding(crate::specs::Files::long_manifest))]
pub(crate) fn check_manifest_size(
    alloc: Global,
    manifest: &Option<Vec<u8>>,
) -> Result<(), LoadError>
    ensures passed { OnOk result (long_manifest (option_map (λ bytes. bytes.items) manifest.now) ≡ None) }
    ensures refused { IfErr result (IsRefusedBy (long_manifest (option_map (λ bytes. bytes.items) manifest.now))) }
{
    match manifest {
        Some(bytes) if bytes.len() > MAX_FILE_BYTES as usize => {
            Err(too_large_file(alloc, b"rotor.units")?)
        }
        _ => Ok(()),
    }
}

/// The refusal of a file that is too large.
fn too_large_file(alloc: Global, name: &[u8]) -> Result<LoadError, Memory>
    ensures { IfOk result (λ error. error ≡ LoadError.TooLarge name.now) }
{
    Ok(LoadError::TooLarge {
        file: Name::new(alloc, name)?,
    })
}

/// Whether no two sources of one kind give one unit.
#[tactic(auto, unfolding(crate::specs::Files::double_unit))]
pub(crate) fn check_units(alloc: Global, units: &[SourceUnit]) -> Result<(), LoadError>
    ensures passed { OnOk result (double_unit units.now ≡ None) }
    ensures refused { IfErr result (IsRefusedBy (double_unit units.now)) }
{
    match least_double(alloc, units)? {
        None => Ok(()),
        Some(unit) => Err(LoadError::DoubleUnit {
            unit: Name::new(alloc, unit)?,
        }),
    }
}

/// The least unit that two sources of one kind give. `Memory` is the only error.
fn least_double<'a>(alloc: Global, units: &'a [SourceUnit]) -> Result<Option<&'a [u8]>, Memory>
    ensures { IfOk result (λ least. option_copied least ≡ least_word (doubled_units units.now)) }
{
    let mut bodies: BTreeSet<&[u8]> = BTreeSet::new(alloc);
    let mut faces: BTreeSet<&[u8]> = BTreeSet::new(alloc);
    let mut least: Option<&[u8]> = None;
    for at in (0..units.len()).rev() {
        let unit = &units[at];
        let name = unit.name.as_bytes();
        let is_new = if unit.is_body {
            bodies.insert(name)?
        } else {
            faces.insert(name)?
        };
        if !is_new {
            least = Some(lesser_of(least, name));
        }
    }
    Ok(least)
}

/// The lesser of two words in byte order; if there is but one, that one.
fn lesser_of<'a>(least: Option<&'a [u8]>, word: &'a [u8]) -> &'a [u8]
    ensures { lesser (option_copied least.entry) word.now ≡ Some result.now }
{
    let Some(least) = least else {
        return word;
    };
    match word.cmp(least) {
        Ordering::Less => word,
        Ordering::Equal | Ordering::Greater => least,
    }
}

/// Whether the manifest, if there is one, names each unit on just one line.
#[tactic(auto, unfolding(crate::specs::Files::bad_manifest))]
pub(crate) fn check_manifest(
    units: Vec<SourceUnit>,
    manifest: &Option<Vec<u8>>,
) -> Result<(), LoadError>
    requires { ForSome manifest.now (λ bytes. length bytes.items ≤ max_file_bytes) }
    ensures passed { OnOk result (bad_manifest units.items (option_map (λ bytes. bytes.items) manifest.now) ≡ None) }
    ensures refused { IfErr result (IsRefusedBy (bad_manifest units.items (option_map (λ bytes. bytes.items) manifest.now))) }
{
    let Some(bytes) = manifest else {
        return Ok(());
    };
    match first_bad_line(units, bytes) {
        None => Ok(()),
        Some(line) => Err(LoadError::BadManifest { line }),
    }
}

/// The number of the first line that names no unit, or one that an earlier line names; else, if a unit has no line,
/// one more than the number of lines.
fn first_bad_line(units: Vec<SourceUnit>, manifest: &[u8]) -> Option<u32>
    requires { length manifest.now ≤ max_file_bytes }
    ensures { result ≡ bad_line (lines manifest.now) units.items }
{
    let mut left = units;
    let mut before: u32 = 0;
    let mut rest = manifest;
    while let Some((line, behind)) = next_line(rest) {
        if !takes_unit(line, &mut left) {
            return Some(before + 1);
        }
        before += 1;
        rest = behind;
    }
    if left.is_empty() {
        None
    } else {
        Some(before + 1)
    }
}

/// Whether a line is empty or names one of the units that are left, which it takes.
fn takes_unit(line: &[u8], left: &mut Vec<SourceUnit>) -> bool
    ensures good { IsTrue result → (lines : List (List ℕ)) → bad_line (line.now ∷ lines) left.old.items ≡ option_map suc (bad_line lines left.new.items) }
    ensures bad { IsFalse result → (lines : List (List ℕ)) → bad_line (line.now ∷ lines) left.old.items ≡ Some 1 }
{
    if line.is_empty() {
        return true;
    }
    if !names_one(line, left) {
        return false;
    }
    take_named(line, left);
    true
}

/// Whether a line names one of these units.
fn names_one(line: &[u8], units: &[SourceUnit]) -> bool
    ensures { result ≡ list_any (λ unit. bytes_eq unit.name line.now) units.now }
{
    units.iter().any(|unit| unit.name.as_bytes() == line)
}

/// Takes the units that a line names out of those that are left.
fn take_named(line: &[u8], left: &mut Vec<SourceUnit>)
    ensures { left.new.items ≡ filter (λ unit. not (bytes_eq unit.name line.now)) left.old.items }
{
    left.retain(|unit| unit.name.as_bytes() != line);
}
