//! The units that sources give.
ghost use Rattle.std.specs.Prelude.{◌≡◌, IfOk, take, length};
ghost use Rattle.rotor_base.specs.Stem.{is_body_name, is_source_name};
ghost use Rattle.rotor_base.specs.Unit.{unit_of, stem_of, capitalized};
ghost use Rattle.rotor_base.specs.Files.{units_of};

use crate::{Memory, Name, SourceFile, is_body};
use std::alloc::Global;

/// The unit that a source gives, and whether the source is its body.
#[derive(Debug, Drop)]
pub struct SourceUnit {
    pub name: Name,
    pub is_body: bool,
}

/// The unit that a source of this name gives: its stem with the first letter in upper case.
///
/// # Errors
///
/// `Memory` alone.
#[tactic(auto, unfolding(crate::specs::Unit::unit_of))]
pub fn source_unit(alloc: Global, name: &[u8]) -> Result<SourceUnit, Memory>
    ensures name { IfOk result (λ unit. unit.name ≡ unit_of name.now) }
    ensures kind { IfOk result (λ unit. unit.is_body ≡ is_body_name name.now) }
{
    Ok(SourceUnit {
        name: Name::new(alloc, &with_upper_case(alloc, stem(name))?)?,
        is_body: is_body(name),
    })
}

/// A word with its first letter in upper case.
fn with_upper_case(alloc: Global, word: &[u8]) -> Result<Vec<u8>, Memory>
    ensures { IfOk result (λ bytes. bytes.items ≡ capitalized word.now) }
{
    let mut bytes = Vec::new(alloc);
    if let [first, rest @ ..] = word {
        bytes.push(first.to_ascii_uppercase())?;
        bytes.extend_from_slice(rest)?;
    }
    Ok(bytes)
}

/// The stem of a source: its name without `.ml` or `.mli`.
fn stem(name: &[u8]) -> &[u8]
    ensures { result.now ≡ stem_of name.now }
{
    let ending = if is_body(name) { 3 } else { 4 };
    &name[..name.len().saturating_sub(ending)]
}

/// The units of sources, in order.
pub(crate) fn source_units(alloc: Global, files: &[SourceFile]) -> Result<Vec<SourceUnit>, Memory>
    ensures { IfOk result (λ units. units.items ≡ units_of files.now) }
{
    let mut units = Vec::new(alloc);
    for file in files {
        units.push(source_unit(alloc, file.name.as_str().as_bytes())?)?;
    }
    Ok(units)
}
