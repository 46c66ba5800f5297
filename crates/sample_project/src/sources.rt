//! The files that `sample` renames in.
ghost use Rattle.std.specs.Prelude.{◌≡◌, ◌++◌, ◌∷◌, [], ◌+◌, ◌*◌, ◌≤◌, IfOk, OnOk};
ghost use Rattle.sample_project.specs.Sources.{source_name, source_text, source_of, with_digit, with_digits, sources_below, sample_files};

use rotor_base::{Files, Memory, Row, SourceFile, Text};
use std::alloc::Global;

/// The text of the first unit.
const FIRST: &str = "module type S = sig val f : int end\nmodule Base = struct let f = 1 end\n";

/// The text of each other unit.
const OTHER: &str =
    "module M (X : U0.S) = struct include X let g = f + f end\nmodule A = M (U0.Base)\nlet h = A.f\n";

/// The digits, and those that a number may begin with.
const DIGITS: [u32; 10] = [0, 1, 2, 3, 4, 5, 6, 7, 8, 9];

const NONZERO_DIGITS: [u32; 9] = [1, 2, 3, 4, 5, 6, 7, 8, 9];

/// The files of the units below a number, and below 1,000. `Memory` is the only error.
pub fn sample_files(alloc: Global, units: u32) -> Result<Files, Memory>
    ensures { IfOk result (λ files. files ≡ sample_files units) }
{
    let mut sources = Vec::new(alloc);
    push_source(alloc, &mut sources, units, 0)?;
    for digit in &NONZERO_DIGITS {
        push_with_digits(alloc, &mut sources, units, *digit)?;
    }
    Ok(Files::from_parts(sources, None))
}

/// Adds the sources of a number and of those with one digit or two more.
fn push_with_digits(
    alloc: Global,
    sources: &mut Vec<SourceFile>,
    units: u32,
    number: u32,
) -> Result<(), Memory>
    requires { number ≤ 9 }
    ensures { OnOk result (sources.new.items ≡ sources.old.items ++ sources_below units (with_digits number)) }
{
    push_source(alloc, sources, units, number)?;
    for digit in &DIGITS {
        push_with_digit(alloc, sources, units, 10 * number + *digit)?;
    }
    Ok(())
}

/// Adds the sources of a number and of those with one digit more.
fn push_with_digit(
    alloc: Global,
    sources: &mut Vec<SourceFile>,
    units: u32,
    number: u32,
) -> Result<(), Memory>
    requires { number ≤ 99 }
    ensures { OnOk result (sources.new.items ≡ sources.old.items ++ sources_below units (with_digit number)) }
{
    push_source(alloc, sources, units, number)?;
    for digit in &DIGITS {
        push_source(alloc, sources, units, 10 * number + *digit)?;
    }
    Ok(())
}

/// Adds the source of a number, if it is below the number of units.
fn push_source(
    alloc: Global,
    sources: &mut Vec<SourceFile>,
    units: u32,
    number: u32,
) -> Result<(), Memory>
    ensures { OnOk result (sources.new.items ≡ sources.old.items ++ sources_below units (number ∷ [])) }
{
    if number < units {
        let source = source_of(alloc, number)?;
        sources.push(source)?;
    }
    Ok(())
}

/// The source of a number's unit.
fn source_of(alloc: Global, number: u32) -> Result<SourceFile, Memory>
    ensures { IfOk result (λ source. source ≡ source_of number) }
{
    let name = format!(in alloc; "u{number}.ml")?;
    let bytes = source_text(number).as_bytes().to_vec(alloc)?;
    Ok(SourceFile {
        name: Text::from_string(name),
        bytes: Row::from_vec(bytes),
    })
}

/// The text of a number's unit.
fn source_text(number: u32) -> &'static str
    ensures { result.now ≡ source_text number }
{
    if number == 0 { FIRST } else { OTHER }
}
