//! Units with the name of OCaml's standard library.
ghost use Rattle.std.specs.Prelude.{◌≡◌, ◌++◌, OnOk, map};
ghost use Rattle.ml_lexer.specs.Lexed.{view_tokens};
ghost use Rattle.ml_trees.specs.View.{view_part_of, view_unit};
ghost use Rattle.module_openings.specs.Sources.{lexemes_of};
ghost use Rattle.reading_differences.specs.Standard.{first_in as first_in_of, first_of, is_standard as is_standard_of, opened_first, standard_start as standard_start_of, standard_units, unit_first as unit_first_of};

use crate::difference::{Difference, Parting};
use ml_trees::{FileTree, UnitTree};
use module_openings::file_number;
use rotor_base::{Memory, Place, Token};

/// The name of OCaml's standard library.
const STANDARD: &[u8] = b"Stdlib";

/// Adds the units with the name of OCaml's standard library, over the tokens of the sources.
pub(crate) fn add_standard(
    found: &mut Vec<Difference>,
    sources: &[Vec<Token<'_>>],
    units: &[UnitTree],
) -> Result<(), Memory>
    ensures { OnOk result (found.new.items ≡ found.old.items ++ standard_units (map (λ list. view_tokens list.items) sources.now) (map view_unit units.now)) }
{
    for unit in units {
        push_opened(found, standard_start(sources, unit))?;
    }
    Ok(())
}

/// Adds the first token of a unit that OCaml opens first, if there is one.
fn push_opened(found: &mut Vec<Difference>, at: Option<Place>) -> Result<(), Memory>
    ensures { OnOk result (found.new.items ≡ found.old.items ++ opened_first at) }
{
    if let Some(at) = at {
        found.push(Difference {
            at,
            how: Parting::Standard,
        })?;
    }
    Ok(())
}

/// The first token of a unit, if it has the name of OCaml's standard library.
fn standard_start(sources: &[Vec<Token<'_>>], unit: &UnitTree) -> Option<Place>
    ensures { result ≡ standard_start_of (map (λ list. view_tokens list.items) sources.now) (view_unit unit.now) }
{
    if is_standard(unit) {
        unit_first(sources, unit)
    } else {
        None
    }
}

/// Whether a unit has the name of OCaml's standard library.
fn is_standard(unit: &UnitTree) -> bool
    ensures { result ≡ is_standard_of (view_unit unit.now) }
{
    unit.name.as_bytes() == STANDARD
}

/// The first token of the interface of a unit, or else of its body.
fn unit_first(sources: &[Vec<Token<'_>>], unit: &UnitTree) -> Option<Place>
    ensures { result ≡ unit_first_of (map (λ list. view_tokens list.items) sources.now) (view_unit unit.now) }
{
    match first_in(sources, &unit.face) {
        Some(at) => Some(at),
        None => first_in(sources, &unit.body),
    }
}

/// The first token of a file, if it has one.
fn first_in(sources: &[Vec<Token<'_>>], file: &Option<FileTree>) -> Option<Place>
    ensures { result ≡ first_in_of (map (λ list. view_tokens list.items) sources.now) (view_part_of file.now) }
{
    first_of_source(sources, file_number(file.as_ref()?))
}

/// The first token of the source of a number, if it has one.
fn first_of_source(sources: &[Vec<Token<'_>>], file: u32) -> Option<Place>
    ensures { result ≡ first_of file (lexemes_of (map (λ list. view_tokens list.items) sources.now) file) }
{
    match sources.get(file as usize) {
        Some(tokens) if !tokens.is_empty() => Some(Place { file, token: 1 }),
        _ => None,
    }
}
