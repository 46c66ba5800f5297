//! Units that are linked behind a unit that needs them.
ghost use Rattle.std.specs.Prelude.{◌≡◌, ◌++◌, ◌≤◌, All, IfOk, OnOk, false, length, map};
ghost use Rattle.std.specs.Option.{option_copied};
ghost use Rattle.rotor_base.specs.Limits.{max_file_bytes};
ghost use Rattle.ml_lexer.specs.Lexed.{view_tokens};
ghost use Rattle.ml_trees.specs.View.{view_part_of, view_unit};
ghost use Rattle.unit_heads.specs.Heads.{is_among, unit_heads};
ghost use Rattle.module_openings.specs.Sources.{lexemes_of};
ghost use Rattle.reading_differences.specs.Late.{first_head as first_head_of, head_in as head_in_of, late, late_behind, late_head as late_head_of, late_needs, needed_head};

use crate::difference::{Difference, Parting};
use ml_trees::{FileTree, UnitTree};
use module_openings::{file_number, is_upper, is_word};
use rotor_base::{Memory, Name, Place, Token};
use std::alloc::Global;
use unit_order::needs;

/// Adds the units that are linked behind a unit that needs them, of units in link order, over the tokens of the
/// sources.
pub(crate) fn add_late_needs(
    alloc: Global,
    found: &mut Vec<Difference>,
    sources: &[Vec<Token<'_>>],
    units: &[UnitTree],
) -> Result<(), Memory>
    requires short { All (λ list. length list.items ≤ max_file_bytes) sources.now }
    ensures { OnOk result (found.new.items ≡ found.old.items ++ late_needs (map (λ list. view_tokens list.items) sources.now) (map view_unit units.now)) }
{
    let mut rest = units;
    while let [unit, behind @ ..] = rest {
        let heads = needs(alloc, unit)?;
        add_late(alloc, found, sources, unit, &heads, behind)?;
        rest = behind;
    }
    Ok(())
}

/// Adds those of later units that a unit needs, by the heads of its paths.
fn add_late(
    alloc: Global,
    found: &mut Vec<Difference>,
    sources: &[Vec<Token<'_>>],
    unit: &UnitTree,
    heads: &[Name],
    later: &[UnitTree],
) -> Result<(), Memory>
    requires heads { heads.now ≡ unit_heads (view_unit unit.now) }
    requires short { All (λ list. length list.items ≤ max_file_bytes) sources.now }
    ensures { OnOk result (found.new.items ≡ found.old.items ++ late_behind (map (λ list. view_tokens list.items) sources.now) (view_unit unit.now) (map view_unit later.now)) }
{
    for other in later {
        let at = late_head(sources, unit, heads, other.name.as_bytes());
        push_late(
            alloc,
            found,
            unit.name.as_bytes(),
            other.name.as_bytes(),
            at,
        )?;
    }
    Ok(())
}

/// Adds a unit that needs another at a place, if there is one.
fn push_late(
    alloc: Global,
    found: &mut Vec<Difference>,
    unit: &[u8],
    needed: &[u8],
    at: Option<Place>,
) -> Result<(), Memory>
    ensures { OnOk result (found.new.items ≡ found.old.items ++ late unit.now needed.now at) }
{
    if let Some(at) = at {
        let unit = Name::new(alloc, unit)?;
        let needed = Name::new(alloc, needed)?;
        found.push(Difference {
            at,
            how: Parting::Order { unit, needed },
        })?;
    }
    Ok(())
}

/// The place of the first head of this name in a unit, if the unit needs the unit of this name.
fn late_head(
    sources: &[Vec<Token<'_>>],
    unit: &UnitTree,
    heads: &[Name],
    name: &[u8],
) -> Option<Place>
    requires heads { heads.now ≡ unit_heads (view_unit unit.now) }
    requires short { All (λ list. length list.items ≤ max_file_bytes) sources.now }
    ensures { result ≡ late_head_of (map (λ list. view_tokens list.items) sources.now) (view_unit unit.now) name.now }
{
    if is_head(heads, name) {
        head_of(sources, unit, name)
    } else {
        None
    }
}

/// Whether a name is one of these heads.
fn is_head(heads: &[Name], name: &[u8]) -> bool
    ensures { result ≡ is_among heads.now name.now }
{
    heads.iter().any(|head| head.as_bytes() == name)
}

/// The place of the first head of this name in the body of a unit, or else in its interface.
fn head_of(sources: &[Vec<Token<'_>>], unit: &UnitTree, name: &[u8]) -> Option<Place>
    requires { All (λ list. length list.items ≤ max_file_bytes) sources.now }
    ensures { result ≡ needed_head (map (λ list. view_tokens list.items) sources.now) (view_unit unit.now) name.now }
{
    match head_in(sources, &unit.body, name) {
        Some(at) => Some(at),
        None => head_in(sources, &unit.face, name),
    }
}

/// The place of the first head of this name in a file, if there is one.
fn head_in(sources: &[Vec<Token<'_>>], file: &Option<FileTree>, name: &[u8]) -> Option<Place>
    requires { All (λ list. length list.items ≤ max_file_bytes) sources.now }
    ensures { result ≡ head_in_of (map (λ list. view_tokens list.items) sources.now) (view_part_of file.now) name.now }
{
    let file = file_number(file.as_ref()?);
    let token = head_of_source(sources, file, name)?;
    Some(Place { file, token })
}

/// The number, from 1, of the first head of this name in the source of a number.
fn head_of_source(sources: &[Vec<Token<'_>>], file: u32, name: &[u8]) -> Option<u32>
    requires { All (λ list. length list.items ≤ max_file_bytes) sources.now }
    ensures { result ≡ first_head_of name.now false false 1 (lexemes_of (map (λ list. view_tokens list.items) sources.now) file) }
{
    let tokens = sources.get(file as usize)?;
    first_head(tokens, name)
}

/// The number, from 1, of the first token that is this name and no later step of a path.
fn first_head(tokens: &[Token<'_>], name: &[u8]) -> Option<u32>
    requires { length tokens.now ≤ max_file_bytes }
    ensures { result ≡ first_head_of name.now false false 1 (view_tokens tokens.now) }
{
    let mut behind_name = false;
    let mut is_step = false;
    let mut number: u32 = 1;
    for token in tokens {
        if !is_step && is_upper(token) && is_word(token, name) {
            return Some(number);
        }
        is_step = behind_name && is_word(token, b".");
        behind_name = is_upper(token);
        number += 1;
    }
    None
}
