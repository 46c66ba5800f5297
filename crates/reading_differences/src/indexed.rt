//! Forms that read an element of an array or a string, where the project has a module of that name.
ghost use Rattle.std.specs.Prelude.{◌≡◌, ◌++◌, ◌≤◌, All, IfOk, None, OnOk, Some, false, length, map};
ghost use Rattle.rotor_base.specs.Limits.{max_file_bytes};
ghost use Rattle.ml_lexer.specs.Lexed.{view_token, view_tokens};
ghost use Rattle.ml_trees.specs.View.{view_part_of, view_unit};
ghost use Rattle.binding_model.specs.Facts.{earlier as earlier_of, is_before as is_before_of};
ghost use Rattle.module_openings.specs.Sources.{lexemes_of};
ghost use Rattle.reading_differences.specs.Indexed.{bracket_of, brings as brings_of, declared_in as declared_in_of, declares as declares_of, declares_file as declares_file_of, declares_unit as declares_unit_of, first_index as first_index_of, first_place as first_place_of, index_in as index_in_of, indexes, indexing, module_of, opens_index as opens_index_of, opens_module as opens_module_of, opens_path as opens_path_of};

use crate::difference::{Difference, Indexed, Parting};
use ml_trees::{FileTree, UnitTree};
use module_openings::{file_number, is_lower, is_upper, is_word};
use rotor_base::{Memory, Place, Token};
use std::alloc::Global;

/// Adds the first place of a form at which a module of the project with its name may be in scope, of units in link
/// order, over the tokens of the sources.
pub(crate) fn add_indexing(
    alloc: Global,
    found: &mut Vec<Difference>,
    form: Indexed,
    sources: &[Vec<Token<'_>>],
    units: &[UnitTree],
) -> Result<(), Memory>
    requires { All (λ list. length list.items ≤ max_file_bytes) sources.now }
    ensures { OnOk result (found.new.items ≡ found.old.items ++ indexing form (map (λ list. view_tokens list.items) sources.now) (map view_unit units.now)) }
{
    let places = index_places(alloc, form, sources, units)?;
    if let Some(at) = first_place(&places) {
        found.push(Difference {
            at,
            how: Parting::Indexing(form),
        })?;
    }
    Ok(())
}

/// The first place of the form in each file at which a module of its name may be in scope.
fn index_places(
    alloc: Global,
    form: Indexed,
    sources: &[Vec<Token<'_>>],
    units: &[UnitTree],
) -> Result<Vec<Place>, Memory>
    requires { All (λ list. length list.items ≤ max_file_bytes) sources.now }
    ensures { IfOk result (λ places. places.items ≡ indexes form (map (λ list. view_tokens list.items) sources.now) false false (map view_unit units.now)) }
{
    let mut places = Vec::new(alloc);
    let mut nested = false;
    let mut known = false;
    for unit in units {
        add_index(&mut places, form, nested, known, sources, &unit.body)?;
        add_index(&mut places, form, nested, known, sources, &unit.face)?;
        nested = nested || declares_unit(form, sources, unit);
        known = known || unit.name.as_bytes() == module_name(form);
    }
    Ok(places)
}

/// Adds the first place of the form in a file, if there is one.
fn add_index(
    places: &mut Vec<Place>,
    form: Indexed,
    nested: bool,
    known: bool,
    sources: &[Vec<Token<'_>>],
    file: &Option<FileTree>,
) -> Result<(), Memory>
    requires { All (λ list. length list.items ≤ max_file_bytes) sources.now }
    ensures { OnOk result (places.new.items ≡ places.old.items ++ index_in_of form (map (λ list. view_tokens list.items) sources.now) nested known (view_part_of file.now)) }
{
    let Some(tree) = file else {
        return Ok(());
    };
    let file = file_number(tree);
    if let Some(token) = index_of_source(form, nested, known, sources, file) {
        places.push(Place { file, token })?;
    }
    Ok(())
}

/// The number, from 1, of the first token at which the form begins in the source of a number, and a module of its name
/// may be in scope.
fn index_of_source(
    form: Indexed,
    nested: bool,
    known: bool,
    sources: &[Vec<Token<'_>>],
    file: u32,
) -> Option<u32>
    requires { All (λ list. length list.items ≤ max_file_bytes) sources.now }
    ensures { result ≡ first_index_of form nested known false 1 (lexemes_of (map (λ list. view_tokens list.items) sources.now) file) }
{
    let tokens = sources.get(file as usize)?;
    first_index(form, nested, known, tokens)
}

/// Whether a unit declares a module of the form's name.
fn declares_unit(form: Indexed, sources: &[Vec<Token<'_>>], unit: &UnitTree) -> bool
    requires { All (λ list. length list.items ≤ max_file_bytes) sources.now }
    ensures { result ≡ declares_unit_of form (map (λ list. view_tokens list.items) sources.now) (view_unit unit.now) }
{
    declares_file(form, sources, &unit.body) || declares_file(form, sources, &unit.face)
}

/// Whether a file declares the form's module.
fn declares_file(form: Indexed, sources: &[Vec<Token<'_>>], file: &Option<FileTree>) -> bool
    requires { All (λ list. length list.items ≤ max_file_bytes) sources.now }
    ensures { result ≡ declares_file_of form (map (λ list. view_tokens list.items) sources.now) (view_part_of file.now) }
{
    match file {
        Some(tree) => declares_source(form, sources, file_number(tree)),
        None => false,
    }
}

/// Whether the source of a number declares the form's module.
fn declares_source(form: Indexed, sources: &[Vec<Token<'_>>], file: u32) -> bool
    ensures { result ≡ declared_in_of form (lexemes_of (map (λ list. view_tokens list.items) sources.now) file) }
{
    match sources.get(file as usize) {
        Some(tokens) => is_declared_in(form, tokens),
        None => false,
    }
}

/// Whether some tokens declare the form's module.
fn is_declared_in(form: Indexed, tokens: &[Token<'_>]) -> bool
    ensures { result ≡ declared_in_of form (view_tokens tokens.now) }
{
    let mut rest = tokens;
    while let [token, behind @ ..] = rest {
        if declares(form, token, behind) {
            return true;
        }
        rest = behind;
    }
    false
}

/// The number, from 1, of the first token at which the form begins and a module of its name may be in scope.
fn first_index(form: Indexed, nested: bool, mut known: bool, tokens: &[Token<'_>]) -> Option<u32>
    requires { length tokens.now ≤ max_file_bytes }
    ensures { result ≡ first_index_of form nested known false 1 (view_tokens tokens.now) }
{
    let mut behind_path = false;
    let mut number: u32 = 1;
    let mut rest = tokens;
    while let [token, behind @ ..] = rest {
        if known && !behind_path && opens_index(form, token, behind) {
            return Some(number);
        }
        known = known || brings(form, nested, behind_path, token, behind);
        behind_path = is_upper(token);
        number += 1;
        rest = behind;
    }
    None
}

/// Whether a module of the form's name may be in scope from a token on.
fn brings(
    form: Indexed,
    nested: bool,
    behind_path: bool,
    token: &Token<'_>,
    behind: &[Token<'_>],
) -> bool
    ensures { result ≡ brings_of form nested behind_path (view_token token.now) (view_tokens behind.now) }
{
    declares(form, token, behind) || (nested && opens_module(behind_path, token, behind))
}

/// Whether a module is opened or included at a token.
fn opens_module(behind_path: bool, token: &Token<'_>, behind: &[Token<'_>]) -> bool
    ensures { result ≡ opens_module_of behind_path (view_token token.now) (view_tokens behind.now) }
{
    is_word(token, b"open")
        || is_word(token, b"include")
        || (behind_path && opens_path(token, behind))
}

/// Whether a token behind the name of a module opens the module.
fn opens_path(token: &Token<'_>, behind: &[Token<'_>]) -> bool
    ensures { result ≡ opens_path_of (view_token token.now) (view_tokens behind.now) }
{
    match behind {
        [next, ..] => is_word(token, b".") && !is_upper(next) && !is_lower(next),
        [] => false,
    }
}

/// Whether a token and those behind it open the form.
fn opens_index(form: Indexed, token: &Token<'_>, behind: &[Token<'_>]) -> bool
    ensures { result ≡ opens_index_of form (view_token token.now) (view_tokens behind.now) }
{
    match behind {
        [next, ..] => is_word(token, b".") && is_word(next, bracket(form)),
        [] => false,
    }
}

/// Whether a token and those behind it declare the form's module: `module Array`, or a functor's parameter `(Array :`.
fn declares(form: Indexed, token: &Token<'_>, behind: &[Token<'_>]) -> bool
    ensures { result ≡ declares_of form (view_token token.now) (view_tokens behind.now) }
{
    match behind {
        [name, colon, ..] => {
            is_word(name, module_name(form))
                && (is_word(token, b"module") || (is_word(token, b"(") && is_word(colon, b":")))
        }
        [name] => is_word(name, module_name(form)) && is_word(token, b"module"),
        [] => false,
    }
}

/// The name of the module that the form reads.
pub fn module_name(form: Indexed) -> &'static [u8]
    ensures { result.now ≡ module_of form }
{
    match form {
        Indexed::Array => b"Array",
        Indexed::String => b"String",
    }
}

/// The bracket of the form.
fn bracket(form: Indexed) -> &'static [u8]
    ensures { result.now ≡ bracket_of form }
{
    match form {
        Indexed::Array => b"(",
        Indexed::String => b"[",
    }
}

/// The first of some places.
fn first_place(places: &[Place]) -> Option<Place>
    ensures { result ≡ first_place_of None places.now }
{
    let mut first = None;
    for place in places {
        first = Some(take_earlier(first, *place));
    }
    first
}

/// The earlier of a place, of which there may be none, and another.
fn take_earlier(best: Option<Place>, place: Place) -> Place
    ensures { Some result ≡ earlier_of best place }
{
    match best {
        Some(other) if !is_before(place, other) => other,
        _ => place,
    }
}

/// Whether a place is before another: by file, then by token.
fn is_before(place: Place, other: Place) -> bool
    ensures { result ≡ is_before_of place other }
{
    place.file < other.file || (place.file == other.file && place.token < other.token)
}
