//! Modules of the project that are used behind the opening of a module from outside.
ghost use Rattle.std.specs.Prelude.{◌≡◌, ◌++◌, ◌∷◌, ◌+◌, ◌≤◌, [], All, IfOk, OnOk, cond, false, length, map};
ghost use Rattle.rotor_base.specs.Limits.{max_file_bytes};
ghost use Rattle.ml_lexer.specs.Lexed.{view_token, view_tokens};
ghost use Rattle.ml_trees.specs.View.{view_part_of, view_unit};
ghost use Rattle.module_openings.specs.Named.{view_linked, view_meant, view_names};
ghost use Rattle.module_openings.specs.Sources.{lexemes_of};
ghost use Rattle.module_openings.specs.Opened.{depth_behind as depth_behind_of, is_first as is_first_of, is_head as is_head_of, linked_unit, opened_file, opened_in, opened_modules, opened_source, opened_units, part_lexemes, use_at, uses_behind, uses_of};

use crate::lexemes::{begins_nest, ends_nest, is_upper, is_word};
use crate::name_list::NameList;
use crate::names::{Linked, Meant, Names, is_meant, push_declared, push_modules, push_types};
use crate::opening::{Opening, Site};
use crate::openings::{behind_head, brings, count_skipped, ends, opening_at, opens_outside};
use crate::sources::file_number;
use ml_trees::{FileTree, UnitTree};
use rotor_base::{Memory, Name, Place, Token};
use std::alloc::Global;

/// The use of a module behind an opening.
#[derive(Drop)]
pub struct OpenedUse {
    pub at: Place,
    pub name: Name,
    /// The place of the opening.
    pub by: Place,
}

/// The first use of each module of the project behind each opening of a module from outside, of units in link order,
/// over the tokens of the sources. The one error is want of memory.
pub fn opened_uses(
    alloc: Global,
    sources: &[Vec<Token<'_>>],
    units: &[UnitTree],
) -> Result<Vec<OpenedUse>, Memory>
    requires { All (λ list. length list.items ≤ max_file_bytes) sources.now }
    ensures { IfOk result (λ found. found.items ≡ opened_modules (map (λ list. view_tokens list.items) sources.now) (map view_unit units.now)) }
{
    let mut found = Vec::new(alloc);
    let mut linked = Linked {
        units: NameList::new(alloc),
        nested: NameList::new(alloc),
    };
    let mut rest = units;
    while let [unit, behind @ ..] = rest {
        add_file(alloc, &mut found, &linked, sources, &unit.body)?;
        add_file(alloc, &mut found, &linked, sources, &unit.face)?;
        pass_unit(alloc, &mut linked, sources, unit)?;
        rest = behind;
    }
    Ok(found)
}

/// Adds those of a file.
fn add_file(
    alloc: Global,
    found: &mut Vec<OpenedUse>,
    linked: &Linked,
    sources: &[Vec<Token<'_>>],
    file: &Option<FileTree>,
) -> Result<(), Memory>
    requires { All (λ list. length list.items ≤ max_file_bytes) sources.now }
    ensures { OnOk result (found.new.items ≡ found.old.items ++ opened_file (map (λ list. view_tokens list.items) sources.now) (view_linked linked.now) (view_part_of file.now)) }
{
    match file {
        Some(tree) => {
            let file = file_number(tree);
            add_source(alloc, found, linked, file, tokens_of(sources, file))
        }
        None => Ok(()),
    }
}

/// The tokens of the source of a number.
fn tokens_of<'a, 'b>(sources: &'a [Vec<Token<'b>>], file: u32) -> &'a [Token<'b>]
    requires { All (λ list. length list.items ≤ max_file_bytes) sources.now }
    ensures value { view_tokens result.now ≡ lexemes_of (map (λ list. view_tokens list.items) sources.now) file }
    ensures few { length result.now ≤ max_file_bytes }
{
    let at = file as usize;
    if at < sources.len() {
        sources[at].as_slice()
    } else {
        &[]
    }
}

/// The tokens of a file of a unit.
fn part_tokens<'a, 'b>(sources: &'a [Vec<Token<'b>>], file: &Option<FileTree>) -> &'a [Token<'b>]
    requires { All (λ list. length list.items ≤ max_file_bytes) sources.now }
    ensures { view_tokens result.now ≡ part_lexemes (map (λ list. view_tokens list.items) sources.now) (view_part_of file.now) }
{
    match file {
        Some(tree) => tokens_of(sources, file_number(tree)),
        None => &[],
    }
}

/// Adds the names of a unit to those that are linked before.
fn pass_unit(
    alloc: Global,
    linked: &mut Linked,
    sources: &[Vec<Token<'_>>],
    unit: &UnitTree,
) -> Result<(), Memory>
    requires { All (λ list. length list.items ≤ max_file_bytes) sources.now }
    ensures { OnOk result (view_linked linked.new ≡ linked_unit (map (λ list. view_tokens list.items) sources.now) (view_linked linked.old) (view_unit unit.now)) }
{
    let body = part_tokens(sources, &unit.body);
    let face = part_tokens(sources, &unit.face);
    linked.units.push(alloc, unit.name.as_bytes())?;
    push_modules(alloc, &mut linked.nested, body)?;
    push_modules(alloc, &mut linked.nested, face)
}

/// Adds those of a source, by its number and its tokens.
fn add_source(
    alloc: Global,
    found: &mut Vec<OpenedUse>,
    linked: &Linked,
    file: u32,
    tokens: &[Token<'_>],
) -> Result<(), Memory>
    requires { length tokens.now ≤ max_file_bytes }
    ensures { OnOk result (found.new.items ≡ found.old.items ++ opened_source (view_linked linked.now) file (view_tokens tokens.now)) }
{
    let mut types = NameList::new(alloc);
    push_types(alloc, &mut types, tokens)?;
    add_openings(alloc, found, &Names { linked, types }, file, tokens)
}

/// Adds those of a source over the names at it.
fn add_openings(
    alloc: Global,
    found: &mut Vec<OpenedUse>,
    names: &Names<'_>,
    file: u32,
    tokens: &[Token<'_>],
) -> Result<(), Memory>
    requires { length tokens.now ≤ max_file_bytes }
    ensures { OnOk result (found.new.items ≡ found.old.items ++ opened_in (view_names names.now) file [] false [] 1 (view_tokens tokens.now)) }
{
    let mut locals = NameList::new(alloc);
    let mut brought = false;
    let mut before: &[u8] = b"";
    let mut number: u32 = 1;
    let mut rest = tokens;
    while let [token, behind @ ..] = rest {
        let at = Place {
            file,
            token: number,
        };
        let opening = opening_at(before, token, behind);
        let meant = Meant {
            names: &*names,
            locals: &locals,
            brought,
        };
        add_uses(alloc, found, &meant, at, token, behind, opening)?;
        brought = brought || brings(names, &locals, opening, token, behind);
        push_declared(alloc, &mut locals, token, behind)?;
        before = token.bytes;
        number += 1;
        rest = behind;
    }
    Ok(())
}

/// Adds those behind the opening at a token, if it is one of a path from outside.
fn add_uses<'a, 'b>(
    alloc: Global,
    found: &mut Vec<OpenedUse>,
    meant: &Meant<'_, '_>,
    at: Place,
    token: &'a Token<'b>,
    behind: &'a [Token<'b>],
    opening: Option<Opening>,
) -> Result<(), Memory>
    requires { at.token + length behind.now ≤ max_file_bytes }
    ensures { OnOk result (found.new.items ≡ found.old.items ++ uses_behind (view_meant meant.now) at (view_token token.now) (view_tokens behind.now) opening) }
{
    match opening {
        Some(opening) if opens_outside(meant.names, meant.locals, opening, token, behind) => {
            add_uses_of(alloc, found, meant, Site { at, opening }, token, behind)
        }
        Some(_) | None => Ok(()),
    }
}

/// Adds those behind a site, which begins at a token.
fn add_uses_of<'a, 'b>(
    alloc: Global,
    found: &mut Vec<OpenedUse>,
    meant: &Meant<'_, '_>,
    site: Site,
    token: &'a Token<'b>,
    behind: &'a [Token<'b>],
) -> Result<(), Memory>
    requires { site.at.token + length behind.now ≤ max_file_bytes }
    ensures { OnOk result (found.new.items ≡ found.old.items ++ uses_of (view_meant meant.now) site (view_token token.now) (view_tokens behind.now)) }
{
    let mut inner = NameList::new(alloc);
    let mut seen = NameList::new(alloc);
    let mut depth = 0;
    let mut last = token;
    let mut number = site.at.token + 1 + count_skipped(site.opening, behind);
    let mut rest = behind_head(site.opening, behind);
    while let [token, behind @ ..] = rest {
        if ends(meant, &inner, site.opening, depth, last, token, behind) {
            return Ok(());
        }
        let is_first = is_first(&seen, last, token);
        let is_use = is_first && is_meant(meant, token.bytes);
        push_use(alloc, found, site, number, token.bytes, is_use)?;
        push_seen(alloc, &mut seen, token.bytes, is_first)?;
        push_declared(alloc, &mut inner, token, behind)?;
        depth = depth_behind(depth, token);
        last = token;
        number += 1;
        rest = behind;
    }
    Ok(())
}

/// Whether a token behind another is the name of a module or a constructor that is no step of a path and is not
/// declared here.
fn is_head(last: &Token<'_>, token: &Token<'_>) -> bool
    ensures { result ≡ is_head_of (view_token last.now) (view_token token.now) }
{
    is_upper(token) && !(is_word(last, b".") || is_word(last, b"module") || is_word(last, b"type"))
}

/// Whether it is the first of its name.
fn is_first(seen: &NameList, last: &Token<'_>, token: &Token<'_>) -> bool
    ensures { result ≡ is_first_of seen.now (view_token last.now) (view_token token.now) }
{
    is_head(last, token) && !seen.contains(token.bytes)
}

/// Adds a use at a token of this number, if it is one.
fn push_use(
    alloc: Global,
    found: &mut Vec<OpenedUse>,
    site: Site,
    number: u32,
    name: &[u8],
    is_use: bool,
) -> Result<(), Memory>
    ensures { OnOk result (found.new.items ≡ found.old.items ++ use_at site number name.now is_use) }
{
    if is_use {
        let at = Place {
            file: site.at.file,
            token: number,
        };
        let name = Name::new(alloc, name)?;
        found.push(OpenedUse {
            at,
            name,
            by: site.at,
        })?;
    }
    Ok(())
}

/// Adds a name, if it is the first one.
fn push_seen(alloc: Global, seen: &mut NameList, name: &[u8], is_first: bool) -> Result<(), Memory>
    ensures { OnOk result (seen.new ≡ cond is_first (seen.old ++ name.now ∷ []) seen.old) }
{
    if is_first {
        seen.push(alloc, name)?;
    }
    Ok(())
}

/// How many brackets are open behind a token.
fn depth_behind(depth: usize, token: &Token<'_>) -> usize
    requires { depth ≤ max_file_bytes }
    ensures { result ≡ depth_behind_of depth (view_token token.now) }
{
    if begins_nest(token) {
        depth + 1
    } else if ends_nest(token) {
        depth.saturating_sub(1)
    } else {
        depth
    }
}
