//! All places at which OCaml may read a project otherwise.
ghost use Rattle.std.specs.Prelude.{◌≡◌, ◌++◌, ◌≤◌, All, IfOk, OnOk, is_some, length, map};
ghost use Rattle.rotor_base.specs.Limits.{max_file_bytes, max_sources};
ghost use Rattle.ml_lexer.specs.Lexed.{view_tokens};
ghost use Rattle.ml_trees.specs.View.{view_project, view_unit};
ghost use Rattle.binding_model.specs.Facts.{in_order};
ghost use Rattle.project_reading.specs.Sources.{AreCut};
ghost use Rattle.reading_differences.specs.Comments.{comments_in};
ghost use Rattle.module_openings.specs.Sources.{lexemes_of};
ghost use Rattle.module_openings.specs.Opened.{opened_modules};
ghost use Rattle.reading_differences.specs.Differences.{applications, comments, differences_of, found_among, late_if, opened_use as opened_use_of};

use crate::applied::add_applications;
use crate::comments::add_comments;
use crate::difference::{Difference, Indexed, Parting};
use crate::indexed::add_indexing;
use crate::late::add_late_needs;
use crate::standard::add_standard;
use ml_trees::UnitTree;
use module_openings::{OpenedUse, opened_uses};
use project_reading::Read;
use rotor_base::{Files, Memory, Name, Row, SourceFile, Token};
use std::alloc::Global;

/// The places at which OCaml may read a project otherwise, in order, over the files and what they are read as. The one
/// error is want of memory.
#[tactic(auto, using(crate::proofs::Cuts::short_lists, crate::proofs::Cuts::as_many))]
pub fn differences(alloc: Global, files: &Files, read: &Read<'_>) -> Result<Row<Difference>, Memory>
    requires { AreCut files.now.entries (map (λ list. view_tokens list.items) read.now.tokens.items) }
    ensures { IfOk result (λ list. list ≡ differences_of files.now (view_project read.now.project) (map (λ list. view_tokens list.items) read.now.tokens.items)) }
{
    let found = found_differences(
        alloc,
        is_listed(files),
        files.entries(),
        read.tokens.as_slice(),
        read.project.units.as_slice(),
    )?;
    sort_differences(found)
}

/// Whether a list of units gives the order of the files.
fn is_listed(files: &Files) -> bool
    ensures { result ≡ is_some files.now.manifest }
{
    files.manifest().is_some()
}

/// The places of all kinds, over the files, their tokens and the units in link order.
fn found_differences(
    alloc: Global,
    is_listed: bool,
    files: &[SourceFile],
    sources: &[Vec<Token<'_>>],
    units: &[UnitTree],
) -> Result<Vec<Difference>, Memory>
    requires few { length files.now ≤ max_sources }
    requires each { length sources.now ≡ length files.now }
    requires short { All (λ list. length list.items ≤ max_file_bytes) sources.now }
    requires small { All (λ file. length file.bytes ≤ max_file_bytes) files.now }
    ensures { IfOk result (λ found. found.items ≡ found_among is_listed files.now (map view_unit units.now) (map (λ list. view_tokens list.items) sources.now)) }
{
    let mut found = Vec::new(alloc);
    add_indexing(alloc, &mut found, Indexed::Array, sources, units)?;
    add_indexing(alloc, &mut found, Indexed::String, sources, units)?;
    add_opened(alloc, &mut found, sources, units)?;
    add_all_applications(alloc, &mut found, sources)?;
    add_all_comments(&mut found, files, sources)?;
    add_listed(alloc, &mut found, is_listed, sources, units)?;
    add_standard(&mut found, sources, units)?;
    Ok(found)
}

/// Adds the units that are linked behind a unit that needs them, if a list of units gives their order.
fn add_listed(
    alloc: Global,
    found: &mut Vec<Difference>,
    is_listed: bool,
    sources: &[Vec<Token<'_>>],
    units: &[UnitTree],
) -> Result<(), Memory>
    requires { All (λ list. length list.items ≤ max_file_bytes) sources.now }
    ensures { OnOk result (found.new.items ≡ found.old.items ++ late_if is_listed (map (λ list. view_tokens list.items) sources.now) (map view_unit units.now)) }
{
    if is_listed {
        return add_late_needs(alloc, found, sources, units);
    }
    Ok(())
}

/// Adds the modules that are used behind the opening of a module from outside.
fn add_opened(
    alloc: Global,
    found: &mut Vec<Difference>,
    sources: &[Vec<Token<'_>>],
    units: &[UnitTree],
) -> Result<(), Memory>
    requires { All (λ list. length list.items ≤ max_file_bytes) sources.now }
    ensures { OnOk result (found.new.items ≡ found.old.items ++ map opened_use_of (opened_modules (map (λ list. view_tokens list.items) sources.now) (map view_unit units.now))) }
{
    let opened = opened_uses(alloc, sources, units)?;
    for used in &opened {
        found.push(opened_use(alloc, used)?)?;
    }
    Ok(())
}

/// The use of a module behind an opening.
fn opened_use(alloc: Global, used: &OpenedUse) -> Result<Difference, Memory>
    ensures { IfOk result (λ difference. difference ≡ opened_use_of used.now) }
{
    let how = Parting::Opened {
        name: Name::new(alloc, used.name.as_bytes())?,
        by: used.by,
    };
    Ok(Difference { at: used.at, how })
}

/// Adds the functors that are applied in types, of the sources in order.
fn add_all_applications(
    alloc: Global,
    found: &mut Vec<Difference>,
    sources: &[Vec<Token<'_>>],
) -> Result<(), Memory>
    requires few { length sources.now ≤ max_sources }
    requires short { All (λ list. length list.items ≤ max_file_bytes) sources.now }
    ensures { OnOk result (found.new.items ≡ found.old.items ++ applications 0 (map (λ list. view_tokens list.items) sources.now)) }
{
    let mut file: u32 = 0;
    for tokens in sources {
        add_applications(alloc, found, file, tokens)?;
        file += 1;
    }
    Ok(())
}

/// Adds the quotes behind names in comments, of the sources in order.
fn add_all_comments(
    found: &mut Vec<Difference>,
    files: &[SourceFile],
    sources: &[Vec<Token<'_>>],
) -> Result<(), Memory>
    requires few { length files.now ≤ max_sources }
    requires short { All (λ list. length list.items ≤ max_file_bytes) sources.now }
    requires small { All (λ file. length file.bytes ≤ max_file_bytes) files.now }
    ensures { OnOk result (found.new.items ≡ found.old.items ++ comments (map (λ list. view_tokens list.items) sources.now) 0 files.now) }
{
    let mut file: u32 = 0;
    for source in files {
        add_source_comments(found, file, source, sources)?;
        file += 1;
    }
    Ok(())
}

/// Adds the quotes behind names in comments, of the source of a number.
fn add_source_comments(
    found: &mut Vec<Difference>,
    file: u32,
    source: &SourceFile,
    sources: &[Vec<Token<'_>>],
) -> Result<(), Memory>
    requires short { All (λ list. length list.items ≤ max_file_bytes) sources.now }
    requires small { length source.now.bytes ≤ max_file_bytes }
    ensures { OnOk result (found.new.items ≡ found.old.items ++ comments_in file source.now.bytes 0 0 (lexemes_of (map (λ list. view_tokens list.items) sources.now) file)) }
{
    let bytes = source.bytes.as_slice();
    match sources.get(file as usize) {
        Some(tokens) => add_comments(found, file, bytes, tokens),
        None => add_comments(found, file, bytes, &[]),
    }
}

/// The differences in the order of their places.
fn sort_differences(mut found: Vec<Difference>) -> Result<Row<Difference>, Memory>
    ensures { IfOk result (λ list. list ≡ in_order (λ difference. difference.at) found.items) }
{
    found.sort_by_key(|difference| difference.at)?;
    Ok(Row::from_vec(found))
}
