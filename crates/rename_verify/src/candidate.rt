//! The candidate: the renaming that the words of the new sources suggest.

ghost use Rattle.std.specs.Prelude.{◌≡◌, ◌≤◌, All, IfOk, OnOk, length, map, [], ◌++◌, ◌∷◌, bytes_eq, if◌then◌else◌};
ghost use Rattle.std.specs.Option.{option_copied};
ghost use Rattle.rotor_base.specs.Limits.{max_file_bytes};
ghost use Rattle.ml_lexer.specs.Lexed.{view_tokens};
ghost use Rattle.rename_verify.specs.Candidate.{AreLexemes, AreLexemesOf, candidate, changes, given_name, if_lower, word_at};
ghost use Rattle.rename_survey.specs.Listed.{binders_in};
ghost use Rattle.rename_verify.specs.Steps.{IsSuggestedFor};

use crate::verdict::Change;
use ml_lexer::{LexError, lex};
use rename_survey::{Binder, list_binders};
use rotor_base::{Class, Files, Memory, Name, Place, SourceFile, Token};
use std::alloc::Global;
use value_places::PlacedProject;

/// What the words of new sources suggest: a name for each binder, and the binders that take another one.
#[derive(Drop)]
pub struct Suggested {
    pub names: Vec<(Place, Name)>,
    pub changes: Vec<Change>,
}

/// What the words of new files suggest for the binders of a project. `Memory` is the only error.
pub fn suggest(alloc: Global, placed: &PlacedProject<'_>, new: &Files) -> Result<Suggested, Memory>
    ensures { IfOk result (λ found. IsSuggestedFor (binders_in placed.now) new.now found.names.items found.changes.items) }
{
    let binders = list_binders(alloc, placed)?;
    let lists = lex_all(alloc, new.entries())?;
    name_binders(alloc, &binders, &lists)
}

/// The lexemes of each source: none for a source that is not cut into lexemes. `Memory` is the only error.
fn lex_all<'a>(alloc: Global, sources: &'a [SourceFile]) -> Result<Vec<Vec<Token<'a>>>, Memory>
    requires { All (λ file. length file.bytes ≤ max_file_bytes) sources.now }
    ensures { IfOk result (λ lists. AreLexemesOf sources.now (map (λ list. view_tokens list.items) lists.items)) }
{
    let mut lists = Vec::new(alloc);
    for source in sources {
        lists.push(lex_source(alloc, source)?)?;
    }
    Ok(lists)
}

/// The lexemes of a source: none if it is not cut into lexemes.
fn lex_source<'a>(alloc: Global, source: &'a SourceFile) -> Result<Vec<Token<'a>>, Memory>
    requires { length source.now.bytes ≤ max_file_bytes }
    ensures { IfOk result (λ tokens. AreLexemes source.now.bytes (view_tokens tokens.items)) }
{
    match lex(alloc, source.bytes.as_slice()) {
        Ok(tokens) => Ok(tokens),
        Err(LexError::Bad { offset: _ }) => Ok(Vec::new(alloc)),
        Err(LexError::LongName { offset: _ }) => Ok(Vec::new(alloc)),
        Err(LexError::Memory) => Err(Memory),
    }
}

/// The candidate's name for each binder, and the binders that it changes. `Memory` is the only error.
fn name_binders(
    alloc: Global,
    binders: &[Binder],
    lists: &[Vec<Token>],
) -> Result<Suggested, Memory>
    ensures names { IfOk result (λ found. found.names.items ≡ candidate (map (λ list. view_tokens list.items) lists.now) binders.now) }
    ensures changes { IfOk result (λ found. found.changes.items ≡ changes (map (λ list. view_tokens list.items) lists.now) binders.now) }
{
    let mut names = Vec::new(alloc);
    let mut changes = Vec::new(alloc);
    for binder in binders {
        let name = given_name(alloc, binder, lists)?;
        add_change(alloc, &mut changes, binder, &name)?;
        names.push((binder.at, name))?;
    }
    Ok(Suggested { names, changes })
}

/// Adds a binder with its new name, if it is another one.
fn add_change(
    alloc: Global,
    list: &mut Vec<Change>,
    binder: &Binder,
    new: &Name,
) -> Result<(), Memory>
    ensures { OnOk result (list.new.items ≡ (if bytes_eq binder.now.name new.now then list.old.items else list.old.items ++ (binder.now.at, binder.now.name, new.now) ∷ [])) }
{
    let (old, new) = (binder.name.as_bytes(), new.as_bytes());
    if old == new {
        return Ok(());
    }
    let (old, new) = (Name::new(alloc, old)?, Name::new(alloc, new)?);
    list.push((binder.at, old, new))?;
    Ok(())
}

/// The candidate's name for a binder: the word of the same token, and its own name if there is none, or if it is an
/// operator or its word is a label or a field too. `Memory` is the only error.
fn given_name(alloc: Global, binder: &Binder, lists: &[Vec<Token>]) -> Result<Name, Memory>
    ensures { IfOk result (λ name. name ≡ given_name (map (λ list. view_tokens list.items) lists.now) binder.now) }
{
    if binder.operator || binder.pun {
        return Name::new(alloc, binder.name.as_bytes());
    }
    match word_at(lists, binder.at) {
        Some(word) => Name::new(alloc, word),
        None => Name::new(alloc, binder.name.as_bytes()),
    }
}

/// The lower-case word at a place, if there is one.
fn word_at<'a>(lists: &[Vec<Token<'a>>], at: Place) -> Option<&'a [u8]>
    ensures { option_copied result ≡ word_at (map (λ list. view_tokens list.items) lists.now) at }
{
    let tokens = lists.get(at.file as usize)?;
    let before = at.token.checked_sub(1)?;
    let token = tokens.get(before as usize)?;
    lower_word(token)
}

/// The text of a token that is a lower-case word.
fn lower_word<'a>(token: &Token<'a>) -> Option<&'a [u8]>
    ensures { option_copied result ≡ if_lower token.now.class token.now.bytes.now }
{
    match token.class {
        Class::Lower => Some(token.bytes),
        _ => None,
    }
}
