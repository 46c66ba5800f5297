//! The answers to queries on a value.
ghost use Rattle.std.specs.Prelude.{◌≡◌, IfOk, Some, false, map};
ghost use Rattle.lsp_answers.specs.Plain.{IsPlain};
ghost use Rattle.ml_trees.specs.View.{view_project};
ghost use Rattle.refusal_words.specs.Cut.{view_cut};
ghost use Rattle.requests.specs.Asked.{query_words};
ghost use Rattle.value_at.specs.Value.{IsValueAt};
ghost use Rattle.value_at.specs.declared.value.ValueAt.TheVariants as value;
ghost use Rattle.document_scene.specs.Scene.{view_scene};
ghost use Rattle.document_answers.specs.Known.{IsKnown};
ghost use Rattle.document_answers.specs.Value.{ArePlaces, RepliesNothing, RepliesToken, RepliesValue, is_nameless, is_word as is_word_at, is_word_class as is_word_class_of, is_word_of, prepared as prepared_of};

use crate::over::Around;
use crate::renaming::renaming_reply;
use dependency_kernel::footprint;
use document_scene::{highlights_of, location_at, locations_of, range_at};
use lsp_answers::{Answer, Reply};
use query_failures::valueless_failure;
use refusal_words::{CutSource, word_at};
use requests::Query;
use rotor_base::{Class, Facts, Memory, Name, Place};
use std::alloc::Global;
use value_at::{ValueAt, ValuePlace, places_of, value_at};

/// The reply to a query at a token. A renaming has a new name.
pub(crate) fn token_reply(
    alloc: Global,
    around: Around<'_>,
    place: Place,
    query: Query<&str>,
) -> Result<Reply, Memory>
    requires known { IsKnown around }
    requires named { is_nameless (query_words query) ≡ false }
    ensures reply { IfOk result (RepliesToken around.entry.files.now (view_project around.entry.read.now.project) (view_scene around.entry.scene) around.entry.has_versions place (query_words query.entry)) }
    ensures plain { IfOk result IsPlain }
{
    let found = value_at(alloc, &around.read.project, &around.resolved.facts, place)?;
    match found {
        ValueAt::Value(declared) => value_reply(alloc, around, place, declared, query),
        _ => nothing_reply(alloc, around.scene.cuts, Some(place), found, query),
    }
}

/// The reply to a query where no value is.
pub(crate) fn nothing_reply(
    alloc: Global,
    cuts: &[CutSource<'_>],
    place: Option<Place>,
    found: ValueAt,
    query: Query<&str>,
) -> Result<Reply, Memory>
    ensures reply { IfOk result (RepliesNothing (map view_cut cuts.now) place found (query_words query.entry)) }
    ensures plain { IfOk result IsPlain }
{
    match query {
        Query::Rename { .. } => Ok(Err(valueless_failure(alloc, cuts, place, found)?)),
        _ => Ok(Ok(Answer::Nothing)),
    }
}

/// The reply to a query at a token that declares or uses the value of a declaration.
fn value_reply(
    alloc: Global,
    around: Around<'_>,
    place: Place,
    declared: Place,
    query: Query<&str>,
) -> Result<Reply, Memory>
    requires known { IsKnown around }
    requires value { IsValueAt (view_project around.read.now.project) place (value.Value declared) }
    requires named { is_nameless (query_words query) ≡ false }
    ensures reply { IfOk result (RepliesValue around.entry.files.now (view_project around.entry.read.now.project) (view_scene around.entry.scene) around.entry.has_versions place declared (query_words query.entry)) }
    ensures plain { IfOk result IsPlain }
{
    match query {
        Query::PrepareRename => Ok(Ok(prepare_word(alloc, around, place)?)),
        Query::Rename { name: Some(name) } => {
            renaming_reply(alloc, around, place, declared, name.as_bytes())
        }
        Query::Rename { name: None } => unreachable!(),
        Query::References { with_declarations } => {
            let places = value_places(alloc, &around.resolved.facts, declared)?;
            let locations = locations_of(alloc, around.scene, &places, with_declarations)?;
            Ok(Ok(Answer::References(locations)))
        }
        Query::Definition => {
            let location = location_at(alloc, around.scene, declared)?;
            Ok(Ok(Answer::Definition(location)))
        }
        Query::DocumentHighlight => {
            let places = value_places(alloc, &around.resolved.facts, declared)?;
            let highlights = highlights_of(alloc, around.scene, &places, place.file)?;
            Ok(Ok(Answer::Highlights(highlights)))
        }
    }
}

/// The places of the footprint of a declaration.
fn value_places(alloc: Global, facts: &Facts, declared: Place) -> Result<Vec<ValuePlace>, Memory>
    ensures { IfOk result (λ places. ArePlaces facts.now declared places.items) }
{
    let foot = footprint(alloc, facts, declared)?;
    places_of(alloc, facts, &foot)
}

/// The word of a token that a renaming would replace; of an operator, nothing.
fn prepare_word(alloc: Global, around: Around<'_>, place: Place) -> Result<Answer, Memory>
    ensures { IfOk result (λ answer. answer ≡ prepared_of (view_scene around.entry.scene) place) }
{
    let cuts = around.scene.cuts;
    if !is_word(cuts, place) {
        return Ok(Answer::Nothing);
    }
    Ok(Answer::Word {
        range: range_at(around.scene, place),
        word: Name::new(alloc, word_at(cuts, place))?,
    })
}

/// Whether a token is a lower-case word or a label.
fn is_word(cuts: &[CutSource<'_>], place: Place) -> bool
    ensures { result ≡ is_word_at (map view_cut cuts.now) place }
{
    match cuts.get(place.file as usize) {
        Some(cut) => is_word_in(cut, place.token),
        None => false,
    }
}

/// Whether the token of a number, from 1, is one.
fn is_word_in(cut: &CutSource<'_>, number: u32) -> bool
    ensures { result ≡ is_word_of (Some (view_cut cut.now)) number }
{
    match cut.tokens.get(number.saturating_sub(1) as usize) {
        Some(token) => is_word_class(token.class),
        None => false,
    }
}

/// Whether a class is that of lower-case words or of labels.
fn is_word_class(class: Class) -> bool
    ensures { result ≡ is_word_class_of class }
{
    match class {
        Class::Lower | Class::Label => true,
        _ => false,
    }
}
