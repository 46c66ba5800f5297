//! The sentences of renamings that would change what a name means.
ghost use Rattle.std.specs.Prelude.{◌≡◌, ◌++◌, IfOk, OnOk, map};
ghost use Rattle.std.specs.List.{list_any};
ghost use Rattle.rotor_base.specs.Place.{same_place};
ghost use Rattle.refusal_words.specs.Cut.{view_cut};
ghost use Rattle.refusal_words.specs.Captured.{article as article_of, capture as capture_of, capture_help as capture_help_of, captured as captured_of, captured_use as captured_use_of, choose_other as choose_other_of, found_place as found_place_of, goal_notes as goal_notes_of, is_declared as is_declared_of, link_text as link_text_of, meaning_text as meaning_text_of, mislink as mislink_of, of_place as of_place_of, other_use as other_use_of, own_use as own_use_of, place_notes as place_notes_of, then_text as then_text_of};

use crate::cut::CutSource;
use crate::parts::{help, make_error_at, note_at, text, wrap_word};
use crate::stretches::{place_spot, word_at};
use crate::target::the_value;
use messages::{Kind, Message, Note, join_words, spot_text};
use rotor_base::{Goal, Memory, Place, Row};
use std::alloc::Global;

/// The message of a use that would change its meaning, in a renaming of these declarations. The one error is want of
/// memory.
pub fn capture(
    alloc: Global,
    cuts: &[CutSource<'_>],
    decls: &[Place],
    at: Place,
    was: Goal,
    would: Goal,
) -> Result<Message, Memory>
    ensures { IfOk result (λ message. message ≡ capture_of (map view_cut cuts.now) decls.now at was would) }
{
    match own_use(decls, was, would) {
        Some((old, new)) => captured_use(alloc, cuts, at, old, new),
        None => explain_captured(alloc, cuts, at, was, would),
    }
}

/// The declaration that a use of the renamed value means, and the other one that it would mean.
fn own_use(decls: &[Place], was: Goal, would: Goal) -> Option<(Place, Place)>
    ensures { result ≡ own_use_of decls.now was would }
{
    match was {
        Goal::Decl(old) => other_use(decls, old, would),
        Goal::Outside | Goal::Missing | Goal::Hidden | Goal::Blur { .. } => None,
    }
}

/// A declaration, if it is renamed, and the other one that its use would mean.
fn other_use(decls: &[Place], old: Place, would: Goal) -> Option<(Place, Place)>
    ensures { result ≡ other_use_of decls.now old would }
{
    match would {
        Goal::Decl(new) => {
            if is_among(decls, old) {
                Some((old, new))
            } else {
                None
            }
        }
        Goal::Outside | Goal::Missing | Goal::Hidden | Goal::Blur { .. } => None,
    }
}

/// Whether a place is one of some places.
fn is_among(places: &[Place], place: Place) -> bool
    ensures { result ≡ list_any (λ other. same_place other place) places.now }
{
    places.iter().any(|other| *other == place)
}

/// The message of a use of the renamed value that would mean another one.
fn captured_use(
    alloc: Global,
    cuts: &[CutSource<'_>],
    at: Place,
    was: Place,
    would: Place,
) -> Result<Message, Memory>
    ensures { IfOk result (λ message. message ≡ captured_use_of (map view_cut cuts.now) at was would) }
{
    let name = word_at(cuts, would);
    let old = the_value(alloc, cuts, "this use of the ", was)?;
    let new = the_value(alloc, cuts, " would mean the ", would)?;
    let text = join_words(
        alloc,
        &[b"called `", name, b"`, ", old.as_slice(), new.as_slice()],
    )?;
    let spot = place_spot(alloc, cuts, at)?;
    let mut notes = Vec::new(alloc);
    notes.push(note_at(alloc, cuts, was, "it means this now")?)?;
    notes.push(note_at(alloc, cuts, would, "it would mean this")?)?;
    let help = choose_other(alloc, name)?;
    Ok(make_error_at(Kind::Capture, text, spot, Row::from_vec(notes), Some(help)))
}

/// The help to choose another name or to rename the other value of this name.
fn choose_other(alloc: Global, name: &[u8]) -> Result<Row<u8>, Memory>
    ensures { IfOk result (λ text. text ≡ choose_other_of name.now) }
{
    let begin = "choose another name, or rename the other `";
    wrap_word(alloc, begin, name, "` first")
}

/// The message of another use that would mean the renamed value.
fn explain_captured(
    alloc: Global,
    cuts: &[CutSource<'_>],
    at: Place,
    was: Goal,
    would: Goal,
) -> Result<Message, Memory>
    ensures { IfOk result (λ message. message ≡ captured_of (map view_cut cuts.now) at was would) }
{
    let now = meaning_text(alloc, cuts, was)?;
    let then = then_text(alloc, cuts, would)?;
    let text = join_words(
        alloc,
        &[
            b"this `",
            word_at(cuts, at),
            b"` ",
            now.as_slice(),
            b"; ",
            then.as_slice(),
        ],
    )?;
    let spot = place_spot(alloc, cuts, at)?;
    let mut notes = Vec::new(alloc);
    add_goal_note(alloc, cuts, &mut notes, was, "it means this now")?;
    add_note(
        alloc,
        cuts,
        &mut notes,
        found_place(would),
        "it would mean this",
    )?;
    let help = capture_help(alloc, was, word_at(cuts, at))?;
    Ok(make_error_at(Kind::Capture, text, spot, Row::from_vec(notes), help))
}

/// A text, the place of a token, and a text behind it.
fn name_place<'a>(
    alloc: Global,
    cuts: &[CutSource<'_>],
    before: &'a str,
    place: Place,
    behind: &'a str,
) -> Result<Row<u8>, Memory>
    ensures { IfOk result (λ text. text ≡ of_place_of (map view_cut cuts.now) before.entry.now place behind.entry.now) }
{
    let spot = place_spot(alloc, cuts, place)?;
    let at = spot_text(alloc, &spot)?;
    join_words(
        alloc,
        &[before.as_bytes(), at.as_slice(), behind.as_bytes()],
    )
}

/// What a use means, with its verb.
fn meaning_text(alloc: Global, cuts: &[CutSource<'_>], goal: Goal) -> Result<Row<u8>, Memory>
    ensures { IfOk result (λ text. text ≡ meaning_text_of (map view_cut cuts.now) goal) }
{
    match goal {
        Goal::Decl(place) => the_value(alloc, cuts, "means the ", place),
        Goal::Outside => text(alloc, "means a value outside the folder"),
        Goal::Missing => text(alloc, "means no value of its module"),
        Goal::Hidden => text(alloc, "means a hidden value"),
        Goal::Blur { by, .. } => {
            let begin = "may mean a value of the module opened at ";
            name_place(alloc, cuts, begin, by, "")
        }
    }
}

/// What a use would mean after the renaming, with its verb.
fn then_text(alloc: Global, cuts: &[CutSource<'_>], goal: Goal) -> Result<Row<u8>, Memory>
    ensures { IfOk result (λ text. text ≡ then_text_of (map view_cut cuts.now) goal) }
{
    match goal {
        Goal::Decl(place) => the_value(alloc, cuts, "it would mean the renamed ", place),
        Goal::Blur {
            behind: Some(place),
            ..
        } => the_value(alloc, cuts, "it might mean the renamed ", place),
        Goal::Blur { behind: None, .. } | Goal::Outside | Goal::Missing | Goal::Hidden => {
            text(alloc, "it might mean another value")
        }
    }
}

/// The declaration that a use would mean, or might mean, after the renaming.
fn found_place(goal: Goal) -> Option<Place>
    ensures { result ≡ found_place_of goal }
{
    match goal {
        Goal::Decl(place) => Some(place),
        Goal::Blur { behind, .. } => behind,
        Goal::Outside | Goal::Missing | Goal::Hidden => None,
    }
}

/// Adds what is said of the place of a goal, if it has one.
fn add_goal_note(
    alloc: Global,
    cuts: &[CutSource<'_>],
    notes: &mut Vec<Note>,
    goal: Goal,
    words: &str,
) -> Result<(), Memory>
    ensures { OnOk result (notes.new.items ≡ notes.old.items ++ goal_notes_of (map view_cut cuts.now) goal words.now) }
{
    match goal {
        Goal::Decl(place) => add_note(alloc, cuts, notes, Some(place), words),
        Goal::Blur { by, .. } => add_note(
            alloc,
            cuts,
            notes,
            Some(by),
            "opened or included here, from outside the folder",
        ),
        Goal::Outside | Goal::Missing | Goal::Hidden => add_note(alloc, cuts, notes, None, words),
    }
}

/// Adds what is said of a place, if there is one.
fn add_note(
    alloc: Global,
    cuts: &[CutSource<'_>],
    notes: &mut Vec<Note>,
    place: Option<Place>,
    words: &str,
) -> Result<(), Memory>
    ensures { OnOk result (notes.new.items ≡ notes.old.items ++ place_notes_of (map view_cut cuts.now) place words.now) }
{
    match place {
        Some(place) => {
            notes.push(note_at(alloc, cuts, place, words)?)?;
            Ok(())
        }
        None => Ok(()),
    }
}

/// What can be done about another use that would mean the renamed value.
fn capture_help(alloc: Global, was: Goal, name: &[u8]) -> Result<Option<Row<u8>>, Memory>
    ensures { IfOk result (λ help. help ≡ capture_help_of was name.now) }
{
    match was {
        Goal::Decl(_) => Ok(Some(choose_other(alloc, name)?)),
        Goal::Outside | Goal::Missing | Goal::Hidden | Goal::Blur { .. } => {
            help(alloc, "choose another name")
        }
    }
}

/// The message of an item that would be matched with another value, in a renaming of these declarations. The one error
/// is want of memory.
pub fn mislink(
    alloc: Global,
    cuts: &[CutSource<'_>],
    decls: &[Place],
    item: Place,
    was: Goal,
    would: Goal,
) -> Result<Message, Memory>
    ensures { IfOk result (λ message. message ≡ mislink_of (map view_cut cuts.now) decls.now item was would) }
{
    let now = link_text(alloc, cuts, "matched with the ", was)?;
    let then = link_text(alloc, cuts, article(is_declared(decls, would)), would)?;
    let text = join_words(
        alloc,
        &[
            b"this `",
            word_at(cuts, item),
            b"` is ",
            now.as_slice(),
            b"; after the renaming it would be ",
            then.as_slice(),
        ],
    )?;
    let spot = place_spot(alloc, cuts, item)?;
    let mut notes = Vec::new(alloc);
    add_goal_note(alloc, cuts, &mut notes, was, "matched with this now")?;
    add_goal_note(alloc, cuts, &mut notes, would, "would be matched with this")?;
    let help = help(
        alloc,
        "choose another name, or rename the other value first",
    )?;
    Ok(make_error_at(Kind::Mislink, text, spot, Row::from_vec(notes), help))
}

/// What an item is matched with, without the verb. A declaration is put behind the first text.
fn link_text<'a>(
    alloc: Global,
    cuts: &[CutSource<'_>],
    the: &'a str,
    goal: Goal,
) -> Result<Row<u8>, Memory>
    ensures { IfOk result (λ text. text ≡ link_text_of (map view_cut cuts.now) the.entry.now goal) }
{
    match goal {
        Goal::Decl(place) => the_value(alloc, cuts, the, place),
        Goal::Outside => text(alloc, "fixed from outside the folder"),
        Goal::Missing => text(alloc, "matched with nothing"),
        Goal::Hidden => text(alloc, "hidden by a later item of its name"),
        Goal::Blur { by, .. } => {
            let begin = "matched with what the module opened or included at ";
            name_place(alloc, cuts, begin, by, " brings")
        }
    }
}

/// Whether a goal is one of some declarations.
fn is_declared(decls: &[Place], goal: Goal) -> bool
    ensures { result ≡ is_declared_of decls.now goal }
{
    match goal {
        Goal::Decl(place) => is_among(decls, place),
        Goal::Outside | Goal::Missing | Goal::Hidden | Goal::Blur { .. } => false,
    }
}

/// The text before a declaration that an item would be matched with.
fn article(is_renamed: bool) -> &'static str
    ensures { result.now ≡ article_of is_renamed }
{
    if is_renamed {
        "matched with the renamed "
    } else {
        "matched with the "
    }
}
