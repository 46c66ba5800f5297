//! What is said of a token of a source.
ghost use Rattle.std.specs.Prelude.{◌≡◌, ◌∷◌, [], IfOk, map};
ghost use Rattle.value_sites.specs.Sound.{IsSound};
ghost use Rattle.ml_trees.specs.View.{view_project};
ghost use Rattle.binding_model.specs.Facts.{facts as facts_of};
ghost use Rattle.refusal_words.specs.Cut.{view_cut};
ghost use Rattle.refusal_words.specs.Parts.{placed as placed_of};
ghost use Rattle.refusal_words.specs.Stretches.{place_spot as place_spot_of};
ghost use Rattle.explain.specs.Lines.{place_message as place_message_of, place_word as place_word_of};
ghost use Rattle.messages.specs.declared.kinds.Kind.TheVariants as kind;
ghost use Rattle.explain_at.specs.At.{SaysPlace, declaration_message as declaration_message_of, explanation_of_target, refused_at as refused_at_of, target_line as target_line_of, valueless as valueless_of};

use explain::{Ending, Explanation, explain_by_message, place_message, place_word, valueless_text};
use messages::{Kind, Message, Severity, join_words};
use ml_trees::Project;
use refusal_words::{CutSource, place_spot, word_at};
use report::number_text;
use rotor_base::{Facts, Memory, Place, Row};
use std::alloc::Global;
use value_at::{ValueAt, value_at};

/// What is said of a token: the target of the value that it declares or uses, or that there is none.
pub(crate) fn explain_place(
    alloc: Global,
    project: &Project,
    facts: &Facts,
    cuts: &[CutSource<'_>],
    place: Place,
) -> Result<Explanation, Memory>
    requires sound { IsSound (view_project project.now) }
    requires facts { facts.now ≡ facts_of (view_project project.now) }
    ensures { IfOk result (SaysPlace (view_project project.now) (map view_cut cuts.now) place) }
{
    match value_at(alloc, project, facts, place)? {
        ValueAt::Value(declared) => explain_target(alloc, cuts, declared),
        found => refuse_at(alloc, explain_valueless(alloc, cuts, place, found)?),
    }
}

/// What is said of a place that has no target.
pub(crate) fn refuse_at(alloc: Global, message: Message) -> Result<Explanation, Memory>
    ensures { IfOk result (λ explanation. explanation ≡ refused_at_of message) }
{
    explain_by_message(alloc, Ending::Refused, Some(message))
}

/// The target of a declaration, on a line.
fn explain_target(
    alloc: Global,
    cuts: &[CutSource<'_>],
    declared: Place,
) -> Result<Explanation, Memory>
    ensures { IfOk result (λ explanation. explanation ≡ explanation_of_target (map view_cut cuts.now) declared) }
{
    let text = target_line(alloc, cuts, declared)?;
    let mut places = Row::new(alloc);
    places.push(declaration_message(alloc, cuts, declared)?)?;
    Ok(Explanation {
        ending: Ending::Done,
        messages: Row::new(alloc),
        text,
        places,
    })
}

/// The line of the target of a declaration, `FILE#N`.
fn target_line(alloc: Global, cuts: &[CutSource<'_>], declared: Place) -> Result<Row<u8>, Memory>
    ensures { IfOk result (λ line. line ≡ target_line_of (map view_cut cuts.now) declared) }
{
    let spot = place_spot(alloc, cuts, declared)?;
    let number = number_text(alloc, u64::from(declared.token))?;
    join_words(
        alloc,
        &[spot.file.as_slice(), b"#", number.as_slice(), b"\n"],
    )
}

/// The place of a declaration, for tools.
fn declaration_message(
    alloc: Global,
    cuts: &[CutSource<'_>],
    declared: Place,
) -> Result<Message, Memory>
    ensures { IfOk result (λ message. message ≡ declaration_message_of (map view_cut cuts.now) declared) }
{
    place_message(alloc, cuts, place_word(true), declared)
}

/// The message of a token that declares and uses no value of the folder.
fn explain_valueless(
    alloc: Global,
    cuts: &[CutSource<'_>],
    place: Place,
    found: ValueAt,
) -> Result<Message, Memory>
    ensures { IfOk result (λ message. message ≡ valueless_of (map view_cut cuts.now) place found) }
{
    let text = valueless_text(alloc, word_at(cuts, place), found)?;
    let spot = place_spot(alloc, cuts, place)?;
    Ok(Message {
        severity: Severity::Error,
        kind: Kind::NoTarget,
        text,
        at: Some(spot),
        notes: Row::new(alloc),
        help: None,
    })
}
