//! What is said of a project and of the new version of it.
ghost use Rattle.std.specs.Prelude.{◌≡◌, ◌≢◌, ◌≤◌, ◌++◌, All, IfOk, Ok, OnOk, flat_map, length, map};
ghost use Rattle.rotor_base.specs.Limits.{max_file_bytes};
ghost use Rattle.refusal_words.specs.Cut.{view_cut};
ghost use Rattle.explain_verify.specs.Judged.{IsJudged, SaysAnswer, SaysRefused, changed_place, changed_places as changed_places_of, changes_text as changes_text_of, change_line as change_line_of, fault_message as fault_message_of, new_name as new_name_of, why_message as why_message_of};

use capture_check::Fault;
use explain::{Ending, Explanation, explain_by_message, explain_by_text, explain_unloaded};
use messages::{Message, format_count, join_words, spot_text};
use refusal_places::placed_message;
use refusal_words::{
    CutSource, cut_sources, explain_fixed, other_bytes, other_sources, place_spot,
    renaming_message, word_at,
};
use rename_parts::refusal_of_fault;
use rename_verify::{Change, Verdict, Why, verify};
use rotor_base::{Files, Goal, Memory, Place, Refusal, Row};
use std::alloc::Global;

/// What is said of a project and of the new version of it. The one error is want of memory.
pub(crate) fn explain_versions(
    alloc: Global,
    old: &Files,
    new: &Files,
) -> Result<Explanation, Memory>
    ensures { IfOk result (IsJudged old.now new.now) }
{
    let olds = cut_sources(alloc, old.entries())?;
    let news = cut_sources(alloc, new.entries())?;
    match verify(alloc, old, new) {
        Ok(verdict) => explain_verdict(alloc, &olds, &news, &verdict),
        Err(refusal) => explain_refused_project(alloc, &olds, &refusal),
    }
}

/// What is said of an old project that is refused.
fn explain_refused_project(
    alloc: Global,
    olds: &[CutSource<'_>],
    refusal: &Refusal,
) -> Result<Explanation, Memory>
    requires { All (λ cut. length cut.tokens.items ≤ max_file_bytes) olds.now }
    ensures explanation { IfOk result (SaysRefused (map view_cut olds.now) refusal.now) }
    ensures other { OnOk result (refusal.now ≢ Refusal.Memory) }
{
    match refusal {
        Refusal::Memory => Err(Memory),
        _ => {
            let message = placed_message(alloc, olds, refusal)?;
            explain_unloaded(alloc, message)
        }
    }
}

/// What is said of a verdict.
fn explain_verdict(
    alloc: Global,
    olds: &[CutSource<'_>],
    news: &[CutSource<'_>],
    verdict: &Verdict,
) -> Result<Explanation, Memory>
    ensures { IfOk result (SaysAnswer (map view_cut olds.now) (map view_cut news.now) (Ok verdict.now)) }
{
    match verdict {
        Verdict::Yes(changes) => {
            let text = changes_text(alloc, olds, changes)?;
            Ok(explain_by_text(alloc, Ending::Done, text))
        }
        Verdict::No(why) => {
            let message = why_message(alloc, olds, news, why)?;
            explain_by_message(alloc, Ending::Refused, message)
        }
    }
}

/// The number of the declarations that have other names, and a line for each.
fn changes_text(
    alloc: Global,
    olds: &[CutSource<'_>],
    changes: &[Change],
) -> Result<Row<u8>, Memory>
    ensures { IfOk result (λ text. text ≡ changes_text_of (map view_cut olds.now) changes.now) }
{
    let count = format_count(alloc, changes.len() as u64, "change")?;
    let head = join_words(alloc, &[b"a valid renaming: ", count.as_slice(), b"\n"])?;
    let mut text = head.into_vec();
    push_changes(alloc, &mut text, olds, changes)?;
    Ok(Row::from_vec(text))
}

/// Adds the lines of declarations that have other names.
fn push_changes(
    alloc: Global,
    text: &mut Vec<u8>,
    olds: &[CutSource<'_>],
    changes: &[Change],
) -> Result<(), Memory>
    ensures { OnOk result (text.new.items ≡ text.old.items ++ flat_map (change_line_of (map view_cut olds.now)) changes.now) }
{
    for change in changes {
        let line = change_line(alloc, olds, change)?;
        text.extend_from_slice(line.as_slice())?;
    }
    Ok(())
}

/// The line of a declaration that has another name.
fn change_line(alloc: Global, olds: &[CutSource<'_>], change: &Change) -> Result<Row<u8>, Memory>
    ensures { IfOk result (λ line. line ≡ change_line_of (map view_cut olds.now) change.now) }
{
    let spot = place_spot(alloc, olds, change.0)?;
    let at = spot_text(alloc, &spot)?;
    join_words(
        alloc,
        &[
            at.as_slice(),
            b": `",
            change.1.as_bytes(),
            b"` became `",
            change.2.as_bytes(),
            b"`\n",
        ],
    )
}

/// The message of the reason for which a project is no valid renaming of another.
fn why_message(
    alloc: Global,
    olds: &[CutSource<'_>],
    news: &[CutSource<'_>],
    why: &Why,
) -> Result<Option<Message>, Memory>
    ensures { IfOk result (λ message. message ≡ why_message_of (map view_cut olds.now) (map view_cut news.now) why.now) }
{
    match why {
        Why::Sources { name } => Ok(Some(other_sources(alloc, name.as_bytes())?)),
        Why::Bytes { file, offset } => Ok(Some(other_bytes(alloc, news, *file, *offset)?)),
        Why::Fixed { at } => Ok(Some(explain_fixed(alloc, olds, *at)?)),
        Why::Broken(fault) => fault_message(alloc, olds, news, *fault),
    }
}

/// The message of a fault of a renaming.
fn fault_message(
    alloc: Global,
    olds: &[CutSource<'_>],
    news: &[CutSource<'_>],
    fault: Fault,
) -> Result<Option<Message>, Memory>
    ensures { IfOk result (λ message. message ≡ fault_message_of (map view_cut olds.now) (map view_cut news.now) fault) }
{
    let changed = changed_places(alloc, olds, news, fault)?;
    let refusal = refusal_of_fault(fault);
    renaming_message(
        alloc,
        olds,
        changed.as_slice(),
        new_name(news, fault),
        &refusal,
    )
}

/// The name that is bound twice in the new sources, if the fault is that.
fn new_name<'a>(news: &[CutSource<'a>], fault: Fault) -> &'a [u8]
    ensures { result.now ≡ new_name_of (map view_cut news.now) fault }
{
    match fault {
        Fault::Clash { first: _, again } => word_at(news, again),
        Fault::Capture { .. } | Fault::Mislink { .. } => b"",
    }
}

/// Which declarations of a fault have another word in the new sources.
fn changed_places(
    alloc: Global,
    olds: &[CutSource<'_>],
    news: &[CutSource<'_>],
    fault: Fault,
) -> Result<Row<Place>, Memory>
    ensures { IfOk result (λ places. places ≡ changed_places_of (map view_cut olds.now) (map view_cut news.now) fault) }
{
    match fault {
        Fault::Clash { .. } => Ok(Row::new(alloc)),
        Fault::Capture { at: _, was, would } => changed_among(alloc, olds, news, was, would),
        Fault::Mislink {
            item: _,
            was,
            would,
        } => changed_among(alloc, olds, news, was, would),
    }
}

/// Which declarations of two goals have another word in the new sources.
fn changed_among(
    alloc: Global,
    olds: &[CutSource<'_>],
    news: &[CutSource<'_>],
    was: Goal,
    would: Goal,
) -> Result<Row<Place>, Memory>
    ensures { IfOk result (λ places. places ≡ changed_place (map view_cut olds.now) (map view_cut news.now) was ++ changed_place (map view_cut olds.now) (map view_cut news.now) would) }
{
    let mut places = Row::new(alloc);
    add_changed(&mut places, olds, news, was)?;
    add_changed(&mut places, olds, news, would)?;
    Ok(places)
}

/// Adds the declaration of a goal, if it has another word in the new sources.
fn add_changed(
    places: &mut Row<Place>,
    olds: &[CutSource<'_>],
    news: &[CutSource<'_>],
    goal: Goal,
) -> Result<(), Memory>
    ensures { OnOk result (places.new ≡ places.old ++ changed_place (map view_cut olds.now) (map view_cut news.now) goal) }
{
    match goal {
        Goal::Decl(place) => {
            if word_at(olds, place) == word_at(news, place) {
                Ok(())
            } else {
                Ok(places.push(place)?)
            }
        }
        Goal::Outside | Goal::Missing | Goal::Hidden | Goal::Blur { .. } => Ok(()),
    }
}
