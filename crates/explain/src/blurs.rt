//! The messages of places that are blurred.
ghost use Rattle.std.specs.Prelude.{◌≡◌, IfOk, map};
ghost use Rattle.refusal_words.specs.Cut.{view_cut};
ghost use Rattle.explain.specs.Blurs.{blur_of as blur_in, blurred_message as blurred_message_of, blurring_link as blurring_link_of, blurring_use as blurring_use_of, blurs_link as blurs_link_of, blurs_source as blurs_source_of, blurs_use as blurs_use_of, is_behind as is_behind_of, is_declared_at as is_declared_of};

use messages::Message;
use refusal_words::{CutSource, blurred_link, blurred_use};
use rotor_base::{Facts, Goal, Link, Memory, Place, Ref};
use std::alloc::Global;

/// The message of a place that is blurred: a use, or a match, that a module from outside may supply. If no fact says
/// it, `None`. The one error is want of memory.
pub(crate) fn blurred_message(
    alloc: Global,
    cuts: &[CutSource<'_>],
    facts: &Facts,
    at: Place,
) -> Result<Option<Message>, Memory>
    ensures { IfOk result (λ found. found ≡ blurred_message_of (map view_cut cuts.now) facts.now at) }
{
    if let Some(by) = blurring_use(facts.refs.as_slice(), at) {
        return Ok(Some(blurred_use(alloc, cuts, at, by)?));
    }
    let Some(by) = blurring_link(facts.links.as_slice(), at) else {
        return Ok(None);
    };
    Ok(Some(blurred_link(alloc, cuts, at, by)?))
}

/// The outside module that blurs the first reference at a place.
fn blurring_use(refs: &[Ref], at: Place) -> Option<Place>
    ensures { result ≡ blurring_use_of refs.now at }
{
    for reference in refs {
        if blurs_use(reference, at) {
            return blur_of(reference.goal);
        }
    }
    None
}

/// Whether a reference is at a place and blurred.
fn blurs_use(reference: &Ref, at: Place) -> bool
    ensures { result ≡ blurs_use_of at reference.now }
{
    reference.at == at && blur_of(reference.goal).is_some()
}

/// The outside module that blurs the source of the first link there.
fn blurring_link(links: &[Link], at: Place) -> Option<Place>
    ensures { result ≡ blurring_link_of links.now at }
{
    for link in links {
        if blurs_link(link, at) {
            return blur_of(link.source);
        }
    }
    None
}

/// Whether a link has a blurred source, and a place is its item, or behind its source.
fn blurs_link(link: &Link, at: Place) -> bool
    ensures { result ≡ blurs_link_of at link.now }
{
    match link.source {
        Goal::Blur { behind, .. } => is_behind(behind, at) || is_declared_at(link.item, at),
        _ => false,
    }
}

/// Whether a place is behind a blurred goal.
fn is_behind(behind: Option<Place>, at: Place) -> bool
    ensures { result ≡ is_behind_of at behind }
{
    match behind {
        Some(place) => place == at,
        None => false,
    }
}

/// Whether an item is declared at a place.
fn is_declared_at(item: Goal, at: Place) -> bool
    ensures { result ≡ is_declared_of at item }
{
    match item {
        Goal::Decl(place) => place == at,
        _ => false,
    }
}

/// The last outside module of a blurred goal.
fn blur_of(goal: Goal) -> Option<Place>
    ensures { result ≡ blur_in goal }
{
    match goal {
        Goal::Blur { by, .. } => Some(by),
        _ => None,
    }
}
