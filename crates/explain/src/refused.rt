//! What is said of a refusal.
ghost use Rattle.std.specs.Prelude.{◌≡◌, ◌≤◌, All, IfOk, length, map};
ghost use Rattle.rotor_base.specs.Limits.{max_file_bytes, max_sources};
ghost use Rattle.refusal_words.specs.Cut.{view_cut};
ghost use Rattle.explain.specs.Ending.{ending_of as ending_for, is_refused};
ghost use Rattle.explain.specs.Refused.{SaysProject, SaysRefusal, is_memory as is_memory_of, is_unread as is_unread_of, refused_message as refused_message_of};

use crate::around::{Around, look_around};
use crate::blurs::blurred_message;
use crate::ending::{Ending, ending_of};
use crate::explanation::{Explanation, explain_by_message, explain_by_messages};
use crate::sources::unread_messages;
use crate::targets::target_message;
use messages::Message;
use refusal_places::placed_message;
use refusal_words::{CutSource, cut_sources, operator, renaming_message};
use rotor_base::{Files, Memory, Refusal, Target};
use std::alloc::Global;

/// What is said of a refusal of a project. If a source is outside the language, there is a message for each that is.
/// The one error is want of memory.
pub(crate) fn explain_project(
    alloc: Global,
    files: &Files,
    refusal: &Refusal,
) -> Result<Explanation, Memory>
    ensures { IfOk result (SaysProject files.now refusal.now) }
{
    let ending = ending_of(refusal);
    if is_unread(refusal) {
        let messages = unread_messages(alloc, files.entries())?;
        return Ok(explain_by_messages(alloc, ending, messages));
    }
    let cuts = cut_sources(alloc, files.entries())?;
    let message = placed_message(alloc, &cuts, refusal)?;
    explain_by_message(alloc, ending, message)
}

/// Whether a refusal says that a source is outside the language.
fn is_unread(refusal: &Refusal) -> bool
    ensures { result ≡ is_unread_of refusal.now }
{
    matches!(
        refusal,
        Refusal::Lex { .. }
            | Refusal::LongName { .. }
            | Refusal::Form { .. }
            | Refusal::Deep { .. }
            | Refusal::Syntax { .. }
    )
}

/// Whether a refusal is one of a renaming.
fn is_renaming(refusal: &Refusal) -> bool
    ensures { result ≡ is_refused (ending_for refusal.now) }
{
    matches!(ending_of(refusal), Ending::Refused)
}

/// Whether a refusal is want of memory.
pub(crate) fn is_memory(refusal: &Refusal) -> bool
    ensures { result ≡ is_memory_of refusal.now }
{
    matches!(refusal, Refusal::Memory)
}

/// What is said of a refusal of a footprint, or of a renaming to this name. The one error is want of memory.
pub(crate) fn explain_refusal(
    alloc: Global,
    files: &Files,
    target: &Target,
    name: &[u8],
    refusal: &Refusal,
) -> Result<Explanation, Memory>
    ensures { IfOk result (SaysRefusal files.now target.now name.now refusal.now) }
{
    if !is_renaming(refusal) {
        return explain_project(alloc, files, refusal);
    }
    let cuts = cut_sources(alloc, files.entries())?;
    let around = look_around(alloc, files, target)?;
    let message = refused_message(alloc, &cuts, &around, target, name, refusal)?;
    explain_by_message(alloc, Ending::Refused, message)
}

/// The message of a refusal of a renaming.
fn refused_message(
    alloc: Global,
    cuts: &[CutSource<'_>],
    around: &Around,
    target: &Target,
    name: &[u8],
    refusal: &Refusal,
) -> Result<Option<Message>, Memory>
    requires few { length cuts.now ≤ max_sources }
    requires short { All (λ cut. length cut.tokens.items ≤ max_file_bytes) cuts.now }
    ensures { IfOk result (λ message. message ≡ refused_message_of (map view_cut cuts.now) around.now target.now name.now refusal.now) }
{
    let decls = around.decls.as_slice();
    match refusal {
        Refusal::NoTarget => {
            let refs = around.facts.refs.as_slice();
            Ok(Some(target_message(alloc, cuts, refs, around.stop, target)?))
        }
        Refusal::Operator => match decls.first() {
            Some(declared) => Ok(Some(operator(alloc, cuts, *declared)?)),
            None => Ok(None),
        },
        Refusal::Blurred { at } => blurred_message(alloc, cuts, &around.facts, *at),
        other => renaming_message(alloc, cuts, decls, name, other),
    }
}
