//! The messages of refusals.
ghost use Rattle.std.specs.Prelude.{◌≡◌, IfOk, map};
ghost use Rattle.refusal_words.specs.Cut.{view_cut};
ghost use Rattle.refusal_words.specs.Refused.{in_step as in_step_of, project_message as project_message_of, renaming_message as renaming_message_of};

use crate::captured::{capture, mislink};
use crate::cut::CutSource;
use crate::naming::{bad_name, same_name};
use crate::puns::pun_refused;
use crate::renaming::{clash, explain_grown, explain_outside};
use crate::source::{
    duplicate, explain_heavy, explain_unmatched, explain_unread, form_refused, lex_refused,
    long_name, on_cycle, too_deep,
};
use messages::{Message, join_words};
use report::number_text;
use rotor_base::{Goal, Memory, Place, Refusal};
use std::alloc::Global;

/// The message of a refusal of a project; of another refusal, `None`. The one error is want of memory.
pub fn project_message(
    alloc: Global,
    cuts: &[CutSource<'_>],
    refusal: &Refusal,
) -> Result<Option<Message>, Memory>
    ensures { IfOk result (λ message. message ≡ project_message_of (map view_cut cuts.now) refusal.now) }
{
    match refusal {
        Refusal::Lex { file, offset } => Ok(Some(lex_refused(alloc, cuts, *file, *offset)?)),
        Refusal::LongName { file, offset } => Ok(Some(long_name(alloc, cuts, *file, *offset)?)),
        Refusal::Form { at, kind } => Ok(Some(form_refused(alloc, cuts, *at, *kind)?)),
        Refusal::Deep { at } => Ok(Some(too_deep(alloc, cuts, *at)?)),
        Refusal::Syntax { file } => Ok(Some(explain_unread(alloc, cuts, *file)?)),
        Refusal::Cycle { unit } => Ok(Some(on_cycle(alloc, unit.as_bytes())?)),
        Refusal::Duplicate { first, again } => Ok(Some(duplicate(alloc, cuts, *first, *again)?)),
        Refusal::Heavy { at } => Ok(Some(explain_heavy(alloc, cuts, *at)?)),
        Refusal::Unmatched { item } => Ok(Some(explain_unmatched(alloc, cuts, *item)?)),
        _ => Ok(None),
    }
}

/// The message of a refusal of a renaming of these declarations to this name. `NoTarget`, `Operator` and `Blurred` have
/// no place, or too little of it: of them, and of another refusal, it is `None`. The one error is want of memory.
pub fn renaming_message(
    alloc: Global,
    cuts: &[CutSource<'_>],
    decls: &[Place],
    name: &[u8],
    refusal: &Refusal,
) -> Result<Option<Message>, Memory>
    ensures { IfOk result (λ message. message ≡ renaming_message_of (map view_cut cuts.now) decls.now name.now refusal.now) }
{
    match refusal {
        Refusal::BadName => Ok(Some(bad_name(alloc, name)?)),
        Refusal::SameName => Ok(Some(same_name(alloc, name)?)),
        Refusal::Outside { at } => Ok(Some(explain_outside(alloc, cuts, *at)?)),
        Refusal::Pun { at } => Ok(Some(pun_refused(alloc, cuts, *at)?)),
        Refusal::Grown { file } => Ok(Some(explain_grown(alloc, cuts, *file)?)),
        Refusal::Clash { first, again } => { Ok(Some(clash(alloc, cuts, *first, *again, name)?)) }
        Refusal::Capture { at, was, would } => {
            Ok(Some(capture(alloc, cuts, decls, *at, *was, *would)?))
        }
        Refusal::Mislink {
            item: Goal::Decl(item),
            was,
            would,
        } => Ok(Some(mislink(alloc, cuts, decls, *item, *was, *would)?)),
        _ => Ok(None),
    }
}

/// The message of a step of a batch, counted from 1. The one error is want of memory.
pub fn in_step(alloc: Global, step: u32, message: Message) -> Result<Message, Memory>
    ensures { IfOk result (λ numbered. numbered ≡ in_step_of step message) }
{
    let number = number_text(alloc, u64::from(step))?;
    let text = join_words(
        alloc,
        &[b"step ", number.as_slice(), b": ", message.text.as_slice()],
    )?;
    Ok(Message { text, ..message })
}
