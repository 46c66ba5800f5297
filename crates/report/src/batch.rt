//! The lines of `batch`.
ghost use Rattle.std.specs.Prelude.{◌≡◌, IfOk, map, string_bytes};
ghost use Rattle.report.specs.Batch.{bad_batch_text as bad_batch_text_of, batch_line as batch_line_of, step_line as step_line_of, stopped_text as stopped_text_of};

use crate::lines::{number_line, rename_line};
use crate::notice::{make_numbered, refusal_notice};
use crate::pieces::{join_words, number_text, place_text};
use crate::plain::notice_text;
use rotor_base::{Memory, Name, Place, Refusal, Row};
use std::alloc::Global;

/// The line of the number of the steps that are done, `batch N`. The one error is want of memory.
pub fn batch_line(alloc: Global, steps: u64) -> Result<Row<u8>, Memory>
    ensures { IfOk result (λ line. line ≡ batch_line_of steps) }
{
    number_line(alloc, "batch", steps)
}

/// The line of what a step has done, `rename OLD to NEW P`. `names` are as in [`crate::text`]. The one error is want of
/// memory.
pub fn step_line(
    alloc: Global,
    names: &[String],
    old: &Name,
    new: &Name,
    at: Place,
) -> Result<Row<u8>, Memory>
    ensures { IfOk result (λ line. line ≡ step_line_of (map string_bytes names.now) old.now new.now at) }
{
    let rename = rename_line(alloc, old, new)?;
    let at = place_text(alloc, names, at)?;
    join_words(alloc, &[rename.as_slice(), b" ", at.as_slice()])
}

/// The text of a batch with a step that is refused: `step K ` and the line of the refusal. Steps count from 1. `names`
/// are as in [`crate::text`]. The one error is want of memory.
pub fn stopped_text(
    alloc: Global,
    names: &[String],
    step: u32,
    refusal: &Refusal,
) -> Result<Vec<u8>, Memory>
    ensures { IfOk result (λ text. text.items ≡ stopped_text_of (map string_bytes names.now) step refusal.now) }
{
    let number = number_text(alloc, u64::from(step))?;
    let notice = refusal_notice(alloc, names, refusal)?;
    let refused = notice_text(alloc, notice)?;
    let text = join_words(
        alloc,
        &[b"step ", number.as_slice(), b" ", refused.as_slice()],
    )?;
    Ok(text.into_vec())
}

/// The text of a batch with a line that is no step, `project: badbatch N`. Lines count from 1; 0 is for a file that is
/// no batch. The one error is want of memory.
pub fn bad_batch_text(alloc: Global, number: u32) -> Result<Vec<u8>, Memory>
    ensures { IfOk result (λ text. text.items ≡ bad_batch_text_of number) }
{
    let notice = make_numbered(alloc, "badbatch", u64::from(number))?;
    notice_text(alloc, notice)
}
