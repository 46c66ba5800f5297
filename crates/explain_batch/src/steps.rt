//! What is said of the steps of a batch.
ghost use Rattle.std.specs.Prelude.{◌≡◌, ◌<◌, ◌^◌, IfOk, length};
ghost use Rattle.explain_batch.specs.Steps.{SaysDone, SaysSteps, done_line as done_line_of};

use crate::stopped::explain_stopped_batch;
use explain::{Ending, Explanation, diffs_text, explain_by_text};
use messages::{format_count, join_words};
use rename_batch::{BatchError, Batched, Step, batch};
use rotor_base::{Files, Memory, Row};
use std::alloc::Global;

/// What is said of a batch of these steps.
pub(crate) fn explain_steps(
    alloc: Global,
    files: &Files,
    steps: &[Step],
) -> Result<Explanation, Memory>
    requires { length steps.now < 2 ^ 32 }
    ensures { IfOk result (SaysSteps files.now steps.now) }
{
    match batch(alloc, files, steps) {
        Ok(batched) => explain_done_batch(alloc, files, steps, &batched),
        Err(BatchError::At { step, refusal }) => explain_stopped_batch(
            alloc, files, steps, step, &refusal,
        ),
        Err(BatchError::Memory) => Err(Memory),
    }
}

/// What is said of a batch that would be done.
fn explain_done_batch(
    alloc: Global,
    files: &Files,
    steps: &[Step],
    batched: &Batched,
) -> Result<Explanation, Memory>
    ensures { IfOk result (SaysDone files.now steps.now batched.now) }
{
    let line = done_line(alloc, steps, batched)?;
    let mut text = line.into_vec();
    let changed = batched.changed.as_slice();
    let diffs = diffs_text(alloc, files.entries(), batched.files.entries(), changed)?;
    text.extend_from_slice(&diffs)?;
    Ok(explain_by_text(alloc, Ending::Done, Row::from_vec(text)))
}

/// How many steps a batch has, and how many sources it would change.
fn done_line(alloc: Global, steps: &[Step], batched: &Batched) -> Result<Row<u8>, Memory>
    ensures { IfOk result (λ line. line ≡ done_line_of steps.now batched.now) }
{
    let count = format_count(alloc, steps.len() as u64, "step")?;
    let changed = format_count(alloc, batched.changed.as_slice().len() as u64, "file")?;
    join_words(alloc, &[count.as_slice(), b", ", changed.as_slice(), b"\n"])
}
