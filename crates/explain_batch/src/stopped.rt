//! What is said of a step that is refused.
ghost use Rattle.std.specs.Prelude.{◌≡◌, ◌<◌, ◌≤◌, ◌-◌, ◌^◌, Err, IfOk, Ok, Some, length};
ghost use Rattle.rename_batch.specs.Batch.{Batches};
ghost use Rattle.rename_batch.specs.declared.error.BatchError.{BatchError};
ghost use Rattle.refusal_words.specs.Refused.{in_step as in_step_of};
ghost use Rattle.explain.specs.Explanation.{explanation_of_message};
ghost use Rattle.explain_batch.specs.Steps.{IsStopped, SaysStep, SaysStepAfter, in_steps as in_steps_of};

use explain::{Ending, Explanation, explain_rename, explain_unloaded};
use messages::Message;
use refusal_places::placed_message;
use refusal_words::{cut_sources, in_step};
use rename_batch::{Batched, Step, batch};
use rotor_base::{Files, Memory, Refusal, Row};
use std::alloc::Global;

/// What is said of a batch whose step of this number, from 1, is the first that is refused.
pub(crate) fn explain_stopped_batch(
    alloc: Global,
    files: &Files,
    steps: &[Step],
    number: u32,
    why: &Refusal,
) -> Result<Explanation, Memory>
    requires few { length steps.now < 2 ^ 32 }
    requires stops { Batches files.now steps.now (Err (BatchError.At number why.now)) }
    ensures { IfOk result (IsStopped files.now steps.now number why.now) }
{
    let front = number.saturating_sub(1) as usize;
    let before = done_before(alloc, files, &steps[..front])?;
    explain_step(alloc, &before.files, &steps[front], number, why)
}

/// What steps have done that are all accepted. Their one error is want of memory.
fn done_before(alloc: Global, files: &Files, steps: &[Step]) -> Result<Batched, Memory>
    requires { length steps.now < 2 ^ 32 }
    ensures { IfOk result (λ before. Batches files.now steps.now (Ok before)) }
{
    match batch(alloc, files, steps) {
        Ok(before) => Ok(before),
        Err(_) => Err(Memory),
    }
}

/// What is said of the step of this number, which is refused over these files.
fn explain_step(
    alloc: Global,
    files: &Files,
    step: &Step,
    number: u32,
    why: &Refusal,
) -> Result<Explanation, Memory>
    ensures { IfOk result (SaysStepAfter files.now step.now number why.now) }
{
    let cuts = cut_sources(alloc, files.entries())?;
    match placed_message(alloc, &cuts, why)? {
        Some(message) => explain_unread_folder(alloc, number, message),
        None => {
            let said = explain_rename(alloc, files, &step.target, step.name.as_bytes(), false)?;
            in_steps(alloc, number, said)
        }
    }
}

/// What is said of a step over a folder that is refused.
fn explain_unread_folder(
    alloc: Global,
    number: u32,
    message: Message,
) -> Result<Explanation, Memory>
    ensures { IfOk result (λ explanation. explanation ≡ explanation_of_message Ending.Project (Some (in_step_of number message))) }
{
    explain_unloaded(alloc, Some(in_step(alloc, number, message)?))
}

/// What is said of a renaming, as that of a step.
fn in_steps(alloc: Global, number: u32, said: Explanation) -> Result<Explanation, Memory>
    ensures { IfOk result (λ explanation. explanation ≡ in_steps_of number said) }
{
    let mut messages = Row::new(alloc);
    for message in said.messages.into_vec() {
        messages.push(in_step(alloc, number, message)?)?;
    }
    Ok(Explanation {
        ending: said.ending,
        messages,
        text: Row::new(alloc),
        places: Row::new(alloc),
    })
}
