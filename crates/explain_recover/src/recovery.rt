//! What is said of a recovery.
ghost use Rattle.std.specs.Prelude.{◌≡◌, ◌++◌, ◌∷◌, [], IfOk, IfSome, List, OnOk, codes, flat_map};
ghost use Rattle.tree_io.specs.Outside.{HasCause};
ghost use Rattle.refusal_words.specs.Commands.{bad_plan as bad_plan_of};
ghost use Rattle.rotor_base.specs.declared.source.SourceFile.{SourceFile};
ghost use Rattle.apply_journal.specs.Recovered.{plan_writes};
ghost use Rattle.explain.specs.Explanation.{explanation_of_message, explanation_of_text};
ghost use Rattle.explain_recover.specs.Recovery.{SaysRecovery, name_line, recovery_text as recovery_text_of};

use apply_journal::{RecoverError, read_recovery};
use explain::{Ending, Explanation, explain_by_text, explain_unloaded};
use messages::{format_count, join_words};
use refusal_words::bad_plan;
use rotor_base::{Memory, Row, SourceFile};
use std::alloc::Global;
use tree_io::{Tree, TreeError};

/// What is said of a recovery of a folder: the files that it would write, or that there is none to write; or, if the
/// gate is open and there is no plan, the message of that. It writes nothing.
///
/// # Errors
///
/// `Failed` after a counted fault, and `Memory`.
pub fn explain_recover<T: Tree>(alloc: Global, tree: &mut T) -> Result<Explanation, TreeError>
    ensures said { IfOk result (λ explanation. IfSome (T.content tree.old) (λ held. SaysRecovery held explanation)) }
    ensures content { T.content tree.new ≡ T.content tree.old }
    ensures cause { HasCause (T.faults tree.old) (T.faults tree.new) result }
{
    match read_recovery(alloc, tree) {
        Ok(None) => Ok(explain_idle_folder(alloc)?),
        Ok(Some(writes)) => Ok(explain_writes(alloc, &writes)?),
        Err(RecoverError::BadPlan) => Ok(explain_lost_plan(alloc)?),
        Err(RecoverError::Read) => Err(TreeError::Failed),
        Err(RecoverError::Memory) => Err(TreeError::Memory),
        Err(RecoverError::Write) => unreachable!(),
    }
}

/// What is said of a folder in which there is nothing to recover.
fn explain_idle_folder(alloc: Global) -> Result<Explanation, Memory>
    ensures { IfOk result (λ explanation. explanation ≡ explanation_of_text Ending.Done (codes "nothing to recover\n")) }
{
    let text = Row::from_vec(b"nothing to recover\n".to_vec(alloc)?);
    Ok(explain_by_text(alloc, Ending::Done, text))
}

/// What is said of an open gate without a plan.
fn explain_lost_plan(alloc: Global) -> Result<Explanation, Memory>
    ensures { IfOk result (λ explanation. explanation ≡ explanation_of_message Ending.Project (Some bad_plan_of)) }
{
    explain_unloaded(alloc, Some(bad_plan(alloc)?))
}

/// What is said of a recovery of these writes, the last of which closes the gate.
fn explain_writes(alloc: Global, writes: &[SourceFile]) -> Result<Explanation, Memory>
    ensures { IfOk result (λ explanation. (files : List SourceFile) → writes.now ≡ plan_writes files → explanation ≡ explanation_of_text Ending.Done (recovery_text_of files)) }
{
    let files = drop_last(writes);
    let text = recovery_text(alloc, files)?;
    Ok(explain_by_text(alloc, Ending::Done, text))
}

/// All files but the last.
fn drop_last(files: &[SourceFile]) -> &[SourceFile]
    ensures { (front : List SourceFile) → (last : SourceFile) → files.now ≡ front ++ last ∷ [] → result.now ≡ front }
{
    match files {
        [front @ .., _] => front,
        [] => files,
    }
}

/// The number of files, and the name of each.
fn recovery_text(alloc: Global, files: &[SourceFile]) -> Result<Row<u8>, Memory>
    ensures { IfOk result (λ text. text ≡ recovery_text_of files.now) }
{
    let count = format_count(alloc, files.len() as u64, "file")?;
    let head = join_words(
        alloc,
        &[b"`rotor recover` would write ", count.as_slice(), b"\n"],
    )?;
    let mut text = head.into_vec();
    push_names(&mut text, files)?;
    Ok(Row::from_vec(text))
}

/// Adds the names of files, each on a line.
fn push_names(text: &mut Vec<u8>, files: &[SourceFile]) -> Result<(), Memory>
    ensures { OnOk result (text.new.items ≡ text.old.items ++ flat_map name_line files.now) }
{
    for file in files {
        text.extend_from_slice(file.name.as_str().as_bytes())?;
        text.push(b'\n')?;
    }
    Ok(())
}
