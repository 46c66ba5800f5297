//! The files of a list, or what is said of a list that gives no project.
ghost use Rattle.std.specs.Prelude.{◌≡◌, ◌≢◌, ◌+◌, ◌<◌, ◌≤◌, IfOk, IfSome, IsSome, OnOk, length};
ghost use Rattle.std.specs.Option.{ForSome};
ghost use Rattle.std.specs.FinMap.{get};
ghost use Rattle.rotor_base.specs.Limits.{max_file_bytes};
ghost use Rattle.rotor_base.specs.Lines.{feed_lines};
ghost use Rattle.tree_io.specs.Outside.{FileMap, HasCause};
ghost use Rattle.line_stretches.specs.Stretch.{IsStretch};
ghost use Rattle.explain_verify.specs.Lists.{IsAtLine, IsBadList, IsListed, MayBeBad, load_message as load_message_of, refused_with};

use crate::refused::load_message;
use explain::{Explanation, explain_unloaded};
use line_stretches::line_stretch;
use project_load::{ListError, load_list};
use refusal_words::{list_line, no_list};
use rotor_base::{Files, LoadError, MAX_FILE_BYTES, Memory};
use std::alloc::Global;
use tree_io::{Tree, TreeError};

/// The most bytes of a list that are read: one more than it may have.
const READ_LIMIT: u32 = MAX_FILE_BYTES + 1;

/// What a list gives.
#[derive(Drop)]
pub(crate) enum Listed {
    /// The files of a project.
    Files(Files),
    /// What is said of a list that gives no project.
    Explanation(Explanation),
}

/// The files of a list, or what is said of it.
pub(crate) fn load_or_explain<T: Tree>(
    alloc: Global,
    list: &str,
    tree: &mut T,
) -> Result<Listed, TreeError>
    ensures listed { IfOk result (λ found. IfSome (T.content tree.old) (λ held. IsListed held list.now found)) }
    ensures content { T.content tree.new ≡ T.content tree.old }
    ensures cause { HasCause (T.faults tree.old) (T.faults tree.new) result }
{
    match load_list(alloc, tree, list) {
        Ok(files) => Ok(Listed::Files(files)),
        Err(ListError::Read) => Err(TreeError::Failed),
        Err(ListError::Load(error)) => Ok(Listed::Explanation(explain_unread_list(alloc, &error)?)),
        Err(ListError::BadList { line }) => {
            Ok(Listed::Explanation(explain_bad_list(alloc, list, line, tree)?))
        }
    }
}

/// What is said of a list whose files are not taken as a project's.
fn explain_unread_list(alloc: Global, error: &LoadError) -> Result<Explanation, Memory>
    ensures explanation { IfOk result (λ explanation. explanation ≡ refused_with (load_message_of error.now)) }
    ensures other { OnOk result (error.now ≢ LoadError.Memory) }
{
    match error {
        LoadError::Memory => Err(Memory),
        _ => {
            let message = load_message(alloc, error)?;
            explain_unloaded(alloc, message)
        }
    }
}

/// What is said of a list whose line of this number, from 1, is bad; of 0, the folder lacks the list.
fn explain_bad_list<T: Tree>(
    alloc: Global,
    list: &str,
    line: u32,
    tree: &mut T,
) -> Result<Explanation, TreeError>
    requires { ForSome (T.content tree.old) (λ held. line ≢ 0 → IsSome (get held list.now)) }
    ensures bad { IfOk result (λ explanation. IfSome (T.content tree.old) (λ held. MayBeBad held list.now line → IsBadList held list.now line explanation)) }
    ensures content { T.content tree.new ≡ T.content tree.old }
    ensures cause { HasCause (T.faults tree.old) (T.faults tree.new) result }
{
    if line == 0 {
        return Ok(explain_missing_list(alloc, list)?);
    }
    let bytes = tree.read(alloc, list, READ_LIMIT)?;
    Ok(explain_bad_line(alloc, list, &bytes, line)?)
}

/// What is said of a list that the folder lacks.
fn explain_missing_list(alloc: Global, list: &str) -> Result<Explanation, Memory>
    ensures { IfOk result (λ explanation. (held : FileMap) → IsBadList held list.now 0 explanation) }
{
    explain_unloaded(alloc, Some(no_list(alloc, list.as_bytes())?))
}

/// What is said of a line of a list that is bad.
fn explain_bad_line(
    alloc: Global,
    list: &str,
    bytes: &[u8],
    line: u32,
) -> Result<Explanation, Memory>
    requires { length bytes.now ≤ max_file_bytes + 1 }
    ensures { IfOk result (λ explanation. 0 < line → line ≤ length (feed_lines bytes.now) → IsAtLine list.now bytes.now line explanation) }
{
    let (start, end) = line_stretch(bytes, line);
    let message = list_line(alloc, list.as_bytes(), bytes, start, end)?;
    explain_unloaded(alloc, Some(message))
}
