//! The program over any folder and any output.
ghost use Rattle.std.specs.Prelude.{◌≡◌, ◌⊎◌, ◌≤◌, IfOk, IfSome, IsErrOf, None};
ghost use Rattle.project_load.specs.Load.{loaded};
ghost use Rattle.tree_io.specs.Outside.{HasCause, Rose};
ghost use Rattle.tree_io.specs.declared.outside.TreeError.TheVariants as fault;
ghost use Rattle.explain_main.specs.Code.{status_of as status_for};
ghost use Rattle.explain_main.specs.Said.{IsAnswered, IsPrinted, IsSaid, IsStopped, IsUnloaded, SaysBatchIn, SaysFiles, SaysOf, SaysOver};
ghost use Rattle.explain_main.specs.Words.{asked_in};

use crate::code::ExitStatus;
use crate::words::{Asked, FilesQuestion, Question, read_asked};
use cli_words::WordsError;
use explain::{
    Ending, Explanation, explain_check, explain_footprint, explain_rename, explain_unloaded,
    explanation_text,
};
use explain_at::explain_at;
use explain_batch::explain_batch;
use explain_recover::explain_recover;
use explain_verify::explain_verify;
use folder_messages::{folder_message, reason_of};
use project_load::load;
use rotor_base::{Files, LoadError, Memory};
use std::alloc::Global;
use tree_io::{Sink, Tree, TreeError};

/// Explains over a folder and an output what `rotor` would answer to the words, and returns how it would end. It never
/// writes: the folder is as it was.
pub fn explain_words<T: Tree, S: Sink>(
    alloc: Global,
    words: &[String],
    tree: &mut T,
    out: &mut S,
) -> ExitStatus
    ensures said { IsSaid words.now (T.content tree.old) (S.taken out.old) (S.taken out.new) result }
    ensures content { T.content tree.new ≡ T.content tree.old }
    ensures usage { result ≡ ExitStatus.Usage → asked_in words.now ≡ None }
    ensures tree_fault { result ≡ ExitStatus.TreeFault → Rose (T.faults tree.old) (T.faults tree.new) }
    ensures sink_fault { result ≡ ExitStatus.SinkFault → Rose (S.faults out.old) (S.faults out.new) }
{
    match read_asked(alloc, words) {
        Err(WordsError::Usage) => ExitStatus::Usage,
        Err(WordsError::Memory) => ExitStatus::Memory,
        Ok(asked) => answer(alloc, &asked, tree, out),
    }
}

/// Explains the answer to a question.
fn answer<T: Tree, S: Sink>(alloc: Global, asked: &Asked, tree: &mut T, out: &mut S) -> ExitStatus
    ensures answered { IsAnswered (T.content tree.old) asked.now (S.taken out.old) (S.taken out.new) result }
    ensures content { T.content tree.new ≡ T.content tree.old }
    ensures usage { result ≡ ExitStatus.Usage → ⊥ }
    ensures tree_fault { result ≡ ExitStatus.TreeFault → Rose (T.faults tree.old) (T.faults tree.new) }
    ensures sink_fault { result ≡ ExitStatus.SinkFault → Rose (S.faults out.old) (S.faults out.new) }
{
    match explain_question(alloc, asked, tree) {
        Ok(explanation) => put_explanation(alloc, explanation, asked.as_json, out),
        Err(TreeError::Failed) => ExitStatus::TreeFault,
        Err(TreeError::Memory) => ExitStatus::Memory,
    }
}

/// What is said of a question.
fn explain_question<T: Tree>(
    alloc: Global,
    asked: &Asked,
    tree: &mut T,
) -> Result<Explanation, TreeError>
    ensures said { IfOk result (SaysOf (T.content tree.old) asked.now) }
    ensures content { T.content tree.new ≡ T.content tree.old }
    ensures failed { IsErrOf result fault.Failed → Rose (T.faults tree.old) (T.faults tree.new) }
{
    match &asked.question {
        Question::Recover => explain_recover(alloc, tree),
        Question::Verify { old, new } => explain_verify(alloc, old.as_str(), new.as_str(), tree),
        Question::Batch(file) => explain_batch_file(alloc, file.as_str(), tree),
        Question::Files(question) => explain_files(alloc, question, asked.as_json, tree),
    }
}

/// What is said of the batch in a file, over the files of a folder.
fn explain_batch_file<T: Tree>(
    alloc: Global,
    file: &str,
    tree: &mut T,
) -> Result<Explanation, TreeError>
    ensures said { IfOk result (SaysFiles (T.content tree.old) (SaysBatchIn (T.content tree.old) file.now)) }
    ensures content { T.content tree.new ≡ T.content tree.old }
    ensures failed { IsErrOf result fault.Failed → Rose (T.faults tree.old) (T.faults tree.new) }
{
    match files_or_reason(alloc, tree)? {
        Ok(files) => explain_batch(alloc, file, &files, tree),
        Err(why) => explain_reason(alloc, &why, tree),
    }
}

/// What is said of a question over the files of a folder.
fn explain_files<T: Tree>(
    alloc: Global,
    question: &FilesQuestion,
    as_json: bool,
    tree: &mut T,
) -> Result<Explanation, TreeError>
    ensures said { IfOk result (SaysFiles (T.content tree.old) (SaysOver question.now as_json)) }
    ensures content { T.content tree.new ≡ T.content tree.old }
    ensures failed { IsErrOf result fault.Failed → Rose (T.faults tree.old) (T.faults tree.new) }
{
    match files_or_reason(alloc, tree)? {
        Ok(files) => Ok(explain_over(alloc, question, as_json, &files)?),
        Err(why) => explain_reason(alloc, &why, tree),
    }
}

/// The files that a folder loads as, or the reason that lies in the folder.
fn files_or_reason<T: Tree>(
    alloc: Global,
    tree: &mut T,
) -> Result<Result<Files, LoadError>, TreeError>
    ensures loads { IfOk result (λ found. IfSome (T.content tree.old) (λ held. loaded held ≡ found)) }
    ensures content { T.content tree.new ≡ T.content tree.old }
    ensures later { T.faults tree.old ≤ T.faults tree.new }
    ensures failed { IsErrOf result fault.Failed → Rose (T.faults tree.old) (T.faults tree.new) }
{
    match load(alloc, tree) {
        Ok(files) => Ok(Ok(files)),
        Err(error) => Ok(Err(reason_of(error)?)),
    }
}

/// What is said of a folder that does not load.
fn explain_reason<T: Tree>(
    alloc: Global,
    why: &LoadError,
    tree: &mut T,
) -> Result<Explanation, TreeError>
    ensures said { IfOk result (IsUnloaded (T.content tree.old) why.now) }
    ensures content { T.content tree.new ≡ T.content tree.old }
    ensures cause { HasCause (T.faults tree.old) (T.faults tree.new) result }
{
    let message = folder_message(alloc, why, tree)?;
    Ok(explain_unloaded(alloc, message)?)
}

/// What is said of a question over the files of a project.
fn explain_over(
    alloc: Global,
    question: &FilesQuestion,
    as_json: bool,
    files: &Files,
) -> Result<Explanation, Memory>
    ensures { IfOk result (SaysOver question.now as_json files.now) }
{
    match question {
        FilesQuestion::Check => explain_check(alloc, files),
        FilesQuestion::Footprint(target) => explain_footprint(alloc, files, target),
        FilesQuestion::Rename { target, name } => {
            explain_rename(alloc, files, target, name.as_bytes(), as_json)
        }
        FilesQuestion::At(word) => explain_at(alloc, files, word.as_str()),
    }
}

/// Puts what is said, and returns how the program ends.
fn put_explanation<S: Sink>(
    alloc: Global,
    explanation: Explanation,
    as_json: bool,
    out: &mut S,
) -> ExitStatus
    ensures printed { IsPrinted as_json explanation (S.taken out.old) (S.taken out.new) result ⊎ IsStopped result }
    ensures usage { result ≡ ExitStatus.Usage → ⊥ }
    ensures tree_fault { result ≡ ExitStatus.TreeFault → ⊥ }
    ensures sink_fault { result ≡ ExitStatus.SinkFault → Rose (S.faults out.old) (S.faults out.new) }
{
    let status = status_of(explanation.ending);
    let Ok(text) = explanation_text(alloc, explanation, as_json) else {
        return ExitStatus::Memory;
    };
    match out.put(&text) {
        Ok(()) => status,
        Err(_) => ExitStatus::SinkFault,
    }
}

/// How the program ends behind an explanation.
fn status_of(ending: Ending) -> ExitStatus
    ensures { result ≡ status_for ending }
{
    match ending {
        Ending::Done => ExitStatus::Done,
        Ending::Refused => ExitStatus::Refused,
        Ending::Project => ExitStatus::Project,
    }
}
