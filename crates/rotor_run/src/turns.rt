//! The program over a folder that is read once.
ghost use Rattle.std.specs.Prelude.{◌≡◌, ◌⊎◌, map, string_bytes, IfNone, IfOk};
ghost use Rattle.std.specs.Option.{ForSome};
ghost use Rattle.cli_words.specs.Words.{command_of};
ghost use Rattle.known.specs.Known.{files_of, known_faults, known_files, known_tree};
ghost use Rattle.command_replies.specs.Said.{AsksNothing};
ghost use Rattle.command_replies.specs.Table.{IsRefusal, TreeStopped};
ghost use Rattle.rotor_run.specs.Run.{IsRun, IsRunOver};

use crate::ended::Ended;
use crate::seeing::read_for_command;
use cli_words::{Command, WordsError, read_words};
use command_replies::Status;
use known::{Known, Outer};
use rotor_app::rotor;
use rotor_base::Memory;
use std::alloc::Global;
use tree_io::{Sink, TreeError};

/// The most turns of a command. All commands need one, unless another process changes the folder meanwhile.
const MAX_TURNS: u32 = 4096;

/// Runs the command of the words over a folder and an output, and returns how it ended, with the folder.
///
/// The folder is listed once, and each file that the command may ask is read once. Then `rotor` runs over what was
/// read. Words that ask nothing of the folder do not call it.
pub fn run_command<T: Outer + Drop, S: Sink>(
    alloc: Global,
    words: &[String],
    tree: T,
    out: &mut S,
) -> Ended<T>
    requires { S.faults out.old ≡ 0 }

    // The status and the text are those of the one reply to a map of what was read, or the folder or the output failed,
    // or there was no memory. If the content of the folder is modelled, the map is the folder's, and the folder is left
    // with the writes of the reply.
    ensures run { IsRun (command_of (map string_bytes words.now)) (T.content tree) (T.content result.folder) (S.taken out.old) (S.taken out.new) result.status }

    // Refusals and want of memory leave the folder. If the folder failed, nothing was written, or a write failed.
    ensures unchanged { IsRefusal result.status → T.content result.folder ≡ T.content tree }
    ensures stopped { (result.status ≡ Status.TreeFault) → ForSome (T.content tree) (λ files. TreeStopped (command_of (map string_bytes words.now)) files (T.content result.folder)) }
    ensures quiet { (result.status ≡ Status.TreeFault) ⊎ (result.status ≡ Status.Memory) → out.new ≡ out.old }
{
    let mut loaded = Vec::new(alloc);
    match read_asking(alloc, words) {
        Err(Memory) => Ended::make_unseen(TreeError::Memory, tree),
        Ok(None) => run_alone(alloc, words, tree, out),
        Ok(Some(command)) => match read_for_command(alloc, &command, tree, &mut loaded) {
            Err(ended) => ended,
            Ok(known) => run_known(alloc, words, known, out),
        },
    }
}

/// Runs the command of the words over a folder of which is known what the command may ask.
fn run_known<T: Outer + Drop, S: Sink>(
    alloc: Global,
    words: &[String],
    mut known: Known<T>,
    out: &mut S,
) -> Ended<T>
    requires known { known_faults known ≡ 0 }
    requires out { S.faults out.old ≡ 0 }
    ensures run { IsRun (command_of (map string_bytes words.now)) (T.content (known_tree known)) (T.content result.folder) (S.taken out.old) (S.taken out.new) result.status }
    ensures unchanged { IsRefusal result.status → T.content result.folder ≡ T.content (known_tree known) }
    ensures stopped { (result.status ≡ Status.TreeFault) → ForSome (T.content (known_tree known)) (λ files. TreeStopped (command_of (map string_bytes words.now)) files (T.content result.folder)) }
    ensures quiet { (result.status ≡ Status.TreeFault) ⊎ (result.status ≡ Status.Memory) → out.new ≡ out.old }
{
    let status = run_over(alloc, words, &mut known, out);
    Ended {
        status,
        folder: known.into_tree(),
    }
}

/// The command of the words, if it asks the folder.
fn read_asking(alloc: Global, words: &[String]) -> Result<Option<Command>, Memory>
    ensures { IfOk result (λ asked. IfNone asked (AsksNothing (command_of (map string_bytes words.now)))) }
{
    match read_words(alloc, words) {
        Ok(Command::Sample(_)) | Err(WordsError::Usage) => Ok(None),
        Ok(command) => Ok(Some(command)),
        Err(WordsError::Memory) => Err(Memory),
    }
}

/// Runs the command of words that ask nothing of the folder.
fn run_alone<T: Outer + Drop, S: Sink>(
    alloc: Global,
    words: &[String],
    mut tree: T,
    out: &mut S,
) -> Ended<T>
    requires asks { AsksNothing (command_of (map string_bytes words.now)) }
    requires faults { S.faults out.old ≡ 0 }
    ensures run { IsRun (command_of (map string_bytes words.now)) (T.content tree) (T.content result.folder) (S.taken out.old) (S.taken out.new) result.status }
    ensures folder { result.folder ≡ tree }
    ensures quiet { (result.status ≡ Status.TreeFault) ⊎ (result.status ≡ Status.Memory) → out.new ≡ out.old }
{
    let status = rotor(alloc, words, &mut tree, out);
    Ended {
        status,
        folder: tree,
    }
}

/// Runs the command of the words over a folder of which is known what the command may ask. If it asks more, that is
/// read, and the command runs again.
pub fn run_over<T: Outer + Drop, S: Sink>(
    alloc: Global,
    words: &[String],
    known: &mut Known<T>,
    out: &mut S,
) -> Status
    requires known { known_faults known.old ≡ 0 }
    requires out { S.faults out.old ≡ 0 }

    // For some map of what was read, the status, the files and the text are those of the one reply to it. If the
    // content of the folder is modelled, the map is the folder's.
    ensures run { IsRunOver (command_of (map string_bytes words.now)) (T.content (known_tree known.old))
        (files_of (T.content (known_tree known.new)) (known_files known.new)) (S.taken out.old) (S.taken out.new) result }
    ensures unchanged { IsRefusal result → T.content (known_tree known.new) ≡ T.content (known_tree known.old) }
    ensures stopped { (result ≡ Status.TreeFault) → ForSome (T.content (known_tree known.old)) (λ files. TreeStopped (command_of (map string_bytes words.now)) files (T.content (known_tree known.new))) }
    ensures quiet { (result ≡ Status.TreeFault) ⊎ (result ≡ Status.Memory) → out.new ≡ out.old }
{
    for _ in 0..MAX_TURNS {
        match rotor(alloc, words, known, out) {
            Status::Memory => {}
            status => return status,
        }
        match known.learn(alloc) {
            Ok(true) => {}
            Ok(false) | Err(TreeError::Memory) => return Status::Memory,
            Err(TreeError::Failed) => return Status::TreeFault,
        }
    }
    Status::Memory
}
