//! Reading what a command may ask. The calls that read it are those of the command, in its order, so that the bounds of
//! loading are kept, and the first fault is the command's.
ghost use Rattle.std.specs.Prelude.{◌≡◌, IfErr, IfOk};
ghost use Rattle.known.specs.Known.{known_faults, known_tree};
ghost use Rattle.known.specs.Seeing.{seeing_tree};
ghost use Rattle.rotor_run.specs.Run.{IsUnseen};

use crate::ended::Ended;
use apply_journal::{RecoverError, gate_open, read_recovery};
use cli_words::Command;
use known::{Known, Outer, Seeing, see_names};
use project_load::{ListError, is_project_file, load, load_list};
use rotor_base::{Files, LoadError, MAX_FILE_BYTES};
use std::alloc::Global;
use tree_io::{Tree, TreeError};

/// The most bytes of a batch that are read: one more than it may have.
const BATCH_LIMIT: u32 = MAX_FILE_BYTES + 1;

/// The folder with what a command may ask of it. The files that its calls loaded are added to `loaded`: a large file
/// that is freed before the command runs makes the memory that follows slower. If the folder failed or there was no
/// memory, the run ends so, with the folder as it was.
pub(crate) fn read_for_command<T: Outer + Drop>(
    alloc: Global,
    command: &Command,
    mut tree: T,
    loaded: &mut Vec<Files>,
) -> Result<Known<T>, Ended<T>>
    ensures content { IfOk result (λ known. T.content (known_tree known) ≡ T.content tree) }
    ensures faults { IfOk result (λ known. known_faults known ≡ 0) }
    ensures stopped { IfErr result (λ ended. IsUnseen ended.status) }
    ensures folder { IfErr result (λ ended. T.content ended.folder ≡ T.content tree) }
{
    let seen = match see_names(alloc, &mut tree) {
        Ok(seen) => seen,
        Err(error) => return Err(Ended::make_unseen(error, tree)),
    };
    let mut seeing = Seeing::new(tree, seen);
    if let Err(error) = see_asked(alloc, command, &mut seeing, loaded) {
        return Err(Ended::make_unseen(error, seeing.into_tree()));
    }
    match seeing.into_known(alloc) {
        Ok(known) => Ok(known),
        Err(tree) => Err(Ended::make_unseen(TreeError::Memory, tree)),
    }
}

/// Reads what a command may ask.
fn see_asked<T: Outer + Drop>(
    alloc: Global,
    command: &Command,
    seeing: &mut Seeing<T>,
    loaded: &mut Vec<Files>,
) -> Result<(), TreeError>
    ensures { T.content (seeing_tree seeing.new) ≡ T.content (seeing_tree seeing.old) }
{
    match command {
        Command::Sample(_) => Ok(()),
        Command::Check | Command::Shape(_) => {
            see_project(alloc, false, seeing, loaded).map(|_| ())
        }
        Command::Rename { write, safe, .. } => {
            see_project(alloc, *write || *safe, seeing, loaded).map(|_| ())
        }
        Command::Batch { file, write } => {
            if see_project(alloc, *write, seeing, loaded)? {
                see_batch(alloc, file.as_str(), seeing)?;
            }
            Ok(())
        }
        Command::Verify { old, new } => {
            if see_list(alloc, old.as_str(), seeing, loaded)? {
                see_list(alloc, new.as_str(), seeing, loaded)?;
            }
            Ok(())
        }
        Command::Recover => see_recovery(alloc, seeing),
    }
}

/// Reads the files that the folder loads as, and the gate if it is asked. Returns whether the command goes on: the
/// folder loads, and an open gate does not stop it.
fn see_project<T: Outer + Drop>(
    alloc: Global,
    asks_gate: bool,
    seeing: &mut Seeing<T>,
    loaded: &mut Vec<Files>,
) -> Result<bool, TreeError>
    ensures { T.content (seeing_tree seeing.new) ≡ T.content (seeing_tree seeing.old) }
{
    match load(alloc, seeing) {
        Ok(files) => {
            loaded.push(files)?;
            if asks_gate {
                return see_gate(alloc, seeing);
            }
            Ok(true)
        }
        Err(LoadError::Read) => Err(TreeError::Failed),
        Err(
            LoadError::TooMany { .. }
            | LoadError::TooLarge { .. }
            | LoadError::DoubleUnit { .. }
            | LoadError::BadManifest { .. }
            | LoadError::Memory,
        ) => Ok(false),
    }
}

/// Reads the gate, and returns whether it is closed.
fn see_gate<T: Outer + Drop>(alloc: Global, seeing: &mut Seeing<T>) -> Result<bool, TreeError>
    ensures { T.content (seeing_tree seeing.new) ≡ T.content (seeing_tree seeing.old) }
{
    match gate_open(alloc, seeing) {
        Ok(is_open) => Ok(!is_open),
        Err(RecoverError::Read) => Err(TreeError::Failed),
        Err(RecoverError::Memory) => Ok(false),
        Err(RecoverError::Write | RecoverError::BadPlan) => unreachable!(),
    }
}

/// Reads a batch, if its file may hold one.
fn see_batch<T: Outer + Drop>(
    alloc: Global,
    file: &str,
    seeing: &mut Seeing<T>,
) -> Result<(), TreeError>
    ensures { T.content (seeing_tree seeing.new) ≡ T.content (seeing_tree seeing.old) }
{
    if is_project_file(file) || !seeing.recall().has(file) {
        return Ok(());
    }
    match seeing.read(alloc, file, BATCH_LIMIT) {
        Err(TreeError::Failed) => Err(TreeError::Failed),
        Ok(_) | Err(TreeError::Memory) => Ok(()),
    }
}

/// Reads a list and the files that it names, and returns whether they are a project's.
fn see_list<T: Outer + Drop>(
    alloc: Global,
    list: &str,
    seeing: &mut Seeing<T>,
    loaded: &mut Vec<Files>,
) -> Result<bool, TreeError>
    ensures { T.content (seeing_tree seeing.new) ≡ T.content (seeing_tree seeing.old) }
{
    match load_list(alloc, seeing, list) {
        Ok(files) => {
            loaded.push(files)?;
            Ok(true)
        }
        Err(ListError::Read) => Err(TreeError::Failed),
        Err(ListError::BadList { .. } | ListError::Load(_)) => Ok(false),
    }
}

/// Reads the gate, and the plan if the gate is open.
fn see_recovery<T: Outer + Drop>(alloc: Global, seeing: &mut Seeing<T>) -> Result<(), TreeError>
    ensures { T.content (seeing_tree seeing.new) ≡ T.content (seeing_tree seeing.old) }
{
    match read_recovery(alloc, seeing) {
        Err(RecoverError::Read) => Err(TreeError::Failed),
        Ok(_) | Err(RecoverError::BadPlan | RecoverError::Memory) => Ok(()),
        Err(RecoverError::Write) => unreachable!(),
    }
}
