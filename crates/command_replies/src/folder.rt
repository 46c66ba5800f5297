//! What the commands ask of the folder: its files, and whether they may write.
ghost use Rattle.std.specs.Prelude.{◌≡◌, ◌↔◌, Err, IfOk, IfSome, IsErrOf, OnOk};
ghost use Rattle.tree_io.specs.Outside.{HasCause, StaysSteady};
ghost use Rattle.project_load.specs.Load.{IsOutside, loaded};
ghost use Rattle.command_replies.specs.Said.{Finds, Permits};

use apply_journal::{RecoverError, gate_open};
use project_load::load;
use rotor_base::{Files, LoadError};
use std::alloc::Global;
use tree_io::{Tree, TreeError};

/// What a command that may write finds in the folder.
#[derive(Debug, Drop)]
pub enum Opened {
    /// The files of a project, which the command may write.
    Project(Files),
    /// A project, and the gate is open, so that the command may not write.
    Pending,
    /// No project's files.
    NotLoaded(LoadError),
}

/// The files that the folder loads as, or why it is not taken as a project's files. The errors are `Failed` and
/// `Memory`.
pub fn load_project<T: Tree>(
    alloc: Global,
    tree: &mut T,
) -> Result<Result<Files, LoadError>, TreeError>
    ensures answer { IfOk result (λ answer. IfSome (T.content tree.old) (λ held. loaded held ≡ answer)) }
    ensures content { T.content tree.new ≡ T.content tree.old }
    ensures cause { HasCause (T.faults tree.old) (T.faults tree.new) result }
    ensures steady { StaysSteady (T.is_steady tree.old) (T.is_steady tree.new) (IsErrOf result TreeError.Failed) }
{
    match load(alloc, tree) {
        Ok(files) => Ok(Ok(files)),
        Err(error) => refused_load(error),
    }
}

/// The answer of a folder that is not taken as a project's files, if neither it nor memory failed.
fn refused_load(error: LoadError) -> Result<Result<Files, LoadError>, TreeError>
    ensures refused { IfOk result (λ answer. answer ≡ Err error) }
    ensures inside { OnOk result (IsOutside error → ⊥) }
    ensures failed { IsErrOf result TreeError.Failed ↔ (error ≡ LoadError.Read) }
{
    match error {
        LoadError::Read => Err(TreeError::Failed),
        LoadError::Memory => Err(TreeError::Memory),
        error => Ok(Err(error)),
    }
}

/// What a command finds in the folder. If it `writes`, the gate has to be closed. The errors are `Failed` and `Memory`.
pub fn open_project<T: Tree>(alloc: Global, writes: bool, tree: &mut T) -> Result<Opened, TreeError>
    ensures found { IfOk result (λ opened. IfSome (T.content tree.old) (λ held. Finds writes held opened)) }
    ensures content { T.content tree.new ≡ T.content tree.old }
    ensures cause { HasCause (T.faults tree.old) (T.faults tree.new) result }
    ensures steady { StaysSteady (T.is_steady tree.old) (T.is_steady tree.new) (IsErrOf result TreeError.Failed) }
{
    match load_project(alloc, tree)? {
        Err(error) => Ok(Opened::NotLoaded(error)),
        Ok(files) => {
            if may_write(alloc, writes, tree)? {
                Ok(Opened::Project(files))
            } else {
                Ok(Opened::Pending)
            }
        }
    }
}

/// Whether a command may write: it does not write, or the gate is not open.
fn may_write<T: Tree>(alloc: Global, writes: bool, tree: &mut T) -> Result<bool, TreeError>
    ensures permits { IfOk result (λ may. IfSome (T.content tree.old) (λ held. Permits writes held may)) }
    ensures content { T.content tree.new ≡ T.content tree.old }
    ensures cause { HasCause (T.faults tree.old) (T.faults tree.new) result }
    ensures steady { StaysSteady (T.is_steady tree.old) (T.is_steady tree.new) (IsErrOf result TreeError.Failed) }
{
    if !writes {
        return Ok(true);
    }
    match gate_open(alloc, tree) {
        Ok(is_open) => Ok(!is_open),
        Err(RecoverError::Read) => Err(TreeError::Failed),
        Err(RecoverError::Memory) => Err(TreeError::Memory),
        Err(RecoverError::Write | RecoverError::BadPlan) => unreachable!(),
    }
}
