//! The reason for which a folder is not loaded.
ghost use Rattle.std.specs.Prelude.{◌≡◌, IfOk, IsErrOf, OnOk};
ghost use Rattle.project_load.specs.Load.{IsOutside};
ghost use Rattle.tree_io.specs.declared.outside.TreeError.TheVariants as fault;

use rotor_base::LoadError;
use tree_io::TreeError;

/// The reason that lies in the folder. A fault and want of memory are none.
///
/// # Errors
///
/// `Failed` for a fault, and `Memory` for want of memory.
pub fn reason_of(error: LoadError) -> Result<LoadError, TreeError>
    ensures same { IfOk result (λ why. why ≡ error) }
    ensures inside { OnOk result (IsOutside error → ⊥) }
    ensures failed { IsErrOf result fault.Failed → error ≡ LoadError.Read }
{
    match error {
        LoadError::Read => Err(TreeError::Failed),
        LoadError::Memory => Err(TreeError::Memory),
        _ => Ok(error),
    }
}
