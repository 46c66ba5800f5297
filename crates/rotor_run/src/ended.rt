//! How a run ended.
ghost use Rattle.std.specs.Prelude.{◌≡◌};
ghost use Rattle.rotor_run.specs.Run.{IsUnseen};

use command_replies::Status;
use tree_io::TreeError;

/// How a run ended: the status, and the folder that it was given.
#[derive(Drop)]
pub struct Ended<T> {
    pub status: Status,
    pub folder: T,
}

impl<T> Ended<T> {
    /// A run that ended before the command ran.
    pub(crate) fn make_unseen(error: TreeError, folder: T) -> Self
        ensures status { IsUnseen result.status }
        ensures folder { result.folder ≡ folder }
    {
        let status = match error {
            TreeError::Failed => Status::TreeFault,
            TreeError::Memory => Status::Memory,
        };
        Ended { status, folder }
    }
}
