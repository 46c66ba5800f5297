//! Recorders.

ghost use Rattle.std.specs.Prelude.{◌≡◌, IfOk};
ghost use Rattle.binding_model.specs.Taken.{no_looks};

use binding_model::Recorder;
use rotor_base::{Looks, Memory, Row, Watch};
use std::alloc::Global;
use watched::Watched;

/// A recorder of this renaming, without looks. `Memory` is the only error.
pub fn recorder_of(alloc: Global, watch: &Watch) -> Result<Recorder, Memory>
    ensures { IfOk result (λ r. r ≡ record { watch = watch.now; looks = no_looks }) }
{
    Ok(Recorder {
        watch: Watched::new(alloc, watch)?,
        looks: Looks {
            refs: Row::new(alloc),
            links: Row::new(alloc),
            passed: 0,
        },
    })
}
