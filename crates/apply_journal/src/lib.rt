//! Safe writes: a plan of the changed files, a gate that says whether the plan counts, and the recovery after a stop.
#![tactic(auto)]

mod error;
mod gate;
mod laws;
mod plan;
mod reading;
mod recovery;
mod safe;

pub use error::{PlanError, RecoverError};
pub use gate::gate_open;
pub use laws::{plans_are_one, stops_are_recovered};
pub use plan::{Plan, make_plan};
pub use reading::read_plan;
pub use recovery::{Recovery, read_recovery, recover};
pub use safe::{safe_apply, safe_writes, take_room};
