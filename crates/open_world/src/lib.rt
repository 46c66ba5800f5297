//! What stays valid whatever units define the outside modules.
//!
//! The laws are about trees. The units that define outside modules are first in the order of linking. No law says that
//! the derived order keeps a renaming valid. With a submodule the law is false: `open Stdlib` beside a unit `List`.
#![tactic(auto)]

mod laws;

pub use laws::{files_may_move, outside_may_open};
