//! Parameters, bindings, cases and the forms of level 1 and 2.
#![tactic(auto)]

mod bindings;
mod branches;
mod cases;
mod forms;
mod params;
mod readers;

pub use branches::Otherwise;
pub use readers::Forms;
