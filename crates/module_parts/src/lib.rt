//! The context of the readers of modules, and what they read without a structure inside it: names, constraints,
//! parameters of functors, items of signatures, and the parts of a module type that its arrows part.
#![tactic(auto)]

mod arrows;
mod constraints;
mod modules;
mod names;
mod parameters;
mod sig_items;

pub use arrows::{Domain, Step, with_arrows};
pub use constraints::with_clauses;
pub use modules::Modules;
pub use names::{external, module_name, read_opened};
