//! Modules and module types, resolved in their scopes.
#![tactic(auto)]

mod modules;

pub use module_entries::Added;
pub use modules::{module, module_type, signature, structure};
