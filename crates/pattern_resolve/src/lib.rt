//! Patterns, the values of bindings and applications of modules, resolved.
#![tactic(auto)]

mod local;
mod patterns;
mod values;

pub use local::{apply, apply_to_nothing, local_module, shape_at, share_result};
pub use patterns::{pattern, pattern_group, value_group, variables_group};
pub use values::{let_values, module_entry, variable_group};
