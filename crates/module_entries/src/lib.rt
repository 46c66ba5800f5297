//! What an item adds to its scope, and the shapes of functors and sealed modules.
#![tactic(auto)]

mod entries;
mod functors;

pub use entries::{
    Added, add_nothing, add_opened, add_shown, append, declare_value, named_module, token_of,
    type_entry,
};
pub use functors::{
    end_empty_param, functor_from, functor_of, module_site, param_entries, type_at, type_start,
};
