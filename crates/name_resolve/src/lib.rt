//! What the resolvers of expressions and of modules share: the state that grows, scopes, uses and variables.
#![tactic(auto)]

mod binders;
mod found;
mod linked;
mod opened;
mod paths;
mod recording;
mod scopes;
mod uses;

pub use binders::{bind, bind_name, bind_variable, variables};
pub use found::{
    begin_unit, end_opening_of_nothing, end_opening_site, end_weighed_site, group, use_alone,
    use_under,
};
pub use linked::{match_target, pin_outside, tie_parts};
pub use opened::{Opened, open_any, open_in, opened_at};
pub use paths::{path_in, resolve_opening, start_of};
pub use scopes::go_on_with;
pub use uses::{use_label, use_minus, use_name, use_name_in, use_operator, use_word};
