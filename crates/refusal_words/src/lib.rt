//! The sentences of `rotor-explain`: each refusal of a folder, a source, a target, a name, a renaming or a list, as a
//! message over the sources.
#![tactic(auto)]

mod captured;
mod commands;
mod cut;
mod cutting;
mod faults;
mod folder;
mod naming;
mod parts;
mod puns;
mod refused;
mod renaming;
mod source;
mod stretches;
mod target;
mod unnamed;

pub use captured::{capture, mislink};
pub use commands::{
    bad_plan, batch_line, explain_fixed, list_line, long_batch, no_batch, no_list, other_bytes,
    other_sources,
};
pub use cut::CutSource;
pub use cutting::{cut_source, cut_sources};
pub use folder::{
    double_unit, large_file, large_sum, missing_unit, repeated_unit, too_many, unknown_unit,
};
pub use naming::{bad_name, same_name};
pub use parts::make_error;
pub use puns::pun_refused;
pub use refused::{in_step, project_message, renaming_message};
pub use renaming::{blurred_link, blurred_use, clash, explain_grown, explain_outside, source_name};
pub use source::{
    duplicate, explain_heavy, explain_unmatched, explain_unread, form_refused, lex_refused,
    long_name, on_cycle, too_deep,
};
pub use stretches::{byte_spot, place_spot, word_at, word_end, word_start};
pub use target::{a_use, explain_nameless, foreign_value, no_value, operator};
pub use unnamed::{no_line, no_member, no_path, no_source, no_token, no_token_at};
