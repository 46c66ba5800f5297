//! What `rotor-explain` says of the files of a project: for people and for tools.
#![tactic(auto)]

mod around;
mod blurs;
mod checked;
mod diffs;
mod ending;
mod explanation;
mod lines;
mod opened;
mod path_stop;
mod refused;
mod renamed;
mod shown;
mod sources;
mod targets;
mod valueless;

pub use checked::explain_check;
pub use diffs::diffs_text;
pub use ending::Ending;
pub use explanation::{
    Explanation, explain_by_message, explain_by_text, explain_unloaded, explanation_text,
};
pub use lines::{place_message, place_word};
pub use renamed::explain_rename;
pub use shown::explain_footprint;
pub use valueless::valueless_text;
