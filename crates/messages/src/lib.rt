//! Messages for people: a sentence at a stretch of a source, with the line that it is on, further places and a help, as
//! text and as JSON.
#![tactic(auto)]

mod compact;
mod excerpt;
mod kinds;
mod laws;
mod parts;
mod printed;
mod span;
mod terminal;
mod words;

pub use compact::json_text;
pub use kinds::{Kind, kind_text};
pub use laws::shown_characters_are_safe;
pub use parts::{Message, Note, Severity, Spot};
pub use printed::{push_message, spot_text};
pub use span::spot_in;
pub use terminal::{show_bytes, shown_word};
pub use words::{format_count, group_digits, join_words};
