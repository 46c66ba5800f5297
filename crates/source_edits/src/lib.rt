//! The edits of a source as an editor applies them: the ranges of replaced spans, and what they make of the text.
#![tactic(auto)]

mod laws;
mod ranges;
mod text_edit;

pub use laws::edited_texts_are_one;
pub use ranges::{Span, TextRange, ranges_of};
pub use text_edit::{TextEdit, text_edits};
