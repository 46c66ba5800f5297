//! Edits of a text.

ghost use Rattle.std.specs.Prelude.{◌≡◌, ◌+◌, ◌<◌, ◌^◌, All, IfOk, OnOk, length, map};
ghost use Rattle.std.specs.Str.{IsUtf8};
ghost use Rattle.edits.specs.Replaced.{AreInOrder, replaced};
ghost use Rattle.source_edits.specs.Ranges.{range_of};
ghost use Rattle.source_edits.specs.Edited.{IsEdited};
ghost use Rattle.source_edits.specs.Renamed.{IsWord, edit_of, text_edit_of};

use crate::ranges::{Span, TextRange, ranges_of};
use rotor_base::{Memory, Name};
use std::alloc::Global;
use text_places::Counting;

/// A range of a text, and the text that takes its place.
#[derive(Debug, Drop)]
pub struct TextEdit {
    pub range: TextRange,
    pub text: Name,
}

/// The edits that put a new word in the place of some words of a source in UTF-8. The spans of the words are in order,
/// and do not overlap. If an editor applies the edits as the Language Server Protocol says, it has the source with each
/// span replaced. `Memory` is the only error.
pub fn text_edits(
    alloc: Global,
    counting: Counting,
    source: &[u8],
    spans: &[Span],
    new: &[u8],
) -> Result<Vec<TextEdit>, Memory>
    requires room { length source.now + 1 < 2 ^ 32 }
    requires text { IsUtf8 source.now }
    requires spans { AreInOrder 0 (length source.now) (map (edit_of new.now) spans.now) }
    requires words { All (IsWord source.now) spans.now }
    ensures each { IfOk result (λ list. list.items ≡ map (text_edit_of counting source.now new.now) spans.now) }
    ensures edited { IfOk result (λ list. IsEdited counting source.now list.items (replaced source.now (map (edit_of new.now) spans.now))) }
{
    let ranges = ranges_of(alloc, counting, source, spans)?;
    let mut list = Vec::new(alloc);
    for range in &ranges {
        list.push(TextEdit {
            range: *range,
            text: Name::new(alloc, new)?,
        })?;
    }
    Ok(list)
}
