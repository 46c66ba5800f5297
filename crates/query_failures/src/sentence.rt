//! Messages in one line.
ghost use Rattle.std.specs.Prelude.{◌≡◌, IfOk, None, Some};
ghost use Rattle.query_failures.specs.Sentence.{message_sentence as message_sentence_of, sentence_at};

use messages::{Message, Spot, join_words, kind_text, spot_text};
use rotor_base::{Memory, Row};
use std::alloc::Global;

/// A message in one line, with its place and its kind. Its notes and its help are left out. The one error is want of
/// memory.
pub fn message_sentence(alloc: Global, message: &Message) -> Result<Row<u8>, Memory>
    ensures { IfOk result (λ text. text ≡ message_sentence_of message.now) }
{
    let kind = kind_text(message.kind);
    match &message.at {
        None => placeless_sentence(alloc, message.text.as_slice(), kind),
        Some(spot) => placed_sentence(alloc, spot, message.text.as_slice(), kind),
    }
}

/// A text with its kind behind it.
fn placeless_sentence(alloc: Global, text: &[u8], kind: &str) -> Result<Row<u8>, Memory>
    ensures { IfOk result (λ line. line ≡ sentence_at None text.now kind.now) }
{
    join_words(alloc, &[text, b" [", kind.as_bytes(), b"]"])
}

/// A text with its place before it and its kind behind it.
fn placed_sentence(alloc: Global, spot: &Spot, text: &[u8], kind: &str) -> Result<Row<u8>, Memory>
    ensures { IfOk result (λ line. line ≡ sentence_at (Some spot.now) text.now kind.now) }
{
    let place = spot_text(alloc, spot)?;
    join_words(
        alloc,
        &[place.as_slice(), b": ", text, b" [", kind.as_bytes(), b"]"],
    )
}
