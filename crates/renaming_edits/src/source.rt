//! The edits of one source.

ghost use Rattle.std.specs.Prelude.{◌≡◌, ◌+◌, ◌≤◌, ◌++◌, ◌&&◌, List, [], ◌∷◌, IfOk, OnOk, length, if◌then◌else◌};
ghost use Rattle.std.specs.BTreeSet.{contains};
ghost use Rattle.std.specs.Str.{IsUtf8, is_utf8};
ghost use Rattle.rotor_base.specs.Limits.{max_file_bytes};
ghost use Rattle.rotor_base.specs.Place.{place_cmp};
ghost use Rattle.ml_lexer.specs.Lexed.{Lexeme, Lexed, view_tokens};
ghost use Rattle.ml_lexer.specs.Respelled.{respelled};
ghost use Rattle.rename_parts.specs.Hits.{hit_words, is_lower};
ghost use Rattle.source_edits.specs.Edited.{IsEdited};
ghost use Rattle.renaming_edits.specs.Spans.{word_spans};

use ml_lexer::lex;
use rotor_base::{Class, Memory, Place, Token};
use source_edits::{Span, TextEdit, text_edits};
use std::alloc::Global;
use std::collections::BTreeSet;
use text_places::Counting;

/// The edits that give the lower-case words of a source at the places of a set a new word.
pub(crate) fn source_edits(
    alloc: Global,
    counting: Counting,
    source: &[u8],
    file: u32,
    set: &BTreeSet<Place>,
    new: &[u8],
) -> Result<Vec<TextEdit>, Memory>
    requires small { length source.now ≤ max_file_bytes }
    requires text { IsUtf8 source.now }
    ensures { IfOk result (λ list. (xs : List Lexeme) → Lexed source.now xs → IsEdited counting source.now list.items (respelled source.now xs (hit_words set.now file new.now 1 xs))) }
{
    let tokens = tokens_of(alloc, source)?;
    let spans = word_spans(alloc, &tokens, file, set)?;
    text_edits(alloc, counting, source, &spans, new)
}

/// The tokens of a source.
fn tokens_of<'a>(alloc: Global, source: &'a [u8]) -> Result<Vec<Token<'a>>, Memory>
    requires { length source.now ≤ max_file_bytes }
    ensures cut { IfOk result (λ tokens. Lexed source.now (view_tokens tokens.items)) }
    ensures few { IfOk result (λ tokens. length tokens.items ≤ max_file_bytes) }
{
    match lex(alloc, source) {
        Ok(tokens) => Ok(tokens),
        Err(_) => Err(Memory),
    }
}

/// The spans of the lower-case words at the places of a set.
fn word_spans(
    alloc: Global,
    tokens: &[Token],
    file: u32,
    set: &BTreeSet<Place>,
) -> Result<Vec<Span>, Memory>
    requires { length tokens.now ≤ max_file_bytes }
    ensures { IfOk result (λ spans. spans.items ≡ word_spans set.now file 1 (view_tokens tokens.now)) }
{
    let mut spans = Vec::new(alloc);
    let mut number: u32 = 1;
    for token in tokens {
        let place = Place {
            file,
            token: number,
        };
        add_span(&mut spans, token, place, set)?;
        number += 1;
    }
    Ok(spans)
}

/// Adds the span of a token, if it is a lower-case word at a place of the set.
fn add_span(
    spans: &mut Vec<Span>,
    token: &Token,
    place: Place,
    set: &BTreeSet<Place>,
) -> Result<(), Memory>
    ensures { OnOk result (spans.new.items ≡ (if is_lower token.now.class && contains place_cmp set.now place then spans.old.items ++ (record { start = token.now.start; end = token.now.end }) ∷ [] else spans.old.items)) }
{
    if !is_lower(token.class) {
        return Ok(());
    }
    if !set.contains(&place) {
        return Ok(());
    }
    spans.push(Span {
        start: token.start,
        end: token.end,
    })?;
    Ok(())
}

/// Whether a class is that of lower-case words.
fn is_lower(class: Class) -> bool
    ensures { result ≡ is_lower class }
{
    class == Class::Lower
}

/// Whether bytes are a text in UTF-8.
pub(crate) fn is_text(bytes: &[u8]) -> bool
    ensures { result ≡ is_utf8 bytes.now }
{
    str::from_utf8(bytes).is_ok()
}
