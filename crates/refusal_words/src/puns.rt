//! The sentences of puns.
ghost use Rattle.std.specs.Prelude.{◌≡◌, IfOk, map};
ghost use Rattle.ml_lexer.specs.Lexed.{view_token};
ghost use Rattle.refusal_words.specs.Cut.{view_cut};
ghost use Rattle.refusal_words.specs.Puns.{argument_pun as argument_pun_of, cut_pun as cut_pun_of, label_pun as label_pun_of, mark_of as mark_for, mark_text as mark_text_of, pun_refused as pun_refused_of, pun_at as pun_at_of, pun_help as pun_help_of, pun_sentence as pun_sentence_of, token_pun as token_pun_of, written_for as written_for_of};

use crate::cut::CutSource;
use crate::parts::{make_error_at, wrap_word};
use crate::stretches::{is_label, place_spot, word_at, word_before};
use messages::{Kind, Message, join_words};
use rotor_base::{Memory, Place, Row, Token};
use std::alloc::Global;

/// The mark of a label.
#[derive(Clone, Copy, Debug, PartialEq, Eq)]
pub(crate) enum Mark {
    /// `~`
    Tilde,
    /// `?`
    Question,
}

/// How a word is a label or a field, and a value, at once.
#[derive(Clone, Copy, Debug, PartialEq, Eq)]
pub(crate) enum Pun {
    /// `~w` or `?w`.
    Label(Mark),
    /// `~(w` or `?(w`.
    Argument(Mark),
    /// A field `w`.
    Field,
}

/// The message of a word that is a label or a field, and a value, at once. The one error is want of memory.
pub fn pun_refused(alloc: Global, cuts: &[CutSource<'_>], at: Place) -> Result<Message, Memory>
    ensures { IfOk result (λ message. message ≡ pun_refused_of (map view_cut cuts.now) at) }
{
    let kind = pun_at(cuts, at);
    let word = word_at(cuts, at);
    let text = wrap_word(alloc, "`", word, pun_sentence(kind))?;
    let help = pun_help(alloc, kind, word)?;
    let spot = place_spot(alloc, cuts, at)?;
    Ok(make_error_at(Kind::Pun, text, spot, Row::new(alloc), Some(help)))
}

/// The pun at a place.
fn pun_at(cuts: &[CutSource<'_>], at: Place) -> Pun
    ensures { result ≡ pun_at_of (map view_cut cuts.now) at }
{
    match cuts.get(at.file as usize) {
        Some(cut) => cut_pun(cut, at.token),
        None => Pun::Field,
    }
}

/// The pun at a token of a source.
fn cut_pun(cut: &CutSource<'_>, number: u32) -> Pun
    ensures { result ≡ cut_pun_of (view_cut cut.now) number }
{
    match cut.tokens.get(number.saturating_sub(1) as usize) {
        Some(token) => token_pun(cut, token, number),
        None => Pun::Field,
    }
}

/// The pun that a token is: a label, a word behind a mark and a parenthesis, or a field.
fn token_pun(cut: &CutSource<'_>, token: &Token<'_>, number: u32) -> Pun
    ensures { result ≡ token_pun_of (view_cut cut.now).lexemes (view_token token.now) number }
{
    if is_label(token.class) {
        label_pun(token.bytes)
    } else if word_before(cut, number, 1) == b"(".as_slice() {
        argument_pun(word_before(cut, number, 2))
    } else {
        Pun::Field
    }
}

/// The pun of a label.
fn label_pun(label: &[u8]) -> Pun
    ensures { result ≡ label_pun_of label.now }
{
    match label {
        [] => Pun::Label(Mark::Tilde),
        [first, ..] => Pun::Label(mark_of(*first)),
    }
}

/// The mark that a byte is.
fn mark_of(byte: u8) -> Mark
    ensures { result ≡ mark_for byte }
{
    if byte == b'?' {
        Mark::Question
    } else {
        Mark::Tilde
    }
}

/// The pun of a word in parentheses behind another word.
fn argument_pun(before: &[u8]) -> Pun
    ensures { result ≡ argument_pun_of before.now }
{
    if before == b"~".as_slice() {
        Pun::Argument(Mark::Tilde)
    } else if before == b"?".as_slice() {
        Pun::Argument(Mark::Question)
    } else {
        Pun::Field
    }
}

/// What is said of a pun behind its word.
fn pun_sentence(pun: Pun) -> &'static str
    ensures { result.now ≡ pun_sentence_of pun }
{
    match pun {
        Pun::Label(_) | Pun::Argument(_) => "` is a label and a value here at once",
        Pun::Field => "` is a field and a value here at once",
    }
}

/// A mark, as it is written.
fn mark_text(mark: Mark) -> &'static str
    ensures { result.now ≡ mark_text_of mark }
{
    match mark {
        Mark::Tilde => "~",
        Mark::Question => "?",
    }
}

/// What can be done about a pun of a word.
fn pun_help(alloc: Global, pun: Pun, word: &[u8]) -> Result<Row<u8>, Memory>
    ensures { IfOk result (λ text. text ≡ pun_help_of pun word.now) }
{
    match pun {
        Pun::Label(mark) => suggest_words(alloc, word, mark_text(mark), ":", ""),
        Pun::Argument(mark) => suggest_words(alloc, word, mark_text(mark), ":(", "("),
        Pun::Field => suggest_words(alloc, word, "", " = ", ""),
    }
}

/// The help to write a word twice with its mark and a text between, in place of once behind the mark and an opening.
fn suggest_words<'a>(
    alloc: Global,
    word: &'a [u8],
    mark: &'a str,
    between: &'a str,
    opening: &'a str,
) -> Result<Row<u8>, Memory>
    ensures { IfOk result (λ text. text ≡ written_for_of word.entry.now mark.entry.now between.entry.now opening.entry.now) }
{
    join_words(
        alloc,
        &[
            b"write `",
            mark.as_bytes(),
            word,
            between.as_bytes(),
            word,
            b"` in place of `",
            mark.as_bytes(),
            opening.as_bytes(),
            word,
            b"` first, then rename",
        ],
    )
}
