//! Where the item begins that is not read.
ghost use Rattle.std.specs.Prelude.{◌≡◌, ◌+◌, ◌≤◌, ◌<◌, ◌-◌, ◌==◌, ◌&&◌, IfOk, bytes_eq, codes, length, slice_get, take};
ghost use Rattle.rotor_base.specs.Limits.{max_file_bytes};
ghost use Rattle.ml_lexer.specs.Lexed.{view_tokens};
ghost use Rattle.token_reading.specs.Tokens.{from};
ghost use Rattle.refusal_places.specs.Front.{behind_items, front_at as front_at_of, front_of as front_for, ins_before as ins_before_of, is_in as is_in_of, items_end as items_end_of, last_let as last_let_of};

use parse_module::{FileKind, body_items, face_items};
use rotor_base::{Memory, Token};
use std::alloc::Global;

/// The place, from 0, where the item begins that is not read: the first token that none of the items covers with which
/// a file begins; if it is an `in`, the `let` of that. The one error is want of memory.
pub(crate) fn front_of(alloc: Global, tokens: &[Token<'_>], kind: FileKind) -> Result<usize, Memory>
    requires few { length tokens.now ≤ max_file_bytes }
    ensures front { IfOk result (λ front. front ≡ front_for kind (view_tokens tokens.now)) }
    ensures within { IfOk result (λ front. front ≤ length tokens.now) }
{
    let end = items_end(alloc, tokens, kind)?;
    Ok(front_at(tokens, end))
}

/// The place where an item begins that is not read, by the place behind the items: if an `in` is there, its `let`.
fn front_at(tokens: &[Token<'_>], end: usize) -> usize
    requires { end ≤ length tokens.now }
    ensures value { result ≡ front_at_of (view_tokens tokens.now) end }
    ensures within { result ≤ length tokens.now }
{
    if is_in(tokens, end) {
        let_before(tokens, end)
    } else {
        end
    }
}

/// Whether an `in` is at a place.
fn is_in(tokens: &[Token<'_>], at: usize) -> bool
    ensures { result ≡ is_in_of (slice_get (view_tokens tokens.now) at) }
{
    match tokens.get(at) {
        Some(token) => token.bytes == b"in".as_slice(),
        None => false,
    }
}

/// The place of the last `let` before a place that has no `in` before it; without one, the place.
fn let_before(tokens: &[Token<'_>], end: usize) -> usize
    requires { end ≤ length tokens.now }
    ensures value { result ≡ end - last_let_of (take end (view_tokens tokens.now)) }
    ensures within { result ≤ end }
{
    last_let(&tokens[..end])
}

/// The place of the last `let` of some tokens that has no `in` among them; without one, the number of tokens.
fn last_let(tokens: &[Token<'_>]) -> usize
    ensures value { result ≡ length tokens.now - last_let_of (view_tokens tokens.now) }
    ensures within { result ≤ length tokens.now }
{
    let mut at = tokens.len();
    let mut ins = 0;
    while at > 0 {
        at -= 1;
        let word = tokens[at].bytes;
        if is_without_in(word, ins) {
            return at;
        }
        ins = ins_before(word, ins);
    }
    tokens.len()
}

/// Whether a word is a `let` that has no `in`, if so many are behind it that no other `let` takes.
fn is_without_in(word: &[u8], ins: usize) -> bool
    ensures { result ≡ (bytes_eq word.now (codes "let") && ins == 0) }
{
    ins == 0 && word == b"let".as_slice()
}

/// How many `in` no `let` takes, from a word on, if so many are behind it.
fn ins_before(word: &[u8], ins: usize) -> usize
    requires { ins < 18446744073709551615 }
    ensures value { result ≡ ins_before_of word.now ins }
    ensures within { result ≤ ins + 1 }
{
    if word == b"let".as_slice() {
        ins.saturating_sub(1)
    } else if word == b"in".as_slice() {
        ins + 1
    } else {
        ins
    }
}

/// The place, from 0, of the first token that none of the items covers with which a file begins.
#[tactic(auto, using(crate::proofs::Fronts::front_inside, crate::proofs::Fronts::front_at_end))]
fn items_end(alloc: Global, tokens: &[Token<'_>], kind: FileKind) -> Result<usize, Memory>
    requires { length tokens.now ≤ max_file_bytes }
    ensures end { IfOk result (λ end. end ≡ items_end_of kind (view_tokens tokens.now)) }
    ensures within { IfOk result (λ end. end ≤ length tokens.now) }
{
    let end = found_end(alloc, tokens, kind)?;
    if end < tokens.len() {
        Ok(end)
    } else {
        Ok(tokens.len())
    }
}

/// The place behind the items with which a file begins.
fn found_end(alloc: Global, tokens: &[Token<'_>], kind: FileKind) -> Result<usize, Memory>
    requires { length tokens.now ≤ max_file_bytes }
    ensures { IfOk result (λ end. behind_items kind (view_tokens tokens.now) ≡ from tokens.now end) }
{
    match kind {
        FileKind::Body => body_end(alloc, tokens),
        FileKind::Face => face_end(alloc, tokens),
    }
}

/// The place behind the items with which a body begins.
#[tactic(auto, using(crate::proofs::Fronts::body_rest))]
fn body_end(alloc: Global, tokens: &[Token<'_>]) -> Result<usize, Memory>
    requires { length tokens.now ≤ max_file_bytes }
    ensures { IfOk result (λ end. behind_items FileKind.Body (view_tokens tokens.now) ≡ from tokens.now end) }
{
    match body_items(alloc, tokens) {
        Ok((_, end)) => Ok(end),
        Err(_) => Err(Memory),
    }
}

/// The place behind the items with which an interface begins.
#[tactic(auto, using(crate::proofs::Fronts::face_rest))]
fn face_end(alloc: Global, tokens: &[Token<'_>]) -> Result<usize, Memory>
    requires { length tokens.now ≤ max_file_bytes }
    ensures { IfOk result (λ end. behind_items FileKind.Face (view_tokens tokens.now) ≡ from tokens.now end) }
{
    match face_items(alloc, tokens) {
        Ok((_, end)) => Ok(end),
        Err(_) => Err(Memory),
    }
}
