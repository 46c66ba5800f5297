//! Where the first head of a name is.
ghost use Rattle.std.specs.Prelude.{◌≡◌, ◌≤◌, ◌<◌, ◌+◌, ◌&&◌, IfNone, IfOk, IfSome, false, length, true};
ghost use Rattle.std.specs.Str.{bytes_eq};
ghost use Rattle.rotor_base.specs.Limits.{max_file_bytes};
ghost use Rattle.ml_lexer.specs.Lexed.{view_token, view_tokens};
ghost use Rattle.refusal_places.specs.Blanks.{HasNoHead, IsFirstHead, blank as blank_of, blanked as blanked_of, has_head as has_head_of, is_upper as is_upper_class};

use crate::heads::heads_of;
use parse_module::FileKind;
use rotor_base::{Class, Memory, Token};
use std::alloc::Global;

/// The place, from 0, of the first head of a name. The one error is want of memory.
pub(crate) fn first_head(
    alloc: Global,
    tokens: &[Token<'_>],
    kind: FileKind,
    name: &[u8],
) -> Result<Option<usize>, Memory>
    requires { length tokens.now ≤ max_file_bytes }
    ensures found { IfOk result (λ found. IfSome found (IsFirstHead kind name.now (view_tokens tokens.now))) }
    ensures none { IfOk result (λ found. IfNone found (HasNoHead kind name.now (view_tokens tokens.now))) }
{
    if !has_head(alloc, tokens, kind, name, tokens.len())? {
        return Ok(None);
    }
    if has_head(alloc, tokens, kind, name, 0)? {
        return Ok(None);
    }
    let at = head_between(alloc, tokens, kind, name)?;
    Ok(Some(at))
}

/// The place of the first head of a name that tokens have.
fn head_between(
    alloc: Global,
    tokens: &[Token<'_>],
    kind: FileKind,
    name: &[u8],
) -> Result<usize, Memory>
    requires short { length tokens.now ≤ max_file_bytes }
    requires before { has_head_of kind name.now 0 (view_tokens tokens.now) ≡ false }
    requires here { has_head_of kind name.now (length tokens.now) (view_tokens tokens.now) ≡ true }
    ensures { IfOk result (IsFirstHead kind name.now (view_tokens tokens.now)) }
{
    let mut low = 0;
    let mut high = tokens.len();
    while high - low > 1 {
        let middle = place_between(tokens, name, low, high);
        if has_head(alloc, tokens, kind, name, middle)? {
            high = middle;
        } else {
            low = middle;
        }
    }
    Ok(low)
}

/// A place between two others: behind a token of this name, if there is one.
fn place_between(tokens: &[Token<'_>], name: &[u8], low: usize, high: usize) -> usize
    requires { low + 1 < high }
    ensures after { low < result }
    ensures before { result < high }
{
    let named = search_name(tokens, name, low, high);
    if low < named && named < high {
        named
    } else {
        low + (high - low) / 2
    }
}

/// A place by a token of this name between two others: at first the first one, then one in the middle.
fn search_name(tokens: &[Token<'_>], name: &[u8], low: usize, high: usize) -> usize {
    let count = tokens
        .iter()
        .skip(low)
        .take(high.saturating_sub(low))
        .filter(|token| is_name(token, name))
        .count();
    let wanted = if low == 0 { 0 } else { count / 2 };
    let named = tokens
        .iter()
        .enumerate()
        .skip(low)
        .filter(|(_, token)| is_name(token, name))
        .map(|(at, _)| at)
        .nth(wanted);
    match named {
        Some(at) if at < high.saturating_sub(1) => at.saturating_add(1),
        Some(at) => at,
        None => low,
    }
}

/// Whether one of the first tokens is a head of a name.
fn has_head(
    alloc: Global,
    tokens: &[Token<'_>],
    kind: FileKind,
    name: &[u8],
    count: usize,
) -> Result<bool, Memory>
    requires short { length tokens.now ≤ max_file_bytes }
    requires within { count ≤ length tokens.now }
    ensures { IfOk result (λ found. found ≡ has_head_of kind name.now count (view_tokens tokens.now)) }
{
    let blanked = blank_tokens(alloc, tokens, name, count)?;
    let heads = heads_of(alloc, &blanked, kind)?;
    Ok(heads.iter().any(|head| head.as_bytes() == b"".as_slice()))
}

/// Tokens without a name in the first ones.
fn blank_tokens<'a>(
    alloc: Global,
    tokens: &[Token<'a>],
    name: &[u8],
    count: usize,
) -> Result<Vec<Token<'a>>, Memory>
    requires { count ≤ length tokens.now }
    ensures tokens { IfOk result (λ list. view_tokens list.items ≡ blanked_of name.now count (view_tokens tokens.now)) }
    ensures length { IfOk result (λ list. length list.items ≡ length tokens.now) }
{
    let mut list = Vec::new(alloc);
    for token in &tokens[..count] {
        list.push(blank(token, name))?;
    }
    list.extend_from_slice(&tokens[count..])?;
    Ok(list)
}

/// A token, without its bytes if it is this name of a module.
fn blank<'a>(token: &Token<'a>, name: &[u8]) -> Token<'a>
    ensures { view_token result ≡ blank_of name.now (view_token token.now) }
{
    if is_name(token, name) {
        Token {
            class: token.class,
            start: token.start,
            end: token.end,
            bytes: b"",
        }
    } else {
        *token
    }
}

/// Whether a token is this name of a module.
fn is_name(token: &Token<'_>, name: &[u8]) -> bool
    ensures { result ≡ (is_upper_class token.now.class && bytes_eq token.now.bytes.now name.now) }
{
    is_upper(token.class) && token.bytes == name
}

/// Whether a class is that of upper-case words.
fn is_upper(class: Class) -> bool
    ensures { result ≡ is_upper_class class }
{
    class == Class::Upper
}
