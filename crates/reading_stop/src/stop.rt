//! Where the reading of a file stops.
ghost use Rattle.std.specs.Prelude.{◌≤◌, IfOk, length};

use crate::reading::Reading;
use crate::rule::Rule;
use parse_module::FileKind;
use rotor_base::{Class, Memory, Token};
use std::alloc::Global;
use token_reading::TokenTable;

/// The most steps of a reading. The rules take far fewer: they read from left to right, and none reads itself first.
const MOST_STEPS: u64 = 1 << 40;

/// The place of the furthest token that the reading of a file looks at, counted from 0: never before `front`, nor
/// behind the end of the tokens. Which token it is, is tested alone: it is where the reading gives up, or just behind.
/// The one error is want of memory.
pub fn stop_of(
    alloc: Global,
    tokens: &[Token<'_>],
    kind: FileKind,
    front: usize,
) -> Result<usize, Memory>
    requires { front ≤ length tokens.now }
    ensures behind_front { IfOk result (λ stop. front ≤ stop) }
    ensures within { IfOk result (λ stop. stop ≤ length tokens.now) }
{
    let last = count_seen(alloc, tokens, kind)?.saturating_sub(1);
    if last < front {
        return Ok(front);
    }
    if last < tokens.len() {
        return Ok(last);
    }
    Ok(tokens.len())
}

/// The number of tokens up to the furthest one that the reading of a file looks at.
fn count_seen(alloc: Global, tokens: &[Token<'_>], kind: FileKind) -> Result<usize, Memory> {
    let rule = match kind {
        FileKind::Body => Rule::Body,
        FileKind::Face => Rule::Face,
    };
    let table = TokenTable::new(alloc, tokens)?;
    let mut reading = Reading::new(alloc, &table, rule)?;
    for _step in 0..MOST_STEPS {
        if !reading.advance()? {
            return Ok(reading.seen);
        }
    }
    Ok(reading.seen)
}

/// Whether a file ends inside an item: its reading stops at the last token, and looks further if one more token is
/// there. This is tested alone. The one error is want of memory.
pub fn ends_inside(
    alloc: Global,
    tokens: &[Token<'_>],
    kind: FileKind,
    stop: usize,
) -> Result<bool, Memory> {
    if stop.saturating_add(1) < tokens.len() {
        return Ok(false);
    }
    let more: &[(Class, &str)] = &[
        (Class::Int, "1"),
        (Class::Keyword, "end"),
        (Class::Lower, "x"),
        (Class::Keyword, "done"),
        (Class::Mark, ")"),
    ];
    for (class, word) in more {
        if looks_further(alloc, tokens, kind, *class, word.as_bytes())? {
            return Ok(true);
        }
    }
    Ok(false)
}

/// Whether the reading looks at a token of these bytes, if it is behind the others.
fn looks_further<'a>(
    alloc: Global,
    tokens: &[Token<'a>],
    kind: FileKind,
    class: Class,
    bytes: &'a [u8],
) -> Result<bool, Memory> {
    let mut longer = tokens.to_vec(alloc)?;
    longer.push(Token {
        class,
        start: 0,
        end: 0,
        bytes,
    })?;
    Ok(count_seen(alloc, &longer, kind)? > tokens.len())
}
