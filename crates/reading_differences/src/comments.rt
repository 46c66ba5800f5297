//! Quotes directly behind names, in comments and attributes.
ghost use Rattle.std.specs.Prelude.{◌≡◌, ◌++◌, ◌+◌, ◌<◌, ◌≤◌, ◌^◌, OnOk, length};
ghost use Rattle.rotor_base.specs.Limits.{max_file_bytes};
ghost use Rattle.ml_lexer.specs.Lexed.{view_tokens};
ghost use Rattle.reading_differences.specs.Comments.{begins_char as begins_char_of, comments_in, quote_here, quotes_in};

use crate::difference::{Difference, Parting};
use ml_lexer::{byte_at, char_len, front, is_identifier, part_len, skip};
use rotor_base::{Memory, Place, Token};

/// Adds the quotes of a source, by its number, its bytes and its tokens.
pub(crate) fn add_comments(
    found: &mut Vec<Difference>,
    file: u32,
    bytes: &[u8],
    tokens: &[Token<'_>],
) -> Result<(), Memory>
    requires small { length bytes.now ≤ max_file_bytes }
    requires few { length tokens.now ≤ max_file_bytes }
    ensures { OnOk result (found.new.items ≡ found.old.items ++ comments_in file bytes.now 0 0 (view_tokens tokens.now)) }
{
    let mut number: u32 = 0;
    let mut from: u32 = 0;
    for token in tokens {
        let rest = skip(bytes, from as usize);
        let gap = front(rest, token.start.saturating_sub(from) as usize);
        add_quotes(
            found,
            Place {
                file,
                token: number,
            },
            from,
            gap,
        )?;
        number += 1;
        from = token.end;
    }
    let rest = skip(bytes, from as usize);
    add_quotes(
        found,
        Place {
            file,
            token: number,
        },
        from,
        rest,
    )
}

/// Adds the quotes of the bytes between two tokens, which begin at an offset.
fn add_quotes(found: &mut Vec<Difference>, at: Place, start: u32, gap: &[u8]) -> Result<(), Memory>
    requires small { length gap.now ≤ max_file_bytes }
    requires within { start + length gap.now < 2 ^ 32 }
    ensures { OnOk result (found.new.items ≡ found.old.items ++ quotes_in at 0 0 start gap.now) }
{
    let mut before: u8 = 0;
    let mut offset = start;
    let mut rest = gap;
    while !rest.is_empty() {
        push_quote(found, at, before, offset, rest)?;
        let len = part_len(rest);
        before = byte_at(rest, len - 1);
        offset += len as u32;
        rest = skip(rest, len);
    }
    Ok(())
}

/// Adds the quote that begins here, behind a byte, if it follows a name and begins a Char.
fn push_quote(
    found: &mut Vec<Difference>,
    at: Place,
    before: u8,
    offset: u32,
    bytes: &[u8],
) -> Result<(), Memory>
    ensures { OnOk result (found.new.items ≡ found.old.items ++ quote_here at before offset bytes.now) }
{
    if is_identifier(before) && begins_char(bytes) {
        found.push(Difference {
            at,
            how: Parting::Comment(offset),
        })?;
    }
    Ok(())
}

/// Whether a Char begins here.
fn begins_char(bytes: &[u8]) -> bool
    ensures { result ≡ begins_char_of bytes.now }
{
    char_len(bytes).is_some()
}
