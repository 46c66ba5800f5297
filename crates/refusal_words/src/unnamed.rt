//! The sentences of targets that name no token.
ghost use Rattle.std.specs.Prelude.{◌≡◌, IfOk};
ghost use Rattle.refusal_words.specs.Unnamed.{no_line as no_line_of, no_member as no_member_of, no_path as no_path_of, no_source as no_source_of, no_token as no_token_of, no_token_at as no_token_at_of};

use crate::parts::wrap_word;
use messages::{group_digits, join_words, shown_word};
use report::number_text;
use rotor_base::{Memory, Row};
use std::alloc::Global;

/// The sentence of a module that lacks a value. The one error is want of memory.
pub fn no_member(alloc: Global, path: &[u8], name: &[u8]) -> Result<Row<u8>, Memory>
    ensures { IfOk result (λ text. text ≡ no_member_of path.now name.now) }
{
    let path = shown_word(alloc, path)?;
    let name = shown_word(alloc, name)?;
    join_words(
        alloc,
        &[
            b"`",
            path.as_slice(),
            b"` has no value `",
            name.as_slice(),
            b"` of this folder",
        ],
    )
}

/// The sentence of a word that is no place and no path. The one error is want of memory.
pub fn no_path(alloc: Global, word: &[u8]) -> Result<Row<u8>, Memory>
    ensures { IfOk result (λ text. text ≡ no_path_of word.now) }
{
    let word = shown_word(alloc, word)?;
    let end = "` is no place, and no path from a unit to a value";
    wrap_word(alloc, "`", word.as_slice(), end)
}

/// The sentence of a source that the folder lacks. The one error is want of memory.
pub fn no_source(alloc: Global, file: &[u8]) -> Result<Row<u8>, Memory>
    ensures { IfOk result (λ text. text ≡ no_source_of file.now) }
{
    wrap_word(alloc, "the folder has no source ", file, "")
}

/// The sentence of a source that has fewer lines. The one error is want of memory.
pub fn no_line(alloc: Global, file: &[u8], line: u32) -> Result<Row<u8>, Memory>
    ensures { IfOk result (λ text. text ≡ no_line_of file.now line) }
{
    let line = group_digits(alloc, u64::from(line))?;
    join_words(alloc, &[file, b" has no line ", line.as_slice()])
}

/// The sentence of a source that has fewer tokens. The one error is want of memory.
pub fn no_token(alloc: Global, file: &[u8], token: u32, count: u64) -> Result<Row<u8>, Memory>
    ensures { IfOk result (λ text. text ≡ no_token_of file.now token count) }
{
    let token = group_digits(alloc, u64::from(token))?;
    let count = group_digits(alloc, count)?;
    join_words(
        alloc,
        &[
            file,
            b" has no token ",
            token.as_slice(),
            b"; it has ",
            count.as_slice(),
        ],
    )
}

/// The sentence of a line and a column where no token is. The one error is want of memory.
pub fn no_token_at(alloc: Global, file: &[u8], line: u32, column: u32) -> Result<Row<u8>, Memory>
    ensures { IfOk result (λ text. text ≡ no_token_at_of file.now line column) }
{
    let line = number_text(alloc, u64::from(line))?;
    let column = number_text(alloc, u64::from(column))?;
    join_words(
        alloc,
        &[
            b"no token stands at ",
            file,
            b":",
            line.as_slice(),
            b":",
            column.as_slice(),
        ],
    )
}
