//! Openings of modules, and where they end.
ghost use Rattle.std.specs.Prelude.{◌≡◌, ◌≤◌};
ghost use Rattle.ml_lexer.specs.Lexed.{view_token, view_tokens};
ghost use Rattle.module_openings.specs.Named.{view_meant, view_names};
ghost use Rattle.module_openings.specs.Opened.{begins_among as begins_among_of, begins_bang as begins_bang_of, begins_item as begins_item_of, behind_bang as behind_bang_of, behind_first as behind_first_of, behind_head as behind_head_of, brings as brings_of, ends as ends_of, ends_at as ends_at_of, floor as floor_of, heads_bracket as heads_bracket_of, open_behind as open_behind_of, opening_at as opening_at_of, opens_bracket as opens_bracket_of, opens_nearer as opens_nearer_of, opens_outside as opens_outside_of, path_is_outside as path_is_outside_of, skipped as skipped_of};

use crate::lexemes::{begins_nest, ends_nest, ends_value, is_upper, is_word};
use crate::name_list::NameList;
use crate::names::{Meant, Names, is_outside};
use crate::opening::Opening;
use rotor_base::Token;

/// The tokens behind a `!`, if they begin with one.
fn behind_bang<'a, 'b>(tokens: &'a [Token<'b>]) -> &'a [Token<'b>]
    ensures { view_tokens result.now ≡ behind_bang_of (view_tokens tokens.now) }
{
    match tokens {
        [token, behind @ ..] if is_word(token, b"!") => behind,
        _ => tokens,
    }
}

/// Whether a path from outside begins here.
fn path_is_outside(names: &Names<'_>, locals: &NameList, tokens: &[Token<'_>]) -> bool
    ensures { result ≡ path_is_outside_of (view_names names.now) locals.now (view_tokens tokens.now) }
{
    match tokens {
        [token, ..] => is_upper(token) && is_outside(names, locals, token.bytes),
        [] => false,
    }
}

/// Whether tokens begin with one of these names.
fn begins_among(names: &NameList, tokens: &[Token<'_>]) -> bool
    ensures { result ≡ begins_among_of names.now (view_tokens tokens.now) }
{
    match tokens {
        [token, ..] => names.contains(token.bytes),
        [] => false,
    }
}

/// Whether the rest of a path, a `.` and a bracket begin here.
fn opens_bracket(tokens: &[Token<'_>]) -> bool
    ensures { result ≡ opens_bracket_of (view_tokens tokens.now) }
{
    let mut rest = tokens;
    while let [dot, next, behind @ ..] = rest {
        if !is_word(dot, b".") {
            return false;
        }
        if !is_upper(next) {
            return begins_nest(next);
        }
        rest = behind;
    }
    false
}

/// Whether a token behind a word is the head of a path before a bracket.
fn heads_bracket(before: &[u8], token: &Token<'_>, behind: &[Token<'_>]) -> bool
    ensures { result ≡ heads_bracket_of before.now (view_token token.now) (view_tokens behind.now) }
{
    is_upper(token) && before != b".".as_slice() && opens_bracket(behind)
}

/// How an `open` behind a word opens its module.
fn open_behind(before: &[u8]) -> Opening
    ensures { result ≡ open_behind_of before.now }
{
    if before == b"let".as_slice() {
        Opening::LetOpen
    } else {
        Opening::Open
    }
}

/// The opening at a token behind a word.
pub(crate) fn opening_at(before: &[u8], token: &Token<'_>, behind: &[Token<'_>]) -> Option<Opening>
    ensures { result ≡ opening_at_of before.now (view_token token.now) (view_tokens behind.now) }
{
    if is_word(token, b"open") {
        Some(open_behind(before))
    } else if is_word(token, b"include") {
        Some(Opening::Include)
    } else if heads_bracket(before, token, behind) {
        Some(Opening::Path)
    } else {
        None
    }
}

/// Whether an opening at a token opens a path from outside.
pub(crate) fn opens_outside(
    names: &Names<'_>,
    locals: &NameList,
    opening: Opening,
    token: &Token<'_>,
    behind: &[Token<'_>],
) -> bool
    ensures { result ≡ opens_outside_of (view_names names.now) locals.now opening (view_token token.now) (view_tokens behind.now) }
{
    match opening {
        Opening::Open | Opening::LetOpen => path_is_outside(names, locals, behind_bang(behind)),
        Opening::Include => path_is_outside(names, locals, behind),
        Opening::Path => is_outside(names, locals, token.bytes),
    }
}

/// Whether the opening at a token, if there is one, opens another module, which may be of the project.
pub(crate) fn brings(
    names: &Names<'_>,
    locals: &NameList,
    opening: Option<Opening>,
    token: &Token<'_>,
    behind: &[Token<'_>],
) -> bool
    ensures { result ≡ brings_of (view_names names.now) locals.now opening (view_token token.now) (view_tokens behind.now) }
{
    match opening {
        Some(opening) => !opens_outside(names, locals, opening, token, behind),
        None => false,
    }
}

/// Whether an item of a structure begins at a token behind another.
fn begins_item(last: &Token<'_>, token: &Token<'_>) -> bool
    ensures { result ≡ begins_item_of (view_token last.now) (view_token token.now) }
{
    is_word(token, b";;")
        || (ends_value(last)
            && (is_word(token, b"let")
                || is_word(token, b"module")
                || is_word(token, b"open")
                || is_word(token, b"include")
                || is_word(token, b"type")
                || is_word(token, b"exception")
                || is_word(token, b"external")))
}

/// Whether an item at a token behind another opens or includes a path from outside, behind an opening and the modules
/// that are declared behind that.
fn opens_nearer(
    meant: &Meant<'_, '_>,
    inner: &NameList,
    last: &Token<'_>,
    token: &Token<'_>,
    behind: &[Token<'_>],
) -> bool
    ensures { result ≡ opens_nearer_of (view_meant meant.now) inner.now (view_token last.now) (view_token token.now) (view_tokens behind.now) }
{
    let opens = is_word(token, b"open") && !is_word(last, b"let");
    (opens || is_word(token, b"include"))
        && path_is_outside(meant.names, meant.locals, behind_bang(behind))
        && !begins_among(inner, behind_bang(behind))
}

/// Whether an opening ends at a token behind another, outside of brackets.
fn ends_at(
    meant: &Meant<'_, '_>,
    inner: &NameList,
    opening: Opening,
    last: &Token<'_>,
    token: &Token<'_>,
    behind: &[Token<'_>],
) -> bool
    ensures { result ≡ ends_at_of (view_meant meant.now) inner.now opening (view_token last.now) (view_token token.now) (view_tokens behind.now) }
{
    match opening {
        Opening::Open | Opening::Include => opens_nearer(meant, inner, last, token, behind),
        Opening::LetOpen | Opening::Path => begins_item(last, token),
    }
}

/// How many brackets are open where a closing one ends an opening.
fn floor(opening: Opening) -> usize
    ensures { result ≡ floor_of opening }
{
    match opening {
        Opening::Path => 1,
        Opening::Open | Opening::LetOpen | Opening::Include => 0,
    }
}

/// Whether an opening ends at a token behind another, inside so many brackets.
pub(crate) fn ends(
    meant: &Meant<'_, '_>,
    inner: &NameList,
    opening: Opening,
    depth: usize,
    last: &Token<'_>,
    token: &Token<'_>,
    behind: &[Token<'_>],
) -> bool
    ensures { result ≡ ends_of (view_meant meant.now) inner.now opening depth (view_token last.now) (view_token token.now) (view_tokens behind.now) }
{
    (ends_nest(token) && depth <= floor(opening))
        || (depth == 0 && ends_at(meant, inner, opening, last, token, behind))
}

/// The tokens behind the keyword of an opening and the head of its path; of a path, those behind the head.
pub(crate) fn behind_head<'a, 'b>(opening: Opening, behind: &'a [Token<'b>]) -> &'a [Token<'b>]
    ensures { view_tokens result.now ≡ behind_head_of opening (view_tokens behind.now) }
{
    match opening {
        Opening::Include => behind_first(behind),
        Opening::Path => behind,
        Opening::Open | Opening::LetOpen => behind_first(behind_bang(behind)),
    }
}

/// The tokens behind the first one.
fn behind_first<'a, 'b>(tokens: &'a [Token<'b>]) -> &'a [Token<'b>]
    ensures { view_tokens result.now ≡ behind_first_of (view_tokens tokens.now) }
{
    match tokens {
        [_, behind @ ..] => behind,
        [] => tokens,
    }
}

/// How many tokens are between.
pub(crate) fn count_skipped(opening: Opening, behind: &[Token<'_>]) -> u32
    ensures value { result ≡ skipped_of opening (view_tokens behind.now) }
    ensures within { result ≤ 2 }
{
    match opening {
        Opening::Include => 1,
        Opening::Path => 0,
        Opening::Open | Opening::LetOpen => { if begins_bang(behind) { 2 } else { 1 } }
    }
}

/// Whether tokens begin with a `!`.
fn begins_bang(tokens: &[Token<'_>]) -> bool
    ensures { result ≡ begins_bang_of (view_tokens tokens.now) }
{
    match tokens {
        [token, ..] => is_word(token, b"!"),
        [] => false,
    }
}
