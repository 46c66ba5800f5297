//! Forms that are not read.
ghost use Rattle.std.specs.Prelude.{◌≡◌, ◌+◌, option_map};
ghost use Rattle.ml_lexer.specs.Lexed.{view_tokens};
ghost use Rattle.refusal_places.specs.Forms.{form_at as form_for, form_near as form_near_of, form_of as form_from, or_form, word_behind as word_behind_of, word_in as word_in_of};

use rotor_base::Token;

/// The first form that the tokens show from two before a place to the one behind it, but none before the front.
pub(crate) fn form_near(tokens: &[Token<'_>], front: usize, stop: usize) -> Option<&'static str>
    ensures { option_map (λ form. form.now) result ≡ form_near_of (view_tokens tokens.now) front stop }
{
    if let Some(form) = form_at(tokens, front, stop.saturating_sub(2)) {
        return Some(form);
    }
    if let Some(form) = form_at(tokens, front, stop.saturating_sub(1)) {
        return Some(form);
    }
    if let Some(form) = form_at(tokens, front, stop) {
        return Some(form);
    }
    form_behind(tokens, front, stop)
}

/// The form that the token behind a place shows.
fn form_behind(tokens: &[Token<'_>], front: usize, at: usize) -> Option<&'static str>
    ensures { option_map (λ form. form.now) result ≡ form_for (view_tokens tokens.now) front (at + 1) }
{
    if at < tokens.len() {
        form_at(tokens, front, at + 1)
    } else {
        None
    }
}

/// The form that the token at a place shows, if it is one of those from the front on.
fn form_at(tokens: &[Token<'_>], front: usize, at: usize) -> Option<&'static str>
    ensures { option_map (λ form. form.now) result ≡ form_for (view_tokens tokens.now) front at }
{
    if front <= at && at < tokens.len() {
        form_of(
            word_behind(tokens, at),
            word_in(tokens, at),
            word_in(tokens, at + 1),
        )
    } else {
        None
    }
}

/// The bytes of the token at a place.
fn word_in<'a>(tokens: &[Token<'a>], at: usize) -> &'a [u8]
    ensures { result.now ≡ word_in_of (view_tokens tokens.now) at }
{
    match tokens.get(at) {
        Some(token) => token.bytes,
        None => b"",
    }
}

/// The bytes of the token before a place.
fn word_behind<'a>(tokens: &[Token<'a>], at: usize) -> &'a [u8]
    ensures { result.now ≡ word_behind_of (view_tokens tokens.now) at }
{
    if at == 0 {
        b""
    } else {
        word_in(tokens, at - 1)
    }
}

/// The form that a word shows, between the word before it and the next one.
fn form_of(before: &[u8], word: &[u8], next: &[u8]) -> Option<&'static str>
    ensures { option_map (λ form. form.now) result ≡ form_from before.now word.now next.now }
{
    if before == b"let".as_slice() && word == b"exception".as_slice() {
        return Some("`let exception`");
    }
    if word == b"->".as_slice() && next == b".".as_slice() {
        return Some("a refutation case, `-> .`");
    }
    if word == b".{".as_slice() {
        return Some("`.{`");
    }
    if word == b".".as_slice() && next == b"{".as_slice() {
        return Some("`.{`");
    }
    if word == b"open".as_slice() && next == b"(".as_slice() {
        return Some("`open` of anything but a module path");
    }
    if word == b":=".as_slice() {
        return Some("`module X := M` in a signature, if this is one");
    }
    None
}
