//! The refused forms.

ghost use Rattle.std.specs.Prelude.{◌≡◌, ◌≤◌, ◌||◌, length, codes};
ghost use Rattle.std.specs.List.{list_any};
ghost use Rattle.std.specs.Str.{bytes_eq};
ghost use Rattle.rotor_base.specs.Limits.{max_file_bytes};
ghost use Rattle.parse_base.specs.Forms.{keyword_is, keyword_by, mark_is, mark_by, infix_is, infix_on, bang, alone, is_struct, is_package, is_rec_module, is_abstract_type, is_with_module, opens_module, is_named, is_named_module, is_local_module, is_open_struct, is_extension, is_binder, is_binding_operator, form_here, sign_form_here, first_form};

use rotor_base::{Class, FormKind, Token};

/// The keywords of classes and objects.
const OBJECT_WORDS: [&str; 7] = [
    "class",
    "object",
    "method",
    "new",
    "inherit",
    "initializer",
    "virtual",
];

/// The keywords that a `%` may follow.
const EXTENDED_WORDS: [&str; 18] = [
    "let",
    "if",
    "match",
    "try",
    "fun",
    "function",
    "for",
    "while",
    "begin",
    "open",
    "module",
    "type",
    "val",
    "external",
    "include",
    "exception",
    "assert",
    "lazy",
];

/// The marks that begin an extension.
const EXTENSION_MARKS: [&str; 3] = ["[%", "[%%", "{%"];

/// Whether a text is one of some words.
fn is_among(text: &[u8], words: &[&str]) -> bool
    ensures { result ≡ list_any (λ word. bytes_eq word.now text.now) words.now }
{
    words.iter().any(|word| word.as_bytes() == text)
}

/// Whether a token is this keyword.
fn is_keyword(token: &Token, text: &str) -> bool
    ensures { result ≡ keyword_is text.now token.now }
{
    token.class == Class::Keyword && token.bytes == text.as_bytes()
}

/// Whether a token is one of these keywords.
fn is_keyword_among(token: &Token, words: &[&str]) -> bool
    ensures { result ≡ keyword_by (λ word. word.now) words.now token.now }
{
    token.class == Class::Keyword && is_among(token.bytes, words)
}

/// Whether a token is this mark.
fn is_mark(token: &Token, text: &str) -> bool
    ensures { result ≡ mark_is text.now token.now }
{
    token.class == Class::Mark && token.bytes == text.as_bytes()
}

/// Whether a token is one of these marks.
fn is_mark_among(token: &Token, words: &[&str]) -> bool
    ensures { result ≡ mark_by (λ word. word.now) words.now token.now }
{
    token.class == Class::Mark && is_among(token.bytes, words)
}

/// Whether a token is an Infix that begins with this byte.
fn is_infix_on(token: &Token, first: u8) -> bool
    ensures { result ≡ infix_on first token.now }
{
    token.class == Class::Infix
        && match token.bytes {
            [] => first == 0,
            [byte, ..] => *byte == first,
        }
}

/// `(` before `module` or `val`.
fn is_package(tokens: &[Token]) -> bool
    ensures { result ≡ is_package tokens.now }
{
    match tokens {
        [first, second, ..] => {
            is_mark(first, "(") && is_keyword_among(second, &["module", "val"])
        }
        _ => false,
    }
}

/// `module` before `rec`.
fn is_rec_module(tokens: &[Token]) -> bool
    ensures { result ≡ is_rec_module tokens.now }
{
    match tokens {
        [first, second, ..] => is_keyword(first, "module") && is_keyword(second, "rec"),
        _ => false,
    }
}

/// `module`, `type`, an Upper, and then no `=`.
fn is_abstract_type(tokens: &[Token]) -> bool
    ensures { result ≡ is_abstract_type tokens.now }
{
    match tokens {
        [first, second, third, rest @ ..] => {
            is_keyword(first, "module")
                && is_keyword(second, "type")
                && third.class == Class::Upper
                && !begins_with_equals(rest)
        }
        _ => false,
    }
}

fn begins_with_equals(tokens: &[Token]) -> bool
    ensures { result ≡ alone (mark_is (codes "=")) tokens.now }
{
    match tokens {
        [first, ..] => is_mark(first, "="),
        [] => false,
    }
}

/// `with` or `and` before `module`.
fn is_with_module(tokens: &[Token]) -> bool
    ensures { result ≡ is_with_module tokens.now }
{
    match tokens {
        [first, second, ..] => {
            is_keyword_among(first, &["with", "and"]) && is_keyword(second, "module")
        }
        _ => false,
    }
}

/// `struct`, `functor` or `(`.
fn opens_module(token: &Token) -> bool
    ensures { result ≡ opens_module token.now }
{
    is_keyword_among(token, &["struct", "functor"]) || is_mark(token, "(")
}

/// An Upper with `=`.
fn is_named(tokens: &[Token]) -> bool
    ensures { result ≡ is_named tokens.now }
{
    match tokens {
        [first, second, ..] => first.class == Class::Upper && is_mark(second, "="),
        _ => false,
    }
}

/// An Upper with `=`, and then `struct`, `functor` or `(`.
fn is_named_module(tokens: &[Token]) -> bool
    ensures { result ≡ is_named_module tokens.now }
{
    match tokens {
        [first, second, third, ..] => {
            first.class == Class::Upper && is_mark(second, "=") && opens_module(third)
        }
        _ => false,
    }
}

/// `let`, `module`, and then not an Upper with `=`, or one and then `struct`, `functor` or `(`.
fn is_local_module(tokens: &[Token]) -> bool
    ensures { result ≡ is_local_module tokens.now }
{
    match tokens {
        [first, second, rest @ ..] => {
            is_keyword(first, "let")
                && is_keyword(second, "module")
                && (!is_named(rest) || is_named_module(rest))
        }
        _ => false,
    }
}

/// `open` before `struct`, or `open`, `!`, `struct`.
fn is_open_struct(tokens: &[Token]) -> bool
    ensures { result ≡ is_open_struct tokens.now }
{
    match tokens {
        [first, rest @ ..] => is_keyword(first, "open") && is_struct(rest),
        [] => false,
    }
}

/// `struct`, or `!` and `struct`.
fn is_struct(tokens: &[Token]) -> bool
    ensures { result ≡ is_struct tokens.now }
{
    match tokens {
        [first, rest @ ..] => {
            is_keyword(first, "struct") || (is_bang(first) && begins_with_struct(rest))
        }
        [] => false,
    }
}

fn is_bang(token: &Token) -> bool
    ensures { result ≡ bang token.now }
{
    token.class == Class::Prefix && token.bytes == b"!".as_slice()
}

fn begins_with_struct(tokens: &[Token]) -> bool
    ensures { result ≡ alone (keyword_is (codes "struct")) tokens.now }
{
    match tokens {
        [first, ..] => is_keyword(first, "struct"),
        [] => false,
    }
}

/// `[%`, `[%%` or `{%`, or a keyword that an Infix beginning with `%` follows.
fn is_extension(tokens: &[Token]) -> bool
    ensures { result ≡ is_extension tokens.now }
{
    match tokens {
        [first, rest @ ..] => {
            is_mark_among(first, &EXTENSION_MARKS)
                || (is_keyword_among(first, &EXTENDED_WORDS) && begins_with_infix(rest, b'%'))
        }
        [] => false,
    }
}

fn begins_with_infix(tokens: &[Token], first: u8) -> bool
    ensures { result ≡ alone (infix_on first) tokens.now }
{
    match tokens {
        [token, ..] => is_infix_on(token, first),
        [] => false,
    }
}

/// `let` or `and` that an Infix or `=` follows with no trivia between.
fn is_binding_operator(tokens: &[Token]) -> bool
    ensures { result ≡ is_binding_operator tokens.now }
{
    match tokens {
        [first, second, ..] => {
            is_keyword_among(first, &["let", "and"])
                && (second.class == Class::Infix || is_mark(second, "="))
                && first.end == second.start
        }
        _ => false,
    }
}

/// Whether the tokens begin with one of these keywords.
fn begins_with_keyword(tokens: &[Token], words: &[&str]) -> bool
    ensures { result ≡ alone (keyword_by (λ word. word.now) words.now) tokens.now }
{
    match tokens {
        [first, ..] => is_keyword_among(first, words),
        [] => false,
    }
}

/// `&` as an Infix, or `or`.
fn is_and_or_or(tokens: &[Token]) -> bool
    ensures { result ≡ (alone (infix_is (codes "&")) tokens.now || alone (keyword_is (codes "or")) tokens.now) }
{
    match tokens {
        [first, ..] => {
            (first.class == Class::Infix && first.bytes == b"&".as_slice())
                || is_keyword(first, "or")
        }
        [] => false,
    }
}

/// The form that begins at the first of these tokens.
fn form_at(tokens: &[Token]) -> Option<FormKind>
    ensures { result ≡ form_here tokens.now }
{
    if begins_with_keyword(tokens, &OBJECT_WORDS) {
        return Some(FormKind::Object);
    }
    if is_package(tokens) {
        return Some(FormKind::Package);
    }
    if is_rec_module(tokens) {
        return Some(FormKind::RecModule);
    }
    if is_abstract_type(tokens) {
        return Some(FormKind::AbsModType);
    }
    if is_with_module(tokens) {
        return Some(FormKind::WithModule);
    }
    if is_local_module(tokens) {
        return Some(FormKind::LocalModule);
    }
    if is_open_struct(tokens) {
        return Some(FormKind::OpenStruct);
    }
    sign_form_at(tokens)
}

/// The form of the last rows of the table, which are recognized by a sign.
fn sign_form_at(tokens: &[Token]) -> Option<FormKind>
    ensures { result ≡ sign_form_here tokens.now }
{
    if is_extension(tokens) {
        return Some(FormKind::Extension);
    }
    if is_binding_operator(tokens) {
        return Some(FormKind::BindOp);
    }
    if begins_with_infix(tokens, b'#') {
        return Some(FormKind::Hash);
    }
    if is_and_or_or(tokens) {
        return Some(FormKind::AmpOr);
    }
    None
}

/// The first token, from 1, at which a refused form begins, with the kind of the first row of the table that holds
/// there (the manual's chapters of these forms, and this project's own profile). If there is no such token, `None`.
/// There are at most 1,048,576 tokens. It takes no memory.
pub fn scan_forms(tokens: &[Token]) -> Option<(u32, FormKind)>
    requires { length tokens.now ≤ max_file_bytes }
    ensures { result ≡ first_form 1 tokens.now }
{
    for (at, _) in tokens.iter().enumerate() {
        if let Some(kind) = form_at(&tokens[at..]) {
            return Some((at as u32 + 1, kind));
        }
    }
    None
}
