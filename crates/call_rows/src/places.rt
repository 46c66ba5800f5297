//! The places of a file, and the variables of a pattern.
ghost use Rattle.std.specs.Prelude.{◌≤◌, IfOk, length};
ghost use Rattle.ml_lexer.specs.Lexed.{Lexed, view_tokens};

use binding_model::variables;
use ml_lexer::lex;
use ml_syntax::{binders, puns, value_refs};
use parse_base::parse_pat;
use parse_module::{FileKind, parse_file};
use rotor_base::{Memory, Token};
use std::alloc::{AllocError, Global};
use std::fmt::Write;
use value_sites::Mark;

/// Adds the binders, the uses and the puns of a body.
pub fn add_places(alloc: Global, text: &mut String, source: &str) -> Result<(), Memory> {
    let tokens = tokens_of(alloc, source.as_bytes(), 0)?;
    let Ok(tree) = parse_file(alloc, &tokens, 0, FileKind::Body) else {
        return Err(Memory);
    };
    write!(text, "{source}\n")?;
    add_marks(text, "binders", &binders(alloc, &tree)?)?;
    add_marks(text, "value_refs", &value_refs(alloc, &tree)?)?;
    add_tokens(text, "puns", &puns(alloc, &tree)?)?;
    Ok(())
}

/// Adds tokens.
fn add_tokens(text: &mut String, what: &str, tokens: &[u32]) -> Result<(), AllocError> {
    write!(text, "{what}")?;
    for token in tokens {
        write!(text, " {token}")?;
    }
    write!(text, "\n")
}

/// Adds the variables of the pattern of row or-counted.
pub fn add_variables(alloc: Global, text: &mut String) -> Result<(), Memory> {
    let tokens = tokens_of(alloc, b"let f = function A y | B y -> y", 4)?;
    let Ok((pat, end)) = parse_pat(alloc, &tokens, 4) else {
        return Err(Memory);
    };
    write!(text, "A y | B y, up to {end}\n")?;
    add_marks(text, "variables", &variables(alloc, &pat)?)?;
    Ok(())
}

/// The most bytes of a source.
const MAX_BYTES: usize = 1_000;

/// The tokens of a small source that has so many at least.
pub fn tokens_of(alloc: Global, source: &[u8], least: usize) -> Result<Vec<Token>, Memory>
    ensures cut { IfOk result (λ tokens. Lexed source.now (view_tokens tokens.items)) }
    ensures few { IfOk result (λ tokens. length tokens.items ≤ 1000) }
    ensures least { IfOk result (λ tokens. least ≤ length tokens.items) }
{
    if source.len() > MAX_BYTES {
        return Err(Memory);
    }
    match lex(alloc, source) {
        Ok(tokens) if tokens.len() >= least => Ok(tokens),
        _ => Err(Memory),
    }
}

/// Adds tokens, with `p` behind a pun and `o` behind an operator.
fn add_marks(text: &mut String, what: &str, marks: &[Mark]) -> Result<(), AllocError> {
    write!(text, "{what}")?;
    for mark in marks {
        let pun = if mark.pun { "p" } else { "" };
        let operator = if mark.operator { "o" } else { "" };
        write!(text, " {}{pun}{operator}", mark.token)?;
    }
    write!(text, "\n")
}
