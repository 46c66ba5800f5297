//! The requests, and their answers as text.

ghost use Rattle.std.specs.Prelude.{◌≤◌, length};
ghost use Rattle.rotor_base.specs.Limits.{max_file_bytes};

use crate::expression_outline::add_expression;
use crate::expressions::expression_text;
use crate::files::tree_text;
use crate::module_outline::add_file;
use crate::outline::Outline;
use crate::pattern_outline::add_pattern;
use crate::patterns::production;
use crate::refusals::{deep_text, fault_text, form_text, refusal_text, unread_text};
use ml_lexer::{LexError, lex};
use ml_trees::{Pat, Run};
use parse_base::{MAX_NESTED, parse_pat, scan_depth, scan_forms};
use parse_expr::parse_seq;
use parse_module::{FileKind, parse_file};
use pattern_reading::simple_pattern;
use rotor_base::{MAX_FILE_BYTES, Token};
use std::alloc::{AllocError, Global};
use std::fmt::Write;
use token_reading::{ReadError, TokenTable, declaration_run};

/// What a text is read as: its lexemes (`tokens`), its first refused form (`forms`), its first token that is nested too
/// deep (`depth`), the pattern, Simple pattern, declaration or expression that it begins with (`pat`, `simple`, `decl`,
/// `seq`), or its tree as a file (`body`, `face`); the whole tree of these (`tree-pat`, `tree-seq`, `tree-body`,
/// `tree-face`).
pub fn answer_request(alloc: Global, kind: &str, source: &[u8]) -> Result<String, AllocError> {
    if source.len() > MAX_FILE_BYTES as usize {
        return String::from_str(alloc, "too long");
    }
    match lex(alloc, source) {
        Ok(tokens) => answer_tokens(alloc, kind, &tokens),
        Err(LexError::Memory) => String::from_str(alloc, "memory"),
        Err(fault) => match kind {
            "tokens" => fault_text(alloc, fault),
            _ => String::from_str(alloc, "no lexemes"),
        },
    }
}

fn answer_tokens(alloc: Global, kind: &str, tokens: &[Token]) -> Result<String, AllocError>
    requires { length tokens.now ≤ max_file_bytes }
{
    match kind {
        "tokens" => tokens_text(alloc, tokens),
        "forms" => match scan_forms(tokens) {
            Some((token, kind)) => form_text(alloc, token, kind),
            None => String::from_str(alloc, "none"),
        },
        "depth" => match scan_depth(alloc, tokens) {
            Ok(Some(token)) => deep_text(alloc, token),
            Ok(None) => String::from_str(alloc, "none"),
            Err(_) => String::from_str(alloc, "memory"),
        },
        "pat" => pattern_at(alloc, tokens),
        "simple" => simple_at(alloc, tokens),
        "decl" => declaration_at(alloc, tokens),
        "seq" => expression_at(alloc, tokens),
        "body" => file_of(alloc, tokens, FileKind::Body),
        "face" => file_of(alloc, tokens, FileKind::Face),
        "tree-pat" => pattern_tree(alloc, tokens),
        "tree-seq" => expression_tree(alloc, tokens),
        "tree-body" => file_tree(alloc, tokens, FileKind::Body),
        "tree-face" => file_tree(alloc, tokens, FileKind::Face),
        _ => String::from_str(alloc, "no request"),
    }
}

/// The production of the first pattern, and the place after it.
fn pattern_at(alloc: Global, tokens: &[Token]) -> Result<String, AllocError>
    requires { length tokens.now ≤ max_file_bytes }
{
    match parse_pat(alloc, tokens, 0) {
        Ok((pat, end)) => format!(in alloc; "{}, end {end}", production(&pat)),
        Err(error) => refusal_text(alloc, error),
    }
}

/// The same of the first Simple pattern.
fn simple_at(alloc: Global, tokens: &[Token]) -> Result<String, AllocError>
    requires { length tokens.now ≤ max_file_bytes }
{
    match read_simple(alloc, tokens) {
        Ok((pat, end)) => format!(in alloc; "{}, end {end}", production(&pat)),
        Err(error) => unread_text(alloc, error),
    }
}

fn read_simple(alloc: Global, tokens: &[Token]) -> Result<(Pat, usize), ReadError>
    requires { length tokens.now ≤ max_file_bytes }
{
    let table = TokenTable::new(alloc, tokens)?;
    simple_pattern(alloc, &table, tokens.len() + 1, MAX_NESTED, 0)
}

/// How many words the first declaration has, and the place after it.
fn declaration_at(alloc: Global, tokens: &[Token]) -> Result<String, AllocError>
    requires { length tokens.now ≤ max_file_bytes }
{
    match read_declaration(alloc, tokens) {
        Ok((run, end)) => format!(in alloc; "run, words {}, end {end}", run.words.len()),
        Err(error) => unread_text(alloc, error),
    }
}

fn read_declaration(alloc: Global, tokens: &[Token]) -> Result<(Run, usize), ReadError>
    requires { length tokens.now ≤ max_file_bytes }
{
    let table = TokenTable::new(alloc, tokens)?;
    declaration_run(alloc, &table, 0)
}

/// The production of the first expression, how many further parts it has, and the place after it.
fn expression_at(alloc: Global, tokens: &[Token]) -> Result<String, AllocError>
    requires { length tokens.now ≤ max_file_bytes }
{
    match parse_seq(alloc, tokens, 0) {
        Ok((expr, end)) => expression_text(alloc, &expr, end),
        Err(error) => refusal_text(alloc, error),
    }
}

fn file_of(alloc: Global, tokens: &[Token], kind: FileKind) -> Result<String, AllocError>
    requires { length tokens.now ≤ max_file_bytes }
{
    match parse_file(alloc, tokens, 0, kind) {
        Ok(tree) => tree_text(alloc, &tree),
        Err(error) => refusal_text(alloc, error),
    }
}

/// The first pattern as a whole.
fn pattern_tree(alloc: Global, tokens: &[Token]) -> Result<String, AllocError>
    requires { length tokens.now ≤ max_file_bytes }
{
    match parse_pat(alloc, tokens, 0) {
        Ok((pat, _)) => {
            let mut out = Outline::new(alloc);
            add_pattern(&mut out, &pat);
            out.finish()
        }
        Err(error) => refusal_text(alloc, error),
    }
}

/// The first expression as a whole.
fn expression_tree(alloc: Global, tokens: &[Token]) -> Result<String, AllocError>
    requires { length tokens.now ≤ max_file_bytes }
{
    match parse_seq(alloc, tokens, 0) {
        Ok((expr, _)) => {
            let mut out = Outline::new(alloc);
            add_expression(&mut out, &expr);
            out.finish()
        }
        Err(error) => refusal_text(alloc, error),
    }
}

/// The file as a whole.
fn file_tree(alloc: Global, tokens: &[Token], kind: FileKind) -> Result<String, AllocError>
    requires { length tokens.now ≤ max_file_bytes }
{
    match parse_file(alloc, tokens, 0, kind) {
        Ok(tree) => {
            let mut out = Outline::new(alloc);
            add_file(&mut out, &tree);
            out.finish()
        }
        Err(error) => refusal_text(alloc, error),
    }
}

/// The class, the start and the end of each lexeme.
fn tokens_text(alloc: Global, tokens: &[Token]) -> Result<String, AllocError> {
    let mut text = String::from_str(alloc, "tokens")?;
    for token in tokens {
        let class = token.class;
        write!(text, " {class:?} {} {}", token.start, token.end)?;
    }
    Ok(text)
}
