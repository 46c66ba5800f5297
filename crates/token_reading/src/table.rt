//! The tokens of a source, with what the readers ask of each: its kind, and whether it is a `let` that lacks its `in`.

ghost use Rattle.std.specs.Prelude.{◌≡◌, ◌≤◌, ◌<◌, ◌+◌, ◌^◌, ℕ, List, length, reverse, IfOk};
ghost use Rattle.ml_trees.specs.Tok.{Tok, fixed_of};
ghost use Rattle.token_reading.specs.Gives.{text_at, kind_of, kind_or, Sees, IsThere};
ghost use Rattle.token_reading.specs.Matching.{ins_by, lacks_by, lacks_in};
ghost use Rattle.token_reading.specs.Table.{entries_from};
ghost use Rattle.token_reading.specs.Tokens.{from};

use crate::tokens::Kind;
use ml_trees::{Fixed, fixed_word};
use rotor_base::{Class, Memory, Token};
use std::alloc::Global;
use std::marker::Model;

/// What the table says of a token.
#[derive(Clone, Copy)]
struct Entry {
    kind: Kind,
    /// Whether it is a `let`, and no `in` behind it is its own.
    lacks_in: bool,
}

/// The tokens of a source, and what each of them is. A contract sees the list of the tokens.
#[derive(Drop)]
pub struct TokenTable<'a> {
    tokens: &'a [Token<'a>],
    entries: Vec<Entry>,
}

impl<'a> Model for TokenTable<'a> {
    ghost use Rattle.std.specs.Prelude.{List, ◌≡◌};
    ghost use Rattle.rotor_base.specs.declared.token.Token.{Token as Lexeme};

    ghost Value = { List Lexeme };

    ghost use Rattle.token_reading.specs.Table.{entries_from};

    ghost view = { λ table. table.tokens.now };

    ghost invariant = { λ table. table.entries.items ≡ entries_from 1 table.tokens.now };
}

impl<'a> TokenTable<'a> {
    /// The table of these tokens. The Err is want of memory.
    pub fn new(alloc: Global, tokens: &'a [Token<'a>]) -> Result<TokenTable<'a>, Memory>
        ensures { IfOk result (λ table. table ≡ tokens.now) }
    {
        let entries = entries_of(alloc, tokens)?;
        Ok(TokenTable { tokens, entries })
    }

    /// How many tokens there are.
    pub fn len(&self) -> usize
        ensures { result ≡ length self.now }
    {
        let tokens = self.tokens;
        tokens.len()
    }

    /// The tokens without what the table says of them.
    pub fn as_slice(&self) -> &'a [Token<'a>]
        ensures { result.now ≡ self.now }
    {
        self.tokens
    }
}

/// What is at a place, and `End` past the tokens.
pub fn kind_at(tokens: &TokenTable<'_>, at: usize) -> Kind
    ensures sees { Sees result (at + 1) (text_at tokens.now at) (from tokens.now at) (from tokens.now (at + 1)) }
    ensures there { IsThere result at (length tokens.now) }
{
    if at < tokens.len() {
        return tokens.entries[at].kind;
    }
    Kind::End
}

/// Whether a `let` is at a place, and no `in` behind it is its own.
pub fn lacks_in(tokens: &TokenTable<'_>, at: usize) -> bool
    ensures { result ≡ lacks_in (from tokens.now at) }
{
    if at < tokens.len() {
        return tokens.entries[at].lacks_in;
    }
    false
}

/// What a token is to the grammar.
fn kind_of(token: &Token<'_>) -> Kind
    ensures { result ≡ kind_of token.now.class token.now.bytes.now }
{
    match token.class {
        Class::Keyword => fixed_or(Class::Keyword, token.bytes),
        Class::Mark => fixed_or(Class::Mark, token.bytes),
        class => Kind::Word(class),
    }
}

/// The fixed word of these bytes, or else a word of this class.
fn fixed_or(class: Class, bytes: &[u8]) -> Kind
    ensures { result ≡ kind_or class (fixed_of bytes.now) }
{
    match fixed_word(bytes) {
        Some(fixed) => Kind::Fixed(fixed),
        None => Kind::Word(class),
    }
}

/// Whether a token of this kind is a `let` without an `in`, if so many `in` are free behind it.
fn lacks_by(kind: Kind, ins: usize) -> bool
    ensures { result ≡ lacks_by kind ins }
{
    match kind {
        Kind::Fixed(Fixed::Let) => ins == 0,
        _ => false,
    }
}

/// How many `in` are free before a token of this kind, if so many are free behind it.
fn count_ins(kind: Kind, ins: usize) -> usize
    requires { ins + 1 < 2 ^ 64 }
    ensures { result ≡ ins_by kind ins }
{
    match kind {
        Kind::Fixed(Fixed::Let) => ins.saturating_sub(1),
        Kind::Fixed(Fixed::In) => ins + 1,
        Kind::Fixed(
            Fixed::DoubleSemicolon | Fixed::External | Fixed::Include | Fixed::Sig | Fixed::Struct,
        ) => 0,
        _ => ins,
    }
}

/// What the table says of each token. The loop goes from the last token to the first, and counts the `in` that no `let`
/// behind it takes. A `let` takes the first of them.
fn entries_of(alloc: Global, tokens: &[Token<'_>]) -> Result<Vec<Entry>, Memory>
    ensures { IfOk result (λ entries. entries.items ≡ entries_from 1 tokens.now) }
{
    let mut entries = Vec::new(alloc);
    let mut ins = 0;
    for at in (0..tokens.len()).rev() {
        let kind = kind_of(&tokens[at]);
        entries.push(Entry {
            kind,
            lacks_in: lacks_by(kind, ins),
        })?;
        ins = count_ins(kind, ins);
    }
    entries.reverse();
    Ok(entries)
}
