//! The tokens of types and of declarations.

ghost use Rattle.std.specs.Prelude.{◌≡◌, ◌≤◌, ◌<◌, ◌+◌, ◌&&◌, ◌==◌, length, take, reverse, Some, IfOk, if◌then◌else◌};
ghost use Rattle.rotor_base.specs.Limits.{max_file_bytes};
ghost use Rattle.ml_trees.specs.Runs.{type_word, declaration_word, has_colon, is_optional, beside_type};
ghost use Rattle.ml_trees.specs.View.{view_run, view_type};
ghost use Rattle.token_reading.specs.Pieces.{type_run as read_type, declaration_run as read_declaration, optional_type as read_optional_type};
ghost use Rattle.token_reading.specs.RunRows.{is_inside, is_beside, is_first, bracket_of, first_bracketing, first_after, shape_outside, run_length, counted, count_after, StepsTo};
ghost use Rattle.token_reading.specs.Rows.{first_is};
ghost use Rattle.token_reading.specs.Gives.{Gives};
ghost use Rattle.token_reading.specs.Tokens.{from};

use crate::boxes::fit;
use crate::error::ReadError;
use crate::table::{TokenTable, kind_at};
use crate::tokens::{Kind, has_fixed, is_same, text, token_word};
use ml_trees::{Fixed, Run};
use rotor_base::{Class, Memory};
use std::alloc::Global;

/// What a run is of.
#[derive(Clone, Copy)]
pub enum RunKind {
    Type,
    Declaration,
}

/// What a token is to the brackets of a run: an opening one has the word that closes it.
#[derive(Clone, Copy)]
pub enum BracketKind {
    Opens(Fixed),
    Closes(Fixed),
    Neither,
}

/// Whether a fixed word may be inside the brackets of a type.
fn is_type_word(fixed: Fixed) -> bool
    ensures { result ≡ type_word fixed }
{
    match fixed {
        Fixed::And
        | Fixed::Assert
        | Fixed::Begin
        | Fixed::Constraint
        | Fixed::Do
        | Fixed::Done
        | Fixed::Downto
        | Fixed::Else
        | Fixed::End
        | Fixed::Exception
        | Fixed::External
        | Fixed::False
        | Fixed::For
        | Fixed::Fun
        | Fixed::Function
        | Fixed::Functor
        | Fixed::If
        | Fixed::In
        | Fixed::Include
        | Fixed::Lazy
        | Fixed::Let
        | Fixed::Match
        | Fixed::Module
        | Fixed::Nonrec
        | Fixed::Open
        | Fixed::Rec
        | Fixed::Sig
        | Fixed::Struct
        | Fixed::Then
        | Fixed::To
        | Fixed::True
        | Fixed::Try
        | Fixed::Val
        | Fixed::When
        | Fixed::While
        | Fixed::With
        | Fixed::DoubleSemicolon => false,
        _ => true,
    }
}

/// Whether a fixed word may be in a declaration.
fn is_declaration_word(fixed: Fixed) -> bool
    ensures { result ≡ declaration_word fixed }
{
    match fixed {
        Fixed::Assert
        | Fixed::Begin
        | Fixed::Do
        | Fixed::Done
        | Fixed::Downto
        | Fixed::Else
        | Fixed::End
        | Fixed::Exception
        | Fixed::External
        | Fixed::False
        | Fixed::For
        | Fixed::Fun
        | Fixed::Function
        | Fixed::Functor
        | Fixed::If
        | Fixed::In
        | Fixed::Include
        | Fixed::Lazy
        | Fixed::Let
        | Fixed::Match
        | Fixed::Module
        | Fixed::Open
        | Fixed::Rec
        | Fixed::Sig
        | Fixed::Struct
        | Fixed::Then
        | Fixed::To
        | Fixed::True
        | Fixed::Try
        | Fixed::Type
        | Fixed::Val
        | Fixed::When
        | Fixed::While
        | Fixed::With
        | Fixed::DoubleSemicolon => false,
        _ => true,
    }
}

/// Whether the token at a place may be inside the brackets of a run.
fn is_inside(run: RunKind, tokens: &TokenTable<'_>, at: usize) -> bool
    ensures { result ≡ first_is (is_inside run) (from tokens.now at) }
{
    match kind_at(tokens, at) {
        Kind::Fixed(fixed) => match run {
            RunKind::Type => is_type_word(fixed),
            RunKind::Declaration => is_declaration_word(fixed),
        },
        Kind::Word(Class::Keyword) => false,
        Kind::Word(_) => true,
        Kind::End => false,
    }
}

/// Whether a label begins with `?` and ends with `:`.
fn is_optional_label(bytes: &[u8]) -> bool
    ensures { result ≡ (is_optional bytes.now && has_colon bytes.now) }
{
    match bytes {
        [first, ..] => *first == b'?' && bytes[bytes.len() - 1] == b':',
        [] => false,
    }
}

/// Whether the token at a place may be outside the brackets of a type.
fn is_beside_type(tokens: &TokenTable<'_>, at: usize) -> bool
    ensures { result ≡ first_is beside_type (from tokens.now at) }
{
    match kind_at(tokens, at) {
        Kind::Word(Class::Lower | Class::Upper | Class::TypeVar | Class::Tag) => true,
        Kind::Word(Class::Infix) => text(tokens, at) == b"*".as_slice(),
        Kind::Word(Class::Label) => is_optional_label(text(tokens, at)),
        Kind::Fixed(Fixed::Dot | Fixed::Arrow | Fixed::Colon | Fixed::As | Fixed::Underscore) => {
            true
        }
        _ => false,
    }
}

/// Whether the token at a place may be outside the brackets of a run.
fn is_beside(run: RunKind, tokens: &TokenTable<'_>, at: usize) -> bool
    ensures { result ≡ first_is (is_beside run) (from tokens.now at) }
{
    match run {
        RunKind::Type => is_beside_type(tokens, at),
        RunKind::Declaration => is_inside(RunKind::Declaration, tokens, at),
    }
}

/// Whether the token at a place, if it is no bracket, may begin a run.
fn begins(run: RunKind, tokens: &TokenTable<'_>, at: usize) -> bool
    ensures { result ≡ first_is (is_first run) (from tokens.now at) }
{
    match run {
        RunKind::Type => has_fixed(tokens, Fixed::Type, at) || is_beside_type(tokens, at),
        RunKind::Declaration => is_inside(RunKind::Declaration, tokens, at),
    }
}

/// What the token at a place is to the brackets of a run.
fn bracket_kind(tokens: &TokenTable<'_>, at: usize) -> BracketKind
    ensures { bracket_of result ≡ first_bracketing (from tokens.now at) }
{
    match kind_at(tokens, at) {
        Kind::Fixed(Fixed::LeftParen) => BracketKind::Opens(Fixed::RightParen),
        Kind::Fixed(Fixed::LeftBracket | Fixed::LeftLess | Fixed::LeftGreater) => {
            BracketKind::Opens(Fixed::RightBracket)
        }
        Kind::Fixed(Fixed::LeftBrace) => BracketKind::Opens(Fixed::RightBrace),
        Kind::Fixed(Fixed::RightParen) => BracketKind::Closes(Fixed::RightParen),
        Kind::Fixed(Fixed::RightBracket) => BracketKind::Closes(Fixed::RightBracket),
        Kind::Fixed(Fixed::RightBrace) => BracketKind::Closes(Fixed::RightBrace),
        _ => BracketKind::Neither,
    }
}

/// Whether a token that is no bracket may be at a place: outside the brackets, or inside.
fn fits(run: RunKind, first: bool, outside: bool, tokens: &TokenTable<'_>, at: usize) -> bool
    ensures { result ≡ first_is (if outside then shape_outside run first else is_inside run) (from tokens.now at) }
{
    if !outside {
        return is_inside(run, tokens, at);
    }
    if first {
        return begins(run, tokens, at);
    }
    is_beside(run, tokens, at)
}

/// Whether the token at a place may follow those before it. `unclosed` has the words that are still to close the
/// brackets, the next one last.
fn step(
    run: RunKind,
    first: bool,
    tokens: &TokenTable<'_>,
    unclosed: &mut Vec<Fixed>,
    at: usize,
) -> Result<bool, Memory>
    requires { at < length tokens.now }
    ensures { IfOk result (λ more. StepsTo more (first_after (shape_outside run first) (is_inside run) (from tokens.now at) (reverse unclosed.old.items)) (reverse unclosed.new.items)) }
{
    match bracket_kind(tokens, at) {
        BracketKind::Opens(close) => {
            unclosed.push(close)?;
            Ok(true)
        }
        BracketKind::Closes(close) => match unclosed.pop() {
            Some(next) => Ok(is_same(close, next)),
            None => Ok(false),
        },
        BracketKind::Neither => Ok(fits(run, first, unclosed.len() == 0, tokens, at)),
    }
}

/// A number of tokens; if it is 0, `Syntax`.
fn refuse_empty(count: usize) -> Result<usize, ReadError>
    ensures { Gives (λ n. n) result (counted count) }
{
    if count == 0 {
        return Err(ReadError::Syntax);
    }
    Ok(count)
}

/// How many tokens are read if no bracket is open, or else those that were found before.
fn closed_count(unclosed: &[Fixed], done: usize, before: usize) -> usize
    ensures { result ≡ count_after (reverse unclosed.now) done before }
{
    if unclosed.len() == 0 {
        return done;
    }
    before
}

/// The number of the tokens of the longest run from a place.
fn run_length(
    alloc: Global,
    tokens: &TokenTable<'_>,
    run: RunKind,
    at: usize,
) -> Result<usize, ReadError>
    requires { length tokens.now ≤ max_file_bytes }
    ensures value { Gives (λ n. n) result (run_length run (from tokens.now at)) }
    ensures within { IfOk result (λ n. at + n ≤ length tokens.now) }
{
    if at >= tokens.len() {
        return Err(ReadError::Syntax);
    }
    let mut unclosed = Vec::new(alloc);
    if !step(run, true, tokens, &mut unclosed, at)? {
        return Err(ReadError::Syntax);
    }
    let mut count = closed_count(&unclosed, 1, 0);
    for next in at + 1..tokens.len() {
        if !step(run, false, tokens, &mut unclosed, next)? {
            return refuse_empty(count);
        }
        count = closed_count(&unclosed, next - at + 1, count);
    }
    refuse_empty(count)
}

/// The tokens of a run, so many from a place.
fn words(alloc: Global, tokens: &TokenTable<'_>, count: usize, at: usize) -> Result<Run, Memory>
    requires within { at + count ≤ length tokens.now }
    requires few { length tokens.now ≤ max_file_bytes }
    ensures { IfOk result (λ run. view_run run ≡ take count (from tokens.now at)) }
{
    let mut words = Vec::new(alloc);
    for next in at..at + count {
        words.push(token_word(alloc, tokens, next)?)?;
    }
    Ok(Run { words: fit(words) })
}

/// The longest type from a place. The errors are `Syntax` and `Memory`.
#[inline(never)]
pub fn type_run(
    alloc: Global,
    tokens: &TokenTable<'_>,
    at: usize,
) -> Result<(Run, usize), ReadError>
    requires { length tokens.now ≤ max_file_bytes }
    ensures { Gives (λ x. (view_run x.0, from tokens.now x.1)) result (read_type (from tokens.now at)) }
{
    match run_length(alloc, tokens, RunKind::Type, at) {
        Ok(count) => Ok((words(alloc, tokens, count, at)?, at + count)),
        Err(ReadError::Syntax) => Err(ReadError::Syntax),
        Err(ReadError::Memory) => Err(ReadError::Memory),
    }
}

/// The longest declaration from a place. The errors are `Syntax` and `Memory`.
pub fn declaration_run(
    alloc: Global,
    tokens: &TokenTable<'_>,
    at: usize,
) -> Result<(Run, usize), ReadError>
    requires { length tokens.now ≤ max_file_bytes }
    ensures { Gives (λ x. (view_run x.0, from tokens.now x.1)) result (read_declaration (from tokens.now at)) }
{
    match run_length(alloc, tokens, RunKind::Declaration, at) {
        Ok(count) => Ok((words(alloc, tokens, count, at)?, at + count)),
        Err(ReadError::Syntax) => Err(ReadError::Syntax),
        Err(ReadError::Memory) => Err(ReadError::Memory),
    }
}

/// A `:` and a type, if there is a `:` and a type begins behind it. `Memory` is the only error.
#[inline(never)]
pub fn optional_type(
    alloc: Global,
    tokens: &TokenTable<'_>,
    at: usize,
) -> Result<(Option<Run>, usize), ReadError>
    requires { length tokens.now ≤ max_file_bytes }
    ensures { Gives (λ x. (view_type x.0, from tokens.now x.1)) result (Some (read_optional_type (from tokens.now at))) }
{
    match kind_at(tokens, at) {
        Kind::Fixed(Fixed::Colon) => match type_run(alloc, tokens, at + 1) {
            Ok((run, after)) => Ok((Some(run), after)),
            Err(ReadError::Syntax) => Ok((None, at)),
            Err(ReadError::Memory) => Err(ReadError::Memory),
        },
        _ => Ok((None, at)),
    }
}
