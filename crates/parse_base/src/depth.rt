//! The nesting of a file.

ghost use Rattle.std.specs.Prelude.{◌≡◌, ◌≤◌, ◌∷◌, ℕ, length, take, reverse, IfOk, if◌then◌else◌};
ghost use Rattle.rotor_base.specs.Limits.{max_file_bytes};
ghost use Rattle.ml_trees.specs.Tok.{fixed_at};
ghost use Rattle.parse_base.specs.declared.depth.Role.TheVariants as variant;
ghost use Rattle.parse_base.specs.declared.depth.Mark.TheVariants as mark;
ghost use Rattle.parse_base.specs.Nesting.{role_of, is_let_or_bracket, is_case_or_bracket, after, down_to, without_last, where_last, last_is, is_bracket, is_let, is_case, is_ender, starts_item, is_in_or_semicolon, is_else, is_signed, role_at, DeepIs};
ghost use Rattle.parse_base.specs.Stops.{test_of};

use ml_trees::Fixed;
use rotor_base::{Class, MAX_NESTING, Memory, Token};
use std::alloc::Global;
use token_reading::{Kind, TokenTable, is_minus, kind_at, number, text};

/// What a token is to the rules of the nesting.
#[derive(Clone, Copy)]
pub enum Role {
    /// There is no token.
    Nothing,
    Opening,
    /// `struct` or `sig`, which open too.
    Structure,
    Closing,
    /// An ender that is no closing token.
    Ender,
    Let,
    /// A keyword that an item may start with, other than `let`.
    Item,
    /// `;;`
    Separator,
    In,
    /// `match`, `function` or `try`.
    Cases,
    /// `fun` or `functor`.
    Body,
    If,
    Else,
    Prefix,
    /// `-` or `-.`
    Minus,
    Semicolon,
    Bar,
    And,
    Other,
}

/// A mark of the stack.
#[derive(Clone, Copy)]
pub enum Mark {
    Bracket,
    Let,
    Case,
    Body,
    Weak,
}

/// The marks at which the removing of marks stops.
#[derive(Clone, Copy)]
pub enum Stop {
    Bracket,
    LetOrBracket,
    CaseOrBracket,
    NoWeak,
}

/// What a fixed word is to the rules.
fn fixed_role(fixed: Fixed) -> Role
    ensures { (at : ℕ) → result ≡ role_of (fixed_at at fixed) }
{
    match fixed {
        Fixed::LeftParen => Role::Opening,
        Fixed::LeftBracket => Role::Opening,
        Fixed::LeftArray => Role::Opening,
        Fixed::LeftLess => Role::Opening,
        Fixed::LeftGreater => Role::Opening,
        Fixed::LeftBrace => Role::Opening,
        Fixed::Begin => Role::Opening,
        Fixed::Do => Role::Opening,
        Fixed::Struct => Role::Structure,
        Fixed::Sig => Role::Structure,
        Fixed::RightParen => Role::Closing,
        Fixed::RightBracket => Role::Closing,
        Fixed::RightArray => Role::Closing,
        Fixed::RightBrace => Role::Closing,
        Fixed::End => Role::Closing,
        Fixed::Done => Role::Closing,
        Fixed::Underscore => Role::Ender,
        Fixed::DotDot => Role::Ender,
        Fixed::True => Role::Ender,
        Fixed::False => Role::Ender,
        Fixed::Let => Role::Let,
        Fixed::Val => Role::Item,
        Fixed::External => Role::Item,
        Fixed::Type => Role::Item,
        Fixed::Exception => Role::Item,
        Fixed::Module => Role::Item,
        Fixed::Open => Role::Item,
        Fixed::Include => Role::Item,
        Fixed::DoubleSemicolon => Role::Separator,
        Fixed::In => Role::In,
        Fixed::Match => Role::Cases,
        Fixed::Function => Role::Cases,
        Fixed::Try => Role::Cases,
        Fixed::Fun => Role::Body,
        Fixed::Functor => Role::Body,
        Fixed::If => Role::If,
        Fixed::Else => Role::Else,
        Fixed::Semicolon => Role::Semicolon,
        Fixed::Bar => Role::Bar,
        Fixed::And => Role::And,
        _ => Role::Other,
    }
}

/// What the token at a place is to the rules.
fn role_at(tokens: &TokenTable<'_>, at: usize) -> Role
    ensures { result ≡ role_at tokens.now at }
{
    match kind_at(tokens, at) {
        Kind::Fixed(fixed) => fixed_role(fixed),
        Kind::Word(Class::Keyword) => Role::Other,
        Kind::Word(Class::Mark) => Role::Other,
        Kind::Word(Class::Prefix) => Role::Prefix,
        Kind::Word(Class::Infix) => {
            if is_minus(text(tokens, at)) {
                return Role::Minus;
            }
            Role::Other
        }
        Kind::Word(_) => Role::Ender,
        Kind::End => Role::Nothing,
    }
}

/// Whether the removing stops at a mark.
fn stops(stop: Stop, mark: Mark) -> bool
    ensures { result ≡ test_of stop mark }
{
    match stop {
        Stop::Bracket => matches!(mark, Mark::Bracket),
        Stop::LetOrBracket => matches!(mark, Mark::Let | Mark::Bracket),
        Stop::CaseOrBracket => matches!(mark, Mark::Case | Mark::Bracket),
        Stop::NoWeak => !matches!(mark, Mark::Weak),
    }
}

/// How many marks are left if those after the last stop are removed.
fn count_kept(marks: &[Mark], stop: Stop) -> usize
    ensures left { reverse (take result marks.now) ≡ down_to (test_of stop) (reverse marks.now) }
    ensures within { result ≤ length marks.now }
{
    let mut kept = marks.len();
    for _turn in 0..marks.len() {
        if kept == 0 {
            return 0;
        }
        if stops(stop, marks[kept - 1]) {
            return kept;
        }
        kept -= 1;
    }
    kept
}

/// One more mark.
fn push(marks: &mut Vec<Mark>, mark: Mark) -> Result<(), Memory>
    ensures { IfOk result (λ _. reverse marks.new.items ≡ mark ∷ reverse marks.old.items) }
{
    marks.push(mark)?;
    Ok(())
}

/// Removes the marks after the last stop.
fn cut(marks: &mut Vec<Mark>, stop: Stop)
    ensures { reverse marks.new.items ≡ down_to (test_of stop) (reverse marks.old.items) }
{
    let left = count_kept(marks, stop);
    marks.truncate(left);
}

/// Removes the marks from the last bracket mark on.
fn close(marks: &mut Vec<Mark>)
    ensures { reverse marks.new.items ≡ without_last (down_to is_bracket (reverse marks.old.items)) }
{
    cut(marks, Stop::Bracket);
    marks.pop();
}

/// Whether the last mark is a let mark.
fn ends_with_let(marks: &[Mark]) -> bool
    ensures { result ≡ last_is is_let (reverse marks.now) }
{
    match marks.last() {
        Some(Mark::Let) => true,
        _ => false,
    }
}

/// Removes the marks after the last let mark, if it is after the last bracket mark.
fn cut_to_let(marks: &mut Vec<Mark>)
    ensures { reverse marks.new.items ≡ where_last is_let (down_to is_let_or_bracket (reverse marks.old.items)) (reverse marks.old.items) }
{
    let left = count_kept(marks, Stop::LetOrBracket);
    if ends_with_let(&marks[..left]) {
        marks.truncate(left);
    }
}

/// Whether the last mark is a case mark.
fn ends_with_case(marks: &[Mark]) -> bool
    ensures { result ≡ last_is is_case (reverse marks.now) }
{
    match marks.last() {
        Some(Mark::Case) => true,
        _ => false,
    }
}

/// Removes the marks after the last case mark, if it is after the last bracket mark.
fn cut_to_case(marks: &mut Vec<Mark>)
    ensures { reverse marks.new.items ≡ where_last is_case (down_to is_case_or_bracket (reverse marks.old.items)) (reverse marks.old.items) }
{
    let left = count_kept(marks, Stop::CaseOrBracket);
    if ends_with_case(&marks[..left]) {
        marks.truncate(left);
    }
}

fn is_ender(role: Role) -> bool
    ensures { result ≡ is_ender role }
{
    matches!(role, Role::Ender | Role::Closing)
}

fn starts_item(before: Role) -> bool
    ensures { result ≡ starts_item before }
{
    match before {
        Role::Nothing => true,
        Role::Separator => true,
        Role::Structure => true,
        _ => is_ender(before),
    }
}

fn is_in_or_semicolon(role: Role) -> bool
    ensures { result ≡ is_in_or_semicolon role }
{
    matches!(role, Role::In | Role::Semicolon)
}

fn is_else(role: Role) -> bool
    ensures { result ≡ is_else role }
{
    matches!(role, Role::Else)
}

fn is_signed(role: Role) -> bool
    ensures { result ≡ is_signed role }
{
    matches!(
        role,
        Role::Prefix | Role::Minus | Role::Let | Role::Cases | Role::Body | Role::If
    )
}

/// The rules of a `let`.
fn step_let(marks: &mut Vec<Mark>, before: Role) -> Result<(), Memory>
    ensures { IfOk result (λ _. reverse marks.new.items ≡ after before variant.Let variant.Other (reverse marks.old.items)) }
{
    if starts_item(before) {
        cut(marks, Stop::Bracket);
        return Ok(());
    }
    if is_in_or_semicolon(before) && ends_with_let(marks) {
        return Ok(());
    }
    push(marks, Mark::Let)
}

/// Pushes a weak mark, if `weak`.
fn push_weak(marks: &mut Vec<Mark>, weak: bool) -> Result<(), Memory>
    ensures { IfOk result (λ _. reverse marks.new.items ≡ (if weak then mark.Weak ∷ reverse marks.old.items else reverse marks.old.items)) }
{
    if !weak {
        return Ok(());
    }
    push(marks, Mark::Weak)
}

/// The rules that push a mark; the others by `remove`.
fn step(marks: &mut Vec<Mark>, before: Role, here: Role, next: Role) -> Result<(), Memory>
    ensures { IfOk result (λ _. reverse marks.new.items ≡ after before here next (reverse marks.old.items)) }
{
    match here {
        Role::Opening => push(marks, Mark::Bracket),
        Role::Structure => push(marks, Mark::Bracket),
        Role::Let => step_let(marks, before),
        Role::Cases => push(marks, Mark::Case),
        Role::Body => push(marks, Mark::Body),
        Role::If => push_weak(marks, !is_else(before)),
        Role::Prefix => push_weak(marks, is_signed(next)),
        Role::Minus => push_weak(marks, !is_ender(before) && is_signed(next)),
        Role::Closing => Ok(close(marks)),
        Role::Item => {
            if starts_item(before) {
                cut(marks, Stop::Bracket);
            }
            Ok(())
        }
        Role::Separator => Ok(cut(marks, Stop::Bracket)),
        Role::In => Ok(cut_to_let(marks)),
        Role::Semicolon => Ok(cut(marks, Stop::NoWeak)),
        Role::Bar => Ok(cut_to_case(marks)),
        Role::And => Ok(cut(marks, Stop::LetOrBracket)),
        _ => Ok(()),
    }
}

/// The first token, from 1, after which the nesting is over 256, or none. The Err is want of memory alone. There are at
/// most 1,048,576 tokens.
pub fn scan_depth(alloc: Global, tokens: &[Token<'_>]) -> Result<Option<u32>, Memory>
    requires { length tokens.now ≤ max_file_bytes }
    ensures { IfOk result (DeepIs tokens.now) }
{
    let table = TokenTable::new(alloc, tokens)?;
    deep_token(alloc, &table)
}

/// The same of a table of the tokens. `Memory` is the only error.
pub fn deep_token(alloc: Global, tokens: &TokenTable<'_>) -> Result<Option<u32>, Memory>
    requires { length tokens.now ≤ max_file_bytes }
    ensures { IfOk result (DeepIs tokens.now) }
{
    let mut marks = Vec::new(alloc);
    let mut before = Role::Nothing;
    for at in 0..tokens.len() {
        let here = role_at(tokens, at);
        let next = role_at(tokens, at + 1);
        step(&mut marks, before, here, next)?;
        if marks.len() > MAX_NESTING {
            return Ok(Some(number(at)));
        }
        before = here;
    }
    Ok(None)
}
