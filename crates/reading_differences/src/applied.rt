//! Functors that are applied in types.
ghost use Rattle.std.specs.Prelude.{◌≡◌, ◌++◌, ◌≤◌, [], OnOk, length};
ghost use Rattle.std.specs.Option.{option_copied};
ghost use Rattle.rotor_base.specs.Limits.{max_file_bytes};
ghost use Rattle.ml_lexer.specs.Lexed.{view_token, view_tokens};
ghost use Rattle.reading_differences.specs.Applied.{application, applications_in, applied_to as applied_to_of, argument_behind as argument_behind_of, argument_in as argument_in_of, begins_field as begins_field_of, begins_module as begins_module_of};

use crate::difference::{Difference, Parting};
use module_openings::{is_lower, is_upper, is_word};
use rotor_base::{Memory, Name, Place, Token};
use std::alloc::Global;

/// Adds the functors that are applied in types, of a source by its number and its tokens.
pub(crate) fn add_applications(
    alloc: Global,
    found: &mut Vec<Difference>,
    file: u32,
    tokens: &[Token<'_>],
) -> Result<(), Memory>
    requires { length tokens.now ≤ max_file_bytes }
    ensures { OnOk result (found.new.items ≡ found.old.items ++ applications_in file [] 1 (view_tokens tokens.now)) }
{
    let mut before: &[u8] = b"";
    let mut number: u32 = 1;
    let mut rest = tokens;
    while let [token, behind @ ..] = rest {
        let at = Place {
            file,
            token: number,
        };
        push_application(alloc, found, at, find_argument(before, token, behind))?;
        before = token.bytes;
        number += 1;
        rest = behind;
    }
    Ok(())
}

/// Adds the functor at a place, by its argument, if it has one.
fn push_application(
    alloc: Global,
    found: &mut Vec<Difference>,
    at: Place,
    argument: Option<&[u8]>,
) -> Result<(), Memory>
    ensures { OnOk result (found.new.items ≡ found.old.items ++ application at (option_copied argument.entry)) }
{
    if let Some(argument) = argument {
        found.push(Difference {
            at,
            how: Parting::Types(Name::new(alloc, argument)?),
        })?;
    }
    Ok(())
}

/// The last name of the argument of a token, by the word before it and the tokens behind it, if it is a functor that is
/// applied in a type.
fn find_argument<'a>(before: &[u8], token: &Token<'a>, behind: &[Token<'a>]) -> Option<&'a [u8]>
    ensures { option_copied result ≡ applied_to_of before.now (view_token token.now) (view_tokens behind.now) }
{
    if is_upper(token) && !begins_module(before) {
        argument_behind(behind)
    } else {
        None
    }
}

/// Whether a module expression may follow this word.
fn begins_module(word: &[u8]) -> bool
    ensures { result ≡ begins_module_of word.now }
{
    word == b"include".as_slice() || word == b"=".as_slice() || word == b"module".as_slice()
}

/// The last name of the path in the parentheses that begin here, if a lower-case name follows them behind a `.`.
fn argument_behind<'a>(tokens: &[Token<'a>]) -> Option<&'a [u8]>
    ensures { option_copied result ≡ argument_behind_of (view_tokens tokens.now) }
{
    match tokens {
        [first, behind @ ..] if is_word(first, b"(") => argument_in(behind),
        _ => None,
    }
}

/// The last name of the path that begins here, if `)`, `.` and a lower-case name follow it.
fn argument_in<'a>(tokens: &[Token<'a>]) -> Option<&'a [u8]>
    ensures { option_copied result ≡ argument_in_of (view_tokens tokens.now) }
{
    let mut rest = tokens;
    while let [name, next, behind @ ..] = rest {
        if !is_upper(name) {
            return None;
        }
        if !is_word(next, b".") {
            return if is_word(next, b")") && begins_field(behind) {
                Some(name.bytes)
            } else {
                None
            };
        }
        rest = behind;
    }
    None
}

/// Whether `.` and a lower-case name begin here.
fn begins_field(tokens: &[Token<'_>]) -> bool
    ensures { result ≡ begins_field_of (view_tokens tokens.now) }
{
    match tokens {
        [dot, name, ..] => is_word(dot, b".") && is_lower(name),
        _ => false,
    }
}
