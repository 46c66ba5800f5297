//! The names of modules that are known at a file.
ghost use Rattle.std.specs.Prelude.{◌≡◌, ◌++◌, IfOk, OnOk};
ghost use Rattle.ml_lexer.specs.Lexed.{view_token, view_tokens};
ghost use Rattle.module_openings.specs.Named.{view_meant, view_names};
ghost use Rattle.module_openings.specs.Opened.{declared, is_meant as is_meant_of, is_outside as is_outside_of, modules_in, type_declared, types_in};

use crate::lexemes::{is_upper, is_word};
use crate::name_list::NameList;
use rotor_base::{Memory, Token};
use std::alloc::Global;

/// The units that are linked before, and the modules that they declare.
#[derive(Drop)]
pub(crate) struct Linked {
    pub units: NameList,
    pub nested: NameList,
}

/// Names at a file.
#[derive(Drop)]
pub(crate) struct Names<'a> {
    pub linked: &'a Linked,
    /// Module types that the file declares.
    pub types: NameList,
}

/// The modules that may be meant at an opening.
#[derive(Drop)]
pub(crate) struct Meant<'a, 'b> {
    pub names: &'a Names<'b>,
    /// Those that are declared before in the file.
    pub locals: &'a NameList,
    /// Whether a module of the project may be opened there.
    pub brought: bool,
}

/// Whether a path that begins with a name is from outside, behind the modules that its file declares before.
pub(crate) fn is_outside(names: &Names<'_>, locals: &NameList, name: &[u8]) -> bool
    ensures { result ≡ is_outside_of (view_names names.now) locals.now name.now }
{
    !(names.linked.units.contains(name) || names.types.contains(name) || locals.contains(name))
}

/// Whether a name may mean a module of the project.
pub(crate) fn is_meant(meant: &Meant<'_, '_>, name: &[u8]) -> bool
    ensures { result ≡ is_meant_of (view_meant meant.now) name.now }
{
    let linked = meant.names.linked;
    linked.units.contains(name)
        || meant.locals.contains(name)
        || (meant.brought && linked.nested.contains(name))
}

/// Adds the module that a token and those behind it declare, if they do: `module M`, or a functor's parameter `(M :`.
pub(crate) fn push_declared(
    alloc: Global,
    names: &mut NameList,
    token: &Token<'_>,
    behind: &[Token<'_>],
) -> Result<(), Memory>
    ensures { OnOk result (names.new ≡ names.old ++ declared (view_token token.now) (view_tokens behind.now)) }
{
    match behind {
        [name, colon, ..] => {
            let is_parameter = is_word(token, b"(") && is_word(colon, b":");
            if is_upper(name) && (is_word(token, b"module") || is_parameter) {
                names.push(alloc, name.bytes)?;
            }
        }
        [name] => {
            if is_word(token, b"module") && is_upper(name) {
                names.push(alloc, name.bytes)?;
            }
        }
        [] => {}
    }
    Ok(())
}

/// Adds the modules that some tokens declare.
pub(crate) fn push_modules(
    alloc: Global,
    names: &mut NameList,
    tokens: &[Token<'_>],
) -> Result<(), Memory>
    ensures { OnOk result (names.new ≡ names.old ++ modules_in (view_tokens tokens.now)) }
{
    let mut rest = tokens;
    while let [token, behind @ ..] = rest {
        push_declared(alloc, names, token, behind)?;
        rest = behind;
    }
    Ok(())
}

/// Adds the module type that a token and those behind it declare, if they do.
fn push_type(
    alloc: Global,
    names: &mut NameList,
    token: &Token<'_>,
    behind: &[Token<'_>],
) -> Result<(), Memory>
    ensures { OnOk result (names.new ≡ names.old ++ type_declared (view_token token.now) (view_tokens behind.now)) }
{
    if let [name, ..] = behind {
        if is_word(token, b"type") && is_upper(name) {
            names.push(alloc, name.bytes)?;
        }
    }
    Ok(())
}

/// Adds the module types that some tokens declare.
pub(crate) fn push_types(
    alloc: Global,
    names: &mut NameList,
    tokens: &[Token<'_>],
) -> Result<(), Memory>
    ensures { OnOk result (names.new ≡ names.old ++ types_in (view_tokens tokens.now)) }
{
    let mut rest = tokens;
    while let [token, behind @ ..] = rest {
        push_type(alloc, names, token, behind)?;
        rest = behind;
    }
    Ok(())
}
