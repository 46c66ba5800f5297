//! The places that have been found in a tree.

ghost use Rattle.std.specs.Prelude.{◌≡◌, ◌++◌, ◌∷◌, [], OnOk, false};
ghost use Rattle.ml_trees.specs.View.{view_tok};
ghost use Rattle.value_sites.specs.Places.{operated, operator_sites};
ghost use Rattle.ml_syntax.specs.Sites.{is_pun as is_pun_spec, is_operator as is_operator_spec, site_of, view_sites};

use ml_trees::Word;
use rotor_base::{Memory, Name};
use std::alloc::Global;
use value_sites::operator_of;

/// A place of a value: its token, from 1, whether the place is a binder, whether its word is a label or a field too,
/// whether it is an operator, and its name.
#[derive(Debug, Drop)]
pub struct Site {
    pub token: u32,
    pub binds: bool,
    pub pun: bool,
    pub operator: bool,
    pub name: Name,
}

/// What the word of a place is.
#[derive(Clone, Copy)]
pub enum Role {
    /// The name of a value alone.
    Plain,
    /// The name of a label or a field too.
    Pun,
    Operator,
}

/// Whether a word of this role is a label or a field too.
fn is_pun(role: Role) -> bool
    ensures { result ≡ is_pun_spec role }
{
    matches!(role, Role::Pun)
}

/// Whether a word of this role is an operator.
fn is_operator(role: Role) -> bool
    ensures { result ≡ is_operator_spec role }
{
    matches!(role, Role::Operator)
}

/// Adds a place of this name. `Memory` is the only error.
pub fn add_site(
    alloc: Global,
    found: &mut Vec<Site>,
    role: Role,
    binds: bool,
    token: u32,
    name: &[u8],
) -> Result<(), Memory>
    ensures { OnOk result (view_sites found.new.items ≡ view_sites found.old.items ++ site_of role binds token name.now ∷ []) }
{
    let name = Name::new(alloc, name)?;
    found.push(Site {
        token,
        binds,
        pun: is_pun(role),
        operator: is_operator(role),
        name,
    })?;
    Ok(())
}

/// Adds the place of a word that is the name itself. `Memory` is the only error.
pub fn add_word(
    alloc: Global,
    found: &mut Vec<Site>,
    role: Role,
    binds: bool,
    word: &Word,
) -> Result<(), Memory>
    ensures { OnOk result (view_sites found.new.items ≡ view_sites found.old.items ++ site_of role binds word.now.token word.now.name ∷ []) }
{
    add_site(alloc, found, role, binds, word.token, word.name.as_bytes())
}

/// Adds the place of a prefix `-` or `-.`, whose name begins with `~`. `Memory` is the only error.
pub fn add_minus(alloc: Global, found: &mut Vec<Site>, sign: &Word) -> Result<(), Memory>
    ensures { OnOk result (view_sites found.new.items ≡ view_sites found.old.items ++ operated false sign.now.token (126 ∷ sign.now.name) ∷ []) }
{
    let mut name = Vec::new(alloc);
    name.push(b'~')?;
    name.extend_from_slice(sign.name.as_bytes())?;
    add_site(alloc, found, Role::Operator, false, sign.token, &name)
}

/// Adds the place of the operator that a word is, if it is one: `::`, `<-` and `,` are no references. `Memory` is the
/// only error.
pub fn add_operator_word(
    alloc: Global,
    found: &mut Vec<Site>,
    binds: bool,
    word: &Word,
) -> Result<(), Memory>
    ensures { OnOk result (view_sites found.new.items ≡ operator_sites (view_sites found.old.items) binds (view_tok word.now)) }
{
    match operator_of(word) {
        Some(name) => add_site(alloc, found, Role::Operator, binds, word.token, name),
        None => Ok(()),
    }
}
