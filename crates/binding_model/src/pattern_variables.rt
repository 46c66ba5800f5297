//! The variables of patterns.
//!
//! Each function goes down with its tree, so it takes stack at each level: the parsers build no tree that is deeper
//! than the bound on levels.

ghost use Rattle.std.specs.Prelude.{◌≡◌, ◌++◌, ◌∷◌, [], true, false, IfOk, OnOk, map};
ghost use Rattle.ml_trees.specs.View.{view_name, view_names, view_pat, view_pat_field, pats, pat_fields};
ghost use Rattle.value_sites.specs.Places.{mark, name_sites};
ghost use Rattle.binding_model.specs.Variables.{names as names_bound, variables as vars, pats_variables, field_variables, fields_variables};

use ml_trees::{Pat, PatField, ValueName, Word};
use rotor_base::{Memory, Name};
use std::alloc::Global;
use value_sites::{Mark, operator_of};

/// The variables of a pattern, in order of tokens; an or-pattern has those of its first part alone (the manual's
/// chapter on patterns). `Memory` is the only error.
pub fn variables(alloc: Global, pat: &Pat) -> Result<Vec<Mark>, Memory>
    ensures { IfOk result (λ marks. marks.items ≡ map mark (vars (view_pat pat.now))) }
{
    let mut marks = Vec::new(alloc);
    pattern(alloc, pat, &mut marks)?;
    Ok(marks)
}

/// Adds the variables of a pattern.
#[cycle(variables)]
#[tactic(auto, using(ml_trees::proofs::Variants::pat_views, ml_trees::proofs::Variants::pat_field_views, crate::proofs::Marked::marks_joined))]
fn pattern(alloc: Global, pat: &Pat, marks: &mut Vec<Mark>) -> Result<(), Memory>
    ensures { OnOk result (marks.new.items ≡ marks.old.items ++ map mark (vars (view_pat pat.now))) }
{
    match pat {
        Pat::As { pat, names } => {
            pattern(alloc, pat, marks)?;
            add_names(alloc, names, marks)
        }
        Pat::Or { first, .. } => pattern(alloc, first, marks),
        Pat::Tuple { first, rest } => {
            pattern(alloc, first, marks)?;
            patterns(alloc, rest, marks)
        }
        Pat::Cons { first, rest } => {
            pattern(alloc, first, marks)?;
            patterns(alloc, rest, marks)
        }
        Pat::List { first, rest, .. } => {
            pattern(alloc, first, marks)?;
            patterns(alloc, rest, marks)
        }
        Pat::ConstrApply { argument, .. } => pattern(alloc, argument, marks),
        Pat::TagApply { argument, .. } => pattern(alloc, argument, marks),
        Pat::Lazy { pat, .. } => pattern(alloc, pat, marks),
        Pat::Exception { pat, .. } => pattern(alloc, pat, marks),
        Pat::Paren { pat, .. } => pattern(alloc, pat, marks),
        Pat::Typed { pat, .. } => pattern(alloc, pat, marks),
        Pat::Opened { pat, .. } => pattern(alloc, pat, marks),
        Pat::Value(name) => add_name(alloc, name, marks),
        Pat::Record { first, rest, .. } => {
            field(alloc, first, marks)?;
            fields(alloc, rest, marks)
        }
        Pat::Any { .. } => Ok(()),
        Pat::Literal(_) => Ok(()),
        Pat::Negative { .. } => Ok(()),
        Pat::Range { .. } => Ok(()),
        Pat::Constr(_) => Ok(()),
        Pat::Tag(_) => Ok(()),
        Pat::Bool { .. } => Ok(()),
        Pat::Unit { .. } => Ok(()),
        Pat::Empty { .. } => Ok(()),
    }
}

#[cycle(variables)]
#[tactic(auto, using(crate::proofs::Marked::marks_joined))]
fn patterns(alloc: Global, list: &[Pat], marks: &mut Vec<Mark>) -> Result<(), Memory>
    ensures { OnOk result (marks.new.items ≡ marks.old.items ++ map mark (pats_variables (pats list.now))) }
{
    for part in list {
        pattern(alloc, part, marks)?;
    }
    Ok(())
}

#[cycle(variables)]
#[tactic(auto, using(ml_trees::proofs::Variants::pat_field_views, crate::proofs::Marked::marks_joined))]
fn field(alloc: Global, field: &PatField, marks: &mut Vec<Mark>) -> Result<(), Memory>
    ensures { OnOk result (marks.new.items ≡ marks.old.items ++ map mark (field_variables (view_pat_field field.now))) }
{
    match field {
        PatField::Punned { label, .. } => add_word(alloc, label, true, marks),
        PatField::Matched { pat, .. } => pattern(alloc, pat, marks),
    }
}

#[cycle(variables)]
#[tactic(auto, using(crate::proofs::Marked::marks_joined))]
fn fields(alloc: Global, list: &[PatField], marks: &mut Vec<Mark>) -> Result<(), Memory>
    ensures { OnOk result (marks.new.items ≡ marks.old.items ++ map mark (fields_variables (pat_fields list.now))) }
{
    for part in list {
        field(alloc, part, marks)?;
    }
    Ok(())
}

/// Adds the names after each `as`.
#[tactic(auto, using(crate::proofs::Marked::marks_joined))]
fn add_names(alloc: Global, list: &[ValueName], marks: &mut Vec<Mark>) -> Result<(), Memory>
    ensures { OnOk result (marks.new.items ≡ marks.old.items ++ map mark (names_bound (view_names list.now))) }
{
    for name in list {
        add_name(alloc, name, marks)?;
    }
    Ok(())
}

/// Adds the value that a name declares.
#[tactic(auto, using(crate::proofs::Marked::marks_joined))]
fn add_name(alloc: Global, name: &ValueName, marks: &mut Vec<Mark>) -> Result<(), Memory>
    ensures { OnOk result (marks.new.items ≡ marks.old.items ++ map mark (name_sites [] true (view_name name.now))) }
{
    match name {
        ValueName::Lower(word) => add_word(alloc, word, false, marks),
        ValueName::Operator { word, .. } => match operator_of(word) {
            Some(name) => add_mark(alloc, word.token, name, false, true, marks),
            None => Ok(()),
        },
    }
}

/// Adds the value that a lower-case word declares: `pun` says whether it is a label or a field too.
fn add_word(alloc: Global, word: &Word, pun: bool, marks: &mut Vec<Mark>) -> Result<(), Memory>
    ensures { OnOk result (marks.new.items ≡ marks.old.items ++ record { token = word.now.token; name = word.now.name; pun = pun; operator = false } ∷ []) }
{
    add_mark(alloc, word.token, word.name.as_bytes(), pun, false, marks)
}

fn add_mark(
    alloc: Global,
    token: u32,
    name: &[u8],
    pun: bool,
    operator: bool,
    marks: &mut Vec<Mark>,
) -> Result<(), Memory>
    ensures { OnOk result (marks.new.items ≡ marks.old.items ++ record { token = token; name = name.now; pun = pun; operator = operator } ∷ []) }
{
    let name = Name::new(alloc, name)?;
    marks.push(Mark {
        token,
        name,
        pun,
        operator,
    })?;
    Ok(())
}
