//! The walk over patterns.
//!
//! Each function goes down with its tree, so it takes stack at each level: the parsers build no tree that is deeper
//! than the bound on levels.

ghost use Rattle.std.specs.Prelude.{◌≡◌, true, OnOk};
ghost use Rattle.ml_trees.specs.declared.fixed.Fixed.TheVariants as key;
ghost use Rattle.ml_trees.specs.View.{view_name, view_names, view_pat, view_pat_field, pats, pat_fields};
ghost use Rattle.tree_events.specs.Told.{names_told, pat_told, pats_told, pat_field_told, pat_fields_told};
ghost use Rattle.ml_trees.specs.Events.{value};

use crate::event::{Event, Visitor};
use ml_trees::{Fixed, Pat, PatField, ValueName};
use rotor_base::Memory;

/// Reports the name of a value. The error is that of the visitor.
pub fn name<V: Visitor>(visitor: &mut V, binds: bool, name: &ValueName) -> Result<(), Memory>
    ensures { OnOk result (V.state visitor.new ≡ V.step (V.state visitor.old) (value binds (view_name name.now))) }
{
    match name {
        ValueName::Lower(word) => visitor.hear(Event::Plain { binds, word }),
        ValueName::Operator { open, word } => visitor.hear(Event::Operator {
            binds,
            open: *open,
            word,
        }),
    }
}

/// Reports the names after each `as`.
#[tactic(auto, using(tree_events::proofs::Tells::pat_tells))]
fn names<V: Visitor>(visitor: &mut V, list: &[ValueName]) -> Result<(), Memory>
    ensures { OnOk result (V.state visitor.new ≡ names_told V.step (V.state visitor.old) (view_names list.now)) }
{
    for one in list {
        name(visitor, true, one)?;
    }
    Ok(())
}

/// Reports the events of a pattern. The error is that of the visitor.
#[cycle(pattern_walk)]
#[tactic(auto, using(ml_trees::proofs::Variants::pat_views, ml_trees::proofs::Variants::pat_field_views, tree_events::proofs::Tells::pat_tells))]
pub fn pattern<V: Visitor>(visitor: &mut V, pat: &Pat) -> Result<(), Memory>
    ensures { OnOk result (V.state visitor.new ≡ pat_told V.step (V.state visitor.old) (view_pat pat.now)) }
{
    match pat {
        Pat::As { pat, names: list } => {
            pattern(visitor, pat)?;
            names(visitor, list)
        }
        Pat::Or { first, rest } => {
            pattern(visitor, first)?;
            patterns(visitor, Fixed::Bar, rest)?;
            visitor.hear(Event::AlternativesEnd)
        }
        Pat::Tuple { first, rest } => {
            pattern(visitor, first)?;
            patterns(visitor, Fixed::Comma, rest)
        }
        Pat::Cons { first, rest } => {
            pattern(visitor, first)?;
            patterns(visitor, Fixed::ColonColon, rest)
        }
        Pat::List { first, rest, .. } => {
            pattern(visitor, first)?;
            patterns(visitor, Fixed::Semicolon, rest)
        }
        Pat::ConstrApply { path, argument } => {
            visitor.hear(Event::LastPath(&path.words))?;
            pattern(visitor, argument)
        }
        Pat::TagApply { argument, .. } => pattern(visitor, argument),
        Pat::Lazy { pat, .. } => pattern(visitor, pat),
        Pat::Exception { pat, .. } => pattern(visitor, pat),
        Pat::Paren { pat, .. } => pattern(visitor, pat),
        Pat::Typed { pat, .. } => pattern(visitor, pat),
        Pat::Opened { path, pat, .. } => {
            visitor.hear(Event::ModulePath(&path.words))?;
            pattern(visitor, pat)
        }
        Pat::Value(value) => name(visitor, true, value),
        Pat::Record { first, rest, .. } => {
            field(visitor, first)?;
            fields(visitor, rest)
        }
        Pat::Any { .. } => Ok(()),
        Pat::Literal(_) => Ok(()),
        Pat::Negative { .. } => Ok(()),
        Pat::Range { .. } => Ok(()),
        Pat::Constr(path) => visitor.hear(Event::LastPath(&path.words)),
        Pat::Tag(_) => Ok(()),
        Pat::Bool { .. } => Ok(()),
        Pat::Unit { .. } => Ok(()),
        Pat::Empty { .. } => Ok(()),
    }
}

/// Reports the events of patterns, each behind the same fixed word.
#[cycle(pattern_walk)]
#[tactic(auto, using(ml_trees::proofs::Variants::pat_views, ml_trees::proofs::Variants::pat_field_views, tree_events::proofs::Tells::pat_tells))]
fn patterns<V: Visitor>(visitor: &mut V, sign: Fixed, list: &[Pat]) -> Result<(), Memory>
    ensures { OnOk result (V.state visitor.new ≡ pats_told V.step (V.state visitor.old) sign (pats list.now)) }
{
    for pat in list {
        visitor.hear(Event::PartBegins(sign))?;
        pattern(visitor, pat)?;
        visitor.hear(Event::PartEnds(sign))?;
    }
    Ok(())
}

/// Reports the events of a field.
#[cycle(pattern_walk)]
#[tactic(auto, using(ml_trees::proofs::Variants::pat_views, ml_trees::proofs::Variants::pat_field_views, tree_events::proofs::Tells::pat_tells))]
fn field<V: Visitor>(visitor: &mut V, field: &PatField) -> Result<(), Memory>
    ensures { OnOk result (V.state visitor.new ≡ pat_field_told V.step (V.state visitor.old) (view_pat_field field.now)) }
{
    match field {
        PatField::Punned { path, label, .. } => {
            visitor.hear(Event::Qualifier(path))?;
            visitor.hear(Event::Field {
                binds: true,
                word: label,
            })
        }
        PatField::Matched { path, pat, .. } => {
            visitor.hear(Event::Qualifier(path))?;
            pattern(visitor, pat)
        }
    }
}

#[cycle(pattern_walk)]
#[tactic(auto, using(ml_trees::proofs::Variants::pat_views, ml_trees::proofs::Variants::pat_field_views, tree_events::proofs::Tells::pat_tells))]
fn fields<V: Visitor>(visitor: &mut V, list: &[PatField]) -> Result<(), Memory>
    ensures { OnOk result (V.state visitor.new ≡ pat_fields_told V.step (V.state visitor.old) (pat_fields list.now)) }
{
    for part in list {
        field(visitor, part)?;
    }
    Ok(())
}
