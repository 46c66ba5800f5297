//! The references and the looks of one expression, and whether facts are the same.
use crate::lines::add_lines;
use crate::places::tokens_of;
use crate::values::{push_module, structure, value, watch};
use binding_model::{Sums, same_facts};
use expr_resolve::{expr_looks, expr_refs};
use parse_expr::parse_seq;
use rotor_base::{Facts, Goal, Looks, Memory, Place, Ref, Row};
use shape_core::Scope;
use std::alloc::{AllocError, Global};
use std::fmt::Write;

/// Adds what the last expression of row opened-expression refers to, and what a renaming of `x` to `y` looks at in it.
pub fn add_opened_expression(alloc: Global, text: &mut String) -> Result<(), Memory> {
    let source = b"module M = struct let y = 2 end let x = 1 let z = M.(x)";
    let tokens = tokens_of(alloc, source, 16)?;
    let Ok((expression, end)) = parse_seq(alloc, &tokens, 16) else {
        return Err(Memory);
    };
    write!(text, "M.(x), up to {end}\n")?;
    let mut scope = make_scope(alloc)?;
    let sums = Sums {
        weight: 0,
        work: 0,
        opened: 0,
    };
    let Ok((facts, after)) = expr_refs(alloc, &mut scope, 0, &expression, sums) else {
        return Err(Memory);
    };
    add_facts(text, &facts)?;
    write!(text, "{after:?}, scope {}\n", scope.len())?;
    let watch = watch(alloc, "x", "y", 11)?;
    let looks = expr_looks(alloc, &mut scope, 0, &expression, &watch)?;
    add_looks(text, &looks, scope.len())?;
    add_sameness(alloc, text, &facts)
}

/// The scope of the expression.
fn make_scope(alloc: Global) -> Result<Scope, Memory> {
    let mut scope = Scope::new(alloc)?;
    push_module(alloc, &mut scope, "M", structure(alloc, &[("y", 6)])?)?;
    scope.push(value(alloc, "x", 11)?)?;
    Ok(scope)
}

/// Adds references, and the numbers of links and groups.
fn add_facts(text: &mut String, facts: &Facts) -> Result<(), AllocError> {
    add_lines(text, facts.refs.as_slice())?;
    let links = facts.links.as_slice().len();
    let groups = facts.groups.as_slice().len();
    write!(text, "links {links}, groups {groups}\n")
}

/// Adds the looks of references, and the numbers of links and of entries of the scope.
fn add_looks(text: &mut String, looks: &Looks, scope: usize) -> Result<(), AllocError> {
    add_lines(text, looks.refs.as_slice())?;
    let links = looks.links.as_slice().len();
    write!(
        text,
        "links {links}, passed {}, scope {scope}\n",
        looks.passed
    )
}

/// Adds whether facts are the same as themselves, and as facts whose one reference leads outside.
fn add_sameness(alloc: Global, text: &mut String, facts: &Facts) -> Result<(), Memory> {
    let mut refs = Row::new(alloc);
    refs.push(Ref {
        at: Place { file: 0, token: 20 },
        goal: Goal::Outside,
    })?;
    let other = Facts {
        refs,
        links: Row::new(alloc),
        groups: Row::new(alloc),
    };
    write!(
        text,
        "same {} {}\n",
        same_facts(facts, facts),
        same_facts(facts, &other)
    )?;
    Ok(())
}
