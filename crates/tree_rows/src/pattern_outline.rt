//! Patterns as outlines.

use crate::outline::Outline;
use ml_trees::{Pat, PatField};

/// Adds a pattern.
#[cycle(pattern_outline)]
pub fn add_pattern(out: &mut Outline, pat: &Pat) {
    match pat {
        Pat::As { pat, names } => {
            out.open("as");
            add_pattern(out, pat);
            for name in names {
                out.add_name(name);
            }
            out.close();
        }
        Pat::Or { first, rest } => {
            out.open("or");
            add_pattern(out, first);
            add_patterns(out, rest);
            out.close();
        }
        Pat::Tuple { first, rest } => {
            out.open("tuple");
            add_pattern(out, first);
            add_patterns(out, rest);
            out.close();
        }
        Pat::Cons { first, rest } => {
            out.open("cons");
            add_pattern(out, first);
            add_patterns(out, rest);
            out.close();
        }
        Pat::ConstrApply { path, argument } => {
            out.open("constructor");
            out.add_path(path);
            add_pattern(out, argument);
            out.close();
        }
        Pat::TagApply { tag, argument } => add_inside(out, "tag", tag.token, argument),
        Pat::Lazy { at, pat } => add_inside(out, "lazy", *at, pat),
        Pat::Exception { at, pat } => add_inside(out, "exception", *at, pat),
        Pat::Paren { at, pat } => add_inside(out, "parentheses", *at, pat),
        Pat::Typed { at, pat, run } => {
            out.open("typed");
            out.add_token(*at);
            add_pattern(out, pat);
            out.add_run(run);
            out.close();
        }
        Pat::List {
            at,
            bracket,
            first,
            rest,
            last,
        } => {
            out.open("list");
            out.add_bracket(*bracket);
            out.add_token(*at);
            add_pattern(out, first);
            add_patterns(out, rest);
            out.add_flag(*last, "last");
            out.close();
        }
        Pat::Record {
            at,
            first,
            rest,
            open,
            last,
        } => {
            out.open("record");
            out.add_token(*at);
            add_field(out, first);
            for part in rest {
                add_field(out, part);
            }
            if let Some(open) = open {
                out.add_token(*open);
            }
            out.add_flag(*last, "last");
            out.close();
        }
        Pat::Opened { path, at, pat } => {
            out.open("opened");
            out.add_path(path);
            out.add_token(*at);
            add_pattern(out, pat);
            out.close();
        }
        simple => add_leaf(out, simple),
    }
}

/// Adds a pattern without parts.
fn add_leaf(out: &mut Outline, pat: &Pat) {
    match pat {
        Pat::Any { at } => out.add_production("any", &[*at]),
        Pat::Value(name) => {
            out.open("value");
            out.add_name(name);
            out.close();
        }
        Pat::Literal(word) => out.add_production("literal", &[word.token]),
        Pat::Negative { sign, number } => out.add_production(
            "negative",
            &[sign.token, number.token],
        ),
        Pat::Range { low, high } => out.add_production("range", &[low.token, high.token]),
        Pat::Constr(path) => out.add_path_production("constructor", &path.words),
        Pat::Tag(tag) => out.add_production("tag", &[tag.token]),
        Pat::Bool { at, value } => {
            out.open("bool");
            out.add_token(*at);
            out.add_flag(*value, "true");
            out.close();
        }
        Pat::Unit { at } => out.add_production("unit", &[*at]),
        Pat::Empty { at, bracket } => {
            out.open("empty");
            out.add_bracket(*bracket);
            out.add_token(*at);
            out.close();
        }
        _ => {}
    }
}

/// Adds a production with a token and one part.
#[cycle(pattern_outline)]
fn add_inside(out: &mut Outline, name: &str, at: u32, pat: &Pat) {
    out.open(name);
    out.add_token(at);
    add_pattern(out, pat);
    out.close();
}

#[cycle(pattern_outline)]
fn add_patterns(out: &mut Outline, list: &[Pat]) {
    for pat in list {
        add_pattern(out, pat);
    }
}

#[cycle(pattern_outline)]
fn add_field(out: &mut Outline, part: &PatField) {
    match part {
        PatField::Punned { path, label, run } => {
            out.open("pun");
            out.add_words(path);
            out.add_token(label.token);
            out.add_run_if_some(run);
            out.close();
        }
        PatField::Matched {
            path,
            label,
            run,
            equals,
            pat,
        } => {
            out.open("field");
            out.add_words(path);
            out.add_token(label.token);
            out.add_run_if_some(run);
            out.add_token(*equals);
            add_pattern(out, pat);
            out.close();
        }
    }
}
