//! The walk over expressions.
//!
//! Each function goes down with its tree, so it takes stack at each level: the parsers build no tree that is deeper
//! than the bound on levels.

ghost use Rattle.std.specs.Prelude.{◌≡◌, true, OnOk};
ghost use Rattle.ml_trees.specs.View.{view, view_binding, view_argument, view_param, view_part, view_field, view_variable, view_pat, view_word, links, commas, ops, maybe, bindings, view_case, cases, arguments, params, parts, fields};
ghost use Rattle.tree_events.specs.Told.{pat_told, expr_told, links_told, base_told, guard_told, binding_told, bindings_told, case_told, cases_told, argument_told, arguments_told, param_told, params_told, part_told, parts_told, field_told, fields_told, variable_told};
ghost use Rattle.ml_trees.specs.Events as out;
ghost use Rattle.ml_trees.specs.Events.{bindings_begin, group_begins, group_ends};

use crate::event::{Event, Visitor};
use crate::locals::walk_local;
use crate::patterns::{name, pattern};
use ml_trees::{Argument, Binding, Case, Expr, Field, Fixed, Param, Part, Pat, Variable, Word};
use rotor_base::Memory;

/// Reports the events of an expression. The error is that of the visitor.
#[cycle(expression_walk)]
#[tactic(auto, using(ml_trees::proofs::Variants::expr_views, tree_events::proofs::Tells::expr_tells))]
pub fn expression<V: Visitor>(visitor: &mut V, e: &Expr) -> Result<(), Memory>
    ensures { OnOk result (V.state visitor.new ≡ expr_told V.step (V.state visitor.old) (view e.now)) }
{
    match e {
        Expr::Seq { first, rest, .. } => {
            expression(visitor, first)?;
            steps(visitor, rest)
        }
        Expr::Let {
            first,
            rest,
            body,
            ..
        } => {
            visitor.hear(Event::BindingsBegin)?;
            binding(visitor, first)?;
            more_bindings(visitor, rest)?;
            visitor.hear(Event::GroupEnds)?;
            expression(visitor, body)
        }
        Expr::LetOpen { path, body, .. } => {
            visitor.hear(Event::ModulePath(&path.words))?;
            expression(visitor, body)
        }
        Expr::LetModule {
            name: word,
            value,
            body,
            ..
        } => {
            walk_local(visitor, value)?;
            visitor.hear(Event::ScopeBegins)?;
            visitor.hear(Event::Brings(word))?;
            expression(visitor, body)?;
            visitor.hear(Event::ScopeEnds)
        }
        Expr::Fun { params, body, .. } => {
            parameters(visitor, params)?;
            expression(visitor, body)
        }
        Expr::Function { first, rest, .. } => {
            case(visitor, first)?;
            more_cases(visitor, rest)
        }
        Expr::Match {
            subject,
            first,
            rest,
            ..
        } => {
            expression(visitor, subject)?;
            case(visitor, first)?;
            more_cases(visitor, rest)
        }
        Expr::Try {
            subject,
            first,
            rest,
            ..
        } => {
            expression(visitor, subject)?;
            case(visitor, first)?;
            more_cases(visitor, rest)
        }
        Expr::If {
            test,
            then,
            more,
            otherwise,
            ..
        } => {
            expression(visitor, test)?;
            expression(visitor, then)?;
            for branch in more {
                expression(visitor, &branch.test)?;
                expression(visitor, &branch.then)?;
            }
            match otherwise {
                Some(last) => expression(visitor, last),
                None => Ok(()),
            }
        }
        Expr::Assign { first, rest } => {
            expression(visitor, first)?;
            operands(visitor, rest)
        }
        Expr::Tuple { first, rest } => {
            expression(visitor, first)?;
            components(visitor, rest)
        }
        Expr::Chain { first, rest, .. } => {
            expression(visitor, first)?;
            operands(visitor, rest)
        }
        Expr::Minus { sign, operand } => {
            visitor.hear(Event::Minus(sign))?;
            expression(visitor, operand)
        }
        Expr::Apply {
            function,
            arguments,
        } => {
            expression(visitor, function)?;
            all_arguments(visitor, arguments)
        }
        Expr::ConstrApply { path, argument } => {
            visitor.hear(Event::LastPath(&path.words))?;
            expression(visitor, argument)
        }
        Expr::TagApply { argument, .. } => expression(visitor, argument),
        Expr::Assert { argument, .. } => expression(visitor, argument),
        Expr::Lazy { argument, .. } => expression(visitor, argument),
        Expr::Postfix { base, parts } => {
            expression(visitor, base)?;
            all_parts(visitor, parts)
        }
        Expr::Prefixed { operator, operand } => {
            visitor.hear(Event::Prefix(operator))?;
            expression(visitor, operand)
        }
        Expr::Literal(_) => Ok(()),
        Expr::Bool { .. } => Ok(()),
        Expr::Value { path, name: value } => {
            visitor.hear(Event::Qualifier(path))?;
            name(visitor, false, value)
        }
        Expr::Constr(path) => visitor.hear(Event::LastPath(&path.words)),
        Expr::Tag(_) => Ok(()),
        Expr::Unit { .. } => Ok(()),
        Expr::Paren { body, .. } => expression(visitor, body),
        Expr::Typed { body, .. } => expression(visitor, body),
        Expr::Coerced { body, .. } => expression(visitor, body),
        Expr::EmptyBegin { .. } => Ok(()),
        Expr::Begin { body, .. } => expression(visitor, body),
        Expr::Empty { .. } => Ok(()),
        Expr::List { first, rest, .. } => {
            expression(visitor, first)?;
            steps(visitor, rest)
        }
        Expr::Record {
            base,
            first,
            rest,
            ..
        } => {
            walk_optional(visitor, base)?;
            field(visitor, first)?;
            more_fields(visitor, rest)
        }
        Expr::Opened { path, body } => {
            visitor.hear(Event::ModulePath(&path.words))?;
            expression(visitor, body)
        }
        Expr::While { test, body, .. } => {
            expression(visitor, test)?;
            expression(visitor, body)
        }
        Expr::For {
            variable: x,
            from,
            to,
            body,
            ..
        } => {
            visitor.hear(Event::GroupBegins)?;
            variable(visitor, x)?;
            expression(visitor, from)?;
            expression(visitor, to)?;
            visitor.hear(Event::GroupEnds)?;
            expression(visitor, body)
        }
    }
}

/// Reports the variable of a `for`.
#[tactic(auto, using(tree_events::proofs::Tells::expr_tells))]
fn variable<V: Visitor>(visitor: &mut V, variable: &Variable) -> Result<(), Memory>
    ensures { OnOk result (V.state visitor.new ≡ variable_told V.step (V.state visitor.old) (view_variable variable.now)) }
{
    match variable {
        Variable::Lower(word) => visitor.hear(Event::Plain { binds: true, word }),
        Variable::Any { .. } => Ok(()),
    }
}

/// Reports the events of an optional expression.
#[cycle(expression_walk)]
#[tactic(auto, using(ml_trees::proofs::Variants::expr_views, tree_events::proofs::Tells::expr_tells))]
fn walk_optional<V: Visitor>(visitor: &mut V, e: &Option<Box<Expr>>) -> Result<(), Memory>
    ensures base { OnOk result (V.state visitor.new ≡ base_told V.step (V.state visitor.old) (maybe e.now)) }
    ensures guard { OnOk result (V.state visitor.new ≡ guard_told V.step (V.state visitor.old) (maybe e.now)) }
{
    match e {
        Some(e) => expression(visitor, e),
        None => Ok(()),
    }
}

/// Reports the events of expressions, each behind a `;`.
#[cycle(expression_walk)]
#[tactic(auto, using(ml_trees::proofs::Variants::expr_views, tree_events::proofs::Tells::expr_tells))]
fn steps<V: Visitor>(visitor: &mut V, list: &[Expr]) -> Result<(), Memory>
    ensures { OnOk result (V.state visitor.new ≡ links_told V.step (V.state visitor.old) (links list.now)) }
{
    for e in list {
        visitor.hear(Event::Separator(Fixed::Semicolon))?;
        expression(visitor, e)?;
    }
    Ok(())
}

/// Reports the events of expressions, each behind a `,`.
#[cycle(expression_walk)]
#[tactic(auto, using(ml_trees::proofs::Variants::expr_views, tree_events::proofs::Tells::expr_tells))]
fn components<V: Visitor>(visitor: &mut V, list: &[Expr]) -> Result<(), Memory>
    ensures { OnOk result (V.state visitor.new ≡ links_told V.step (V.state visitor.old) (commas list.now)) }
{
    for e in list {
        visitor.hear(Event::Separator(Fixed::Comma))?;
        expression(visitor, e)?;
    }
    Ok(())
}

/// Reports the events of operators and the operands behind them.
#[cycle(expression_walk)]
#[tactic(auto, using(ml_trees::proofs::Variants::expr_views, tree_events::proofs::Tells::expr_tells))]
fn operands<V: Visitor>(visitor: &mut V, list: &[(Word, Expr)]) -> Result<(), Memory>
    ensures { OnOk result (V.state visitor.new ≡ links_told V.step (V.state visitor.old) (ops list.now)) }
{
    for link in list {
        visitor.hear(Event::Infix(&link.0))?;
        expression(visitor, &link.1)?;
    }
    Ok(())
}

/// Reports the events of the bindings of a `let`, which are a group. The error is that of the visitor.
#[tactic(auto, using(ml_trees::proofs::Variants::expr_views, tree_events::proofs::Tells::expr_tells))]
pub fn group<V: Visitor>(visitor: &mut V, first: &Binding, rest: &[Binding]) -> Result<(), Memory>
    ensures { OnOk result (V.state visitor.new ≡ V.step (bindings_told V.step (binding_told V.step (V.step (V.state visitor.old) bindings_begin) (view_binding first.now)) (bindings rest.now)) group_ends) }
{
    visitor.hear(Event::BindingsBegin)?;
    binding(visitor, first)?;
    more_bindings(visitor, rest)?;
    visitor.hear(Event::GroupEnds)
}

#[cycle(expression_walk)]
#[tactic(auto, using(ml_trees::proofs::Variants::binding_views, tree_events::proofs::Tells::expr_tells))]
fn binding<V: Visitor>(visitor: &mut V, part: &Binding) -> Result<(), Memory>
    ensures { OnOk result (V.state visitor.new ≡ binding_told V.step (V.state visitor.old) (view_binding part.now)) }
{
    match part {
        Binding::Plain { pat, value, .. } => {
            pattern(visitor, pat)?;
            expression(visitor, value)
        }
        Binding::Applied {
            name: function,
            params,
            value,
            ..
        } => {
            name(visitor, true, function)?;
            parameters(visitor, params)?;
            expression(visitor, value)
        }
    }
}

#[cycle(expression_walk)]
#[tactic(auto, using(ml_trees::proofs::Variants::binding_views, tree_events::proofs::Tells::expr_tells))]
fn more_bindings<V: Visitor>(visitor: &mut V, list: &[Binding]) -> Result<(), Memory>
    ensures { OnOk result (V.state visitor.new ≡ bindings_told V.step (V.state visitor.old) (bindings list.now)) }
{
    for part in list {
        binding(visitor, part)?;
    }
    Ok(())
}

/// Reports the events of a pattern whose values are a group.
fn pattern_group<V: Visitor>(visitor: &mut V, pat: &Pat) -> Result<(), Memory>
    ensures { OnOk result (V.state visitor.new ≡ V.step (pat_told V.step (V.step (V.state visitor.old) group_begins) (view_pat pat.now)) group_ends) }
{
    visitor.hear(Event::GroupBegins)?;
    pattern(visitor, pat)?;
    visitor.hear(Event::GroupEnds)
}

#[cycle(expression_walk)]
#[tactic(auto, using(ml_trees::proofs::Variants::expr_views, tree_events::proofs::Tells::expr_tells))]
fn case<V: Visitor>(visitor: &mut V, part: &Case) -> Result<(), Memory>
    ensures { OnOk result (V.state visitor.new ≡ case_told V.step (V.state visitor.old) (view_case part.now)) }
{
    pattern_group(visitor, &part.pat)?;
    walk_optional(visitor, &part.guard)?;
    expression(visitor, &part.body)
}

#[cycle(expression_walk)]
#[tactic(auto, using(ml_trees::proofs::Variants::expr_views, tree_events::proofs::Tells::expr_tells))]
fn more_cases<V: Visitor>(visitor: &mut V, list: &[Case]) -> Result<(), Memory>
    ensures { OnOk result (V.state visitor.new ≡ cases_told V.step (V.state visitor.old) (cases list.now)) }
{
    for part in list {
        case(visitor, part)?;
    }
    Ok(())
}

#[cycle(expression_walk)]
#[tactic(auto, using(ml_trees::proofs::Variants::argument_views, tree_events::proofs::Tells::expr_tells))]
fn argument<V: Visitor>(visitor: &mut V, part: &Argument) -> Result<(), Memory>
    ensures { OnOk result (V.state visitor.new ≡ argument_told V.step (V.state visitor.old) (view_argument part.now)) }
{
    match part {
        Argument::Positional(e) => expression(visitor, e),
        Argument::LabelPun(label) => visitor.hear(Event::Label {
            binds: false,
            word: label,
        }),
        Argument::Labelled { value, .. } => expression(visitor, value),
    }
}

#[cycle(expression_walk)]
#[tactic(auto, using(ml_trees::proofs::Variants::argument_views, tree_events::proofs::Tells::expr_tells))]
fn all_arguments<V: Visitor>(visitor: &mut V, list: &[Argument]) -> Result<(), Memory>
    ensures { OnOk result (V.state visitor.new ≡ arguments_told V.step (V.state visitor.old) (arguments list.now)) }
{
    for part in list {
        argument(visitor, part)?;
    }
    Ok(())
}

/// Reports a parameter's name that is a label or a field too, which is a group of its own.
fn named_group<V: Visitor>(visitor: &mut V, word: &Word) -> Result<(), Memory>
    ensures { OnOk result (V.state visitor.new ≡ V.step (V.step (V.step (V.state visitor.old) group_begins) (out.field true (view_word word.now))) group_ends) }
{
    visitor.hear(Event::GroupBegins)?;
    visitor.hear(Event::Field { binds: true, word })?;
    visitor.hear(Event::GroupEnds)
}

#[cycle(expression_walk)]
#[tactic(auto, using(ml_trees::proofs::Variants::param_views, tree_events::proofs::Tells::expr_tells))]
fn parameter<V: Visitor>(visitor: &mut V, part: &Param) -> Result<(), Memory>
    ensures { OnOk result (V.state visitor.new ≡ param_told V.step (V.state visitor.old) (view_param part.now)) }
{
    match part {
        Param::Pattern(pat) => pattern_group(visitor, pat),
        Param::Label(label) => {
            visitor.hear(Event::GroupBegins)?;
            visitor.hear(Event::Label {
                binds: true,
                word: label,
            })?;
            visitor.hear(Event::GroupEnds)
        }
        Param::LabelPattern { pat, .. } => pattern_group(visitor, pat),
        Param::Default { pat, value, .. } => {
            visitor.hear(Event::GroupBegins)?;
            pattern(visitor, pat)?;
            expression(visitor, value)?;
            visitor.hear(Event::GroupEnds)
        }
        Param::Wrapped { name: word, .. } => named_group(visitor, word),
        Param::WrappedDefault {
            name: word,
            value,
            ..
        } => {
            visitor.hear(Event::GroupBegins)?;
            visitor.hear(Event::Field { binds: true, word })?;
            expression(visitor, value)?;
            visitor.hear(Event::GroupEnds)
        }
        Param::Types { .. } => Ok(()),
    }
}

#[cycle(expression_walk)]
#[tactic(auto, using(ml_trees::proofs::Variants::param_views, tree_events::proofs::Tells::expr_tells))]
fn parameters<V: Visitor>(visitor: &mut V, list: &[Param]) -> Result<(), Memory>
    ensures { OnOk result (V.state visitor.new ≡ params_told V.step (V.state visitor.old) (params list.now)) }
{
    for part in list {
        parameter(visitor, part)?;
    }
    Ok(())
}

#[cycle(expression_walk)]
#[tactic(auto, using(ml_trees::proofs::Variants::part_views, tree_events::proofs::Tells::expr_tells))]
fn part<V: Visitor>(visitor: &mut V, part: &Part) -> Result<(), Memory>
    ensures { OnOk result (V.state visitor.new ≡ part_told V.step (V.state visitor.old) (view_part part.now)) }
{
    match part {
        Part::Select { path, .. } => visitor.hear(Event::Qualifier(path)),
        Part::Index { index, .. } => expression(visitor, index),
        Part::CharIndex { index, .. } => expression(visitor, index),
    }
}

#[cycle(expression_walk)]
#[tactic(auto, using(ml_trees::proofs::Variants::part_views, tree_events::proofs::Tells::expr_tells))]
fn all_parts<V: Visitor>(visitor: &mut V, list: &[Part]) -> Result<(), Memory>
    ensures { OnOk result (V.state visitor.new ≡ parts_told V.step (V.state visitor.old) (parts list.now)) }
{
    for one in list {
        part(visitor, one)?;
    }
    Ok(())
}

#[cycle(expression_walk)]
#[tactic(auto, using(ml_trees::proofs::Variants::field_views, tree_events::proofs::Tells::expr_tells))]
fn field<V: Visitor>(visitor: &mut V, part: &Field) -> Result<(), Memory>
    ensures { OnOk result (V.state visitor.new ≡ field_told V.step (V.state visitor.old) (view_field part.now)) }
{
    match part {
        Field::FieldPun { path, label, .. } => {
            visitor.hear(Event::Qualifier(path))?;
            visitor.hear(Event::Field {
                binds: false,
                word: label,
            })
        }
        Field::Assigned { path, value, .. } => {
            visitor.hear(Event::Qualifier(path))?;
            expression(visitor, value)
        }
    }
}

#[cycle(expression_walk)]
#[tactic(auto, using(ml_trees::proofs::Variants::field_views, tree_events::proofs::Tells::expr_tells))]
fn more_fields<V: Visitor>(visitor: &mut V, list: &[Field]) -> Result<(), Memory>
    ensures { OnOk result (V.state visitor.new ≡ fields_told V.step (V.state visitor.old) (fields list.now)) }
{
    for part in list {
        field(visitor, part)?;
    }
    Ok(())
}
