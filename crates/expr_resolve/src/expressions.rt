//! Expressions in their scopes.
//!
//! Each function goes down with its tree, so it takes stack at each level: the parsers build no tree that is deeper
//! than the bound on levels.

ghost use Rattle.std.specs.Prelude.{◌≡◌, ◌≤◌, [], ◌∷◌, false, IfOk, length, take};
ghost use Rattle.rotor_base.specs.declared.place.Goal.TheVariants.{Decl};
ghost use Rattle.ml_trees.specs.View.{view, view_word, view_words, view_tok, view_pat, view_local, view_variable, view_binding, view_case, view_argument, view_param, view_part, view_field, links, ops, maybe, tail, bindings, cases, arguments, params, parts, fields};
ghost use Rattle.value_sites.specs.Places.{operator_sites};
ghost use Rattle.shape_core.specs.Shape.{◌⊕◌, a_val, none};
ghost use Rattle.shape_core.specs.Node.{entries_of};
ghost use Rattle.binding_model.specs.Scopes.{bound, params_bound, parts_scope};
ghost use Rattle.binding_model.specs.Steps.{◌⨾◌, GroupOf};
ghost use Rattle.binding_model.specs.Taken.{HasTaken, HasStopped};
ghost use Rattle.binding_model.specs.Variables.{variables, param_variables};
ghost use Rattle.binding_model.specs.Walk.{uses, pat_steps, expr_steps, links_steps, maybe_steps, binding_steps, bindings_steps, case_steps, cases_steps, argument_steps, arguments_steps, param_steps, params_steps, part_steps, parts_steps, field_steps, fields_steps};
ghost use Rattle.expr_resolve.specs.Branches.{branches_steps};
ghost use Rattle.expr_resolve.specs.Opened.{opened_steps};

use binding_model::Found;
use ml_trees::{Argument, Binding, Branch, Case, Expr, Field, Param, Part, Word};
use name_resolve::{
    end_weighed_site, go_on_with, group, open_in, resolve_opening, start_of, use_label, use_minus,
    use_name_in, use_operator, use_word,
};
use pattern_resolve::{
    let_values, local_module, module_entry, pattern, pattern_group, value_group, variable_group,
    variables_group,
};
use rotor_base::Place;
use shape_core::{FactError, Scope, SharedEntry};
use std::alloc::Global;
use value_sites::label_of;

/// An expression in its scope: its references, links, groups and sites, in order. The scope is as it was, also after
/// an `Err`: `Heavy` at the first site that is too heavy, or `Memory`. It takes stack at each level of the expression.
#[cycle(expressions)]
#[tactic(auto, using(ml_trees::proofs::Variants::expr_views, crate::proofs::Branches::commas_so, crate::proofs::Branches::if_steps, crate::proofs::Fronts::front_of_front, binding_model::proofs::Takings::heavy_stays))]
pub fn expression(
    alloc: Global,
    found: &mut Found,
    file: u32,
    e: &Expr,
    scope: &mut Scope,
) -> Result<(), FactError>
    ensures taken { HasTaken result found.old found.new (expr_steps file (entries_of scope.old) (view e.now)) }
    ensures heavy { HasStopped result found.old (expr_steps file (entries_of scope.old) (view e.now)) }
    ensures scope { scope.new ≡ scope.old }
{
    match e {
        Expr::Seq { first, rest, .. } => {
            expression(alloc, found, file, first, scope)?;
            expressions(alloc, found, file, rest, scope)
        },
        Expr::Let {
            recursive,
            first,
            rest,
            body,
            ..
        } => {
            let values = let_values(alloc, file, first, rest)?;
            group(alloc, found, &values)?;
            let_part(alloc, found, file, first, *recursive, &values, scope)?;
            let_parts(alloc, found, file, rest, *recursive, &values, scope)?;
            resolve_under(alloc, found, file, body, &values, scope)
        },
        Expr::LetOpen {
            open,
            path,
            body,
            ..
        } => resolve_opened(alloc, found, file, *open, &path.words, body, scope),
        Expr::LetModule {
            module,
            name,
            value,
            body,
            ..
        } => {
            let shape = local_module(alloc, found, value, scope)?;
            let at = Place {
                file,
                token: *module,
            };
            end_weighed_site(found, at, &shape)?;
            let entries = module_entry(alloc, name, shape)?;
            resolve_under(alloc, found, file, body, &entries, scope)
        },
        Expr::Fun { params, body, .. } => {
            let len = scope.len();
            match parameters(alloc, found, file, params, scope) {
                Ok(()) => {
                    let done = expression(alloc, found, file, body, scope);
                    scope.cut(len);
                    done
                }
                Err(stop) => {
                    scope.cut(len);
                    Err(stop)
                }
            }
        },
        Expr::Function { first, rest, .. } => {
            case(alloc, found, file, first, scope)?;
            more_cases(alloc, found, file, rest, scope)
        },
        Expr::Match {
            subject,
            first,
            rest,
            ..
        } => {
            expression(alloc, found, file, subject, scope)?;
            case(alloc, found, file, first, scope)?;
            more_cases(alloc, found, file, rest, scope)
        },
        Expr::Try {
            subject,
            first,
            rest,
            ..
        } => {
            expression(alloc, found, file, subject, scope)?;
            case(alloc, found, file, first, scope)?;
            more_cases(alloc, found, file, rest, scope)
        },
        Expr::If {
            test,
            then,
            more,
            otherwise,
            ..
        } => {
            expression(alloc, found, file, test, scope)?;
            expression(alloc, found, file, then, scope)?;
            branches(alloc, found, file, more, scope)?;
            resolve_optional(alloc, found, file, otherwise, scope)
        },
        Expr::Assign { first, rest } => {
            expression(alloc, found, file, first, scope)?;
            operands(alloc, found, file, rest, scope)
        },
        Expr::Tuple { first, rest } => {
            expression(alloc, found, file, first, scope)?;
            expressions(alloc, found, file, rest, scope)
        },
        Expr::Chain { first, rest, .. } => {
            expression(alloc, found, file, first, scope)?;
            operands(alloc, found, file, rest, scope)
        },
        Expr::Minus { sign, operand } => {
            use_minus(alloc, found, file, sign, scope)?;
            expression(alloc, found, file, operand, scope)
        },
        Expr::Apply {
            function,
            arguments,
        } => {
            expression(alloc, found, file, function, scope)?;
            all_arguments(alloc, found, file, arguments, scope)
        },
        Expr::ConstrApply { argument, .. } => expression(alloc, found, file, argument, scope),
        Expr::TagApply { argument, .. } => expression(alloc, found, file, argument, scope),
        Expr::Assert { argument, .. } => expression(alloc, found, file, argument, scope),
        Expr::Lazy { argument, .. } => expression(alloc, found, file, argument, scope),
        Expr::Postfix { base, parts } => {
            expression(alloc, found, file, base, scope)?;
            all_parts(alloc, found, file, parts, scope)
        },
        Expr::Prefixed { operator, operand } => {
            use_word(found, file, operator, scope)?;
            expression(alloc, found, file, operand, scope)
        }
        Expr::Literal(_) => Ok(()),
        Expr::Bool { .. } => Ok(()),
        Expr::Value { path, name } => Ok(use_name_in(found, file, path, name, scope)?),
        Expr::Constr(_) => Ok(()),
        Expr::Tag(_) => Ok(()),
        Expr::Unit { .. } => Ok(()),
        Expr::Paren { body, .. } => expression(alloc, found, file, body, scope),
        Expr::Typed { body, .. } => expression(alloc, found, file, body, scope),
        Expr::Coerced { body, .. } => expression(alloc, found, file, body, scope),
        Expr::EmptyBegin { .. } => Ok(()),
        Expr::Begin { body, .. } => expression(alloc, found, file, body, scope),
        Expr::Empty { .. } => Ok(()),
        Expr::List { first, rest, .. } => {
            expression(alloc, found, file, first, scope)?;
            expressions(alloc, found, file, rest, scope)
        },
        Expr::Record {
            base,
            first,
            rest,
            ..
        } => {
            resolve_optional(alloc, found, file, base, scope)?;
            field(alloc, found, file, first, scope)?;
            more_fields(alloc, found, file, rest, scope)
        },
        Expr::Opened { path, body } => {
            resolve_opened(
                alloc,
                found,
                file,
                start_of(&path.words),
                &path.words,
                body,
                scope,
            )
        }
        Expr::While { test, body, .. } => {
            expression(alloc, found, file, test, scope)?;
            expression(alloc, found, file, body, scope)
        },
        Expr::For {
            variable,
            from,
            to,
            body,
            ..
        } => {
            expression(alloc, found, file, from, scope)?;
            expression(alloc, found, file, to, scope)?;
            let values = variable_group(alloc, found, file, variable)?;
            resolve_under(alloc, found, file, body, &values, scope)
        },
    }
}

/// An optional expression.
#[cycle(expressions)]
#[tactic(auto, using(binding_model::proofs::Takings::heavy_stays))]
fn resolve_optional(
    alloc: Global,
    found: &mut Found,
    file: u32,
    e: &Option<Box<Expr>>,
    scope: &mut Scope,
) -> Result<(), FactError>
    ensures taken { HasTaken result found.old found.new (maybe_steps file (entries_of scope.old) (maybe e.now)) }
    ensures heavy { HasStopped result found.old (maybe_steps file (entries_of scope.old) (maybe e.now)) }
    ensures scope { scope.new ≡ scope.old }
{
    match e {
        Some(e) => expression(alloc, found, file, e, scope),
        None => Ok(()),
    }
}

/// An expression in a scope that goes on with more entries.
#[cycle(expressions)]
#[tactic(auto, using(crate::proofs::Fronts::front_of_front, binding_model::proofs::Takings::heavy_stays))]
fn resolve_under(
    alloc: Global,
    found: &mut Found,
    file: u32,
    e: &Expr,
    new: &[SharedEntry],
    scope: &mut Scope,
) -> Result<(), FactError>
    ensures taken { HasTaken result found.old found.new (expr_steps file (entries_of scope.old ⊕ entries_of new.now) (view e.now)) }
    ensures heavy { HasStopped result found.old (expr_steps file (entries_of scope.old ⊕ entries_of new.now) (view e.now)) }
    ensures scope { scope.new ≡ scope.old }
{
    let len = scope.len();
    go_on_with(scope, new)?;
    let done = expression(alloc, found, file, e, scope);
    scope.cut(len);
    done
}

#[cycle(expressions)]
#[tactic(auto, using(binding_model::proofs::Takings::heavy_stays))]
fn expressions(
    alloc: Global,
    found: &mut Found,
    file: u32,
    list: &[Expr],
    scope: &mut Scope,
) -> Result<(), FactError>
    ensures taken { HasTaken result found.old found.new (links_steps file (entries_of scope.old) (links list.now)) }
    ensures heavy { HasStopped result found.old (links_steps file (entries_of scope.old) (links list.now)) }
    ensures scope { scope.new ≡ scope.old }
{
    for part in list {
        expression(alloc, found, file, part, scope)?;
    }
    Ok(())
}

#[cycle(expressions)]
#[tactic(auto, using(binding_model::proofs::Takings::heavy_stays))]
fn operands(
    alloc: Global,
    found: &mut Found,
    file: u32,
    list: &[(Word, Expr)],
    scope: &mut Scope,
) -> Result<(), FactError>
    ensures taken { HasTaken result found.old found.new (links_steps file (entries_of scope.old) (ops list.now)) }
    ensures heavy { HasStopped result found.old (links_steps file (entries_of scope.old) (ops list.now)) }
    ensures scope { scope.new ≡ scope.old }
{
    for part in list {
        use_operator(found, file, &part.0, scope)?;
        expression(alloc, found, file, &part.1, scope)?;
    }
    Ok(())
}

#[cycle(expressions)]
#[tactic(auto, using(binding_model::proofs::Takings::heavy_stays))]
fn all_arguments(
    alloc: Global,
    found: &mut Found,
    file: u32,
    list: &[Argument],
    scope: &mut Scope,
) -> Result<(), FactError>
    ensures taken { HasTaken result found.old found.new (arguments_steps file (entries_of scope.old) (arguments list.now)) }
    ensures heavy { HasStopped result found.old (arguments_steps file (entries_of scope.old) (arguments list.now)) }
    ensures scope { scope.new ≡ scope.old }
{
    for part in list {
        argument(alloc, found, file, part, scope)?;
    }
    Ok(())
}

#[cycle(expressions)]
#[tactic(auto, using(ml_trees::proofs::Variants::argument_views, binding_model::proofs::Takings::heavy_stays))]
fn argument(
    alloc: Global,
    found: &mut Found,
    file: u32,
    part: &Argument,
    scope: &mut Scope,
) -> Result<(), FactError>
    ensures taken { HasTaken result found.old found.new (argument_steps file (entries_of scope.old) (view_argument part.now)) }
    ensures heavy { HasStopped result found.old (argument_steps file (entries_of scope.old) (view_argument part.now)) }
    ensures scope { scope.new ≡ scope.old }
{
    match part {
        Argument::Positional(e) => expression(alloc, found, file, e, scope),
        Argument::LabelPun(label) => Ok(use_label(found, file, label, scope)?),
        Argument::Labelled { value, .. } => expression(alloc, found, file, value, scope),
    }
}

#[cycle(expressions)]
#[tactic(auto, using(binding_model::proofs::Takings::heavy_stays))]
fn all_parts(
    alloc: Global,
    found: &mut Found,
    file: u32,
    list: &[Part],
    scope: &mut Scope,
) -> Result<(), FactError>
    ensures taken { HasTaken result found.old found.new (parts_steps file (entries_of scope.old) (parts list.now)) }
    ensures heavy { HasStopped result found.old (parts_steps file (entries_of scope.old) (parts list.now)) }
    ensures scope { scope.new ≡ scope.old }
{
    for part in list {
        one_part(alloc, found, file, part, scope)?;
    }
    Ok(())
}

#[cycle(expressions)]
#[tactic(auto, using(ml_trees::proofs::Variants::part_views, binding_model::proofs::Takings::heavy_stays))]
fn one_part(
    alloc: Global,
    found: &mut Found,
    file: u32,
    part: &Part,
    scope: &mut Scope,
) -> Result<(), FactError>
    ensures taken { HasTaken result found.old found.new (part_steps file (entries_of scope.old) (view_part part.now)) }
    ensures heavy { HasStopped result found.old (part_steps file (entries_of scope.old) (view_part part.now)) }
    ensures scope { scope.new ≡ scope.old }
{
    match part {
        Part::Select { .. } => Ok(()),
        Part::Index { index, .. } => expression(alloc, found, file, index, scope),
        Part::CharIndex { index, .. } => expression(alloc, found, file, index, scope),
    }
}

#[cycle(expressions)]
#[tactic(auto, using(binding_model::proofs::Takings::heavy_stays))]
fn more_fields(
    alloc: Global,
    found: &mut Found,
    file: u32,
    list: &[Field],
    scope: &mut Scope,
) -> Result<(), FactError>
    ensures taken { HasTaken result found.old found.new (fields_steps file (entries_of scope.old) (fields list.now)) }
    ensures heavy { HasStopped result found.old (fields_steps file (entries_of scope.old) (fields list.now)) }
    ensures scope { scope.new ≡ scope.old }
{
    for part in list {
        field(alloc, found, file, part, scope)?;
    }
    Ok(())
}

#[cycle(expressions)]
#[tactic(auto, using(ml_trees::proofs::Variants::field_views, binding_model::proofs::Takings::heavy_stays))]
fn field(
    alloc: Global,
    found: &mut Found,
    file: u32,
    part: &Field,
    scope: &mut Scope,
) -> Result<(), FactError>
    ensures taken { HasTaken result found.old found.new (field_steps file (entries_of scope.old) (view_field part.now)) }
    ensures heavy { HasStopped result found.old (field_steps file (entries_of scope.old) (view_field part.now)) }
    ensures scope { scope.new ≡ scope.old }
{
    match part {
        Field::FieldPun { label, .. } => Ok(use_word(found, file, label, scope)?),
        Field::Assigned { value, .. } => expression(alloc, found, file, value, scope),
    }
}

#[cycle(expressions)]
#[tactic(auto, using(binding_model::proofs::Takings::heavy_stays))]
fn branches(
    alloc: Global,
    found: &mut Found,
    file: u32,
    list: &[Branch],
    scope: &mut Scope,
) -> Result<(), FactError>
    ensures taken { HasTaken result found.old found.new (branches_steps file (entries_of scope.old) list.now) }
    ensures heavy { HasStopped result found.old (branches_steps file (entries_of scope.old) list.now) }
    ensures scope { scope.new ≡ scope.old }
{
    for part in list {
        branch(alloc, found, file, part, scope)?;
    }
    Ok(())
}

#[cycle(expressions)]
#[tactic(auto, using(binding_model::proofs::Takings::heavy_stays))]
fn branch(
    alloc: Global,
    found: &mut Found,
    file: u32,
    part: &Branch,
    scope: &mut Scope,
) -> Result<(), FactError>
    ensures taken { HasTaken result found.old found.new (expr_steps file (entries_of scope.old) (view part.now.test) ⨾ expr_steps file (entries_of scope.old) (view part.now.then)) }
    ensures heavy { HasStopped result found.old (expr_steps file (entries_of scope.old) (view part.now.test) ⨾ expr_steps file (entries_of scope.old) (view part.now.then)) }
    ensures scope { scope.new ≡ scope.old }
{
    expression(alloc, found, file, &part.test, scope)?;
    expression(alloc, found, file, &part.then, scope)
}

#[cycle(expressions)]
#[tactic(auto, using(binding_model::proofs::Takings::heavy_stays))]
fn more_cases(
    alloc: Global,
    found: &mut Found,
    file: u32,
    list: &[Case],
    scope: &mut Scope,
) -> Result<(), FactError>
    ensures taken { HasTaken result found.old found.new (cases_steps file (entries_of scope.old) (cases list.now)) }
    ensures heavy { HasStopped result found.old (cases_steps file (entries_of scope.old) (cases list.now)) }
    ensures scope { scope.new ≡ scope.old }
{
    for part in list {
        case(alloc, found, file, part, scope)?;
    }
    Ok(())
}

/// A case binds its pattern in its guard and its body.
#[cycle(expressions)]
#[tactic(auto, using(crate::proofs::Fronts::front_of_front, binding_model::proofs::Takings::heavy_stays))]
fn case(
    alloc: Global,
    found: &mut Found,
    file: u32,
    part: &Case,
    scope: &mut Scope,
) -> Result<(), FactError>
    ensures taken { HasTaken result found.old found.new (case_steps file (entries_of scope.old) (view_case part.now)) }
    ensures heavy { HasStopped result found.old (case_steps file (entries_of scope.old) (view_case part.now)) }
    ensures scope { scope.new ≡ scope.old }
{
    let values = pattern_group(alloc, found, file, &part.pat)?;
    let len = scope.len();
    go_on_with(scope, &values)?;
    let done = resolve_guarded(alloc, found, file, part, scope);
    scope.cut(len);
    done
}

#[cycle(expressions)]
#[tactic(auto, using(binding_model::proofs::Takings::heavy_stays))]
fn more_bindings(
    alloc: Global,
    found: &mut Found,
    file: u32,
    list: &[Binding],
    scope: &mut Scope,
) -> Result<(), FactError>
    ensures taken { HasTaken result found.old found.new (bindings_steps file (entries_of scope.old) (bindings list.now)) }
    ensures heavy { HasStopped result found.old (bindings_steps file (entries_of scope.old) (bindings list.now)) }
    ensures scope { scope.new ≡ scope.old }
{
    for part in list {
        resolve_binding(alloc, found, file, part, scope)?;
    }
    Ok(())
}

#[cycle(expressions)]
#[tactic(auto, using(ml_trees::proofs::Variants::binding_views, crate::proofs::Fronts::front_of_front, binding_model::proofs::Takings::heavy_stays))]
fn resolve_binding(
    alloc: Global,
    found: &mut Found,
    file: u32,
    part: &Binding,
    scope: &mut Scope,
) -> Result<(), FactError>
    ensures taken { HasTaken result found.old found.new (binding_steps file (entries_of scope.old) (view_binding part.now)) }
    ensures heavy { HasStopped result found.old (binding_steps file (entries_of scope.old) (view_binding part.now)) }
    ensures scope { scope.new ≡ scope.old }
{
    match part {
        Binding::Plain { pat, value, .. } => {
            pattern(alloc, found, file, pat)?;
            expression(alloc, found, file, value, scope)
        },
        Binding::Applied { params, value, .. } => {
            let len = scope.len();
            match parameters(alloc, found, file, params, scope) {
                Ok(()) => {
                    let done = expression(alloc, found, file, value, scope);
                    scope.cut(len);
                    done
                }
                Err(stop) => {
                    scope.cut(len);
                    Err(stop)
                }
            }
        }
    }
}

/// Parameters, each in the scope of those before it. The scope goes on with them; after an `Err` its old entries stay.
#[cycle(expressions)]
#[tactic(auto, using(crate::proofs::Fronts::front_of_front, name_resolve::proofs::Lemmas::scopes_joined, binding_model::proofs::Takings::heavy_stays))]
fn parameters(
    alloc: Global,
    found: &mut Found,
    file: u32,
    list: &[Param],
    scope: &mut Scope,
) -> Result<(), FactError>
    ensures taken { HasTaken result found.old found.new (params_steps file (entries_of scope.old) (params list.now)) }
    ensures heavy { HasStopped result found.old (params_steps file (entries_of scope.old) (params list.now)) }
    ensures grown { IfOk result (λ _. entries_of scope.new ≡ entries_of scope.old ⊕ params_bound file (params list.now)) }
    ensures front { take (length scope.old) scope.new ≡ scope.old }
    ensures long { length scope.old ≤ length scope.new }
{
    for part in list {
        let values = parameter(alloc, found, file, part, scope)?;
        go_on_with(scope, &values)?;
    }
    Ok(())
}

/// A parameter. The result is its variables, which its default value does not see.
#[cycle(expressions)]
#[tactic(auto, using(ml_trees::proofs::Variants::param_views, binding_model::proofs::Takings::heavy_stays))]
fn parameter(
    alloc: Global,
    found: &mut Found,
    file: u32,
    part: &Param,
    scope: &mut Scope,
) -> Result<Vec<SharedEntry>, FactError>
    ensures taken { HasTaken result found.old found.new (param_steps file (entries_of scope.old) (view_param part.now)) }
    ensures heavy { HasStopped result found.old (param_steps file (entries_of scope.old) (view_param part.now)) }
    ensures values { IfOk result (λ v. entries_of v.items ≡ bound file (param_variables (view_param part.now))) }
    ensures scope { scope.new ≡ scope.old }
{
    match part {
        Param::Pattern(pat) => Ok(pattern_group(alloc, found, file, pat)?),
        Param::Label(label) => {
            let name = label_of(label.name.as_bytes());
            Ok(value_group(alloc, found, file, label.token, name)?)
        }
        Param::LabelPattern { pat, .. } => Ok(pattern_group(alloc, found, file, pat)?),
        Param::Default { pat, value, .. } => {
            pattern(alloc, found, file, pat)?;
            expression(alloc, found, file, value, scope)?;
            Ok(variables_group(alloc, found, file, pat)?)
        },
        Param::Wrapped { name, .. } => {
            Ok(value_group(alloc, found, file, name.token, name.name.as_bytes())?)
        }
        Param::WrappedDefault { name, value, .. } => {
            expression(alloc, found, file, value, scope)?;
            Ok(value_group(alloc, found, file, name.token, name.name.as_bytes())?)
        }
        Param::Types { .. } => Ok(Vec::new(alloc)),
    }
}

/// An expression in the scope that an opening of a module gives. The site ends before the expression.
#[cycle(expressions)]
#[tactic(auto, using(crate::proofs::Fronts::front_of_front, binding_model::proofs::Takings::heavy_stays))]
fn resolve_opened(
    alloc: Global,
    found: &mut Found,
    file: u32,
    token: u32,
    path: &[Word],
    e: &Expr,
    scope: &mut Scope,
) -> Result<(), FactError>
    ensures taken { HasTaken result found.old found.new (opened_steps file (entries_of scope.old) token (view_words path.now) (view e.now)) }
    ensures heavy { HasStopped result found.old (opened_steps file (entries_of scope.old) token (view_words path.now) (view e.now)) }
    ensures scope { scope.new ≡ scope.old }
{
    let at = Place { file, token };
    let opened = resolve_opening(found, path, at, scope)?;
    let len = scope.len();
    open_in(scope, opened)?;
    let done = expression(alloc, found, file, e, scope);
    scope.cut(len);
    done
}

/// The guard and the body of a case.
#[cycle(expressions)]
#[tactic(auto, using(binding_model::proofs::Takings::heavy_stays))]
fn resolve_guarded(
    alloc: Global,
    found: &mut Found,
    file: u32,
    part: &Case,
    scope: &mut Scope,
) -> Result<(), FactError>
    ensures taken { HasTaken result found.old found.new (maybe_steps file (entries_of scope.old) (maybe part.now.guard) ⨾ expr_steps file (entries_of scope.old) (view part.now.body)) }
    ensures heavy { HasStopped result found.old (maybe_steps file (entries_of scope.old) (maybe part.now.guard) ⨾ expr_steps file (entries_of scope.old) (view part.now.body)) }
    ensures scope { scope.new ≡ scope.old }
{
    resolve_optional(alloc, found, file, &part.guard, scope)?;
    expression(alloc, found, file, &part.body, scope)
}

/// A part of a `let` with these values: it sees them if the `let` is recursive. The scope is as it was, also after an
/// `Err`, as for [`expression`].
#[cycle(expressions)]
#[tactic(auto, using(crate::proofs::Fronts::front_of_front, binding_model::proofs::Takings::heavy_stays))]
pub fn let_part(
    alloc: Global,
    found: &mut Found,
    file: u32,
    part: &Binding,
    recursive: bool,
    new: &[SharedEntry],
    scope: &mut Scope,
) -> Result<(), FactError>
    ensures taken { HasTaken result found.old found.new (binding_steps file (parts_scope recursive (entries_of scope.old) (entries_of new.now)) (view_binding part.now)) }
    ensures heavy { HasStopped result found.old (binding_steps file (parts_scope recursive (entries_of scope.old) (entries_of new.now)) (view_binding part.now)) }
    ensures scope { scope.new ≡ scope.old }
{
    if recursive {
        let len = scope.len();
        go_on_with(scope, new)?;
        let done = resolve_binding(alloc, found, file, part, scope);
        scope.cut(len);
        done
    } else {
        resolve_binding(alloc, found, file, part, scope)
    }
}

/// Several parts of a `let`, in order, as for [`let_part`]. The errors are `Heavy`, at the first site that is too
/// heavy, and `Memory`.
#[cycle(expressions)]
#[tactic(auto, using(crate::proofs::Fronts::front_of_front, binding_model::proofs::Takings::heavy_stays))]
pub fn let_parts(
    alloc: Global,
    found: &mut Found,
    file: u32,
    list: &[Binding],
    recursive: bool,
    new: &[SharedEntry],
    scope: &mut Scope,
) -> Result<(), FactError>
    ensures taken { HasTaken result found.old found.new (bindings_steps file (parts_scope recursive (entries_of scope.old) (entries_of new.now)) (bindings list.now)) }
    ensures heavy { HasStopped result found.old (bindings_steps file (parts_scope recursive (entries_of scope.old) (entries_of new.now)) (bindings list.now)) }
    ensures scope { scope.new ≡ scope.old }
{
    if recursive {
        let len = scope.len();
        go_on_with(scope, new)?;
        let done = more_bindings(alloc, found, file, list, scope);
        scope.cut(len);
        done
    } else {
        more_bindings(alloc, found, file, list, scope)
    }
}
