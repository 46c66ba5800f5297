//! The levels of expressions. The walk takes little of the stack at each level, and goes no deeper than the given
//! number of levels.

ghost use Rattle.std.specs.Prelude.{◌≡◌, ◌&&◌, nat_le};
ghost use Rattle.ml_trees.specs.Tree as pure;
ghost use Rattle.ml_trees.specs.View.{view, view_binding, view_case, view_argument, view_param, view_part, view_field, view_local, view_local_then, locals, links, commas, ops, maybe, tail_before, bindings, cases, arguments, params, parts, fields};
ghost use Rattle.expr_levels.specs.Height.{height, inside, links_height, maybe_height, tail_height, binding_height, bindings_height, case_height, cases_height, argument_height, arguments_height, param_height, params_height, part_height, parts_height, field_height, fields_height, local_height, locals_height};

use crate::pattern_levels::pattern_fits;
use ml_trees::{
    Argument, Binding, Branch, Case, Expr, Field, LocalArgument, LocalModule, Param, Part, Word,
};

/// Whether an expression has at most so many levels. An expression, a pattern or the module of a `let module` is a
/// level above those inside it.
#[cycle(levels)]
#[tactic(auto, using(crate::proofs::Heights::within_next))]
#[inline(never)]
pub fn fits(expr: &Expr, levels: usize) -> bool
    ensures { result ≡ nat_le (height (view expr.now)) levels }
{
    levels > 0 && inside_fits(expr, levels - 1)
}

/// Whether the inside of an expression has at most so many levels.
#[cycle(levels)]
#[tactic(auto, using(crate::proofs::Heights::within, ml_trees::proofs::Variants::expr_views))]
fn inside_fits(expr: &Expr, levels: usize) -> bool
    ensures { result ≡ nat_le (inside (view expr.now)) levels }
{
    match expr {
        Expr::Seq { first, rest, .. } => fits(first, levels) && all_fit(rest, levels),
        Expr::Let {
            first,
            rest,
            body,
            ..
        } => {
            if !binding_fits(first, levels) {
                return false;
            }
            if !bindings_fit(rest, levels) {
                return false;
            }
            fits(body, levels)
        }
        Expr::LetOpen { body, .. } => fits(body, levels),
        Expr::LetModule { value, body, .. } => module_fits(value, levels) && fits(body, levels),
        Expr::Fun { params, body, .. } => params_fit(params, levels) && fits(body, levels),
        Expr::Function { first, rest, .. } => case_fits(first, levels) && cases_fit(rest, levels),
        Expr::Match {
            subject,
            first,
            rest,
            ..
        } => {
            if !fits(subject, levels) {
                return false;
            }
            if !case_fits(first, levels) {
                return false;
            }
            cases_fit(rest, levels)
        }
        Expr::Try {
            subject,
            first,
            rest,
            ..
        } => {
            if !fits(subject, levels) {
                return false;
            }
            if !case_fits(first, levels) {
                return false;
            }
            cases_fit(rest, levels)
        }
        Expr::If {
            test,
            then,
            more,
            otherwise,
            ..
        } => {
            if !fits(test, levels) {
                return false;
            }
            if !fits(then, levels) {
                return false;
            }
            if !branches_fit(more, levels) {
                return false;
            }
            maybe_fits(otherwise, levels)
        }
        Expr::Assign { first, rest } => fits(first, levels) && operands_fit(rest, levels),
        Expr::Tuple { first, rest } => fits(first, levels) && all_fit(rest, levels),
        Expr::Chain { first, rest, .. } => fits(first, levels) && operands_fit(rest, levels),
        Expr::Minus { operand, .. } => fits(operand, levels),
        Expr::Apply {
            function,
            arguments,
        } => fits(function, levels) && arguments_fit(arguments, levels),
        Expr::ConstrApply { argument, .. } => fits(argument, levels),
        Expr::TagApply { argument, .. } => fits(argument, levels),
        Expr::Assert { argument, .. } => fits(argument, levels),
        Expr::Lazy { argument, .. } => fits(argument, levels),
        Expr::Postfix { base, parts } => fits(base, levels) && parts_fit(parts, levels),
        Expr::Prefixed { operand, .. } => fits(operand, levels),
        Expr::Literal(_) => true,
        Expr::Bool { .. } => true,
        Expr::Value { .. } => true,
        Expr::Constr(_) => true,
        Expr::Tag(_) => true,
        Expr::Unit { .. } => true,
        Expr::Paren { body, .. } => fits(body, levels),
        Expr::Typed { body, .. } => fits(body, levels),
        Expr::Coerced { body, .. } => fits(body, levels),
        Expr::EmptyBegin { .. } => true,
        Expr::Begin { body, .. } => fits(body, levels),
        Expr::Empty { .. } => true,
        Expr::List { first, rest, .. } => fits(first, levels) && all_fit(rest, levels),
        Expr::Record {
            base,
            first,
            rest,
            ..
        } => {
            if !maybe_fits(base, levels) {
                return false;
            }
            if !field_fits(first, levels) {
                return false;
            }
            fields_fit(rest, levels)
        }
        Expr::Opened { body, .. } => fits(body, levels),
        Expr::While { test, body, .. } => fits(test, levels) && fits(body, levels),
        Expr::For { from, to, body, .. } => {
            if !fits(from, levels) {
                return false;
            }
            if !fits(to, levels) {
                return false;
            }
            fits(body, levels)
        }
    }
}

#[cycle(levels)]
#[tactic(auto, using(crate::proofs::Heights::within))]
#[inline(never)]
fn maybe_fits(expr: &Option<Box<Expr>>, levels: usize) -> bool
    ensures { result ≡ nat_le (maybe_height (maybe expr.now)) levels }
{
    match expr {
        Some(expr) => fits(expr, levels),
        None => true,
    }
}

/// The same of expressions between `;` or `,`.
#[cycle(levels)]
#[tactic(auto, using(crate::proofs::Heights::within))]
#[inline(never)]
fn all_fit(list: &[Expr], levels: usize) -> bool
    ensures links { result ≡ nat_le (links_height (links list.now)) levels }
    ensures commas { result ≡ nat_le (links_height (commas list.now)) levels }
{
    for expr in list {
        if !fits(expr, levels) {
            return false;
        }
    }
    true
}

#[cycle(levels)]
#[tactic(auto, using(crate::proofs::Heights::within))]
#[inline(never)]
fn operands_fit(list: &[(Word, Expr)], levels: usize) -> bool
    ensures { result ≡ nat_le (links_height (ops list.now)) levels }
{
    for link in list {
        if !fits(&link.1, levels) {
            return false;
        }
    }
    true
}

/// The same of the branches of an `if` behind the first, before what else follows.
#[cycle(levels)]
#[tactic(auto, using(crate::proofs::Heights::within))]
#[inline(never)]
fn branches_fit(list: &[Branch], levels: usize) -> bool
    ensures { (others : pure.Tail) → nat_le (tail_height (tail_before others list.now)) levels ≡ (result && nat_le (tail_height others) levels) }
{
    for branch in list {
        if !(fits(&branch.test, levels) && fits(&branch.then, levels)) {
            return false;
        }
    }
    true
}

#[cycle(levels)]
#[tactic(auto, using(crate::proofs::Heights::within, ml_trees::proofs::Variants::binding_views))]
#[inline(never)]
fn binding_fits(binding: &Binding, levels: usize) -> bool
    ensures { result ≡ nat_le (binding_height (view_binding binding.now)) levels }
{
    match binding {
        Binding::Plain { pat, value, .. } => pattern_fits(pat, levels) && fits(value, levels),
        Binding::Applied { params, value, .. } => {
            params_fit(params, levels) && fits(value, levels)
        }
    }
}

#[cycle(levels)]
#[tactic(auto, using(crate::proofs::Heights::within))]
#[inline(never)]
fn bindings_fit(list: &[Binding], levels: usize) -> bool
    ensures { result ≡ nat_le (bindings_height (bindings list.now)) levels }
{
    for binding in list {
        if !binding_fits(binding, levels) {
            return false;
        }
    }
    true
}

#[cycle(levels)]
#[tactic(auto, using(crate::proofs::Heights::within))]
#[inline(never)]
fn case_fits(case: &Case, levels: usize) -> bool
    ensures { result ≡ nat_le (case_height (view_case case.now)) levels }
{
    pattern_fits(&case.pat, levels) && maybe_fits(&case.guard, levels) && fits(&case.body, levels)
}

#[cycle(levels)]
#[tactic(auto, using(crate::proofs::Heights::within))]
#[inline(never)]
fn cases_fit(list: &[Case], levels: usize) -> bool
    ensures { result ≡ nat_le (cases_height (cases list.now)) levels }
{
    for case in list {
        if !case_fits(case, levels) {
            return false;
        }
    }
    true
}

#[cycle(levels)]
#[tactic(auto, using(crate::proofs::Heights::within))]
#[inline(never)]
fn arguments_fit(list: &[Argument], levels: usize) -> bool
    ensures { result ≡ nat_le (arguments_height (arguments list.now)) levels }
{
    for argument in list {
        if !argument_fits(argument, levels) {
            return false;
        }
    }
    true
}

#[cycle(levels)]
#[tactic(auto, using(crate::proofs::Heights::within, ml_trees::proofs::Variants::argument_views))]
#[inline(never)]
fn argument_fits(argument: &Argument, levels: usize) -> bool
    ensures { result ≡ nat_le (argument_height (view_argument argument.now)) levels }
{
    match argument {
        Argument::Positional(value) => fits(value, levels),
        Argument::LabelPun(_) => true,
        Argument::Labelled { value, .. } => fits(value, levels),
    }
}

#[cycle(levels)]
#[tactic(auto, using(crate::proofs::Heights::within))]
#[inline(never)]
fn params_fit(list: &[Param], levels: usize) -> bool
    ensures { result ≡ nat_le (params_height (params list.now)) levels }
{
    for param in list {
        if !param_fits(param, levels) {
            return false;
        }
    }
    true
}

#[cycle(levels)]
#[tactic(auto, using(crate::proofs::Heights::within, ml_trees::proofs::Variants::param_views))]
#[inline(never)]
fn param_fits(param: &Param, levels: usize) -> bool
    ensures { result ≡ nat_le (param_height (view_param param.now)) levels }
{
    match param {
        Param::Pattern(pat) => pattern_fits(pat, levels),
        Param::Label(_) => true,
        Param::LabelPattern { pat, .. } => pattern_fits(pat, levels),
        Param::Default { pat, value, .. } => pattern_fits(pat, levels) && fits(value, levels),
        Param::Wrapped { .. } => true,
        Param::WrappedDefault { value, .. } => fits(value, levels),
        Param::Types { .. } => true,
    }
}

#[cycle(levels)]
#[tactic(auto, using(crate::proofs::Heights::within))]
#[inline(never)]
fn parts_fit(list: &[Part], levels: usize) -> bool
    ensures { result ≡ nat_le (parts_height (parts list.now)) levels }
{
    for part in list {
        if !part_fits(part, levels) {
            return false;
        }
    }
    true
}

#[cycle(levels)]
#[tactic(auto, using(crate::proofs::Heights::within, ml_trees::proofs::Variants::part_views))]
#[inline(never)]
fn part_fits(part: &Part, levels: usize) -> bool
    ensures { result ≡ nat_le (part_height (view_part part.now)) levels }
{
    match part {
        Part::Select { .. } => true,
        Part::Index { index, .. } => fits(index, levels),
        Part::CharIndex { index, .. } => fits(index, levels),
    }
}

#[cycle(levels)]
#[tactic(auto, using(crate::proofs::Heights::within))]
#[inline(never)]
fn fields_fit(list: &[Field], levels: usize) -> bool
    ensures { result ≡ nat_le (fields_height (fields list.now)) levels }
{
    for field in list {
        if !field_fits(field, levels) {
            return false;
        }
    }
    true
}

#[cycle(levels)]
#[tactic(auto, using(crate::proofs::Heights::within, ml_trees::proofs::Variants::field_views))]
#[inline(never)]
fn field_fits(field: &Field, levels: usize) -> bool
    ensures { result ≡ nat_le (field_height (view_field field.now)) levels }
{
    match field {
        Field::FieldPun { .. } => true,
        Field::Assigned { value, .. } => fits(value, levels),
    }
}

/// The same of the module of a `let module`.
#[cycle(local_levels)]
#[tactic(auto, using(crate::proofs::Heights::within_next))]
#[inline(never)]
fn module_fits(local: &LocalModule, levels: usize) -> bool
    ensures { result ≡ nat_le (local_height (view_local local.now)) levels }
{
    levels > 0 && module_arguments_fit(&local.arguments, levels - 1)
}

#[cycle(local_levels)]
#[tactic(auto, using(crate::proofs::Heights::within))]
#[inline(never)]
fn module_arguments_fit(list: &[LocalArgument], levels: usize) -> bool
    ensures { result ≡ nat_le (locals_height (locals list.now)) levels }
{
    for argument in list {
        if !module_argument_fits(argument, levels) {
            return false;
        }
    }
    true
}

/// The same of an argument of such a module, before any others.
#[cycle(local_levels)]
#[tactic(auto, using(crate::proofs::Heights::within, crate::proofs::Heights::argument_views))]
#[inline(never)]
fn module_argument_fits(argument: &LocalArgument, levels: usize) -> bool
    ensures { (others : pure.LocalArguments) → nat_le (locals_height (view_local_then argument.now others)) levels ≡ (result && nat_le (locals_height others) levels) }
{
    match argument {
        LocalArgument::Module { module, .. } => module_fits(module, levels),
        LocalArgument::Nothing { .. } => true,
    }
}
