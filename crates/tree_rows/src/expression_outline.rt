//! Expressions as outlines.

use crate::outline::Outline;
use crate::pattern_outline::add_pattern;
use ml_trees::{
    Argument, Binding, Case, Expr, Field, LocalArgument, LocalModule, Param, Part, Variable, Word,
};

/// Adds an expression.
#[cycle(expression_outline)]
pub fn add_expression(out: &mut Outline, e: &Expr) {
    match e {
        Expr::Seq { first, rest, last } => {
            out.open("seq");
            add_expression(out, first);
            add_expressions(out, rest);
            out.add_flag(*last, "last");
            out.close();
        }
        Expr::Let {
            at,
            recursive,
            first,
            rest,
            body,
        } => {
            out.open("let");
            out.add_token(*at);
            out.add_flag(*recursive, "rec");
            add_binding(out, first);
            add_bindings(out, rest);
            add_expression(out, body);
            out.close();
        }
        Expr::LetOpen {
            at,
            open,
            bang,
            path,
            body,
        } => {
            out.open("let-open");
            out.add_token(*at);
            out.add_token(*open);
            if let Some(bang) = bang {
                out.add_token(bang.token);
            }
            out.add_path(path);
            add_expression(out, body);
            out.close();
        }
        Expr::LetModule {
            at,
            module,
            name,
            equals,
            value,
            body,
        } => {
            out.open("let-module");
            out.add_token(*at);
            out.add_token(*module);
            out.add_token(name.token);
            out.add_token(*equals);
            add_local_module(out, value);
            add_expression(out, body);
            out.close();
        }
        Expr::Fun { at, params, body } => {
            out.open("fun");
            out.add_token(*at);
            add_parameters(out, params);
            add_expression(out, body);
            out.close();
        }
        Expr::Function {
            at,
            bar,
            first,
            rest,
        } => {
            out.open("function");
            out.add_token(*at);
            out.add_flag(*bar, "bar");
            add_case(out, first);
            add_cases(out, rest);
            out.close();
        }
        Expr::Match {
            at,
            subject,
            bar,
            first,
            rest,
        } => {
            out.open("match");
            out.add_token(*at);
            add_expression(out, subject);
            out.add_flag(*bar, "bar");
            add_case(out, first);
            add_cases(out, rest);
            out.close();
        }
        Expr::Try {
            at,
            subject,
            bar,
            first,
            rest,
        } => {
            out.open("try");
            out.add_token(*at);
            add_expression(out, subject);
            out.add_flag(*bar, "bar");
            add_case(out, first);
            add_cases(out, rest);
            out.close();
        }
        Expr::If {
            at,
            test,
            then,
            more,
            otherwise,
        } => {
            out.open("if");
            out.add_token(*at);
            add_expression(out, test);
            add_expression(out, then);
            for branch in more {
                out.open("branch");
                out.add_token(branch.at);
                add_expression(out, &branch.test);
                add_expression(out, &branch.then);
                out.close();
            }
            if let Some(otherwise) = otherwise {
                out.open("else");
                add_expression(out, otherwise);
                out.close();
            }
            out.close();
        }
        further => add_operation(out, further),
    }
}

/// Adds an expression with operators or arguments.
#[cycle(expression_outline)]
fn add_operation(out: &mut Outline, e: &Expr) {
    match e {
        Expr::Assign { first, rest } => {
            out.open("assign");
            add_expression(out, first);
            add_links(out, rest);
            out.close();
        }
        Expr::Chain { level, first, rest } => {
            out.open("chain");
            out.add_token(*level);
            add_expression(out, first);
            add_links(out, rest);
            out.close();
        }
        Expr::Tuple { first, rest } => {
            out.open("tuple");
            add_expression(out, first);
            add_expressions(out, rest);
            out.close();
        }
        Expr::Minus { sign, operand } => add_inside(out, "minus", sign.token, operand),
        Expr::Prefixed { operator, operand } => add_inside(
            out,
            "prefixed",
            operator.token,
            operand,
        ),
        Expr::TagApply { tag, argument } => add_inside(out, "tag", tag.token, argument),
        Expr::Assert { at, argument } => add_inside(out, "assert", *at, argument),
        Expr::Lazy { at, argument } => add_inside(out, "lazy", *at, argument),
        Expr::Paren { at, body } => add_inside(out, "parentheses", *at, body),
        Expr::Begin { at, body } => add_inside(out, "begin", *at, body),
        Expr::Apply {
            function,
            arguments,
        } => {
            out.open("apply");
            add_expression(out, function);
            for part in arguments {
                add_argument(out, part);
            }
            out.close();
        }
        Expr::ConstrApply { path, argument } => {
            out.open("constructor");
            out.add_path(path);
            add_expression(out, argument);
            out.close();
        }
        Expr::Postfix { base, parts } => {
            out.open("postfix");
            add_expression(out, base);
            for piece in parts {
                add_part(out, piece);
            }
            out.close();
        }
        Expr::Opened { path, body } => {
            out.open("opened");
            out.add_path(path);
            add_expression(out, body);
            out.close();
        }
        Expr::While { at, test, body } => {
            out.open("while");
            out.add_token(*at);
            add_expression(out, test);
            add_expression(out, body);
            out.close();
        }
        further => add_bracketed(out, further),
    }
}

/// Adds an expression in brackets or with types.
#[cycle(expression_outline)]
fn add_bracketed(out: &mut Outline, e: &Expr) {
    match e {
        Expr::Typed { at, body, run } => {
            out.open("typed");
            out.add_token(*at);
            add_expression(out, body);
            out.add_run(run);
            out.close();
        }
        Expr::Coerced { at, body, from, to } => {
            out.open("coerced");
            out.add_token(*at);
            add_expression(out, body);
            out.add_run_if_some(from);
            out.add_run(to);
            out.close();
        }
        Expr::List {
            at,
            bracket,
            first,
            rest,
            last,
        } => {
            out.open("list");
            out.add_bracket(*bracket);
            out.add_token(*at);
            add_expression(out, first);
            add_expressions(out, rest);
            out.add_flag(*last, "last");
            out.close();
        }
        Expr::Record {
            at,
            base,
            first,
            rest,
            last,
        } => {
            out.open("record");
            out.add_token(*at);
            if let Some(base) = base {
                out.open("base");
                add_expression(out, base);
                out.close();
            }
            add_field(out, first);
            for part in rest {
                add_field(out, part);
            }
            out.add_flag(*last, "last");
            out.close();
        }
        Expr::For {
            at,
            variable,
            equals,
            from,
            down,
            to,
            body,
        } => {
            out.open("for");
            out.add_token(*at);
            match variable {
                Variable::Lower(word) => out.add_token(word.token),
                Variable::Any { at } => out.add_production("any", &[*at]),
            }
            out.add_token(*equals);
            add_expression(out, from);
            out.add_flag(*down, "down");
            add_expression(out, to);
            add_expression(out, body);
            out.close();
        }
        leaf => add_leaf(out, leaf),
    }
}

/// Adds an expression without parts.
fn add_leaf(out: &mut Outline, e: &Expr) {
    match e {
        Expr::Literal(word) => out.add_production("literal", &[word.token]),
        Expr::Bool { at, value } => {
            out.open("bool");
            out.add_token(*at);
            out.add_flag(*value, "true");
            out.close();
        }
        Expr::Value { path, name } => {
            out.open("value");
            out.add_words(path);
            out.add_name(name);
            out.close();
        }
        Expr::Constr(path) => out.add_path_production("constructor", &path.words),
        Expr::Tag(tag) => out.add_production("tag", &[tag.token]),
        Expr::Unit { at } => out.add_production("unit", &[*at]),
        Expr::EmptyBegin { at } => out.add_production("begin", &[*at]),
        Expr::Empty { at, bracket } => {
            out.open("empty");
            out.add_bracket(*bracket);
            out.add_token(*at);
            out.close();
        }
        _ => {}
    }
}

/// Adds operators with the operands after them.
#[cycle(expression_outline)]
fn add_links(out: &mut Outline, rest: &[(Word, Expr)]) {
    for (operator, operand) in rest {
        out.add_token(operator.token);
        add_expression(out, operand);
    }
}

/// Adds a production with a token and one part.
#[cycle(expression_outline)]
fn add_inside(out: &mut Outline, name: &str, at: u32, e: &Expr) {
    out.open(name);
    out.add_token(at);
    add_expression(out, e);
    out.close();
}

#[cycle(expression_outline)]
fn add_expressions(out: &mut Outline, list: &[Expr]) {
    for e in list {
        add_expression(out, e);
    }
}

/// Adds the parts of a `let`.
#[cycle(expression_outline)]
pub fn add_bindings(out: &mut Outline, list: &[Binding]) {
    for part in list {
        add_binding(out, part);
    }
}

#[cycle(expression_outline)]
pub fn add_binding(out: &mut Outline, part: &Binding) {
    match part {
        Binding::Plain {
            pat,
            run,
            equals,
            value,
        } => {
            out.open("plain");
            add_pattern(out, pat);
            out.add_run_if_some(run);
            out.add_token(*equals);
            add_expression(out, value);
        }
        Binding::Applied {
            name,
            params,
            run,
            equals,
            value,
        } => {
            out.open("applied");
            out.add_name(name);
            add_parameters(out, params);
            out.add_run_if_some(run);
            out.add_token(*equals);
            add_expression(out, value);
        }
    }
    out.close();
}

#[cycle(expression_outline)]
fn add_cases(out: &mut Outline, list: &[Case]) {
    for part in list {
        add_case(out, part);
    }
}

#[cycle(expression_outline)]
fn add_case(out: &mut Outline, part: &Case) {
    out.open("case");
    add_pattern(out, &part.pat);
    if let Some(guard) = &part.guard {
        out.open("when");
        add_expression(out, guard);
        out.close();
    }
    add_expression(out, &part.body);
    out.close();
}

#[cycle(expression_outline)]
fn add_argument(out: &mut Outline, part: &Argument) {
    match part {
        Argument::Positional(value) => add_expression(out, value),
        Argument::LabelPun(label) => out.add_production("pun", &[label.token]),
        Argument::Labelled { label, value } => add_inside(out, "labelled", label.token, value),
    }
}

#[cycle(expression_outline)]
fn add_parameters(out: &mut Outline, params: &[Param]) {
    for part in params {
        add_parameter(out, part);
    }
}

#[cycle(expression_outline)]
fn add_parameter(out: &mut Outline, part: &Param) {
    match part {
        Param::Pattern(pat) => add_pattern(out, pat),
        Param::Label(label) => out.add_production("label", &[label.token]),
        Param::LabelPattern { label, pat } => {
            out.open("labelled");
            out.add_token(label.token);
            add_pattern(out, pat);
            out.close();
        }
        Param::Default {
            label,
            open,
            pat,
            run,
            equals,
            value,
        } => {
            out.open("default");
            out.add_token(label.token);
            out.add_token(*open);
            add_pattern(out, pat);
            out.add_run_if_some(run);
            out.add_token(*equals);
            add_expression(out, value);
            out.close();
        }
        Param::Wrapped {
            at,
            optional,
            open,
            name,
            run,
        } => {
            out.open("wrapped");
            out.add_token(*at);
            out.add_flag(*optional, "optional");
            out.add_token(*open);
            out.add_token(name.token);
            out.add_run_if_some(run);
            out.close();
        }
        Param::WrappedDefault {
            at,
            open,
            name,
            run,
            equals,
            value,
        } => {
            out.open("wrapped-default");
            out.add_token(*at);
            out.add_token(*open);
            out.add_token(name.token);
            out.add_run_if_some(run);
            out.add_token(*equals);
            add_expression(out, value);
            out.close();
        }
        Param::Types { open, names } => {
            out.open("types");
            out.add_token(*open);
            out.add_words(names);
            out.close();
        }
    }
}

#[cycle(expression_outline)]
fn add_part(out: &mut Outline, piece: &Part) {
    match piece {
        Part::Select { path, label } => {
            out.open("select");
            out.add_words(path);
            out.add_token(label.token);
            out.close();
        }
        Part::Index { open, index } => add_inside(out, "index", *open, index),
        Part::CharIndex { open, index } => add_inside(out, "char", *open, index),
    }
}

#[cycle(expression_outline)]
fn add_field(out: &mut Outline, part: &Field) {
    match part {
        Field::FieldPun { path, label, run } => {
            out.open("pun");
            out.add_words(path);
            out.add_token(label.token);
            out.add_run_if_some(run);
            out.close();
        }
        Field::Assigned {
            path,
            label,
            run,
            equals,
            value,
        } => {
            out.open("field");
            out.add_words(path);
            out.add_token(label.token);
            out.add_run_if_some(run);
            out.add_token(*equals);
            add_expression(out, value);
            out.close();
        }
    }
}

#[cycle(local_outline)]
fn add_local_module(out: &mut Outline, module: &LocalModule) {
    out.open("module");
    out.add_path(&module.path);
    for part in &module.arguments {
        match part {
            LocalArgument::Module { open, module } => {
                out.add_token(*open);
                add_local_module(out, module);
            }
            LocalArgument::Nothing { open } => out.add_production("nothing", &[*open]),
        }
    }
    out.close();
}
