//! Expressions at the bound on levels, and past it.
use ml_lexer::lex;
use ml_trees::Expr;
use parse_base::ParseError;
use parse_expr::parse_seq;
use std::alloc::{AllocError, Global};
use std::test::Fail;

/// So many times what opens, an `x`, and so many times what closes.
fn make_nested(alloc: Global, open: &str, close: &str, count: u32) -> Result<String, AllocError> {
    let mut text = String::new(alloc);
    for _ in 0..count {
        text.push_str(open)?;
    }
    text.push('x')?;
    for _ in 0..count {
        text.push_str(close)?;
    }
    Ok(text)
}

/// The production of an expression, and how many further parts it has.
fn production(expr: &Expr) -> (&'static str, usize) {
    match expr {
        Expr::Paren { .. } => ("parentheses", 0),
        Expr::List { rest, .. } => ("list", rest.len()),
        Expr::Record { rest, .. } => ("record", rest.len()),
        Expr::Fun { params, .. } => ("fun", params.len()),
        Expr::Let { rest, .. } => ("let", rest.len()),
        _ => ("another", 0),
    }
}

/// The production of the expression that begins a text, how many further parts it has, and the place after it.
fn read(alloc: Global, source: &[u8]) -> Result<(&'static str, usize, usize), ParseError> {
    if source.len() > 1_048_576 {
        return Err(ParseError::Syntax);
    }
    let Ok(tokens) = lex(alloc, source) else {
        return Err(ParseError::Syntax);
    };
    let (expr, end) = parse_seq(alloc, &tokens, 0)?;
    let (name, parts) = production(&expr);
    Ok((name, parts, end))
}

#[test]
fn deep_expressions(rt: HostRuntime) -> Result<(), Fail> {
    let row = " a ** 1 * 1 + 1 :: 1 @ 1 = 1 && 1 || 1, 1 := 1; 1 )";
    let rows = [
        ("( ", " )", 1_000, Ok(("parentheses", 0, 2_001))),
        ("( ", " )", 1_010, Err(ParseError::Memory)),
        ("[ a; ", " ]", 1_000, Ok(("list", 1, 4_001))),
        ("{ b; a = ", " }", 1_000, Ok(("record", 1, 6_001))),
        ("fun a ?l:(p = ", ") -> a", 1_000, Ok(("fun", 2, 9_001))),
        (
            "let a = b and f ?(x = ",
            ") = 1 in a",
            1_000,
            Ok(("let", 1, 15_001)),
        ),
        (
            "let a = b and f ?(x = ",
            ") = 1 in a",
            1_010,
            Err(ParseError::Memory),
        ),
        ("( ", row, 1_000, Err(ParseError::Memory)),
    ];
    for (open, close, count, answer) in rows {
        let source = make_nested(rt.alloc(), open, close, count)?;
        assert_eq!(rt; read(rt.alloc(), source.as_bytes()), answer);
    }
    Ok(())
}
