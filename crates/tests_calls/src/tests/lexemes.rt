//! The lexer on hostile texts, against the answers of a program that was written apart from it.
use ml_lexer::{LexError, lex, one_cutting, replaced_names};
use std::alloc::{AllocError, Global};
use std::fmt::Write;

/// The lexemes with class and span, or the fault.
fn answer_of(alloc: Global, source: &[u8]) -> Result<String, AllocError> {
    let mut text = String::new(alloc);
    if source.len() > 1_048_576 {
        return Ok(text);
    }
    match lex(alloc, source) {
        Ok(tokens) => {
            for token in &tokens {
                let class = token.class;
                write!(text, "{class:?} {} {} ", token.start, token.end)?;
            }
        }
        Err(LexError::Bad { offset }) => write!(text, "bad {offset} ")?,
        Err(LexError::LongName { offset }) => write!(text, "longname {offset} ")?,
        Err(LexError::Memory) => write!(text, "memory")?,
    }
    Ok(text)
}

#[test]
fn hostile_texts(rt: HostRuntime) -> Result<(), AllocError> {
    one_cutting();
    replaced_names();
    let alloc = rt.alloc();
    // The opener, how often it occurs, and the answer.
    let rows = [
        ("x", 255, "Lower 0 255 "),
        ("x", 256, "longname 0 "),
        ("(*", 200_000, "bad 0 "),
        ("{a|", 200_000, "bad 0 "),
        ("(*{aaa", 100_000, "bad 0 "),
        ("[@a", 100_000, "bad 0 "),
        ("+", 500_000, "Infix 0 500000 "),
    ];
    for (piece, count, answer) in rows {
        let mut source = String::new(alloc);
        for _ in 0..count {
            source.push_str(piece)?;
        }
        assert_eq!(rt; answer_of(alloc, source.as_bytes())?.as_str(), answer);
    }
    Ok(())
}
