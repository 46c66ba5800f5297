//! Rows: two sources, a manifest or none, and the answer.
use crate::folder::read_pair;
use std::alloc::{AllocError, Global};
use std::test::Fail;

/// A word so often.
fn repeat_word(alloc: Global, word: &str, count: usize) -> Result<String, AllocError> {
    let mut text = String::new(alloc);
    for _ in 0..count {
        text.push_str(word)?;
    }
    Ok(text)
}

/// A `let` of 1 in so many parentheses.
fn make_nested(alloc: Global, count: usize) -> Result<String, AllocError> {
    let mut text = String::from_str(alloc, "let x = ")?;
    text.push_str(repeat_word(alloc, "(", count)?.as_str())?;
    text.push_str("1")?;
    text.push_str(repeat_word(alloc, ")", count)?.as_str())?;
    Ok(text)
}

#[test]
fn units_come_in_the_order_of_linking(rt: HostRuntime) -> Result<(), Fail> {
    let alloc = rt.alloc();
    let text = read_pair(alloc, "let x = B.y", "let y = 1", None)?;
    assert_eq!(rt; text.as_str(), "B A | 6 4");
    let text = read_pair(alloc, "let x = B.y", "let y = 1", Some("A\nB\n"))?;
    assert_eq!(rt; text.as_str(), "A B | 6 4");
    Ok(())
}

#[test]
fn the_first_source_that_is_not_read_is_told(rt: HostRuntime) -> Result<(), Fail> {
    let alloc = rt.alloc();
    let rows = [
        ("let x = B.y", "let y = A.x", "cycle A"),
        ("let x = 1", "let y = \u{1}", "lex 1@8"),
        ("let x = 1", "let y = 1 class c", "form 1#5 object"),
        ("let", "let y = 1", "syntax 0"),
        ("let", "class c", "syntax 0"),
    ];
    for (first, second, want) in rows {
        assert_eq!(rt; read_pair(alloc, first, second, None)?.as_str(), want);
    }
    Ok(())
}

#[test]
fn long_names_and_deep_nesting_are_told(rt: HostRuntime) -> Result<(), Fail> {
    let alloc = rt.alloc();
    let mut long = String::from_str(alloc, "let ")?;
    long.push_str(repeat_word(alloc, "x", 256)?.as_str())?;
    assert_eq!(rt;
        read_pair(alloc, long.as_str(), "let y = 1", None)?.as_str(),
        "longname 0@4"
    );
    let deep = make_nested(alloc, 257)?;
    assert_eq!(rt;
        read_pair(alloc, deep.as_str(), "let y = 1", None)?.as_str(),
        "deep 0#260"
    );
    let shallow = make_nested(alloc, 255)?;
    assert_eq!(rt;
        read_pair(alloc, shallow.as_str(), "let y = 1", None)?.as_str(),
        "A B | 514 4"
    );
    Ok(())
}
