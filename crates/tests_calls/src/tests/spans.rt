//! The public calls that the rows do not make by themselves.
use edits::{Edit, apply, new_len};
use rotor_base::{Goal, Name, Place, Row, Text, is_body, is_face, is_name, is_source};
use std::test::Fail;

#[test]
fn replaced_spans(rt: HostRuntime) -> Result<(), Fail> {
    let alloc = rt.alloc();
    let src = b"abcdefgh".as_slice();
    assert_eq!(rt; apply(alloc, src, &[])?.as_slice(), src);
    assert_eq!(rt; new_len(8, &[]), 8);
    let ends = [
        Edit {
            start: 0,
            end: 1,
            text: Name::new(alloc, b"first")?,
        },
        Edit {
            start: 6,
            end: 8,
            text: Name::new(alloc, b"")?,
        },
    ];
    assert_eq!(rt;
        apply(alloc, src, &ends)?.as_slice(),
        b"firstbcdef".as_slice()
    );
    assert_eq!(rt; new_len(8, &ends), 10);
    let touching = [
        Edit {
            start: 2,
            end: 4,
            text: Name::new(alloc, b"+")?,
        },
        Edit {
            start: 4,
            end: 5,
            text: Name::new(alloc, b"**")?,
        },
    ];
    assert_eq!(rt;
        apply(alloc, src, &touching)?.as_slice(),
        b"ab+**fgh".as_slice()
    );
    assert_eq!(rt; new_len(8, &touching), 8);
    Ok(())
}

#[test]
fn names(rt: HostRuntime) -> Result<(), Fail> {
    for (word, wanted) in [
        ("x", true),
        ("_a'9", true),
        ("", false),
        ("X", false),
        ("9x", false),
        ("_", false),
        ("let", false),
        ("lets", true),
        ("virtual", false),
        ("x.y", false),
    ] {
        assert_eq!(rt; is_name(word.as_bytes()), wanted, "{word}");
    }
    for (word, body, face) in [
        ("a.ml", true, false),
        ("A_1.mli", false, true),
        ("_a.ml", false, false),
        (".ml", false, false),
        ("a'.ml", false, false),
        ("a.ml ", false, false),
        ("a.b.ml", false, false),
        ("mli", false, false),
    ] {
        assert_eq!(rt; is_body(word.as_bytes()), body, "{word}");
        assert_eq!(rt; is_face(word.as_bytes()), face, "{word}");
        assert_eq!(rt; is_source(word.as_bytes()), body || face, "{word}");
    }
    Ok(())
}

#[test]
fn small_calls(rt: HostRuntime) -> Result<(), Fail> {
    let alloc = rt.alloc();
    let at = Place { file: 0, token: 2 };
    assert!(rt; Goal::Decl(at).equals(Goal::Decl(at)));
    assert!(rt; !Goal::Decl(at).equals(Goal::Outside));
    let mut row = Row::new(alloc);
    row.push(at)?;
    assert_eq!(rt; row.into_vec().as_slice(), [at].as_slice());
    assert_eq!(rt;
        Text::from_string(String::from_str(alloc, "a.ml")?).as_str(),
        "a.ml"
    );
    Ok(())
}
