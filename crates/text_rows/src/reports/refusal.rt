//! Refusals and their places, as the rows give them.

use rotor_base::{FormKind, Goal, LoadError, Memory, Name, Place, Refusal};
use row_pieces::read_number;
use std::alloc::Global;

/// The refusal of a project or of a renaming, if the pieces are one.
pub fn read_refusal(alloc: Global, pieces: &[&str]) -> Result<Option<Refusal>, Memory> {
    let refusal = match pieces {
        ["cycle", unit] => Refusal::Cycle {
            unit: Name::new(alloc, unit.as_bytes())?,
        },
        ["form", at, kind] => {
            let Some(kind) = read_form_kind(kind) else {
                return Ok(None);
            };
            let at = read_place(at);
            Refusal::Form { at, kind }
        }
        [kind] => return Ok(read_bare_refusal(kind)),
        [kind, first] => return Ok(read_with_one(kind, first)),
        [kind, first, second] => return Ok(read_with_two(kind, first, second)),
        ["capture", at, was, would] => Refusal::Capture {
            at: read_place(at),
            was: read_goal(was),
            would: read_goal(would),
        },
        ["mislink", item, was, would] => Refusal::Mislink {
            item: read_goal(item),
            was: read_goal(was),
            would: read_goal(would),
        },
        _ => return Ok(None),
    };
    Ok(Some(refusal))
}

fn read_bare_refusal(kind: &str) -> Option<Refusal> {
    match kind {
        "notarget" => Some(Refusal::NoTarget),
        "operator" => Some(Refusal::Operator),
        "badname" => Some(Refusal::BadName),
        "samename" => Some(Refusal::SameName),
        _ => None,
    }
}

/// The refusal with one place or file.
fn read_with_one(kind: &str, value: &str) -> Option<Refusal> {
    let (at, file) = (read_place(value), read_number(value));
    match kind {
        "deep" => Some(Refusal::Deep { at }),
        "syntax" => Some(Refusal::Syntax { file }),
        "heavy" => Some(Refusal::Heavy { at }),
        "unmatched" => Some(Refusal::Unmatched { item: at }),
        "outside" => Some(Refusal::Outside { at }),
        "pun" => Some(Refusal::Pun { at }),
        "blurred" => Some(Refusal::Blurred { at }),
        "grown" => Some(Refusal::Grown { file }),
        _ => None,
    }
}

/// The refusal with a file and an offset, or with two places.
fn read_with_two(kind: &str, one: &str, other: &str) -> Option<Refusal> {
    let (file, offset) = (read_number(one), read_number(other));
    let (first, again) = (read_place(one), read_place(other));
    match kind {
        "lex" => Some(Refusal::Lex { file, offset }),
        "longname" => Some(Refusal::LongName { file, offset }),
        "duplicate" => Some(Refusal::Duplicate { first, again }),
        "clash" => Some(Refusal::Clash { first, again }),
        _ => None,
    }
}

fn read_form_kind(word: &str) -> Option<FormKind> {
    match word {
        "object" => Some(FormKind::Object),
        "package" => Some(FormKind::Package),
        "recmodule" => Some(FormKind::RecModule),
        "absmodtype" => Some(FormKind::AbsModType),
        "withmodule" => Some(FormKind::WithModule),
        "localmodule" => Some(FormKind::LocalModule),
        "openstruct" => Some(FormKind::OpenStruct),
        "extension" => Some(FormKind::Extension),
        "bindop" => Some(FormKind::BindOp),
        "hash" => Some(FormKind::Hash),
        "ampor" => Some(FormKind::AmpOr),
        _ => None,
    }
}

/// Why a folder is not loaded, if the pieces say it.
pub fn read_load_error(alloc: Global, pieces: &[&str]) -> Result<Option<LoadError>, Memory> {
    let error = match pieces {
        ["toomany", count] => LoadError::TooMany {
            count: u64::from(read_number(count)),
        },
        ["toolarge", file] => LoadError::TooLarge {
            file: Name::new(alloc, file.as_bytes())?,
        },
        ["doubleunit", unit] => LoadError::DoubleUnit {
            unit: Name::new(alloc, unit.as_bytes())?,
        },
        ["badmanifest", line] => LoadError::BadManifest {
            line: read_number(line),
        },
        _ => return Ok(None),
    };
    Ok(Some(error))
}

/// The place `FILE#TOKEN`, with the number of the file.
pub fn read_place(text: &str) -> Place {
    let (file, token) = text.split_once('#').unwrap_or(("0", "0"));
    Place {
        file: read_number(file),
        token: read_number(token),
    }
}

/// A goal: a place, a word, or `BY:PASSED:BEHIND` of a value that an outside module may hide.
fn read_goal(text: &str) -> Goal {
    match text {
        "outside" => Goal::Outside,
        "missing" => Goal::Missing,
        "hidden" => Goal::Hidden,
        text => match text.split_once(':') {
            Some((by, rest)) => read_blur(read_place(by), rest),
            None => Goal::Decl(read_place(text)),
        },
    }
}

fn read_blur(by: Place, text: &str) -> Goal {
    let (passed, behind) = text.split_once(':').unwrap_or(("0", "none"));
    Goal::Blur {
        by,
        passed: u64::from(read_number(passed)),
        behind: read_place_or_none(behind),
    }
}

/// A place, or nothing for `none`.
pub fn read_place_or_none(text: &str) -> Option<Place> {
    if text == "none" {
        None
    } else {
        Some(read_place(text))
    }
}
