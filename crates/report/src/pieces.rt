//! What the lines of a report are made of.
ghost use Rattle.std.specs.Prelude.{◌≡◌, ◌++◌, IfOk, OnOk, map, string_bytes};
ghost use Rattle.std.specs.Fmt.{decimal};
ghost use Rattle.report.specs.Pieces.{behind_text as behind_text_of, file_of, goal_text as goal_text_of, join, kind_text as kind_text_of, offset_text as offset_text_of, place_text as place_text_of, placed_name as placed_name_of};
ghost use Rattle.report.specs.Text.{ended};

use rotor_base::{FormKind, Goal, Memory, Name, Place, Row};
use std::alloc::Global;

/// Some words, one directly behind the other.
pub(crate) fn join_words(alloc: Global, words: &[&[u8]]) -> Result<Row<u8>, Memory>
    ensures { IfOk result (λ bytes. bytes ≡ join (map (λ word. word.now) words.now)) }
{
    let mut bytes = Vec::new(alloc);
    for word in words {
        bytes.extend_from_slice(word)?;
    }
    Ok(Row::from_vec(bytes))
}

/// Adds a line to a text: some words, one directly behind the other, and LF. The one error is want of memory.
pub fn push_line(text: &mut Vec<u8>, words: &[&[u8]]) -> Result<(), Memory>
    ensures { OnOk result (text.new.items ≡ text.old.items ++ ended (join (map (λ word. word.now) words.now))) }
{
    for word in words {
        text.extend_from_slice(word)?;
    }
    text.push(b'\n')?;
    Ok(())
}

/// The name of a source by its number; a number past the list has the empty name.
pub(crate) fn file_name(names: &[String], file: u32) -> &[u8]
    ensures { result.now ≡ file_of (map string_bytes names.now) file }
{
    match names.get(file as usize) {
        Some(name) => name.as_bytes(),
        None => b"",
    }
}

/// A number in decimal. The one error is want of memory.
pub fn number_text(alloc: Global, number: u64) -> Result<Row<u8>, Memory>
    ensures { IfOk result (λ text. text ≡ decimal number) }
{
    let digits = format!(in alloc; "{number}")?;
    join_words(alloc, &[digits.as_bytes()])
}

/// A place, `FILE#N`.
pub(crate) fn place_text(alloc: Global, names: &[String], place: Place) -> Result<Row<u8>, Memory>
    ensures { IfOk result (λ text. text ≡ place_text_of (map string_bytes names.now) place) }
{
    let number = number_text(alloc, u64::from(place.token))?;
    join_words(
        alloc,
        &[file_name(names, place.file), b"#", number.as_slice()],
    )
}

/// A place and a name, `FILE#N NAME`.
pub(crate) fn placed_name(
    alloc: Global,
    names: &[String],
    at: Place,
    name: &Name,
) -> Result<Row<u8>, Memory>
    ensures { IfOk result (λ text. text ≡ placed_name_of (map string_bytes names.now) at name.now) }
{
    let at = place_text(alloc, names, at)?;
    join_words(alloc, &[at.as_slice(), b" ", name.as_bytes()])
}

/// A byte of a source, `FILE@OFFSET`.
pub(crate) fn offset_text(
    alloc: Global,
    names: &[String],
    file: u32,
    offset: u32,
) -> Result<Row<u8>, Memory>
    ensures { IfOk result (λ text. text ≡ offset_text_of (map string_bytes names.now) file offset) }
{
    let number = number_text(alloc, u64::from(offset))?;
    join_words(alloc, &[file_name(names, file), b"@", number.as_slice()])
}

/// A goal: a place or a word.
pub(crate) fn goal_text(alloc: Global, names: &[String], goal: Goal) -> Result<Row<u8>, Memory>
    ensures { IfOk result (λ text. text ≡ goal_text_of (map string_bytes names.now) goal) }
{
    match goal {
        Goal::Decl(place) => place_text(alloc, names, place),
        Goal::Outside => join_words(alloc, &[b"outside"]),
        Goal::Missing => join_words(alloc, &[b"missing"]),
        Goal::Hidden => join_words(alloc, &[b"hidden"]),
        Goal::Blur { by, behind, .. } => {
            let by = place_text(alloc, names, by)?;
            let behind = behind_text(alloc, names, behind)?;
            join_words(alloc, &[b"blur:", by.as_slice(), b":", behind.as_slice()])
        }
    }
}

/// The declaration behind an outside module.
fn behind_text(alloc: Global, names: &[String], behind: Option<Place>) -> Result<Row<u8>, Memory>
    ensures { IfOk result (λ text. text ≡ behind_text_of (map string_bytes names.now) behind) }
{
    match behind {
        Some(place) => place_text(alloc, names, place),
        None => join_words(alloc, &[b"outside"]),
    }
}

/// The kind of a form that is refused.
pub(crate) fn kind_text(kind: FormKind) -> &'static str
    ensures { result.now ≡ kind_text_of kind }
{
    match kind {
        FormKind::Object => "object",
        FormKind::Package => "package",
        FormKind::RecModule => "recmodule",
        FormKind::AbsModType => "absmodtype",
        FormKind::WithModule => "withmodule",
        FormKind::LocalModule => "localmodule",
        FormKind::OpenStruct => "openstruct",
        FormKind::Extension => "extension",
        FormKind::BindOp => "bindop",
        FormKind::Hash => "hash",
        FormKind::AmpOr => "ampor",
    }
}
