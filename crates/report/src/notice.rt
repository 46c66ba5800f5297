//! What the line of a refusal holds.
ghost use Rattle.std.specs.Prelude.{◌≡◌, [], ◌∷◌, IfOk, Some, codes, map, string_bytes};
ghost use Rattle.std.specs.Fmt.{decimal};
ghost use Rattle.report.specs.Pieces.{file_of, goal_text as goal_text_of, kind_text as kind_text_of, offset_text as offset_text_of};
ghost use Rattle.report.specs.Notice.{change_parts, load_notice as load_notice_of, notice_at, place_part as place_part_of, project, refusal_notice as refusal_notice_of, refused};

use crate::pieces::{
    file_name, goal_text, join_words, kind_text, number_text, offset_text, place_text,
};
use rotor_base::{FormKind, Goal, LoadError, Memory, Name, Place, Refusal, Row};
use std::alloc::Global;

/// What is refused: the project, or the renaming of it.
#[derive(Clone, Copy, Debug)]
pub(crate) enum Subject {
    Project,
    Renaming,
}

/// A value of the line. What was and what would be have that word before them.
#[derive(Debug, Drop)]
pub(crate) enum Part {
    Plain(Row<u8>),
    Was(Row<u8>),
    Would(Row<u8>),
}

/// The line of a refusal: what is refused, and the kind with the values behind it.
#[derive(Debug, Drop)]
pub(crate) struct Notice {
    pub subject: Subject,
    pub parts: Row<Part>,
}

/// The notice of a refusal of loading; want of memory and a failed read have none.
pub(crate) fn load_notice(alloc: Global, error: &LoadError) -> Result<Option<Notice>, Memory>
    ensures { IfOk result (λ notice. notice ≡ load_notice_of error.now) }
{
    match error {
        LoadError::TooMany { count } => make_numbered(alloc, "toomany", *count),
        LoadError::TooLarge { file } => make_named(alloc, "toolarge", file),
        LoadError::DoubleUnit { unit } => make_named(alloc, "doubleunit", unit),
        LoadError::BadManifest { line } => make_numbered(alloc, "badmanifest", u64::from(*line)),
        LoadError::Read | LoadError::Memory => Ok(None),
    }
}

/// The notice of a refusal; want of memory has none.
pub(crate) fn refusal_notice(
    alloc: Global,
    names: &[String],
    refusal: &Refusal,
) -> Result<Option<Notice>, Memory>
    ensures { IfOk result (λ notice. notice ≡ refusal_notice_of (map string_bytes names.now) refusal.now) }
{
    match refusal {
        Refusal::Lex { file, offset } => byte(alloc, names, "lex", *file, *offset),
        Refusal::LongName { file, offset } => byte(alloc, names, "longname", *file, *offset),
        Refusal::Form { at, kind } => form(alloc, names, *at, *kind),
        Refusal::Deep { at } => place(alloc, names, Subject::Project, "deep", *at),
        Refusal::Syntax { file } => source(alloc, names, Subject::Project, "syntax", *file),
        Refusal::Cycle { unit } => make_named(alloc, "cycle", unit),
        Refusal::Duplicate { first, again } => {
            places(alloc, names, Subject::Project, "duplicate", *first, *again)
        }
        Refusal::Heavy { at } => place(alloc, names, Subject::Project, "heavy", *at),
        Refusal::Unmatched { item } => place(alloc, names, Subject::Project, "unmatched", *item),
        Refusal::NoTarget => make_bare_notice(alloc, "notarget"),
        Refusal::Operator => make_bare_notice(alloc, "operator"),
        Refusal::BadName => make_bare_notice(alloc, "badname"),
        Refusal::SameName => make_bare_notice(alloc, "samename"),
        Refusal::Outside { at } => place(alloc, names, Subject::Renaming, "outside", *at),
        Refusal::Pun { at } => place(alloc, names, Subject::Renaming, "pun", *at),
        Refusal::Blurred { at } => place(alloc, names, Subject::Renaming, "blurred", *at),
        Refusal::Grown { file } => source(alloc, names, Subject::Renaming, "grown", *file),
        Refusal::Clash { first, again } => {
            places(alloc, names, Subject::Renaming, "clash", *first, *again)
        }
        Refusal::Capture { at, was, would } => {
            change(alloc, names, "capture", Goal::Decl(*at), *was, *would)
        }
        Refusal::Mislink { item, was, would } => {
            change(alloc, names, "mislink", *item, *was, *would)
        }
        Refusal::Memory => Ok(None),
    }
}

/// A notice with the kind alone.
fn make_bare_notice(alloc: Global, kind: &str) -> Result<Option<Notice>, Memory>
    ensures { IfOk result (λ notice. notice ≡ refused kind.now []) }
{
    make_notice(alloc, Subject::Renaming, kind, Vec::new(alloc))
}

/// A notice with a number.
pub(crate) fn make_numbered(
    alloc: Global,
    kind: &str,
    number: u64,
) -> Result<Option<Notice>, Memory>
    ensures { IfOk result (λ notice. notice ≡ project kind.now (Part.Plain (decimal number) ∷ [])) }
{
    let number = Part::Plain(number_text(alloc, number)?);
    make_notice(alloc, Subject::Project, kind, vec![in alloc; number]?)
}

/// A notice with a name.
fn make_named(alloc: Global, kind: &str, name: &Name) -> Result<Option<Notice>, Memory>
    ensures { IfOk result (λ notice. notice ≡ project kind.now (Part.Plain name.now ∷ [])) }
{
    let name = Part::Plain(join_words(alloc, &[name.as_bytes()])?);
    make_notice(alloc, Subject::Project, kind, vec![in alloc; name]?)
}

/// A notice with a byte of a source.
fn byte(
    alloc: Global,
    names: &[String],
    kind: &str,
    file: u32,
    offset: u32,
) -> Result<Option<Notice>, Memory>
    ensures { IfOk result (λ notice. notice ≡ project kind.now (Part.Plain (offset_text_of (map string_bytes names.now) file offset) ∷ [])) }
{
    let at = Part::Plain(offset_text(alloc, names, file, offset)?);
    make_notice(alloc, Subject::Project, kind, vec![in alloc; at]?)
}

/// A notice with a source.
fn source(
    alloc: Global,
    names: &[String],
    subject: Subject,
    kind: &str,
    file: u32,
) -> Result<Option<Notice>, Memory>
    ensures { IfOk result (λ notice. notice ≡ Some (notice_at subject kind.now (Part.Plain (file_of (map string_bytes names.now) file) ∷ []))) }
{
    let file = Part::Plain(join_words(alloc, &[file_name(names, file)])?);
    make_notice(alloc, subject, kind, vec![in alloc; file]?)
}

/// The notice of a form that is refused.
fn form(
    alloc: Global,
    names: &[String],
    at: Place,
    kind: FormKind,
) -> Result<Option<Notice>, Memory>
    ensures { IfOk result (λ notice. notice ≡ project (codes "form") (place_part_of (map string_bytes names.now) at ∷ Part.Plain (kind_text_of kind) ∷ [])) }
{
    let at = place_part(alloc, names, at)?;
    let kind = Part::Plain(join_words(alloc, &[kind_text(kind).as_bytes()])?);
    make_notice(alloc, Subject::Project, "form", vec![in alloc; at, kind]?)
}

/// A notice with a place.
pub(crate) fn place(
    alloc: Global,
    names: &[String],
    subject: Subject,
    kind: &str,
    at: Place,
) -> Result<Option<Notice>, Memory>
    ensures { IfOk result (λ notice. notice ≡ Some (notice_at subject kind.now (place_part_of (map string_bytes names.now) at ∷ []))) }
{
    let at = place_part(alloc, names, at)?;
    make_notice(alloc, subject, kind, vec![in alloc; at]?)
}

/// A notice with two places.
fn places(
    alloc: Global,
    names: &[String],
    subject: Subject,
    kind: &str,
    first: Place,
    again: Place,
) -> Result<Option<Notice>, Memory>
    ensures { IfOk result (λ notice. notice ≡ Some (notice_at subject kind.now (place_part_of (map string_bytes names.now) first ∷ place_part_of (map string_bytes names.now) again ∷ []))) }
{
    let first = place_part(alloc, names, first)?;
    let again = place_part(alloc, names, again)?;
    make_notice(alloc, subject, kind, vec![in alloc; first, again]?)
}

/// A notice with what would change, and the goals that it had and would have.
fn change(
    alloc: Global,
    names: &[String],
    kind: &str,
    item: Goal,
    was: Goal,
    would: Goal,
) -> Result<Option<Notice>, Memory>
    ensures { IfOk result (λ notice. notice ≡ refused kind.now (Part.Plain (goal_text_of (map string_bytes names.now) item) ∷ change_parts (map string_bytes names.now) was would)) }
{
    let item = Part::Plain(goal_text(alloc, names, item)?);
    let was = Part::Was(goal_text(alloc, names, was)?);
    let would = Part::Would(goal_text(alloc, names, would)?);
    make_notice(
        alloc,
        Subject::Renaming,
        kind,
        vec![in alloc; item, was, would]?,
    )
}

/// A place as a value.
fn place_part(alloc: Global, names: &[String], at: Place) -> Result<Part, Memory>
    ensures { IfOk result (λ part. part ≡ place_part_of (map string_bytes names.now) at) }
{
    Ok(Part::Plain(place_text(alloc, names, at)?))
}

/// The notice of a kind with these values.
pub(crate) fn make_notice(
    alloc: Global,
    subject: Subject,
    kind: &str,
    values: Vec<Part>,
) -> Result<Option<Notice>, Memory>
    ensures { IfOk result (λ notice. notice ≡ Some (notice_at subject kind.now values.items)) }
{
    let mut parts = values;
    parts.insert(0, Part::Plain(join_words(alloc, &[kind.as_bytes()])?))?;
    let parts = Row::from_vec(parts);
    Ok(Some(Notice { subject, parts }))
}

impl Notice {
    ghost use Rattle.std.specs.Prelude.{◌≡◌, IfOk};
    ghost use Rattle.report.specs.Notice.{notice_line, subject_text};

    /// The line.
    pub(crate) fn line(&self, alloc: Global) -> Result<Row<u8>, Memory>
        ensures { IfOk result (λ line. line ≡ notice_line self.now) }
    {
        let front = join_words(alloc, &[self.subject().as_bytes(), b":"])?;
        let mut line = front.into_vec();
        let parts = self.parts.as_slice();
        for part in parts {
            line.extend_from_slice(part.mark())?;
            line.extend_from_slice(part.value())?;
        }
        Ok(Row::from_vec(line))
    }

    /// The word before the colon, which is the key in JSON.
    pub(crate) fn subject(&self) -> &'static str
        ensures { result.now ≡ subject_text self.now.subject }
    {
        match self.subject {
            Subject::Project => "project",
            Subject::Renaming => "refused",
        }
    }
}

impl Part {
    ghost use Rattle.std.specs.Prelude.{◌≡◌};
    ghost use Rattle.report.specs.Notice.{mark_of, value_of};

    /// The text before the value in the line.
    fn mark(&self) -> &'static [u8]
        ensures { result.now ≡ mark_of self.now }
    {
        match self {
            Part::Plain(_) => b" ",
            Part::Was(_) => b" was ",
            Part::Would(_) => b" would ",
        }
    }

    /// The value.
    pub(crate) fn value(&self) -> &[u8]
        ensures { result.now ≡ value_of self.now }
    {
        match self {
            Part::Plain(value) | Part::Was(value) | Part::Would(value) => value.as_slice(),
        }
    }
}
