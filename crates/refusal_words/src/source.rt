//! The sentences of sources that are outside the language, and of folders that have no meaning.
ghost use Rattle.std.specs.Prelude.{◌≡◌, IfOk, map};
ghost use Rattle.report.specs.Pieces.{kind_text};
ghost use Rattle.refusal_words.specs.Cut.{view_cut};
ghost use Rattle.refusal_words.specs.Source.{begins_item as begins_item_of, duplicate as duplicate_of, form_refused as form_refused_of, heavy as heavy_of, is_cut_item as is_cut_item_of, is_signature_item as is_signature_item_of, lex_fault as lex_fault_of, lex_refused as lex_refused_of, lex_text as lex_text_of, long_name as long_name_of, on_cycle as on_cycle_of, subject_of, too_deep as too_deep_of, unmatched as unmatched_of, unmatched_item as unmatched_item_of, unmatched_side as unmatched_side_of, unread as unread_of};

use crate::cut::CutSource;
use crate::faults::{LexFault, rest_fault};
use crate::parts::{
    explain_place, explain_with_help, help, make_error, make_error_at, one_note, text, wrap_word,
};
use crate::stretches::{byte_spot, place_spot, rest, word_at, word_before};
use messages::{Kind, Message, join_words};
use rotor_base::{FormKind, Memory, Place, Row};
use std::alloc::Global;

/// The message of a byte at which the lexer stops. The one error is want of memory.
pub fn lex_refused(
    alloc: Global,
    cuts: &[CutSource<'_>],
    file: u32,
    offset: u32,
) -> Result<Message, Memory>
    ensures { IfOk result (λ message. message ≡ lex_refused_of (map view_cut cuts.now) file offset) }
{
    let text = text(alloc, lex_text(lex_fault(cuts, file, offset)))?;
    let at = byte_spot(alloc, cuts, file, offset)?;
    Ok(make_error_at(Kind::Lex, text, at, Row::new(alloc), None))
}

/// What begins at a byte at which the lexer stops.
fn lex_fault(cuts: &[CutSource<'_>], file: u32, offset: u32) -> LexFault
    ensures { result ≡ lex_fault_of (map view_cut cuts.now) file offset }
{
    match cuts.get(file as usize) {
        Some(cut) => rest_fault(offset, rest(cut.bytes, offset as usize)),
        None => LexFault::Other,
    }
}

/// What is said of a byte at which the lexer stops.
fn lex_text(fault: LexFault) -> &'static str
    ensures { result.now ≡ lex_text_of fault }
{
    match fault {
        LexFault::Comment => "this comment does not end",
        LexFault::Attribute => "this attribute does not end",
        LexFault::String => "this string does not end",
        LexFault::QuotedString => "this quoted string does not end",
        LexFault::ByteOrderMark => "a byte order mark stands here; save the file without it",
        LexFault::OutsideAscii => {
            "a character outside ASCII stands here; names are written in ASCII"
        }
        LexFault::Number => "a letter, digit or quote follows this number directly",
        LexFault::Label => "this label's name is a keyword or `_`",
        LexFault::Quote => "this quote begins neither a character nor a type variable",
        LexFault::Other => "no token begins here",
    }
}

/// The message of a name at a byte that has too many bytes. The one error is want of memory.
pub fn long_name(
    alloc: Global,
    cuts: &[CutSource<'_>],
    file: u32,
    offset: u32,
) -> Result<Message, Memory>
    ensures { IfOk result (λ message. message ≡ long_name_of (map view_cut cuts.now) file offset) }
{
    let text = text(alloc, "this name has more than 255 bytes")?;
    let at = byte_spot(alloc, cuts, file, offset)?;
    Ok(make_error_at(Kind::LongName, text, at, Row::new(alloc), None))
}

/// The message of a form that is refused. The one error is want of memory.
pub fn form_refused(
    alloc: Global,
    cuts: &[CutSource<'_>],
    at: Place,
    form: FormKind,
) -> Result<Message, Memory>
    ensures { IfOk result (λ message. message ≡ form_refused_of (map view_cut cuts.now) at form) }
{
    let text = join_words(
        alloc,
        &[
            subject_of(form).as_bytes(),
            b" outside the language that rotor reads (",
            kind_of(form).as_bytes(),
            b")",
        ],
    )?;
    explain_with_help(
        alloc,
        cuts,
        Kind::Form,
        text,
        at,
        "write it otherwise; in a folder without this file a renaming would miss the uses in it",
    )
}

/// A form, as the subject of its sentence, with the verb.
fn subject_of(form: FormKind) -> &'static str
    ensures { result.now ≡ subject_of form }
{
    match form {
        FormKind::Object => "classes and objects are",
        FormKind::Package => "first-class modules are",
        FormKind::RecModule => "recursive modules are",
        FormKind::AbsModType => "a module type without a definition is",
        FormKind::WithModule => "`with module` is",
        FormKind::LocalModule => {
            "`let module` with anything but a module path or an application is"
        }
        FormKind::OpenStruct => "`open struct` is",
        FormKind::Extension => "extension nodes are",
        FormKind::BindOp => "binding operators are",
        FormKind::Hash => "operators that begin with # are",
        FormKind::AmpOr => "the operators `&` and `or` are",
    }
}

/// The kind of a form.
fn kind_of(form: FormKind) -> &'static str
    ensures { result.now ≡ kind_text form }
{
    match form {
        FormKind::Object => "object",
        FormKind::Package => "package",
        FormKind::RecModule => "recmodule",
        FormKind::AbsModType => "absmodtype",
        FormKind::WithModule => "withmodule",
        FormKind::LocalModule => "localmodule",
        FormKind::OpenStruct => "openstruct",
        FormKind::Extension => "extension",
        FormKind::BindOp => "bindop",
        FormKind::Hash => "hash",
        FormKind::AmpOr => "ampor",
    }
}

/// The message of a token after which the nesting is too deep. The one error is want of memory.
pub fn too_deep(alloc: Global, cuts: &[CutSource<'_>], at: Place) -> Result<Message, Memory>
    ensures { IfOk result (λ message. message ≡ too_deep_of (map view_cut cuts.now) at) }
{
    explain_place(
        alloc,
        cuts,
        Kind::Deep,
        "here the nesting is more than 256",
        at,
    )
}

/// The message of a source that no reading covers, at its first byte. The one error is want of memory.
pub fn explain_unread(alloc: Global, cuts: &[CutSource<'_>], file: u32) -> Result<Message, Memory>
    ensures { IfOk result (λ message. message ≡ unread_of (map view_cut cuts.now) file) }
{
    let text = text(
        alloc,
        "this file is no OCaml, or OCaml that rotor does not read",
    )?;
    let at = byte_spot(alloc, cuts, file, 0)?;
    let help = help(
        alloc,
        "if OCaml accepts this file, it uses a form that rotor does not read (USING, `syntax`)",
    )?;
    Ok(make_error_at(Kind::Syntax, text, at, Row::new(alloc), help))
}

/// The message of a unit that needs itself through others. The one error is want of memory.
pub fn on_cycle(alloc: Global, unit: &[u8]) -> Result<Message, Memory>
    ensures { IfOk result (λ message. message ≡ on_cycle_of unit.now) }
{
    let end = "` needs itself through other units";
    let text = wrap_word(alloc, "the unit `", unit, end)?;
    let help = help(
        alloc,
        "write the link order into rotor.units, one unit a line",
    )?;
    Ok(make_error(alloc, Kind::Cycle, text, help))
}

/// The message of a name that is bound twice. The one error is want of memory.
pub fn duplicate(
    alloc: Global,
    cuts: &[CutSource<'_>],
    first: Place,
    again: Place,
) -> Result<Message, Memory>
    ensures { IfOk result (λ message. message ≡ duplicate_of (map view_cut cuts.now) first again) }
{
    let end = "` is bound twice in one pattern or `let`";
    let text = wrap_word(alloc, "`", word_at(cuts, again), end)?;
    let at = place_spot(alloc, cuts, again)?;
    let notes = one_note(alloc, cuts, first, "bound here already")?;
    Ok(make_error_at(Kind::Duplicate, text, at, notes, None))
}

/// The message of modules that are too large. The one error is want of memory.
pub fn explain_heavy(alloc: Global, cuts: &[CutSource<'_>], at: Place) -> Result<Message, Memory>
    ensures { IfOk result (λ message. message ≡ heavy_of (map view_cut cuts.now) at) }
{
    let text = text(
        alloc,
        "the modules up to here have more parts than rotor resolves",
    )?;
    explain_with_help(
        alloc,
        cuts,
        Kind::Heavy,
        text,
        at,
        "split the folder, or the module that is copied most",
    )
}

/// The message of an item without a source: a signature asks for it, or one side of an or-pattern lacks it. The one
/// error is want of memory.
pub fn explain_unmatched(
    alloc: Global,
    cuts: &[CutSource<'_>],
    item: Place,
) -> Result<Message, Memory>
    ensures { IfOk result (λ message. message ≡ unmatched_of (map view_cut cuts.now) item) }
{
    if is_signature_item(cuts, item) {
        unmatched_item(alloc, cuts, item)
    } else {
        unmatched_side(alloc, cuts, item)
    }
}

/// The message of an item of a signature that the matched module lacks.
fn unmatched_item(alloc: Global, cuts: &[CutSource<'_>], item: Place) -> Result<Message, Memory>
    ensures { IfOk result (λ message. message ≡ unmatched_item_of (map view_cut cuts.now) item) }
{
    let end =
        "` is asked for here, and the module that is matched with this signature has no such value";
    let text = wrap_word(alloc, "`", word_at(cuts, item), end)?;
    explain_with_help(
        alloc,
        cuts,
        Kind::Unmatched,
        text,
        item,
        "OCaml refuses this too; make the folder compile first",
    )
}

/// The message of a name that one side of an or-pattern lacks.
fn unmatched_side(alloc: Global, cuts: &[CutSource<'_>], item: Place) -> Result<Message, Memory>
    ensures { IfOk result (λ message. message ≡ unmatched_side_of (map view_cut cuts.now) item) }
{
    let end = "` is not bound on each side of this or-pattern";
    let text = wrap_word(alloc, "`", word_at(cuts, item), end)?;
    let at = place_spot(alloc, cuts, item)?;
    Ok(make_error_at(Kind::Unmatched, text, at, Row::new(alloc), None))
}

/// Whether the token at a place is the name of an item of a signature.
fn is_signature_item(cuts: &[CutSource<'_>], item: Place) -> bool
    ensures { result ≡ is_signature_item_of (map view_cut cuts.now) item }
{
    match cuts.get(item.file as usize) {
        Some(cut) => is_cut_item(cut, item.token),
        None => false,
    }
}

/// Whether `val` or `external` precedes a token, or precedes the parenthesis before it.
fn is_cut_item(cut: &CutSource<'_>, number: u32) -> bool
    ensures { result ≡ is_cut_item_of (view_cut cut.now) number }
{
    let before = word_before(cut, number, 1);
    if before == b"(".as_slice() {
        begins_item(word_before(cut, number, 2))
    } else {
        begins_item(before)
    }
}

/// Whether a word begins an item of a signature that declares a value.
fn begins_item(word: &[u8]) -> bool
    ensures { result ≡ begins_item_of word.now }
{
    word == b"val".as_slice() || word == b"external".as_slice()
}
