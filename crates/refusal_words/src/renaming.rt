//! The sentences of renamings that are refused.
ghost use Rattle.std.specs.Prelude.{◌≡◌, IfOk, map};
ghost use Rattle.std.specs.List.{list_any};
ghost use Rattle.std.specs.Str.{bytes_eq};
ghost use Rattle.refusal_words.specs.Cut.{view_cut};
ghost use Rattle.refusal_words.specs.Renaming.{blurred_link as blurred_link_of, blurred_use as blurred_use_of, clash as clash_of, face_alone as face_alone_of, grown as grown_of, is_face_alone as is_face_alone_of, matched_outside as matched_outside_of, outside as outside_of, source_name as source_name_of};

use crate::cut::CutSource;
use crate::parts::{help, make_error, make_error_at, one_note, wrap_word};
use crate::stretches::{place_spot, word_at};
use messages::{Kind, Message, join_words, spot_text};
use rotor_base::{Memory, Place, Row, is_face};
use std::alloc::Global;

/// The name of a source by its number; of no source, the empty name. It takes no memory.
pub fn source_name<'a>(cuts: &[CutSource<'a>], file: u32) -> &'a [u8]
    ensures { result.now ≡ source_name_of (map view_cut cuts.now) file }
{
    match cuts.get(file as usize) {
        Some(cut) => cut.name,
        None => b"",
    }
}

/// The message of a declaration that is fixed from outside. The one error is want of memory.
pub fn explain_outside(alloc: Global, cuts: &[CutSource<'_>], at: Place) -> Result<Message, Memory>
    ensures { IfOk result (λ message. message ≡ outside_of (map view_cut cuts.now) at) }
{
    if is_face_alone(cuts, source_name(cuts, at.file)) {
        face_alone(alloc, cuts, at)
    } else {
        matched_outside(alloc, cuts, at)
    }
}

/// Whether a name is that of an interface whose body is no source here.
#[tactic(auto, using(crate::proofs::Cuts::any_view))]
fn is_face_alone(cuts: &[CutSource<'_>], name: &[u8]) -> bool
    ensures { result ≡ is_face_alone_of (map view_cut cuts.now) name.now }
{
    is_face(name) && !is_source_here(cuts, &name[..name.len().saturating_sub(1)])
}

/// Whether a source has this name.
fn is_source_here(cuts: &[CutSource<'_>], name: &[u8]) -> bool
    ensures { result ≡ list_any (λ cut. bytes_eq cut.name.now name.now) cuts.now }
{
    cuts.iter().any(|cut| cut.name == name)
}

/// The message of a value that an interface alone declares.
fn face_alone(alloc: Global, cuts: &[CutSource<'_>], at: Place) -> Result<Message, Memory>
    ensures { IfOk result (λ message. message ≡ face_alone_of (map view_cut cuts.now) at) }
{
    let file = source_name(cuts, at.file);
    let text = join_words(
        alloc,
        &[
            b"`",
            word_at(cuts, at),
            b"` is declared by ",
            file,
            b" alone; its body is outside the folder, so its name stays",
        ],
    )?;
    let spot = place_spot(alloc, cuts, at)?;
    let body = &file[..file.len().saturating_sub(1)];
    let help = wrap_word(alloc, "add ", body, " to the folder, or keep the name")?;
    Ok(make_error_at(Kind::Outside, text, spot, Row::new(alloc), Some(help)))
}

/// The message of a value that is matched with a module outside the folder.
fn matched_outside(alloc: Global, cuts: &[CutSource<'_>], at: Place) -> Result<Message, Memory>
    ensures { IfOk result (λ message. message ≡ matched_outside_of (map view_cut cuts.now) at) }
{
    let word = word_at(cuts, at);
    let end = "` is matched with a module or functor outside the folder, so its name stays";
    let text = wrap_word(alloc, "`", word, end)?;
    let spot = place_spot(alloc, cuts, at)?;
    let begin = "keep the name, or give what is outside a module of its own: `struct let ";
    let help = wrap_word(alloc, begin, word, " = new_name end`")?;
    Ok(make_error_at(Kind::Outside, text, spot, Row::new(alloc), Some(help)))
}

/// The message of a use that a module opened from outside may mean too. The one error is want of memory.
pub fn blurred_use(
    alloc: Global,
    cuts: &[CutSource<'_>],
    at: Place,
    opened: Place,
) -> Result<Message, Memory>
    ensures { IfOk result (λ message. message ≡ blurred_use_of (map view_cut cuts.now) at opened) }
{
    let by = place_spot(alloc, cuts, opened)?;
    let place = spot_text(alloc, &by)?;
    let text = join_words(
        alloc,
        &[
            b"this `",
            word_at(cuts, at),
            b"` is the folder's, or one of the module opened at ",
            place.as_slice(),
            b", which is outside the folder",
        ],
    )?;
    let spot = place_spot(alloc, cuts, at)?;
    let notes = one_note(alloc, cuts, opened, "opened here")?;
    let help = help(
        alloc,
        "write the path of the module that is meant, or leave the opening out",
    )?;
    Ok(make_error_at(Kind::Blurred, text, spot, notes, help))
}

/// The message of a match that a module from outside may supply too. The one error is want of memory.
pub fn blurred_link(
    alloc: Global,
    cuts: &[CutSource<'_>],
    at: Place,
    opened: Place,
) -> Result<Message, Memory>
    ensures { IfOk result (λ message. message ≡ blurred_link_of (map view_cut cuts.now) at opened) }
{
    let by = place_spot(alloc, cuts, opened)?;
    let place = spot_text(alloc, &by)?;
    let text = join_words(
        alloc,
        &[
            b"`",
            word_at(cuts, at),
            b"` may be supplied by the module included or opened at ",
            place.as_slice(),
            b", which is outside the folder",
        ],
    )?;
    let spot = place_spot(alloc, cuts, at)?;
    let notes = one_note(alloc, cuts, opened, "included or opened here")?;
    Ok(make_error_at(Kind::Blurred, text, spot, notes, None))
}

/// The message of sources that would have too many bytes. The one error is want of memory.
pub fn explain_grown(alloc: Global, cuts: &[CutSource<'_>], file: u32) -> Result<Message, Memory>
    ensures { IfOk result (λ message. message ≡ grown_of (map view_cut cuts.now) file) }
{
    let end = ", or all sources up to it, would have more bytes than rotor reads";
    let text = wrap_word(alloc, "with the new name ", source_name(cuts, file), end)?;
    Ok(make_error(alloc, Kind::Grown, text, None))
}

/// The message of a name that would be bound twice. The one error is want of memory.
pub fn clash(
    alloc: Global,
    cuts: &[CutSource<'_>],
    first: Place,
    again: Place,
    name: &[u8],
) -> Result<Message, Memory>
    ensures { IfOk result (λ message. message ≡ clash_of (map view_cut cuts.now) first again name.now) }
{
    let end = "` would be bound twice in one pattern or `let`";
    let text = wrap_word(alloc, "`", name, end)?;
    let spot = place_spot(alloc, cuts, again)?;
    let notes = one_note(alloc, cuts, first, "bound here too")?;
    let help = help(alloc, "choose another name")?;
    Ok(make_error_at(Kind::Clash, text, spot, notes, help))
}
