//! The sentences of plans, lists and batches that are refused.
ghost use Rattle.std.specs.Prelude.{◌≡◌, ◌+◌, ◌<◌, ◌^◌, IfOk, length, map};
ghost use Rattle.refusal_words.specs.Cut.{view_cut};
ghost use Rattle.refusal_words.specs.Commands.{bad_batch as bad_batch_of, bad_plan as bad_plan_of, batch_line as batch_line_of, fixed as fixed_of, list_line as list_line_of, long_batch as long_batch_of, no_batch as no_batch_of, no_list as no_list_of, other_bytes as other_bytes_of, other_sources as other_sources_of};

use crate::cut::CutSource;
use crate::parts::{help, make_error, make_error_at, text, wrap_word};
use crate::stretches::{byte_spot, place_spot, word_at};
use messages::{Kind, Message, shown_word, spot_in};
use rotor_base::{Memory, Place, Row};
use std::alloc::Global;

/// The message of an open gate without a plan. The one error is want of memory.
pub fn bad_plan(alloc: Global) -> Result<Message, Memory>
    ensures { IfOk result (λ message. message ≡ bad_plan_of) }
{
    let text = text(
        alloc,
        "rotor.gate is open, and rotor.plan is missing or holds no plan; nothing can be finished from it",
    )?;
    let help = help(
        alloc,
        "put the sources right by hand, then empty rotor.gate",
    )?;
    Ok(make_error(alloc, Kind::BadPlan, text, help))
}

/// The message of a list that the folder lacks. The one error is want of memory.
pub fn no_list(alloc: Global, list: &[u8]) -> Result<Message, Memory>
    ensures { IfOk result (λ message. message ≡ no_list_of list.now) }
{
    let list = shown_word(alloc, list)?;
    let text = wrap_word(alloc, "the folder has no list ", list.as_slice(), "")?;
    Ok(make_error(alloc, Kind::BadList, text, None))
}

/// The message of a line of a list, from one offset up to another, that is bad. The one error is want of memory.
pub fn list_line(
    alloc: Global,
    list: &[u8],
    bytes: &[u8],
    start: u32,
    end: u32,
) -> Result<Message, Memory>
    requires { length bytes.now + 1 < 2 ^ 32 }
    ensures { IfOk result (λ message. message ≡ list_line_of list.now bytes.now start end) }
{
    let text = text(
        alloc,
        "this line is not `SOURCE FILE` with one space, names a source twice, or a file that is not in the folder",
    )?;
    let at = spot_in(alloc, list, bytes, start, end)?;
    Ok(make_error_at(Kind::BadList, text, at, Row::new(alloc), None))
}

/// The message of a file that the folder lacks, or that is no batch. The one error is want of memory.
pub fn no_batch(alloc: Global, file: &[u8]) -> Result<Message, Memory>
    ensures { IfOk result (λ message. message ≡ no_batch_of file.now) }
{
    let end = " is not in the folder, or is a source or rotor.units";
    bad_batch(alloc, file, end)
}

/// The message of a batch that has too many lines. The one error is want of memory.
pub fn long_batch(alloc: Global, file: &[u8]) -> Result<Message, Memory>
    ensures { IfOk result (λ message. message ≡ long_batch_of file.now) }
{
    bad_batch(alloc, file, " has more than 1,000 lines")
}

/// The message of a file that is no batch, whose name precedes the rest of the sentence.
fn bad_batch(alloc: Global, file: &[u8], rest: &str) -> Result<Message, Memory>
    ensures { IfOk result (λ message. message ≡ bad_batch_of file.now rest.now) }
{
    let file = shown_word(alloc, file)?;
    let text = wrap_word(alloc, "", file.as_slice(), rest)?;
    Ok(make_error(alloc, Kind::BadBatch, text, None))
}

/// The message of a line of a batch, from one offset up to another, that is bad. The one error is want of memory.
pub fn batch_line(
    alloc: Global,
    file: &[u8],
    bytes: &[u8],
    start: u32,
    end: u32,
) -> Result<Message, Memory>
    requires { length bytes.now + 1 < 2 ^ 32 }
    ensures { IfOk result (λ message. message ≡ batch_line_of file.now bytes.now start end) }
{
    let text = text(alloc, "this line is not `TARGET NAME` with one space")?;
    let at = spot_in(alloc, file, bytes, start, end)?;
    Ok(make_error_at(Kind::BadBatch, text, at, Row::new(alloc), None))
}

/// The message of two lists that have not the same sources, with the first name that one lacks. The one error is want
/// of memory.
pub fn other_sources(alloc: Global, name: &[u8]) -> Result<Message, Memory>
    ensures { IfOk result (λ message. message ≡ other_sources_of name.now) }
{
    let text = wrap_word(alloc, "the two lists differ at ", name, "")?;
    Ok(make_error(alloc, Kind::Sources, text, None))
}

/// The message of new bytes that are not the old ones with other names, from a byte of the new source on. The one error
/// is want of memory.
pub fn other_bytes(
    alloc: Global,
    cuts: &[CutSource<'_>],
    file: u32,
    offset: u32,
) -> Result<Message, Memory>
    ensures { IfOk result (λ message. message ≡ other_bytes_of (map view_cut cuts.now) file offset) }
{
    let text = text(
        alloc,
        "from here on the new bytes are not those of the old source with other names",
    )?;
    let at = byte_spot(alloc, cuts, file, offset)?;
    Ok(make_error_at(Kind::Bytes, text, at, Row::new(alloc), None))
}

/// The message of a declaration whose name may not change. The one error is want of memory.
pub fn explain_fixed(alloc: Global, cuts: &[CutSource<'_>], at: Place) -> Result<Message, Memory>
    ensures { IfOk result (λ message. message ≡ fixed_of (map view_cut cuts.now) at) }
{
    let end = "` may not change: it is fixed from outside, a pun, or blurred";
    let text = wrap_word(alloc, "the name of this `", word_at(cuts, at), end)?;
    let spot = place_spot(alloc, cuts, at)?;
    Ok(make_error_at(Kind::Fixed, text, spot, Row::new(alloc), None))
}
