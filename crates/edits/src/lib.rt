//! Replacing spans of a source: the new bytes, their number, and what stays.
#![tactic(auto)]

ghost use Rattle.std.specs.Prelude.{◌≡◌, ℕ, ◌*◌, ◌≤◌, List, All, IfOk, length};
ghost use Rattle.rotor_base.specs.Limits.{max_file_bytes};
ghost use Rattle.edits.specs.Lexemes.{ReplacedIsRespelled};
ghost use Rattle.edits.specs.Undo.{GivesBack, CanGoBack};
ghost use Rattle.edits.specs.Replaced.{AreInOrder, HasShortText, replaced, KeepsTheRest};

use rotor_base::{Memory, Name};
use std::alloc::Global;

/// A span of a source, from the byte `start` up to the byte `end`, both from 0, and the text that takes its place.
#[derive(Debug, Drop)]
pub struct Edit {
    pub start: u32,
    pub end: u32,
    pub text: Name,
}

/// The source with each span replaced by its text. The spans are in order, disjoint, not empty and within the
/// source, which has at most 1,048,576 bytes; spans that touch are allowed. `Memory` is the only error.
pub fn apply(alloc: Global, src: &[u8], list: &[Edit]) -> Result<Vec<u8>, Memory>
    requires spans { AreInOrder 0 (length src.now) list.now }
    requires texts { All HasShortText list.now }
    requires source { length src.now ≤ max_file_bytes }
    ensures replaced { IfOk result (λ bytes. bytes.items ≡ replaced src.now list.now) }
{
    let mut bytes = Vec::new(alloc);
    let mut from: usize = 0;
    for edit in list {
        bytes.extend_from_slice(&src[from..edit.start as usize])?;
        bytes.extend_from_slice(edit.text.as_bytes())?;
        from = edit.end as usize;
    }
    bytes.extend_from_slice(&src[from..])?;
    Ok(bytes)
}

/// The number of bytes that [`apply`] gives for a source of `src_len` bytes. It takes no memory.
pub fn new_len(src_len: u32, list: &[Edit]) -> u64
    requires spans { AreInOrder 0 src_len list.now }
    requires texts { All HasShortText list.now }
    requires source { src_len ≤ max_file_bytes }
    ensures len { (src : List ℕ) → length src ≡ src_len → result ≡ length (replaced src list.now) }
    ensures bounded { result ≤ 256 * src_len }
{
    let mut len: u64 = 0;
    let mut from: u32 = 0;
    for edit in list {
        len += u64::from(edit.start - from) + edit.text.as_bytes().len() as u64;
        from = edit.end;
    }
    len + u64::from(src_len - from)
}

/// Law: the new source is the kept pieces of the old one and the texts, one after the other, in order.
pub fn replacing_keeps_the_rest()
    ensures kept { KeepsTheRest }
{}

/// Law: the inverse edits put the source's own bytes back in place of the texts, and so give the source back. If no
/// text is empty and no span is longer than 255 bytes, [`apply`] accepts them on the new source.
pub fn replacing_is_undone()
    ensures back { GivesBack }
    ensures fits { CanGoBack }
{}

/// Law: edits that replace the spans of lexemes by new words are in order, and make the source with its lexemes
/// respelled.
#[tactic(auto, using(crate::proofs::Lexemes::replaced_is_respelled))]
pub fn replaced_is_respelled()
    ensures { ReplacedIsRespelled }
{}
