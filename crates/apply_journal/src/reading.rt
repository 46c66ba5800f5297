//! Reading a plan.
ghost use Rattle.std.specs.Prelude.{◌≡◌, ◌↔◌, ◌==◌, ◌<◌, ◌≤◌, ◌++◌, ◌^◌, ℕ, List, None, IfOk, IfSome, IfNone, IsErrOf, IsTrue, All, length, sum_by};
ghost use Rattle.std.specs.Fmt.{decimal};
ghost use Rattle.std.specs.List.{position};
ghost use Rattle.std.specs.List.Sorted.{IsStrictlySortedBy};
ghost use Rattle.std.specs.Ordering.{nat_cmp, is_lt};
ghost use Rattle.std.specs.Cmp.Lexicographic.{slice_cmp};
ghost use Rattle.rotor_base.specs.Limits.{max_file_bytes, max_sources, max_total_bytes};
ghost use Rattle.rotor_base.specs.Files.{names_of};
ghost use Rattle.rotor_base.specs.declared.source.SourceFile.{SourceFile};
ghost use Rattle.apply_journal.specs.Plan.{IsPlan, line};
ghost use Rattle.apply_journal.specs.Reading.{begins_number, IsWithout, IsCut, IsNumber, IsHead, IsEntry, AreEntries};

use crate::PlanError;
use crate::plan::make_file;
use rotor_base::{
    MAX_FILE_BYTES, MAX_PLAN_BYTES, MAX_SOURCES, MAX_TOTAL_BYTES, SourceFile, is_source,
};
use std::alloc::Global;

/// The first line of a plan.
const TITLE: &[u8] = b"rotor-plan 1";
/// The word before the number of the files.
const COUNTED: &[u8] = b"files";
/// The last line of a plan.
const END: &[u8] = b"end\n";

/// The files of a plan.
///
/// # Errors
///
/// `Bad` if the bytes are no plan, and `Memory`.
pub fn read_plan(alloc: Global, bytes: &[u8]) -> Result<Vec<SourceFile>, PlanError>
    ensures plan { IfOk result (λ files. IsPlan bytes.now files.items) }
    ensures bad { IsErrOf result PlanError.Bad → (files : List SourceFile) → IsPlan bytes.now files → ⊥ }
{
    if bytes.len() > MAX_PLAN_BYTES as usize {
        return Err(PlanError::Bad);
    }
    let Some((count, rest)) = read_head(bytes) else {
        return Err(PlanError::Bad);
    };
    let (files, rest) = read_entries(alloc, count, rest)?;
    if rest != END {
        return Err(PlanError::Bad);
    }
    if !is_ordered(&files) {
        return Err(PlanError::Bad);
    }
    if !is_within(&files) {
        return Err(PlanError::Bad);
    }
    Ok(files)
}

/// The number of the files of a plan, and the rest behind it.
fn read_head(bytes: &[u8]) -> Option<(u32, &[u8])>
    ensures read { IfSome result (λ found. IsHead bytes.now found.0 found.1.now) }
    ensures none { IfNone result ((count : ℕ) → (rest : List ℕ) → IsHead bytes.now count rest → ⊥) }
{
    let (title, rest) = cut_line(bytes)?;
    if title != TITLE {
        return None;
    }
    let (word, rest) = cut_word(rest)?;
    if word != COUNTED {
        return None;
    }
    read_number(rest, MAX_SOURCES as u32)
}

/// So many files of a plan, and the rest behind them.
fn read_entries(
    alloc: Global,
    count: u32,
    bytes: &[u8],
) -> Result<(Vec<SourceFile>, &[u8]), PlanError>
    ensures count { IfOk result (λ found. length found.0.items ≡ count) }
    ensures read { IfOk result (λ found. AreEntries bytes.now found.0.items found.1.now) }
    ensures bad { IsErrOf result PlanError.Bad → (files : List SourceFile) → (rest : List ℕ) → length files ≡ count → AreEntries bytes.now files rest → ⊥ }
{
    let mut files = Vec::new(alloc);
    let mut rest = bytes;
    for _ in 0..count {
        let (file, behind) = read_entry(alloc, rest)?;
        files.push(file)?;
        rest = behind;
    }
    Ok((files, rest))
}

/// A file of a plan, and the rest behind it.
fn read_entry(alloc: Global, bytes: &[u8]) -> Result<(SourceFile, &[u8]), PlanError>
    ensures read { IfOk result (λ found. IsEntry bytes.now found.0 found.1.now) }
    ensures bad { IsErrOf result PlanError.Bad → (file : SourceFile) → (rest : List ℕ) → IsEntry bytes.now file rest → ⊥ }
{
    let Some((name, rest)) = cut_word(bytes) else {
        return Err(PlanError::Bad);
    };
    let Ok(name) = std::str::from_utf8(name) else {
        return Err(PlanError::Bad);
    };
    if !is_source(name.as_bytes()) {
        return Err(PlanError::Bad);
    }
    let Some((len, rest)) = read_number(rest, MAX_FILE_BYTES) else {
        return Err(PlanError::Bad);
    };
    let Some((content, rest)) = cut_behind(rest, len) else {
        return Err(PlanError::Bad);
    };
    Ok((make_file(alloc, name, content)?, rest))
}

/// A number of at most `limit` on a line of its own, and the rest behind the line.
fn read_number(bytes: &[u8], limit: u32) -> Option<(u32, &[u8])>
    ensures read { IfSome result (λ found. IsNumber limit bytes.now found.0 found.1.now) }
    ensures none { IfNone result ((number : ℕ) → (rest : List ℕ) → IsNumber limit bytes.now number rest → ⊥) }
{
    let (word, rest) = cut_line(bytes)?;
    let number = number_of(word)?;
    if number > limit {
        return None;
    }
    Some((number, rest))
}

/// The number of a word in decimal.
fn number_of(word: &[u8]) -> Option<u32>
    ensures read { IfSome result (λ number. word.now ≡ decimal number) }
    ensures small { IfSome result (λ number. number < 2 ^ 32) }
    ensures none { IfNone result ((number : ℕ) → number < 2 ^ 32 → word.now ≡ decimal number → ⊥) }
{
    // `parse` accepts a sign and leading zeros, which no number of a plan has.
    if !begins_number(word) {
        return None;
    }
    let Ok(text) = std::str::from_utf8(word) else {
        return None;
    };
    let Ok(number) = text.parse::<u32>() else {
        return None;
    };
    Some(number)
}

/// Whether a word is one digit, or begins with a digit other than 0.
fn begins_number(word: &[u8]) -> bool
    ensures { result ≡ begins_number word.now }
{
    matches!(word, [b'0'..=b'9'] | [b'1'..=b'9', ..])
}

/// The first line without its LF, and the rest behind it.
fn cut_line(bytes: &[u8]) -> Option<(&[u8], &[u8])>
    ensures found { IfSome result (λ found. IsCut 10 bytes.now found.0.now found.1.now) }
    ensures missing { IfNone result (IsWithout 10 bytes.now) }
{
    cut_at(bytes, b'\n')
}

/// The bytes before the first space, and the rest behind it.
fn cut_word(bytes: &[u8]) -> Option<(&[u8], &[u8])>
    ensures found { IfSome result (λ found. IsCut 32 bytes.now found.0.now found.1.now) }
    ensures missing { IfNone result (IsWithout 32 bytes.now) }
{
    cut_at(bytes, b' ')
}

/// The bytes before the first byte `end`, and the rest behind it.
fn cut_at(bytes: &[u8], end: u8) -> Option<(&[u8], &[u8])>
    ensures found { IfSome result (λ found. IsCut end bytes.now found.0.now found.1.now) }
    ensures missing { IfNone result (IsWithout end bytes.now) }
{
    let at = position_of(bytes, end)?;
    let (word, rest) = bytes.split_at(at);
    Some((word, &rest[1..]))
}

/// The position of the first of these bytes.
fn position_of(bytes: &[u8], wanted: u8) -> Option<usize>
    ensures { result ≡ position (λ b. b == wanted) bytes.now }
{
    bytes.iter().position(|byte| *byte == wanted)
}

/// A line of so many bytes without its LF, and the rest behind it.
fn cut_behind(bytes: &[u8], len: u32) -> Option<(&[u8], &[u8])>
    ensures len { IfSome result (λ found. length found.0.now ≡ len) }
    ensures found { IfSome result (λ found. bytes.now ≡ line found.0.now ++ found.1.now) }
    ensures missing { IfNone result ((word : List ℕ) → (rest : List ℕ) → length word ≡ len → bytes.now ≡ line word ++ rest → ⊥) }
{
    let end = len as usize;
    if bytes.len() <= end || bytes[end] != b'\n' {
        return None;
    }
    Some((&bytes[..end], &bytes[end + 1..]))
}

/// Whether files are in strict byte order of their names.
fn is_ordered(files: &[SourceFile]) -> bool
    ensures { IsTrue result ↔ IsStrictlySortedBy (slice_cmp nat_cmp) (names_of files.now) }
{
    files.is_sorted_by(|file, next| is_before(file, next))
}

/// Whether the name of a file is before that of another in byte order.
fn is_before(file: &SourceFile, next: &SourceFile) -> bool
    ensures { result ≡ is_lt (slice_cmp nat_cmp file.now.name next.now.name) }
{
    file.name.as_str().cmp(next.name.as_str()).is_lt()
}

/// Whether all files together keep the limit on bytes. Each of them keeps its own.
fn is_within(files: &[SourceFile]) -> bool
    requires few { length files.now ≤ max_sources }
    requires small { All (λ file. length file.bytes ≤ max_file_bytes) files.now }
    ensures { IsTrue result ↔ (sum_by (λ file. length file.bytes) files.now ≤ max_total_bytes) }
{
    let mut total: u64 = 0;
    for file in files {
        total += file.bytes.as_slice().len() as u64;
    }
    total <= MAX_TOTAL_BYTES as u64
}
