//! The messages of targets that declare no value.
ghost use Rattle.std.specs.Prelude.{◌≡◌, ◌≤◌, ◌+◌, ◌++◌, All, IfOk, IfSome, OnOk, length, map, take};
ghost use Rattle.std.specs.Option.{option_map};
ghost use Rattle.rotor_base.specs.Limits.{max_file_bytes, max_sources};
ghost use Rattle.binding_model.specs.Renaming.{goal_at as goal_of};
ghost use Rattle.refusal_words.specs.Cut.{view_cut};
ghost use Rattle.explain.specs.Targets.{count_feeds as count_feeds_of, cut_of, dotted_step, dotted_words as dotted_words_of, lacking as lacking_of, member_message as member_message_of, path_message as path_message_of, path_up_to as path_up_to_of, place_message as place_message_of, split_message, split_path, spot_message as spot_message_of, target_message as target_message_of, token_message as token_message_of, use_message as use_message_of};

use crate::path_stop::PathStop;
use messages::{Message, join_words, shown_word};
use refusal_words::{
    CutSource, a_use, explain_nameless, foreign_value, no_line, no_member, no_path, no_source,
    no_token, no_token_at, no_value,
};
use rename_parts::token_at;
use rotor_base::{Goal, Memory, Name, Place, Ref, Row, Target};
use std::alloc::Global;

/// The message of a target that declares no value, over the references of the folder. The one error is want of memory.
pub(crate) fn target_message(
    alloc: Global,
    cuts: &[CutSource<'_>],
    refs: &[Ref],
    stop: PathStop,
    target: &Target,
) -> Result<Message, Memory>
    requires few { length cuts.now ≤ max_sources }
    requires short { All (λ cut. length cut.tokens.items ≤ max_file_bytes) cuts.now }
    ensures { IfOk result (λ message. message ≡ target_message_of (map view_cut cuts.now) refs.now stop target.now) }
{
    match target {
        Target::At { file, token } => match find_source(cuts, file.as_bytes()) {
            Some((number, cut)) => token_message(alloc, cuts, refs, number, cut, *token),
            None => explain_nameless(alloc, no_source(alloc, file.as_bytes())?),
        },
        Target::Spot { file, line, column } => match find_source(cuts, file.as_bytes()) {
            Some((number, cut)) => spot_message(alloc, cuts, refs, number, cut, *line, *column),
            None => explain_nameless(alloc, no_source(alloc, file.as_bytes())?),
        },
        Target::Dotted(path) => path_message(alloc, stop, path.as_slice()),
    }
}

/// The source of a name, with its number.
fn find_source<'a, 'b>(cuts: &'b [CutSource<'a>], name: &[u8]) -> Option<(u32, &'b CutSource<'a>)>
    requires few { length cuts.now ≤ max_sources }
    requires short { All (λ cut. length cut.tokens.items ≤ max_file_bytes) cuts.now }
    ensures source { option_map (λ found. (found.0, view_cut found.1.now)) result ≡ cut_of (map view_cut cuts.now) name.now }
    ensures short { IfSome result (λ found. length found.1.now.tokens.items ≤ max_file_bytes) }
{
    let mut number: u32 = 0;
    for cut in cuts {
        if cut.name == name {
            return Some((number, cut));
        }
        number += 1;
    }
    None
}

/// The message of a token of a source that is no declaration, or that is missing.
fn token_message(
    alloc: Global,
    cuts: &[CutSource<'_>],
    refs: &[Ref],
    file: u32,
    cut: &CutSource<'_>,
    token: u32,
) -> Result<Message, Memory>
    ensures { IfOk result (λ message. message ≡ token_message_of (map view_cut cuts.now) refs.now file (view_cut cut.now) token) }
{
    let count = cut.tokens.len();
    if token as usize > count {
        return explain_nameless(alloc, no_token(alloc, cut.name, token, count as u64)?);
    }
    place_message(alloc, cuts, refs, Place { file, token })
}

/// The message of a line and a column of a source.
fn spot_message(
    alloc: Global,
    cuts: &[CutSource<'_>],
    refs: &[Ref],
    file: u32,
    cut: &CutSource<'_>,
    line: u32,
    column: u32,
) -> Result<Message, Memory>
    requires { length cut.now.tokens.items ≤ max_file_bytes }
    ensures { IfOk result (λ message. message ≡ spot_message_of (map view_cut cuts.now) refs.now file (view_cut cut.now) line column) }
{
    if line as usize > count_feeds(cut.bytes) + 1 {
        return explain_nameless(alloc, no_line(alloc, cut.name, line)?);
    }
    match token_at(cut.bytes, &cut.tokens, line, column) {
        Some(token) => place_message(alloc, cuts, refs, Place { file, token }),
        None => explain_nameless(alloc, no_token_at(alloc, cut.name, line, column)?),
    }
}

/// The number of LF in some bytes.
fn count_feeds(bytes: &[u8]) -> usize
    requires { length bytes.now ≤ max_file_bytes }
    ensures number { result ≡ count_feeds_of bytes.now }
    ensures few { result ≤ length bytes.now }
{
    bytes.iter().filter(|byte| **byte == b'\n').count()
}

/// The message of a token that is no declaration.
fn place_message(
    alloc: Global,
    cuts: &[CutSource<'_>],
    refs: &[Ref],
    at: Place,
) -> Result<Message, Memory>
    ensures { IfOk result (λ message. message ≡ place_message_of (map view_cut cuts.now) refs.now at) }
{
    use_message(alloc, cuts, at, goal_at(refs, at))
}

/// The message of a token, by the goal of the reference there.
fn use_message(
    alloc: Global,
    cuts: &[CutSource<'_>],
    at: Place,
    goal: Option<Goal>,
) -> Result<Message, Memory>
    ensures { IfOk result (λ message. message ≡ use_message_of (map view_cut cuts.now) at goal) }
{
    match goal {
        Some(Goal::Decl(declared)) => a_use(alloc, cuts, at, declared),
        Some(Goal::Blur { .. } | Goal::Outside | Goal::Missing | Goal::Hidden) => {
            foreign_value(alloc, cuts, at)
        }
        None => no_value(alloc, cuts, at),
    }
}

/// The goal of the reference at a place.
fn goal_at(refs: &[Ref], at: Place) -> Option<Goal>
    ensures { result ≡ goal_of refs.now at }
{
    for reference in refs {
        if reference.at == at {
            return Some(reference.goal);
        }
    }
    None
}

/// The message of a path that names no value, by where it stops.
fn path_message(alloc: Global, stop: PathStop, path: &[Name]) -> Result<Message, Memory>
    ensures { IfOk result (λ message. message ≡ path_message_of stop path.now) }
{
    match stop {
        PathStop::Lacks(step) => {
            let name = write_path_up_to(alloc, path, step)?;
            let text = join_words(alloc, &[name_step(step), name.as_slice(), b"`"])?;
            explain_nameless(alloc, text)
        }
        PathStop::NoStructure(step) => {
            let name = write_path_up_to(alloc, path, step)?;
            let end = b"` is no structure or signature";
            let text = join_words(alloc, &[b"`", name.as_slice(), end])?;
            explain_nameless(alloc, text)
        }
        PathStop::AtValue => value_message(alloc, path),
    }
}

/// What is missing: the first step of a path is a unit, and each later one a module.
fn name_step(step: usize) -> &'static [u8]
    ensures { result.now ≡ lacking_of step }
{
    if step == 0 {
        b"there is no unit `"
    } else {
        b"there is no module `"
    }
}

/// The names of a path up to a step.
fn write_path_up_to(alloc: Global, path: &[Name], step: usize) -> Result<Row<u8>, Memory>
    ensures { IfOk result (λ text. text ≡ path_up_to_of step path.now) }
{
    let name = dotted_words(alloc, take_steps(path, step))?;
    shown_word(alloc, name.as_slice())
}

/// The steps of a path up to one.
fn take_steps(path: &[Name], step: usize) -> &[Name]
    ensures { result.now ≡ take (step + 1) path.now }
{
    if step < path.len() {
        &path[..step + 1]
    } else {
        path
    }
}

/// The message of a path whose modules are there.
fn value_message(alloc: Global, path: &[Name]) -> Result<Message, Memory>
    ensures { IfOk result (λ message. message ≡ split_message (split_path path.now)) }
{
    match path.split_last() {
        Some((last, front)) => member_message(alloc, front, last),
        None => explain_nameless(alloc, no_path(alloc, b"")?),
    }
}

/// The message of a path by the names before its last one, and that one.
fn member_message(alloc: Global, front: &[Name], last: &Name) -> Result<Message, Memory>
    ensures { IfOk result (λ message. message ≡ member_message_of front.now last.now) }
{
    if front.len() == 0 {
        return explain_nameless(alloc, no_path(alloc, last.as_bytes())?);
    }
    let module = dotted_words(alloc, front)?;
    explain_nameless(alloc, no_member(alloc, module.as_slice(), last.as_bytes())?)
}

/// Names with dots between them.
fn dotted_words(alloc: Global, names: &[Name]) -> Result<Row<u8>, Memory>
    ensures { IfOk result (λ text. text ≡ dotted_words_of names.now) }
{
    let mut text = Vec::new(alloc);
    for (at, name) in names.iter().enumerate() {
        push_step(&mut text, at, name)?;
    }
    Ok(Row::from_vec(text))
}

/// Adds the step of this number, from 0, behind a dot if it is not the first one.
fn push_step(text: &mut Vec<u8>, at: usize, name: &Name) -> Result<(), Memory>
    ensures { OnOk result (text.new.items ≡ text.old.items ++ dotted_step at name.now) }
{
    if at != 0 {
        text.push(b'.')?;
    }
    text.extend_from_slice(name.as_bytes())?;
    Ok(())
}
