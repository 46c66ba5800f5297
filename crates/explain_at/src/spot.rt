//! What is said of a line and a column of a source.
ghost use Rattle.std.specs.Prelude.{◌≡◌, ◌<◌, ◌≤◌, All, IfOk, length, map};
ghost use Rattle.rotor_base.specs.Limits.{max_file_bytes, max_sources};
ghost use Rattle.value_sites.specs.Sound.{IsSound};
ghost use Rattle.ml_trees.specs.View.{view_project};
ghost use Rattle.binding_model.specs.Facts.{facts as facts_of};
ghost use Rattle.refusal_words.specs.Cut.{view_cut};
ghost use Rattle.explain_at.specs.At.{SaysCut, SaysSpot};

use crate::place::{explain_place, refuse_at};
use explain::Explanation;
use ml_trees::Project;
use refusal_words::{CutSource, explain_nameless, no_line, no_source, no_token_at};
use rename_parts::number_of;
use rotor_base::{Facts, Memory, Place, SourceFile};
use std::alloc::Global;
use text_places::{Counting, Position, offset_of};
use value_at::token_at;

/// What is said of a line and a column of the source of a name.
pub(crate) fn explain_spot(
    alloc: Global,
    project: &Project,
    facts: &Facts,
    sources: &[SourceFile],
    cuts: &[CutSource<'_>],
    file: &[u8],
    here: Position,
) -> Result<Explanation, Memory>
    requires sound { IsSound (view_project project.now) }
    requires facts { facts.now ≡ facts_of (view_project project.now) }
    requires few { length sources.now ≤ max_sources }
    requires same { length sources.now ≡ length cuts.now }
    requires small { All (λ cut. length cut.tokens.items ≤ max_file_bytes) cuts.now }
    ensures { IfOk result (SaysSpot sources.now (view_project project.now) (map view_cut cuts.now) file.now here) }
{
    match number_of(sources, file) {
        Some(number) => explain_spot_of_source(alloc, project, facts, cuts, number, here),
        None => refuse_at(alloc, explain_nameless(alloc, no_source(alloc, file)?)?),
    }
}

/// What is said of a line and a column of the source of a number.
fn explain_spot_of_source(
    alloc: Global,
    project: &Project,
    facts: &Facts,
    cuts: &[CutSource<'_>],
    number: u32,
    here: Position,
) -> Result<Explanation, Memory>
    requires sound { IsSound (view_project project.now) }
    requires facts { facts.now ≡ facts_of (view_project project.now) }
    requires small { All (λ cut. length cut.tokens.items ≤ max_file_bytes) cuts.now }
    requires within { number < length cuts.now }
    ensures { IfOk result (SaysCut (view_project project.now) (map view_cut cuts.now) number here) }
{
    let cut = &cuts[number as usize];
    let Some(offset) = offset_of(Counting::People, cut.bytes, here) else {
        let sentence = no_line(alloc, cut.name, here.line)?;
        return refuse_at(alloc, explain_nameless(alloc, sentence)?);
    };
    let Some(token) = token_at(&cut.tokens, offset) else {
        let sentence = no_token_at(alloc, cut.name, here.line, here.column)?;
        return refuse_at(alloc, explain_nameless(alloc, sentence)?);
    };
    let place = Place {
        file: number,
        token,
    };
    explain_place(alloc, project, facts, cuts, place)
}
