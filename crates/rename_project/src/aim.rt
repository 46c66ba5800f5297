//! The goal of a target.

ghost use Rattle.std.specs.Prelude.{◌≡◌, IfErr, IfNone, IfOk, IfSome, Some, map};
ghost use Rattle.rotor_base.specs.declared.place.Place.{Place};
ghost use Rattle.ml_lexer.specs.Lexed.{view_tokens};
ghost use Rattle.ml_trees.specs.View.{view_project};
ghost use Rattle.shape_core.specs.Node.{entries_of};
ghost use Rattle.shape_core.specs.Shape.{none};
ghost use Rattle.shape_core.specs.Respell.{over};
ghost use Rattle.binding_model.specs.Scopes.{after_units};
ghost use Rattle.binding_model.specs.Renaming.{places};
ghost use Rattle.project_reading.specs.Sources.{AreCut};
ghost use Rattle.rename_model.specs.Renaming.{HasNoTarget};
ghost use Rattle.rename_model.specs.Target.{IsSpot, Names, Aims, number_of};
ghost use Rattle.rename_parts.specs.Binders.{IsMarkAt};
ghost use Rattle.rename_project.specs.Steps.{IsRefusedFor};

use project_reading::Read;
use rename_parts::{find_dotted, number_of, placed_binder, token_at};
use rotor_base::{Files, Name, Place, Refusal, Target};
use shape_core::Scope;
use std::alloc::Global;
use value_places::PlacedProject;
use value_sites::Mark;

/// A binder: its place, and its name.
#[derive(Drop)]
pub struct Aim {
    pub place: Place,
    pub mark: Mark,
}

/// The binder that a target names. The caller ensures that the places are those of the project, and that the tokens are
/// those of the files. `top` is the scope after the units of the project.
///
/// # Errors
///
/// `NoTarget`, if the target names no binder. `Memory`.
pub fn find_aim(
    alloc: Global,
    files: &Files,
    read: &Read,
    placed: &PlacedProject<'_>,
    top: &Scope,
    target: &Target,
) -> Result<Aim, Refusal>
    requires placed { placed.now ≡ places (view_project read.now.project) }
    requires cut { AreCut files.now.entries (map (λ list. view_tokens list.items) read.now.tokens.items) }
    requires top { entries_of top.now ≡ after_units none (view_project read.now.project) }
    ensures aims { IfOk result (λ aim. Aims files.now (view_project read.now.project) target.now aim.place) }
    ensures mark { IfOk result (λ aim. IsMarkAt (view_project read.now.project) aim.place (Some aim.mark)) }
    ensures refused { IfErr result (IsRefusedFor (HasNoTarget files.now (view_project read.now.project) target.now)) }
{
    let Some(place) = find_named(files, read, top, target) else {
        return Err(Refusal::NoTarget);
    };
    match placed_binder(alloc, placed, place)? {
        Some(mark) => Ok(Aim { place, mark }),
        None => Err(Refusal::NoTarget),
    }
}

/// The place that a target names.
fn find_named(files: &Files, read: &Read, top: &Scope, target: &Target) -> Option<Place>
    requires cut { AreCut files.now.entries (map (λ list. view_tokens list.items) read.now.tokens.items) }
    requires top { entries_of top.now ≡ after_units none (view_project read.now.project) }
    ensures found { IfSome result (Names files.now (view_project read.now.project) target.now) }
    ensures none { IfNone result ((p : Place) → Names files.now (view_project read.now.project) target.now p → ⊥) }
{
    match target {
        Target::At { file, token } => token_of(files, file, *token),
        Target::Spot { file, line, column } => spot_of(files, read, file, *line, *column),
        Target::Dotted(path) => find_dotted(top, path.as_slice()),
    }
}

/// The token of a source, by the source's name.
fn token_of(files: &Files, file: &Name, token: u32) -> Option<Place>
    ensures { result ≡ over (λ n. record { file = n; token = token }) (number_of files.now.entries file.now) }
{
    let number = number_of(files.entries(), file.as_bytes())?;
    Some(Place {
        file: number,
        token,
    })
}

/// The token of a source that holds the byte at a line and a column.
fn spot_of(files: &Files, read: &Read, file: &Name, line: u32, column: u32) -> Option<Place>
    requires { AreCut files.now.entries (map (λ list. view_tokens list.items) read.now.tokens.items) }
    ensures found { IfSome result (IsSpot files.now.entries file.now (line, column)) }
    ensures none { IfNone result ((p : Place) → IsSpot files.now.entries file.now (line, column) p → ⊥) }
{
    let number = number_of(files.entries(), file.as_bytes())?;
    let source = &files.entries()[number as usize];
    let tokens = &read.tokens.as_slice()[number as usize];
    let token = token_at(source.bytes.as_slice(), tokens, line, column)?;
    Some(Place {
        file: number,
        token,
    })
}
