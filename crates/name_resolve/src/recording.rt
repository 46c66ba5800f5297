//! The looks that a recorder keeps, if there is one.

ghost use Rattle.std.specs.Prelude.{◌≡◌, ◌||◌, IfOk, OnOk, bytes_eq};
ghost use Rattle.shape_core.specs.Shape.{entries_in, value_in};
ghost use Rattle.shape_core.specs.Looks as looks;
ghost use Rattle.shape_core.specs.Node.{entries_of};
ghost use Rattle.binding_model.specs.Looks.{ref_look};
ghost use Rattle.binding_model.specs.Steps.{UseUnder, MatchOf, PinOf};
ghost use Rattle.binding_model.specs.Taken.{recorded};
ghost use Rattle.sig_match.specs.Matched.{listed};
ghost use Rattle.name_resolve.specs.Recorded.{use_recorded, tie_recorded, joined_looks};

use binding_model::Recorder;
use rotor_base::{Goal, Looks, Memory, Place, RefLook};
use shape_core::{
    Kind, LookSpot, Scope, Shared, darks_in, darks_of, kind, last_val_in, last_val_of,
};
use sig_match::{Test, find_last_in, look_of_value, watch_match, watch_pin};
use std::alloc::Global;
use watched::Watched;

/// Records the look of a value that is looked up in a scope. `Memory` is the only error.
pub fn record_use(
    recorder: &mut Option<Recorder>,
    scope: &mut Scope,
    at: Place,
    name: &[u8],
    goal: Goal,
) -> Result<(), Memory>
    ensures recorded { OnOk result (recorder.new ≡ use_recorded recorder.old at name.now goal (entries_of scope.old)) }
    ensures scope { scope.new ≡ scope.old }
{
    let Some(recorder) = recorder else {
        return Ok(());
    };
    if let Some(look) = look_in(&recorder.watch, scope, at, name, goal)? {
        recorder.looks.refs.push(look)?;
    }
    Ok(())
}

/// The look of a reference in a scope, if it has the old or the new name. `Memory` is the only error.
fn look_in(
    watch: &Watched,
    scope: &mut Scope,
    at: Place,
    name: &[u8],
    goal: Goal,
) -> Result<Option<RefLook>, Memory>
    ensures look { IfOk result (λ look. listed look ≡ ref_look watch.now at name.now goal (entries_of scope.old)) }
    ensures scope { scope.new ≡ scope.old }
{
    if !is_asked(watch, name) {
        return Ok(None);
    }
    let foot = watch.last_member(scope)?;
    let (darks, by) = darks_in(scope);
    Ok(Some(RefLook {
        at,
        goal,
        is_new: is_new(watch, name),
        darks,
        by,
        foot,
        new: find_new_in(watch, scope),
    }))
}

/// Whether a name is the old or the new one.
fn is_asked(watch: &Watched, name: &[u8]) -> bool
    ensures { result ≡ (bytes_eq name.now watch.now.old || bytes_eq name.now watch.now.new) }
{
    name == watch.as_watch().old.as_bytes() || is_new(watch, name)
}

fn is_new(watch: &Watched, name: &[u8]) -> bool
    ensures { result ≡ bytes_eq name.now watch.now.new }
{
    name == watch.as_watch().new.as_bytes()
}

/// The last value of the new name in a scope.
fn find_new_in(watch: &Watched, scope: &Scope) -> Option<LookSpot>
    ensures { result ≡ looks.last_where (looks.named_new watch.now) (entries_of scope.now) }
{
    last_val_in(scope, watch.as_watch().new.as_bytes())
}

/// The last value of the new name in a structure.
fn find_new_of(watch: &Watched, shape: &Shared) -> Option<LookSpot>
    ensures { result ≡ looks.last_where (looks.named_new watch.now) (entries_in shape.now) }
{
    last_val_of(shape, watch.as_watch().new.as_bytes())
}

/// Records the look of a value that is looked up in a structure. `Memory` is the only error.
fn record_member(
    recorder: &mut Option<Recorder>,
    shape: &Shared,
    at: Place,
    name: &[u8],
    goal: Goal,
) -> Result<(), Memory>
    ensures { OnOk result (recorder.new ≡ use_recorded recorder.old at name.now goal (entries_in shape.now)) }
{
    let Some(recorder) = recorder else {
        return Ok(());
    };
    if let Some(look) = look_of(&recorder.watch, shape, at, name, goal) {
        recorder.looks.refs.push(look)?;
    }
    Ok(())
}

/// The look of a reference in a structure, if it has the old or the new name.
fn look_of(watch: &Watched, shape: &Shared, at: Place, name: &[u8], goal: Goal) -> Option<RefLook>
    ensures { listed result ≡ ref_look watch.now at name.now goal (entries_in shape.now) }
{
    if !is_asked(watch, name) {
        return None;
    }
    let (darks, by) = darks_of(shape);
    Some(RefLook {
        at,
        goal,
        is_new: is_new(watch, name),
        darks,
        by,
        foot: find_last_in(Test::InFoot, watch, shape),
        new: find_new_of(watch, shape),
    })
}

/// Records the look of a value that is looked up under a module. `Memory` is the only error.
#[tactic(auto, using(crate::proofs::Recorders::uses_under))]
pub fn record_under(
    recorder: &mut Option<Recorder>,
    shape: &Shared,
    at: Place,
    name: &[u8],
    goal: Goal,
) -> Result<(), Memory>
    requires { goal ≡ value_in shape.now name.now }
    ensures { OnOk result (recorder.new ≡ recorded recorder.old (UseUnder at name.now shape.now)) }
{
    match kind(shape) {
        Kind::Struct => record_member(recorder, shape, at, name, goal),
        Kind::Functor => Ok(()),
        Kind::Unitary => Ok(()),
        Kind::Opaque => Ok(()),
    }
}

/// Records the looks of a match. `Memory` is the only error.
#[tactic(auto, using(crate::proofs::Recorders::match_recorded))]
pub fn record_match(
    alloc: Global,
    recorder: &mut Option<Recorder>,
    source: &Shared,
    target: &Shared,
) -> Result<(), Memory>
    ensures { OnOk result (recorder.new ≡ recorded recorder.old (MatchOf source.now target.now)) }
{
    let Some(recorder) = recorder else {
        return Ok(());
    };
    let looks = watch_match(alloc, source, target, &recorder.watch)?;
    add_looks(&mut recorder.looks, &looks)
}

/// Records the looks of a pinning. `Memory` is the only error.
#[tactic(auto, using(crate::proofs::Recorders::pin_recorded))]
pub fn record_pin(
    alloc: Global,
    recorder: &mut Option<Recorder>,
    shape: &Shared,
) -> Result<(), Memory>
    ensures { OnOk result (recorder.new ≡ recorded recorder.old (PinOf shape.now)) }
{
    let Some(recorder) = recorder else {
        return Ok(());
    };
    let looks = watch_pin(alloc, shape, &recorder.watch)?;
    add_looks(&mut recorder.looks, &looks)
}

/// Adds looks of links, numbered after those before them.
fn add_looks(all: &mut Looks, more: &Looks) -> Result<(), Memory>
    ensures { OnOk result (all.new ≡ joined_looks all.old more.now) }
{
    let first = all.passed;
    let Some(passed) = first.checked_add(more.passed) else {
        return Err(Memory);
    };
    for look in more.links.as_slice() {
        let Some(number) = first.checked_add(look.number) else {
            return Err(Memory);
        };
        let mut next = *look;
        next.number = number;
        all.links.push(next)?;
    }
    all.passed = passed;
    Ok(())
}

/// Records the look of a variable of an or-pattern that is looked up in a part. `Memory` is the only error.
pub fn record_tie(
    recorder: &mut Option<Recorder>,
    name: &[u8],
    goal: Goal,
    source: &Shared,
) -> Result<(), Memory>
    ensures { OnOk result (recorder.new ≡ tie_recorded recorder.old name.now goal (entries_in source.now)) }
{
    let Some(recorder) = recorder else {
        return Ok(());
    };
    let number = recorder.looks.passed;
    let Some(passed) = number.checked_add(1) else {
        return Err(Memory);
    };
    recorder.looks.passed = passed;
    let look = look_of_value(name, goal, &[], Some(source), number, &recorder.watch);
    if let Some(look) = look {
        recorder.looks.links.push(look)?;
    }
    Ok(())
}
