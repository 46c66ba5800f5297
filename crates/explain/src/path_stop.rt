//! Where the path of a target stops before its value.
ghost use Rattle.std.specs.Prelude.{◌≡◌};
ghost use Rattle.std.specs.Option.{option_copied};
ghost use Rattle.shape_core.specs.Node.{entries_of};
ghost use Rattle.shape_core.specs.Shape.{entries_in};
ghost use Rattle.explain.specs.PathStop.{is_struct as is_struct_of, path_stop as path_stop_of, step_of, target_stop as target_stop_of};

use rotor_base::{Name, Target};
use shape_core::{Kind, Scope, Shared, kind, mod_in, mod_of, mty_in, mty_of};

/// Where a path from a unit to a value stops.
#[derive(Clone, Copy)]
pub(crate) enum PathStop {
    /// There is no module or module type of the step of this number, from 0.
    Lacks(usize),
    /// What the step of this number names is no structure and no signature.
    NoStructure(usize),
    /// All modules of the path are there.
    AtValue,
}

/// Where the path of a target stops, in the scope of the units; a target without a path stops at its value.
pub(crate) fn target_stop(top: &Scope, target: &Target) -> PathStop
    ensures { result ≡ target_stop_of (entries_of top.now) target.now }
{
    match target {
        Target::Dotted(path) => path_stop(top, path.as_slice()),
        Target::At { .. } | Target::Spot { .. } => PathStop::AtValue,
    }
}

/// Where a path stops, from the scope of the units.
fn path_stop(top: &Scope, path: &[Name]) -> PathStop
    ensures { result ≡ path_stop_of (entries_of top.now) 0 path.now }
{
    let Some((first, rest)) = path.split_first() else {
        return PathStop::AtValue;
    };
    if rest.is_empty() {
        return PathStop::AtValue;
    }
    match step_from(top, first) {
        None => PathStop::Lacks(0),
        Some(shape) if is_struct(shape) => stop_in(shape, rest),
        Some(_) => PathStop::NoStructure(0),
    }
}

/// Where a path stops that goes on in a structure, from its step 1.
fn stop_in(shape: &Shared, path: &[Name]) -> PathStop
    ensures { result ≡ path_stop_of (entries_in shape.now) 1 path.now }
{
    let mut inside = shape;
    for (at, name) in path.iter().enumerate() {
        if at + 1 == path.len() {
            return PathStop::AtValue;
        }
        match step_in(inside, name) {
            None => return PathStop::Lacks(at + 1),
            Some(next) if is_struct(next) => inside = next,
            Some(_) => return PathStop::NoStructure(at + 1),
        }
    }
    PathStop::AtValue
}

/// Whether a module is a structure, or a module type a signature.
fn is_struct(shape: &Shared) -> bool
    ensures { result ≡ is_struct_of shape.now }
{
    match kind(shape) {
        Kind::Struct => true,
        Kind::Functor | Kind::Unitary | Kind::Opaque => false,
    }
}

/// The last module of a name in a scope, else the last module type of that name.
fn step_from<'a>(top: &'a Scope, name: &Name) -> Option<&'a Shared>
    ensures { option_copied result ≡ step_of (entries_of top.now) name.now }
{
    match mod_in(top, name.as_bytes()) {
        Some(shape) => Some(shape),
        None => mty_in(top, name.as_bytes()),
    }
}

/// The last module of a name in a module, else the last module type of that name.
fn step_in<'a>(shape: &'a Shared, name: &Name) -> Option<&'a Shared>
    ensures { option_copied result ≡ step_of (entries_in shape.now) name.now }
{
    match mod_of(shape, name.as_bytes()) {
        Some(shape) => Some(shape),
        None => mty_of(shape, name.as_bytes()),
    }
}
