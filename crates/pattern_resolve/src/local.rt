//! Applications of modules, and the module of a `let module`.

ghost use Rattle.std.specs.Prelude.{◌≡◌, OnOk, IfOk};
ghost use Rattle.ml_trees.specs.View.{view_local, view_local_then, view_words};
ghost use Rattle.ml_trees.specs.Tree.{no_local};
ghost use Rattle.shape_core.specs.Shape.{Struct, none};
ghost use Rattle.shape_core.specs.Node.{entries_of};
ghost use Rattle.binding_model.specs.Scopes.{applied as applied_shape, path_shape, local_shape};
ghost use Rattle.binding_model.specs.Taken.{taken, Going};
ghost use Rattle.binding_model.specs.Walk.{apply_steps, local_steps, locals_steps};

use binding_model::Found;
use ml_trees::{LocalArgument, LocalModule, Word};
use name_resolve::{match_target, path_in, pin_outside};
use rotor_base::Memory;
use shape_core::{Kind, Scope, Shared, kind, make_opaque, make_struct, param, result};
use std::alloc::Global;

/// Applies a module to an argument: a functor's argument is matched with its parameter, and the argument of what may be
/// no functor is pinned. `Memory` is the only error.
pub fn apply(
    alloc: Global,
    found: &mut Found,
    function: &Shared,
    argument: &Shared,
) -> Result<(), Memory>
    ensures { OnOk result (taken (Going found.old) (apply_steps function.now argument.now) ≡ Going found.new) }
{
    match kind(function) {
        Kind::Struct => pin_outside(alloc, found, argument),
        Kind::Functor => match param(function) {
            Some(param) => match_target(alloc, found, argument, param),
            None => Ok(()),
        },
        Kind::Unitary => Ok(()),
        Kind::Opaque => pin_outside(alloc, found, argument),
    }
}

/// Applies a module to an empty structure, as `F ()` does. `Memory` is the only error.
pub fn apply_to_nothing(alloc: Global, found: &mut Found, function: &Shared) -> Result<(), Memory>
    ensures { OnOk result (taken (Going found.old) (apply_steps function.now (Struct none)) ≡ Going found.new) }
{
    let empty = make_struct(alloc, Vec::new(alloc))?;
    apply(alloc, found, function, &empty)
}

/// What an application gives. `Memory` is the only error.
pub fn share_result(alloc: Global, function: &Shared) -> Result<Shared, Memory>
    ensures { IfOk result (λ shape. shape ≡ applied_shape function.now) }
{
    match result(function) {
        Some(shape) => Ok(shape.clone()?),
        None => make_opaque(alloc),
    }
}

/// The shape of a module path: Opaque if it ends nowhere. `Memory` is the only error.
pub fn shape_at(alloc: Global, path: &[Word], scope: &Scope) -> Result<Shared, Memory>
    ensures { IfOk result (λ shape. shape ≡ path_shape (entries_of scope.now) (view_words path.now)) }
{
    match path_in(scope, path) {
        Some(shape) => Ok(shape.clone()?),
        None => make_opaque(alloc),
    }
}

/// The module of a `let module`, with its applications. `Memory` is the only error.
#[cycle(local)]
#[tactic(auto, using(crate::proofs::LocalViews::local_views))]
pub fn local_module(
    alloc: Global,
    found: &mut Found,
    m: &LocalModule,
    scope: &Scope,
) -> Result<Shared, Memory>
    ensures taken { OnOk result (taken (Going found.old) (local_steps (entries_of scope.now) (view_local m.now)) ≡ Going found.new) }
    ensures shape { IfOk result (λ shape. shape ≡ local_shape (entries_of scope.now) (view_local m.now)) }
{
    let mut shape = shape_at(alloc, &m.path.words, scope)?;
    for part in &m.arguments {
        shape = local_argument(alloc, found, part, &shape, scope)?;
    }
    Ok(shape)
}

/// Applies a module to an argument of a `let module`, and returns what the application gives.
#[cycle(local)]
#[tactic(auto, using(crate::proofs::LocalViews::local_views))]
fn local_argument(
    alloc: Global,
    found: &mut Found,
    part: &LocalArgument,
    function: &Shared,
    scope: &Scope,
) -> Result<Shared, Memory>
    ensures taken { OnOk result (taken (Going found.old) (locals_steps (entries_of scope.now) function.now (view_local_then part.now no_local)) ≡ Going found.new) }
    ensures shape { IfOk result (λ shape. shape ≡ applied_shape function.now) }
{
    match part {
        LocalArgument::Module { module: m, .. } => {
            let argument = local_module(alloc, found, m, scope)?;
            apply(alloc, found, function, &argument)?;
        }
        LocalArgument::Nothing { .. } => apply_to_nothing(alloc, found, function)?,
    }
    share_result(alloc, function)
}
