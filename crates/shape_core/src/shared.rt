//! The shared form of shapes.

ghost use Rattle.std.specs.Prelude.{◌≡◌, ◌≤◌, ◌+◌, IfOk, length, option_copied};
ghost use Rattle.rotor_base.specs.Limits.{max_levels};
ghost use Rattle.shape_core.specs.Looks as looks;
ghost use Rattle.shape_core.specs.Shape as pure;
ghost use Rattle.shape_core.specs.Node.{entries_of, and_then, shape_of, kind_of};
ghost use Rattle.shape_core.specs.Contents.{IsIndexed};
ghost use Rattle.rotor_base.specs.declared.looks.Watch.{Watch};
ghost use Rattle.shape_core.specs.Places.{HasPlaces};
ghost use Rattle.shape_core.specs.View.{Sees};

use crate::contents::Contents;
use crate::index::LookSpot;
use crate::kinds::Kind;
use crate::shape::{Seen, add_capped, see_nothing};
use rotor_base::{Goal, MAX_LEVELS, Memory, Name, Place};
use std::alloc::{AllocError, Global};
use std::collections::BTreeSet;
use std::marker::Model;
use std::rc::Rc;

/// A shape whose parts are shared. Contracts see it as the shape.
#[cycle(sharing)]
pub struct Shared {
    node: Rc<Node>,
}

#[cycle(sharing)]
struct Node {
    form: Form,
    weight: u64,
    levels: usize,
}

#[cycle(sharing)]
enum Form {
    // Boxed, so that a level of a deep shape takes little stack when it is dropped.
    Struct(Vec<SharedEntry>, Box<Contents>),
    Functor(Shared, Shared),
    Unitary(Shared),
    Opaque,
}

/// A part of a scope or of a structure, whose shapes are shared.
#[cycle(sharing)]
pub enum SharedEntry {
    /// A value and its goal.
    Val(Name, Goal),
    /// A module and its shape.
    Mod(Name, Shared),
    /// A module type and its shape.
    Mty(Name, Shared),
    /// An opening of an outside module, at its site.
    Dark(Place),
}

// The drops are written by hand, so that a crate that drops a shape proves nothing of its parts.
impl Drop for Shared {
    #[cycle(sharing)]
    fn drop(self) {
        let Shared { node: _ } = self;
    }
}

impl Drop for Node {
    #[cycle(sharing)]
    fn drop(self) {
        let Node {
            form: _,
            weight: _,
            levels: _,
        } = self;
    }
}

impl Drop for Form {
    #[cycle(sharing)]
    fn drop(self) {
        match self {
            Form::Struct(_, _) => {}
            Form::Functor(_, _) => {}
            Form::Unitary(_) => {}
            Form::Opaque => {}
        }
    }
}

impl Drop for SharedEntry {
    #[cycle(sharing)]
    fn drop(self) {
        match self {
            SharedEntry::Val(_, _) => {}
            SharedEntry::Mod(_, _) => {}
            SharedEntry::Mty(_, _) => {}
            SharedEntry::Dark(_) => {}
        }
    }
}

impl Model for Shared {
    ghost use Rattle.shape_core.specs.Shape.{Shape, depth};
    ghost use Rattle.shape_core.specs.Codes.{coded_shape};

    ghost Value = { Shape };

    ghost coded = { coded_shape };

    ghost use Rattle.shape_core.specs.Node.{shape_of};
    ghost use Rattle.shape_core.specs.Contents.{IsSound};

    ghost view = { λ s. shape_of s.node.value.form };

    ghost invariant = { λ s. IsSound s.node.value };

    ghost size = { depth };

    ghost use Rattle.shape_core.specs.Falls.{depth_falls};

    ghost size_decreases = { λ s h. depth_falls s.node.value };
}

impl Clone for Shared {
    ghost is_clone = { λ shape copy. copy ≡ shape };

    fn clone(&self) -> Result<Shared, AllocError> {
        Ok(Shared {
            node: self.node.clone()?,
        })
    }
}

/// The shape of a form, unless it is too deep.
fn make(alloc: Global, form: Form, weight: u64, levels: usize) -> Result<Shared, Memory>
    requires weight { weight ≡ pure.capped (pure.weight (shape_of form)) }
    requires levels { levels ≡ pure.depth (shape_of form) }
    requires indexed { IsIndexed form }
    ensures { IfOk result (λ shape. shape ≡ shape_of form) }
{
    if levels > MAX_LEVELS {
        return Err(Memory);
    }
    let node = Rc::new(
        alloc,
        Node {
            form,
            weight,
            levels,
        },
    )?;
    Ok(Shared { node })
}

/// The weight of a shape, or 16,777,216 if it is more. It is kept in the shape, and takes no memory.
pub fn weight_of(shape: &Shared) -> u64
    ensures { result ≡ pure.capped (pure.weight shape.now) }
{
    shape.node.weight
}

/// The number of levels of shapes below a shape: at most [`MAX_LEVELS`]. It takes no memory.
pub fn levels_of(shape: &Shared) -> usize
    ensures levels { result ≡ pure.depth shape.now }
    ensures bound { result ≤ max_levels }
{
    shape.node.levels
}

fn weight_of_entry(entry: &SharedEntry) -> u64
    ensures { result ≡ pure.capped (pure.weights (and_then entry.now pure.none)) }
{
    match entry {
        SharedEntry::Val(_, _) => 1,
        SharedEntry::Mod(_, shape) => add_capped(1, weight_of(shape)),
        SharedEntry::Mty(_, shape) => add_capped(1, weight_of(shape)),
        SharedEntry::Dark(_) => 1,
    }
}

fn levels_of_entry(entry: &SharedEntry) -> usize
    ensures { result ≡ pure.depths (and_then entry.now pure.none) }
{
    match entry {
        SharedEntry::Val(_, _) => 0,
        SharedEntry::Mod(_, shape) => levels_of(shape) + 1,
        SharedEntry::Mty(_, shape) => levels_of(shape) + 1,
        SharedEntry::Dark(_) => 0,
    }
}

/// The structure of these entries. `Memory` is the only error: there is no memory, or the shape would be deeper than
/// [`MAX_LEVELS`]. It costs two look-ups for each entry.
pub fn make_struct(alloc: Global, entries: Vec<SharedEntry>) -> Result<Shared, Memory>
    ensures { IfOk result (λ shape. shape ≡ pure.Struct (entries_of entries.items)) }
{
    let mut contents = Contents::new(alloc);
    let mut weight = 0;
    let mut levels = 0;
    for entry in &entries {
        contents.add(alloc, entry)?;
        weight = add_capped(weight, weight_of_entry(entry));
        levels = levels.max(levels_of_entry(entry));
    }
    let contents = Box::new(alloc, contents)?;
    make(alloc, Form::Struct(entries, contents), weight, levels)
}

/// The functor of this parameter with this result; errors as for [`make_struct`].
pub fn make_functor(alloc: Global, param: Shared, body: Shared) -> Result<Shared, Memory>
    ensures { IfOk result (λ shape. shape ≡ pure.Functor param body) }
{
    let weight = add_capped(1, add_capped(weight_of(&param), weight_of(&body)));
    let levels = levels_of(&param).max(levels_of(&body)) + 1;
    make(alloc, Form::Functor(param, body), weight, levels)
}

/// The functor with the parameter `()` and this result; errors as for [`make_struct`].
pub fn make_unitary(alloc: Global, body: Shared) -> Result<Shared, Memory>
    ensures { IfOk result (λ shape. shape ≡ pure.Unitary body) }
{
    let weight = add_capped(1, weight_of(&body));
    let levels = levels_of(&body) + 1;
    make(alloc, Form::Unitary(body), weight, levels)
}

/// The shape of an outside or unknown module; errors as for [`make_struct`].
pub fn make_opaque(alloc: Global) -> Result<Shared, Memory>
    ensures { IfOk result (λ shape. shape ≡ pure.Opaque) }
{
    make(alloc, Form::Opaque, 0, 0)
}

/// What kind of shape a shape is. It takes no memory.
pub fn kind(shape: &Shared) -> Kind
    ensures { result ≡ kind_of shape.now }
{
    match &shape.node.form {
        Form::Struct(_, _) => Kind::Struct,
        Form::Functor(_, _) => Kind::Functor,
        Form::Unitary(_) => Kind::Unitary,
        Form::Opaque => Kind::Opaque,
    }
}

/// The entries of a structure, none of another shape. It takes no memory.
pub fn entries(shape: &Shared) -> &[SharedEntry]
    ensures { entries_of result.now ≡ pure.entries_in shape.now }
{
    match &shape.node.form {
        Form::Struct(entries, _) => entries,
        Form::Functor(_, _) => &[],
        Form::Unitary(_) => &[],
        Form::Opaque => &[],
    }
}

/// The positions of the values of a structure among its entries, in order; none of another shape. It takes no memory.
pub fn value_positions(shape: &Shared) -> &[usize]
    ensures { result.now ≡ pure.values_from 0 (pure.entries_in shape.now) }
{
    match &shape.node.form {
        Form::Struct(_, contents) => contents.index.positions(),
        Form::Functor(_, _) => &[],
        Form::Unitary(_) => &[],
        Form::Opaque => &[],
    }
}

/// The parameter of a functor. It takes no memory.
pub fn param(shape: &Shared) -> Option<&Shared>
    ensures { option_copied result ≡ pure.param_of shape.now }
{
    match &shape.node.form {
        Form::Functor(param, _) => Some(param),
        Form::Struct(_, _) => None,
        Form::Unitary(_) => None,
        Form::Opaque => None,
    }
}

/// The result of a functor, also of one with the parameter `()`. It takes no memory.
pub fn result(shape: &Shared) -> Option<&Shared>
    ensures { option_copied result ≡ pure.result_of shape.now }
{
    match &shape.node.form {
        Form::Functor(_, body) => Some(body),
        Form::Unitary(body) => Some(body),
        Form::Struct(_, _) => None,
        Form::Opaque => None,
    }
}

/// The goal that a look-up of a value in a structure gives, as [`crate::find_val`] does; `None` for another shape. It
/// takes no memory.
pub fn val_of(shape: &Shared, name: &[u8]) -> Option<Goal>
    ensures { result ≡ pure.find_val (pure.entries_in shape.now) name.now }
{
    match &shape.node.form {
        Form::Struct(_, contents) => contents.index.val(name),
        Form::Functor(_, _) => None,
        Form::Unitary(_) => None,
        Form::Opaque => None,
    }
}

/// What a look-up of a value sees of a structure; nothing of another shape. It takes no memory.
pub fn seen_of(shape: &Shared, name: &[u8]) -> Seen
    ensures { Sees (pure.entries_in shape.now) name.now result }
{
    match &shape.node.form {
        Form::Struct(_, contents) => contents.index.seen(name),
        Form::Functor(_, _) => see_nothing(),
        Form::Unitary(_) => see_nothing(),
        Form::Opaque => see_nothing(),
    }
}

/// The number of Dark entries of a structure, and the place of the last one; none of another shape. It takes no memory.
pub fn darks_of(shape: &Shared) -> (u64, Option<Place>)
    ensures number { result.0 ≡ length (pure.darks (pure.entries_in shape.now)) }
    ensures last { result.1 ≡ pure.last_place (pure.darks (pure.entries_in shape.now)) }
{
    match &shape.node.form {
        Form::Struct(_, contents) => contents.index.darks(),
        Form::Functor(_, _) => (0, None),
        Form::Unitary(_) => (0, None),
        Form::Opaque => (0, None),
    }
}

/// The last value of a name in a structure, as [`crate::last_val_in`] says; `None` for another shape. It takes no
/// memory.
pub fn last_val_of(shape: &Shared, name: &[u8]) -> Option<LookSpot>
    ensures { result ≡ looks.last_where (looks.of_name name.now) (pure.entries_in shape.now) }
{
    match &shape.node.form {
        Form::Struct(_, contents) => contents.index.last_val(name),
        Form::Functor(_, _) => None,
        Form::Unitary(_) => None,
        Form::Opaque => None,
    }
}

/// The last value of a structure whose goal is among some declarations; `None` for another shape. It costs a look-up
/// for each declaration, and takes no memory.
pub fn last_member_of(shape: &Shared, decls: &[Place]) -> Option<LookSpot>
    ensures { (w : Watch) → w.foot.decls ≡ decls.now → result ≡ looks.last_where (looks.in_foot w) (pure.entries_in shape.now) }
{
    match &shape.node.form {
        Form::Struct(_, contents) => contents.last_member(decls),
        Form::Functor(_, _) => None,
        Form::Unitary(_) => None,
        Form::Opaque => None,
    }
}

/// The last value of a name in a structure whose goal is not among some places; `None` for another shape. It costs a
/// step for each later value of the name, and takes no memory.
pub fn last_other_of(shape: &Shared, name: &[u8], set: &BTreeSet<Place>) -> Option<LookSpot>
    ensures { (w : Watch) → w.old ≡ name.now → HasPlaces w.foot.decls set.now → result ≡ looks.last_where (looks.other_old w) (pure.entries_in shape.now) }
{
    match &shape.node.form {
        Form::Struct(entries, contents) => contents.index.last_other(entries, name, set),
        Form::Functor(_, _) => None,
        Form::Unitary(_) => None,
        Form::Opaque => None,
    }
}

/// The shape of the last module of that name in a structure; `None` for another shape. It takes
/// no memory.
pub fn mod_of<'a>(shape: &'a Shared, name: &[u8]) -> Option<&'a Shared>
    ensures { option_copied result ≡ pure.find_mod (pure.entries_in shape.now) name.now }
{
    match &shape.node.form {
        Form::Struct(entries, contents) => contents.index.module(entries, name),
        Form::Functor(_, _) => None,
        Form::Unitary(_) => None,
        Form::Opaque => None,
    }
}

/// The shape of the last module type of that name in a structure; `None` for another shape. It
/// takes no memory.
pub fn mty_of<'a>(shape: &'a Shared, name: &[u8]) -> Option<&'a Shared>
    ensures { option_copied result ≡ pure.find_mty (pure.entries_in shape.now) name.now }
{
    match &shape.node.form {
        Form::Struct(entries, contents) => contents.index.module_type(entries, name),
        Form::Functor(_, _) => None,
        Form::Unitary(_) => None,
        Form::Opaque => None,
    }
}

/// Whether no later entry of a structure has the kind and name of the entry at a position, as [`crate::visible`]
/// says; false for a Dark entry, past the end and for another shape. It takes no memory.
pub fn is_shown(shape: &Shared, at: usize) -> bool
    ensures { result ≡ pure.is_shown (pure.entries_from at (pure.entries_in shape.now)) }
{
    match &shape.node.form {
        Form::Struct(entries, contents) => contents.index.is_shown(entries, at),
        Form::Functor(_, _) => false,
        Form::Unitary(_) => false,
        Form::Opaque => false,
    }
}
