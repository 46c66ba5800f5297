//! The plain form of shapes.

ghost use Rattle.std.specs.Prelude.{◌≡◌, ◌<◌, ◌+◌, ◌≤◌, ◌^◌, length, drop, is_some, IfOk, Option, Some, None};
ghost use Rattle.shape_core.specs.Shape as pure;
ghost use Rattle.shape_core.specs.View.{view_shape, view_then, entries, found_shape, Sees};

use rotor_base::{Goal, MAX_LEVELS, Memory, Name, Place};
use std::alloc::Global;

/// The greatest weight: any greater weight counts as this.
pub const GREATEST_WEIGHT: u64 = 16_777_216;

/// What a module or a module type is.
#[derive(Debug, Drop)]
#[cycle(shapes)]
pub enum Shape {
    /// A structure or signature, with all its entries in order.
    Struct(Vec<Entry>),
    /// A functor with its parameter and its result.
    Functor(Box<Shape>, Box<Shape>),
    /// A functor with the parameter `()` and its result.
    Unitary(Box<Shape>),
    /// An outside or unknown module.
    Opaque,
}

/// A part of a scope or of a structure.
#[derive(Debug, Drop)]
#[cycle(shapes)]
pub enum Entry {
    /// A value and its goal.
    Val(Name, Goal),
    /// A module and its shape.
    Mod(Name, Shape),
    /// A module type and its shape.
    Mty(Name, Shape),
    /// An opening of an outside module, at its site.
    Dark(Place),
}

/// What a look-up of a value has seen: the last value of the name, and the Dark entries after it.
#[derive(Clone, Copy)]
pub struct Seen {
    pub found: Option<Goal>,
    pub by: Option<Place>,
    pub passed: u64,
}

impl Seen {
    /// The goal of what has been seen.
    pub fn goal(self) -> Option<Goal>
        ensures { result ≡ pure.seen self.found self.by self.passed }
    {
        match self.by {
            None => self.found,
            Some(by) => Some(Goal::Blur {
                by,
                passed: self.passed,
                behind: declaration(self.found),
            }),
        }
    }
}

fn declaration(found: Option<Goal>) -> Option<Place>
    ensures { result ≡ pure.behind_of found }
{
    match found {
        Some(Goal::Decl(place)) => Some(place),
        _ => None,
    }
}

/// One entry more is seen.
#[tactic(auto, using(crate::proofs::Seen::seen_rules), unfolding(crate::specs::View::view_then))]
fn see(seen: Seen, entry: &Entry, name: &[u8]) -> Seen
    requires { seen.passed < 2 ^ 63 }
    ensures sees { (es : pure.Entries) → Sees es name.now seen → Sees (pure.◌⊕◌ es (view_then entry.now pure.none)) name.now result }
    ensures bound { result.passed ≤ seen.passed + 1 }
{
    match entry {
        Entry::Val(x, goal) => {
            if x.as_bytes() == name {
                Seen {
                    found: Some(*goal),
                    by: None,
                    passed: 0,
                }
            } else {
                seen
            }
        }
        Entry::Dark(at) => Seen {
            found: seen.found,
            by: Some(*at),
            passed: seen.passed + 1,
        },
        Entry::Mod(_, _) => seen,
        Entry::Mty(_, _) => seen,
    }
}

/// What a look-up of a value sees of no entries.
pub fn see_nothing() -> Seen
    ensures found { result.found ≡ None }
    ensures by { result.by ≡ None }
    ensures passed { result.passed ≡ 0 }
{
    Seen {
        found: None,
        by: None,
        passed: 0,
    }
}

/// The goal that a look-up of a value gives: that of the last value of that name if no Dark entry follows it. `None` if
/// there is no such value and no Dark entry, and otherwise Blur. It takes no memory.
pub fn find_val(list: &[Entry], name: &[u8]) -> Option<Goal>
    ensures { result ≡ pure.find_val (entries list.now) name.now }
{
    let mut seen = see_nothing();
    for entry in list {
        seen = see(seen, entry, name);
    }
    seen.goal()
}

#[tactic(auto, unfolding(crate::specs::View::view_then))]
fn val_named(entry: &Entry, name: &[u8]) -> Option<Goal>
    ensures { result ≡ pure.last_of (pure.vals (view_then entry.now pure.none)) name.now }
{
    match entry {
        Entry::Val(x, goal) => {
            if x.as_bytes() == name {
                Some(*goal)
            } else {
                None
            }
        }
        Entry::Mod(_, _) => None,
        Entry::Mty(_, _) => None,
        Entry::Dark(_) => None,
    }
}

#[tactic(auto, unfolding(crate::specs::View::view_then))]
fn mod_named<'a>(entry: &'a Entry, name: &[u8]) -> Option<&'a Shape>
    ensures { found_shape result ≡ pure.last_of (pure.mods (view_then entry.now pure.none)) name.now }
{
    match entry {
        Entry::Mod(x, shape) => {
            if x.as_bytes() == name {
                Some(shape)
            } else {
                None
            }
        }
        Entry::Val(_, _) => None,
        Entry::Mty(_, _) => None,
        Entry::Dark(_) => None,
    }
}

#[tactic(auto, unfolding(crate::specs::View::view_then))]
fn mty_named<'a>(entry: &'a Entry, name: &[u8]) -> Option<&'a Shape>
    ensures { found_shape result ≡ pure.last_of (pure.mtys (view_then entry.now pure.none)) name.now }
{
    match entry {
        Entry::Mty(x, shape) => {
            if x.as_bytes() == name {
                Some(shape)
            } else {
                None
            }
        }
        Entry::Val(_, _) => None,
        Entry::Mod(_, _) => None,
        Entry::Dark(_) => None,
    }
}

/// The goal of the last value of that name, whatever follows it.
fn last_val(list: &[Entry], name: &[u8]) -> Option<Goal>
    ensures { result ≡ pure.last_of (pure.vals (entries list.now)) name.now }
{
    let mut last = None;
    for entry in list {
        last = val_named(entry, name).or(last);
    }
    last
}

/// The shape of the last module of that name. It takes no memory.
pub fn find_mod<'a>(list: &'a [Entry], name: &[u8]) -> Option<&'a Shape>
    ensures { found_shape result ≡ pure.find_mod (entries list.now) name.now }
{
    let mut last = None;
    for entry in list {
        last = mod_named(entry, name).or(last);
    }
    last
}

/// The shape of the last module type of that name. It takes no memory.
pub fn find_mty<'a>(list: &'a [Entry], name: &[u8]) -> Option<&'a Shape>
    ensures { found_shape result ≡ pure.find_mty (entries list.now) name.now }
{
    let mut last = None;
    for entry in list {
        last = mty_named(entry, name).or(last);
    }
    last
}

/// A step into a shape.
#[tactic(auto, using(crate::proofs::Views::step_struct), unfolding(crate::specs::View::view_shape))]
fn step<'a>(shape: &'a Shape, name: &[u8]) -> Option<&'a Shape>
    ensures { found_shape result ≡ pure.step (view_shape shape.now) name.now }
{
    match shape {
        Shape::Struct(es) => find_mod(es, name),
        Shape::Functor(_, _) => None,
        Shape::Unitary(_) => None,
        Shape::Opaque => None,
    }
}

fn step_from<'a>(at: Option<&'a Shape>, name: &[u8]) -> Option<&'a Shape>
    ensures { found_shape result ≡ pure.step_from (found_shape at.entry) name.now }
{
    match at {
        None => None,
        Some(shape) => step(shape, name),
    }
}

/// The shape at the end of a path inside a shape.
fn step_inside<'a>(start: Option<&'a Shape>, path: &[Name]) -> Option<&'a Shape>
    ensures { found_shape result ≡ pure.inside (found_shape start.entry) path.now }
{
    let mut at = start;
    for name in path {
        at = step_from(at, name.as_bytes());
    }
    at
}

/// The shape at the end of a module path. `None` if the path is empty, its head is unknown, a step is absent, or a step
/// leads into a shape that is no structure. It takes no memory.
pub fn walk<'a>(list: &'a [Entry], path: &[Name]) -> Option<&'a Shape>
    ensures { found_shape result ≡ pure.find_path (entries list.now) path.now }
{
    match path.split_first() {
        None => None,
        Some((head, rest)) => step_inside(find_mod(list, head.as_bytes()), rest),
    }
}

/// Whether no later entry of the list has the kind and name of the entry at `at`; false for a Dark entry. It takes
/// no memory.
#[tactic(auto, using(crate::proofs::Views::shown_rules))]
pub fn visible(list: &[Entry], at: usize) -> bool
    requires { at < length list.now }
    ensures { result ≡ pure.is_shown (entries (drop at list.now)) }
{
    is_shown(&list[at], &list[at + 1..])
}

#[tactic(auto, unfolding(crate::specs::View::view_then))]
fn is_shown(entry: &Entry, rest: &[Entry]) -> bool
    ensures { result ≡ pure.is_shown (view_then entry.now (entries rest.now)) }
{
    match entry {
        Entry::Val(x, _) => match last_val(rest, x.as_bytes()) {
            None => true,
            Some(_) => false,
        },
        Entry::Mod(x, _) => match find_mod(rest, x.as_bytes()) {
            None => true,
            Some(_) => false,
        },
        Entry::Mty(x, _) => match find_mty(rest, x.as_bytes()) {
            None => true,
            Some(_) => false,
        },
        Entry::Dark(_) => false,
    }
}

/// The sum of two weights, or `GREATEST_WEIGHT` if it is more.
pub fn add_capped(a: u64, b: u64) -> u64
    requires { (a ≤ 16777216) × (b ≤ 16777216) }
    ensures { result ≡ pure.capped (a + b) }
{
    (a + b).min(GREATEST_WEIGHT)
}

/// The weight of a shape, or 16,777,216 if it is more. It takes stack at each level of the shape, and no memory.
#[cycle(weighing)]
#[tactic(auto, using(crate::proofs::Weights::weight_rules), unfolding(crate::specs::View::view_shape))]
pub fn weight(shape: &Shape) -> u64
    ensures { result ≡ pure.capped (pure.weight (view_shape shape.now)) }
{
    match shape {
        Shape::Struct(es) => weights(es),
        Shape::Functor(p, r) => add_capped(1, add_capped(weight(p), weight(r))),
        Shape::Unitary(r) => add_capped(1, weight(r)),
        Shape::Opaque => 0,
    }
}

#[cycle(weighing)]
fn weights(list: &[Entry]) -> u64
    ensures { result ≡ pure.capped (pure.weights (entries list.now)) }
{
    let mut sum = 0;
    for entry in list {
        sum = add_capped(sum, weight_of_entry(entry));
    }
    sum
}

#[cycle(weighing)]
#[tactic(auto, using(crate::proofs::Weights::weight_rules), unfolding(crate::specs::View::view_then))]
fn weight_of_entry(entry: &Entry) -> u64
    ensures { result ≡ pure.capped (pure.weights (view_then entry.now pure.none)) }
{
    match entry {
        Entry::Val(_, _) => 1,
        Entry::Mod(_, shape) => add_capped(1, weight(shape)),
        Entry::Mty(_, shape) => add_capped(1, weight(shape)),
        Entry::Dark(_) => 1,
    }
}

/// A copy of a shape. `Memory` is the only error: there is no memory, or the shape is deeper than [`MAX_LEVELS`].
pub fn copy(alloc: Global, shape: &Shape) -> Result<Shape, Memory>
    ensures { IfOk result (λ copied. view_shape copied ≡ view_shape shape.now) }
{
    copy_within(alloc, shape, MAX_LEVELS)
}

/// The levels that are left below this one. If none is left, `Memory`: want of stack is want of memory.
pub fn take_level(levels: usize) -> Result<usize, Memory>
    ensures { IfOk result (λ left. levels ≡ left + 1) }
{
    match levels {
        0 => Err(Memory),
        _ => Ok(levels - 1),
    }
}

#[cycle(copying)]
#[tactic(auto, using(crate::proofs::Views::entries_of), unfolding(crate::specs::View::view_shape))]
fn copy_within(alloc: Global, shape: &Shape, levels: usize) -> Result<Shape, Memory>
    ensures { IfOk result (λ copied. view_shape copied ≡ view_shape shape.now) }
{
    match shape {
        Shape::Struct(es) => Ok(Shape::Struct(copy_entries(alloc, es, levels)?)),
        Shape::Functor(p, r) => {
            let levels = take_level(levels)?;
            let p = Box::new(alloc, copy_within(alloc, p, levels)?)?;
            let r = Box::new(alloc, copy_within(alloc, r, levels)?)?;
            Ok(Shape::Functor(p, r))
        }
        Shape::Unitary(r) => {
            let levels = take_level(levels)?;
            let r = Box::new(alloc, copy_within(alloc, r, levels)?)?;
            Ok(Shape::Unitary(r))
        }
        Shape::Opaque => Ok(Shape::Opaque),
    }
}

#[cycle(copying)]
#[tactic(auto, using(crate::proofs::Views::entries_of), unfolding(crate::specs::View::view_shape))]
fn copy_entries(alloc: Global, list: &[Entry], levels: usize) -> Result<Vec<Entry>, Memory>
    ensures { IfOk result (λ v. entries v.items ≡ entries list.now) }
{
    let mut copied = Vec::new(alloc);
    for entry in list {
        copied.push(copy_entry(alloc, entry, levels)?)?;
    }
    Ok(copied)
}

#[cycle(copying)]
#[tactic(auto, using(crate::proofs::Views::entries_of), unfolding(crate::specs::View::view_shape))]
fn copy_entry(alloc: Global, entry: &Entry, levels: usize) -> Result<Entry, Memory>
    ensures { IfOk result (λ e. view_then e pure.none ≡ view_then entry.now pure.none) }
{
    match entry {
        Entry::Val(x, goal) => Ok(Entry::Val(Name::new(alloc, x.as_bytes())?, *goal)),
        Entry::Mod(x, shape) => {
            let shape = copy_within(alloc, shape, take_level(levels)?)?;
            Ok(Entry::Mod(Name::new(alloc, x.as_bytes())?, shape))
        }
        Entry::Mty(x, shape) => {
            let shape = copy_within(alloc, shape, take_level(levels)?)?;
            Ok(Entry::Mty(Name::new(alloc, x.as_bytes())?, shape))
        }
        Entry::Dark(at) => Ok(Entry::Dark(*at)),
    }
}
