//! The groups of trees, by their events.

ghost use Rattle.std.specs.Prelude.{◌≡◌, ◌++◌, ◌∷◌, [], IfOk, OnOk, true, map, reverse, if◌then◌else◌};
ghost use Rattle.value_sites.specs.Places.{operator_sites};
ghost use Rattle.ml_trees.specs.View.{view_file, view_part_of, view_tok, view_unit};
ghost use Rattle.binding_model.specs.Facts.{decls};
ghost use Rattle.binding_model.specs.Scopes.{here};
ghost use Rattle.binding_model.specs.Walk.{file_number};
ghost use Rattle.group_walk.specs.Groups.{file_groups, maybe_groups, units_groups};
ghost use Rattle.ml_trees.specs.Events.{bindings_begin, part_begins, part_ends};
ghost use Rattle.group_walk.specs.Grouping.{begun, grouping, joined, listed, behind_group, behind_part, behind_parts, declares, grouping_of, hears, is_bar};

use ml_trees::{FileTree, Fixed, UnitTree, Word};
use rotor_base::{Memory, Place, Row};
use std::alloc::Global;
use tree_walk::{Event, Visitor, walk};
use value_sites::operator_of;

/// A group that has begun: the places of its values so far, the groups of the parts of an or-pattern in it, and its
/// position if it is listed already.
#[derive(Drop)]
struct Begun {
    places: Row<Place>,
    parts: Row<Row<Place>>,
    position: Option<usize>,
}

/// The groups of a file that are listed, and those that have begun, the innermost last.
#[derive(Drop)]
struct Groups {
    alloc: Global,
    file: u32,
    found: Vec<Row<Place>>,
    around: Vec<Begun>,
}

impl Groups {
    /// Adds the place of a value that is declared to the innermost group.
    #[tactic(auto, using(crate::proofs::Stacks::stacks))]
    fn declare(&mut self, token: u32) -> Result<(), Memory>
        ensures { OnOk result (grouping_of self.new ≡ grouping self.old.file self.old.found.items (joined (here self.old.file token ∷ []) (reverse self.old.around.items))) }
    {
        match self.around.pop() {
            None => Ok(()),
            Some(mut group) => {
                let place = Place {
                    file: self.file,
                    token,
                };
                group.places.push(place)?;
                self.around.push(group)?;
                Ok(())
            }
        }
    }

    /// The same if the token's word binds.
    fn declare_if(&mut self, binds: bool, token: u32) -> Result<(), Memory>
        ensures { OnOk result (grouping_of self.new ≡ (if binds then grouping self.old.file self.old.found.items (joined (here self.old.file token ∷ []) (reverse self.old.around.items)) else grouping_of self.old)) }
    {
        if binds { self.declare(token) } else { Ok(()) }
    }

    /// The same of an operator: `::`, `<-` and `,` are no values.
    #[tactic(auto, using(crate::proofs::Listed::none_join))]
    fn declare_operator(&mut self, binds: bool, word: &Word) -> Result<(), Memory>
        ensures { OnOk result (grouping_of self.new ≡ (if binds then declares (grouping_of self.old) (operator_sites [] true (view_tok word.now)) else grouping_of self.old)) }
    {
        match operator_of(word) {
            Some(_) => self.declare_if(binds, word.token),
            None => Ok(()),
        }
    }

    /// Begins a group, which is listed already if it has a position.
    #[tactic(auto, using(crate::proofs::Stacks::stacks))]
    fn begin(&mut self, position: Option<usize>) -> Result<(), Memory>
        ensures { OnOk result (grouping_of self.new ≡ grouping self.old.file self.old.found.items (begun [] [] position ∷ reverse self.old.around.items)) }
    {
        let group = Begun {
            places: Row::new(self.alloc),
            parts: Row::new(self.alloc),
            position,
        };
        self.around.push(group)?;
        Ok(())
    }

    /// Begins the group of a `let`, which is listed from here on.
    fn begin_bindings(&mut self) -> Result<(), Memory>
        ensures { OnOk result (grouping_of self.new ≡ hears (grouping_of self.old) bindings_begin) }
    {
        let position = self.found.len();
        self.found.push(Row::new(self.alloc))?;
        self.begin(Some(position))
    }

    /// Begins a part of a pattern behind a word.
    fn begin_part(&mut self, sign: Fixed) -> Result<(), Memory>
        ensures { OnOk result (grouping_of self.new ≡ hears (grouping_of self.old) (part_begins sign)) }
    {
        if is_bar(sign) {
            self.begin(None)
        } else {
            Ok(())
        }
    }

    /// Lists a group: at its position if it has one, and else behind those that are listed.
    fn list(&mut self, position: Option<usize>, places: Row<Place>) -> Result<(), Memory>
        ensures { OnOk result (grouping_of self.new ≡ grouping self.old.file (listed position places self.old.found.items) (reverse self.old.around.items)) }
    {
        match position {
            None => self.found.push(places)?,
            Some(at) => {
                if at < self.found.len() {
                    self.found[at] = places;
                }
            }
        }
        Ok(())
    }

    /// Ends the innermost group.
    #[tactic(auto, using(crate::proofs::Stacks::stacks))]
    fn end(&mut self) -> Result<(), Memory>
        ensures { OnOk result (grouping_of self.new ≡ behind_group self.old.file self.old.found.items (reverse self.old.around.items)) }
    {
        match self.around.pop() {
            None => Ok(()),
            Some(group) => {
                let Begun {
                    places,
                    parts: _,
                    position,
                } = group;
                self.list(position, places)
            }
        }
    }

    /// Ends a part of a pattern behind a word.
    fn end_part(&mut self, sign: Fixed) -> Result<(), Memory>
        ensures { OnOk result (grouping_of self.new ≡ hears (grouping_of self.old) (part_ends sign)) }
    {
        if is_bar(sign) {
            self.put_aside()
        } else {
            Ok(())
        }
    }

    /// Ends a part of an or-pattern, whose group waits for the end of the or-pattern.
    #[tactic(auto, using(crate::proofs::Stacks::stacks))]
    fn put_aside(&mut self) -> Result<(), Memory>
        ensures { OnOk result (grouping_of self.new ≡ behind_part self.old.file self.old.found.items (reverse self.old.around.items)) }
    {
        let Some(part) = self.around.pop() else {
            return Ok(());
        };
        match self.around.pop() {
            None => self.around.push(part)?,
            Some(mut group) => {
                group.parts.push(part.places)?;
                self.around.push(group)?;
            }
        }
        Ok(())
    }

    /// Ends an or-pattern, and lists the groups of its parts.
    #[tactic(auto, using(crate::proofs::Stacks::stacks))]
    fn end_parts(&mut self) -> Result<(), Memory>
        ensures { OnOk result (grouping_of self.new ≡ behind_parts self.old.file self.old.found.items (reverse self.old.around.items)) }
    {
        match self.around.pop() {
            None => Ok(()),
            Some(group) => {
                let Begun {
                    places,
                    parts,
                    position,
                } = group;
                add_all(&mut self.found, parts)?;
                let group = Begun {
                    places,
                    parts: Row::new(self.alloc),
                    position,
                };
                self.around.push(group)?;
                Ok(())
            }
        }
    }
}

impl Visitor for Groups {
    ghost use Rattle.group_walk.specs.Grouping.{Grouping, grouping_of, hears};

    ghost State = { Grouping };

    ghost state = { grouping_of };

    ghost step = { hears };

    #[tactic(auto, using(crate::proofs::Stacks::stacks))]
    fn hear(&mut self, event: Event<'_>) -> Result<(), Memory> {
        match event {
            Event::Plain { binds, word } => self.declare_if(binds, word.token),
            Event::Operator { binds, word, .. } => self.declare_operator(binds, word),
            Event::Field { binds, word } => self.declare_if(binds, word.token),
            Event::Label { binds, word } => self.declare_if(binds, word.token),
            Event::BindingsBegin => self.begin_bindings(),
            Event::GroupBegins => self.begin(None),
            Event::GroupEnds => self.end(),
            Event::PartBegins(sign) => self.begin_part(sign),
            Event::PartEnds(sign) => self.end_part(sign),
            Event::AlternativesEnd => self.end_parts(),
            Event::Infix(_) => Ok(()),
            Event::Separator(_) => Ok(()),
            Event::Prefix(_) => Ok(()),
            Event::Minus(_) => Ok(()),
            Event::ModulePath(_) => Ok(()),
            Event::LastPath(_) => Ok(()),
            Event::Qualifier(_) => Ok(()),
            Event::ScopeBegins => Ok(()),
            Event::ScopeEnds => Ok(()),
            Event::Brings(_) => Ok(()),
        }
    }
}

/// Whether a word begins a part of an or-pattern.
fn is_bar(sign: Fixed) -> bool
    ensures { result ≡ is_bar sign }
{
    match sign {
        Fixed::Bar => true,
        _ => false,
    }
}

/// Adds groups behind others.
fn add_all(list: &mut Vec<Row<Place>>, more: Row<Row<Place>>) -> Result<(), Memory>
    ensures { OnOk result (list.new.items ≡ list.old.items ++ more) }
{
    for group in more.into_vec() {
        list.push(group)?;
    }
    Ok(())
}

/// The number of a file.
fn number_of(tree: &FileTree) -> u32
    ensures { result ≡ file_number (view_file tree.now) }
{
    match tree {
        FileTree::Body(file, _) => *file,
        FileTree::Face(file, _) => *file,
    }
}

/// Groups, and behind them those of a file.
#[tactic(auto, using(crate::proofs::Grouped::file_grouped))]
fn add_file(
    alloc: Global,
    found: Vec<Row<Place>>,
    tree: &FileTree,
) -> Result<Vec<Row<Place>>, Memory>
    ensures { IfOk result (λ groups. groups.items ≡ found.items ++ map decls (file_groups (view_file tree.now))) }
{
    let mut groups = Groups {
        alloc,
        file: number_of(tree),
        found,
        around: Vec::new(alloc),
    };
    walk(&mut groups, tree)?;
    Ok(groups.found)
}

/// Groups, and behind them those of a part of a unit.
#[tactic(auto, using(crate::proofs::Listed::none_listed))]
fn add_part(
    alloc: Global,
    found: Vec<Row<Place>>,
    part: &Option<FileTree>,
) -> Result<Vec<Row<Place>>, Memory>
    ensures { IfOk result (λ groups. groups.items ≡ found.items ++ map decls (maybe_groups (view_part_of part.now))) }
{
    match part {
        Some(tree) => add_file(alloc, found, tree),
        None => Ok(found),
    }
}

/// The groups of units, in the order of their trees.
///
/// # Errors
///
/// `Memory` alone.
#[tactic(auto, using(crate::proofs::Listed::two_joined))]
pub fn units(alloc: Global, list: &[UnitTree]) -> Result<Row<Row<Place>>, Memory>
    ensures { IfOk result (λ groups. groups ≡ map decls (units_groups (map view_unit list.now))) }
{
    let mut found = Vec::new(alloc);
    for tree in list {
        found = add_part(alloc, found, &tree.body)?;
        found = add_part(alloc, found, &tree.face)?;
    }
    Ok(Row::from_vec(found))
}
