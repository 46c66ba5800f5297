//! What a walk reports, and who hears it.

ghost use Rattle.std.specs.Prelude.{◌≡◌, OnOk};
ghost use Rattle.ml_trees.specs.Events as pure;
ghost use Rattle.tree_walk.specs.Heard.{view_event};

use ml_trees::{Fixed, Word};
use rotor_base::Memory;

/// A phrase of a tree, or where a group, a part or a scope begins or ends.
#[derive(Clone, Copy)]
pub enum Event<'a> {
    /// A lower-case name of a value, which is declared or used.
    Plain {
        binds: bool,
        word: &'a Word,
    },
    /// An operator in parentheses, which is declared or used.
    Operator {
        binds: bool,
        open: u32,
        word: &'a Word,
    },
    /// A name of a value that is a field too.
    Field {
        binds: bool,
        word: &'a Word,
    },
    /// A name of a value that is a label too.
    Label {
        binds: bool,
        word: &'a Word,
    },
    /// An operator between operands.
    Infix(&'a Word),
    /// A `;` or `,` between operands.
    Separator(Fixed),
    /// An operator before its operand.
    Prefix(&'a Word),
    /// A sign before its operand.
    Minus(&'a Word),
    /// The path of a module.
    ModulePath(&'a [Word]),
    /// The path of something in a module.
    LastPath(&'a [Word]),
    /// The path of a module with a `.` behind it, or nothing.
    Qualifier(&'a [Word]),
    /// The values that the parts of a `let` declare are a group, which is listed where it begins.
    BindingsBegin,
    /// The values that are declared from here on are a group, which is listed where it ends.
    GroupBegins,
    GroupEnds,
    /// A part of a pattern behind this word: behind a `|` its values are a group.
    PartBegins(Fixed),
    PartEnds(Fixed),
    /// The end of an or-pattern, where the groups of its parts are listed.
    AlternativesEnd,
    /// The modules that are bound from here on are bound up to the end of the scope.
    ScopeBegins,
    ScopeEnds,
    /// From here on a module of this name is bound.
    Brings(&'a Word),
}

/// What hears the events of a tree.
pub trait Visitor {
    /// What a contract says of a visitor.
    ghost State: { Type 0 };

    /// That of this one.
    ghost state: { Self → State };

    /// What an event makes of it.
    ghost step: { State → pure.Event → State };

    /// Hears an event.
    ///
    /// # Errors
    ///
    /// `Memory` alone.
    fn hear(&mut self, event: Event<'_>) -> Result<(), Memory>
        ensures { OnOk result (state self.new ≡ step (state self.old) (view_event event.entry)) };
}
