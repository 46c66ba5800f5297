//! The steps of rules.

use crate::rule::Rule;
use ml_trees::Fixed;
use rotor_base::Class;

/// What a token has to be.
#[derive(Clone, Copy, Debug, PartialEq, Eq)]
pub(crate) enum Want {
    Fixed(Fixed),
    Class(Class),
    /// A binary operator of this level.
    Level(u32),
    /// `:=`
    Assigns,
    /// An operator that may be in parentheses.
    Operator,
    /// `-` or `-.`
    Minus,
    /// `!`
    Bang,
    /// A label with a colon.
    NamedLabel,
    /// A label with a question mark and a colon.
    OptionalLabel,
    /// A label without a colon.
    PunLabel,
    /// A constant.
    Literal,
    Number,
    /// A word of a type outside its brackets.
    BesideType,
    /// A word of a type inside its brackets.
    InsideType,
    /// A word of a declaration.
    InsideDeclaration,
}

/// What is read so far ends in an expression of this kind.
#[derive(Clone, Copy, Debug, PartialEq, Eq)]
pub(crate) enum Trait {
    /// `let`, `fun`, `function`, `match` or `try`.
    Low,
    /// `if`
    If,
    /// `if` without `else`.
    NoElse,
    /// The cases of `function`, `match` or `try`.
    Cases,
}

/// What is read last, as a whole.
#[derive(Clone, Copy, Debug, PartialEq, Eq)]
pub(crate) enum Form {
    Plain,
    /// A constructor without an argument.
    Constructor,
    /// A constructor behind a prefix.
    PrefixedConstructor,
    /// A tag without an argument.
    Tag,
    /// Something with parts, as a field.
    Parts,
}

/// A step of a rule. The steps of a rule are read one behind the other; `Or` separates what is tried in turn.
#[derive(Clone, Copy, Debug, PartialEq, Eq)]
pub(crate) enum Step {
    /// The token is this, and is passed.
    Take(Want),
    /// The token is not this.
    Without(Want),
    /// The token behind the next one is this.
    Next(Want),
    /// The token is looked at.
    Look,
    /// The rule is read.
    Read(Rule),
    /// The rule is read, if it can be.
    Maybe(Rule),
    /// The rule is read as often as it can be.
    Many(Rule),
    /// What is read so far does not end so.
    Unless(Trait),
    /// What is read so far ends so.
    Mark(Trait),
    /// What is read last is this.
    Is(Form),
    /// What is read last is made this.
    Form(Form),
    /// The end of what is tried.
    Or,
}
