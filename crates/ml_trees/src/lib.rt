//! The trees of the language, the events and the words of a tree, and which trees are well formed.
#![tactic(auto)]

mod expression;
mod fixed;
mod module;
mod pattern;
mod word;

pub use expression::{
    Argument, Binding, Branch, Case, Expr, Field, LocalArgument, LocalModule, Param, Part, Variable,
};
pub use fixed::{Fixed, fixed_word};
pub use module::{
    Constraint, External, FileTree, FunctorParam, Item, ModArgument, ModExpr, ModType, ModuleName,
    Open, Project, SigItem, UnitTree, WithClause,
};
pub use pattern::{Pat, PatField};
pub use word::{Bracket, Path, Run, ValueName, Word};
