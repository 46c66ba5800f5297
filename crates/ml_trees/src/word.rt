use rotor_base::{Class, Name};

/// A word that has a text of its own: its token, from 1, its class and its bytes.
#[derive(Debug, Drop)]
pub struct Word {
    pub token: u32,
    pub class: Class,
    pub name: Name,
}

/// Names of modules with a `.` between them, one or more. The path of a constructor or of a module.
#[derive(Debug, Drop)]
pub struct Path {
    pub words: Vec<Word>,
}

/// The tokens of a type or of a declaration.
#[derive(Debug, Drop)]
pub struct Run {
    pub words: Vec<Word>,
}

/// The name of a value: a lower-case name, or an operator in parentheses.
#[derive(Debug, Drop)]
pub enum ValueName {
    Lower(Word),
    /// `open` is the token of the `(`.
    Operator { open: u32, word: Word },
}

/// The brackets of a list or of an array.
#[derive(Clone, Copy, Debug, PartialEq, Eq)]
pub enum Bracket {
    List,
    Array,
}
