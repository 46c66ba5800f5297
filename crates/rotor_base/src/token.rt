/// The classes of lexemes (the manual's chapter on lexical conventions).
#[derive(Clone, Copy, Debug, PartialEq, Eq)]
pub enum Class {
    Lower,
    Upper,
    Keyword,
    Int,
    Float,
    Char,
    Text,
    Quoted,
    TypeVar,
    Tag,
    Label,
    Prefix,
    Infix,
    Mark,
}

/// A lexeme: its class, its bytes, and their span in the source, from `start` up to `end`.
#[derive(Clone, Copy, Debug)]
pub struct Token<'a> {
    pub class: Class,
    pub start: u32,
    pub end: u32,
    pub bytes: &'a [u8],
}

/// The kinds of forms that are refused by their tokens.
#[derive(Clone, Copy, Debug, PartialEq, Eq)]
pub enum FormKind {
    Object,
    Package,
    RecModule,
    AbsModType,
    WithModule,
    LocalModule,
    OpenStruct,
    Extension,
    BindOp,
    Hash,
    AmpOr,
}
