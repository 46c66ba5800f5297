use crate::expression::{Binding, Expr};
use crate::word::{Path, Run, ValueName, Word};

/// A module expression (the manual's chapter on module expressions). `at` is the token of its first word, if that word
/// is fixed.
#[cycle(module)]
pub enum ModExpr {
    ModPath(Path),
    Struct {
        at: u32,
        items: Vec<Item>,
    },
    Functor {
        at: u32,
        params: Vec<FunctorParam>,
        body: Box<ModExpr>,
    },
    Apply {
        function: Box<ModExpr>,
        arguments: Vec<ModArgument>,
    },
    Paren {
        at: u32,
        body: Box<ModExpr>,
    },
    /// A module and its type in parentheses.
    Sealed {
        at: u32,
        body: Box<ModExpr>,
        signature: Box<ModType>,
    },
}

/// An argument of a functor, whose `(` is `open`.
#[cycle(module)]
pub enum ModArgument {
    Given {
        open: u32,
        module: ModExpr,
    },
    SealedModule {
        open: u32,
        module: ModExpr,
        signature: ModType,
    },
    Nothing {
        open: u32,
    },
}

/// A parameter of a functor, whose `(` is `open`.
#[cycle(module)]
pub enum FunctorParam {
    Named {
        open: u32,
        name: ModuleName,
        signature: ModType,
    },
    NoParam {
        open: u32,
    },
}

/// The name of a module, or `_`.
#[derive(Debug, Drop)]
pub enum ModuleName {
    Upper(Word),
    Any { at: u32 },
}

/// A module type (the manual's chapter on module types).
#[cycle(module)]
pub enum ModType {
    TypePath(Path),
    Sig {
        at: u32,
        items: Vec<SigItem>,
    },
    /// `module type of`
    TypeOf {
        at: u32,
        module: Box<ModExpr>,
    },
    TypeParen {
        at: u32,
        body: Box<ModType>,
    },
    /// A module type and each `with`.
    With {
        body: Box<ModType>,
        clauses: Vec<WithClause>,
    },
    /// `functor`, parameters, `->` and the result.
    FunctorType {
        at: u32,
        params: Vec<FunctorParam>,
        result: Box<ModType>,
    },
    /// A parameter, `->` and the result.
    ParamArrow {
        param: Box<FunctorParam>,
        result: Box<ModType>,
    },
    /// A parameter without a name, `->` and the result.
    Arrow {
        param: Box<ModType>,
        result: Box<ModType>,
    },
}

/// A `with` and its constraints between `and`.
#[derive(Drop)]
pub struct WithClause {
    pub first: Constraint,
    pub rest: Vec<Constraint>,
}

/// `type`, a type, `=` or `:=`, with or without `private`, and a type.
#[derive(Drop)]
pub struct Constraint {
    pub left: Run,
    pub sign: Word,
    pub private: bool,
    pub right: Run,
}

/// An item of a structure.
#[cycle(module)]
pub enum Item {
    Expression(Expr),
    /// `;;`
    Separator,
    Value {
        at: u32,
        recursive: bool,
        first: Binding,
        rest: Vec<Binding>,
    },
    External(External),
    Type(Run),
    Exception {
        at: u32,
        run: Run,
    },
    Module {
        at: u32,
        name: ModuleName,
        params: Vec<FunctorParam>,
        signature: Option<Box<ModType>>,
        equals: u32,
        body: ModExpr,
    },
    ModuleType {
        at: u32,
        name: Word,
        equals: u32,
        signature: ModType,
    },
    Open(Open),
    Include {
        at: u32,
        module: ModExpr,
    },
}

/// An item of a signature.
#[cycle(module)]
pub enum SigItem {
    SigSeparator,
    Val {
        name: ValueName,
        run: Run,
    },
    SigExternal(External),
    SigType(Run),
    SigException {
        at: u32,
        run: Run,
    },
    SigModule {
        at: u32,
        name: ModuleName,
        params: Vec<FunctorParam>,
        signature: ModType,
    },
    Alias {
        at: u32,
        name: Word,
        equals: u32,
        path: Path,
    },
    SigModuleType {
        at: u32,
        name: Word,
        equals: u32,
        signature: ModType,
    },
    SigOpen(Open),
    SigInclude {
        at: u32,
        signature: ModType,
    },
}

/// `external`, a name, its type, `=` and one text or more.
#[derive(Drop)]
pub struct External {
    pub name: ValueName,
    pub run: Run,
    pub equals: u32,
    pub texts: Vec<Word>,
}

/// `open`, with or without `!`, and a module path.
#[derive(Drop)]
pub struct Open {
    pub at: u32,
    pub bang: Option<Word>,
    pub path: Path,
}

/// The tree of a file, with the file's number: a body or an interface.
pub enum FileTree {
    Body(u32, Vec<Item>),
    Face(u32, Vec<SigItem>),
}

/// A unit, with a body, an interface or both.
pub struct UnitTree {
    pub name: rotor_base::Name,
    pub body: Option<FileTree>,
    pub face: Option<FileTree>,
}

/// The units in link order.
pub struct Project {
    pub units: Vec<UnitTree>,
}

impl Drop for ModExpr {
    #[cycle(module)]
    fn drop(self) {
        match self {
            ModExpr::ModPath(_) => {}
            ModExpr::Struct { at: _, items: _ } => {}
            ModExpr::Functor {
                at: _,
                params: _,
                body: _,
            } => {}
            ModExpr::Apply {
                function: _,
                arguments: _,
            } => {}
            ModExpr::Paren { at: _, body: _ } => {}
            ModExpr::Sealed {
                at: _,
                body: _,
                signature: _,
            } => {}
        }
    }
}

impl Drop for ModArgument {
    #[cycle(module)]
    fn drop(self) {
        match self {
            ModArgument::Given { open: _, module: _ } => {}
            ModArgument::SealedModule {
                open: _,
                module: _,
                signature: _,
            } => {}
            ModArgument::Nothing { open: _ } => {}
        }
    }
}

impl Drop for FunctorParam {
    #[cycle(module)]
    fn drop(self) {
        match self {
            FunctorParam::Named {
                open: _,
                name: _,
                signature: _,
            } => {}
            FunctorParam::NoParam { open: _ } => {}
        }
    }
}

impl Drop for ModType {
    #[cycle(module)]
    fn drop(self) {
        match self {
            ModType::TypePath(_) => {}
            ModType::Sig { at: _, items: _ } => {}
            ModType::TypeOf { at: _, module: _ } => {}
            ModType::TypeParen { at: _, body: _ } => {}
            ModType::With {
                body: _,
                clauses: _,
            } => {}
            ModType::FunctorType {
                at: _,
                params: _,
                result: _,
            } => {}
            ModType::ParamArrow {
                param: _,
                result: _,
            } => {}
            ModType::Arrow {
                param: _,
                result: _,
            } => {}
        }
    }
}

impl Drop for Item {
    #[cycle(module)]
    fn drop(self) {
        match self {
            Item::Expression(_) => {}
            Item::Separator => {}
            Item::Value {
                at: _,
                recursive: _,
                first: _,
                rest: _,
            } => {}
            Item::External(_) => {}
            Item::Type(_) => {}
            Item::Exception { at: _, run: _ } => {}
            Item::Module {
                at: _,
                name: _,
                params: _,
                signature: _,
                equals: _,
                body: _,
            } => {}
            Item::ModuleType {
                at: _,
                name: _,
                equals: _,
                signature: _,
            } => {}
            Item::Open(_) => {}
            Item::Include { at: _, module: _ } => {}
        }
    }
}

impl Drop for SigItem {
    #[cycle(module)]
    fn drop(self) {
        match self {
            SigItem::SigSeparator => {}
            SigItem::Val { name: _, run: _ } => {}
            SigItem::SigExternal(_) => {}
            SigItem::SigType(_) => {}
            SigItem::SigException { at: _, run: _ } => {}
            SigItem::SigModule {
                at: _,
                name: _,
                params: _,
                signature: _,
            } => {}
            SigItem::Alias {
                at: _,
                name: _,
                equals: _,
                path: _,
            } => {}
            SigItem::SigModuleType {
                at: _,
                name: _,
                equals: _,
                signature: _,
            } => {}
            SigItem::SigOpen(_) => {}
            SigItem::SigInclude {
                at: _,
                signature: _,
            } => {}
        }
    }
}

impl Drop for FileTree {
    fn drop(self) {
        match self {
            FileTree::Body(_, _) => {}
            FileTree::Face(_, _) => {}
        }
    }
}

impl Drop for UnitTree {
    fn drop(self) {
        let UnitTree {
            name: _,
            body: _,
            face: _,
        } = self;
    }
}

impl Drop for Project {
    fn drop(self) {
        let Project { units: _ } = self;
    }
}
