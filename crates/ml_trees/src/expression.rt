use crate::pattern::Pat;
use crate::word::{Bracket, Path, Run, ValueName, Word};

/// An expression (the manual's chapter on expressions). `at` is the token of its first word, if that word is fixed.
/// Other fixed words that have a place, as the `=` of a binding, have fields of their own.
#[cycle(expression)]
pub enum Expr {
    /// Expressions between `;`, with or without a last `;`.
    Seq {
        first: Box<Expr>,
        rest: Vec<Expr>,
        last: bool,
    },
    /// `let` with bindings between `and`, then `in`.
    Let {
        at: u32,
        recursive: bool,
        first: Box<Binding>,
        rest: Vec<Binding>,
        body: Box<Expr>,
    },
    /// `let open`, with or without `!`.
    LetOpen {
        at: u32,
        open: u32,
        bang: Option<Word>,
        path: Path,
        body: Box<Expr>,
    },
    /// `let module`.
    LetModule {
        at: u32,
        module: u32,
        name: Word,
        equals: u32,
        value: LocalModule,
        body: Box<Expr>,
    },
    Fun {
        at: u32,
        params: Vec<Param>,
        body: Box<Expr>,
    },
    /// `function` with cases between `|`. `bar` says whether one precedes the first.
    Function {
        at: u32,
        bar: bool,
        first: Box<Case>,
        rest: Vec<Case>,
    },
    Match {
        at: u32,
        subject: Box<Expr>,
        bar: bool,
        first: Box<Case>,
        rest: Vec<Case>,
    },
    Try {
        at: u32,
        subject: Box<Expr>,
        bar: bool,
        first: Box<Case>,
        rest: Vec<Case>,
    },
    /// `if`, each `else if`, and the last `else`.
    If {
        at: u32,
        test: Box<Expr>,
        then: Box<Expr>,
        more: Vec<Branch>,
        otherwise: Option<Box<Expr>>,
    },
    /// Operands between `:=` or `<-`.
    Assign {
        first: Box<Expr>,
        rest: Vec<(Word, Expr)>,
    },
    /// Operands between `,`.
    Tuple {
        first: Box<Expr>,
        rest: Vec<Expr>,
    },
    /// Operands between the operators of one level, from 5 to 12.
    Chain {
        level: u32,
        first: Box<Expr>,
        rest: Vec<(Word, Expr)>,
    },
    /// A prefix `-` or `-.`
    Minus {
        sign: Word,
        operand: Box<Expr>,
    },
    Apply {
        function: Box<Expr>,
        arguments: Vec<Argument>,
    },
    /// A constructor with an argument.
    ConstrApply {
        path: Path,
        argument: Box<Expr>,
    },
    /// A tag with an argument.
    TagApply {
        tag: Word,
        argument: Box<Expr>,
    },
    Assert {
        at: u32,
        argument: Box<Expr>,
    },
    Lazy {
        at: u32,
        argument: Box<Expr>,
    },
    /// An expression and the parts after it, each with a `.`
    Postfix {
        base: Box<Expr>,
        parts: Vec<Part>,
    },
    Prefixed {
        operator: Word,
        operand: Box<Expr>,
    },
    /// A number, character or text.
    Literal(Word),
    /// `true` or `false`
    Bool {
        at: u32,
        value: bool,
    },
    /// A value, after the names of modules, each with a `.`
    Value {
        path: Vec<Word>,
        name: ValueName,
    },
    Constr(Path),
    Tag(Word),
    /// `( )`
    Unit {
        at: u32,
    },
    /// An expression in parentheses.
    Paren {
        at: u32,
        body: Box<Expr>,
    },
    /// An expression and its type in parentheses.
    Typed {
        at: u32,
        body: Box<Expr>,
        run: Run,
    },
    /// An expression, its type or none, `:>` and a type, in parentheses.
    Coerced {
        at: u32,
        body: Box<Expr>,
        from: Option<Run>,
        to: Run,
    },
    /// `begin end`
    EmptyBegin {
        at: u32,
    },
    /// `begin`, an expression and `end`.
    Begin {
        at: u32,
        body: Box<Expr>,
    },
    /// `[ ]` or `[| |]`
    Empty {
        at: u32,
        bracket: Bracket,
    },
    /// A list or an array, with or without a last `;`.
    List {
        at: u32,
        bracket: Bracket,
        first: Box<Expr>,
        rest: Vec<Expr>,
        last: bool,
    },
    /// A record, with or without an expression before `with`, and with or without a last `;`.
    Record {
        at: u32,
        base: Option<Box<Expr>>,
        first: Box<Field>,
        rest: Vec<Field>,
        last: bool,
    },
    /// A module path, a `.` and a bracketed expression.
    Opened {
        path: Path,
        body: Box<Expr>,
    },
    While {
        at: u32,
        test: Box<Expr>,
        body: Box<Expr>,
    },
    /// `for` with its variable, `=`, the first bound, `to` or `downto`, and the last bound.
    For {
        at: u32,
        variable: Variable,
        equals: u32,
        from: Box<Expr>,
        down: bool,
        to: Box<Expr>,
        body: Box<Expr>,
    },
}

/// The variable of a `for`: a name, or `_`.
#[derive(Debug, Drop)]
pub enum Variable {
    Lower(Word),
    Any { at: u32 },
}

/// A part of a `let`.
#[cycle(expression)]
pub enum Binding {
    /// A pattern, its type or none, `=` and an expression.
    Plain {
        pat: Pat,
        run: Option<Run>,
        equals: u32,
        value: Expr,
    },
    /// A function's name, parameters, type or none, `=` and body.
    Applied {
        name: ValueName,
        params: Vec<Param>,
        run: Option<Run>,
        equals: u32,
        value: Expr,
    },
}

/// A case: a pattern, a guard or none, and a body.
#[cycle(expression)]
pub struct Case {
    pub pat: Pat,
    pub guard: Option<Box<Expr>>,
    pub body: Expr,
}

/// An `else if`, whose `if` is `at`.
#[cycle(expression)]
pub struct Branch {
    pub at: u32,
    pub test: Expr,
    pub then: Expr,
}

/// An argument.
#[cycle(expression)]
pub enum Argument {
    Positional(Expr),
    /// A label without a colon, which is a value of that name too.
    LabelPun(Word),
    /// A label with a colon, and its value.
    Labelled { label: Word, value: Expr },
}

/// A parameter.
#[cycle(expression)]
pub enum Param {
    Pattern(Pat),
    /// A label without a colon, which binds a variable of that name.
    Label(Word),
    /// A label with a colon, and a pattern.
    LabelPattern {
        label: Word,
        pat: Pat,
    },
    /// An optional label with a colon, and in parentheses a pattern, its type or none, `=` and a default value.
    Default {
        label: Word,
        open: u32,
        pat: Pat,
        run: Option<Run>,
        equals: u32,
        value: Expr,
    },
    /// `~` or `?`, and in parentheses a label that binds a variable of its name, and its type or none.
    Wrapped {
        at: u32,
        optional: bool,
        open: u32,
        name: Word,
        run: Option<Run>,
    },
    /// `?`, and in parentheses such a label, its type or none, `=` and a default value.
    WrappedDefault {
        at: u32,
        open: u32,
        name: Word,
        run: Option<Run>,
        equals: u32,
        value: Expr,
    },
    /// `( type` and names of types `)`.
    Types {
        open: u32,
        names: Vec<Word>,
    },
}

/// A part after a `.`
#[cycle(expression)]
pub enum Part {
    /// A field's name, after the names of modules, each with a `.`
    Select { path: Vec<Word>, label: Word },
    /// An expression in parentheses.
    Index { open: u32, index: Expr },
    /// An expression in brackets.
    CharIndex { open: u32, index: Expr },
}

/// A field of a record.
#[cycle(expression)]
pub enum Field {
    /// A field whose value is the variable of its name.
    FieldPun {
        path: Vec<Word>,
        label: Word,
        run: Option<Run>,
    },
    /// A field with a value.
    Assigned {
        path: Vec<Word>,
        label: Word,
        run: Option<Run>,
        equals: u32,
        value: Expr,
    },
}

/// The module of a `let module`: a path, and the arguments after it.
#[cycle(local)]
pub struct LocalModule {
    pub path: Path,
    pub arguments: Vec<LocalArgument>,
}

/// An argument of it, in parentheses, or none.
#[cycle(local)]
pub enum LocalArgument {
    Module { open: u32, module: LocalModule },
    Nothing { open: u32 },
}

impl Drop for Expr {
    #[cycle(expression)]
    fn drop(self) {
        match self {
            Expr::Seq {
                first: _,
                rest: _,
                last: _,
            } => {}
            Expr::Let {
                at: _,
                recursive: _,
                first: _,
                rest: _,
                body: _,
            } => {}
            Expr::LetOpen {
                at: _,
                open: _,
                bang: _,
                path: _,
                body: _,
            } => {}
            Expr::LetModule {
                at: _,
                module: _,
                name: _,
                equals: _,
                value: _,
                body: _,
            } => {}
            Expr::Fun {
                at: _,
                params: _,
                body: _,
            } => {}
            Expr::Function {
                at: _,
                bar: _,
                first: _,
                rest: _,
            } => {}
            Expr::Match {
                at: _,
                subject: _,
                bar: _,
                first: _,
                rest: _,
            } => {}
            Expr::Try {
                at: _,
                subject: _,
                bar: _,
                first: _,
                rest: _,
            } => {}
            Expr::If {
                at: _,
                test: _,
                then: _,
                more: _,
                otherwise: _,
            } => {}
            Expr::Assign { first: _, rest: _ } => {}
            Expr::Tuple { first: _, rest: _ } => {}
            Expr::Chain {
                level: _,
                first: _,
                rest: _,
            } => {}
            Expr::Minus {
                sign: _,
                operand: _,
            } => {}
            Expr::Apply {
                function: _,
                arguments: _,
            } => {}
            Expr::ConstrApply {
                path: _,
                argument: _,
            } => {}
            Expr::TagApply {
                tag: _,
                argument: _,
            } => {}
            Expr::Assert { at: _, argument: _ } => {}
            Expr::Lazy { at: _, argument: _ } => {}
            Expr::Postfix { base: _, parts: _ } => {}
            Expr::Prefixed {
                operator: _,
                operand: _,
            } => {}
            Expr::Literal(_) => {}
            Expr::Bool { at: _, value: _ } => {}
            Expr::Value { path: _, name: _ } => {}
            Expr::Constr(_) => {}
            Expr::Tag(_) => {}
            Expr::Unit { at: _ } => {}
            Expr::Paren { at: _, body: _ } => {}
            Expr::Typed {
                at: _,
                body: _,
                run: _,
            } => {}
            Expr::Coerced {
                at: _,
                body: _,
                from: _,
                to: _,
            } => {}
            Expr::EmptyBegin { at: _ } => {}
            Expr::Begin { at: _, body: _ } => {}
            Expr::Empty { at: _, bracket: _ } => {}
            Expr::List {
                at: _,
                bracket: _,
                first: _,
                rest: _,
                last: _,
            } => {}
            Expr::Record {
                at: _,
                base: _,
                first: _,
                rest: _,
                last: _,
            } => {}
            Expr::Opened { path: _, body: _ } => {}
            Expr::While {
                at: _,
                test: _,
                body: _,
            } => {}
            Expr::For {
                at: _,
                variable: _,
                equals: _,
                from: _,
                down: _,
                to: _,
                body: _,
            } => {}
        }
    }
}

impl Drop for Binding {
    #[cycle(expression)]
    fn drop(self) {
        match self {
            Binding::Plain {
                pat: _,
                run: _,
                equals: _,
                value: _,
            } => {}
            Binding::Applied {
                name: _,
                params: _,
                run: _,
                equals: _,
                value: _,
            } => {}
        }
    }
}

impl Drop for Case {
    #[cycle(expression)]
    fn drop(self) {
        let Case {
            pat: _,
            guard: _,
            body: _,
        } = self;
    }
}

impl Drop for Branch {
    #[cycle(expression)]
    fn drop(self) {
        let Branch {
            at: _,
            test: _,
            then: _,
        } = self;
    }
}

impl Drop for Argument {
    #[cycle(expression)]
    fn drop(self) {
        match self {
            Argument::Positional(_) => {}
            Argument::LabelPun(_) => {}
            Argument::Labelled { label: _, value: _ } => {}
        }
    }
}

impl Drop for Param {
    #[cycle(expression)]
    fn drop(self) {
        match self {
            Param::Pattern(_) => {}
            Param::Label(_) => {}
            Param::LabelPattern { label: _, pat: _ } => {}
            Param::Default {
                label: _,
                open: _,
                pat: _,
                run: _,
                equals: _,
                value: _,
            } => {}
            Param::Wrapped {
                at: _,
                optional: _,
                open: _,
                name: _,
                run: _,
            } => {}
            Param::WrappedDefault {
                at: _,
                open: _,
                name: _,
                run: _,
                equals: _,
                value: _,
            } => {}
            Param::Types { open: _, names: _ } => {}
        }
    }
}

impl Drop for Part {
    #[cycle(expression)]
    fn drop(self) {
        match self {
            Part::Select { path: _, label: _ } => {}
            Part::Index { open: _, index: _ } => {}
            Part::CharIndex { open: _, index: _ } => {}
        }
    }
}

impl Drop for Field {
    #[cycle(expression)]
    fn drop(self) {
        match self {
            Field::FieldPun {
                path: _,
                label: _,
                run: _,
            } => {}
            Field::Assigned {
                path: _,
                label: _,
                run: _,
                equals: _,
                value: _,
            } => {}
        }
    }
}

impl Drop for LocalModule {
    #[cycle(local)]
    fn drop(self) {
        let LocalModule {
            path: _,
            arguments: _,
        } = self;
    }
}

impl Drop for LocalArgument {
    #[cycle(local)]
    fn drop(self) {
        match self {
            LocalArgument::Module { open: _, module: _ } => {}
            LocalArgument::Nothing { open: _ } => {}
        }
    }
}
