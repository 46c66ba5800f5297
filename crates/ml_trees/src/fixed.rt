ghost use Rattle.std.specs.Prelude.{◌≡◌, ◌∷◌, ℕ, List};
ghost use Rattle.ml_trees.specs.Tok.{fixed_of, fixed_among};

use rotor_base::{Class, Token};

/// A keyword or a mark that the grammar fixes. The words of operators are not among them, but for `=`.
#[derive(Clone, Copy, Debug, PartialEq, Eq)]
pub enum Fixed {
    And,
    As,
    Assert,
    Begin,
    Constraint,
    Do,
    Done,
    Downto,
    Else,
    End,
    Exception,
    External,
    False,
    For,
    Fun,
    Function,
    Functor,
    If,
    In,
    Include,
    Lazy,
    Let,
    Match,
    Module,
    Mutable,
    Nonrec,
    Of,
    Open,
    Private,
    Rec,
    Sig,
    Struct,
    Then,
    To,
    True,
    Try,
    Type,
    Val,
    When,
    While,
    With,
    /// `_`
    Underscore,
    LeftParen,
    RightParen,
    LeftBracket,
    RightBracket,
    LeftBrace,
    RightBrace,
    /// `[|`
    LeftArray,
    /// `|]`
    RightArray,
    /// `[<`
    LeftLess,
    /// `[>`
    LeftGreater,
    Semicolon,
    DoubleSemicolon,
    Comma,
    Dot,
    DotDot,
    Colon,
    ColonColon,
    /// `:>`
    ColonGreater,
    /// `->`
    Arrow,
    /// `<-`
    LeftArrow,
    Bar,
    Equals,
    Tilde,
    Question,
}

/// How each of them that begins with this byte is spelled.
#[tactic(auto, unfolding(crate::specs::Tok::fixed_of))]
fn spellings(first: u8) -> &'static [(&'static str, Fixed)]
    ensures { (rest : List ℕ) → fixed_among (λ s. s.0.now) (λ s. s.1) (first ∷ rest) result.now ≡ fixed_of (first ∷ rest) }
{
    match first {
        b'a' => &[
            ("and", Fixed::And),
            ("as", Fixed::As),
            ("assert", Fixed::Assert),
        ],
        b'b' => &[("begin", Fixed::Begin)],
        b'c' => &[("constraint", Fixed::Constraint)],
        b'd' => &[
            ("do", Fixed::Do),
            ("done", Fixed::Done),
            ("downto", Fixed::Downto),
        ],
        b'e' => &[
            ("else", Fixed::Else),
            ("end", Fixed::End),
            ("exception", Fixed::Exception),
            ("external", Fixed::External),
        ],
        b'f' => &[
            ("false", Fixed::False),
            ("for", Fixed::For),
            ("fun", Fixed::Fun),
            ("function", Fixed::Function),
            ("functor", Fixed::Functor),
        ],
        b'i' => &[
            ("if", Fixed::If),
            ("in", Fixed::In),
            ("include", Fixed::Include),
        ],
        b'l' => &[("lazy", Fixed::Lazy), ("let", Fixed::Let)],
        b'm' => &[
            ("match", Fixed::Match),
            ("module", Fixed::Module),
            ("mutable", Fixed::Mutable),
        ],
        b'n' => &[("nonrec", Fixed::Nonrec)],
        b'o' => &[("of", Fixed::Of), ("open", Fixed::Open)],
        b'p' => &[("private", Fixed::Private)],
        b'r' => &[("rec", Fixed::Rec)],
        b's' => &[("sig", Fixed::Sig), ("struct", Fixed::Struct)],
        b't' => &[
            ("then", Fixed::Then),
            ("to", Fixed::To),
            ("true", Fixed::True),
            ("try", Fixed::Try),
            ("type", Fixed::Type),
        ],
        b'v' => &[("val", Fixed::Val)],
        b'w' => &[
            ("when", Fixed::When),
            ("while", Fixed::While),
            ("with", Fixed::With),
        ],
        b'_' => &[("_", Fixed::Underscore)],
        b'(' => &[("(", Fixed::LeftParen)],
        b')' => &[(")", Fixed::RightParen)],
        b'[' => &[
            ("[", Fixed::LeftBracket),
            ("[|", Fixed::LeftArray),
            ("[<", Fixed::LeftLess),
            ("[>", Fixed::LeftGreater),
        ],
        b']' => &[("]", Fixed::RightBracket)],
        b'{' => &[("{", Fixed::LeftBrace)],
        b'}' => &[("}", Fixed::RightBrace)],
        b'|' => &[("|]", Fixed::RightArray), ("|", Fixed::Bar)],
        b';' => &[(";", Fixed::Semicolon), (";;", Fixed::DoubleSemicolon)],
        b',' => &[(",", Fixed::Comma)],
        b'.' => &[(".", Fixed::Dot), ("..", Fixed::DotDot)],
        b':' => &[
            (":", Fixed::Colon),
            ("::", Fixed::ColonColon),
            (":>", Fixed::ColonGreater),
        ],
        b'-' => &[("->", Fixed::Arrow)],
        b'<' => &[("<-", Fixed::LeftArrow)],
        b'=' => &[("=", Fixed::Equals)],
        b'~' => &[("~", Fixed::Tilde)],
        b'?' => &[("?", Fixed::Question)],
        _ => &[],
    }
}

/// The fixed word that a keyword or mark is, or none, as for an operator.
pub fn fixed_word(bytes: &[u8]) -> Option<Fixed>
    ensures { result ≡ fixed_of bytes.now }
{
    let first = bytes.first()?;
    find_fixed(bytes, spellings(*first))
}

/// The first fixed word that is spelled so.
fn find_fixed(bytes: &[u8], spellings: &[(&str, Fixed)]) -> Option<Fixed>
    ensures { result ≡ fixed_among (λ s. s.0.now) (λ s. s.1) bytes.now spellings.now }
{
    for (text, fixed) in spellings {
        if text.as_bytes() == bytes {
            return Some(*fixed);
        }
    }
    None
}
