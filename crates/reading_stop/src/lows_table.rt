//! Expressions that begin with a keyword.

use crate::modules_table::modules;
use crate::rule::Rule;
use crate::step::{Step, Trait, Want};
use ml_trees::Fixed;
use rotor_base::Class;

/// The steps of a rule: the rules of expressions that begin with a keyword; or of another.
pub(crate) fn lows(rule: Rule) -> &'static [Step] {
    match rule {
        Rule::Low => &[
            Step::Read(Rule::Let),
            Step::Or,
            Step::Read(Rule::Fun),
            Step::Or,
            Step::Read(Rule::Function),
            Step::Or,
            Step::Read(Rule::Match),
            Step::Or,
            Step::Read(Rule::If),
        ],
        Rule::Let => &[
            Step::Take(Want::Fixed(Fixed::Let)),
            Step::Read(Rule::LetKind),
            Step::Take(Want::Fixed(Fixed::In)),
            Step::Read(Rule::Sequence),
            Step::Mark(Trait::Low),
        ],
        Rule::LetKind => &[
            Step::Take(Want::Fixed(Fixed::Open)),
            Step::Maybe(Rule::Bang),
            Step::Read(Rule::Uppers),
            Step::Or,
            Step::Take(Want::Fixed(Fixed::Module)),
            Step::Take(Want::Class(Class::Upper)),
            Step::Take(Want::Fixed(Fixed::Equals)),
            Step::Read(Rule::LocalModule),
            Step::Or,
            Step::Read(Rule::Bindings),
        ],
        Rule::Bang => &[Step::Take(Want::Bang)],
        Rule::Bindings => &[
            Step::Maybe(Rule::Rec),
            Step::Read(Rule::Binding),
            Step::Many(Rule::NextBinding),
        ],
        Rule::Rec => &[Step::Take(Want::Fixed(Fixed::Rec))],
        Rule::NextBinding => &[
            Step::Take(Want::Fixed(Fixed::And)),
            Step::Read(Rule::Binding),
        ],
        Rule::Binding => &[
            Step::Read(Rule::Name),
            Step::Read(Rule::Parameter),
            Step::Many(Rule::Parameter),
            Step::Maybe(Rule::ColonType),
            Step::Take(Want::Fixed(Fixed::Equals)),
            Step::Read(Rule::Sequence),
            Step::Or,
            Step::Read(Rule::Pattern),
            Step::Maybe(Rule::ColonType),
            Step::Take(Want::Fixed(Fixed::Equals)),
            Step::Read(Rule::Sequence),
        ],
        Rule::Fun => &[
            Step::Take(Want::Fixed(Fixed::Fun)),
            Step::Read(Rule::Parameter),
            Step::Many(Rule::Parameter),
            Step::Take(Want::Fixed(Fixed::Arrow)),
            Step::Read(Rule::Sequence),
            Step::Mark(Trait::Low),
        ],
        Rule::Function => &[
            Step::Take(Want::Fixed(Fixed::Function)),
            Step::Read(Rule::Cases),
            Step::Mark(Trait::Low),
            Step::Mark(Trait::Cases),
        ],
        Rule::Match => &[
            Step::Read(Rule::MatchOrTry),
            Step::Read(Rule::Sequence),
            Step::Take(Want::Fixed(Fixed::With)),
            Step::Read(Rule::Cases),
            Step::Mark(Trait::Low),
            Step::Mark(Trait::Cases),
        ],
        Rule::MatchOrTry => &[
            Step::Take(Want::Fixed(Fixed::Match)),
            Step::Or,
            Step::Take(Want::Fixed(Fixed::Try)),
        ],
        Rule::Cases => &[
            Step::Maybe(Rule::Bar),
            Step::Read(Rule::Case),
            Step::Many(Rule::NextCase),
        ],
        Rule::Bar => &[Step::Take(Want::Fixed(Fixed::Bar))],
        Rule::NextCase => &[
            Step::Look,
            Step::Unless(Trait::Cases),
            Step::Take(Want::Fixed(Fixed::Bar)),
            Step::Read(Rule::Case),
        ],
        Rule::Case => &[
            Step::Read(Rule::Pattern),
            Step::Maybe(Rule::Guard),
            Step::Take(Want::Fixed(Fixed::Arrow)),
            Step::Read(Rule::Sequence),
        ],
        Rule::Guard => &[
            Step::Take(Want::Fixed(Fixed::When)),
            Step::Read(Rule::Sequence),
        ],
        Rule::If => &[
            Step::Take(Want::Fixed(Fixed::If)),
            Step::Read(Rule::Branch),
            Step::Many(Rule::ElseIf),
            Step::Read(Rule::Otherwise),
            Step::Mark(Trait::If),
        ],
        Rule::Branch => &[
            Step::Read(Rule::Sequence),
            Step::Take(Want::Fixed(Fixed::Then)),
            Step::Read(Rule::Expression),
        ],
        Rule::ElseIf => &[
            Step::Look,
            Step::Unless(Trait::NoElse),
            Step::Take(Want::Fixed(Fixed::Else)),
            Step::Take(Want::Fixed(Fixed::If)),
            Step::Read(Rule::Branch),
        ],
        Rule::Otherwise => &[
            Step::Unless(Trait::NoElse),
            Step::Take(Want::Fixed(Fixed::Else)),
            Step::Without(Want::Fixed(Fixed::If)),
            Step::Read(Rule::Expression),
            Step::Or,
            Step::Mark(Trait::NoElse),
        ],
        Rule::LocalModule => &[Step::Read(Rule::Uppers), Step::Many(Rule::LocalArgument)],
        Rule::LocalArgument => &[
            Step::Take(Want::Fixed(Fixed::LeftParen)),
            Step::Maybe(Rule::LocalModule),
            Step::Take(Want::Fixed(Fixed::RightParen)),
        ],
        _ => modules(rule),
    }
}
