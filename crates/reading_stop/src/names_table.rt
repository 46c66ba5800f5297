//! Names, paths and types.

use crate::patterns_table::patterns;
use crate::rule::Rule;
use crate::step::{Step, Want};
use ml_trees::Fixed;
use rotor_base::Class;

/// The steps of a rule: the rules of names, paths and types; or of another.
pub(crate) fn names(rule: Rule) -> &'static [Step] {
    match rule {
        Rule::Name => &[
            Step::Take(Want::Class(Class::Lower)),
            Step::Or,
            Step::Take(Want::Fixed(Fixed::LeftParen)),
            Step::Next(Want::Fixed(Fixed::RightParen)),
            Step::Take(Want::Operator),
            Step::Take(Want::Fixed(Fixed::RightParen)),
        ],
        Rule::Uppers => &[
            Step::Take(Want::Class(Class::Upper)),
            Step::Many(Rule::DotUpper),
        ],
        Rule::DotUpper => &[
            Step::Take(Want::Fixed(Fixed::Dot)),
            Step::Take(Want::Class(Class::Upper)),
        ],
        Rule::FieldPath => &[
            Step::Many(Rule::UpperDot),
            Step::Take(Want::Class(Class::Lower)),
        ],
        Rule::UpperDot => &[
            Step::Take(Want::Class(Class::Upper)),
            Step::Take(Want::Fixed(Fixed::Dot)),
        ],
        Rule::ColonType => &[
            Step::Take(Want::Fixed(Fixed::Colon)),
            Step::Read(Rule::TypeRun),
        ],
        Rule::TypeRun => &[
            Step::Take(Want::Fixed(Fixed::Type)),
            Step::Many(Rule::TypePart),
            Step::Or,
            Step::Read(Rule::TypePart),
            Step::Many(Rule::TypePart),
        ],
        Rule::TypePart => &[
            Step::Take(Want::BesideType),
            Step::Or,
            Step::Read(Rule::TypeBracket),
        ],
        Rule::TypeBracket => &[
            Step::Take(Want::Fixed(Fixed::LeftParen)),
            Step::Many(Rule::TypeInner),
            Step::Take(Want::Fixed(Fixed::RightParen)),
            Step::Or,
            Step::Read(Rule::OpenBracket),
            Step::Many(Rule::TypeInner),
            Step::Take(Want::Fixed(Fixed::RightBracket)),
            Step::Or,
            Step::Take(Want::Fixed(Fixed::LeftBrace)),
            Step::Many(Rule::TypeInner),
            Step::Take(Want::Fixed(Fixed::RightBrace)),
        ],
        Rule::TypeInner => &[
            Step::Read(Rule::TypeBracket),
            Step::Or,
            Step::Take(Want::InsideType),
        ],
        Rule::OpenBracket => &[
            Step::Take(Want::Fixed(Fixed::LeftBracket)),
            Step::Or,
            Step::Take(Want::Fixed(Fixed::LeftLess)),
            Step::Or,
            Step::Take(Want::Fixed(Fixed::LeftGreater)),
        ],
        Rule::DeclarationRun => &[
            Step::Read(Rule::DeclarationPart),
            Step::Many(Rule::DeclarationPart),
        ],
        Rule::DeclarationPart => &[
            Step::Read(Rule::DeclarationBracket),
            Step::Or,
            Step::Take(Want::InsideDeclaration),
        ],
        Rule::DeclarationBracket => &[
            Step::Take(Want::Fixed(Fixed::LeftParen)),
            Step::Many(Rule::DeclarationPart),
            Step::Take(Want::Fixed(Fixed::RightParen)),
            Step::Or,
            Step::Read(Rule::OpenBracket),
            Step::Many(Rule::DeclarationPart),
            Step::Take(Want::Fixed(Fixed::RightBracket)),
            Step::Or,
            Step::Take(Want::Fixed(Fixed::LeftBrace)),
            Step::Many(Rule::DeclarationPart),
            Step::Take(Want::Fixed(Fixed::RightBrace)),
        ],
        _ => patterns(rule),
    }
}
