//! Operators by their levels.

use crate::expressions_table::expressions;
use crate::rule::Rule;
use crate::step::{Form, Step, Trait, Want};
use ml_trees::Fixed;

/// The steps of a rule: the rules of operators, by their levels; or of another.
pub(crate) fn levels(rule: Rule) -> &'static [Step] {
    match rule {
        Rule::Assign => &[Step::Read(Rule::Tuple), Step::Many(Rule::NextAssign)],
        Rule::NextAssign => &[
            Step::Unless(Trait::Low),
            Step::Unless(Trait::If),
            Step::Take(Want::Assigns),
            Step::Read(Rule::AssignOperand),
            Step::Or,
            Step::Unless(Trait::Low),
            Step::Unless(Trait::If),
            Step::Is(Form::Parts),
            Step::Take(Want::Fixed(Fixed::LeftArrow)),
            Step::Read(Rule::AssignOperand),
        ],
        Rule::AssignOperand => &[Step::Read(Rule::Low), Step::Or, Step::Read(Rule::Tuple)],
        Rule::Tuple => &[Step::Read(Rule::Either), Step::Many(Rule::NextTuple)],
        Rule::NextTuple => &[
            Step::Unless(Trait::Low),
            Step::Unless(Trait::If),
            Step::Take(Want::Level(4)),
            Step::Read(Rule::TupleOperand),
            Step::Form(Form::Plain),
        ],
        Rule::TupleOperand => &[Step::Read(Rule::Low), Step::Or, Step::Read(Rule::Either)],
        Rule::Either => &[Step::Read(Rule::Both), Step::Many(Rule::NextEither)],
        Rule::NextEither => &[
            Step::Unless(Trait::Low),
            Step::Unless(Trait::If),
            Step::Take(Want::Level(5)),
            Step::Read(Rule::EitherOperand),
            Step::Form(Form::Plain),
        ],
        Rule::EitherOperand => &[Step::Read(Rule::Low), Step::Or, Step::Read(Rule::Both)],
        Rule::Both => &[Step::Read(Rule::Compared), Step::Many(Rule::NextBoth)],
        Rule::NextBoth => &[
            Step::Unless(Trait::Low),
            Step::Unless(Trait::If),
            Step::Take(Want::Level(6)),
            Step::Read(Rule::BothOperand),
            Step::Form(Form::Plain),
        ],
        Rule::BothOperand => &[Step::Read(Rule::Low), Step::Or, Step::Read(Rule::Compared)],
        Rule::Compared => &[Step::Read(Rule::Joined), Step::Many(Rule::NextCompared)],
        Rule::NextCompared => &[
            Step::Unless(Trait::Low),
            Step::Unless(Trait::If),
            Step::Take(Want::Level(7)),
            Step::Read(Rule::ComparedOperand),
            Step::Form(Form::Plain),
        ],
        Rule::ComparedOperand => &[Step::Read(Rule::Low), Step::Or, Step::Read(Rule::Joined)],
        Rule::Joined => &[Step::Read(Rule::Cons), Step::Many(Rule::NextJoined)],
        Rule::NextJoined => &[
            Step::Unless(Trait::Low),
            Step::Unless(Trait::If),
            Step::Take(Want::Level(8)),
            Step::Read(Rule::JoinedOperand),
            Step::Form(Form::Plain),
        ],
        Rule::JoinedOperand => &[Step::Read(Rule::Low), Step::Or, Step::Read(Rule::Cons)],
        Rule::Cons => &[Step::Read(Rule::Sum), Step::Many(Rule::NextCons)],
        Rule::NextCons => &[
            Step::Unless(Trait::Low),
            Step::Unless(Trait::If),
            Step::Take(Want::Level(9)),
            Step::Read(Rule::ConsOperand),
            Step::Form(Form::Plain),
        ],
        Rule::ConsOperand => &[Step::Read(Rule::Low), Step::Or, Step::Read(Rule::Sum)],
        Rule::Sum => &[Step::Read(Rule::Product), Step::Many(Rule::NextSum)],
        Rule::NextSum => &[
            Step::Unless(Trait::Low),
            Step::Unless(Trait::If),
            Step::Take(Want::Level(10)),
            Step::Read(Rule::SumOperand),
            Step::Form(Form::Plain),
        ],
        Rule::SumOperand => &[Step::Read(Rule::Low), Step::Or, Step::Read(Rule::Product)],
        Rule::Product => &[Step::Read(Rule::Power), Step::Many(Rule::NextProduct)],
        Rule::NextProduct => &[
            Step::Unless(Trait::Low),
            Step::Unless(Trait::If),
            Step::Take(Want::Level(11)),
            Step::Read(Rule::ProductOperand),
            Step::Form(Form::Plain),
        ],
        Rule::ProductOperand => &[Step::Read(Rule::Low), Step::Or, Step::Read(Rule::Power)],
        Rule::Power => &[Step::Read(Rule::Signed), Step::Many(Rule::NextPower)],
        Rule::NextPower => &[
            Step::Unless(Trait::Low),
            Step::Unless(Trait::If),
            Step::Take(Want::Level(12)),
            Step::Read(Rule::PowerOperand),
            Step::Form(Form::Plain),
        ],
        Rule::PowerOperand => &[Step::Read(Rule::Low), Step::Or, Step::Read(Rule::Signed)],
        Rule::Signed => &[
            Step::Take(Want::Minus),
            Step::Read(Rule::SignedOperand),
            Step::Form(Form::Plain),
            Step::Or,
            Step::Read(Rule::Apply),
        ],
        Rule::SignedOperand => &[Step::Read(Rule::Low), Step::Or, Step::Read(Rule::Signed)],
        _ => expressions(rule),
    }
}
