//! A reading of tokens by the rules, which keeps in mind how far it looks.

use crate::edge::Edge;
use crate::names_table::names;
use crate::rule::Rule;
use crate::step::{Step, Trait, Want};
use crate::wants::is_wanted;
use rotor_base::Memory;
use std::alloc::Global;
use token_reading::TokenTable;

/// Where a reading is: the place of its next token, and how what it has read ends.
#[derive(Clone, Copy)]
struct Spot {
    at: usize,
    edge: Edge,
}

/// What a reading does when a rule is read, or cannot be.
#[derive(Clone, Copy)]
enum Frame {
    /// It goes on with these steps.
    Behind {
        steps: &'static [Step],
    },
    /// If the rule cannot be read, it tries these steps from here.
    Choices {
        others: &'static [Step],
        spot: Spot,
    },
    /// It goes on with these steps; if the rule cannot be read, from here.
    Maybe {
        spot: Spot,
        steps: &'static [Step],
    },
    /// It reads the rule again; if the rule cannot be read, it goes on from here with these steps.
    Many {
        rule: Rule,
        spot: Spot,
        steps: &'static [Step],
    },
}

/// A reading: its tokens, where it is, the number of tokens up to the furthest one that it looked at, the steps that
/// follow, what it does behind them, and for each token whether the next expression of a sequence was tried there
/// and cannot be read.
#[derive(Drop)]
pub(crate) struct Reading<'a> {
    tokens: &'a TokenTable<'a>,
    spot: Spot,
    pub seen: usize,
    steps: &'static [Step],
    frames: Vec<Frame>,
    without_next: Vec<bool>,
}

impl<'a> Reading<'a> {
    /// A reading from the first token. `Memory` is the only error.
    pub fn new(alloc: Global, tokens: &'a TokenTable<'a>, rule: Rule) -> Result<Self, Memory> {
        let mut without_next = Vec::new(alloc);
        without_next.resize(tokens.len(), false)?;
        let mut reading = Reading {
            tokens,
            spot: Spot {
                at: 0,
                edge: Edge::make_plain(),
            },
            seen: 0,
            steps: &[],
            frames: Vec::new(alloc),
            without_next,
        };
        reading.enter(names(rule))?;
        Ok(reading)
    }

    /// Takes one step. The answer is whether there are more. `Memory` is the only error.
    pub fn advance(&mut self) -> Result<bool, Memory> {
        match self.steps {
            [] | [Step::Or, ..] => self.leave(),
            [step, behind @ ..] => {
                self.steps = behind;
                self.take(*step)
            }
        }
    }

    /// Takes this step.
    fn take(&mut self, step: Step) -> Result<bool, Memory> {
        match step {
            Step::Take(want) => self.pass(want),
            Step::Without(want) => {
                let found = self.finds(want, 0);
                self.go_on(!found)
            }
            Step::Next(want) => {
                let found = self.finds(want, 1);
                self.go_on(found)
            }
            Step::Look => {
                let at = self.spot.at;
                self.look(at);
                Ok(true)
            }
            Step::Unless(part) => {
                let edge = self.spot.edge;
                self.go_on(!edge.has(part))
            }
            Step::Is(form) => {
                let edge = self.spot.edge;
                self.go_on(edge.form == form)
            }
            Step::Mark(part) => {
                self.spot.edge = self.spot.edge.add_part(part);
                Ok(true)
            }
            Step::Form(form) => {
                self.spot.edge = self.spot.edge.set_form(form);
                Ok(true)
            }
            Step::Read(rule) => {
                let steps = self.steps;
                self.call(Frame::Behind { steps }, rule)
            }
            Step::Maybe(rule) => {
                let (spot, steps) = (self.spot, self.steps);
                self.call(Frame::Maybe { spot, steps }, rule)
            }
            Step::Many(rule) => {
                let steps = self.steps;
                self.repeat(rule, steps)
            }
            Step::Or => self.leave(),
        }
    }

    /// Keeps in mind that the token at a place was looked at.
    fn look(&mut self, at: usize) {
        if at < self.tokens.len() && self.seen <= at {
            self.seen = at + 1;
        }
    }

    /// Whether the token so many behind the next one is as it is wanted.
    fn finds(&mut self, want: Want, behind: usize) -> bool {
        let at = self.spot.at.saturating_add(behind);
        self.look(at);
        is_wanted(self.tokens, want, at)
    }

    /// Passes a token.
    fn pass(&mut self, want: Want) -> Result<bool, Memory> {
        if !self.finds(want, 0) {
            return self.fail();
        }
        self.spot = Spot {
            at: self.spot.at.saturating_add(1),
            edge: Edge::make_plain(),
        };
        Ok(true)
    }

    /// Goes on, or fails.
    fn go_on(&mut self, is_right: bool) -> Result<bool, Memory> {
        if is_right { Ok(true) } else { self.fail() }
    }

    /// Reads a rule as often as it can be, and then takes these steps. What cannot be read is not read again.
    fn repeat(&mut self, rule: Rule, steps: &'static [Step]) -> Result<bool, Memory> {
        let spot = self.spot;
        if rule == Rule::NextExpression && matches!(self.without_next.get(spot.at), Some(true)) {
            self.steps = steps;
            return Ok(true);
        }
        self.call(Frame::Many { rule, spot, steps }, rule)
    }

    /// Keeps in mind that the next expression of a sequence cannot be read at this place. Behind an expression that
    /// takes all that follows, it was not tried.
    fn rule_out(&mut self, rule: Rule, spot: Spot) {
        if rule == Rule::NextExpression && !spot.edge.has(Trait::Low) {
            if let Some(cannot) = self.without_next.get_mut(spot.at) {
                *cannot = true;
            }
        }
    }

    /// Reads a rule, and then does this.
    fn call(&mut self, frame: Frame, rule: Rule) -> Result<bool, Memory> {
        self.frames.push(frame)?;
        self.enter(names(rule))
    }

    /// Tries these steps, and those behind each `Or` in turn.
    fn enter(&mut self, steps: &'static [Step]) -> Result<bool, Memory> {
        if let Some(others) = behind_or(steps) {
            let spot = self.spot;
            self.frames.push(Frame::Choices { others, spot })?;
        }
        self.steps = steps;
        Ok(true)
    }

    /// Ends the steps of a rule that is read.
    fn leave(&mut self) -> Result<bool, Memory> {
        match self.frames.pop() {
            None => Ok(false),
            Some(Frame::Choices { .. }) => {
                self.steps = &[];
                Ok(true)
            }
            Some(Frame::Behind { steps } | Frame::Maybe { steps, .. }) => {
                self.steps = steps;
                Ok(true)
            }
            Some(Frame::Many { rule, steps, .. }) => self.repeat(rule, steps),
        }
    }

    /// Goes back to the last place from which something else may be read.
    fn fail(&mut self) -> Result<bool, Memory> {
        while let Some(frame) = self.frames.pop() {
            match frame {
                Frame::Behind { .. } => {}
                Frame::Choices { others, spot } => {
                    self.spot = spot;
                    return self.enter(others);
                }
                Frame::Maybe { spot, steps } => {
                    self.spot = spot;
                    self.steps = steps;
                    return Ok(true);
                }
                Frame::Many { rule, spot, steps } => {
                    self.rule_out(rule, spot);
                    self.spot = spot;
                    self.steps = steps;
                    return Ok(true);
                }
            }
        }
        Ok(false)
    }
}

/// The steps behind the first `Or`.
fn behind_or(steps: &'static [Step]) -> Option<&'static [Step]> {
    match steps.iter().position(|step| *step == Step::Or) {
        Some(at) => Some(&steps[at + 1..]),
        None => None,
    }
}
