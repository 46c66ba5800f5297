//! What is read so far, as the later steps see it.

use crate::step::{Form, Trait};

/// How what is read so far ends, and what is read last.
#[derive(Clone, Copy, Debug, PartialEq, Eq)]
pub(crate) struct Edge {
    low: bool,
    ends_if: bool,
    no_else: bool,
    cases: bool,
    pub form: Form,
}

impl Edge {
    /// It ends with a token.
    pub fn make_plain() -> Self {
        Edge {
            low: false,
            ends_if: false,
            no_else: false,
            cases: false,
            form: Form::Plain,
        }
    }

    pub fn has(self, part: Trait) -> bool {
        match part {
            Trait::Low => self.low,
            Trait::If => self.ends_if,
            Trait::NoElse => self.no_else,
            Trait::Cases => self.cases,
        }
    }

    /// The same, with a trait more.
    pub fn add_part(self, part: Trait) -> Self {
        let plain = self.set_form(Form::Plain);
        match part {
            Trait::Low => Edge { low: true, ..plain },
            Trait::If => Edge {
                ends_if: true,
                ..plain
            },
            Trait::NoElse => Edge {
                no_else: true,
                ..plain
            },
            Trait::Cases => Edge {
                cases: true,
                ..plain
            },
        }
    }

    /// The same, of this form.
    pub fn set_form(self, form: Form) -> Self {
        Edge { form, ..self }
    }
}
