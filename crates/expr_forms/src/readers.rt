//! The readers of forms.

use expr_parts::Grammar;

/// The readers of parameters, bindings, cases and the forms of levels 1 and 2, over their context.
#[derive(Clone, Copy)]
pub struct Forms<F> {
    pub grammar: Grammar<F>,
}
