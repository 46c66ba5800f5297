//! The levels of expressions.

ghost use Rattle.std.specs.Prelude.{◌≤◌, ◌<◌, ◌+◌, ◌-◌, false, length, Some};
ghost use Rattle.rotor_base.specs.Limits.{max_file_bytes};
ghost use Rattle.ml_trees.specs.Tree as pure;
ghost use Rattle.ml_trees.specs.declared.fixed.Fixed.TheVariants as key;
ghost use Rattle.ml_trees.specs.View.{view, view_tok, links, commas, ops};
ghost use Rattle.token_reading.specs.Gives.{name_at, Gives};
ghost use Rattle.token_reading.specs.Tokens.{from};
ghost use Rattle.expr_reading.specs.declared.wanted.Wanted.TheVariants as wanted;
ghost use Rattle.expr_reading.specs.ExprReading as r;
ghost use Rattle.expr_reading.specs.ExprReading.{read_expr};
ghost use Rattle.expr_parts.specs.Reads.{Nests};
ghost use Rattle.ml_trees.specs.Tok.{fixed};
ghost use Rattle.parse_expr.specs.Parts.{operator_of, next_operand, more_operands, next_in_tuple, more_in_tuple};
ghost use Rattle.expr_parts.specs.Rows.{link_of, item_of, more_items, row_rest, wrapped_by, grown_tier, with_steps};

use crate::readers::Readers;
use expr_atoms::Atoms;
use expr_forms::Forms;
use expr_parts::{
    Edge, goes_on, grown_assign, grown_chain, grown_seq, grown_tuple, level_at, on_edge, row_ends,
    semicolon_if,
};
use expr_reading::Wanted;
use ml_trees::{Expr, Fixed, Word};
use rotor_base::Class;
use std::alloc::Global;
use token_reading::{
    Kind, ReadError, TokenTable, boxed, expect, fit, is_minus, kind_at, lacks_in, text, token_word,
    word,
};

impl<
    F: Copy
        + Fn(
            Global,
            &TokenTable<'_>,
            usize,
            usize,
            Wanted,
            usize,
        ) -> Result<(Box<Expr>, usize), ReadError>,
> Readers<F> {
    /// The operand of the sign at a place.
    #[tactic(auto, using(ml_trees::proofs::Variants::expr_views))]
    #[inline(never)]
    pub(crate) fn minus(
        &self,
        tokens: &TokenTable<'_>,
        at: usize,
    ) -> Result<(Box<Expr>, usize), ReadError>
        requires nests { Nests self.now.grammar.depth (F.pre self.now.grammar.sub) (F.post self.now.grammar.sub) }
        requires few { length tokens.now ≤ max_file_bytes }
        requires within { at < length tokens.now }
        ensures { Gives (λ x. (view x.0.value, from tokens.now x.1)) result (wrapped_by (pure.Minus (name_at tokens.now at)) (read_expr self.now.grammar.depth wanted.Operand (from tokens.now (at + 1)))) }
    {
        let sign = word(self.grammar.alloc, tokens, Class::Infix, at)?;
        let (operand, after) = self.grammar.sub(tokens, Wanted::Operand, at + 1)?;
        Ok((
            boxed(self.grammar.alloc, Expr::Minus { sign, operand })?,
            after,
        ))
    }

    /// A form of level 1 or 2, or an expression of levels 13 to 16.
    #[tactic(auto, unfolding(expr_reading::specs::ExprReading::unary), using(crate::proofs::Lets::unary_lacks))]
    #[inline(never)]
    pub(crate) fn read_unary(
        &self,
        tokens: &TokenTable<'_>,
        at: usize,
    ) -> Result<(Box<Expr>, usize), ReadError>
        requires nests { Nests self.now.grammar.depth (F.pre self.now.grammar.sub) (F.post self.now.grammar.sub) }
        requires few { length tokens.now ≤ max_file_bytes }
        ensures { Gives (λ x. (view x.0.value, from tokens.now x.1)) result (r.unary (read_expr self.now.grammar.depth) self.now.grammar.depth (from tokens.now at)) }
    {
        let forms = Forms {
            grammar: self.grammar,
        };
        match kind_at(tokens, at) {
            Kind::Fixed(Fixed::Let) => {
                if lacks_in(tokens, at) {
                    return Err(ReadError::Syntax);
                }
                forms.let_expr(tokens, at)
            }
            Kind::Fixed(Fixed::Fun) => forms.fun_expr(tokens, at),
            Kind::Fixed(Fixed::Function) => forms.function_expr(tokens, at),
            Kind::Fixed(Fixed::Match) => forms.match_expr(tokens, at),
            Kind::Fixed(Fixed::Try) => forms.try_expr(tokens, at),
            Kind::Fixed(Fixed::If) => forms.if_expr(tokens, at),
            Kind::Word(Class::Infix) => {
                if !is_minus(text(tokens, at)) {
                    return Err(ReadError::Syntax);
                }
                self.minus(tokens, at)
            }
            _ => Atoms {
                grammar: self.grammar,
            }
            .application(tokens, at),
        }
    }

    /// An operator and its operand, and whether a further one may follow.
    #[cycle(tier)]
    #[tactic(auto, using(crate::proofs::Operands::operator_by))]
    #[inline(never)]
    pub(crate) fn next_operand(
        &self,
        tokens: &TokenTable<'_>,
        tier: u32,
        at: usize,
    ) -> Result<((Word, Expr, bool), usize), ReadError>
        requires nests { Nests self.now.grammar.depth (F.pre self.now.grammar.sub) (F.post self.now.grammar.sub) }
        requires few { length tokens.now ≤ max_file_bytes }
        requires low { tier ≤ 9 }
        ensures { Gives (λ x. ((view_tok x.0.0, view x.0.1, x.0.2), from tokens.now x.1)) result (next_operand self.now.grammar.depth tier (from tokens.now at)) }
    {
        let (operator, at) = operator_word(self.grammar.alloc, tokens, 12 - tier, at)?;
        let (operand, at) = self.go_deeper()?.tier(tokens, tier, at)?;
        let goes_on = goes_on(&operand, tokens, at);
        Ok(((operator, Box::into_inner(operand), goes_on), at))
    }

    /// Further operands, as long as each can be read whole and may follow.
    #[cycle(tier)]
    #[inline(never)]
    pub(crate) fn more_operands(
        &self,
        tokens: &TokenTable<'_>,
        tier: u32,
        at: usize,
    ) -> Result<(Vec<(Word, Expr)>, usize), ReadError>
        requires nests { Nests self.now.grammar.depth (F.pre self.now.grammar.sub) (F.post self.now.grammar.sub) }
        requires few { length tokens.now ≤ max_file_bytes }
        requires low { tier ≤ 9 }
        ensures { Gives (λ x. (ops x.0.items, from tokens.now x.1)) result (Some (more_operands self.now.grammar.depth tier (from tokens.now at))) }
    {
        let mut found = Vec::new(self.grammar.alloc);
        let mut at = at;
        for _turn in 0..self.grammar.depth {
            match self.next_operand(tokens, tier, at) {
                Ok((next, after)) => {
                    let goes_on = next.2;
                    found.push((next.0, next.1))?;
                    at = after;
                    if !goes_on {
                        return Ok((fit(found), at));
                    }
                }
                Err(ReadError::Syntax) => return Ok((fit(found), at)),
                Err(ReadError::Memory) => return Err(ReadError::Memory),
            }
        }
        Ok((fit(found), at))
    }

    /// An expression of the levels above, and the operators of one level behind it with their operands.
    #[cycle(tier)]
    #[inline(never)]
    pub(crate) fn grow(
        &self,
        tokens: &TokenTable<'_>,
        tier: u32,
        first: Box<Expr>,
        at: usize,
    ) -> Result<(Box<Expr>, usize), ReadError>
        requires nests { Nests self.now.grammar.depth (F.pre self.now.grammar.sub) (F.post self.now.grammar.sub) }
        requires few { length tokens.now ≤ max_file_bytes }
        requires low { tier ≤ 9 }
        ensures { Gives (λ x. (view x.0.value, from tokens.now x.1)) result (Some (grown_tier self.now.grammar.depth tier (view first.value) (from tokens.now at))) }
    {
        if !goes_on(&first, tokens, at) {
            return Ok((first, at));
        }
        match tier {
            8 => {
                let (rest, at) = self.more_in_tuple(tokens, at)?;
                Ok((grown_tuple(self.grammar.alloc, first, rest)?, at))
            }
            9 => {
                let (rest, at) = self.more_operands(tokens, tier, at)?;
                Ok((grown_assign(self.grammar.alloc, first, rest)?, at))
            }
            _ => {
                let (rest, at) = self.more_operands(tokens, tier, at)?;
                Ok((grown_chain(self.grammar.alloc, first, 12 - tier, rest)?, at))
            }
        }
    }

    /// The levels from 13 less `tier` on.
    #[cycle(tier)]
    #[tactic(auto, using(crate::proofs::Operands::tier_none))]
    #[inline(never)]
    pub(crate) fn tier(
        &self,
        tokens: &TokenTable<'_>,
        tier: u32,
        at: usize,
    ) -> Result<(Box<Expr>, usize), ReadError>
        requires nests { Nests self.now.grammar.depth (F.pre self.now.grammar.sub) (F.post self.now.grammar.sub) }
        requires few { length tokens.now ≤ max_file_bytes }
        requires low { tier ≤ 10 }
        ensures { Gives (λ x. (view x.0.value, from tokens.now x.1)) result (r.tier (read_expr self.now.grammar.depth) self.now.grammar.depth tier (from tokens.now at)) }
    {
        let (first, after) = self.read_unary(tokens, at)?;
        let mut whole = first;
        let mut end = after;
        for above in 0..tier {
            let (grown, after) = self.grow(tokens, above, whole, end)?;
            whole = grown;
            end = after;
        }
        Ok((whole, end))
    }

    /// The next part of a tuple, behind its `,`, and whether a further one may follow.
    #[cycle(tier)]
    #[tactic(auto, using(crate::proofs::Operands::comma_by))]
    #[inline(never)]
    pub(crate) fn next_in_tuple(
        &self,
        tokens: &TokenTable<'_>,
        at: usize,
    ) -> Result<((Expr, bool), usize), ReadError>
        requires nests { Nests self.now.grammar.depth (F.pre self.now.grammar.sub) (F.post self.now.grammar.sub) }
        requires few { length tokens.now ≤ max_file_bytes }
        ensures { Gives (λ x. ((fixed key.Comma, view x.0.0, x.0.1), from tokens.now x.1)) result (next_in_tuple self.now.grammar.depth (from tokens.now at)) }
    {
        match expect(tokens, Fixed::Comma, at) {
            Ok(next) => {
                let (operand, after) = self.go_deeper()?.tier(tokens, 8, next)?;
                let goes_on = goes_on(&operand, tokens, after);
                Ok(((Box::into_inner(operand), goes_on), after))
            }
            Err(ReadError::Syntax) => Err(ReadError::Syntax),
            Err(ReadError::Memory) => Err(ReadError::Memory),
        }
    }

    /// Further operands, as long as each can be read whole and may follow.
    #[cycle(tier)]
    #[inline(never)]
    pub(crate) fn more_in_tuple(
        &self,
        tokens: &TokenTable<'_>,
        at: usize,
    ) -> Result<(Vec<Expr>, usize), ReadError>
        requires nests { Nests self.now.grammar.depth (F.pre self.now.grammar.sub) (F.post self.now.grammar.sub) }
        requires few { length tokens.now ≤ max_file_bytes }
        ensures { Gives (λ x. (commas x.0.items, from tokens.now x.1)) result (Some (more_in_tuple self.now.grammar.depth (from tokens.now at))) }
    {
        let mut found = Vec::new(self.grammar.alloc);
        let mut at = at;
        for _turn in 0..self.grammar.depth {
            match self.next_in_tuple(tokens, at) {
                Ok((next, after)) => {
                    let goes_on = next.1;
                    found.push(next.0)?;
                    at = after;
                    if !goes_on {
                        return Ok((fit(found), at));
                    }
                }
                Err(ReadError::Syntax) => return Ok((fit(found), at)),
                Err(ReadError::Memory) => return Err(ReadError::Memory),
            }
        }
        Ok((fit(found), at))
    }

    /// An expression of any level.
    #[inline(never)]
    pub(crate) fn expression(
        &self,
        tokens: &TokenTable<'_>,
        at: usize,
    ) -> Result<(Box<Expr>, usize), ReadError>
        requires nests { Nests self.now.grammar.depth (F.pre self.now.grammar.sub) (F.post self.now.grammar.sub) }
        requires few { length tokens.now ≤ max_file_bytes }
        ensures { Gives (λ x. (view x.0.value, from tokens.now x.1)) result (r.expr (read_expr self.now.grammar.depth) self.now.grammar.depth (from tokens.now at)) }
    {
        self.tier(tokens, 10, at)
    }

    /// The next expression of a sequence, behind its `;`.
    #[inline(never)]
    pub(crate) fn next_step(
        &self,
        tokens: &TokenTable<'_>,
        at: usize,
    ) -> Result<(Expr, usize), ReadError>
        requires nests { Nests self.now.grammar.depth (F.pre self.now.grammar.sub) (F.post self.now.grammar.sub) }
        requires few { length tokens.now ≤ max_file_bytes }
        ensures { Gives (λ x. (link_of x.0, from tokens.now x.1)) result (r.semicolon_part (read_expr self.now.grammar.depth) self.now.grammar.depth (item_of self.now.grammar.depth false) (from tokens.now at)) }
    {
        let at = expect(tokens, Fixed::Semicolon, at)?;
        let (step, at) = self.go_deeper()?.expression(tokens, at)?;
        Ok((Box::into_inner(step), at))
    }

    /// Further ones, as long as each can be read whole and a `;` may follow the last.
    #[inline(never)]
    pub(crate) fn more_steps(
        &self,
        tokens: &TokenTable<'_>,
        at: usize,
    ) -> Result<(Vec<Expr>, usize), ReadError>
        requires nests { Nests self.now.grammar.depth (F.pre self.now.grammar.sub) (F.post self.now.grammar.sub) }
        requires few { length tokens.now ≤ max_file_bytes }
        ensures { Gives (λ x. (links x.0.items, from tokens.now x.1)) result (Some (more_items self.now.grammar.depth false (from tokens.now at))) }
    {
        let mut found = Vec::new(self.grammar.alloc);
        let mut at = at;
        for _turn in 0..self.grammar.depth {
            match self.next_step(tokens, at) {
                Ok((next, after)) => {
                    let goes_on = !on_edge(Edge::Form, &next);
                    found.push(next)?;
                    at = after;
                    if !goes_on {
                        return Ok((fit(found), at));
                    }
                }
                Err(ReadError::Syntax) => return Ok((fit(found), at)),
                Err(ReadError::Memory) => return Err(ReadError::Memory),
            }
        }
        Ok((fit(found), at))
    }

    /// What follows the first expression: further ones, and whether there is a last `;`.
    #[inline(never)]
    pub(crate) fn rest_of_steps(
        &self,
        tokens: &TokenTable<'_>,
        first: &Expr,
        at: usize,
    ) -> Result<((Vec<Expr>, bool), usize), ReadError>
        requires nests { Nests self.now.grammar.depth (F.pre self.now.grammar.sub) (F.post self.now.grammar.sub) }
        requires few { length tokens.now ≤ max_file_bytes }
        ensures { Gives (λ x. ((links x.0.0.items, x.0.1), from tokens.now x.1)) result (Some (row_rest self.now.grammar.depth false (view first.now) (from tokens.now at))) }
    {
        if on_edge(Edge::Form, first) {
            return Ok(((Vec::new(self.grammar.alloc), false), at));
        }
        let (rest, at) = self.more_steps(tokens, at)?;
        let may = row_ends(first, &rest);
        let (last, at) = semicolon_if(tokens, may, at);
        Ok(((rest, last), at))
    }

    /// The first expression of a sequence, and what follows it.
    #[inline(never)]
    fn with_steps(
        &self,
        tokens: &TokenTable<'_>,
        first: Box<Expr>,
        at: usize,
    ) -> Result<(Box<Expr>, usize), ReadError>
        requires nests { Nests self.now.grammar.depth (F.pre self.now.grammar.sub) (F.post self.now.grammar.sub) }
        requires few { length tokens.now ≤ max_file_bytes }
        ensures { Gives (λ x. (view x.0.value, from tokens.now x.1)) result (Some (with_steps self.now.grammar.depth (view first.value) (from tokens.now at))) }
    {
        let ((rest, last), at) = self.rest_of_steps(tokens, &first, at)?;
        Ok((grown_seq(self.grammar.alloc, first, rest, last)?, at))
    }

    /// Expressions between `;`.
    #[tactic(auto, unfolding(expr_reading::specs::ExprReading::seq))]
    #[inline(never)]
    pub(crate) fn sequence(
        &self,
        tokens: &TokenTable<'_>,
        at: usize,
    ) -> Result<(Box<Expr>, usize), ReadError>
        requires nests { Nests self.now.grammar.depth (F.pre self.now.grammar.sub) (F.post self.now.grammar.sub) }
        requires few { length tokens.now ≤ max_file_bytes }
        ensures { Gives (λ x. (view x.0.value, from tokens.now x.1)) result (r.seq (read_expr self.now.grammar.depth) self.now.grammar.depth (from tokens.now at)) }
    {
        let (first, at) = self.expression(tokens, at)?;
        self.with_steps(tokens, first, at)
    }
}

/// The operator of a level at a place.
#[tactic(auto, using(token_reading::proofs::Places::from_end))]
#[inline(never)]
fn operator_word(
    alloc: Global,
    tokens: &TokenTable<'_>,
    level: u32,
    at: usize,
) -> Result<(Word, usize), ReadError>
    requires few { length tokens.now ≤ max_file_bytes }
    ensures { Gives (λ x. (view_tok x.0, from tokens.now x.1)) result (operator_of level (from tokens.now at)) }
{
    if at >= tokens.len() {
        return Err(ReadError::Syntax);
    }
    if level_at(tokens, at) != level {
        return Err(ReadError::Syntax);
    }
    Ok((token_word(alloc, tokens, at)?, at + 1))
}
