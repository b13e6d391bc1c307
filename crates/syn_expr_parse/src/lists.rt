//! The readers of what is in parentheses and in brackets: tuples, arrays, arguments and indices.

ghost use Rattle.std.specs.Prelude.{◌≡◌, ◌≤◌, ◌+◌, map, true, IfOk};
ghost use Rattle.syn_expr_parse.specs.Reads.{Callable, ReadsExpr};
ghost use Rattle.syn_expr_heads.specs.View.{ending_of};
ghost use Rattle.syn_expr_ast.specs.View.{elements};
ghost use Rattle.syn_expr_parse.specs.Elements.{behind_first, bracketed, element, gathered};
ghost use Rattle.syn_expr_spec.specs.Read as read;
ghost use Rattle.syn_expr_spec.specs.Slot as slot;
ghost use Rattle.syn_expr_spec.specs.Tree as e;
ghost use Rattle.syn_lower_leaves.specs.Reads.{Reads};
ghost use Rattle.syn_lower_leaves.specs.Punct.{takes_value};
ghost use Rattle.syn_lower_leaves.specs.View.{values, trails};
ghost use Rattle.syn_tokens.specs.Front.{is_empty};
ghost use Rattle.syn_tokens.specs.Tok.{weight};

use crate::kinds::ReadExprs;
use crate::known::{Held, PLAIN, given_up};
use std::alloc::{AllocError, Global};
use syn_expr_ast::alone::IsExpr;
use syn_expr_ast::atom::{ExprArrayOf, ExprParenOf, ExprRepeatOf, ExprTupleOf};
use syn_expr_heads::leaf::comma_or_end;
use syn_expr_spec::kinds::Place;
use syn_lower_leaves::front::{comma, semi};
use syn_lower_leaves::punctuated::Punctuated;
use syn_tokens::buffer::ParseBuffer;
use syn_tokens::error::{ErrorKind, Result};
use syn_tokens::token::{Bracket, Comma, Paren, Semi};

/// An array of these elements.
// Not in the frame of its caller, which is on the stack once for each level of a tree.
#[inline(never)]
#[tactic(auto, unfolding(syn_expr_ast::specs::Attrs::attrs_of))]
fn array<E: IsExpr + Drop>(
    alloc: Global,
    bracket_token: Bracket,
    elems: Punctuated<E, Comma>,
) -> std::result::Result<Box<E>, AllocError>
    ensures { IfOk result (λ b. E.tree b.value ≡ e.frame e.array (elements (map E.tree (values elems)) (trails elems))) }
{
    let attrs = Vec::new(alloc);
    let x = E::array(ExprArrayOf {
        attrs,
        bracket_token,
        elems,
    });
    Ok(Box::new(alloc, x)?)
}

/// An array of one element that is repeated.
// Not in the frame of its caller, which is on the stack once for each level of a tree.
#[inline(never)]
#[tactic(auto, unfolding(syn_expr_ast::specs::Attrs::attrs_of))]
fn repeat<E: IsExpr + Drop>(
    alloc: Global,
    bracket_token: Bracket,
    expr: Box<E>,
    semi_token: Semi,
    len: Box<E>,
) -> std::result::Result<Box<E>, AllocError>
    ensures { IfOk result (λ b. E.tree b.value ≡ e.frame e.repeat (e.child e.repeated e.no_ending (E.tree expr.value) (e.child e.value e.no_ending (E.tree len.value) e.none))) }
{
    let attrs = Vec::new(alloc);
    let x = E::repeat(ExprRepeatOf {
        attrs,
        bracket_token,
        expr,
        semi_token,
        len,
    });
    Ok(Box::new(alloc, x)?)
}

/// An expression in parentheses, where it is one and no comma is after it; else a tuple.
// Not in the frame of its caller, which is on the stack once for each level of a tree.
#[inline(never)]
#[tactic(auto, using(crate::proofs::Elements::rounds), unfolding(syn_expr_ast::specs::Attrs::attrs_of))]
fn rounded<E: IsExpr + Drop>(
    alloc: Global,
    paren_token: Paren,
    elems: Punctuated<E, Comma>,
) -> std::result::Result<Box<E>, AllocError>
    ensures { IfOk result (λ b. E.tree b.value ≡ read.rounded read.expr (elements (map E.tree (values elems)) (trails elems))) }
{
    let attrs = Vec::new(alloc);
    let x = match elems.into_one() {
        Ok(expr) => E::paren(ExprParenOf {
            attrs,
            paren_token,
            expr,
        }),
        Err(elems) => E::tuple(ExprTupleOf {
            attrs,
            paren_token,
            elems,
        }),
    };
    Ok(Box::new(alloc, x)?)
}

/// The readers over that of the expressions inside.
#[derive(Clone, Copy)]
pub struct Lists<F> {
    /// Reads an expression at a place.
    pub expr: F,
}

impl<E: ReadExprs + Drop, F: Fn(&mut ParseBuffer<'_>, Place) -> Result<Box<E>>> Lists<F> {
    /// Reads an element, and the comma after it; none at the end.
    #[tactic(auto, unfolding(crate::specs::Elements::element))]
    fn element(&self, input: &mut ParseBuffer<'_>) -> Result<(Box<E>, Option<Comma>)>
        requires callable { Callable (weight input.old.rest + 1) (F.pre self.now.expr) }
        requires reads { ReadsExpr E.tree (F.post self.now.expr) }
        ensures value { Reads (λ p. (ending_of p.1, E.tree p.0.value)) (element input.old.rest) result input.new.rest }
        ensures noted { input.new.noted ≡ input.old.noted }
        ensures shrinks { weight input.new.rest ≤ weight input.old.rest }
    {
        let x = Held {
            value: (self.expr)(input, PLAIN)?,
        };
        let comma = comma_or_end(input)?;
        Ok((x.into_inner(), comma))
    }

    /// Reads the elements after those that were read, each with its comma, to the end of the input.
    #[tactic(auto, using(crate::proofs::Elements::turns))]
    fn more_elements(
        &self,
        input: &mut ParseBuffer<'_>,
        found: Punctuated<E, Comma>,
    ) -> Result<Punctuated<E, Comma>>
        requires callable { Callable (weight input.old.rest + 1) (F.pre self.now.expr) }
        requires reads { ReadsExpr E.tree (F.post self.now.expr) }
        requires ready { takes_value found ≡ true }
        ensures value { Reads (λ p. elements (map E.tree (values p)) (trails p)) (gathered (map E.tree (values found)) input.old.rest) result input.new.rest }
        ensures all { IfOk result (λ _. is_empty input.new.rest ≡ true) }
        ensures noted { input.new.noted ≡ input.old.noted }
        ensures shrinks { weight input.new.rest ≤ weight input.old.rest }
    {
        let mut held = Held { value: found };
        'elements: while !input.is_empty() {
            let (x, comma) = self.element(input)?;
            held.value.push_boxed(x);
            let Some(comma) = comma else {
                return Ok(held.into_inner());
            };
            held.value.push_punct(comma)?;
        }
        Ok(held.into_inner())
    }

    /// Reads elements with commas between, and perhaps one at the end, to the end of the input. A missing comma is refused as
    /// `ExpectedToken` of it, and what no expression begins with as the reader of expressions refuses it.
    #[tactic(auto, using(crate::proofs::Elements::starts))]
    pub fn elements(&self, input: &mut ParseBuffer<'_>) -> Result<Punctuated<E, Comma>>
        requires callable { Callable (weight input.old.rest + 1) (F.pre self.now.expr) }
        requires reads { ReadsExpr E.tree (F.post self.now.expr) }
        ensures value { Reads (λ p. elements (map E.tree (values p)) (trails p)) (read.bare_operands read.expr slot.elements input.old.rest) result input.new.rest }
        ensures all { IfOk result (λ _. is_empty input.new.rest ≡ true) }
        ensures noted { input.new.noted ≡ input.old.noted }
        ensures shrinks { weight input.new.rest ≤ weight input.old.rest }
    {
        self.more_elements(input, Punctuated::new(input.alloc()))
    }

    /// Reads the arguments of a call or of a method in their parentheses (Rust Reference, "Call expressions"). Another token is
    /// refused as `ExpectedToken` of `(`, a missing comma as `ExpectedToken` of it.
    #[tactic(auto, unfolding(syn_expr_spec::specs::Read::content))]
    pub fn arguments(&self, input: &mut ParseBuffer<'_>) -> Result<(Paren, Punctuated<E, Comma>)>
        requires callable { Callable (weight input.old.rest) (F.pre self.now.expr) }
        requires reads { ReadsExpr E.tree (F.post self.now.expr) }
        ensures value { Reads (λ a. elements (map E.tree (values a.1)) (trails a.1)) (read.content read.expr (slot.trailer_holder e.call) input.old.rest) result input.new.rest }
        ensures noted { input.new.noted ≡ input.old.noted }
        ensures shrinks { weight input.new.rest ≤ weight input.old.rest }
    {
        let (paren_token, mut content) = input.parse_parens()?;
        let args = self.elements(&mut content)?;
        Ok((paren_token, args))
    }

    /// Reads a tuple, or an expression in parentheses: one without a comma (Rust Reference, "Tuple expressions", "Grouped
    /// expressions"). Another token is refused as `ExpectedToken` of `(`, a missing comma as `ExpectedToken` of it.
    #[tactic(auto, unfolding(syn_expr_spec::specs::Read::content, syn_expr_spec::specs::Read::round_read))]
    pub fn round(&self, input: &mut ParseBuffer<'_>) -> Result<Box<E>>
        requires callable { Callable (weight input.old.rest) (F.pre self.now.expr) }
        requires reads { ReadsExpr E.tree (F.post self.now.expr) }
        ensures value { Reads (λ b. E.tree b.value) (read.round_read read.expr input.old.rest) result input.new.rest }
        ensures noted { input.new.noted ≡ input.old.noted }
        ensures shrinks { weight input.new.rest ≤ weight input.old.rest }
    {
        let (paren_token, elems) = self.arguments(input)?;
        Ok(rounded(input.alloc(), paren_token, elems)?)
    }

    /// Reads an index in its brackets (Rust Reference, "Array and slice indexing expressions"). Another token is refused as
    /// `ExpectedToken` of `[`, what is left after the index as `UnexpectedToken`.
    // Not in the frame of its caller, which is on the stack once for each level of a tree.
    #[inline(never)]
    #[tactic(auto, using(crate::proofs::Elements::singles), unfolding(crate::specs::Elements::single, syn_expr_spec::specs::Read::content))]
    pub fn index(&self, input: &mut ParseBuffer<'_>) -> Result<(Bracket, Box<E>)>
        requires callable { Callable (weight input.old.rest) (F.pre self.now.expr) }
        requires reads { ReadsExpr E.tree (F.post self.now.expr) }
        ensures value { Reads (λ i. e.child e.value e.no_ending (E.tree i.1.value) e.none) (read.content read.expr (slot.trailer_holder e.index) input.old.rest) result input.new.rest }
        ensures noted { input.new.noted ≡ input.old.noted }
        ensures shrinks { weight input.new.rest ≤ weight input.old.rest }
    {
        let (bracket_token, mut content) = input.parse_brackets()?;
        let index = (self.expr)(&mut content, PLAIN)?;
        if !content.is_empty() {
            return Err(given_up(index, content.error(ErrorKind::UnexpectedToken)));
        }
        Ok((bracket_token, index))
    }

    /// Reads the elements of an array after the first expression in its brackets. A missing comma is refused as
    /// `ExpectedCommaOrSemi`.
    // Not in the frame of its caller, which is on the stack once for each level of a tree.
    #[inline(never)]
    #[tactic(auto, using(crate::proofs::Elements::firsts))]
    fn behind_first(
        &self,
        input: &mut ParseBuffer<'_>,
        first: Box<E>,
    ) -> Result<Punctuated<E, Comma>>
        requires callable { Callable (weight input.old.rest) (F.pre self.now.expr) }
        requires reads { ReadsExpr E.tree (F.post self.now.expr) }
        ensures value { Reads (λ p. elements (map E.tree (values p)) (trails p)) (behind_first (E.tree first.value) input.old.rest) result input.new.rest }
        ensures noted { input.new.noted ≡ input.old.noted }
        ensures shrinks { weight input.new.rest ≤ weight input.old.rest }
    {
        let mut held = Held {
            value: Punctuated::new(input.alloc()),
        };
        held.value.push_boxed(first);
        if let Some(comma) = comma(input) {
            held.value.push_punct(comma)?;
            return self.more_elements(input, held.into_inner());
        }
        if !input.is_empty() {
            return Err(input.error(ErrorKind::ExpectedCommaOrSemi));
        }
        Ok(held.into_inner())
    }

    /// Reads what is in brackets.
    // Not in the frame of its caller, which is on the stack once for each level of a tree.
    #[inline(never)]
    #[tactic(auto, unfolding(crate::specs::Elements::bracketed, crate::specs::Elements::single))]
    fn bracketed(&self, input: &mut ParseBuffer<'_>, bracket_token: Bracket) -> Result<Box<E>>
        requires callable { Callable (weight input.old.rest + 1) (F.pre self.now.expr) }
        requires reads { ReadsExpr E.tree (F.post self.now.expr) }
        ensures value { Reads (λ b. E.tree b.value) (bracketed input.old.rest) result input.new.rest }
        ensures noted { input.new.noted ≡ input.old.noted }
        ensures shrinks { weight input.new.rest ≤ weight input.old.rest }
    {
        if input.is_empty() {
            let elems = Punctuated::new(input.alloc());
            return Ok(array(input.alloc(), bracket_token, elems)?);
        }
        let expr = (self.expr)(input, PLAIN)?;
        if let Some(semi_token) = semi(input) {
            let expr = Held { value: expr };
            let len = (self.expr)(input, PLAIN)?;
            let expr = expr.into_inner();
            return Ok(repeat(input.alloc(), bracket_token, expr, semi_token, len)?);
        }
        let elems = self.behind_first(input, expr)?;
        Ok(array(input.alloc(), bracket_token, elems)?)
    }

    /// Reads an array of its elements, or of one that is repeated (Rust Reference, "Array expressions"). Another token is
    /// refused as `ExpectedToken` of `[`, a missing sign after the first element as `ExpectedCommaOrSemi`, a missing comma
    /// after another as `ExpectedToken` of it, and what is left after the length as `UnexpectedToken`.
    // Not in the frame of its caller, which is on the stack once for each level of a tree.
    #[inline(never)]
    #[tactic(auto, using(crate::proofs::Elements::brackets))]
    pub fn bracket(&self, input: &mut ParseBuffer<'_>) -> Result<Box<E>>
        requires callable { Callable (weight input.old.rest) (F.pre self.now.expr) }
        requires reads { ReadsExpr E.tree (F.post self.now.expr) }
        ensures value { Reads (λ b. E.tree b.value) (read.bracket_read read.expr input.old.rest) result input.new.rest }
        ensures noted { input.new.noted ≡ input.old.noted }
        ensures shrinks { weight input.new.rest ≤ weight input.old.rest }
    {
        let (bracket_token, mut content) = input.parse_brackets()?;
        let x = self.bracketed(&mut content, bracket_token)?;
        if !content.is_empty() {
            return Err(given_up(x, content.error(ErrorKind::UnexpectedToken)));
        }
        Ok(x)
    }
}
