//! The readers of operations: an operator after its left operand, and what goes on it (Rust Reference, "Operator
//! expressions", "Expression precedence"). Prefix operators are counted, the operand is read, and then it is wrapped by each
//! of them. So their number takes no stack.

ghost use Rattle.std.specs.Prelude.{◌≡◌, ◌≤◌, ◌+◌, false, ◌<◌, true, IfSome, length, take};
ghost use Rattle.syn_expr_parse.specs.Reads.{Callable, ReadsExpr};
ghost use Rattle.syn_expr_parse.specs.Operators.{operations, right_operand, are_operators, operator_at, operator_of, wrapped};
ghost use Rattle.syn_expr_spec.specs.Op as op_spec;
ghost use Rattle.syn_expr_spec.specs.Read as read;
ghost use Rattle.syn_expr_spec.specs.declared.kinds.Infix.TheVariants as inf;
ghost use Rattle.syn_lower_leaves.specs.Reads.{Reads};
ghost use Rattle.syn_tokens.specs.Tok.{weight};
ghost use Rattle.syn_expr_parse.specs.Led as led;
ghost use Rattle.syn_expr_spec.specs.Tree as e;
ghost use Rattle.syn_lower_leaves.specs.View.{mapped};
ghost use Rattle.syn_expr_tokens.specs.View.{un_kind};
ghost use Rattle.syn_tokens.specs.View.{tok_of, toks_of};

use crate::kinds::ReadExprs;
use crate::known::{Held, at, chains, closes, given_up, next_operator, stops};
use crate::make;
use crate::operands::Grammar;
use syn_expr_spec::kinds::{Infix, Limits, Place, Precedence};
use syn_expr_tokens::atom::{TrailerStart, trailer_start};
use syn_expr_tokens::op::{UnOp, ends_open_range, left_arrow_at, level as level_of};
use syn_lower::readers::ty;
use syn_tokens::buffer::{ParseBuffer, Token};
use syn_tokens::error::{AfterCast, Error, ErrorKind, Result};
use syn_tokens::token::{As, Await, Eq, Paren, PathSep, Sign};
use syn_tokens::tree::{Span, TokenTree};

/// Which trailer with a dot comes first.
fn dotted_trailer(trees: &[TokenTree]) -> AfterCast {
    match trees {
        [_, name @ ..] if Await::peek(name) => AfterCast::Await,
        [_, _, more @ ..] if Paren::peek(more) || PathSep::peek(more) => AfterCast::MethodCall,
        _ => AfterCast::FieldAccess,
    }
}

/// The refusal of the trailer that comes first after a cast.
fn after_cast(input: &ParseBuffer<'_>) -> Error {
    let trailer = match trailer_start(input) {
        TrailerStart::Call => AfterCast::FunctionCall,
        TrailerStart::Index => AfterCast::Indexing,
        TrailerStart::Question => AfterCast::Question,
        TrailerStart::Dot | TrailerStart::Absent => dotted_trailer(input.trees()),
    };
    input.error(ErrorKind::AfterCast(trailer))
}

/// The refusal of what comes after a whole expression.
fn refusal(input: &ParseBuffer<'_>) -> Error {
    if left_arrow_at(input) {
        input.error(ErrorKind::LeftArrow)
    } else {
        input.error(ErrorKind::UnexpectedToken)
    }
}

impl<E: ReadExprs + Drop, F: Fn(&mut ParseBuffer<'_>, Place) -> Result<Box<E>>> Grammar<F> {
    /// Reads the right operand of an operator that is no range's.
    #[tactic(auto, unfolding(syn_expr_spec::specs::Stands::ends_operation))]
    fn right(&self, input: &mut ParseBuffer<'_>, place: Place, op: Infix) -> Result<Box<E>>
        requires callable { Callable (weight input.old.rest + 1) (F.pre self.now.expr) }
        requires reads { ReadsExpr E.tree (F.post self.now.expr) }
        requires no_range { op_spec.is_range_op op ≡ false }
        ensures value { Reads (λ b. E.tree b.value) (right_operand place op input.old.rest) result input.new.rest }
        ensures noted { input.new.noted ≡ input.old.noted }
        ensures shrinks { weight input.new.rest ≤ weight input.old.rest }
    {
        let right = (self.expr)(input, at(place, level_of(op)))?;
        if left_arrow_at(input) {
            return Err(given_up(right, input.error(ErrorKind::LeftArrow)));
        }
        Ok(right)
    }

    /// Reads what comes after the operator of a range: its end, or nothing.
    // Not in the frame of its caller, which is on the stack once for each level of a tree.
    #[inline(never)]
    #[tactic(auto, unfolding(syn_expr_spec::specs::Read::longer, syn_expr_spec::specs::Stands::ends_operation, syn_expr_spec::specs::Stands::infix_stands, syn_expr_spec::specs::Stands::postfix_stands))]
    fn range(
        &self,
        input: &mut ParseBuffer<'_>,
        place: Place,
        start: Box<E>,
        kind: Limits,
        spans: [Span; 3],
    ) -> Result<Box<E>>
        requires callable { Callable (weight input.old.rest + 1) (F.pre self.now.expr) }
        requires reads { ReadsExpr E.tree (F.post self.now.expr) }
        ensures value { Reads (λ b. E.tree b.value) (read.longer read.expr place (E.tree start.value) (inf.Range kind) input.old.rest) result input.new.rest }
        ensures noted { input.new.noted ≡ input.old.noted }
        ensures shrinks { weight input.new.rest ≤ weight input.old.rest }
    {
        let limits = make::limits(kind, spans);
        if matches!(kind, Limits::HalfOpen) && ends_open_range(input, place.condition) {
            return Ok(make::range_from(input.alloc(), start, limits)?);
        }
        let start = Held { value: start };
        let end = (self.expr)(input, at(place, Precedence::Range))?;
        Ok(make::range_between(input.alloc(), start.into_inner(), limits, end)?)
    }

    /// Reads what comes after an operator, which was taken, and its left operand: the operation that they are.
    // Not in the frame of its caller, which is on the stack once for each level of a tree.
    #[inline(never)]
    #[tactic(auto, unfolding(syn_expr_spec::specs::Read::longer, syn_expr_spec::specs::Stands::ends_operation, syn_expr_spec::specs::Stands::infix_stands, syn_expr_spec::specs::Stands::postfix_stands))]
    fn longer(
        &self,
        input: &mut ParseBuffer<'_>,
        place: Place,
        left: Box<E>,
        op: Infix,
        spans: [Span; 3],
    ) -> Result<Box<E>>
        requires callable { Callable (weight input.old.rest + 1) (F.pre self.now.expr) }
        requires reads { ReadsExpr E.tree (F.post self.now.expr) }
        ensures value { Reads (λ b. E.tree b.value) (read.longer read.expr place (E.tree left.value) op input.old.rest) result input.new.rest }
        ensures noted { input.new.noted ≡ input.old.noted }
        ensures shrinks { weight input.new.rest ≤ weight input.old.rest }
    {
        let [first, _, _] = spans;
        let left = Held { value: left };
        match op {
            Infix::Binary(kind) => {
                let right = self.right(input, place, op)?;
                Ok(make::binary(input.alloc(), left.into_inner(), kind, spans, right)?)
            }
            Infix::Assign => {
                let right = self.right(input, place, op)?;
                let eq_token = Eq { spans: [first] };
                Ok(make::assign(input.alloc(), left.into_inner(), eq_token, right)?)
            }
            Infix::Range(kind) => self.range(input, place, left.into_inner(), kind, spans),
            Infix::Cast => {
                let ty = ty(input, false)?;
                if left_arrow_at(input) {
                    return Err(input.error(ErrorKind::LeftArrow));
                }
                Ok(make::cast(input.alloc(), left.into_inner(), As { span: first }, ty)?)
            }
        }
    }

    /// Reads the operations after a left operand, as many as the place takes.
    ///
    /// It is refused as `ChainedComparison` at the second of two comparisons without parentheses, as `AfterCast` at a trailer
    /// after a cast, as `LeftArrow` at `<-`, as `UnexpectedToken` at `...`, and inside as an operand or a type is.
    #[tactic(auto, using(crate::proofs::Loops::operators))]
    pub(crate) fn climb(
        &self,
        input: &mut ParseBuffer<'_>,
        place: Place,
        mut left: Box<E>,
    ) -> Result<Box<E>>
        requires callable { Callable (weight input.old.rest) (F.pre self.now.expr) }
        requires reads { ReadsExpr E.tree (F.post self.now.expr) }
        ensures value { Reads (λ b. E.tree b.value) (operations place (E.tree left.value) input.old.rest) result input.new.rest }
        ensures noted { input.new.noted ≡ input.old.noted }
        ensures shrinks { weight input.new.rest ≤ weight input.old.rest }
    {
        'operators: while let Some((op, count)) = next_operator(input, place, &*left) {
            if chains(op, &*left) {
                return Err(given_up(left, input.error(ErrorKind::ChainedComparison)));
            }
            let spans = input.spans();
            input.skip(count);
            left = self.longer(input, place, left, op, spans)?;
            if !closes(input, place, &*left) {
                return Err(given_up(left, after_cast(input)));
            }
        }
        if !stops(input, place, &*left) {
            return Err(given_up(left, refusal(input)));
        }
        Ok(left)
    }
}

/// The prefix operator that a token is, joined to the next or not.
#[tactic(auto, unfolding(crate::specs::Operators::operator_of))]
fn operator(tree: &TokenTree) -> Option<UnOp>
    ensures { mapped un_kind result ≡ operator_of (tok_of tree.now) }
{
    match tree {
        TokenTree::Punct(punct) => {
            let spans = [punct.span];
            match punct.ch {
                '*' => Some(UnOp::Deref(Sign { spans })),
                '!' => Some(UnOp::Not(Sign { spans })),
                '-' => Some(UnOp::Neg(Sign { spans })),
                _ => None,
            }
        }
        _ => None,
    }
}

/// The prefix operator that comes first.
#[tactic(auto, using(crate::proofs::Operators::first_taken))]
pub(crate) fn first_operator(input: &ParseBuffer<'_>) -> Option<UnOp>
    ensures value { mapped un_kind result ≡ operator_at input.now.rest }
    ensures present { IfSome result (λ _. 0 < length input.now.rest) }
{
    operator(input.first()?)
}

/// How many prefix operators come first, one after the other.
#[tactic(auto, using(crate::proofs::Operators::counted))]
fn operator_count(trees: &[TokenTree]) -> usize
    ensures all { are_operators (take result (toks_of trees.now)) ≡ true }
    ensures within { result ≤ length trees.now }
{
    let mut count = 0usize;
    let mut rest = trees;
    'operators: while let [first, more @ ..] = rest {
        if operator(first).is_none() {
            break;
        }
        count += 1;
        rest = more;
    }
    count
}

impl<E: ReadExprs + Drop, F: Fn(&mut ParseBuffer<'_>, Place) -> Result<Box<E>> + Copy> Grammar<F> {
    /// Wraps an operand in the prefix operators before it, the last of them first, each with the trailers after it.
    #[tactic(auto, using(crate::proofs::Operators::wraps))]
    fn wrapped(
        &self,
        input: &mut ParseBuffer<'_>,
        place: Place,
        mut operators: &[TokenTree],
        mut x: Box<E>,
    ) -> Result<Box<E>>
        requires callable { Callable (weight input.old.rest) (F.pre self.now.expr) }
        requires reads { ReadsExpr E.tree (F.post self.now.expr) }
        ensures value { Reads (λ b. E.tree b.value) (wrapped place (toks_of operators.entry.now) (E.tree x.value) input.old.rest) result input.new.rest }
        ensures noted { input.new.noted ≡ input.old.noted }
        ensures shrinks { weight input.new.rest ≤ weight input.old.rest }
    {
        'operators: while let [before @ .., last] = operators {
            if let Some(op) = operator(last) {
                x = make::unary(input.alloc(), op, x)?;
                x = self.trail(input, place, x)?;
            }
            operators = before;
        }
        Ok(x)
    }

    /// Reads the operand of a prefix operator, which was taken.
    // Not in the frame of its caller, which is on the stack once for each level of a tree.
    #[inline(never)]
    #[tactic(auto, using(crate::proofs::Operators::chains))]
    pub(crate) fn prefixed(
        &self,
        input: &mut ParseBuffer<'_>,
        place: Place,
        op: UnOp,
    ) -> Result<Box<E>>
        requires callable { Callable (weight input.old.rest + 1) (F.pre self.now.expr) }
        requires reads { ReadsExpr E.tree (F.post self.now.expr) }
        ensures value { Reads (λ b. E.tree b.value) (led.behind place (e.unary (un_kind op)) input.old.rest) result input.new.rest }
        ensures noted { input.new.noted ≡ input.old.noted }
        ensures shrinks { weight input.new.rest ≤ weight input.old.rest }
    {
        let inner = at(place, Precedence::Prefix);
        let trees = input.trees();
        let count = operator_count(trees);
        input.skip(count);
        let x = (self.expr)(input, inner)?;
        let x = self.wrapped(input, inner, &trees[..count], x)?;
        Ok(make::unary(input.alloc(), op, x)?)
    }
}
