//! Where an expression is printed: what decides about its parentheses, but the expression itself.

ghost use Rattle.std.specs.Prelude.{◌≡◌, false, if◌then◌else◌, Some, None};
ghost use Rattle.syn_expr_spec.specs.Next as spec;
ghost use Rattle.syn_expr_spec.specs.Next.{base_context, class_of, is_half_open, prefix_context, left_context, right_context};
ghost use Rattle.syn_expr_spec.specs.Rule.{bad, base_wrapped, left_wrapped, low, place_wrapped};
ghost use Rattle.syn_expr_spec.specs.Tree as e;
ghost use Rattle.syn_expr_spec.specs.Tree.{Prefix, Trailer};
ghost use Rattle.syn_expr_spec.specs.declared.kinds.Infix.{Infix};
ghost use Rattle.syn_expr_spec.specs.declared.kinds.Precedence.TheVariants as lev;
ghost use Rattle.syn_expr_spec.specs.declared.next.Next.TheVariants as next;
ghost use Rattle.syn_expr_fixup.specs.Fixup.{Fits, is_jump, is_optional, level_if, parenthesized, whole_at};
ghost use Rattle.syn_expr_fixup.specs.Operator.{operator_at};

use crate::context::{
    base_context, base_wrapped_by, has, in_arm, in_condition, in_statement, is_block_next,
    is_brace_next, left_context, left_wrapped_by, misplaced_by, without_block, wrapped_by,
};
use crate::summary_of;
use std::marker::Model;
use syn_expr_ast::label::TrailerKind;
use syn_expr_ast::node::{HasKind, HasNode};
use syn_expr_spec::kinds::{BinKind, Infix, Limits, Precedence};
use syn_expr_spec::next::{Context, Edge, Next};

/// Where an expression is printed: what is round it and after it, and how tightly it has to bind there.
///
/// `if (S {}) {}` and `x = S {}`: a struct expression needs parentheses in a condition.
/// `(match x {}) + 1;` and `x = match x {} + 1;`: a block-like expression needs them at the head of a statement where
/// something follows it.
/// `(a + b) * c` and `a + b`: an operator needs them where the place takes a tighter one.
#[derive(Clone, Copy)]
pub struct FixupContext {
    context: Context,
    level: Precedence,
}

impl Model for FixupContext {
    ghost use Rattle.syn_expr_fixup.specs.Fixup.{Fixup};

    ghost Value = { Fixup };

    ghost view = { λ f. record { context = f.context; level = f.level } };

    ghost inverse = { λ v. record { context = v.context; level = v.level } };
}

/// The level that answers a question about an operand: the lowest where it is put in parentheses, else the highest.
fn level_if(wrapped: bool) -> Precedence
    ensures { result ≡ level_if wrapped }
{
    if wrapped {
        Precedence::Jump
    } else {
        Precedence::Unambiguous
    }
}

/// An operator of the level, whose first token begins an expression or generic arguments as is said; none for a level of no
/// infix operator.
fn operator_by(level: Precedence, can_begin_expr: bool, can_begin_generics: bool) -> Option<Infix>
    ensures { result ≡ operator_at level can_begin_expr can_begin_generics }
{
    match level {
        Precedence::Assign => {
            if can_begin_generics {
                Some(Infix::Binary(BinKind::ShlAssign))
            } else {
                Some(Infix::Assign)
            }
        }
        Precedence::Range => Some(Infix::Range(Limits::HalfOpen)),
        Precedence::Or => Some(Infix::Binary(BinKind::Or)),
        Precedence::And => Some(Infix::Binary(BinKind::And)),
        Precedence::Compare => {
            Some(Infix::Binary(if can_begin_expr {
                BinKind::Lt
            } else {
                BinKind::Eq
            }))
        }
        Precedence::BitOr => Some(Infix::Binary(BinKind::BitOr)),
        Precedence::BitXor => Some(Infix::Binary(BinKind::BitXor)),
        Precedence::BitAnd => Some(Infix::Binary(BinKind::BitAnd)),
        Precedence::Shift => {
            Some(Infix::Binary(if can_begin_expr {
                BinKind::Shl
            } else {
                BinKind::Shr
            }))
        }
        Precedence::Sum => {
            Some(Infix::Binary(if can_begin_expr {
                BinKind::Sub
            } else {
                BinKind::Add
            }))
        }
        Precedence::Product => {
            Some(Infix::Binary(if can_begin_expr {
                BinKind::Mul
            } else {
                BinKind::Div
            }))
        }
        Precedence::Cast => Some(Infix::Cast),
        Precedence::Jump | Precedence::Let | Precedence::Prefix | Precedence::Unambiguous => None,
    }
}

/// Without a block, where a jump's value is: a brace after it would be that of a struct expression.
fn reset_next(reset: bool, next: Next) -> Next
    ensures { result ≡ (if reset then spec.without_block next else next) }
{
    if reset { without_block(next) } else { next }
}

impl FixupContext {
    /// For itself, with nothing round it and nothing after.
    ///
    /// `(a + b) * c` needs its parentheses; `a * b + c` none.
    pub const NONE: FixupContext = FixupContext {
        context: Context {
            condition: false,
            edge: Edge::Free,
            next: Next::End,
        },
        level: Precedence::Jump,
    };

    /// At the head of a statement (Rust Reference, "Expression statements").
    ///
    /// `({ a }) + b;` needs its parentheses, since the block would be a statement of its own; `a + { b };` none.
    pub fn new_stmt() -> FixupContext
        ensures { result ≡ whole_at spec.in_statement }
    {
        FixupContext {
            context: in_statement(),
            level: Precedence::Jump,
        }
    }

    /// The body of a match arm (Rust Reference, "`match` expressions").
    ///
    /// `_ => ({ a }) + b,` needs its parentheses; `_ => { a }.b,` none.
    pub fn new_match_arm() -> FixupContext
        ensures { result ≡ whole_at spec.in_arm }
    {
        FixupContext {
            context: in_arm(),
            level: Precedence::Jump,
        }
    }

    /// Before the block of an `if`, `while`, `match` or `for` (Rust Reference, "`if` expressions").
    ///
    /// `if (S {}) {}` needs its parentheses; `if f(S {}) {}` none.
    pub fn new_condition() -> FixupContext
        ensures { result ≡ whole_at spec.in_condition }
    {
        FixupContext {
            context: in_condition(),
            level: Precedence::Jump,
        }
    }

    /// What the rule asks of the place.
    pub fn context(self) -> Context
        ensures { result ≡ self.context }
    {
        self.context
    }

    /// What decides about a left operand of an operator with this precedence: `Unambiguous` where it is left bare for its
    /// level, else `Jump`, and the place of the operand. Two flags say whether the operator's first token can begin an
    /// expression (`-`) and generic arguments (`<`). With a level that no infix operator has (`Unambiguous`, `Prefix`, `Let`,
    /// `Jump`): the base of an index. Of flags that no operator of the level has, those of one of its operators count:
    /// of the first flag in a comparison, a shift, a sum or a product, of the second in an assignment, else of neither.
    ///
    /// `(a + b) * c` needs its parentheses; `a * b + c` none.
    /// `next_operator_can_begin_expr`: `(return) - 1` needs its parentheses; `return + 1` none.
    /// `next_operator_can_begin_generics`: `(x as T) <<= y` needs its parentheses; `x as T += y` none.
    #[tactic(auto, using(crate::proofs::Classes::operands))]
    pub fn leftmost_subexpression_with_operator<E: HasNode + HasKind>(
        self,
        expr: &E,
        next_operator_can_begin_expr: bool,
        next_operator_can_begin_generics: bool,
        precedence: Precedence,
    ) -> (Precedence, FixupContext)
        ensures level { (k : Infix) → Fits k precedence next_operator_can_begin_expr next_operator_can_begin_generics
            → result.0 ≡ level_if (left_wrapped k (E.tree expr.now) (bad (E.tree expr.now) (class_of k))) }
        ensures place { (k : Infix) → Fits k precedence next_operator_can_begin_expr next_operator_can_begin_generics
            → result.1.context ≡ left_context k self.context }
        ensures bound { result.1.level ≡ precedence }
        // Of flags that no operator of the level has, it is as with those of this one.
        ensures chosen { (k : Infix) → operator_at precedence next_operator_can_begin_expr next_operator_can_begin_generics ≡ Some k
            → result.0 ≡ level_if (left_wrapped k (E.tree expr.now) (bad (E.tree expr.now) (class_of k))) }
        ensures chosen_place { (k : Infix) → operator_at precedence next_operator_can_begin_expr next_operator_can_begin_generics ≡ Some k
            → result.1.context ≡ left_context k self.context }
        // No infix operator has the level.
        ensures base { operator_at precedence next_operator_can_begin_expr next_operator_can_begin_generics ≡ None
            → result.0 ≡ level_if (base_wrapped e.index (E.tree expr.now) (bad (E.tree expr.now) next.Bracket)) }
        ensures based { operator_at precedence next_operator_can_begin_expr next_operator_can_begin_generics ≡ None
            → result.1.context ≡ base_context e.index self.context }
    {
        let summary = summary_of(expr);
        match operator_by(
            precedence,
            next_operator_can_begin_expr,
            next_operator_can_begin_generics,
        ) {
            Some(op) => {
                let place = FixupContext {
                    context: left_context(op, self.context),
                    level: precedence,
                };
                (level_if(left_wrapped_by(op, summary)), place)
            }
            None => {
                let place = FixupContext {
                    context: base_context(TrailerKind::Index, self.context),
                    level: precedence,
                };
                (
                    level_if(base_wrapped_by(TrailerKind::Index, summary)),
                    place,
                )
            }
        }
    }

    /// What decides about the base before a dot: `Unambiguous` where it is left bare for its level, else `Jump`, and the
    /// place of the base.
    ///
    /// `(a + b).c` needs its parentheses; `a[b].c` none.
    #[tactic(auto, using(crate::proofs::Classes::operands))]
    pub fn leftmost_subexpression_with_dot<E: HasNode + HasKind>(
        self,
        expr: &E,
    ) -> (Precedence, FixupContext)
        ensures level { (k : Trailer) → spec.next_of k ≡ next.Dot → result.0 ≡ level_if (base_wrapped k (E.tree expr.now) (bad (E.tree expr.now) next.Dot)) }
        ensures place { (k : Trailer) → spec.next_of k ≡ next.Dot → result.1.context ≡ base_context k self.context }
        ensures bound { result.1.level ≡ lev.Unambiguous }
    {
        let place = FixupContext {
            context: base_context(TrailerKind::Await, self.context),
            level: Precedence::Unambiguous,
        };
        (
            level_if(base_wrapped_by(TrailerKind::Await, summary_of(expr))),
            place,
        )
    }

    /// What decides about an operand at the right end, after an operator of this precedence: `Unambiguous` where it is left
    /// bare for its level, else `Jump`, and the place of the operand. After `..`, where the operand might be left out, ask
    /// `rightmost_subexpression_fixup` with `optional_operand`, and then `rightmost_subexpression_precedence`.
    ///
    /// `a - (b - c)` needs its parentheses; `a - b * c` none.
    pub fn rightmost_subexpression<E: HasNode + HasKind>(
        self,
        expr: &E,
        precedence: Precedence,
    ) -> (Precedence, FixupContext)
        ensures level { result.0 ≡ level_if (place_wrapped precedence (E.tree expr.now) self.context.next (low (E.tree expr.now)) (bad (E.tree expr.now) self.context.next)) }
        ensures place { (k : Infix) → is_half_open k ≡ false → result.1.context ≡ right_context k self.context }
        ensures bound { result.1.level ≡ precedence }
    {
        let place = self.rightmost_subexpression_fixup(false, false, precedence);
        (place.rightmost_subexpression_precedence(expr), place)
    }

    /// The place of an operand at the right end, after an operator of this precedence. `reset_allow_struct`: after a jump,
    /// where struct expressions may be even in a condition. `optional_operand`: it might be left out, so that in a
    /// condition a brace there would be that of the block.
    ///
    /// `reset_allow_struct`: `if x == (S {}) {}` needs its parentheses; `if return S {} {}` none.
    /// `optional_operand`: `if a..({ b }) {}` needs its parentheses; `if a..={ b } {}` none.
    pub fn rightmost_subexpression_fixup(
        self,
        reset_allow_struct: bool,
        optional_operand: bool,
        precedence: Precedence,
    ) -> FixupContext
        ensures right { (k : Infix) → reset_allow_struct ≡ false → optional_operand ≡ is_half_open k → result.context ≡ right_context k self.context }
        ensures prefix { (k : Prefix) → reset_allow_struct ≡ is_jump k → optional_operand ≡ is_optional k → result.context ≡ prefix_context k self.context }
        ensures level { result.level ≡ precedence }
    {
        let context = Context {
            condition: !reset_allow_struct && self.context.condition,
            edge: if optional_operand && self.context.condition {
                Edge::NoBrace
            } else {
                Edge::Free
            },
            next: reset_next(reset_allow_struct, self.context.next),
        };
        FixupContext {
            context,
            level: precedence,
        }
    }

    /// Whether an operand in this place is left bare for its level: `Unambiguous` where it is, else `Jump`.
    ///
    /// After `-`, `(a - b)` needs its parentheses; `a * b` none.
    #[tactic(auto, using(crate::proofs::Classes::operands))]
    pub fn rightmost_subexpression_precedence<E: HasNode + HasKind>(self, expr: &E) -> Precedence
        ensures { result ≡ level_if (place_wrapped self.level (E.tree expr.now) self.context.next (low (E.tree expr.now)) (bad (E.tree expr.now) self.context.next)) }
    {
        level_if(wrapped_by(self.level, summary_of(expr), self.context.next))
    }

    /// Whether this place refuses an expression for what it is itself, or for the brace after the place, which it would take.
    /// For itself: below the head of a statement or of an arm's body a block-like expression; at the head of a statement and
    /// below it a `let`, and below it a macro with braces; in a condition a struct expression that is in no jump's value, and
    /// a block without a label and outer attributes, first after a `..` or `break` that is in none. For the brace: before the
    /// block of a condition a `return` or `yield` without a value; where that is in a jump's value, a `break` without a value
    /// too, a path, and a range without an end and outer attributes.
    ///
    /// `if (S {}) {}` needs its parentheses; `x = S {}` none.
    #[tactic(auto, using(crate::proofs::Classes::operands))]
    pub fn parenthesize<E: HasNode + HasKind>(self, expr: &E) -> bool
        ensures { result ≡ parenthesized self.context (E.tree expr.now) }
    {
        let summary = summary_of(expr);
        let next = self.context.next;
        misplaced_by(self.context, summary.sort)
            || (is_block_next(next) || is_brace_next(next)) && has(summary.ends, next)
    }
}
