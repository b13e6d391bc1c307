//! The readers of what comes before an operand, and of what holds a pattern before one (Rust Reference, "Operator
//! expressions", "`let` expressions", "Loop expressions", "Match expressions").

ghost use Rattle.std.specs.Prelude.{◌≡◌, ◌≤◌, ◌+◌, IfOk, [], true};
ghost use Rattle.syn_expr_heads.specs.Prefixes as prefixes;
ghost use Rattle.syn_expr_heads.specs.Reads.{CallableArg, ReadsArg, ReadsPat};
ghost use Rattle.syn_expr_heads.specs.View.{arm_guards, arm_of, prefix_guards, prefix_of};
ghost use Rattle.syn_expr_spec.specs.Head as head;
ghost use Rattle.syn_expr_spec.specs.Slot as slot;
ghost use Rattle.syn_lower_leaves.specs.Reads.{Reads};
ghost use Rattle.syn_lower.specs.Reads.{Callable};
ghost use Rattle.syn_lower_spec.specs.Pat as pat;
ghost use Rattle.syn_tokens.specs.Tok.{weight};

use crate::closure::Closures;
use crate::leaf::{ArmHead, ForHead, PrefixHead, jump_head};
use crate::word::{fat_arrow, if_word, in_word, let_word, minus, raw_word};
use syn_expr_tokens::atom::{jump_at, range_at, raw_at};
use syn_expr_tokens::limits::range_limits;
use syn_expr_tokens::op::UnOp;
use syn_lower_leaves::front::{and, bang, eq, for_word, lifetimes_at, mutable, star};
use syn_lower_leaves::leaf::outer_attributes;
use syn_lower_leaves::readers::pointer_mutability;
use syn_pat::kinds::HasPatTree;
use syn_tokens::buffer::{ParseBuffer, Token};
use syn_tokens::error::{ErrorKind, Expected, Result};
use syn_tokens::token::{And, Eq, FatArrow, In, Let, Raw};

/// The readers of what holds patterns, over those of the patterns.
#[derive(Clone, Copy)]
pub struct Prefixes<F, G> {
    /// Reads a pattern; after it there may be `|` and more, or one alone.
    pub pat: F,
    /// Reads the argument of a closure.
    pub arg: G,
}

/// Reads what comes after `&` before an operand: `raw` and `mut` or `const`, or `mut` or nothing.
fn borrow<P: HasPatTree + Drop>(
    input: &mut ParseBuffer<'_>,
    and_token: And,
) -> Result<PrefixHead<P>>
    ensures value { Reads (prefix_of P.view) (prefixes.borrow.reads input.old.rest) result input.new.rest }
    ensures bare { IfOk result (λ h. prefix_guards P.view h ≡ []) }
    ensures noted { input.new.noted ≡ input.old.noted }
    ensures shrinks { weight input.new.rest ≤ weight input.old.rest }
{
    if !raw_at(input) {
        return Ok(PrefixHead::Reference(and_token, mutable(input)));
    }
    let Some(raw) = raw_word(input) else {
        return Err(input.error(ErrorKind::ExpectedToken(Expected::One(Raw::wanted()))));
    };
    let mutability = pointer_mutability(input)?;
    Ok(PrefixHead::RawAddr(and_token, raw, mutability))
}

impl<
    P: HasPatTree + Drop,
    F: Fn(&mut ParseBuffer<'_>, bool) -> Result<P>,
    G: Fn(&mut ParseBuffer<'_>) -> Result<P> + Copy,
> Prefixes<F, G> {
    /// Reads a pattern and `=` after `let`.
    fn let_expr(&self, input: &mut ParseBuffer<'_>, let_token: Let) -> Result<PrefixHead<P>>
        requires pat { Callable (weight input.old.rest + 1) (F.pre self.now.pat) }
        requires reads { ReadsPat P.view (F.post self.now.pat) }
        ensures value { Reads (prefix_of P.view) (prefixes.let_expr.reads input.old.rest) result input.new.rest }
        ensures bare { IfOk result (λ h. prefix_guards P.view h ≡ []) }
        ensures noted { input.new.noted ≡ input.old.noted }
        ensures shrinks { weight input.new.rest ≤ weight input.old.rest }
    {
        let pat = (self.pat)(input, true)?;
        let Some(eq_token) = eq(input) else {
            return Err(input.error(ErrorKind::ExpectedToken(Expected::One(Eq::wanted()))));
        };
        Ok(PrefixHead::Let(let_token, pat, eq_token))
    }

    /// Reads what begins with a range's operator, a word or a bar.
    fn word_prefix(&self, input: &mut ParseBuffer<'_>) -> Result<PrefixHead<P>>
        requires pat { Callable (weight input.old.rest + 1) (F.pre self.now.pat) }
        requires reads { ReadsPat P.view (F.post self.now.pat) }
        requires arg { CallableArg (weight input.old.rest) (G.pre self.now.arg) }
        requires arg_reads { ReadsArg P.view (G.post self.now.arg) }
        ensures value { Reads (prefix_of P.view) (prefixes.word_prefix.reads input.old.rest) result input.new.rest }
        ensures bare { IfOk result (λ h. prefix_guards P.view h ≡ []) }
        ensures noted { input.new.noted ≡ input.old.noted }
        ensures shrinks { weight input.new.rest ≤ weight input.old.rest }
    {
        if range_at(input) {
            return Ok(PrefixHead::RangeTo(range_limits(input)?));
        }
        if let Some(let_token) = let_word(input) {
            return self.let_expr(input, let_token);
        }
        if jump_at(input) {
            return Ok(PrefixHead::Jump(jump_head(input)?));
        }
        let closures = Closures { arg: self.arg };
        Ok(PrefixHead::Closure(closures.closure_head(input)?))
    }

    /// Reads what comes before an operand, by what is first: a prefix operator, `&`, the operator of a range, `let` with
    /// its pattern, a jump, or a closure up to its body (Rust Reference, "Operator expressions", "Borrow operators", "Range
    /// expressions", "`let` expressions", "Closure expressions").
    ///
    /// It is refused as `ExpectedToken` of `|` where none of them begins, as `ExpectedToken` where another token is missing,
    /// and inside as a pattern, an argument of a closure or a type is.
    #[tactic(auto, unfolding(syn_expr_spec::specs::Head::prefix_form))]
    pub fn prefix(&self, input: &mut ParseBuffer<'_>) -> Result<PrefixHead<P>>
        requires pat { Callable (weight input.old.rest + 1) (F.pre self.now.pat) }
        requires reads { ReadsPat P.view (F.post self.now.pat) }
        requires arg { CallableArg (weight input.old.rest) (G.pre self.now.arg) }
        requires arg_reads { ReadsArg P.view (G.post self.now.arg) }
        ensures value { Reads (prefix_of P.view) (head.prefix_form.reads input.old.rest) result input.new.rest }
        ensures bare { IfOk result (λ h. prefix_guards P.view h ≡ []) }
        ensures noted { input.new.noted ≡ input.old.noted }
        ensures shrinks { weight input.new.rest ≤ weight input.old.rest }
    {
        if let Some(star_token) = star(input) {
            return Ok(PrefixHead::Unary(UnOp::Deref(star_token)));
        }
        if let Some(bang_token) = bang(input) {
            return Ok(PrefixHead::Unary(UnOp::Not(bang_token)));
        }
        if let Some(minus_token) = minus(input) {
            return Ok(PrefixHead::Unary(UnOp::Neg(minus_token)));
        }
        if let Some(and_token) = and(input) {
            return borrow(input, and_token);
        }
        self.word_prefix(input)
    }

    /// Reads `for` that begins no lifetimes, a pattern and `in` (Rust Reference, "Iterator loops"). Where there is no `for`, which
    /// can only be after a label, it is refused as `ExpectedLoopOrBlock`, else as `ExpectedToken` of `in`, and inside as a
    /// pattern is.
    pub fn for_head(&self, input: &mut ParseBuffer<'_>) -> Result<ForHead<P>>
        requires pat { Callable (weight input.old.rest + 1) (F.pre self.now.pat) }
        requires reads { ReadsPat P.view (F.post self.now.pat) }
        ensures value { Reads (λ h. (P.view h.pat).tree) (slot.for_head.reads input.old.rest) result input.new.rest }
        ensures bare { IfOk result (λ h. (P.view h.pat).guards ≡ []) }
        ensures noted { input.new.noted ≡ input.old.noted }
        ensures shrinks { weight input.new.rest ≤ weight input.old.rest }
    {
        if lifetimes_at(input) {
            return Err(input.error(ErrorKind::ExpectedLoopOrBlock));
        }
        let Some(for_token) = for_word(input) else {
            return Err(input.error(ErrorKind::ExpectedLoopOrBlock));
        };
        let pat = (self.pat)(input, true)?;
        let Some(in_token) = in_word(input) else {
            return Err(input.error(ErrorKind::ExpectedToken(Expected::One(In::wanted()))));
        };
        Ok(ForHead {
            for_token,
            pat,
            in_token,
        })
    }

    /// Reads an arm up to its guard or its body: attributes, a pattern, and `if` or `=>` (Rust Reference, "Match
    /// expressions"). It is refused as `ExpectedToken` of `=>`, and of `[` at an attribute without brackets, and inside as a
    /// pattern is.
    #[tactic(auto, unfolding(syn_expr_spec::specs::Slot::piece_form))]
    pub fn arm(&self, input: &mut ParseBuffer<'_>) -> Result<ArmHead<P>>
        requires pat { Callable (weight input.old.rest + 1) (F.pre self.now.pat) }
        requires reads { ReadsPat P.view (F.post self.now.pat) }
        ensures value { Reads (arm_of P.view) ((slot.piece_form slot.arms).reads input.old.rest) result input.new.rest }
        ensures bare { IfOk result (λ h. arm_guards P.view h ≡ []) }
        ensures noted { input.new.noted ≡ input.old.noted }
        ensures shrinks { weight input.new.rest ≤ weight input.old.rest }
    {
        let attrs = outer_attributes(input)?;
        let pat = (self.pat)(input, true)?;
        if let Some(if_token) = if_word(input) {
            return Ok(ArmHead::Guard(attrs, pat, if_token));
        }
        let Some(fat_arrow_token) = fat_arrow(input) else {
            let wanted = Expected::One(FatArrow::wanted());
            return Err(input.error(ErrorKind::ExpectedToken(wanted)));
        };
        Ok(ArmHead::Arm(attrs, pat, fat_arrow_token))
    }
}
