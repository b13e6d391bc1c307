//! The readers of `if`, of loops with a head and of `match` (Rust Reference, "`if` expressions", "Loop expressions", "Match
//! expressions").
//!
//! They are methods that take the reader of the expressions inside as a function, so that each is proved by itself; a crate
//! above ties the knot.

ghost use Rattle.std.specs.Prelude.{◌≡◌, ◌≤◌, ◌+◌, [], map, IfOk};
ghost use Rattle.syn_expr_parse.specs.Parts as parts;
ghost use Rattle.syn_expr_parse.specs.Reads.{Callable, ReadsExpr};
ghost use Rattle.syn_expr_ast.specs.Attrs.{attrs_of};
ghost use Rattle.syn_expr_ast.specs.Pats as pats;
ghost use Rattle.syn_expr_ast.specs.View as of;
ghost use Rattle.syn_expr_tokens.specs.View.{label_of};
ghost use Rattle.syn_expr_spec.specs.Read as read;
ghost use Rattle.syn_expr_spec.specs.Slot as slot;
ghost use Rattle.syn_expr_spec.specs.Tree as e;
ghost use Rattle.syn_lower_leaves.specs.Reads.{Reads};
ghost use Rattle.syn_lower_leaves.specs.View.{mapped};
ghost use Rattle.syn_lower_spec.specs.Form as form;
ghost use Rattle.syn_tokens.specs.Tok.{weight};
ghost use Rattle.syn_expr_heads.specs.View.{arm_guards, arm_of};

use crate::kinds::ReadPats;
use crate::known::{AT_HEAD, BEFORE_BLOCK, Held, LetGo, PLAIN};
use std::alloc::{AllocError, Global};
use syn_expr_ast::alone::IsExpr;
use syn_expr_ast::block::{ExprBlock, ExprIfOf, ExprWhileOf};
use syn_expr_ast::label::is_block_like;
use syn_expr_ast::node::HasKind;
use syn_expr_ast::pattern::{ArmOf, ExprForLoopOf, ExprMatchOf, PatGuardOf};
use syn_expr_heads::leaf::{
    ArmHead, ForHead, behind_arm, behind_condition, behind_loop_head, guarded,
};
use syn_expr_heads::prefix::Prefixes;
use syn_expr_heads::word::{else_word, if_word, maybe_label, while_word};
use syn_expr_spec::kinds::Place;
use syn_expr_tokens::modifiers::Label;
use syn_lower_leaves::attr::Attribute;
use syn_lower_leaves::leaf::{block, inner_attributes};
use syn_tokens::buffer::ParseBuffer;
use syn_tokens::error::Result;
use syn_tokens::token::{Else, FatArrow, If, Match, While};

/// The readers over that of the expressions inside.
#[derive(Clone, Copy)]
pub struct Blocks<F> {
    /// Reads an expression at a place.
    pub expr: F,
}

/// A value in a box.
fn boxed<T: Drop>(alloc: Global, x: T) -> std::result::Result<Box<T>, AllocError>
    ensures { IfOk result (λ b. b.value ≡ x) }
{
    Ok(Box::new(alloc, x)?)
}

/// Reads a block, as an expression.
#[tactic(auto, unfolding(syn_lower_spec::specs::Part::block, syn_lower_spec::specs::Part::verbatim, syn_expr_ast::specs::Attrs::outer_of, syn_expr_ast::specs::Attrs::inner_of))]
fn verbatim_block<E: IsExpr + Drop>(input: &mut ParseBuffer<'_>) -> Result<Box<E>>
    ensures value { Reads (λ x. E.tree x.value) (parts.verbatim_block input.old.rest) result input.new.rest }
    ensures noted { input.new.noted ≡ input.old.noted }
    ensures shrinks { weight input.new.rest ≤ weight input.old.rest }
{
    let block = block(input)?;
    let alloc = input.alloc();
    let x = E::block(ExprBlock {
        attrs: Vec::new(alloc),
        label: None,
        block,
    });
    Ok(boxed(alloc, x)?)
}

impl<
    E: IsExpr + HasKind + LetGo + Drop,
    F: Fn(&mut ParseBuffer<'_>, Place) -> Result<Box<E>>,
> Blocks<F>
where
    E::Pat: ReadPats + Drop,
    E::Arm: LetGo + Drop,
{
    /// Reads an `if` after its word.
    // Not in the frame of its caller, which is on the stack once for each level of a tree.
    #[inline(never)]
    #[cycle(chain)]
    #[tactic(auto, using(crate::proofs::Parts::if_exprs), unfolding(syn_expr_ast::specs::Attrs::attrs_of))]
    fn chain(&self, input: &mut ParseBuffer<'_>, if_token: If) -> Result<Box<E>>
        requires callable { Callable (weight input.old.rest + 1) (F.pre self.now.expr) }
        requires reads { ReadsExpr E.tree (F.post self.now.expr) }
        ensures value { Reads (λ x. E.tree x.value) (parts.if_expr input.old.rest) result input.new.rest }
        ensures noted { input.new.noted ≡ input.old.noted }
        ensures shrinks { weight input.new.rest ≤ weight input.old.rest }
    {
        let cond = Held {
            value: (self.expr)(input, BEFORE_BLOCK)?,
        };
        let then_branch = behind_condition(input)?;
        let else_branch = self.otherwise(input)?;
        let alloc = input.alloc();
        let x = E::if_expr(ExprIfOf {
            attrs: Vec::new(alloc),
            if_token,
            cond: cond.into_inner(),
            then_branch,
            else_branch,
        });
        Ok(boxed(alloc, x)?)
    }

    /// Reads `else` before an `if` or a block, or nothing.
    #[cycle(chain)]
    fn otherwise(&self, input: &mut ParseBuffer<'_>) -> Result<Option<(Else, Box<E>)>>
        requires callable { Callable (weight input.old.rest + 1) (F.pre self.now.expr) }
        requires reads { ReadsExpr E.tree (F.post self.now.expr) }
        ensures value { Reads (of.else_of E.tree) (parts.otherwise input.old.rest) result input.new.rest }
        ensures noted { input.new.noted ≡ input.old.noted }
        ensures shrinks { weight input.new.rest ≤ weight input.old.rest }
    {
        let Some(else_token) = else_word(input) else {
            return Ok(None);
        };
        let x = match if_word(input) {
            Some(if_token) => self.chain(input, if_token)?,
            None => verbatim_block(input)?,
        };
        Ok(Some((else_token, x)))
    }

    /// Reads an `if` after its word: a condition, a block, and `else` before another `if` or a block, or nothing (Rust
    /// Reference, "`if` expressions"). It is refused as the condition is, and as `ExpectedToken` of `{` where a block is
    /// missing.
    #[tactic(auto, unfolding(crate::specs::Parts::if_expr, syn_expr_spec::specs::Stands::frame_stands, syn_expr_spec::specs::Stands::frame_ends))]
    pub fn if_expr(&self, input: &mut ParseBuffer<'_>, place: Place, if_token: If) -> Result<Box<E>>
        requires callable { Callable (weight input.old.rest + 1) (F.pre self.now.expr) }
        requires reads { ReadsExpr E.tree (F.post self.now.expr) }
        ensures value { Reads (λ x. E.tree x.value) (read.framed_by read.expr place e.if_expr input.old.rest) result input.new.rest }
        ensures noted { input.new.noted ≡ input.old.noted }
        ensures shrinks { weight input.new.rest ≤ weight input.old.rest }
    {
        self.chain(input, if_token)
    }

    /// Reads a `while` loop after its word.
    // Not in the frame of its caller, which is on the stack once for each level of a tree.
    #[inline(never)]
    #[tactic(auto, using(crate::proofs::Parts::inners), unfolding(crate::specs::Parts::headed))]
    fn while_loop(
        &self,
        input: &mut ParseBuffer<'_>,
        label: Option<Label>,
        while_token: While,
    ) -> Result<Box<E>>
        requires callable { Callable (weight input.old.rest + 1) (F.pre self.now.expr) }
        requires reads { ReadsExpr E.tree (F.post self.now.expr) }
        ensures value { Reads (λ x. E.tree x.value) (parts.headed (e.while_loop (mapped label_of label)) input.old.rest) result input.new.rest }
        ensures noted { input.new.noted ≡ input.old.noted }
        ensures shrinks { weight input.new.rest ≤ weight input.old.rest }
    {
        let cond = Held {
            value: (self.expr)(input, BEFORE_BLOCK)?,
        };
        let body = behind_loop_head(input)?;
        let x = E::while_expr(ExprWhileOf {
            attrs: body.attrs,
            label,
            while_token,
            cond: cond.into_inner(),
            body: body.block,
        });
        Ok(boxed(input.alloc(), x)?)
    }

    /// Reads a `for` loop after its label.
    // Not in the frame of its caller, which is on the stack once for each level of a tree.
    #[inline(never)]
    #[tactic(auto, using(crate::proofs::Parts::inners, crate::proofs::Parts::for_loops), unfolding(crate::specs::Parts::headed))]
    fn for_loop(&self, input: &mut ParseBuffer<'_>, label: Option<Label>) -> Result<Box<E>>
        requires callable { Callable (weight input.old.rest) (F.pre self.now.expr) }
        requires reads { ReadsExpr E.tree (F.post self.now.expr) }
        ensures value { Reads (λ x. E.tree x.value) (form.and_then (slot.for_head.reads input.old.rest) (λ t n. parts.headed (e.for_loop (mapped label_of label) t) n)) result input.new.rest }
        ensures noted { input.new.noted ≡ input.old.noted }
        ensures shrinks { weight input.new.rest ≤ weight input.old.rest }
    {
        let head = for_head(input)?;
        let pat = boxed(input.alloc(), head.pat)?;
        let expr = Held {
            value: (self.expr)(input, BEFORE_BLOCK)?,
        };
        let body = behind_loop_head(input)?;
        let x = E::for_loop(ExprForLoopOf {
            attrs: body.attrs,
            label,
            for_token: head.for_token,
            pat,
            in_token: head.in_token,
            expr: expr.into_inner(),
            body: body.block,
        });
        Ok(boxed(input.alloc(), x)?)
    }

    /// Reads a `while` or a `for` loop, with a label or none (Rust Reference, "Predicate loops", "Iterator loops", "Loop
    /// labels"). It is refused as `ExpectedLoopOrBlock` where none of them comes after the label, as `ExpectedToken` where
    /// another token is missing, and inside as a pattern or an expression is.
    // Not in the frame of its caller, which is on the stack once for each level of a tree.
    #[inline(never)]
    #[tactic(auto, using(crate::proofs::Parts::loops))]
    pub fn loop_head(&self, input: &mut ParseBuffer<'_>, place: Place) -> Result<Box<E>>
        requires callable { Callable (weight input.old.rest) (F.pre self.now.expr) }
        requires reads { ReadsExpr E.tree (F.post self.now.expr) }
        ensures value { Reads (λ x. E.tree x.value) (read.loop_read read.expr place input.old.rest) result input.new.rest }
        ensures noted { input.new.noted ≡ input.old.noted }
        ensures shrinks { weight input.new.rest ≤ weight input.old.rest }
    {
        let label = maybe_label(input)?;
        match while_word(input) {
            Some(while_token) => self.while_loop(input, label, while_token),
            None => self.for_loop(input, label),
        }
    }

    /// Reads the body of an arm, and its comma.
    // Not in the frame of its caller, which is on the stack once for each level of a tree.
    #[inline(never)]
    #[tactic(auto, unfolding(crate::specs::Parts::arm_body))]
    fn arm_body(
        &self,
        input: &mut ParseBuffer<'_>,
        attrs: Vec<Attribute>,
        pat: E::Pat,
        fat_arrow_token: FatArrow,
    ) -> Result<E::Arm>
        requires callable { Callable (weight input.old.rest + 1) (F.pre self.now.expr) }
        requires reads { ReadsExpr E.tree (F.post self.now.expr) }
        ensures value { Reads E.Arm.view (parts.arm_body (attrs_of attrs) (E.Pat.view pat).tree (E.Pat.view pat).guards input.old.rest) result input.new.rest }
        ensures noted { input.new.noted ≡ input.old.noted }
        ensures shrinks { weight input.new.rest ≤ weight input.old.rest }
    {
        let pat = Held { value: pat };
        let body = Held {
            value: (self.expr)(input, AT_HEAD)?,
        };
        let comma = behind_arm(input, is_block_like(&*body.value))?;
        Ok(E::arm(ArmOf {
            attrs,
            pat: pat.into_inner(),
            fat_arrow_token,
            body: body.into_inner(),
            comma,
        }))
    }

    /// Reads an arm: outer attributes, a pattern with alternatives, a guard or none, `=>`, its body, and a comma, which none
    /// has to be after the last and after a block (Rust Reference, "`match` expressions"). It is refused as `ExpectedToken`
    /// where a token is missing, and inside as an attribute, a pattern or an expression is.
    // Not in the frame of its caller, which is on the stack once for each level of a tree.
    #[inline(never)]
    #[tactic(auto, using(crate::proofs::Parts::one), unfolding(crate::specs::Parts::one_arm, syn_expr_ast::specs::Attrs::attrs_of))]
    pub fn arm(&self, input: &mut ParseBuffer<'_>) -> Result<E::Arm>
        requires callable { Callable (weight input.old.rest + 1) (F.pre self.now.expr) }
        requires reads { ReadsExpr E.tree (F.post self.now.expr) }
        ensures value { Reads E.Arm.view (parts.one_arm input.old.rest) result input.new.rest }
        ensures noted { input.new.noted ≡ input.old.noted }
        ensures shrinks { weight input.new.rest ≤ weight input.old.rest }
    {
        match arm_head(input)? {
            ArmHead::Guard(attrs, pat, if_token) => {
                let guard = Held {
                    value: (self.expr)(input, PLAIN)?,
                };
                let fat_arrow_token = guarded(input)?;
                let alloc = input.alloc();
                let pat = E::guarded(PatGuardOf {
                    attrs: Vec::new(alloc),
                    pat: boxed(alloc, pat)?,
                    if_token,
                    guard: guard.into_inner(),
                });
                self.arm_body(input, attrs, pat, fat_arrow_token)
            }
            ArmHead::Arm(attrs, pat, fat_arrow_token) => {
                self.arm_body(input, attrs, pat, fat_arrow_token)
            }
        }
    }

    /// Reads arms to the end of the input. It is refused as `arm` is.
    #[tactic(auto, using(crate::proofs::Parts::many, crate::proofs::Parts::one))]
    pub fn arms(&self, input: &mut ParseBuffer<'_>) -> Result<Vec<E::Arm>>
        requires callable { Callable (weight input.old.rest + 1) (F.pre self.now.expr) }
        requires reads { ReadsExpr E.tree (F.post self.now.expr) }
        ensures value { Reads (λ v. pats.arms (map E.Arm.view v.items)) (read.bare_operands read.expr slot.arms input.old.rest) result input.new.rest }
        ensures noted { input.new.noted ≡ input.old.noted }
        ensures shrinks { weight input.new.rest ≤ weight input.old.rest }
        ensures all { IfOk result (λ _. input.new.rest ≡ []) }
    {
        let mut held = Held {
            value: Vec::new(input.alloc()),
        };
        'arms: while !input.is_empty() {
            held.value.push(self.arm(input)?)?;
        }
        Ok(held.into_inner())
    }

    /// Reads a `match` after its word.
    // Not in the frame of its caller, which is on the stack once for each level of a tree.
    #[inline(never)]
    #[tactic(auto, using(crate::proofs::Parts::match_exprs, crate::proofs::Parts::inners))]
    fn matched(&self, input: &mut ParseBuffer<'_>, match_token: Match) -> Result<Box<E>>
        requires callable { Callable (weight input.old.rest + 1) (F.pre self.now.expr) }
        requires reads { ReadsExpr E.tree (F.post self.now.expr) }
        ensures value { Reads (λ x. E.tree x.value) (parts.match_expr input.old.rest) result input.new.rest }
        ensures noted { input.new.noted ≡ input.old.noted }
        ensures shrinks { weight input.new.rest ≤ weight input.old.rest }
    {
        let expr = Held {
            value: (self.expr)(input, BEFORE_BLOCK)?,
        };
        let (brace_token, mut content) = input.parse_braces()?;
        let attrs = inner_attributes(&mut content)?;
        let arms = self.arms(&mut content)?;
        let x = E::match_expr(ExprMatchOf {
            attrs,
            match_token,
            expr: expr.into_inner(),
            brace_token,
            arms,
        });
        Ok(boxed(input.alloc(), x)?)
    }

    /// Reads a `match` after its word: what it looks at, and its arms in braces, each with its guard, its body and its
    /// comma (Rust Reference, "Match expressions"). It is refused as `ExpectedToken` where a token is missing, and inside
    /// as a pattern or an expression is.
    #[tactic(auto, unfolding(crate::specs::Parts::match_expr, syn_expr_spec::specs::Stands::frame_stands, syn_expr_spec::specs::Stands::frame_ends))]
    pub fn match_expr(
        &self,
        input: &mut ParseBuffer<'_>,
        place: Place,
        match_token: Match,
    ) -> Result<Box<E>>
        requires callable { Callable (weight input.old.rest + 1) (F.pre self.now.expr) }
        requires reads { ReadsExpr E.tree (F.post self.now.expr) }
        ensures value { Reads (λ x. E.tree x.value) (read.framed_by read.expr place e.match_expr input.old.rest) result input.new.rest }
        ensures noted { input.new.noted ≡ input.old.noted }
        ensures shrinks { weight input.new.rest ≤ weight input.old.rest }
    {
        self.matched(input, match_token)
    }
}

/// Reads `for`, a pattern and `in`.
pub(crate) fn for_head<P: ReadPats + Drop>(input: &mut ParseBuffer<'_>) -> Result<ForHead<P>>
    ensures value { Reads (λ h. (P.view h.pat).tree) (slot.for_head.reads input.old.rest) result input.new.rest }
    ensures bare { IfOk result (λ h. (P.view h.pat).guards ≡ []) }
    ensures noted { input.new.noted ≡ input.old.noted }
    ensures shrinks { weight input.new.rest ≤ weight input.old.rest }
{
    let prefixes = Prefixes {
        pat: |input: &mut ParseBuffer<'_>, multi: bool| P::read_pattern(input, multi),
        arg: |input: &mut ParseBuffer<'_>| P::read_closure_arg(input),
    };
    prefixes.for_head(input)
}

/// Reads an arm up to its guard or its body.
pub(crate) fn arm_head<P: ReadPats + Drop>(input: &mut ParseBuffer<'_>) -> Result<ArmHead<P>>
    ensures value { Reads (arm_of P.view) ((slot.piece_form slot.arms).reads input.old.rest) result input.new.rest }
    ensures bare { IfOk result (λ h. arm_guards P.view h ≡ []) }
    ensures noted { input.new.noted ≡ input.old.noted }
    ensures shrinks { weight input.new.rest ≤ weight input.old.rest }
{
    let prefixes = Prefixes {
        pat: |input: &mut ParseBuffer<'_>, multi: bool| P::read_pattern(input, multi),
        arg: |input: &mut ParseBuffer<'_>| P::read_closure_arg(input),
    };
    prefixes.arm(input)
}
