//! The readers of leaves, and of what comes before an operand, with the operand; and the expressions that are made of what
//! was read.
//!
//! The readers are methods that take the reader of the expressions inside as a function, so that each is proved by itself; a
//! crate above ties the knot.

ghost use Rattle.std.specs.Prelude.{◌≡◌, ◌≢◌, ◌≤◌, ◌+◌, List, [], Some, is_some, IfOk, true, None};
ghost use Rattle.syn_expr_parse.specs.Led as led;
ghost use Rattle.syn_expr_parse.specs.Reads.{Callable, ReadsExpr};
ghost use Rattle.syn_expr_tokens.specs.Begins as begins;
ghost use Rattle.syn_expr_heads.specs.View.{closure_guards, closure_of, jump_of, prefix_guards, prefix_of, leaf_of, body_of};
ghost use Rattle.syn_expr_spec.specs.Head as head;
ghost use Rattle.syn_expr_spec.specs.Place as places;
ghost use Rattle.syn_expr_spec.specs.Read as read;
ghost use Rattle.syn_expr_spec.specs.Tree as e;
ghost use Rattle.syn_lower_leaves.specs.Reads.{Reads};
ghost use Rattle.syn_lower_leaves.specs.View.{is_mut};
ghost use Rattle.syn_expr_tokens.specs.View.{limits_kind, un_kind, label_of};
ghost use Rattle.syn_tokens.specs.Tok.{Tok, weight};
ghost use Rattle.syn_expr_ast.specs.Attrs.{has_inner};
ghost use Rattle.syn_expr_ast.specs.Pats as pats;
ghost use Rattle.syn_expr_ast.specs.View as of;
ghost use Rattle.syn_expr_spec.specs.WellFormed.{attributes_inner};
ghost use Rattle.syn_lower.specs.View.{mapped, return_of};

use crate::kinds::{ReadExprs, ReadPats};
use crate::known::{Held, PLAIN, at, ends_jump, given_up, leaf_stands};
use std::alloc::Global;
use syn_expr_ast::alone::IsExpr;
use syn_expr_ast::atom::{ExprInfer, ExprLit, ExprMacro, ExprPath, is_word_alone};
use syn_expr_ast::block::{ExprAsync, ExprBlock, ExprConst, ExprLoop, ExprTryBlock, ExprUnsafe};
use syn_expr_ast::jump::{ExprBreakOf, ExprContinue, ExprReturnOf, ExprYieldOf};
use syn_expr_ast::operation::{ExprRangeOf, ExprRawAddrOf, ExprReferenceOf, ExprUnaryOf};
use syn_expr_ast::pattern::{ExprClosureOf, ExprLetOf};
use syn_expr_heads::leaf::{Body, ClosureHead, JumpHead, LeafHead, PrefixHead, leaf as leaf_head};
use syn_expr_heads::prefix::Prefixes;
use syn_expr_spec::kinds::{Place, Precedence};
use syn_expr_tokens::atom::Atom;
use syn_expr_tokens::limits::RangeLimits;
use syn_expr_tokens::modifiers::{BlockModifiers, Label};
use syn_expr_tokens::op::{UnOp, begins_expr, ends_open_range};
use syn_lower::ty::{PointerMutability, ReturnType};
use syn_lower_leaves::block::Block;
use syn_lower_leaves::leaf::block;
use syn_tokens::buffer::ParseBuffer;
use syn_tokens::error::{Error, ErrorKind, Result};
use syn_tokens::token::{And, Async, Const, Eq, Let, Loop, Move, Mut, Raw, Try, Unsafe};
use syn_tokens::tree::copy_trees;

/// The readers over that of the expressions inside.
#[derive(Clone, Copy)]
pub struct Atoms<F> {
    /// Reads an expression at a place.
    pub expr: F,
}

/// Reads what comes before an operand, over the readers of the patterns in it.
// Once for each level of a tree the frame of what reads an operand is on the stack. What is large in it has one of its own, as
// `let_expr`, `jump` and `closure` do: so trees nest three times as deep in the same stack.
#[inline(never)]
fn prefix_head<P: ReadPats + Drop>(input: &mut ParseBuffer<'_>) -> Result<PrefixHead<P>>
    ensures value { Reads (prefix_of P.view) (head.prefix_form.reads input.old.rest) result input.new.rest }
    ensures bare { IfOk result (λ h. prefix_guards P.view h ≡ []) }
    ensures noted { input.new.noted ≡ input.old.noted }
    ensures shrinks { weight input.new.rest ≤ weight input.old.rest }
{
    let prefixes = Prefixes {
        pat: |input: &mut ParseBuffer<'_>, multi: bool| P::read_pattern(input, multi),
        arg: |input: &mut ParseBuffer<'_>| P::read_closure_arg(input),
    };
    prefixes.prefix(input)
}

/// Reads the block after a closure's output, whose tokens are verbatim.
#[tactic(auto, unfolding(syn_lower_spec::specs::Part::block, syn_lower_spec::specs::Part::verbatim))]
fn output_block<E: IsExpr + Drop>(input: &mut ParseBuffer<'_>) -> Result<Box<E>>
    ensures value { Reads (λ b. E.tree b.value) (led.block input.old.rest) result input.new.rest }
    ensures noted { input.new.noted ≡ input.old.noted }
    ensures shrinks { weight input.new.rest ≤ weight input.old.rest }
{
    let block = block(input)?;
    let alloc = input.alloc();
    Ok(Box::new(alloc, plain_block(alloc, block))?)
}

impl<E: ReadExprs + Drop, F: Fn(&mut ParseBuffer<'_>, Place) -> Result<Box<E>>> Atoms<F>
where
    E::Pat: ReadPats + Drop,
{
    /// Reads the operand of `*`, `!` or `-`.
    // Not in the frame of its caller, which is on the stack once for each level of a tree.
    #[inline(never)]
    #[tactic(auto, unfolding(syn_expr_ast::specs::Attrs::attrs_of))]
    fn unary(&self, input: &mut ParseBuffer<'_>, place: Place, op: UnOp) -> Result<Box<E>>
        requires callable { Callable (weight input.old.rest + 1) (F.pre self.now.expr) }
        requires reads { ReadsExpr E.tree (F.post self.now.expr) }
        ensures value { Reads (λ b. E.tree b.value) (led.behind place (e.unary (un_kind op)) input.old.rest) result input.new.rest }
        ensures noted { input.new.noted ≡ input.old.noted }
        ensures shrinks { weight input.new.rest ≤ weight input.old.rest }
    {
        let attrs = Vec::new(input.alloc());
        let expr = (self.expr)(input, at(place, Precedence::Prefix))?;
        Ok(Box::new(input.alloc(), E::unary(ExprUnaryOf { attrs, op, expr }))?)
    }

    /// Reads the operand of `&` or `&mut`.
    // Not in the frame of its caller, which is on the stack once for each level of a tree.
    #[inline(never)]
    #[tactic(auto, unfolding(syn_expr_ast::specs::Attrs::attrs_of))]
    fn reference(
        &self,
        input: &mut ParseBuffer<'_>,
        place: Place,
        and_token: And,
        mutability: Option<Mut>,
    ) -> Result<Box<E>>
        requires callable { Callable (weight input.old.rest + 1) (F.pre self.now.expr) }
        requires reads { ReadsExpr E.tree (F.post self.now.expr) }
        ensures value { Reads (λ b. E.tree b.value) (led.behind place (e.reference (is_some mutability)) input.old.rest) result input.new.rest }
        ensures noted { input.new.noted ≡ input.old.noted }
        ensures shrinks { weight input.new.rest ≤ weight input.old.rest }
    {
        let attrs = Vec::new(input.alloc());
        let expr = (self.expr)(input, at(place, Precedence::Prefix))?;
        let x = E::reference(ExprReferenceOf {
            attrs,
            and_token,
            mutability,
            expr,
        });
        Ok(Box::new(input.alloc(), x)?)
    }

    /// Reads the operand of `&raw mut` or `&raw const`.
    // Not in the frame of its caller, which is on the stack once for each level of a tree.
    #[inline(never)]
    #[tactic(auto, unfolding(syn_expr_ast::specs::Attrs::attrs_of))]
    fn raw_addr(
        &self,
        input: &mut ParseBuffer<'_>,
        place: Place,
        and_token: And,
        raw: Raw,
        mutability: PointerMutability,
    ) -> Result<Box<E>>
        requires callable { Callable (weight input.old.rest + 1) (F.pre self.now.expr) }
        requires reads { ReadsExpr E.tree (F.post self.now.expr) }
        ensures value { Reads (λ b. E.tree b.value) (led.behind place (e.raw_addr (is_mut mutability)) input.old.rest) result input.new.rest }
        ensures noted { input.new.noted ≡ input.old.noted }
        ensures shrinks { weight input.new.rest ≤ weight input.old.rest }
    {
        let attrs = Vec::new(input.alloc());
        let expr = (self.expr)(input, at(place, Precedence::Prefix))?;
        let x = E::raw_addr(ExprRawAddrOf {
            attrs,
            and_token,
            raw,
            mutability,
            expr,
        });
        Ok(Box::new(input.alloc(), x)?)
    }

    /// Reads what a pattern is bound to, after `let` and `=`.
    #[inline(never)]
    #[tactic(auto, unfolding(syn_expr_ast::specs::Attrs::attrs_of))]
    fn let_expr(
        &self,
        input: &mut ParseBuffer<'_>,
        place: Place,
        let_token: Let,
        pat: E::Pat,
        eq_token: Eq,
    ) -> Result<Box<E>>
        requires callable { Callable (weight input.old.rest + 1) (F.pre self.now.expr) }
        requires reads { ReadsExpr E.tree (F.post self.now.expr) }
        requires bare { (E.Pat.view pat).guards ≡ [] }
        ensures value { Reads (λ b. E.tree b.value) (led.behind place (e.let_expr (E.Pat.view pat).tree) input.old.rest) result input.new.rest }
        ensures noted { input.new.noted ≡ input.old.noted }
        ensures shrinks { weight input.new.rest ≤ weight input.old.rest }
    {
        let attrs = Vec::new(input.alloc());
        let expr = (self.expr)(input, at(place, Precedence::Let))?;
        let x = E::let_expr(ExprLetOf {
            attrs,
            let_token,
            pat: Box::new(input.alloc(), pat)?,
            eq_token,
            expr,
        });
        Ok(Box::new(input.alloc(), x)?)
    }

    /// Reads the end of a range without a start, or nothing where no end follows.
    // Not in the frame of its caller, which is on the stack once for each level of a tree.
    #[inline(never)]
    #[tactic(auto, unfolding(syn_expr_spec::specs::Stands::prefix_stands))]
    fn range_to(
        &self,
        input: &mut ParseBuffer<'_>,
        place: Place,
        limits: RangeLimits,
    ) -> Result<Box<E>>
        requires callable { Callable (weight input.old.rest + 1) (F.pre self.now.expr) }
        requires reads { ReadsExpr E.tree (F.post self.now.expr) }
        ensures value { Reads (λ b. E.tree b.value) (led.behind_or place (e.range_to (limits_kind limits)) (e.full_range (limits_kind limits)) input.old.rest) result input.new.rest }
        ensures noted { input.new.noted ≡ input.old.noted }
        ensures shrinks { weight input.new.rest ≤ weight input.old.rest }
    {
        if matches!(limits, RangeLimits::HalfOpen(_)) && ends_open_range(input, place.condition) {
            return standing(input, place, LeafHead::FullRange(limits));
        }
        let end = (self.expr)(input, at(place, Precedence::Range))?;
        let alloc = input.alloc();
        Ok(Box::new(alloc, range_expr(alloc, limits, Some(end)))?)
    }

    /// The refusal of a label and `:` after `break`: the loop or the block that the label is of wants parentheses. `value`
    /// is at the label.
    fn labelled_value(&self, value: &ParseBuffer<'_>) -> Error
        requires callable { Callable (weight value.now.rest + 1) (F.pre self.now.expr) }
        requires reads { ReadsExpr E.tree (F.post self.now.expr) }
        ensures { (q : e.Tree × List Tok) → read.expr places.plain value.now.rest ≡ Some q → result.kind ≢ ErrorKind.OutOfMemory → result.kind ≡ ErrorKind.ParenthesesRequired }
    {
        let mut behind = match value.fork() {
            Ok(behind) => behind,
            Err(error) => return error,
        };
        match (self.expr)(&mut behind, PLAIN) {
            Ok(x) => given_up(
                x,
                Error::new(value.span_until(&behind), ErrorKind::ParenthesesRequired),
            ),
            Err(error) => error,
        }
    }

    /// Reads the value of a jump, or nothing where none follows. `value` comes after the jump's word.
    #[inline(never)]
    #[tactic(auto, unfolding(syn_expr_spec::specs::Stands::prefix_stands, syn_expr_spec::specs::Stands::leaf_stands))]
    fn jump(
        &self,
        input: &mut ParseBuffer<'_>,
        place: Place,
        jump: JumpHead,
        value: &ParseBuffer<'_>,
    ) -> Result<Box<E>>
        requires callable { Callable (weight input.old.rest + 1) (F.pre self.now.expr) }
        requires label { Callable (weight value.now.rest + 1) (F.pre self.now.expr) }
        requires reads { ReadsExpr E.tree (F.post self.now.expr) }
        ensures value { Reads (λ b. E.tree b.value) (led.behind_or place (e.jump (jump_of jump)) (e.bare_jump (jump_of jump)) input.old.rest) result input.new.rest }
        ensures noted { input.new.noted ≡ input.old.noted }
        ensures shrinks { weight input.new.rest ≤ weight input.old.rest }
    {
        if ends_jump(input, place, &jump) {
            return standing(input, place, LeafHead::Jump(jump));
        }
        if !begins_expr(input) {
            return Err(self.labelled_value(value));
        }
        let expr = (self.expr)(input, PLAIN)?;
        let alloc = input.alloc();
        Ok(Box::new(alloc, jump_expr(alloc, jump, Some(expr)))?)
    }

    /// Reads the body of a closure: an expression, or a block after an output.
    #[inline(never)]
    #[tactic(auto, using(crate::proofs::Prefixes::block_reads), unfolding(syn_expr_spec::specs::Stands::prefix_stands))]
    fn closure(
        &self,
        input: &mut ParseBuffer<'_>,
        place: Place,
        head: ClosureHead<E::Pat>,
    ) -> Result<Box<E>>
        requires callable { Callable (weight input.old.rest + 1) (F.pre self.now.expr) }
        requires reads { ReadsExpr E.tree (F.post self.now.expr) }
        requires bare { closure_guards E.Pat.view head ≡ [] }
        ensures value { Reads (λ b. E.tree b.value) (led.body_of place (closure_of E.Pat.view head) input.old.rest) result input.new.rest }
        ensures noted { input.new.noted ≡ input.old.noted }
        ensures shrinks { weight input.new.rest ≤ weight input.old.rest }
    {
        let body = match head.output {
            ReturnType::Default => (self.expr)(input, at(place, Precedence::Jump))?,
            ReturnType::Given(_, _) => output_block(input)?,
        };
        let alloc = input.alloc();
        Ok(Box::new(alloc, closure_expr(alloc, head, body))?)
    }

    /// Reads what comes before an operand, and the operand; a range and a jump may have none, and a closure with an output
    /// has a block (Rust Reference, "Operator expressions", "Borrow operators", "Range expressions", "`let` expressions",
    /// "`return` expressions", "`break` expressions", "Closure expressions").
    ///
    /// It is refused as `Prefixes::prefix` refuses what comes first, as the expression inside is, as `ExpectedToken` of `{` where
    /// no block is after an output, and as `ParenthesesRequired` where a label and `:` come after `break`, from the label to
    /// the end of the value.
    // Not in the frame of its caller, which is on the stack once for each level of a tree.
    #[inline(never)]
    #[tactic(auto, using(crate::proofs::Prefixes::prefixes, crate::proofs::Prefixes::less), unfolding(syn_expr_spec::specs::Read::prefix_read, syn_expr_spec::specs::Stands::prefix_stands))]
    pub fn prefix(&self, input: &mut ParseBuffer<'_>, place: Place) -> Result<Box<E>>
        requires callable { Callable (weight input.old.rest) (F.pre self.now.expr) }
        requires reads { ReadsExpr E.tree (F.post self.now.expr) }
        ensures value { Reads (λ b. E.tree b.value) (read.prefix_read read.expr place input.old.rest) result input.new.rest }
        ensures noted { input.new.noted ≡ input.old.noted }
        ensures shrinks { weight input.new.rest ≤ weight input.old.rest }
    {
        let mut value = input.fork()?;
        value.skip(1);
        match prefix_head(input)? {
            PrefixHead::Unary(op) => self.unary(input, place, op),
            PrefixHead::Reference(and_token, mutability) => {
                self.reference(input, place, and_token, mutability)
            }
            PrefixHead::RawAddr(and_token, raw, mutability) => {
                self.raw_addr(input, place, and_token, raw, mutability)
            }
            PrefixHead::RangeTo(limits) => self.range_to(input, place, limits),
            PrefixHead::Let(let_token, pat, eq_token) => {
                self.let_expr(input, place, let_token, pat, eq_token)
            }
            PrefixHead::Jump(jump) => self.jump(input, place, jump, &value),
            PrefixHead::Closure(head) => self.closure(input, place, head),
        }
    }

    /// Reads `become` and an expression, whose tokens are kept with the word. It is refused as the expression is.
    // Not in the frame of its caller, which is on the stack once for each level of a tree.
    #[inline(never)]
    #[tactic(auto, using(crate::proofs::Prefixes::becomes))]
    pub fn tail_call(&self, input: &mut ParseBuffer<'_>) -> Result<Box<E>>
        requires callable { Callable (weight input.old.rest) (F.pre self.now.expr) }
        requires reads { ReadsExpr E.tree (F.post self.now.expr) }
        requires first { begins.atom_of input.old.rest ≡ Atom.Become }
        ensures value { Reads (λ b. E.tree b.value) (begins.atom_by read.expr places.plain Atom.Become input.old.rest) result input.new.rest }
        ensures noted { input.new.noted ≡ input.old.noted }
        ensures shrinks { weight input.new.rest ≤ weight input.old.rest }
    {
        let word = input.fork()?;
        input.skip(1);
        let _called = Held {
            value: (self.expr)(input, PLAIN)?,
        };
        let alloc = input.alloc();
        let tokens = copy_trees(alloc, word.until(input))?;
        Ok(Box::new(alloc, E::verbatim(tokens))?)
    }
}

/// The refusal of a leaf that can't come before what is left. At the path `try` no expression begins; any other leaf has a
/// token after it that continues it, as the path in `a!`.
fn not_standing(input: &ParseBuffer<'_>, leaf: &LeafHead) -> Error {
    match leaf {
        LeafHead::Path(qself, path) if is_word_alone(qself, path, "try") => {
            match path.segments.first() {
                Some(word) => Error::new(word.ident.span(), ErrorKind::ExpectedExpression),
                None => input.error(ErrorKind::ExpectedExpression),
            }
        }
        _ => input.error(ErrorKind::UnexpectedToken),
    }
}

/// Makes an expression of a leaf that was read, where it comes before what is left. The path `try` is refused as
/// `ExpectedExpression` at its word. Any other leaf is refused as `UnexpectedToken` where the next token goes on it: a brace
/// after a path, `#` after `builtin`, the value of a jump, the end of a range.
// Not in the frame of its caller, which is on the stack once for each level of a tree.
#[inline(never)]
pub fn standing<E: IsExpr + Drop>(
    input: &ParseBuffer<'_>,
    place: Place,
    leaf: LeafHead,
) -> Result<Box<E>>
    requires inner { has_inner (leaf_of leaf) ≡ true }
    ensures { Reads (λ b. E.tree b.value) (read.standing place (leaf_of leaf) input.now.rest) result input.now.rest }
{
    if !leaf_stands(input, place, &leaf) {
        return Err(not_standing(input, &leaf));
    }
    let alloc = input.alloc();
    Ok(Box::new(alloc, leaf_expr(alloc, leaf))?)
}

/// Reads a leaf, by what comes first (Rust Reference, "Literal expressions", "Underscore expressions", "Block expressions",
/// "Infinite loops", "`continue` expressions"). It is refused as `syn_expr_heads::leaf::leaf` refuses it, and as
/// `UnexpectedToken` where the next token goes on it.
// Not in the frame of its caller, which is on the stack once for each level of a tree.
#[inline(never)]
#[tactic(auto, using(syn_expr_ast::proofs::Inner::leaf_inner), unfolding(crate::specs::Led::closed_leaf))]
pub fn leaf<E: IsExpr + Drop>(input: &mut ParseBuffer<'_>, place: Place) -> Result<Box<E>>
    ensures value { Reads (λ b. E.tree b.value) (led.closed_leaf place input.old.rest) result input.new.rest }
    ensures noted { input.new.noted ≡ input.old.noted }
    ensures shrinks { weight input.new.rest ≤ weight input.old.rest }
{
    let leaf = leaf_head(input)?;
    standing(input, place, leaf)
}

/// A jump, with its value or without.
#[tactic(auto, unfolding(syn_expr_ast::specs::Attrs::attrs_of))]
pub fn jump_expr<E: IsExpr>(alloc: Global, jump: JumpHead, expr: Option<Box<E>>) -> E
    ensures { E.tree result ≡ of.jump_with (jump_of jump) (of.boxed E.tree expr) }
{
    let attrs = Vec::new(alloc);
    match jump {
        JumpHead::Return(return_token) => E::return_expr(ExprReturnOf {
            attrs,
            return_token,
            expr,
        }),
        JumpHead::Yield(yield_token) => E::yield_expr(ExprYieldOf {
            attrs,
            yield_token,
            expr,
        }),
        JumpHead::Break(break_token, label) => E::break_expr(ExprBreakOf {
            attrs,
            break_token,
            label,
            expr,
        }),
    }
}

/// A range without a start, with an end or without.
#[tactic(auto, unfolding(syn_expr_ast::specs::Attrs::attrs_of))]
pub fn range_expr<E: IsExpr>(alloc: Global, limits: RangeLimits, end: Option<Box<E>>) -> E
    ensures { E.tree result ≡ of.range_between (limits_kind limits) None (of.boxed E.tree end) }
{
    let attrs = Vec::new(alloc);
    E::range(ExprRangeOf {
        attrs,
        start: None,
        limits,
        end,
    })
}

/// A loop without a head, with a label or none.
#[tactic(auto, using(syn_expr_ast::proofs::Attributes::insides), unfolding(syn_expr_ast::specs::Attrs::outer_of, syn_expr_ast::specs::Attrs::inner_of))]
fn loop_expr<E: IsExpr>(label: Option<Label>, loop_token: Loop, body: Body) -> E
    requires inner { attributes_inner (body_of body).inner ≡ true }
    ensures { E.tree result ≡ e.leaf (e.loop_expr (mapped label_of label) (body_of body)) }
{
    E::loop_expr(ExprLoop {
        attrs: body.attrs,
        label,
        loop_token,
        body: body.block,
    })
}

/// A block, with a label or none.
#[tactic(auto, using(syn_expr_ast::proofs::Attributes::insides), unfolding(syn_expr_ast::specs::Attrs::outer_of, syn_expr_ast::specs::Attrs::inner_of))]
fn block_expr<E: IsExpr>(label: Option<Label>, body: Body) -> E
    requires inner { attributes_inner (body_of body).inner ≡ true }
    ensures { E.tree result ≡ e.leaf (e.block (mapped label_of label) (body_of body)) }
{
    E::block(ExprBlock {
        attrs: body.attrs,
        label,
        block: body.block,
    })
}

/// An `unsafe` block.
#[tactic(auto, using(syn_expr_ast::proofs::Attributes::insides), unfolding(syn_expr_ast::specs::Attrs::outer_of, syn_expr_ast::specs::Attrs::inner_of))]
fn unsafe_expr<E: IsExpr>(unsafe_token: Unsafe, body: Body) -> E
    requires inner { attributes_inner (body_of body).inner ≡ true }
    ensures { E.tree result ≡ e.leaf (e.unsafe_block (body_of body)) }
{
    E::unsafe_block(ExprUnsafe {
        attrs: body.attrs,
        unsafe_token,
        block: body.block,
    })
}

/// A `const` block.
#[tactic(auto, using(syn_expr_ast::proofs::Attributes::insides), unfolding(syn_expr_ast::specs::Attrs::outer_of, syn_expr_ast::specs::Attrs::inner_of))]
fn const_expr<E: IsExpr>(const_token: Const, body: Body) -> E
    requires inner { attributes_inner (body_of body).inner ≡ true }
    ensures { E.tree result ≡ e.leaf (e.const_block (body_of body)) }
{
    E::const_block(ExprConst {
        attrs: body.attrs,
        const_token,
        modifiers: BlockModifiers::default(),
        block: body.block,
    })
}

/// An `async` block, with `move` or without.
#[tactic(auto, unfolding(syn_expr_ast::specs::Attrs::attrs_of))]
fn async_expr<E: IsExpr>(
    alloc: Global,
    async_token: Async,
    capture: Option<Move>,
    block: Block,
) -> E
    ensures { E.tree result ≡ e.leaf (e.async_block (is_some capture) block.stmts) }
{
    E::async_block(ExprAsync {
        attrs: Vec::new(alloc),
        async_token,
        capture,
        modifiers: BlockModifiers::default(),
        block,
    })
}

/// A `try` block.
#[tactic(auto, unfolding(syn_expr_ast::specs::Attrs::attrs_of))]
fn try_expr<E: IsExpr>(alloc: Global, try_token: Try, block: Block) -> E
    ensures { E.tree result ≡ e.leaf (e.try_block block.stmts) }
{
    E::try_block(ExprTryBlock {
        attrs: Vec::new(alloc),
        try_token,
        modifiers: BlockModifiers::default(),
        block,
    })
}

/// A leaf. The attributes first in its braces are inner ones.
#[tactic(auto, unfolding(syn_expr_ast::specs::Attrs::attrs_of))]
pub fn leaf_expr<E: IsExpr>(alloc: Global, leaf: LeafHead) -> E
    requires inner { has_inner (leaf_of leaf) ≡ true }
    ensures { E.tree result ≡ e.leaf (leaf_of leaf) }
{
    let attrs = Vec::new(alloc);
    match leaf {
        LeafHead::Lit(lit) => E::lit(ExprLit { attrs, lit }),
        LeafHead::Infer(underscore_token) => E::infer(ExprInfer {
            attrs,
            underscore_token,
        }),
        LeafHead::FullRange(limits) => range_expr(alloc, limits, None),
        LeafHead::Jump(jump) => jump_expr(alloc, jump, None),
        LeafHead::Continue(continue_token, label) => E::continue_expr(ExprContinue {
            attrs,
            continue_token,
            label,
        }),
        LeafHead::Loop(label, loop_token, body) => loop_expr(label, loop_token, body),
        LeafHead::Block(label, body) => block_expr(label, body),
        LeafHead::Unsafe(unsafe_token, body) => unsafe_expr(unsafe_token, body),
        LeafHead::Const(const_token, body) => const_expr(const_token, body),
        LeafHead::Async(async_token, capture, block) => {
            async_expr(alloc, async_token, capture, block)
        }
        LeafHead::TryBlock(try_token, block) => try_expr(alloc, try_token, block),
        LeafHead::Verbatim(tokens) => E::verbatim(tokens),
        LeafHead::Path(qself, path) => E::path(ExprPath { attrs, qself, path }),
        LeafHead::Macro(mac) => E::mac(ExprMacro { attrs, mac }),
    }
}

/// The block of these tokens, as it comes after a closure's output.
#[tactic(auto, unfolding(syn_expr_ast::specs::Attrs::outer_of, syn_expr_ast::specs::Attrs::inner_of))]
pub fn plain_block<E: IsExpr>(alloc: Global, block: Block) -> E
    ensures { E.tree result ≡ e.plain_block block.stmts }
{
    E::block(ExprBlock {
        attrs: Vec::new(alloc),
        label: None,
        block,
    })
}

/// A closure with its body.
#[tactic(auto, unfolding(syn_expr_ast::specs::Attrs::attrs_of))]
pub fn closure_expr<E: IsExpr>(alloc: Global, head: ClosureHead<E::Pat>, body: Box<E>) -> E
    ensures { E.tree result ≡ pats.closure_by (return_of head.output) (closure_of E.Pat.view head) (closure_guards E.Pat.view head) (E.tree body.value) }
{
    E::closure(ExprClosureOf {
        attrs: Vec::new(alloc),
        lifetimes: head.lifetimes,
        modifiers: head.modifiers,
        constness: head.constness,
        asyncness: head.asyncness,
        capture: head.capture,
        inputs_begin: head.inputs_begin,
        inputs: head.inputs,
        inputs_end: head.inputs_end,
        output: head.output,
        body,
    })
}
