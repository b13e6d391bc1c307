//! What the kinds of expressions ask of the type of expressions; and the readers of what holds no expression, a kind by
//! itself (Rust Reference, "Expressions").
//!
//! All are read on a fork, so that the input stays where it was where one is refused. A leaf of one kind is read by the
//! reader of leaves. Where none is there, its first tokens tell why.

ghost use Rattle.std.specs.Prelude.{◌≡◌, Some, IfOk, MatchOption, true, false};
ghost use Rattle.syn_expr_heads.specs.View.{leaf_of};
ghost use Rattle.syn_expr_ast.specs.Attrs.{attrs_of, has_inner};
ghost use Rattle.syn_expr_ast.specs.Printed.{ReadsExactly};
ghost use Rattle.syn_expr_ast.specs.View.{expr_lit_of, expr_macro_of, expr_path_of};
ghost use Rattle.syn_expr_spec.specs.Alone.{Alone, LitAlone, MacroAlone, PathAlone, behind_attributes};
ghost use Rattle.syn_expr_spec.specs.AloneRead.{ArePlain, attributed_alone, attributing, leaf_alone, lit_alone, macro_alone, path_alone};
ghost use Rattle.syn_expr_spec.specs.Tree as e;
ghost use Rattle.syn_lower_leaves.specs.Reads.{Reads};
ghost use Rattle.syn_lower_spec.specs.PatFits.{attributes_outer};
ghost use Rattle.syn_tokens.specs.declared.error.ErrorKind.TheVariants.{OutOfMemory};
ghost use Rattle.syn_expr_ast.specs.Both as both;
ghost use Rattle.syn_expr_ast.specs.View as of;

use crate::atom::{
    ExprArrayOf, ExprGroupOf, ExprInfer, ExprLit, ExprMacro, ExprParenOf, ExprPath, ExprRepeatOf,
    ExprTupleOf,
};
use crate::attrs::joined;
use crate::block::{
    ExprAsync, ExprBlock, ExprConst, ExprIfOf, ExprLoop, ExprTryBlock, ExprUnsafe, ExprWhileOf,
};
use crate::jump::{ExprBreakOf, ExprContinue, ExprReturnOf, ExprYieldOf};
use crate::operation::{
    ExprAssignOf, ExprBinaryOf, ExprCastOf, ExprRangeOf, ExprRawAddrOf, ExprReferenceOf,
    ExprUnaryOf,
};
use crate::pattern::{ArmOf, ExprClosureOf, ExprForLoopOf, ExprLetOf, ExprMatchOf, PatGuardOf};
use crate::structure::ExprStructOf;
use crate::trailer::{
    ExprAwaitOf, ExprCallOf, ExprFieldOf, ExprIndexOf, ExprMethodCallOf, ExprTryOf,
};
use std::alloc::AllocError;
use syn_expr_heads::leaf::{LeafHead, leaf as leaf_head};
use syn_expr_heads::word::{maybe_label, move_word};
use syn_expr_tokens::modifiers::BlockModifiers;
use syn_lower::attr::Attribute;
use syn_lower::lit::Lit;
use syn_lower::mac::Macro;
use syn_lower::ty::Type;
use syn_lower_leaves::ahead::ReadByForm;
use syn_lower_leaves::leaf::outer_attributes;
use syn_lower_spec::label::PathStyle;
use syn_lower_types::types::ReadTypes;
use syn_pat::kinds::HasPatTree;
use syn_tokens::buffer::ParseBuffer;
use syn_tokens::error::{Error, ErrorKind, Result};
use syn_tokens::token::{Async, Const, Continue, Loop, Try, Underscore, Unsafe};
use syn_tokens::tree::TokenStream;

/// A struct of the leaves of one kind.
pub(crate) trait LeafKind {
    ghost use Rattle.std.specs.Prelude.{Bool};
    ghost use Rattle.syn_expr_spec.specs.Tree.{Tree};

    /// It as a tree, without its places.
    ghost tree: { Self → Tree };

    /// Whether a tree without attributes is of the kind.
    ghost is: { Tree → Bool };

    /// A leaf of the kind after outer attributes; none of another.
    fn of(attrs: Vec<Attribute>, head: LeafHead) -> std::result::Result<Option<Self>, AllocError>
        requires outer { attributes_outer (attrs_of attrs) ≡ true }
        requires inner { has_inner (leaf_of head) ≡ true }
        ensures { IfOk result (λ o. MatchOption o (is (e.leaf (leaf_of head)) ≡ false) (λ x. (is (e.leaf (leaf_of head)) ≡ true) × (tree x ≡ e.attributed_with (attrs_of attrs) (e.leaf (leaf_of head))))) };

    /// Reads the tokens that all of the kind begin with, and is refused where they aren't there.
    fn begins(input: &mut ParseBuffer<'_>) -> Result<()>;
}

/// Reads a leaf of a kind, after attributes that were read.
#[tactic(auto, using(crate::proofs::Inner::leaf_inner, crate::proofs::LeafAlone::leaves))]
fn behind<S: LeafKind>(input: &mut ParseBuffer<'_>, attrs: Vec<Attribute>) -> Result<S>
    requires plain { ArePlain S.is }
    requires outer { attributes_outer (attrs_of attrs) ≡ true }
    ensures value { Reads S.tree (attributing (attrs_of attrs) (leaf_alone S.is) input.old.rest) result input.new.rest }
    ensures noted { input.new.noted ≡ input.old.noted }
{
    let other = input.error(ErrorKind::UnexpectedToken);
    let mut first = input.fork()?;
    let head = match leaf_head(input) {
        Ok(head) => head,
        Err(e) => return Err(named_refusal(e, S::begins(&mut first))),
    };
    match S::of(attrs, head)? {
        Some(x) => Ok(x),
        None => Err(named_refusal(other, S::begins(&mut first))),
    }
}

/// Reads attributes, and a leaf of a kind.
#[tactic(auto, using(crate::proofs::Outers::outers), unfolding(syn_expr_spec::specs::AloneRead::attributed_alone, crate::specs::Attrs::attrs_of))]
fn attributed<S: LeafKind>(input: &mut ParseBuffer<'_>) -> Result<S>
    requires plain { ArePlain S.is }
    ensures value { Reads S.tree (attributed_alone (leaf_alone S.is) input.old.rest) result input.new.rest }
    ensures noted { input.new.noted ≡ input.old.noted }
{
    let attrs = outer_attributes(input)?;
    behind(input, attrs)
}

/// Reads a leaf of a kind, before which no attributes were read.
#[tactic(auto, using(crate::proofs::LeafAlone::bare), unfolding(crate::specs::Attrs::attrs_of))]
fn bare<S: LeafKind>(input: &mut ParseBuffer<'_>) -> Result<S>
    requires plain { ArePlain S.is }
    ensures value { Reads S.tree (leaf_alone S.is input.old.rest) result input.new.rest }
    ensures noted { input.new.noted ≡ input.old.noted }
{
    let attrs = Vec::new(input.alloc());
    behind(input, attrs)
}

/// Reads a leaf of a kind, without attributes before it.
#[tactic(auto, using(syn_expr_spec::proofs::Alone::tails))]
pub(crate) fn leaf<S: LeafKind>(input: &mut ParseBuffer<'_>) -> Result<S>
    requires plain { ArePlain S.is }
    ensures { ReadsExactly S.tree (Alone S.is) input.old result input.new }
{
    let mut ahead = input.fork()?;
    let x = match bare(&mut ahead) {
        Ok(x) => x,
        Err(e) => return Err(e),
    };
    input.advance_to(&ahead);
    Ok(x)
}

/// Reads a leaf of a kind, after attributes or none.
#[tactic(auto, using(syn_expr_spec::proofs::Alone::tails))]
pub(crate) fn attributed_leaf<S: LeafKind>(input: &mut ParseBuffer<'_>) -> Result<S>
    requires plain { ArePlain S.is }
    ensures { ReadsExactly S.tree (Alone (behind_attributes S.is)) input.old result input.new }
{
    let mut ahead = input.fork()?;
    let x = match attributed(&mut ahead) {
        Ok(x) => x,
        Err(e) => return Err(e),
    };
    input.advance_to(&ahead);
    Ok(x)
}

impl LeafKind for ExprInfer {
    ghost use Rattle.syn_expr_ast.specs.View.{expr_infer_of};
    ghost use Rattle.syn_expr_spec.specs.Alone.{is_infer};

    ghost tree = { expr_infer_of };

    ghost is = { is_infer };

    fn of(attrs: Vec<Attribute>, head: LeafHead) -> std::result::Result<Option<Self>, AllocError> {
        match head {
            LeafHead::Infer(underscore_token) => Ok(Some(ExprInfer {
                attrs,
                underscore_token,
            })),
            _ => Ok(None),
        }
    }

    fn begins(input: &mut ParseBuffer<'_>) -> Result<()> {
        let _underscore: Underscore = input.parse()?;
        Ok(())
    }
}

#[tactic(auto, using(crate::proofs::LeafAlone::braces))]
impl LeafKind for ExprBlock {
    ghost use Rattle.syn_expr_ast.specs.View.{expr_block_of};
    ghost use Rattle.syn_expr_spec.specs.Alone.{is_block};

    ghost tree = { expr_block_of };

    ghost is = { is_block };

    fn of(attrs: Vec<Attribute>, head: LeafHead) -> std::result::Result<Option<Self>, AllocError> {
        match head {
            LeafHead::Block(label, body) => Ok(Some(ExprBlock {
                attrs: joined(attrs, body.attrs)?,
                label,
                block: body.block,
            })),
            _ => Ok(None),
        }
    }

    fn begins(input: &mut ParseBuffer<'_>) -> Result<()> {
        let _label = maybe_label(input)?;
        let _braces = input.parse_braces()?;
        Ok(())
    }
}

#[tactic(auto, using(crate::proofs::LeafAlone::braces))]
impl LeafKind for ExprLoop {
    ghost use Rattle.syn_expr_ast.specs.View.{expr_loop_of};
    ghost use Rattle.syn_expr_spec.specs.Alone.{is_loop};

    ghost tree = { expr_loop_of };

    ghost is = { is_loop };

    fn of(attrs: Vec<Attribute>, head: LeafHead) -> std::result::Result<Option<Self>, AllocError> {
        match head {
            LeafHead::Loop(label, loop_token, body) => Ok(Some(ExprLoop {
                attrs: joined(attrs, body.attrs)?,
                label,
                loop_token,
                body: body.block,
            })),
            _ => Ok(None),
        }
    }

    fn begins(input: &mut ParseBuffer<'_>) -> Result<()> {
        let _label = maybe_label(input)?;
        let _loop: Loop = input.parse()?;
        Ok(())
    }
}

#[tactic(auto, using(crate::proofs::LeafAlone::braces))]
impl LeafKind for ExprUnsafe {
    ghost use Rattle.syn_expr_ast.specs.View.{expr_unsafe_of};
    ghost use Rattle.syn_expr_spec.specs.Alone.{is_unsafe};

    ghost tree = { expr_unsafe_of };

    ghost is = { is_unsafe };

    fn of(attrs: Vec<Attribute>, head: LeafHead) -> std::result::Result<Option<Self>, AllocError> {
        match head {
            LeafHead::Unsafe(unsafe_token, body) => Ok(Some(ExprUnsafe {
                attrs: joined(attrs, body.attrs)?,
                unsafe_token,
                block: body.block,
            })),
            _ => Ok(None),
        }
    }

    fn begins(input: &mut ParseBuffer<'_>) -> Result<()> {
        let _unsafe: Unsafe = input.parse()?;
        Ok(())
    }
}

#[tactic(auto, using(crate::proofs::LeafAlone::braces))]
impl LeafKind for ExprConst {
    ghost use Rattle.syn_expr_ast.specs.View.{expr_const_of};
    ghost use Rattle.syn_expr_spec.specs.Alone.{is_const};

    ghost tree = { expr_const_of };

    ghost is = { is_const };

    fn of(attrs: Vec<Attribute>, head: LeafHead) -> std::result::Result<Option<Self>, AllocError> {
        match head {
            LeafHead::Const(const_token, body) => Ok(Some(ExprConst {
                attrs: joined(attrs, body.attrs)?,
                const_token,
                modifiers: BlockModifiers::default(),
                block: body.block,
            })),
            _ => Ok(None),
        }
    }

    fn begins(input: &mut ParseBuffer<'_>) -> Result<()> {
        let _const: Const = input.parse()?;
        let _braces = input.parse_braces()?;
        Ok(())
    }
}

impl LeafKind for ExprAsync {
    ghost use Rattle.syn_expr_ast.specs.View.{expr_async_of};
    ghost use Rattle.syn_expr_spec.specs.Alone.{is_async};

    ghost tree = { expr_async_of };

    ghost is = { is_async };

    fn of(attrs: Vec<Attribute>, head: LeafHead) -> std::result::Result<Option<Self>, AllocError> {
        match head {
            LeafHead::Async(async_token, capture, block) => Ok(Some(ExprAsync {
                attrs,
                async_token,
                capture,
                modifiers: BlockModifiers::default(),
                block,
            })),
            _ => Ok(None),
        }
    }

    fn begins(input: &mut ParseBuffer<'_>) -> Result<()> {
        let _async: Async = input.parse()?;
        let _move = move_word(input);
        let _braces = input.parse_braces()?;
        Ok(())
    }
}

impl LeafKind for ExprTryBlock {
    ghost use Rattle.syn_expr_ast.specs.View.{expr_try_block_of};
    ghost use Rattle.syn_expr_spec.specs.Alone.{is_try_block};

    ghost tree = { expr_try_block_of };

    ghost is = { is_try_block };

    fn of(attrs: Vec<Attribute>, head: LeafHead) -> std::result::Result<Option<Self>, AllocError> {
        match head {
            LeafHead::TryBlock(try_token, block) => Ok(Some(ExprTryBlock {
                attrs,
                try_token,
                modifiers: BlockModifiers::default(),
                block,
            })),
            _ => Ok(None),
        }
    }

    fn begins(input: &mut ParseBuffer<'_>) -> Result<()> {
        let _try: Try = input.parse()?;
        let _braces = input.parse_braces()?;
        Ok(())
    }
}

impl LeafKind for ExprContinue {
    ghost use Rattle.syn_expr_ast.specs.View.{expr_continue_of};
    ghost use Rattle.syn_expr_spec.specs.Alone.{is_continue};

    ghost tree = { expr_continue_of };

    ghost is = { is_continue };

    fn of(attrs: Vec<Attribute>, head: LeafHead) -> std::result::Result<Option<Self>, AllocError> {
        match head {
            LeafHead::Continue(continue_token, label) => Ok(Some(ExprContinue {
                attrs,
                continue_token,
                label,
            })),
            _ => Ok(None),
        }
    }

    fn begins(input: &mut ParseBuffer<'_>) -> Result<()> {
        let _continue: Continue = input.parse()?;
        Ok(())
    }
}

/// Reads attributes, and a path after them.
#[tactic(auto, unfolding(syn_expr_spec::specs::AloneRead::path_alone, syn_expr_spec::specs::AloneRead::attributed_alone, crate::specs::Attrs::attrs_of))]
fn path_behind(input: &mut ParseBuffer<'_>) -> Result<ExprPath>
    ensures value { Reads expr_path_of (path_alone input.old.rest) result input.new.rest }
    ensures noted { input.new.noted ≡ input.old.noted }
{
    let attrs = outer_attributes(input)?;
    let (qself, path) = Type::read_qpath(input, PathStyle::Expr)?;
    Ok(ExprPath { attrs, qself, path })
}

/// Reads a path after attributes or none, whatever follows it.
#[tactic(auto, using(syn_expr_spec::proofs::Alone::tails))]
pub(crate) fn path(input: &mut ParseBuffer<'_>) -> Result<ExprPath>
    ensures { ReadsExactly expr_path_of PathAlone input.old result input.new }
{
    let mut ahead = input.fork()?;
    let x = match path_behind(&mut ahead) {
        Ok(x) => x,
        Err(e) => return Err(e),
    };
    input.advance_to(&ahead);
    Ok(x)
}

/// Reads a literal, a number with its sign too.
#[tactic(auto, unfolding(syn_expr_spec::specs::AloneRead::lit_alone, crate::specs::Attrs::attrs_of))]
fn lit_here(input: &mut ParseBuffer<'_>) -> Result<ExprLit>
    ensures value { Reads expr_lit_of (lit_alone input.old.rest) result input.new.rest }
    ensures noted { input.new.noted ≡ input.old.noted }
{
    let attrs = Vec::new(input.alloc());
    let lit = Lit::read(input)?;
    Ok(ExprLit { attrs, lit })
}

/// Reads a literal, a number with its sign too.
#[tactic(auto, using(syn_expr_spec::proofs::Alone::tails))]
pub(crate) fn lit(input: &mut ParseBuffer<'_>) -> Result<ExprLit>
    ensures { ReadsExactly expr_lit_of LitAlone input.old result input.new }
{
    let mut ahead = input.fork()?;
    let x = match lit_here(&mut ahead) {
        Ok(x) => x,
        Err(e) => return Err(e),
    };
    input.advance_to(&ahead);
    Ok(x)
}

/// Reads the call of a macro.
#[tactic(auto, unfolding(syn_expr_spec::specs::AloneRead::macro_alone, crate::specs::Attrs::attrs_of))]
fn mac_here(input: &mut ParseBuffer<'_>) -> Result<ExprMacro>
    ensures value { Reads expr_macro_of (macro_alone input.old.rest) result input.new.rest }
    ensures noted { input.new.noted ≡ input.old.noted }
{
    let attrs = Vec::new(input.alloc());
    let mac = Macro::read(input)?;
    Ok(ExprMacro { attrs, mac })
}

/// Reads the call of a macro.
#[tactic(auto, using(syn_expr_spec::proofs::Alone::tails))]
pub(crate) fn mac(input: &mut ParseBuffer<'_>) -> Result<ExprMacro>
    ensures { ReadsExactly expr_macro_of MacroAlone input.old result input.new }
{
    let mut ahead = input.fork()?;
    let x = match mac_here(&mut ahead) {
        Ok(x) => x,
        Err(e) => return Err(e),
    };
    input.advance_to(&ahead);
    Ok(x)
}

/// Why none of a kind is read: that its first tokens aren't there, where `begins` is the refusal of these, else the
/// refusal of the reader of all kinds.
pub fn named_refusal(refusal: Error, begins: Result<()>) -> Error
    ensures memory { refusal.kind ≡ OutOfMemory → result.kind ≡ OutOfMemory }
{
    match refusal.kind {
        ErrorKind::OutOfMemory => refusal,
        _ => match begins {
            Ok(()) => refusal,
            Err(e) => e,
        },
    }
}

/// The type of expressions, as contracts see it.
///
/// It has no methods, so that a recursion over expressions may go through code that is generic in such a type: through a
/// trait that makes expressions it may not.
pub trait HasExprTree {
    ghost use Rattle.syn_expr_spec.specs.Tree.{Tree};

    /// An expression without its places.
    ghost tree: { Self → Tree };
}

/// The type of match arms, as contracts see it.
pub trait HasArmView {
    ghost use Rattle.syn_expr_ast.specs.Pats.{ArmView};

    /// An arm without its places.
    ghost view: { Self → ArmView };
}

/// The type of expressions: it is made of a struct of each kind.
pub trait IsExpr: HasExprTree {
    /// The type of patterns.
    type Pat: HasPatTree;

    /// The type of match arms.
    type Arm: HasArmView;

    /// `[a, b]`
    fn array(x: ExprArrayOf<Self>) -> Self
        ensures { Self.tree result ≡ of.expr_array_of Self.tree x };

    /// `a = b`
    fn assign(x: ExprAssignOf<Self>) -> Self
        ensures { Self.tree result ≡ of.expr_assign_of Self.tree x };

    /// `async { .. }`
    fn async_block(x: ExprAsync) -> Self
        ensures { Self.tree result ≡ of.expr_async_of x };

    /// `a.await`
    fn await_expr(x: ExprAwaitOf<Self>) -> Self
        ensures { Self.tree result ≡ of.expr_await_of Self.tree x };

    /// `a + b`, `a += b`
    fn binary(x: ExprBinaryOf<Self>) -> Self
        ensures { Self.tree result ≡ of.expr_binary_of Self.tree x };

    /// `{ .. }`
    fn block(x: ExprBlock) -> Self
        ensures { Self.tree result ≡ of.expr_block_of x };

    /// `break`, `break 'a b`
    fn break_expr(x: ExprBreakOf<Self>) -> Self
        ensures { Self.tree result ≡ of.expr_break_of Self.tree x };

    /// `f(a, b)`
    fn call(x: ExprCallOf<Self>) -> Self
        ensures { Self.tree result ≡ of.expr_call_of Self.tree x };

    /// `a as T`
    fn cast(x: ExprCastOf<Self>) -> Self
        ensures { Self.tree result ≡ of.expr_cast_of Self.tree x };

    /// `|a, b| a + b`
    fn closure(x: ExprClosureOf<Self, Self::Pat>) -> Self
        ensures { Self.tree result ≡ both.expr_closure_of Self.tree Self.Pat.view x };

    /// `const { .. }`
    fn const_block(x: ExprConst) -> Self
        ensures { Self.tree result ≡ of.expr_const_of x };

    /// `continue`, `continue 'a`
    fn continue_expr(x: ExprContinue) -> Self
        ensures { Self.tree result ≡ of.expr_continue_of x };

    /// `a.b`, `a.0`
    fn field(x: ExprFieldOf<Self>) -> Self
        ensures { Self.tree result ≡ of.expr_field_of Self.tree x };

    /// `for p in a { .. }`
    fn for_loop(x: ExprForLoopOf<Self, Self::Pat>) -> Self
        ensures { Self.tree result ≡ both.expr_for_loop_of Self.tree Self.Pat.view x };

    /// An expression in delimiters that are not seen.
    fn group(x: ExprGroupOf<Self>) -> Self
        ensures { Self.tree result ≡ of.expr_group_of Self.tree x };

    /// `if a { .. } else { .. }`
    fn if_expr(x: ExprIfOf<Self>) -> Self
        ensures { Self.tree result ≡ of.expr_if_of Self.tree x };

    /// `a[i]`
    fn index(x: ExprIndexOf<Self>) -> Self
        ensures { Self.tree result ≡ of.expr_index_of Self.tree x };

    /// `_`
    fn infer(x: ExprInfer) -> Self
        ensures { Self.tree result ≡ of.expr_infer_of x };

    /// `let p = a`
    fn let_expr(x: ExprLetOf<Self, Self::Pat>) -> Self
        ensures { Self.tree result ≡ both.expr_let_of Self.tree Self.Pat.view x };

    /// `1`, `"a"`, `true`
    fn lit(x: ExprLit) -> Self
        ensures { Self.tree result ≡ of.expr_lit_of x };

    /// `loop { .. }`
    fn loop_expr(x: ExprLoop) -> Self
        ensures { Self.tree result ≡ of.expr_loop_of x };

    /// `m!(..)`
    fn mac(x: ExprMacro) -> Self
        ensures { Self.tree result ≡ of.expr_macro_of x };

    /// `match a { p => b, .. }`
    fn match_expr(x: ExprMatchOf<Self, Self::Arm>) -> Self
        ensures { Self.tree result ≡ both.expr_match_of Self.tree Self.Arm.view x };

    /// `a.f(b)`
    fn method_call(x: ExprMethodCallOf<Self>) -> Self
        ensures { Self.tree result ≡ of.expr_method_call_of Self.tree x };

    /// `(a)`
    fn paren(x: ExprParenOf<Self>) -> Self
        ensures { Self.tree result ≡ of.expr_paren_of Self.tree x };

    /// `a::b`
    fn path(x: ExprPath) -> Self
        ensures { Self.tree result ≡ of.expr_path_of x };

    /// `a..b`, `a..`, `..=b`, `..`
    fn range(x: ExprRangeOf<Self>) -> Self
        ensures { Self.tree result ≡ of.expr_range_of Self.tree x };

    /// `&raw const a`
    fn raw_addr(x: ExprRawAddrOf<Self>) -> Self
        ensures { Self.tree result ≡ of.expr_raw_addr_of Self.tree x };

    /// `&a`, `&mut a`
    fn reference(x: ExprReferenceOf<Self>) -> Self
        ensures { Self.tree result ≡ of.expr_reference_of Self.tree x };

    /// `[a; n]`
    fn repeat(x: ExprRepeatOf<Self>) -> Self
        ensures { Self.tree result ≡ of.expr_repeat_of Self.tree x };

    /// `return`, `return a`
    fn return_expr(x: ExprReturnOf<Self>) -> Self
        ensures { Self.tree result ≡ of.expr_return_of Self.tree x };

    /// `S { a: 1, ..b }`
    fn struct_expr(x: ExprStructOf<Self>) -> Self
        ensures { Self.tree result ≡ of.expr_struct_of Self.tree x };

    /// `a?`
    fn try_expr(x: ExprTryOf<Self>) -> Self
        ensures { Self.tree result ≡ of.expr_try_of Self.tree x };

    /// `try { .. }`
    fn try_block(x: ExprTryBlock) -> Self
        ensures { Self.tree result ≡ of.expr_try_block_of x };

    /// `(a, b)`
    fn tuple(x: ExprTupleOf<Self>) -> Self
        ensures { Self.tree result ≡ of.expr_tuple_of Self.tree x };

    /// `*a`, `!a`, `-a`
    fn unary(x: ExprUnaryOf<Self>) -> Self
        ensures { Self.tree result ≡ of.expr_unary_of Self.tree x };

    /// `unsafe { .. }`
    fn unsafe_block(x: ExprUnsafe) -> Self
        ensures { Self.tree result ≡ of.expr_unsafe_of x };

    /// `while a { .. }`
    fn while_expr(x: ExprWhileOf<Self>) -> Self
        ensures { Self.tree result ≡ of.expr_while_of Self.tree x };

    /// `yield`, `yield a`
    fn yield_expr(x: ExprYieldOf<Self>) -> Self
        ensures { Self.tree result ≡ of.expr_yield_of Self.tree x };

    /// Tokens that are kept as they are.
    fn verbatim(tokens: TokenStream) -> Self
        ensures { Self.tree result ≡ e.leaf (e.verbatim tokens) };

    /// `p if a => b,`
    fn arm(x: ArmOf<Self, Self::Pat>) -> Self::Arm
        ensures { Self.Arm.view result ≡ both.arm_of Self.tree Self.Pat.view x };

    /// `p if a`
    fn guarded(x: PatGuardOf<Self, Self::Pat>) -> Self::Pat
        ensures { Self.Pat.view result ≡ both.guarded_of Self.tree Self.Pat.view x };
}
