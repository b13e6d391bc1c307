//! Expressions and patterns of all kinds, without the parentheses of expressions in them. Of a kind that holds no
//! expressions, attributes alone are put before it.

ghost use Rattle.std.specs.Prelude.{IfOk, ◌≡◌};
ghost use Rattle.syn_expr_core.specs.View.{arm_of, pat_of, tree_of};
ghost use Rattle.syn_expr_flatten.specs.Flat.{IsFlat, IsFlatBehind};
ghost use Rattle.syn_expr_flatten.specs.Pats.{IsFlatArm, IsFlatPat};
ghost use Rattle.syn_expr_spec.specs.Tree.{leaf, verbatim};
ghost use Rattle.syn_expr_core.specs.declared.expr.Expr.{Expr};
ghost use Rattle.syn_expr_core.specs.declared.expr.Expr.TheVariants as ex;
ghost use Rattle.syn_expr_ast.specs.declared.atom.ExprParenOf.{ExprParenOf};
ghost use Rattle.syn_expr_ast.specs.View.{expr_infer_of, expr_lit_of, expr_macro_of, expr_path_of, expr_async_of, expr_try_block_of, expr_continue_of, expr_block_of, expr_const_of, expr_loop_of, expr_unsafe_of};

use crate::attrs::{Before, Flattened, put_around, put_before};
use crate::block::{if_expr, while_expr};
use crate::paren::unwrapped;
use crate::{atom, jump, members, operation, pat, trailer};
use std::alloc::Global;
use std::mem::replace;
use syn_expr_ast::atom::{ExprInfer, ExprLit, ExprMacro, ExprPath};
use syn_expr_ast::attrs::put_attributes;
use syn_expr_ast::block::{ExprAsync, ExprBlock, ExprConst, ExprLoop, ExprTryBlock, ExprUnsafe};
use syn_expr_ast::jump::ExprContinue;
use syn_expr_ast::node::Attributes;
use syn_expr_ast::put::put_result;
use syn_expr_core::control::Arm;
use syn_expr_core::expr::Expr;
use syn_expr_core::held::HeldExpr;
use syn_expr_core::pat::Pat;
use syn_tokens::tree::TokenStream;

/// A pattern without the parentheses in its guards.
#[cycle(flatten)]
fn pattern(x: &mut Pat) -> Flattened<()>
    ensures { IfOk result (λ _. IsFlatPat (pat_of x.old) (pat_of x.new)) }
{
    match x {
        Pat::Const(_) => Ok(()),
        Pat::Guard(x) => members::guarded(x, operand, pattern),
        Pat::Ident(x) => pat::ident(x, pattern),
        Pat::Lit(_) => Ok(()),
        Pat::Macro(_) => Ok(()),
        Pat::Or(x) => pat::or(x, pattern),
        Pat::Paren(x) => pat::paren(x, pattern),
        Pat::Path(_) => Ok(()),
        Pat::Range(_) => Ok(()),
        Pat::Reference(x) => pat::reference(x, pattern),
        Pat::Rest(_) => Ok(()),
        Pat::Slice(x) => pat::slice(x, pattern),
        Pat::Struct(x) => pat::struct_pat(x, pattern),
        Pat::Tuple(x) => pat::tuple(x, pattern),
        Pat::TupleStruct(x) => pat::tuple_struct(x, pattern),
        Pat::Typed(x) => pat::typed(x, pattern),
        Pat::Wild(_) => Ok(()),
    }
}

/// An arm without the parentheses in it.
#[cycle(flatten)]
fn arm(x: &mut Arm) -> Flattened<()>
    ensures { IfOk result (λ _. IsFlatArm (arm_of x.old) (arm_of x.new)) }
{
    members::arm(x, operand, pattern)
}

/// An expression without the parentheses in it, after the attributes of those that were round it.
#[cycle(flatten)]
fn flattened(x: &mut Expr, attrs: Before) -> Flattened<()>
    ensures { IfOk result (λ _. IsFlatBehind attrs (tree_of x.old) (tree_of x.new)) }
{
    match x {
        Expr::Array(x) => atom::array(x, attrs, operand),
        Expr::Assign(x) => operation::assign(x, attrs, operand),
        Expr::Async(x) => async_block(x, attrs),
        Expr::Await(x) => trailer::await_expr(x, attrs, operand),
        Expr::Binary(x) => operation::binary(x, attrs, operand),
        Expr::Block(x) => block(x, attrs),
        Expr::Break(x) => jump::break_expr(x, attrs, operand),
        Expr::Call(x) => trailer::call(x, attrs, operand),
        Expr::Cast(x) => operation::cast(x, attrs, operand),
        Expr::Closure(x) => members::closure(x, attrs, operand, pattern),
        Expr::Const(x) => const_block(x, attrs),
        Expr::Continue(x) => continue_expr(x, attrs),
        Expr::Field(x) => trailer::field(x, attrs, operand),
        Expr::ForLoop(x) => members::for_loop(x, attrs, operand, pattern),
        Expr::Group(x) => atom::group(x, attrs, operand),
        Expr::If(x) => if_expr(x, attrs, operand),
        Expr::Index(x) => trailer::index(x, attrs, operand),
        Expr::Infer(x) => infer(x, attrs),
        Expr::Let(x) => members::let_expr(x, attrs, operand, pattern),
        Expr::Lit(x) => lit(x, attrs),
        Expr::Loop(x) => loop_expr(x, attrs),
        Expr::Macro(x) => mac(x, attrs),
        Expr::Match(x) => members::match_expr(x, attrs, operand, arm),
        Expr::MethodCall(x) => trailer::method_call(x, attrs, operand),
        Expr::Paren(paren) => {
            unwrapped(paren, attrs, flattened)?;
            lift(x);
            Ok(())
        }
        Expr::Path(x) => path(x, attrs),
        Expr::Range(x) => operation::range(x, attrs, operand),
        Expr::RawAddr(x) => operation::raw_addr(x, attrs, operand),
        Expr::Reference(x) => operation::reference(x, attrs, operand),
        Expr::Repeat(x) => atom::repeat(x, attrs, operand),
        Expr::Return(x) => jump::return_expr(x, attrs, operand),
        Expr::Struct(x) => atom::struct_expr(x, attrs, operand),
        Expr::Try(x) => trailer::try_expr(x, attrs, operand),
        Expr::TryBlock(x) => try_block(x, attrs),
        Expr::Tuple(x) => atom::tuple(x, attrs, operand),
        Expr::Unary(x) => operation::unary(x, attrs, operand),
        Expr::Unsafe(x) => unsafe_block(x, attrs),
        Expr::While(x) => while_expr(x, attrs, operand),
        Expr::Yield(x) => jump::yield_expr(x, attrs, operand),
        Expr::Verbatim(tokens) => behind(tokens, attrs),
    }
}

/// An expression without the parentheses in it and round it.
#[cycle(flatten)]
pub(crate) fn operand(x: &mut Expr) -> Flattened<()>
    ensures { IfOk result (λ _. IsFlat (tree_of x.old) (tree_of x.new)) }
{
    flattened(x, None)?;
    Ok(())
}

/// The allocator of the lists in an expression.
pub(crate) fn alloc_of(expr: &Expr) -> Global {
    macro_rules! by_kind {
        ($($kind:ident)*) => {
            match expr {
                $(Expr::$kind(x) => *x.attrs.allocator(),)*
                Expr::Verbatim(tokens) => tokens.alloc(),
            }
        };
    }
    by_kind!(
        Array Assign Async Await Binary Block Break Call Cast Closure Const Continue Field ForLoop Group If Index Infer Let
        Lit Loop Macro Match MethodCall Paren Path Range RawAddr Reference Repeat Return Struct Try TryBlock Tuple Unary
        Unsafe While Yield
    )
}

/// Verbatim tokens, with those of more attributes before them. Refused where memory runs out.
#[tactic(auto, using(crate::proofs::Verbatim::verbatim))]
pub(crate) fn behind(tokens: &mut TokenStream, attrs: Before) -> Flattened<()>
    ensures { IfOk result (λ _. IsFlatBehind attrs (leaf (verbatim tokens.old)) (leaf (verbatim tokens.new))) }
{
    match attrs {
        Some(attrs) => {
            let mut all = TokenStream::new(tokens.alloc());
            put_attributes(&mut all, Attributes::Before(&attrs))?;
            let empty = TokenStream::new(tokens.alloc());
            put_result(all.append(replace(tokens, empty)))?;
            *tokens = all;
            Ok(())
        }
        None => Ok(()),
    }
}

/// Puts what parentheses hold in their place, and lets them go, with the attributes before them.
pub(crate) fn lift(x: &mut Expr)
    ensures { (p : ExprParenOf Expr) → x.old ≡ ex.Paren p → x.new ≡ p.expr.value }
{
    if let Expr::Paren(paren) = x {
        let empty = Expr::placeholder(*paren.attrs.allocator());
        let held = replace(&mut *paren.expr, empty);
        let _parens = HeldExpr {
            expr: replace(x, held),
        };
    }
}

/// `_` after more attributes.
pub fn infer(x: &mut ExprInfer, attrs: Before) -> Flattened<()>
    ensures { IfOk result (λ _. IsFlatBehind attrs (expr_infer_of x.old) (expr_infer_of x.new)) }
{
    put_before(attrs, &mut x.attrs)?;
    Ok(())
}

/// A literal after more attributes.
pub fn lit(x: &mut ExprLit, attrs: Before) -> Flattened<()>
    ensures { IfOk result (λ _. IsFlatBehind attrs (expr_lit_of x.old) (expr_lit_of x.new)) }
{
    put_before(attrs, &mut x.attrs)?;
    Ok(())
}

/// A macro call after more attributes.
pub fn mac(x: &mut ExprMacro, attrs: Before) -> Flattened<()>
    ensures { IfOk result (λ _. IsFlatBehind attrs (expr_macro_of x.old) (expr_macro_of x.new)) }
{
    put_before(attrs, &mut x.attrs)?;
    Ok(())
}

/// A path after more attributes.
pub fn path(x: &mut ExprPath, attrs: Before) -> Flattened<()>
    ensures { IfOk result (λ _. IsFlatBehind attrs (expr_path_of x.old) (expr_path_of x.new)) }
{
    put_before(attrs, &mut x.attrs)?;
    Ok(())
}

/// An `async` block after more attributes.
pub fn async_block(x: &mut ExprAsync, attrs: Before) -> Flattened<()>
    ensures { IfOk result (λ _. IsFlatBehind attrs (expr_async_of x.old) (expr_async_of x.new)) }
{
    put_before(attrs, &mut x.attrs)?;
    Ok(())
}

/// A `try` block after more attributes.
pub fn try_block(x: &mut ExprTryBlock, attrs: Before) -> Flattened<()>
    ensures { IfOk result (λ _. IsFlatBehind attrs (expr_try_block_of x.old) (expr_try_block_of x.new)) }
{
    put_before(attrs, &mut x.attrs)?;
    Ok(())
}

/// A `continue` after more attributes.
pub fn continue_expr(x: &mut ExprContinue, attrs: Before) -> Flattened<()>
    ensures { IfOk result (λ _. IsFlatBehind attrs (expr_continue_of x.old) (expr_continue_of x.new)) }
{
    put_before(attrs, &mut x.attrs)?;
    Ok(())
}

/// A block after more attributes.
pub fn block(x: &mut ExprBlock, attrs: Before) -> Flattened<()>
    ensures { IfOk result (λ _. IsFlatBehind attrs (expr_block_of x.old) (expr_block_of x.new)) }
{
    put_around(attrs, &mut x.attrs)?;
    Ok(())
}

/// A `const` block after more attributes.
pub fn const_block(x: &mut ExprConst, attrs: Before) -> Flattened<()>
    ensures { IfOk result (λ _. IsFlatBehind attrs (expr_const_of x.old) (expr_const_of x.new)) }
{
    put_around(attrs, &mut x.attrs)?;
    Ok(())
}

/// A `loop` after more attributes.
pub fn loop_expr(x: &mut ExprLoop, attrs: Before) -> Flattened<()>
    ensures { IfOk result (λ _. IsFlatBehind attrs (expr_loop_of x.old) (expr_loop_of x.new)) }
{
    put_around(attrs, &mut x.attrs)?;
    Ok(())
}

/// An `unsafe` block after more attributes.
pub fn unsafe_block(x: &mut ExprUnsafe, attrs: Before) -> Flattened<()>
    ensures { IfOk result (λ _. IsFlatBehind attrs (expr_unsafe_of x.old) (expr_unsafe_of x.new)) }
{
    put_around(attrs, &mut x.attrs)?;
    Ok(())
}
