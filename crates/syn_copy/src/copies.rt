//! Copies of expressions and of patterns.

ghost use Rattle.std.specs.Prelude.{◌≡◌, IfErr, IfOk};
ghost use Rattle.syn_expr_core.specs.View.{arm_of, closure_of, for_loop_of, guard_of, let_of, match_of, pat_of, tree_of};

use std::alloc::Global;
use syn_expr_ast::node::Closure;
use syn_expr_copy::{atom, block, both, operation, pat, trailer};
use syn_expr_core::closure::ExprClosure;
use syn_expr_core::control::{Arm, ExprForLoop, ExprLet, ExprMatch};
use syn_expr_core::expr::Expr;
use syn_expr_core::pat::{Pat, PatGuard};
use syn_tokens::error::{ErrorKind, Result};

/// A copy of a closure.
#[cycle(copy)]
#[tactic(auto, using(syn_expr_core::proofs::TreeOf::members))]
fn copied_closure(x: &ExprClosure, alloc: Global) -> Result<Expr>
    ensures copied { IfOk result (λ y. tree_of y ≡ closure_of x.now) }
    ensures memory { IfErr result (λ e. e.kind ≡ ErrorKind.OutOfMemory) }
{
    let head = Closure {
        lifetimes: &x.lifetimes,
        modifiers: &x.modifiers,
        constness: &x.constness,
        asyncness: &x.asyncness,
        capture: &x.capture,
        inputs_begin: &x.inputs_begin,
        inputs: &x.inputs,
        inputs_end: &x.inputs_end,
        output: &x.output,
    };
    both::copy_closure(alloc, &x.attrs, &head, &x.body, &copied_expr, &copied_pat)
}

/// A copy of `for`.
#[cycle(copy)]
#[tactic(auto, using(syn_expr_core::proofs::TreeOf::members))]
fn copied_for_loop(x: &ExprForLoop, alloc: Global) -> Result<Expr>
    ensures copied { IfOk result (λ y. tree_of y ≡ for_loop_of x.now) }
    ensures memory { IfErr result (λ e. e.kind ≡ ErrorKind.OutOfMemory) }
{
    both::copy_for_loop(
        alloc,
        &x.attrs,
        &x.label,
        x.for_token,
        &x.pat,
        x.in_token,
        &x.expr,
        &x.body,
        &copied_expr,
        &copied_pat,
    )
}

/// A copy of `let` in a condition.
#[cycle(copy)]
#[tactic(auto, using(syn_expr_core::proofs::TreeOf::members))]
fn copied_let(x: &ExprLet, alloc: Global) -> Result<Expr>
    ensures copied { IfOk result (λ y. tree_of y ≡ let_of x.now) }
    ensures memory { IfErr result (λ e. e.kind ≡ ErrorKind.OutOfMemory) }
{
    both::copy_let(
        alloc,
        &x.attrs,
        x.let_token,
        &x.pat,
        x.eq_token,
        &x.expr,
        &copied_expr,
        &copied_pat,
    )
}

/// A copy of `match`.
#[cycle(copy)]
#[tactic(auto, using(syn_expr_core::proofs::TreeOf::members))]
fn copied_match(x: &ExprMatch, alloc: Global) -> Result<Expr>
    ensures copied { IfOk result (λ y. tree_of y ≡ match_of x.now) }
    ensures memory { IfErr result (λ e. e.kind ≡ ErrorKind.OutOfMemory) }
{
    both::copy_match(
        alloc,
        &x.attrs,
        x.match_token,
        &x.expr,
        x.brace_token,
        &x.arms,
        &copied_expr,
        &copied_arm,
    )
}

/// A copy of an arm of `match`.
#[cycle(copy)]
#[tactic(auto, using(syn_expr_core::proofs::TreeOf::members))]
pub(crate) fn copied_arm(x: &Arm, alloc: Global) -> Result<Arm>
    ensures copied { IfOk result (λ y. arm_of y ≡ arm_of x.now) }
    ensures memory { IfErr result (λ e. e.kind ≡ ErrorKind.OutOfMemory) }
{
    both::copy_arm(
        alloc,
        &x.attrs,
        &x.pat,
        x.fat_arrow_token,
        &x.body,
        x.comma,
        &copied_expr,
        &copied_pat,
    )
}

/// A copy of a pattern with a guard.
#[cycle(copy)]
#[tactic(auto, using(syn_expr_core::proofs::TreeOf::members))]
fn copied_guard(x: &PatGuard, alloc: Global) -> Result<Pat>
    ensures copied { IfOk result (λ y. pat_of y ≡ guard_of x.now) }
    ensures memory { IfErr result (λ e. e.kind ≡ ErrorKind.OutOfMemory) }
{
    both::copy_guard(
        alloc,
        &x.attrs,
        &x.pat,
        x.if_token,
        &x.guard,
        &copied_expr,
        &copied_pat,
    )
}

/// A copy of a pattern.
#[cycle(copy)]
#[tactic(auto, using(syn_expr_core::proofs::TreeOf::pats))]
pub(crate) fn copied_pat(x: &Pat, alloc: Global) -> Result<Pat>
    ensures copied { IfOk result (λ y. pat_of y ≡ pat_of x.now) }
    ensures memory { IfErr result (λ e. e.kind ≡ ErrorKind.OutOfMemory) }
{
    match x {
        Pat::Const(x) => pat::copy_pat_const(alloc, x),
        Pat::Guard(x) => copied_guard(x, alloc),
        Pat::Ident(x) => pat::copy_pat_ident(alloc, x, &copied_pat),
        Pat::Lit(x) => pat::copy_pat_lit(alloc, x),
        Pat::Macro(x) => pat::copy_pat_macro(alloc, x),
        Pat::Or(x) => pat::copy_pat_or(alloc, x, &copied_pat),
        Pat::Paren(x) => pat::copy_pat_paren(alloc, x, &copied_pat),
        Pat::Path(x) => pat::copy_pat_path(alloc, x),
        Pat::Range(x) => pat::copy_pat_range(alloc, x),
        Pat::Reference(x) => pat::copy_pat_reference(alloc, x, &copied_pat),
        Pat::Rest(x) => pat::copy_pat_rest(alloc, x),
        Pat::Slice(x) => pat::copy_pat_slice(alloc, x, &copied_pat),
        Pat::Struct(x) => pat::copy_pat_struct(alloc, x, &copied_pat),
        Pat::Tuple(x) => pat::copy_pat_tuple(alloc, x, &copied_pat),
        Pat::TupleStruct(x) => pat::copy_pat_tuple_struct(alloc, x, &copied_pat),
        Pat::Typed(x) => pat::copy_pat_type(alloc, x, &copied_pat),
        Pat::Wild(x) => pat::copy_pat_wild(alloc, x),
    }
}

/// A copy of an expression.
#[cycle(copy)]
#[tactic(auto, using(syn_expr_core::proofs::TreeOf::kinds))]
pub(crate) fn copied_expr(x: &Expr, alloc: Global) -> Result<Expr>
    ensures copied { IfOk result (λ y. tree_of y ≡ tree_of x.now) }
    ensures memory { IfErr result (λ e. e.kind ≡ ErrorKind.OutOfMemory) }
{
    match x {
        Expr::Array(x) => atom::copy_expr_array(alloc, x, &copied_expr),
        Expr::Assign(x) => operation::copy_expr_assign(alloc, x, &copied_expr),
        Expr::Async(x) => block::copy_expr_async(alloc, x),
        Expr::Await(x) => trailer::copy_expr_await(alloc, x, &copied_expr),
        Expr::Binary(x) => operation::copy_expr_binary(alloc, x, &copied_expr),
        Expr::Block(x) => block::copy_expr_block(alloc, x),
        Expr::Break(x) => block::copy_expr_break(alloc, x, &copied_expr),
        Expr::Call(x) => trailer::copy_expr_call(alloc, x, &copied_expr),
        Expr::Cast(x) => operation::copy_expr_cast(alloc, x, &copied_expr),
        Expr::Closure(x) => copied_closure(x, alloc),
        Expr::Const(x) => block::copy_expr_const(alloc, x),
        Expr::Continue(x) => block::copy_expr_continue(alloc, x),
        Expr::Field(x) => trailer::copy_expr_field(alloc, x, &copied_expr),
        Expr::ForLoop(x) => copied_for_loop(x, alloc),
        Expr::Group(x) => atom::copy_expr_group(alloc, x, &copied_expr),
        Expr::If(x) => block::copy_expr_if(alloc, x, &copied_expr),
        Expr::Index(x) => trailer::copy_expr_index(alloc, x, &copied_expr),
        Expr::Infer(x) => atom::copy_expr_infer(alloc, x),
        Expr::Let(x) => copied_let(x, alloc),
        Expr::Lit(x) => atom::copy_expr_lit(alloc, x),
        Expr::Loop(x) => block::copy_expr_loop(alloc, x),
        Expr::Macro(x) => atom::copy_expr_macro(alloc, x),
        Expr::Match(x) => copied_match(x, alloc),
        Expr::MethodCall(x) => trailer::copy_expr_method_call(alloc, x, &copied_expr),
        Expr::Paren(x) => atom::copy_expr_paren(alloc, x, &copied_expr),
        Expr::Path(x) => atom::copy_expr_path(alloc, x),
        Expr::Range(x) => operation::copy_expr_range(alloc, x, &copied_expr),
        Expr::RawAddr(x) => operation::copy_expr_raw_addr(alloc, x, &copied_expr),
        Expr::Reference(x) => operation::copy_expr_reference(alloc, x, &copied_expr),
        Expr::Repeat(x) => atom::copy_expr_repeat(alloc, x, &copied_expr),
        Expr::Return(x) => block::copy_expr_return(alloc, x, &copied_expr),
        Expr::Struct(x) => atom::copy_expr_struct(alloc, x, &copied_expr),
        Expr::Try(x) => trailer::copy_expr_try(alloc, x, &copied_expr),
        Expr::TryBlock(x) => block::copy_expr_try_block(alloc, x),
        Expr::Tuple(x) => atom::copy_expr_tuple(alloc, x, &copied_expr),
        Expr::Unary(x) => operation::copy_expr_unary(alloc, x, &copied_expr),
        Expr::Unsafe(x) => block::copy_expr_unsafe(alloc, x),
        Expr::While(x) => block::copy_expr_while(alloc, x, &copied_expr),
        Expr::Yield(x) => block::copy_expr_yield(alloc, x, &copied_expr),
        Expr::Verbatim(x) => atom::copy_verbatim(alloc, x),
    }
}
