//! Copies of blocks, loops and jumps.

ghost use Rattle.std.specs.Option.{ForSome};
ghost use Rattle.std.specs.Prelude.{◌≡◌, IfErr, IfOk};
ghost use Rattle.syn_expr_ast.specs.View.{expr_async_of, expr_block_of, expr_break_of, expr_const_of, expr_continue_of, expr_if_of, expr_loop_of, expr_return_of, expr_try_block_of, expr_unsafe_of, expr_while_of, expr_yield_of};
ghost use Rattle.syn_lower_copy.specs.Copying.{Copies, Takes, RunsOut};

use crate::leaf::{copy_attrs, copy_some_label};
use crate::list::copy_boxed;
use crate::operand::{copy_else, copy_some};
use crate::seen::ByExpr;
use std::alloc::Global;
use syn_expr_ast::alone::IsExpr;
use syn_expr_ast::block::{
    ExprAsync, ExprBlock, ExprConst, ExprIfOf, ExprLoop, ExprTryBlock, ExprUnsafe, ExprWhileOf,
};
use syn_expr_ast::jump::{ExprBreakOf, ExprContinue, ExprReturnOf, ExprYieldOf};
use syn_expr_parse::known::{Held, LetGo};
use syn_lower_copy::leaf::{copy_block, copy_some_lifetime};
use syn_tokens::error::{ErrorKind, Result};

/// A copy of an expression of the kind `ExprAsync`.
pub fn copy_expr_async<E: IsExpr>(alloc: Global, x: &ExprAsync) -> Result<E>
    ensures copied { IfOk result (λ y. E.tree y ≡ expr_async_of x.now) }
    ensures memory { IfErr result (λ e. e.kind ≡ ErrorKind.OutOfMemory) }
{
    let attrs = copy_attrs(alloc, &x.attrs)?;
    let block = copy_block(alloc, &x.block)?;
    Ok(E::async_block(ExprAsync {
        attrs,
        async_token: x.async_token,
        capture: x.capture,
        modifiers: x.modifiers,
        block,
    }))
}

/// A copy of an expression of the kind `ExprBlock`.
pub fn copy_expr_block<E: IsExpr>(alloc: Global, x: &ExprBlock) -> Result<E>
    ensures copied { IfOk result (λ y. E.tree y ≡ expr_block_of x.now) }
    ensures memory { IfErr result (λ e. e.kind ≡ ErrorKind.OutOfMemory) }
{
    let attrs = copy_attrs(alloc, &x.attrs)?;
    let label = copy_some_label(alloc, &x.label)?;
    let block = copy_block(alloc, &x.block)?;
    Ok(E::block(ExprBlock {
        attrs,
        label,
        block,
    }))
}

/// A copy of an expression of the kind `ExprConst`.
pub fn copy_expr_const<E: IsExpr>(alloc: Global, x: &ExprConst) -> Result<E>
    ensures copied { IfOk result (λ y. E.tree y ≡ expr_const_of x.now) }
    ensures memory { IfErr result (λ e. e.kind ≡ ErrorKind.OutOfMemory) }
{
    let attrs = copy_attrs(alloc, &x.attrs)?;
    let block = copy_block(alloc, &x.block)?;
    Ok(E::const_block(ExprConst {
        attrs,
        const_token: x.const_token,
        modifiers: x.modifiers,
        block,
    }))
}

/// A copy of an expression of the kind `ExprIf`.
pub fn copy_expr_if<E: IsExpr + LetGo, F: Fn(&E, Global) -> Result<E>>(
    alloc: Global,
    x: &ExprIfOf<E>,
    call: &F,
) -> Result<E>
    requires takes_cond { Takes (F.pre call.now) alloc x.now.cond.value }
    requires takes_else_branch { ForSome x.now.else_branch (λ q. Takes (F.pre call.now) alloc q.1.value) }
    requires copies { Copies E.tree (F.post call.now) alloc }
    requires runs_out { RunsOut (F.post call.now) alloc }
    ensures copied { IfOk result (λ y. E.tree y ≡ expr_if_of E.tree x.now) }
    ensures memory { IfErr result (λ e. e.kind ≡ ErrorKind.OutOfMemory) }
{
    let attrs = copy_attrs(alloc, &x.attrs)?;
    let then_branch = copy_block(alloc, &x.then_branch)?;
    let cond = Held {
        value: copy_boxed(alloc, ByExpr {}, &x.cond, call)?,
    };
    let else_branch = copy_else(alloc, &x.else_branch, call)?;
    Ok(E::if_expr(ExprIfOf {
        attrs,
        if_token: x.if_token,
        cond: cond.into_inner(),
        then_branch,
        else_branch,
    }))
}

/// A copy of an expression of the kind `ExprLoop`.
pub fn copy_expr_loop<E: IsExpr>(alloc: Global, x: &ExprLoop) -> Result<E>
    ensures copied { IfOk result (λ y. E.tree y ≡ expr_loop_of x.now) }
    ensures memory { IfErr result (λ e. e.kind ≡ ErrorKind.OutOfMemory) }
{
    let attrs = copy_attrs(alloc, &x.attrs)?;
    let label = copy_some_label(alloc, &x.label)?;
    let body = copy_block(alloc, &x.body)?;
    Ok(E::loop_expr(ExprLoop {
        attrs,
        label,
        loop_token: x.loop_token,
        body,
    }))
}

/// A copy of an expression of the kind `ExprTryBlock`.
pub fn copy_expr_try_block<E: IsExpr>(alloc: Global, x: &ExprTryBlock) -> Result<E>
    ensures copied { IfOk result (λ y. E.tree y ≡ expr_try_block_of x.now) }
    ensures memory { IfErr result (λ e. e.kind ≡ ErrorKind.OutOfMemory) }
{
    let attrs = copy_attrs(alloc, &x.attrs)?;
    let block = copy_block(alloc, &x.block)?;
    Ok(E::try_block(ExprTryBlock {
        attrs,
        try_token: x.try_token,
        modifiers: x.modifiers,
        block,
    }))
}

/// A copy of an expression of the kind `ExprUnsafe`.
pub fn copy_expr_unsafe<E: IsExpr>(alloc: Global, x: &ExprUnsafe) -> Result<E>
    ensures copied { IfOk result (λ y. E.tree y ≡ expr_unsafe_of x.now) }
    ensures memory { IfErr result (λ e. e.kind ≡ ErrorKind.OutOfMemory) }
{
    let attrs = copy_attrs(alloc, &x.attrs)?;
    let block = copy_block(alloc, &x.block)?;
    Ok(E::unsafe_block(ExprUnsafe {
        attrs,
        unsafe_token: x.unsafe_token,
        block,
    }))
}

/// A copy of an expression of the kind `ExprWhile`.
pub fn copy_expr_while<E: IsExpr + LetGo, F: Fn(&E, Global) -> Result<E>>(
    alloc: Global,
    x: &ExprWhileOf<E>,
    call: &F,
) -> Result<E>
    requires takes_cond { Takes (F.pre call.now) alloc x.now.cond.value }
    requires copies { Copies E.tree (F.post call.now) alloc }
    requires runs_out { RunsOut (F.post call.now) alloc }
    ensures copied { IfOk result (λ y. E.tree y ≡ expr_while_of E.tree x.now) }
    ensures memory { IfErr result (λ e. e.kind ≡ ErrorKind.OutOfMemory) }
{
    let attrs = copy_attrs(alloc, &x.attrs)?;
    let label = copy_some_label(alloc, &x.label)?;
    let body = copy_block(alloc, &x.body)?;
    let cond = copy_boxed(alloc, ByExpr {}, &x.cond, call)?;
    Ok(E::while_expr(ExprWhileOf {
        attrs,
        label,
        while_token: x.while_token,
        cond,
        body,
    }))
}

/// A copy of an expression of the kind `ExprBreak`.
pub fn copy_expr_break<E: IsExpr + LetGo, F: Fn(&E, Global) -> Result<E>>(
    alloc: Global,
    x: &ExprBreakOf<E>,
    call: &F,
) -> Result<E>
    requires takes_expr { ForSome x.now.expr (λ b. Takes (F.pre call.now) alloc b.value) }
    requires copies { Copies E.tree (F.post call.now) alloc }
    requires runs_out { RunsOut (F.post call.now) alloc }
    ensures copied { IfOk result (λ y. E.tree y ≡ expr_break_of E.tree x.now) }
    ensures memory { IfErr result (λ e. e.kind ≡ ErrorKind.OutOfMemory) }
{
    let attrs = copy_attrs(alloc, &x.attrs)?;
    let label = copy_some_lifetime(alloc, &x.label)?;
    let expr = copy_some(alloc, ByExpr {}, &x.expr, call)?;
    Ok(E::break_expr(ExprBreakOf {
        attrs,
        break_token: x.break_token,
        label,
        expr,
    }))
}

/// A copy of an expression of the kind `ExprContinue`.
pub fn copy_expr_continue<E: IsExpr>(alloc: Global, x: &ExprContinue) -> Result<E>
    ensures copied { IfOk result (λ y. E.tree y ≡ expr_continue_of x.now) }
    ensures memory { IfErr result (λ e. e.kind ≡ ErrorKind.OutOfMemory) }
{
    let attrs = copy_attrs(alloc, &x.attrs)?;
    let label = copy_some_lifetime(alloc, &x.label)?;
    Ok(E::continue_expr(ExprContinue {
        attrs,
        continue_token: x.continue_token,
        label,
    }))
}

/// A copy of an expression of the kind `ExprReturn`.
pub fn copy_expr_return<E: IsExpr + LetGo, F: Fn(&E, Global) -> Result<E>>(
    alloc: Global,
    x: &ExprReturnOf<E>,
    call: &F,
) -> Result<E>
    requires takes_expr { ForSome x.now.expr (λ b. Takes (F.pre call.now) alloc b.value) }
    requires copies { Copies E.tree (F.post call.now) alloc }
    requires runs_out { RunsOut (F.post call.now) alloc }
    ensures copied { IfOk result (λ y. E.tree y ≡ expr_return_of E.tree x.now) }
    ensures memory { IfErr result (λ e. e.kind ≡ ErrorKind.OutOfMemory) }
{
    let attrs = copy_attrs(alloc, &x.attrs)?;
    let expr = copy_some(alloc, ByExpr {}, &x.expr, call)?;
    Ok(E::return_expr(ExprReturnOf {
        attrs,
        return_token: x.return_token,
        expr,
    }))
}

/// A copy of an expression of the kind `ExprYield`.
pub fn copy_expr_yield<E: IsExpr + LetGo, F: Fn(&E, Global) -> Result<E>>(
    alloc: Global,
    x: &ExprYieldOf<E>,
    call: &F,
) -> Result<E>
    requires takes_expr { ForSome x.now.expr (λ b. Takes (F.pre call.now) alloc b.value) }
    requires copies { Copies E.tree (F.post call.now) alloc }
    requires runs_out { RunsOut (F.post call.now) alloc }
    ensures copied { IfOk result (λ y. E.tree y ≡ expr_yield_of E.tree x.now) }
    ensures memory { IfErr result (λ e. e.kind ≡ ErrorKind.OutOfMemory) }
{
    let attrs = copy_attrs(alloc, &x.attrs)?;
    let expr = copy_some(alloc, ByExpr {}, &x.expr, call)?;
    Ok(E::yield_expr(ExprYieldOf {
        attrs,
        yield_token: x.yield_token,
        expr,
    }))
}
