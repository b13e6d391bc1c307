//! Copies of expressions with a trailer: calls, fields, indices and the like.

ghost use Rattle.std.specs.Option.{ForSome};
ghost use Rattle.std.specs.Prelude.{◌≡◌, Contains, IfErr, IfOk};
ghost use Rattle.syn_expr_ast.specs.View.{expr_await_of, expr_call_of, expr_field_of, expr_index_of, expr_method_call_of, expr_try_of};
ghost use Rattle.syn_lower_copy.specs.Copying.{Copies, Takes, RunsOut};

use crate::leaf::{copy_attrs, copy_member, copy_turbofish};
use crate::list::{copy_boxed, copy_punctuated};
use crate::seen::ByExpr;
use std::alloc::Global;
use syn_expr_ast::alone::IsExpr;
use syn_expr_ast::trailer::{
    ExprAwaitOf, ExprCallOf, ExprFieldOf, ExprIndexOf, ExprMethodCallOf, ExprTryOf,
};
use syn_expr_parse::known::{Held, LetGo};
use syn_tokens::error::{ErrorKind, Result};
use syn_tokens::tree::copy_ident;

/// A copy of an expression of the kind `ExprAwait`.
pub fn copy_expr_await<E: IsExpr + LetGo, F: Fn(&E, Global) -> Result<E>>(
    alloc: Global,
    x: &ExprAwaitOf<E>,
    call: &F,
) -> Result<E>
    requires takes_base { Takes (F.pre call.now) alloc x.now.base.value }
    requires copies { Copies E.tree (F.post call.now) alloc }
    requires runs_out { RunsOut (F.post call.now) alloc }
    ensures copied { IfOk result (λ y. E.tree y ≡ expr_await_of E.tree x.now) }
    ensures memory { IfErr result (λ e. e.kind ≡ ErrorKind.OutOfMemory) }
{
    let attrs = copy_attrs(alloc, &x.attrs)?;
    let base = copy_boxed(alloc, ByExpr {}, &x.base, call)?;
    Ok(E::await_expr(ExprAwaitOf {
        attrs,
        base,
        dot_token: x.dot_token,
        await_token: x.await_token,
    }))
}

/// A copy of an expression of the kind `ExprCall`.
pub fn copy_expr_call<E: IsExpr + LetGo, F: Fn(&E, Global) -> Result<E>>(
    alloc: Global,
    x: &ExprCallOf<E>,
    call: &F,
) -> Result<E>
    requires takes_func { Takes (F.pre call.now) alloc x.now.func.value }
    requires takes_args_inner { (q : _) → Contains x.now.args.inner.items q → Takes (F.pre call.now) alloc q.0 }
    requires takes_args_last { ForSome x.now.args.last (λ b. Takes (F.pre call.now) alloc b.value) }
    requires copies { Copies E.tree (F.post call.now) alloc }
    requires runs_out { RunsOut (F.post call.now) alloc }
    ensures copied { IfOk result (λ y. E.tree y ≡ expr_call_of E.tree x.now) }
    ensures memory { IfErr result (λ e. e.kind ≡ ErrorKind.OutOfMemory) }
{
    let attrs = copy_attrs(alloc, &x.attrs)?;
    let func = Held {
        value: copy_boxed(alloc, ByExpr {}, &x.func, call)?,
    };
    let args = copy_punctuated(alloc, ByExpr {}, &x.args, call)?;
    Ok(E::call(ExprCallOf {
        attrs,
        func: func.into_inner(),
        paren_token: x.paren_token,
        args,
    }))
}

/// A copy of an expression of the kind `ExprField`.
pub fn copy_expr_field<E: IsExpr + LetGo, F: Fn(&E, Global) -> Result<E>>(
    alloc: Global,
    x: &ExprFieldOf<E>,
    call: &F,
) -> Result<E>
    requires takes_base { Takes (F.pre call.now) alloc x.now.base.value }
    requires copies { Copies E.tree (F.post call.now) alloc }
    requires runs_out { RunsOut (F.post call.now) alloc }
    ensures copied { IfOk result (λ y. E.tree y ≡ expr_field_of E.tree x.now) }
    ensures memory { IfErr result (λ e. e.kind ≡ ErrorKind.OutOfMemory) }
{
    let attrs = copy_attrs(alloc, &x.attrs)?;
    let member = copy_member(alloc, &x.member)?;
    let base = copy_boxed(alloc, ByExpr {}, &x.base, call)?;
    Ok(E::field(ExprFieldOf {
        attrs,
        base,
        dot_token: x.dot_token,
        member,
    }))
}

/// A copy of an expression of the kind `ExprIndex`.
pub fn copy_expr_index<E: IsExpr + LetGo, F: Fn(&E, Global) -> Result<E>>(
    alloc: Global,
    x: &ExprIndexOf<E>,
    call: &F,
) -> Result<E>
    requires takes_expr { Takes (F.pre call.now) alloc x.now.expr.value }
    requires takes_index { Takes (F.pre call.now) alloc x.now.index.value }
    requires copies { Copies E.tree (F.post call.now) alloc }
    requires runs_out { RunsOut (F.post call.now) alloc }
    ensures copied { IfOk result (λ y. E.tree y ≡ expr_index_of E.tree x.now) }
    ensures memory { IfErr result (λ e. e.kind ≡ ErrorKind.OutOfMemory) }
{
    let attrs = copy_attrs(alloc, &x.attrs)?;
    let expr = Held {
        value: copy_boxed(alloc, ByExpr {}, &x.expr, call)?,
    };
    let index = copy_boxed(alloc, ByExpr {}, &x.index, call)?;
    Ok(E::index(ExprIndexOf {
        attrs,
        expr: expr.into_inner(),
        bracket_token: x.bracket_token,
        index,
    }))
}

/// A copy of an expression of the kind `ExprMethodCall`.
pub fn copy_expr_method_call<E: IsExpr + LetGo, F: Fn(&E, Global) -> Result<E>>(
    alloc: Global,
    x: &ExprMethodCallOf<E>,
    call: &F,
) -> Result<E>
    requires takes_receiver { Takes (F.pre call.now) alloc x.now.receiver.value }
    requires takes_args_inner { (q : _) → Contains x.now.args.inner.items q → Takes (F.pre call.now) alloc q.0 }
    requires takes_args_last { ForSome x.now.args.last (λ b. Takes (F.pre call.now) alloc b.value) }
    requires copies { Copies E.tree (F.post call.now) alloc }
    requires runs_out { RunsOut (F.post call.now) alloc }
    ensures copied { IfOk result (λ y. E.tree y ≡ expr_method_call_of E.tree x.now) }
    ensures memory { IfErr result (λ e. e.kind ≡ ErrorKind.OutOfMemory) }
{
    let attrs = copy_attrs(alloc, &x.attrs)?;
    let method = copy_ident(alloc, &x.method)?;
    let turbofish = copy_turbofish(alloc, &x.turbofish)?;
    let receiver = Held {
        value: copy_boxed(alloc, ByExpr {}, &x.receiver, call)?,
    };
    let args = copy_punctuated(alloc, ByExpr {}, &x.args, call)?;
    Ok(E::method_call(ExprMethodCallOf {
        attrs,
        receiver: receiver.into_inner(),
        dot_token: x.dot_token,
        method,
        turbofish,
        paren_token: x.paren_token,
        args,
    }))
}

/// A copy of an expression of the kind `ExprTry`.
pub fn copy_expr_try<E: IsExpr + LetGo, F: Fn(&E, Global) -> Result<E>>(
    alloc: Global,
    x: &ExprTryOf<E>,
    call: &F,
) -> Result<E>
    requires takes_expr { Takes (F.pre call.now) alloc x.now.expr.value }
    requires copies { Copies E.tree (F.post call.now) alloc }
    requires runs_out { RunsOut (F.post call.now) alloc }
    ensures copied { IfOk result (λ y. E.tree y ≡ expr_try_of E.tree x.now) }
    ensures memory { IfErr result (λ e. e.kind ≡ ErrorKind.OutOfMemory) }
{
    let attrs = copy_attrs(alloc, &x.attrs)?;
    let expr = copy_boxed(alloc, ByExpr {}, &x.expr, call)?;
    Ok(E::try_expr(ExprTryOf {
        attrs,
        expr,
        question_token: x.question_token,
    }))
}
