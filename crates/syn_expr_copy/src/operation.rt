//! Copies of operations.

ghost use Rattle.std.specs.Option.{ForSome};
ghost use Rattle.std.specs.Prelude.{◌≡◌, IfErr, IfOk};
ghost use Rattle.syn_expr_ast.specs.View.{expr_assign_of, expr_binary_of, expr_cast_of, expr_range_of, expr_raw_addr_of, expr_reference_of, expr_unary_of};
ghost use Rattle.syn_lower_copy.specs.Copying.{Copies, Takes, RunsOut};

use crate::leaf::copy_attrs;
use crate::list::{copy_boxed, drop_some};
use crate::operand::copy_some;
use crate::seen::ByExpr;
use std::alloc::Global;
use syn_expr_ast::alone::IsExpr;
use syn_expr_ast::operation::{
    ExprAssignOf, ExprBinaryOf, ExprCastOf, ExprRangeOf, ExprRawAddrOf, ExprReferenceOf,
    ExprUnaryOf,
};
use syn_expr_parse::known::{Held, LetGo};
use syn_lower_copy::types::copy_boxed_type;
use syn_tokens::error::{ErrorKind, Result};

/// A copy of an expression of the kind `ExprAssign`.
pub fn copy_expr_assign<E: IsExpr + LetGo, F: Fn(&E, Global) -> Result<E>>(
    alloc: Global,
    x: &ExprAssignOf<E>,
    call: &F,
) -> Result<E>
    requires takes_left { Takes (F.pre call.now) alloc x.now.left.value }
    requires takes_right { Takes (F.pre call.now) alloc x.now.right.value }
    requires copies { Copies E.tree (F.post call.now) alloc }
    requires runs_out { RunsOut (F.post call.now) alloc }
    ensures copied { IfOk result (λ y. E.tree y ≡ expr_assign_of E.tree x.now) }
    ensures memory { IfErr result (λ e. e.kind ≡ ErrorKind.OutOfMemory) }
{
    let attrs = copy_attrs(alloc, &x.attrs)?;
    let left = Held {
        value: copy_boxed(alloc, ByExpr {}, &x.left, call)?,
    };
    let right = copy_boxed(alloc, ByExpr {}, &x.right, call)?;
    Ok(E::assign(ExprAssignOf {
        attrs,
        left: left.into_inner(),
        eq_token: x.eq_token,
        right,
    }))
}

/// A copy of an expression of the kind `ExprBinary`.
pub fn copy_expr_binary<E: IsExpr + LetGo, F: Fn(&E, Global) -> Result<E>>(
    alloc: Global,
    x: &ExprBinaryOf<E>,
    call: &F,
) -> Result<E>
    requires takes_left { Takes (F.pre call.now) alloc x.now.left.value }
    requires takes_right { Takes (F.pre call.now) alloc x.now.right.value }
    requires copies { Copies E.tree (F.post call.now) alloc }
    requires runs_out { RunsOut (F.post call.now) alloc }
    ensures copied { IfOk result (λ y. E.tree y ≡ expr_binary_of E.tree x.now) }
    ensures memory { IfErr result (λ e. e.kind ≡ ErrorKind.OutOfMemory) }
{
    let attrs = copy_attrs(alloc, &x.attrs)?;
    let left = Held {
        value: copy_boxed(alloc, ByExpr {}, &x.left, call)?,
    };
    let right = copy_boxed(alloc, ByExpr {}, &x.right, call)?;
    Ok(E::binary(ExprBinaryOf {
        attrs,
        left: left.into_inner(),
        op: x.op,
        right,
    }))
}

/// A copy of an expression of the kind `ExprCast`.
pub fn copy_expr_cast<E: IsExpr + LetGo, F: Fn(&E, Global) -> Result<E>>(
    alloc: Global,
    x: &ExprCastOf<E>,
    call: &F,
) -> Result<E>
    requires takes_expr { Takes (F.pre call.now) alloc x.now.expr.value }
    requires copies { Copies E.tree (F.post call.now) alloc }
    requires runs_out { RunsOut (F.post call.now) alloc }
    ensures copied { IfOk result (λ y. E.tree y ≡ expr_cast_of E.tree x.now) }
    ensures memory { IfErr result (λ e. e.kind ≡ ErrorKind.OutOfMemory) }
{
    let attrs = copy_attrs(alloc, &x.attrs)?;
    let ty = copy_boxed_type(alloc, &x.ty)?;
    let expr = copy_boxed(alloc, ByExpr {}, &x.expr, call)?;
    Ok(E::cast(ExprCastOf {
        attrs,
        expr,
        as_token: x.as_token,
        ty,
    }))
}

/// A copy of an expression of the kind `ExprRange`.
pub fn copy_expr_range<E: IsExpr + LetGo, F: Fn(&E, Global) -> Result<E>>(
    alloc: Global,
    x: &ExprRangeOf<E>,
    call: &F,
) -> Result<E>
    requires takes_start { ForSome x.now.start (λ b. Takes (F.pre call.now) alloc b.value) }
    requires takes_end { ForSome x.now.end (λ b. Takes (F.pre call.now) alloc b.value) }
    requires copies { Copies E.tree (F.post call.now) alloc }
    requires runs_out { RunsOut (F.post call.now) alloc }
    ensures copied { IfOk result (λ y. E.tree y ≡ expr_range_of E.tree x.now) }
    ensures memory { IfErr result (λ e. e.kind ≡ ErrorKind.OutOfMemory) }
{
    let attrs = copy_attrs(alloc, &x.attrs)?;
    let start = copy_some(alloc, ByExpr {}, &x.start, call)?;
    match copy_some(alloc, ByExpr {}, &x.end, call) {
        Ok(end) => Ok(E::range(ExprRangeOf {
            attrs,
            start,
            limits: x.limits,
            end,
        })),
        Err(e) => {
            drop_some(ByExpr {}, start);
            Err(e)
        }
    }
}

/// A copy of an expression of the kind `ExprRawAddr`.
pub fn copy_expr_raw_addr<E: IsExpr + LetGo, F: Fn(&E, Global) -> Result<E>>(
    alloc: Global,
    x: &ExprRawAddrOf<E>,
    call: &F,
) -> Result<E>
    requires takes_expr { Takes (F.pre call.now) alloc x.now.expr.value }
    requires copies { Copies E.tree (F.post call.now) alloc }
    requires runs_out { RunsOut (F.post call.now) alloc }
    ensures copied { IfOk result (λ y. E.tree y ≡ expr_raw_addr_of E.tree x.now) }
    ensures memory { IfErr result (λ e. e.kind ≡ ErrorKind.OutOfMemory) }
{
    let attrs = copy_attrs(alloc, &x.attrs)?;
    let expr = copy_boxed(alloc, ByExpr {}, &x.expr, call)?;
    Ok(E::raw_addr(ExprRawAddrOf {
        attrs,
        and_token: x.and_token,
        raw: x.raw,
        mutability: x.mutability,
        expr,
    }))
}

/// A copy of an expression of the kind `ExprReference`.
pub fn copy_expr_reference<E: IsExpr + LetGo, F: Fn(&E, Global) -> Result<E>>(
    alloc: Global,
    x: &ExprReferenceOf<E>,
    call: &F,
) -> Result<E>
    requires takes_expr { Takes (F.pre call.now) alloc x.now.expr.value }
    requires copies { Copies E.tree (F.post call.now) alloc }
    requires runs_out { RunsOut (F.post call.now) alloc }
    ensures copied { IfOk result (λ y. E.tree y ≡ expr_reference_of E.tree x.now) }
    ensures memory { IfErr result (λ e. e.kind ≡ ErrorKind.OutOfMemory) }
{
    let attrs = copy_attrs(alloc, &x.attrs)?;
    let expr = copy_boxed(alloc, ByExpr {}, &x.expr, call)?;
    Ok(E::reference(ExprReferenceOf {
        attrs,
        and_token: x.and_token,
        mutability: x.mutability,
        expr,
    }))
}

/// A copy of an expression of the kind `ExprUnary`.
pub fn copy_expr_unary<E: IsExpr + LetGo, F: Fn(&E, Global) -> Result<E>>(
    alloc: Global,
    x: &ExprUnaryOf<E>,
    call: &F,
) -> Result<E>
    requires takes_expr { Takes (F.pre call.now) alloc x.now.expr.value }
    requires copies { Copies E.tree (F.post call.now) alloc }
    requires runs_out { RunsOut (F.post call.now) alloc }
    ensures copied { IfOk result (λ y. E.tree y ≡ expr_unary_of E.tree x.now) }
    ensures memory { IfErr result (λ e. e.kind ≡ ErrorKind.OutOfMemory) }
{
    let attrs = copy_attrs(alloc, &x.attrs)?;
    let expr = copy_boxed(alloc, ByExpr {}, &x.expr, call)?;
    Ok(E::unary(ExprUnaryOf {
        attrs,
        op: x.op,
        expr,
    }))
}
