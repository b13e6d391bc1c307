//! Copies of expressions that begin and end by themselves: literals, paths, calls of macros, and what is in delimiters.

ghost use Rattle.std.specs.Option.{ForSome};
ghost use Rattle.std.specs.Prelude.{◌≡◌, Contains, IfErr, IfOk};
ghost use Rattle.syn_expr_ast.specs.View.{expr_array_of, expr_group_of, expr_infer_of, expr_lit_of, expr_macro_of, expr_paren_of, expr_path_of, expr_repeat_of, expr_struct_of, expr_tuple_of};
ghost use Rattle.syn_expr_spec.specs.Tree.{leaf, verbatim};
ghost use Rattle.syn_lower_copy.specs.Copying.{Copies, Takes, RunsOut};

use crate::leaf::copy_attrs;
use crate::list::{copy_boxed, copy_punctuated, drop_some};
use crate::operand::{copy_fields, copy_some};
use crate::seen::ByExpr;
use std::alloc::Global;
use syn_expr_ast::alone::IsExpr;
use syn_expr_ast::atom::{
    ExprArrayOf, ExprGroupOf, ExprInfer, ExprLit, ExprMacro, ExprParenOf, ExprPath, ExprRepeatOf,
    ExprTupleOf,
};
use syn_expr_ast::structure::ExprStructOf;
use syn_expr_parse::known::{Held, LetGo};
use syn_lower_copy::types::{copy_types_mac, copy_types_path, copy_types_qself};
use syn_tokens::error::{ErrorKind, Result};
use syn_tokens::tree::{TokenStream, copy_trees};

/// A copy of an expression of the kind `ExprArray`.
pub fn copy_expr_array<E: IsExpr + LetGo, F: Fn(&E, Global) -> Result<E>>(
    alloc: Global,
    x: &ExprArrayOf<E>,
    call: &F,
) -> Result<E>
    requires takes_elems_inner { (q : _) → Contains x.now.elems.inner.items q → Takes (F.pre call.now) alloc q.0 }
    requires takes_elems_last { ForSome x.now.elems.last (λ b. Takes (F.pre call.now) alloc b.value) }
    requires copies { Copies E.tree (F.post call.now) alloc }
    requires runs_out { RunsOut (F.post call.now) alloc }
    ensures copied { IfOk result (λ y. E.tree y ≡ expr_array_of E.tree x.now) }
    ensures memory { IfErr result (λ e. e.kind ≡ ErrorKind.OutOfMemory) }
{
    let attrs = copy_attrs(alloc, &x.attrs)?;
    let elems = copy_punctuated(alloc, ByExpr {}, &x.elems, call)?;
    Ok(E::array(ExprArrayOf {
        attrs,
        bracket_token: x.bracket_token,
        elems,
    }))
}

/// A copy of an expression of the kind `ExprGroup`.
pub fn copy_expr_group<E: IsExpr + LetGo, F: Fn(&E, Global) -> Result<E>>(
    alloc: Global,
    x: &ExprGroupOf<E>,
    call: &F,
) -> Result<E>
    requires takes_expr { Takes (F.pre call.now) alloc x.now.expr.value }
    requires copies { Copies E.tree (F.post call.now) alloc }
    requires runs_out { RunsOut (F.post call.now) alloc }
    ensures copied { IfOk result (λ y. E.tree y ≡ expr_group_of E.tree x.now) }
    ensures memory { IfErr result (λ e. e.kind ≡ ErrorKind.OutOfMemory) }
{
    let attrs = copy_attrs(alloc, &x.attrs)?;
    let expr = copy_boxed(alloc, ByExpr {}, &x.expr, call)?;
    Ok(E::group(ExprGroupOf {
        attrs,
        group_token: x.group_token,
        expr,
    }))
}

/// A copy of an expression of the kind `ExprInfer`.
pub fn copy_expr_infer<E: IsExpr>(alloc: Global, x: &ExprInfer) -> Result<E>
    ensures copied { IfOk result (λ y. E.tree y ≡ expr_infer_of x.now) }
    ensures memory { IfErr result (λ e. e.kind ≡ ErrorKind.OutOfMemory) }
{
    let attrs = copy_attrs(alloc, &x.attrs)?;
    Ok(E::infer(ExprInfer {
        attrs,
        underscore_token: x.underscore_token,
    }))
}

/// A copy of an expression of the kind `ExprLit`.
pub fn copy_expr_lit<E: IsExpr>(alloc: Global, x: &ExprLit) -> Result<E>
    ensures copied { IfOk result (λ y. E.tree y ≡ expr_lit_of x.now) }
    ensures memory { IfErr result (λ e. e.kind ≡ ErrorKind.OutOfMemory) }
{
    let attrs = copy_attrs(alloc, &x.attrs)?;
    let lit = x.lit.copy(alloc)?;
    Ok(E::lit(ExprLit { attrs, lit }))
}

/// A copy of an expression of the kind `ExprMacro`.
pub fn copy_expr_macro<E: IsExpr>(alloc: Global, x: &ExprMacro) -> Result<E>
    ensures copied { IfOk result (λ y. E.tree y ≡ expr_macro_of x.now) }
    ensures memory { IfErr result (λ e. e.kind ≡ ErrorKind.OutOfMemory) }
{
    let attrs = copy_attrs(alloc, &x.attrs)?;
    let mac = copy_types_mac(alloc, &x.mac)?;
    Ok(E::mac(ExprMacro { attrs, mac }))
}

/// A copy of an expression of the kind `ExprParen`.
pub fn copy_expr_paren<E: IsExpr + LetGo, F: Fn(&E, Global) -> Result<E>>(
    alloc: Global,
    x: &ExprParenOf<E>,
    call: &F,
) -> Result<E>
    requires takes_expr { Takes (F.pre call.now) alloc x.now.expr.value }
    requires copies { Copies E.tree (F.post call.now) alloc }
    requires runs_out { RunsOut (F.post call.now) alloc }
    ensures copied { IfOk result (λ y. E.tree y ≡ expr_paren_of E.tree x.now) }
    ensures memory { IfErr result (λ e. e.kind ≡ ErrorKind.OutOfMemory) }
{
    let attrs = copy_attrs(alloc, &x.attrs)?;
    let expr = copy_boxed(alloc, ByExpr {}, &x.expr, call)?;
    Ok(E::paren(ExprParenOf {
        attrs,
        paren_token: x.paren_token,
        expr,
    }))
}

/// A copy of an expression of the kind `ExprPath`.
pub fn copy_expr_path<E: IsExpr>(alloc: Global, x: &ExprPath) -> Result<E>
    ensures copied { IfOk result (λ y. E.tree y ≡ expr_path_of x.now) }
    ensures memory { IfErr result (λ e. e.kind ≡ ErrorKind.OutOfMemory) }
{
    let attrs = copy_attrs(alloc, &x.attrs)?;
    let qself = copy_types_qself(alloc, &x.qself)?;
    let path = copy_types_path(alloc, &x.path)?;
    Ok(E::path(ExprPath { attrs, qself, path }))
}

/// A copy of an expression of the kind `ExprRepeat`.
pub fn copy_expr_repeat<E: IsExpr + LetGo, F: Fn(&E, Global) -> Result<E>>(
    alloc: Global,
    x: &ExprRepeatOf<E>,
    call: &F,
) -> Result<E>
    requires takes_expr { Takes (F.pre call.now) alloc x.now.expr.value }
    requires takes_len { Takes (F.pre call.now) alloc x.now.len.value }
    requires copies { Copies E.tree (F.post call.now) alloc }
    requires runs_out { RunsOut (F.post call.now) alloc }
    ensures copied { IfOk result (λ y. E.tree y ≡ expr_repeat_of E.tree x.now) }
    ensures memory { IfErr result (λ e. e.kind ≡ ErrorKind.OutOfMemory) }
{
    let attrs = copy_attrs(alloc, &x.attrs)?;
    let expr = Held {
        value: copy_boxed(alloc, ByExpr {}, &x.expr, call)?,
    };
    let len = copy_boxed(alloc, ByExpr {}, &x.len, call)?;
    Ok(E::repeat(ExprRepeatOf {
        attrs,
        bracket_token: x.bracket_token,
        expr: expr.into_inner(),
        semi_token: x.semi_token,
        len,
    }))
}

/// A copy of an expression of the kind `ExprTuple`.
pub fn copy_expr_tuple<E: IsExpr + LetGo, F: Fn(&E, Global) -> Result<E>>(
    alloc: Global,
    x: &ExprTupleOf<E>,
    call: &F,
) -> Result<E>
    requires takes_elems_inner { (q : _) → Contains x.now.elems.inner.items q → Takes (F.pre call.now) alloc q.0 }
    requires takes_elems_last { ForSome x.now.elems.last (λ b. Takes (F.pre call.now) alloc b.value) }
    requires copies { Copies E.tree (F.post call.now) alloc }
    requires runs_out { RunsOut (F.post call.now) alloc }
    ensures copied { IfOk result (λ y. E.tree y ≡ expr_tuple_of E.tree x.now) }
    ensures memory { IfErr result (λ e. e.kind ≡ ErrorKind.OutOfMemory) }
{
    let attrs = copy_attrs(alloc, &x.attrs)?;
    let elems = copy_punctuated(alloc, ByExpr {}, &x.elems, call)?;
    Ok(E::tuple(ExprTupleOf {
        attrs,
        paren_token: x.paren_token,
        elems,
    }))
}

/// A copy of tokens that are kept as they are.
pub fn copy_verbatim<E: IsExpr>(alloc: Global, x: &TokenStream) -> Result<E>
    ensures copied { IfOk result (λ y. E.tree y ≡ leaf (verbatim x.now)) }
    ensures memory { IfErr result (λ e. e.kind ≡ ErrorKind.OutOfMemory) }
{
    let tokens = copy_trees(alloc, x.trees())?;
    Ok(E::verbatim(tokens))
}

/// A copy of an expression of the kind `ExprStruct`.
pub fn copy_expr_struct<E: IsExpr + LetGo, F: Fn(&E, Global) -> Result<E>>(
    alloc: Global,
    x: &ExprStructOf<E>,
    call: &F,
) -> Result<E>
    requires takes_fields_inner { (q : _) → Contains x.now.fields.inner.items q → Takes (F.pre call.now) alloc q.0.expr }
    requires takes_fields_last { ForSome x.now.fields.last (λ b. Takes (F.pre call.now) alloc b.value.expr) }
    requires takes_rest { ForSome x.now.rest (λ b. Takes (F.pre call.now) alloc b.value) }
    requires copies { Copies E.tree (F.post call.now) alloc }
    requires runs_out { RunsOut (F.post call.now) alloc }
    ensures copied { IfOk result (λ y. E.tree y ≡ expr_struct_of E.tree x.now) }
    ensures memory { IfErr result (λ e. e.kind ≡ ErrorKind.OutOfMemory) }
{
    let attrs = copy_attrs(alloc, &x.attrs)?;
    let qself = copy_types_qself(alloc, &x.qself)?;
    let path = copy_types_path(alloc, &x.path)?;
    let rest = copy_some(alloc, ByExpr {}, &x.rest, call)?;
    match copy_fields(alloc, &x.fields, call) {
        Ok(fields) => Ok(E::struct_expr(ExprStructOf {
            attrs,
            qself,
            path,
            brace_token: x.brace_token,
            fields,
            dot2_token: x.dot2_token,
            rest,
        })),
        Err(e) => {
            drop_some(ByExpr {}, rest);
            Err(e)
        }
    }
}
