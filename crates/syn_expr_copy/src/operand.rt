//! Copies of operands that may be there, and of the fields of struct expressions.

ghost use Rattle.std.specs.Option.{ForSome};
ghost use Rattle.std.specs.Prelude.{◌≡◌, Contains, IfErr, IfOk, map};
ghost use Rattle.syn_expr_ast.specs.View.{boxed, else_of, field_value_of, trails, values};
ghost use Rattle.syn_lower_copy.specs.Copying.{Copies, Takes, RunsOut};

use crate::leaf::{copy_attrs, copy_member};
use crate::list::{copy_boxed, copy_punctuated};
use crate::seen::{ByExpr, ByField, Drops};
use std::alloc::Global;
use syn_expr_ast::alone::HasExprTree;
use syn_expr_ast::structure::FieldValueOf;
use syn_expr_parse::known::LetGo;
use syn_lower::punctuated::Punctuated;
use syn_lower_copy::seen::Sees;
use syn_tokens::error::{ErrorKind, Result};
use syn_tokens::token::{Comma, Else};

/// A copy of an operand that may be there.
pub fn copy_some<V: Sees<A> + Drops<A> + Copy, A, F: Fn(&A, Global) -> Result<A>>(
    alloc: Global,
    by: V,
    x: &Option<Box<A>>,
    call: &F,
) -> Result<Option<Box<A>>>
    requires takes { ForSome x.now (λ b. Takes (F.pre call.now) alloc b.value) }
    requires copies { Copies V.seen (F.post call.now) alloc }
    requires runs_out { RunsOut (F.post call.now) alloc }
    ensures copied { IfOk result (λ y. boxed V.seen y ≡ boxed V.seen x.now) }
    ensures memory { IfErr result (λ e. e.kind ≡ ErrorKind.OutOfMemory) }
{
    match x {
        Some(x) => Ok(Some(copy_boxed(alloc, by, x, call)?)),
        None => Ok(None),
    }
}

/// A copy of what follows `else`, if it is there.
pub fn copy_else<E: HasExprTree + LetGo, F: Fn(&E, Global) -> Result<E>>(
    alloc: Global,
    x: &Option<(Else, Box<E>)>,
    call: &F,
) -> Result<Option<(Else, Box<E>)>>
    requires takes { ForSome x.now (λ q. Takes (F.pre call.now) alloc q.1.value) }
    requires copies { Copies E.tree (F.post call.now) alloc }
    requires runs_out { RunsOut (F.post call.now) alloc }
    ensures copied { IfOk result (λ y. else_of E.tree y ≡ else_of E.tree x.now) }
    ensures memory { IfErr result (λ e. e.kind ≡ ErrorKind.OutOfMemory) }
{
    match x {
        Some((token, expr)) => {
            let expr = copy_boxed(alloc, ByExpr {}, expr, call)?;
            Ok(Some((*token, expr)))
        }
        None => Ok(None),
    }
}

/// A copy of a field of a struct expression.
fn copy_field_value<E: HasExprTree + LetGo, F: Fn(&E, Global) -> Result<E>>(
    alloc: Global,
    x: &FieldValueOf<E>,
    call: &F,
) -> Result<FieldValueOf<E>>
    requires takes { Takes (F.pre call.now) alloc x.now.expr }
    requires copies { Copies E.tree (F.post call.now) alloc }
    requires runs_out { RunsOut (F.post call.now) alloc }
    ensures copied { IfOk result (λ y. field_value_of E.tree y ≡ field_value_of E.tree x.now) }
    ensures memory { IfErr result (λ e. e.kind ≡ ErrorKind.OutOfMemory) }
{
    let attrs = copy_attrs(alloc, &x.attrs)?;
    let member = copy_member(alloc, &x.member)?;
    let expr = call(&x.expr, alloc)?;
    Ok(FieldValueOf {
        attrs,
        member,
        colon_token: x.colon_token,
        expr,
    })
}

/// A copy of the fields of a struct expression.
pub fn copy_fields<E: HasExprTree + LetGo, F: Fn(&E, Global) -> Result<E>>(
    alloc: Global,
    x: &Punctuated<FieldValueOf<E>, Comma>,
    call: &F,
) -> Result<Punctuated<FieldValueOf<E>, Comma>>
    requires inner { (q : _) → Contains x.now.inner.items q → Takes (F.pre call.now) alloc q.0.expr }
    requires last { ForSome x.now.last (λ b. Takes (F.pre call.now) alloc b.value.expr) }
    requires copies { Copies E.tree (F.post call.now) alloc }
    requires runs_out { RunsOut (F.post call.now) alloc }
    ensures values { IfOk result (λ y. map (field_value_of E.tree) (values y) ≡ map (field_value_of E.tree) (values x.now)) }
    ensures trails { IfOk result (λ y. trails y ≡ trails x.now) }
    ensures memory { IfErr result (λ e. e.kind ≡ ErrorKind.OutOfMemory) }
{
    let copy = |x: &FieldValueOf<E>, alloc: Global| copy_field_value(alloc, x, call);
    copy_punctuated(alloc, ByField {}, x, &copy)
}
