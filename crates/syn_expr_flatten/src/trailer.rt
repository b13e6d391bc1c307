//! What comes after an operand, with it.

ghost use Rattle.std.specs.Prelude.{Contains, IfOk};
ghost use Rattle.std.specs.Option.{ForSome};
ghost use Rattle.syn_expr_ast.specs.View.{expr_await_of, expr_call_of, expr_field_of, expr_index_of, expr_method_call_of, expr_try_of};
ghost use Rattle.syn_visit_kinds.specs.Calls.{Takes};
ghost use Rattle.syn_expr_flatten.specs.Flat.{Flattens, IsFlatBehind};

use crate::attrs::{Before, Flattened, put_before};
use syn_expr_ast::alone::HasExprTree;
use syn_expr_ast::trailer::{
    ExprAwaitOf, ExprCallOf, ExprFieldOf, ExprIndexOf, ExprMethodCallOf, ExprTryOf,
};
use syn_visit_kinds::operands::{boxed_mut, punctuated_mut};

/// An `.await` without the parentheses in it, after more attributes.
pub fn await_expr<E: HasExprTree, F: Fn(&mut E) -> Flattened<()>>(
    x: &mut ExprAwaitOf<E>,
    attrs: Before,
    flatten: F,
) -> Flattened<()>
    requires base { Takes (F.pre flatten) x.old.base.value }
    requires gives { Flattens E.tree (F.post flatten) }
    ensures { IfOk result (λ _. IsFlatBehind attrs (expr_await_of E.tree x.old) (expr_await_of E.tree x.new)) }
{
    put_before(attrs, &mut x.attrs)?;
    boxed_mut(&mut x.base, &flatten)?;
    Ok(())
}

/// A call without the parentheses in it, after more attributes.
pub fn call<E: HasExprTree, F: Fn(&mut E) -> Flattened<()>>(
    x: &mut ExprCallOf<E>,
    attrs: Before,
    flatten: F,
) -> Flattened<()>
    requires func { Takes (F.pre flatten) x.old.func.value }
    requires args { (q : _) → Contains x.old.args.inner.items q → Takes (F.pre flatten) q.0 }
    requires last { ForSome x.old.args.last (λ b. Takes (F.pre flatten) b.value) }
    requires gives { Flattens E.tree (F.post flatten) }
    ensures { IfOk result (λ _. IsFlatBehind attrs (expr_call_of E.tree x.old) (expr_call_of E.tree x.new)) }
{
    put_before(attrs, &mut x.attrs)?;
    boxed_mut(&mut x.func, &flatten)?;
    punctuated_mut(&mut x.args, &flatten)?;
    Ok(())
}

/// An access to a field without the parentheses in it, after more attributes.
pub fn field<E: HasExprTree, F: Fn(&mut E) -> Flattened<()>>(
    x: &mut ExprFieldOf<E>,
    attrs: Before,
    flatten: F,
) -> Flattened<()>
    requires base { Takes (F.pre flatten) x.old.base.value }
    requires gives { Flattens E.tree (F.post flatten) }
    ensures { IfOk result (λ _. IsFlatBehind attrs (expr_field_of E.tree x.old) (expr_field_of E.tree x.new)) }
{
    put_before(attrs, &mut x.attrs)?;
    boxed_mut(&mut x.base, &flatten)?;
    Ok(())
}

/// An index expression without the parentheses in it, after more attributes.
pub fn index<E: HasExprTree, F: Fn(&mut E) -> Flattened<()>>(
    x: &mut ExprIndexOf<E>,
    attrs: Before,
    flatten: F,
) -> Flattened<()>
    requires expr { Takes (F.pre flatten) x.old.expr.value }
    requires index { Takes (F.pre flatten) x.old.index.value }
    requires gives { Flattens E.tree (F.post flatten) }
    ensures { IfOk result (λ _. IsFlatBehind attrs (expr_index_of E.tree x.old) (expr_index_of E.tree x.new)) }
{
    put_before(attrs, &mut x.attrs)?;
    boxed_mut(&mut x.expr, &flatten)?;
    boxed_mut(&mut x.index, &flatten)?;
    Ok(())
}

/// A method call without the parentheses in it, after more attributes.
pub fn method_call<E: HasExprTree, F: Fn(&mut E) -> Flattened<()>>(
    x: &mut ExprMethodCallOf<E>,
    attrs: Before,
    flatten: F,
) -> Flattened<()>
    requires receiver { Takes (F.pre flatten) x.old.receiver.value }
    requires args { (q : _) → Contains x.old.args.inner.items q → Takes (F.pre flatten) q.0 }
    requires last { ForSome x.old.args.last (λ b. Takes (F.pre flatten) b.value) }
    requires gives { Flattens E.tree (F.post flatten) }
    ensures { IfOk result (λ _. IsFlatBehind attrs (expr_method_call_of E.tree x.old) (expr_method_call_of E.tree x.new)) }
{
    put_before(attrs, &mut x.attrs)?;
    boxed_mut(&mut x.receiver, &flatten)?;
    punctuated_mut(&mut x.args, &flatten)?;
    Ok(())
}

/// `a?` without the parentheses in it, after more attributes.
pub fn try_expr<E: HasExprTree, F: Fn(&mut E) -> Flattened<()>>(
    x: &mut ExprTryOf<E>,
    attrs: Before,
    flatten: F,
) -> Flattened<()>
    requires expr { Takes (F.pre flatten) x.old.expr.value }
    requires gives { Flattens E.tree (F.post flatten) }
    ensures { IfOk result (λ _. IsFlatBehind attrs (expr_try_of E.tree x.old) (expr_try_of E.tree x.new)) }
{
    put_before(attrs, &mut x.attrs)?;
    boxed_mut(&mut x.expr, &flatten)?;
    Ok(())
}
