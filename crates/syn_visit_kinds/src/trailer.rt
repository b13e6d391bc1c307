//! What comes after an operand, with it: each operand is passed to a function.

ghost use Rattle.std.specs.Option.{ForSome};
ghost use Rattle.std.specs.Prelude.{Contains};
ghost use Rattle.syn_expr_ast.specs.View.{expr_await_of, expr_call_of, expr_field_of, expr_index_of, expr_method_call_of, expr_try_of};
ghost use Rattle.syn_visit_kinds.specs.Calls.{Takes};
ghost use Rattle.syn_visit_kinds.specs.Changes.{Change, ChangedIn};

use crate::operands::{boxed_mut, punctuated_mut};
use syn_expr_ast::alone::HasExprTree;
use syn_expr_ast::trailer::{
    ExprAwaitOf, ExprCallOf, ExprFieldOf, ExprIndexOf, ExprMethodCallOf, ExprTryOf,
};

/// `a.await`
pub fn await_expr_mut<E: HasExprTree, R: Drop, F: Fn(&mut E) -> Result<(), R>>(
    x: &mut ExprAwaitOf<E>,
    call: &F,
) -> Result<(), R>
    requires { Takes (F.pre call.now) x.old.base.value }
    ensures { ChangedIn (Change E.tree (F.post call.now)) (expr_await_of E.tree x.old) result (expr_await_of E.tree x.new) }
{
    boxed_mut(&mut x.base, call)
}

/// `f(a, b)`
pub fn call_expr_mut<E: HasExprTree, R: Drop, F: Fn(&mut E) -> Result<(), R>>(
    x: &mut ExprCallOf<E>,
    call: &F,
) -> Result<(), R>
    requires func { Takes (F.pre call.now) x.old.func.value }
    requires args { (q : _) → Contains x.old.args.inner.items q → Takes (F.pre call.now) q.0 }
    requires last { ForSome x.old.args.last (λ b. Takes (F.pre call.now) b.value) }
    ensures { ChangedIn (Change E.tree (F.post call.now)) (expr_call_of E.tree x.old) result (expr_call_of E.tree x.new) }
{
    boxed_mut(&mut x.func, call)?;
    punctuated_mut(&mut x.args, call)
}

/// `a.b`, `a.0`
pub fn field_mut<E: HasExprTree, R: Drop, F: Fn(&mut E) -> Result<(), R>>(
    x: &mut ExprFieldOf<E>,
    call: &F,
) -> Result<(), R>
    requires { Takes (F.pre call.now) x.old.base.value }
    ensures { ChangedIn (Change E.tree (F.post call.now)) (expr_field_of E.tree x.old) result (expr_field_of E.tree x.new) }
{
    boxed_mut(&mut x.base, call)
}

/// `a[i]`
pub fn index_mut<E: HasExprTree, R: Drop, F: Fn(&mut E) -> Result<(), R>>(
    x: &mut ExprIndexOf<E>,
    call: &F,
) -> Result<(), R>
    requires expr { Takes (F.pre call.now) x.old.expr.value }
    requires index { Takes (F.pre call.now) x.old.index.value }
    ensures { ChangedIn (Change E.tree (F.post call.now)) (expr_index_of E.tree x.old) result (expr_index_of E.tree x.new) }
{
    boxed_mut(&mut x.expr, call)?;
    boxed_mut(&mut x.index, call)
}

/// `a.f(b)`
pub fn method_call_mut<E: HasExprTree, R: Drop, F: Fn(&mut E) -> Result<(), R>>(
    x: &mut ExprMethodCallOf<E>,
    call: &F,
) -> Result<(), R>
    requires receiver { Takes (F.pre call.now) x.old.receiver.value }
    requires args { (q : _) → Contains x.old.args.inner.items q → Takes (F.pre call.now) q.0 }
    requires last { ForSome x.old.args.last (λ b. Takes (F.pre call.now) b.value) }
    ensures { ChangedIn (Change E.tree (F.post call.now)) (expr_method_call_of E.tree x.old) result (expr_method_call_of E.tree x.new) }
{
    boxed_mut(&mut x.receiver, call)?;
    punctuated_mut(&mut x.args, call)
}

/// `a?`
pub fn try_expr_mut<E: HasExprTree, R: Drop, F: Fn(&mut E) -> Result<(), R>>(
    x: &mut ExprTryOf<E>,
    call: &F,
) -> Result<(), R>
    requires { Takes (F.pre call.now) x.old.expr.value }
    ensures { ChangedIn (Change E.tree (F.post call.now)) (expr_try_of E.tree x.old) result (expr_try_of E.tree x.new) }
{
    boxed_mut(&mut x.expr, call)
}
