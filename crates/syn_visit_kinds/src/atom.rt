//! Kinds that are closed at both ends and hold expressions: each operand is passed to a function.

ghost use Rattle.std.specs.Option.{ForSome};
ghost use Rattle.std.specs.Prelude.{Contains};
ghost use Rattle.syn_expr_ast.specs.View.{expr_array_of, expr_group_of, expr_paren_of, expr_repeat_of, expr_tuple_of};
ghost use Rattle.syn_visit_kinds.specs.Calls.{Takes};
ghost use Rattle.syn_visit_kinds.specs.Changes.{Change, ChangedIn};

use crate::operands::{boxed_mut, punctuated_mut};
use syn_expr_ast::alone::HasExprTree;
use syn_expr_ast::atom::{ExprArrayOf, ExprGroupOf, ExprParenOf, ExprRepeatOf, ExprTupleOf};

/// `[a, b]`
pub fn array_mut<E: HasExprTree, R: Drop, F: Fn(&mut E) -> Result<(), R>>(
    x: &mut ExprArrayOf<E>,
    call: &F,
) -> Result<(), R>
    requires elems { (q : _) → Contains x.old.elems.inner.items q → Takes (F.pre call.now) q.0 }
    requires last { ForSome x.old.elems.last (λ b. Takes (F.pre call.now) b.value) }
    ensures { ChangedIn (Change E.tree (F.post call.now)) (expr_array_of E.tree x.old) result (expr_array_of E.tree x.new) }
{
    punctuated_mut(&mut x.elems, call)
}

/// An invisible group
pub fn group_mut<E: HasExprTree, R: Drop, F: Fn(&mut E) -> Result<(), R>>(
    x: &mut ExprGroupOf<E>,
    call: &F,
) -> Result<(), R>
    requires { Takes (F.pre call.now) x.old.expr.value }
    ensures { ChangedIn (Change E.tree (F.post call.now)) (expr_group_of E.tree x.old) result (expr_group_of E.tree x.new) }
{
    boxed_mut(&mut x.expr, call)
}

/// `(a)`
pub fn paren_mut<E: HasExprTree, R: Drop, F: Fn(&mut E) -> Result<(), R>>(
    x: &mut ExprParenOf<E>,
    call: &F,
) -> Result<(), R>
    requires { Takes (F.pre call.now) x.old.expr.value }
    ensures { ChangedIn (Change E.tree (F.post call.now)) (expr_paren_of E.tree x.old) result (expr_paren_of E.tree x.new) }
{
    boxed_mut(&mut x.expr, call)
}

/// `[a; n]`
pub fn repeat_mut<E: HasExprTree, R: Drop, F: Fn(&mut E) -> Result<(), R>>(
    x: &mut ExprRepeatOf<E>,
    call: &F,
) -> Result<(), R>
    requires expr { Takes (F.pre call.now) x.old.expr.value }
    requires len { Takes (F.pre call.now) x.old.len.value }
    ensures { ChangedIn (Change E.tree (F.post call.now)) (expr_repeat_of E.tree x.old) result (expr_repeat_of E.tree x.new) }
{
    boxed_mut(&mut x.expr, call)?;
    boxed_mut(&mut x.len, call)
}

/// `(a, b)`
pub fn tuple_mut<E: HasExprTree, R: Drop, F: Fn(&mut E) -> Result<(), R>>(
    x: &mut ExprTupleOf<E>,
    call: &F,
) -> Result<(), R>
    requires elems { (q : _) → Contains x.old.elems.inner.items q → Takes (F.pre call.now) q.0 }
    requires last { ForSome x.old.elems.last (λ b. Takes (F.pre call.now) b.value) }
    ensures { ChangedIn (Change E.tree (F.post call.now)) (expr_tuple_of E.tree x.old) result (expr_tuple_of E.tree x.new) }
{
    punctuated_mut(&mut x.elems, call)
}
