//! Operators and their operands, each passed to a function.

ghost use Rattle.std.specs.Option.{ForSome};
ghost use Rattle.syn_expr_ast.specs.View.{expr_assign_of, expr_binary_of, expr_cast_of, expr_range_of, expr_raw_addr_of, expr_reference_of, expr_unary_of};
ghost use Rattle.syn_visit_kinds.specs.Calls.{Takes};
ghost use Rattle.syn_visit_kinds.specs.Changes.{Change, ChangedIn};

use crate::operands::{boxed_mut, optional_mut};
use syn_expr_ast::alone::HasExprTree;
use syn_expr_ast::operation::{
    ExprAssignOf, ExprBinaryOf, ExprCastOf, ExprRangeOf, ExprRawAddrOf, ExprReferenceOf,
    ExprUnaryOf,
};

/// `a = b`
pub fn assign_mut<E: HasExprTree, R: Drop, F: Fn(&mut E) -> Result<(), R>>(
    x: &mut ExprAssignOf<E>,
    call: &F,
) -> Result<(), R>
    requires left { Takes (F.pre call.now) x.old.left.value }
    requires right { Takes (F.pre call.now) x.old.right.value }
    ensures { ChangedIn (Change E.tree (F.post call.now)) (expr_assign_of E.tree x.old) result (expr_assign_of E.tree x.new) }
{
    boxed_mut(&mut x.left, call)?;
    boxed_mut(&mut x.right, call)
}

/// `a + b`, `a += b`
pub fn binary_mut<E: HasExprTree, R: Drop, F: Fn(&mut E) -> Result<(), R>>(
    x: &mut ExprBinaryOf<E>,
    call: &F,
) -> Result<(), R>
    requires left { Takes (F.pre call.now) x.old.left.value }
    requires right { Takes (F.pre call.now) x.old.right.value }
    ensures { ChangedIn (Change E.tree (F.post call.now)) (expr_binary_of E.tree x.old) result (expr_binary_of E.tree x.new) }
{
    boxed_mut(&mut x.left, call)?;
    boxed_mut(&mut x.right, call)
}

/// `a as T`
pub fn cast_mut<E: HasExprTree, R: Drop, F: Fn(&mut E) -> Result<(), R>>(
    x: &mut ExprCastOf<E>,
    call: &F,
) -> Result<(), R>
    requires { Takes (F.pre call.now) x.old.expr.value }
    ensures { ChangedIn (Change E.tree (F.post call.now)) (expr_cast_of E.tree x.old) result (expr_cast_of E.tree x.new) }
{
    boxed_mut(&mut x.expr, call)
}

/// `a..b`, `a..`, `..=b`, `..`
pub fn range_mut<E: HasExprTree, R: Drop, F: Fn(&mut E) -> Result<(), R>>(
    x: &mut ExprRangeOf<E>,
    call: &F,
) -> Result<(), R>
    requires starts { ForSome x.old.start (λ b. Takes (F.pre call.now) b.value) }
    requires ends { ForSome x.old.end (λ b. Takes (F.pre call.now) b.value) }
    ensures { ChangedIn (Change E.tree (F.post call.now)) (expr_range_of E.tree x.old) result (expr_range_of E.tree x.new) }
{
    optional_mut(&mut x.start, call)?;
    optional_mut(&mut x.end, call)
}

/// `&raw const a`
pub fn raw_addr_mut<E: HasExprTree, R: Drop, F: Fn(&mut E) -> Result<(), R>>(
    x: &mut ExprRawAddrOf<E>,
    call: &F,
) -> Result<(), R>
    requires { Takes (F.pre call.now) x.old.expr.value }
    ensures { ChangedIn (Change E.tree (F.post call.now)) (expr_raw_addr_of E.tree x.old) result (expr_raw_addr_of E.tree x.new) }
{
    boxed_mut(&mut x.expr, call)
}

/// `&a`, `&mut a`
pub fn reference_mut<E: HasExprTree, R: Drop, F: Fn(&mut E) -> Result<(), R>>(
    x: &mut ExprReferenceOf<E>,
    call: &F,
) -> Result<(), R>
    requires { Takes (F.pre call.now) x.old.expr.value }
    ensures { ChangedIn (Change E.tree (F.post call.now)) (expr_reference_of E.tree x.old) result (expr_reference_of E.tree x.new) }
{
    boxed_mut(&mut x.expr, call)
}

/// `*a`, `!a`, `-a`
pub fn unary_mut<E: HasExprTree, R: Drop, F: Fn(&mut E) -> Result<(), R>>(
    x: &mut ExprUnaryOf<E>,
    call: &F,
) -> Result<(), R>
    requires { Takes (F.pre call.now) x.old.expr.value }
    ensures { ChangedIn (Change E.tree (F.post call.now)) (expr_unary_of E.tree x.old) result (expr_unary_of E.tree x.new) }
{
    boxed_mut(&mut x.expr, call)
}
