//! Jumps, with a value or without: the value is passed to a function.

ghost use Rattle.std.specs.Option.{ForSome};
ghost use Rattle.syn_expr_ast.specs.View.{expr_break_of, expr_return_of, expr_yield_of};
ghost use Rattle.syn_visit_kinds.specs.Calls.{Takes};
ghost use Rattle.syn_visit_kinds.specs.Changes.{Change, ChangedIn};

use crate::operands::optional_mut;
use syn_expr_ast::alone::HasExprTree;
use syn_expr_ast::jump::{ExprBreakOf, ExprReturnOf, ExprYieldOf};

/// `break`, `break 'a b`
pub fn break_expr_mut<E: HasExprTree, R: Drop, F: Fn(&mut E) -> Result<(), R>>(
    x: &mut ExprBreakOf<E>,
    call: &F,
) -> Result<(), R>
    requires { ForSome x.old.expr (λ b. Takes (F.pre call.now) b.value) }
    ensures { ChangedIn (Change E.tree (F.post call.now)) (expr_break_of E.tree x.old) result (expr_break_of E.tree x.new) }
{
    optional_mut(&mut x.expr, call)
}

/// `return`, `return a`
pub fn return_expr_mut<E: HasExprTree, R: Drop, F: Fn(&mut E) -> Result<(), R>>(
    x: &mut ExprReturnOf<E>,
    call: &F,
) -> Result<(), R>
    requires { ForSome x.old.expr (λ b. Takes (F.pre call.now) b.value) }
    ensures { ChangedIn (Change E.tree (F.post call.now)) (expr_return_of E.tree x.old) result (expr_return_of E.tree x.new) }
{
    optional_mut(&mut x.expr, call)
}

/// `yield`, `yield a`
pub fn yield_expr_mut<E: HasExprTree, R: Drop, F: Fn(&mut E) -> Result<(), R>>(
    x: &mut ExprYieldOf<E>,
    call: &F,
) -> Result<(), R>
    requires { ForSome x.old.expr (λ b. Takes (F.pre call.now) b.value) }
    ensures { ChangedIn (Change E.tree (F.post call.now)) (expr_yield_of E.tree x.old) result (expr_yield_of E.tree x.new) }
{
    optional_mut(&mut x.expr, call)
}
