//! Jumps, with a value or without.

ghost use Rattle.std.specs.Prelude.{IfOk};
ghost use Rattle.std.specs.Option.{ForSome};
ghost use Rattle.syn_expr_ast.specs.View.{expr_break_of, expr_return_of, expr_yield_of};
ghost use Rattle.syn_visit_kinds.specs.Calls.{Takes};
ghost use Rattle.syn_expr_flatten.specs.Flat.{Flattens, IsFlatBehind};

use crate::attrs::{Before, Flattened, put_before};
use syn_expr_ast::alone::HasExprTree;
use syn_expr_ast::jump::{ExprBreakOf, ExprReturnOf, ExprYieldOf};
use syn_visit_kinds::operands::optional_mut;

/// A `break` without the parentheses in it, after more attributes.
pub fn break_expr<E: HasExprTree, F: Fn(&mut E) -> Flattened<()>>(
    x: &mut ExprBreakOf<E>,
    attrs: Before,
    flatten: F,
) -> Flattened<()>
    requires expr { ForSome x.old.expr (λ b. Takes (F.pre flatten) b.value) }
    requires gives { Flattens E.tree (F.post flatten) }
    ensures { IfOk result (λ _. IsFlatBehind attrs (expr_break_of E.tree x.old) (expr_break_of E.tree x.new)) }
{
    put_before(attrs, &mut x.attrs)?;
    optional_mut(&mut x.expr, &flatten)?;
    Ok(())
}

/// A `return` without the parentheses in it, after more attributes.
pub fn return_expr<E: HasExprTree, F: Fn(&mut E) -> Flattened<()>>(
    x: &mut ExprReturnOf<E>,
    attrs: Before,
    flatten: F,
) -> Flattened<()>
    requires expr { ForSome x.old.expr (λ b. Takes (F.pre flatten) b.value) }
    requires gives { Flattens E.tree (F.post flatten) }
    ensures { IfOk result (λ _. IsFlatBehind attrs (expr_return_of E.tree x.old) (expr_return_of E.tree x.new)) }
{
    put_before(attrs, &mut x.attrs)?;
    optional_mut(&mut x.expr, &flatten)?;
    Ok(())
}

/// A `yield` without the parentheses in it, after more attributes.
pub fn yield_expr<E: HasExprTree, F: Fn(&mut E) -> Flattened<()>>(
    x: &mut ExprYieldOf<E>,
    attrs: Before,
    flatten: F,
) -> Flattened<()>
    requires expr { ForSome x.old.expr (λ b. Takes (F.pre flatten) b.value) }
    requires gives { Flattens E.tree (F.post flatten) }
    ensures { IfOk result (λ _. IsFlatBehind attrs (expr_yield_of E.tree x.old) (expr_yield_of E.tree x.new)) }
{
    put_before(attrs, &mut x.attrs)?;
    optional_mut(&mut x.expr, &flatten)?;
    Ok(())
}
