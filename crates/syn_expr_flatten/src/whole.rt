//! Flattening as callers have it.

ghost use Rattle.std.specs.Prelude.{◌≡◌, IfErr, IfOk};
ghost use Rattle.syn_expr_core.specs.View.{tree_of};
ghost use Rattle.syn_expr_flatten.specs.Flat.{IsFlat, placeholder};

use crate::knot::{alloc_of, operand};
use std::alloc::Global;
use std::mem::replace;
use syn_expr_core::expr::Expr;
use syn_expr_core::held::HeldExpr;
use syn_tokens::error::{Error, ErrorKind, Result};

/// Drops an expression, and puts the placeholder in its place.
fn give_up(alloc: Global, expr: &mut Expr)
    ensures { tree_of expr.new ≡ placeholder }
{
    let _dropped = HeldExpr {
        expr: replace(expr, Expr::placeholder(alloc)),
    };
}

/// Takes away all parentheses in an expression, those round it too, wherever an expression may be: in its operands,
/// in the guards of patterns, in the bodies of arms and closures. Blocks stay as they are, whose tokens are verbatim. The
/// attributes of parentheses come before those of the expression in them; before verbatim tokens the outer ones are
/// the first of these tokens. Inner ones, which no parentheses that are read have, are printed where the expression has
/// braces for them, and nowhere else.
///
/// It means the same: an expression is printed with the parentheses that it needs, whether it has any or not
/// (`print_expr`). A well-formed one stays well-formed, and where no comma and no `..` is filled in to it when it is printed,
/// none is then (`flattened_is_same`).
///
/// Memory may run out (`OutOfMemory`): the expression is then dropped, and in its place is what `Expr::placeholder` makes, a
/// path without segments.
pub fn flatten_in_place(expr: &mut Expr) -> Result<()>
    ensures tree { IfOk result (λ _. IsFlat (tree_of expr.old) (tree_of expr.new)) }
    ensures memory { IfErr result (λ e. e.kind ≡ ErrorKind.OutOfMemory) }
    ensures refused { IfErr result (λ _. tree_of expr.new ≡ placeholder) }
{
    let alloc = alloc_of(expr);
    match operand(expr) {
        Ok(()) => Ok(()),
        Err(e) => {
            give_up(alloc, expr);
            Err(Error::from(e))
        }
    }
}

/// The expression without parentheses: what `flatten_in_place` leaves of it. Where memory runs out (`OutOfMemory`) the
/// expression is dropped.
pub fn flatten(expr: Expr) -> Result<Expr>
    ensures tree { IfOk result (λ y. IsFlat (tree_of expr) (tree_of y)) }
    ensures memory { IfErr result (λ e. e.kind ≡ ErrorKind.OutOfMemory) }
{
    let mut held = HeldExpr { expr };
    flatten_in_place(&mut held.expr)?;
    Ok(held.into_inner())
}
