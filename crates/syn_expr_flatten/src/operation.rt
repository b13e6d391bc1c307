//! Operators and their operands.

ghost use Rattle.std.specs.Prelude.{IfOk};
ghost use Rattle.std.specs.Option.{ForSome};
ghost use Rattle.syn_expr_ast.specs.View.{expr_assign_of, expr_binary_of, expr_cast_of, expr_range_of, expr_raw_addr_of, expr_reference_of, expr_unary_of};
ghost use Rattle.syn_visit_kinds.specs.Calls.{Takes};
ghost use Rattle.syn_expr_flatten.specs.Flat.{Flattens, IsFlatBehind};

use crate::attrs::{Before, Flattened, put_before};
use syn_expr_ast::alone::HasExprTree;
use syn_expr_ast::operation::{
    ExprAssignOf, ExprBinaryOf, ExprCastOf, ExprRangeOf, ExprRawAddrOf, ExprReferenceOf,
    ExprUnaryOf,
};
use syn_visit_kinds::operands::{boxed_mut, optional_mut};

/// An assignment without the parentheses in it, after more attributes.
pub fn assign<E: HasExprTree, F: Fn(&mut E) -> Flattened<()>>(
    x: &mut ExprAssignOf<E>,
    attrs: Before,
    flatten: F,
) -> Flattened<()>
    requires left { Takes (F.pre flatten) x.old.left.value }
    requires right { Takes (F.pre flatten) x.old.right.value }
    requires gives { Flattens E.tree (F.post flatten) }
    ensures { IfOk result (λ _. IsFlatBehind attrs (expr_assign_of E.tree x.old) (expr_assign_of E.tree x.new)) }
{
    put_before(attrs, &mut x.attrs)?;
    boxed_mut(&mut x.left, &flatten)?;
    boxed_mut(&mut x.right, &flatten)?;
    Ok(())
}

/// A binary operation without the parentheses in it, after more attributes.
pub fn binary<E: HasExprTree, F: Fn(&mut E) -> Flattened<()>>(
    x: &mut ExprBinaryOf<E>,
    attrs: Before,
    flatten: F,
) -> Flattened<()>
    requires left { Takes (F.pre flatten) x.old.left.value }
    requires right { Takes (F.pre flatten) x.old.right.value }
    requires gives { Flattens E.tree (F.post flatten) }
    ensures { IfOk result (λ _. IsFlatBehind attrs (expr_binary_of E.tree x.old) (expr_binary_of E.tree x.new)) }
{
    put_before(attrs, &mut x.attrs)?;
    boxed_mut(&mut x.left, &flatten)?;
    boxed_mut(&mut x.right, &flatten)?;
    Ok(())
}

/// A cast without the parentheses in it, after more attributes.
pub fn cast<E: HasExprTree, F: Fn(&mut E) -> Flattened<()>>(
    x: &mut ExprCastOf<E>,
    attrs: Before,
    flatten: F,
) -> Flattened<()>
    requires expr { Takes (F.pre flatten) x.old.expr.value }
    requires gives { Flattens E.tree (F.post flatten) }
    ensures { IfOk result (λ _. IsFlatBehind attrs (expr_cast_of E.tree x.old) (expr_cast_of E.tree x.new)) }
{
    put_before(attrs, &mut x.attrs)?;
    boxed_mut(&mut x.expr, &flatten)?;
    Ok(())
}

/// A range without the parentheses in it, after more attributes.
pub fn range<E: HasExprTree, F: Fn(&mut E) -> Flattened<()>>(
    x: &mut ExprRangeOf<E>,
    attrs: Before,
    flatten: F,
) -> Flattened<()>
    requires starts { ForSome x.old.start (λ b. Takes (F.pre flatten) b.value) }
    requires ends { ForSome x.old.end (λ b. Takes (F.pre flatten) b.value) }
    requires gives { Flattens E.tree (F.post flatten) }
    ensures { IfOk result (λ _. IsFlatBehind attrs (expr_range_of E.tree x.old) (expr_range_of E.tree x.new)) }
{
    put_before(attrs, &mut x.attrs)?;
    optional_mut(&mut x.start, &flatten)?;
    optional_mut(&mut x.end, &flatten)?;
    Ok(())
}

/// A raw borrow (`&raw const`, `&raw mut`) without the parentheses in it, after more attributes.
pub fn raw_addr<E: HasExprTree, F: Fn(&mut E) -> Flattened<()>>(
    x: &mut ExprRawAddrOf<E>,
    attrs: Before,
    flatten: F,
) -> Flattened<()>
    requires expr { Takes (F.pre flatten) x.old.expr.value }
    requires gives { Flattens E.tree (F.post flatten) }
    ensures { IfOk result (λ _. IsFlatBehind attrs (expr_raw_addr_of E.tree x.old) (expr_raw_addr_of E.tree x.new)) }
{
    put_before(attrs, &mut x.attrs)?;
    boxed_mut(&mut x.expr, &flatten)?;
    Ok(())
}

/// A reference without the parentheses in it, after more attributes.
pub fn reference<E: HasExprTree, F: Fn(&mut E) -> Flattened<()>>(
    x: &mut ExprReferenceOf<E>,
    attrs: Before,
    flatten: F,
) -> Flattened<()>
    requires expr { Takes (F.pre flatten) x.old.expr.value }
    requires gives { Flattens E.tree (F.post flatten) }
    ensures { IfOk result (λ _. IsFlatBehind attrs (expr_reference_of E.tree x.old) (expr_reference_of E.tree x.new)) }
{
    put_before(attrs, &mut x.attrs)?;
    boxed_mut(&mut x.expr, &flatten)?;
    Ok(())
}

/// A unary operation without the parentheses in it, after more attributes.
pub fn unary<E: HasExprTree, F: Fn(&mut E) -> Flattened<()>>(
    x: &mut ExprUnaryOf<E>,
    attrs: Before,
    flatten: F,
) -> Flattened<()>
    requires expr { Takes (F.pre flatten) x.old.expr.value }
    requires gives { Flattens E.tree (F.post flatten) }
    ensures { IfOk result (λ _. IsFlatBehind attrs (expr_unary_of E.tree x.old) (expr_unary_of E.tree x.new)) }
{
    put_before(attrs, &mut x.attrs)?;
    boxed_mut(&mut x.expr, &flatten)?;
    Ok(())
}
