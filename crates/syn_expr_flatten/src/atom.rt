//! Kinds that are closed at both ends, and struct expressions, without the parentheses in them.

ghost use Rattle.std.specs.Prelude.{Contains, IfOk};
ghost use Rattle.std.specs.Option.{ForSome};
ghost use Rattle.syn_expr_ast.specs.View.{expr_array_of, expr_group_of, expr_repeat_of, expr_tuple_of, expr_struct_of, field_value_of};
ghost use Rattle.syn_visit_kinds.specs.Calls.{Takes};
ghost use Rattle.syn_expr_flatten.specs.Flat.{Flattens, IsFlatBehind, IsFlatField};

use crate::attrs::{Before, Flattened, put_before};
use syn_expr_ast::alone::HasExprTree;
use syn_expr_ast::atom::{ExprArrayOf, ExprGroupOf, ExprRepeatOf, ExprTupleOf};
use syn_expr_ast::structure::{ExprStructOf, FieldValueOf};
use syn_visit_kinds::operands::{boxed_mut, optional_mut, punctuated_mut};

/// An array without the parentheses in it, after more attributes.
pub fn array<E: HasExprTree, F: Fn(&mut E) -> Flattened<()>>(
    x: &mut ExprArrayOf<E>,
    attrs: Before,
    flatten: F,
) -> Flattened<()>
    requires elems { (q : _) → Contains x.old.elems.inner.items q → Takes (F.pre flatten) q.0 }
    requires last { ForSome x.old.elems.last (λ b. Takes (F.pre flatten) b.value) }
    requires gives { Flattens E.tree (F.post flatten) }
    ensures { IfOk result (λ _. IsFlatBehind attrs (expr_array_of E.tree x.old) (expr_array_of E.tree x.new)) }
{
    put_before(attrs, &mut x.attrs)?;
    punctuated_mut(&mut x.elems, &flatten)?;
    Ok(())
}

/// An invisible group without the parentheses in it, after more attributes.
pub fn group<E: HasExprTree, F: Fn(&mut E) -> Flattened<()>>(
    x: &mut ExprGroupOf<E>,
    attrs: Before,
    flatten: F,
) -> Flattened<()>
    requires expr { Takes (F.pre flatten) x.old.expr.value }
    requires gives { Flattens E.tree (F.post flatten) }
    ensures { IfOk result (λ _. IsFlatBehind attrs (expr_group_of E.tree x.old) (expr_group_of E.tree x.new)) }
{
    put_before(attrs, &mut x.attrs)?;
    boxed_mut(&mut x.expr, &flatten)?;
    Ok(())
}

/// `[a; n]` without the parentheses in it, after more attributes.
pub fn repeat<E: HasExprTree, F: Fn(&mut E) -> Flattened<()>>(
    x: &mut ExprRepeatOf<E>,
    attrs: Before,
    flatten: F,
) -> Flattened<()>
    requires expr { Takes (F.pre flatten) x.old.expr.value }
    requires len { Takes (F.pre flatten) x.old.len.value }
    requires gives { Flattens E.tree (F.post flatten) }
    ensures { IfOk result (λ _. IsFlatBehind attrs (expr_repeat_of E.tree x.old) (expr_repeat_of E.tree x.new)) }
{
    put_before(attrs, &mut x.attrs)?;
    boxed_mut(&mut x.expr, &flatten)?;
    boxed_mut(&mut x.len, &flatten)?;
    Ok(())
}

/// A tuple without the parentheses in it, after more attributes.
pub fn tuple<E: HasExprTree, F: Fn(&mut E) -> Flattened<()>>(
    x: &mut ExprTupleOf<E>,
    attrs: Before,
    flatten: F,
) -> Flattened<()>
    requires elems { (q : _) → Contains x.old.elems.inner.items q → Takes (F.pre flatten) q.0 }
    requires last { ForSome x.old.elems.last (λ b. Takes (F.pre flatten) b.value) }
    requires gives { Flattens E.tree (F.post flatten) }
    ensures { IfOk result (λ _. IsFlatBehind attrs (expr_tuple_of E.tree x.old) (expr_tuple_of E.tree x.new)) }
{
    put_before(attrs, &mut x.attrs)?;
    punctuated_mut(&mut x.elems, &flatten)?;
    Ok(())
}

/// A struct expression without the parentheses in it, after more attributes.
pub fn struct_expr<E: HasExprTree, F: Fn(&mut E) -> Flattened<()>>(
    x: &mut ExprStructOf<E>,
    attrs: Before,
    flatten: F,
) -> Flattened<()>
    requires fields { (q : _) → Contains x.old.fields.inner.items q → Takes (F.pre flatten) q.0.expr }
    requires last { ForSome x.old.fields.last (λ b. Takes (F.pre flatten) b.value.expr) }
    requires others { ForSome x.old.rest (λ b. Takes (F.pre flatten) b.value) }
    requires gives { Flattens E.tree (F.post flatten) }
    ensures { IfOk result (λ _. IsFlatBehind attrs (expr_struct_of E.tree x.old) (expr_struct_of E.tree x.new)) }
{
    put_before(attrs, &mut x.attrs)?;
    punctuated_mut(
        &mut x.fields,
        &|field: &mut FieldValueOf<E>| -> Flattened<()>
            requires value { Takes (F.pre flatten) field.old.expr }
            requires gives { Flattens E.tree (F.post flatten) }
            ensures { IfOk result (λ _. IsFlatField (field_value_of E.tree field.old) (field_value_of E.tree field.new)) }
        {
            flatten(&mut field.expr)?;
            Ok(())
        },
    )?;
    optional_mut(&mut x.rest, &flatten)?;
    Ok(())
}
