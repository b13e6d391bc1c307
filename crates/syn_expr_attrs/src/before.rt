//! The kinds that have all their attributes before them.

ghost use Rattle.std.specs.Prelude.{IfOk};
ghost use Rattle.syn_expr_attrs.specs.Behind.{Behind};
ghost use Rattle.syn_expr_ast.specs.Attrs.{attrs_of};
ghost use Rattle.syn_expr_ast.specs.View.{expr_array_of, expr_group_of, expr_infer_of, expr_lit_of, expr_macro_of, expr_paren_of, expr_path_of, expr_repeat_of, expr_tuple_of, expr_async_of, expr_if_of, expr_try_block_of, expr_break_of, expr_continue_of, expr_return_of, expr_yield_of, expr_assign_of, expr_binary_of, expr_cast_of, expr_range_of, expr_raw_addr_of, expr_reference_of, expr_unary_of, expr_struct_of, expr_await_of, expr_call_of, expr_field_of, expr_index_of, expr_method_call_of, expr_try_of};
ghost use Rattle.syn_expr_spec.specs.Tree.{Tree};

use std::alloc::AllocError;
use syn_expr_ast::atom::{
    ExprArrayOf, ExprGroupOf, ExprInfer, ExprLit, ExprMacro, ExprParenOf, ExprPath, ExprRepeatOf,
    ExprTupleOf,
};
use syn_expr_ast::attrs::joined;
use syn_expr_ast::block::{ExprAsync, ExprIfOf, ExprTryBlock};
use syn_expr_ast::jump::{ExprBreakOf, ExprContinue, ExprReturnOf, ExprYieldOf};
use syn_expr_ast::operation::{
    ExprAssignOf, ExprBinaryOf, ExprCastOf, ExprRangeOf, ExprRawAddrOf, ExprReferenceOf,
    ExprUnaryOf,
};
use syn_expr_ast::structure::ExprStructOf;
use syn_expr_ast::trailer::{
    ExprAwaitOf, ExprCallOf, ExprFieldOf, ExprIndexOf, ExprMethodCallOf, ExprTryOf,
};
use syn_lower::attr::Attribute;

/// It after more attributes.
pub fn array<E: Drop>(
    x: ExprArrayOf<E>,
    attrs: Vec<Attribute>,
) -> Result<ExprArrayOf<E>, AllocError>
    ensures { (tree : E → Tree) → IfOk result (λ y. Behind (attrs_of attrs) (expr_array_of tree x) (expr_array_of tree y)) }
{
    Ok(ExprArrayOf {
        attrs: joined(attrs, x.attrs)?,
        ..x
    })
}

/// It after more attributes.
pub fn group<E: Drop>(
    x: ExprGroupOf<E>,
    attrs: Vec<Attribute>,
) -> Result<ExprGroupOf<E>, AllocError>
    ensures { (tree : E → Tree) → IfOk result (λ y. Behind (attrs_of attrs) (expr_group_of tree x) (expr_group_of tree y)) }
{
    Ok(ExprGroupOf {
        attrs: joined(attrs, x.attrs)?,
        ..x
    })
}

/// It after more attributes.
pub fn infer(x: ExprInfer, attrs: Vec<Attribute>) -> Result<ExprInfer, AllocError>
    ensures { IfOk result (λ y. Behind (attrs_of attrs) (expr_infer_of x) (expr_infer_of y)) }
{
    Ok(ExprInfer {
        attrs: joined(attrs, x.attrs)?,
        ..x
    })
}

/// It after more attributes.
pub fn lit(x: ExprLit, attrs: Vec<Attribute>) -> Result<ExprLit, AllocError>
    ensures { IfOk result (λ y. Behind (attrs_of attrs) (expr_lit_of x) (expr_lit_of y)) }
{
    Ok(ExprLit {
        attrs: joined(attrs, x.attrs)?,
        ..x
    })
}

/// It after more attributes.
pub fn mac(x: ExprMacro, attrs: Vec<Attribute>) -> Result<ExprMacro, AllocError>
    ensures { IfOk result (λ y. Behind (attrs_of attrs) (expr_macro_of x) (expr_macro_of y)) }
{
    Ok(ExprMacro {
        attrs: joined(attrs, x.attrs)?,
        ..x
    })
}

/// It after more attributes.
pub fn paren<E: Drop>(
    x: ExprParenOf<E>,
    attrs: Vec<Attribute>,
) -> Result<ExprParenOf<E>, AllocError>
    ensures { (tree : E → Tree) → IfOk result (λ y. Behind (attrs_of attrs) (expr_paren_of tree x) (expr_paren_of tree y)) }
{
    Ok(ExprParenOf {
        attrs: joined(attrs, x.attrs)?,
        ..x
    })
}

/// It after more attributes.
pub fn path(x: ExprPath, attrs: Vec<Attribute>) -> Result<ExprPath, AllocError>
    ensures { IfOk result (λ y. Behind (attrs_of attrs) (expr_path_of x) (expr_path_of y)) }
{
    Ok(ExprPath {
        attrs: joined(attrs, x.attrs)?,
        ..x
    })
}

/// It after more attributes.
pub fn repeat<E: Drop>(
    x: ExprRepeatOf<E>,
    attrs: Vec<Attribute>,
) -> Result<ExprRepeatOf<E>, AllocError>
    ensures { (tree : E → Tree) → IfOk result (λ y. Behind (attrs_of attrs) (expr_repeat_of tree x) (expr_repeat_of tree y)) }
{
    Ok(ExprRepeatOf {
        attrs: joined(attrs, x.attrs)?,
        ..x
    })
}

/// It after more attributes.
pub fn tuple<E: Drop>(
    x: ExprTupleOf<E>,
    attrs: Vec<Attribute>,
) -> Result<ExprTupleOf<E>, AllocError>
    ensures { (tree : E → Tree) → IfOk result (λ y. Behind (attrs_of attrs) (expr_tuple_of tree x) (expr_tuple_of tree y)) }
{
    Ok(ExprTupleOf {
        attrs: joined(attrs, x.attrs)?,
        ..x
    })
}

/// It after more attributes.
pub fn async_block(x: ExprAsync, attrs: Vec<Attribute>) -> Result<ExprAsync, AllocError>
    ensures { IfOk result (λ y. Behind (attrs_of attrs) (expr_async_of x) (expr_async_of y)) }
{
    Ok(ExprAsync {
        attrs: joined(attrs, x.attrs)?,
        ..x
    })
}

/// It after more attributes.
pub fn if_expr<E: Drop>(x: ExprIfOf<E>, attrs: Vec<Attribute>) -> Result<ExprIfOf<E>, AllocError>
    ensures { (tree : E → Tree) → IfOk result (λ y. Behind (attrs_of attrs) (expr_if_of tree x) (expr_if_of tree y)) }
{
    Ok(ExprIfOf {
        attrs: joined(attrs, x.attrs)?,
        ..x
    })
}

/// It after more attributes.
pub fn try_block(x: ExprTryBlock, attrs: Vec<Attribute>) -> Result<ExprTryBlock, AllocError>
    ensures { IfOk result (λ y. Behind (attrs_of attrs) (expr_try_block_of x) (expr_try_block_of y)) }
{
    Ok(ExprTryBlock {
        attrs: joined(attrs, x.attrs)?,
        ..x
    })
}

/// It after more attributes.
pub fn break_expr<E: Drop>(
    x: ExprBreakOf<E>,
    attrs: Vec<Attribute>,
) -> Result<ExprBreakOf<E>, AllocError>
    ensures { (tree : E → Tree) → IfOk result (λ y. Behind (attrs_of attrs) (expr_break_of tree x) (expr_break_of tree y)) }
{
    Ok(ExprBreakOf {
        attrs: joined(attrs, x.attrs)?,
        ..x
    })
}

/// It after more attributes.
pub fn continue_expr(x: ExprContinue, attrs: Vec<Attribute>) -> Result<ExprContinue, AllocError>
    ensures { IfOk result (λ y. Behind (attrs_of attrs) (expr_continue_of x) (expr_continue_of y)) }
{
    Ok(ExprContinue {
        attrs: joined(attrs, x.attrs)?,
        ..x
    })
}

/// It after more attributes.
pub fn return_expr<E: Drop>(
    x: ExprReturnOf<E>,
    attrs: Vec<Attribute>,
) -> Result<ExprReturnOf<E>, AllocError>
    ensures { (tree : E → Tree) → IfOk result (λ y. Behind (attrs_of attrs) (expr_return_of tree x) (expr_return_of tree y)) }
{
    Ok(ExprReturnOf {
        attrs: joined(attrs, x.attrs)?,
        ..x
    })
}

/// It after more attributes.
pub fn yield_expr<E: Drop>(
    x: ExprYieldOf<E>,
    attrs: Vec<Attribute>,
) -> Result<ExprYieldOf<E>, AllocError>
    ensures { (tree : E → Tree) → IfOk result (λ y. Behind (attrs_of attrs) (expr_yield_of tree x) (expr_yield_of tree y)) }
{
    Ok(ExprYieldOf {
        attrs: joined(attrs, x.attrs)?,
        ..x
    })
}

/// It after more attributes.
pub fn assign<E: Drop>(
    x: ExprAssignOf<E>,
    attrs: Vec<Attribute>,
) -> Result<ExprAssignOf<E>, AllocError>
    ensures { (tree : E → Tree) → IfOk result (λ y. Behind (attrs_of attrs) (expr_assign_of tree x) (expr_assign_of tree y)) }
{
    Ok(ExprAssignOf {
        attrs: joined(attrs, x.attrs)?,
        ..x
    })
}

/// It after more attributes.
pub fn binary<E: Drop>(
    x: ExprBinaryOf<E>,
    attrs: Vec<Attribute>,
) -> Result<ExprBinaryOf<E>, AllocError>
    ensures { (tree : E → Tree) → IfOk result (λ y. Behind (attrs_of attrs) (expr_binary_of tree x) (expr_binary_of tree y)) }
{
    Ok(ExprBinaryOf {
        attrs: joined(attrs, x.attrs)?,
        ..x
    })
}

/// It after more attributes.
pub fn cast<E: Drop>(x: ExprCastOf<E>, attrs: Vec<Attribute>) -> Result<ExprCastOf<E>, AllocError>
    ensures { (tree : E → Tree) → IfOk result (λ y. Behind (attrs_of attrs) (expr_cast_of tree x) (expr_cast_of tree y)) }
{
    Ok(ExprCastOf {
        attrs: joined(attrs, x.attrs)?,
        ..x
    })
}

/// It after more attributes.
pub fn range<E: Drop>(
    x: ExprRangeOf<E>,
    attrs: Vec<Attribute>,
) -> Result<ExprRangeOf<E>, AllocError>
    ensures { (tree : E → Tree) → IfOk result (λ y. Behind (attrs_of attrs) (expr_range_of tree x) (expr_range_of tree y)) }
{
    Ok(ExprRangeOf {
        attrs: joined(attrs, x.attrs)?,
        ..x
    })
}

/// It after more attributes.
pub fn raw_addr<E: Drop>(
    x: ExprRawAddrOf<E>,
    attrs: Vec<Attribute>,
) -> Result<ExprRawAddrOf<E>, AllocError>
    ensures { (tree : E → Tree) → IfOk result (λ y. Behind (attrs_of attrs) (expr_raw_addr_of tree x) (expr_raw_addr_of tree y)) }
{
    Ok(ExprRawAddrOf {
        attrs: joined(attrs, x.attrs)?,
        ..x
    })
}

/// It after more attributes.
pub fn reference<E: Drop>(
    x: ExprReferenceOf<E>,
    attrs: Vec<Attribute>,
) -> Result<ExprReferenceOf<E>, AllocError>
    ensures { (tree : E → Tree) → IfOk result (λ y. Behind (attrs_of attrs) (expr_reference_of tree x) (expr_reference_of tree y)) }
{
    Ok(ExprReferenceOf {
        attrs: joined(attrs, x.attrs)?,
        ..x
    })
}

/// It after more attributes.
pub fn unary<E: Drop>(
    x: ExprUnaryOf<E>,
    attrs: Vec<Attribute>,
) -> Result<ExprUnaryOf<E>, AllocError>
    ensures { (tree : E → Tree) → IfOk result (λ y. Behind (attrs_of attrs) (expr_unary_of tree x) (expr_unary_of tree y)) }
{
    Ok(ExprUnaryOf {
        attrs: joined(attrs, x.attrs)?,
        ..x
    })
}

/// It after more attributes.
pub fn struct_expr<E: Drop>(
    x: ExprStructOf<E>,
    attrs: Vec<Attribute>,
) -> Result<ExprStructOf<E>, AllocError>
    ensures { (tree : E → Tree) → IfOk result (λ y. Behind (attrs_of attrs) (expr_struct_of tree x) (expr_struct_of tree y)) }
{
    Ok(ExprStructOf {
        attrs: joined(attrs, x.attrs)?,
        ..x
    })
}

/// It after more attributes.
pub fn await_expr<E: Drop>(
    x: ExprAwaitOf<E>,
    attrs: Vec<Attribute>,
) -> Result<ExprAwaitOf<E>, AllocError>
    ensures { (tree : E → Tree) → IfOk result (λ y. Behind (attrs_of attrs) (expr_await_of tree x) (expr_await_of tree y)) }
{
    Ok(ExprAwaitOf {
        attrs: joined(attrs, x.attrs)?,
        ..x
    })
}

/// It after more attributes.
pub fn call<E: Drop>(x: ExprCallOf<E>, attrs: Vec<Attribute>) -> Result<ExprCallOf<E>, AllocError>
    ensures { (tree : E → Tree) → IfOk result (λ y. Behind (attrs_of attrs) (expr_call_of tree x) (expr_call_of tree y)) }
{
    Ok(ExprCallOf {
        attrs: joined(attrs, x.attrs)?,
        ..x
    })
}

/// It after more attributes.
pub fn field<E: Drop>(
    x: ExprFieldOf<E>,
    attrs: Vec<Attribute>,
) -> Result<ExprFieldOf<E>, AllocError>
    ensures { (tree : E → Tree) → IfOk result (λ y. Behind (attrs_of attrs) (expr_field_of tree x) (expr_field_of tree y)) }
{
    Ok(ExprFieldOf {
        attrs: joined(attrs, x.attrs)?,
        ..x
    })
}

/// It after more attributes.
pub fn index<E: Drop>(
    x: ExprIndexOf<E>,
    attrs: Vec<Attribute>,
) -> Result<ExprIndexOf<E>, AllocError>
    ensures { (tree : E → Tree) → IfOk result (λ y. Behind (attrs_of attrs) (expr_index_of tree x) (expr_index_of tree y)) }
{
    Ok(ExprIndexOf {
        attrs: joined(attrs, x.attrs)?,
        ..x
    })
}

/// It after more attributes.
pub fn method_call<E: Drop>(
    x: ExprMethodCallOf<E>,
    attrs: Vec<Attribute>,
) -> Result<ExprMethodCallOf<E>, AllocError>
    ensures { (tree : E → Tree) → IfOk result (λ y. Behind (attrs_of attrs) (expr_method_call_of tree x) (expr_method_call_of tree y)) }
{
    Ok(ExprMethodCallOf {
        attrs: joined(attrs, x.attrs)?,
        ..x
    })
}

/// It after more attributes.
pub fn try_expr<E: Drop>(x: ExprTryOf<E>, attrs: Vec<Attribute>) -> Result<ExprTryOf<E>, AllocError>
    ensures { (tree : E → Tree) → IfOk result (λ y. Behind (attrs_of attrs) (expr_try_of tree x) (expr_try_of tree y)) }
{
    Ok(ExprTryOf {
        attrs: joined(attrs, x.attrs)?,
        ..x
    })
}
