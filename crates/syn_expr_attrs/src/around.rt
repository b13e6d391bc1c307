//! The kinds whose inner attributes come first in their braces.

ghost use Rattle.std.specs.Prelude.{IfOk};
ghost use Rattle.syn_expr_attrs.specs.Behind.{Behind};
ghost use Rattle.syn_expr_ast.specs.Attrs.{attrs_of};
ghost use Rattle.syn_expr_ast.specs.View.{expr_block_of, expr_const_of, expr_loop_of, expr_unsafe_of, expr_while_of};
ghost use Rattle.syn_expr_spec.specs.Tree.{Tree};

use std::alloc::AllocError;
use syn_expr_ast::attrs::joined;
use syn_expr_ast::block::{ExprBlock, ExprConst, ExprLoop, ExprUnsafe, ExprWhileOf};
use syn_lower::attr::Attribute;

/// It after more attributes.
pub fn block(x: ExprBlock, attrs: Vec<Attribute>) -> Result<ExprBlock, AllocError>
    ensures { IfOk result (λ y. Behind (attrs_of attrs) (expr_block_of x) (expr_block_of y)) }
{
    Ok(ExprBlock {
        attrs: joined(attrs, x.attrs)?,
        ..x
    })
}

/// It after more attributes.
pub fn const_block(x: ExprConst, attrs: Vec<Attribute>) -> Result<ExprConst, AllocError>
    ensures { IfOk result (λ y. Behind (attrs_of attrs) (expr_const_of x) (expr_const_of y)) }
{
    Ok(ExprConst {
        attrs: joined(attrs, x.attrs)?,
        ..x
    })
}

/// It after more attributes.
pub fn loop_expr(x: ExprLoop, attrs: Vec<Attribute>) -> Result<ExprLoop, AllocError>
    ensures { IfOk result (λ y. Behind (attrs_of attrs) (expr_loop_of x) (expr_loop_of y)) }
{
    Ok(ExprLoop {
        attrs: joined(attrs, x.attrs)?,
        ..x
    })
}

/// It after more attributes.
pub fn unsafe_block(x: ExprUnsafe, attrs: Vec<Attribute>) -> Result<ExprUnsafe, AllocError>
    ensures { IfOk result (λ y. Behind (attrs_of attrs) (expr_unsafe_of x) (expr_unsafe_of y)) }
{
    Ok(ExprUnsafe {
        attrs: joined(attrs, x.attrs)?,
        ..x
    })
}

/// It after more attributes.
pub fn while_expr<E: Drop>(
    x: ExprWhileOf<E>,
    attrs: Vec<Attribute>,
) -> Result<ExprWhileOf<E>, AllocError>
    ensures { (tree : E → Tree) → IfOk result (λ y. Behind (attrs_of attrs) (expr_while_of tree x) (expr_while_of tree y)) }
{
    Ok(ExprWhileOf {
        attrs: joined(attrs, x.attrs)?,
        ..x
    })
}
