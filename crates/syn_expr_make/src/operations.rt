//! Operators with their operands.
#![tactic(auto, unfolding(syn_expr_ast::specs::Attrs::attrs_of))]

ghost use Rattle.std.specs.Prelude.{◌≡◌, IfErr, IfOk, option_map};
ghost use Rattle.syn_expr_ast.specs.View.{range_between};
ghost use Rattle.syn_expr_make.specs.Held.{tree_in};
ghost use Rattle.syn_expr_spec.specs.Tree as e;
ghost use Rattle.syn_expr_spec.specs.declared.kinds.Infix.TheVariants as inf;
ghost use Rattle.syn_lower.specs.View as of;
ghost use Rattle.syn_lower.specs.View.{type_of};
ghost use Rattle.syn_expr_tokens.specs.View.{bin_kind, limits_kind, un_kind};

use crate::operand::{box_or_none, operand, operand_or_none};
use std::alloc::Global;
use syn_expr_ast::alone::IsExpr;
use syn_expr_ast::operation::{
    ExprAssignOf, ExprBinaryOf, ExprCastOf, ExprRangeOf, ExprRawAddrOf, ExprReferenceOf,
    ExprUnaryOf,
};
use syn_expr_parse::known::HoldsExpr;
use syn_expr_tokens::limits::RangeLimits;
use syn_expr_tokens::op::{BinOp, UnOp};
use syn_lower::ty::{PointerMutability, Type};
use syn_tokens::error::{ErrorKind, Result};
use syn_tokens::token::{And, As, Const, Eq, Mut, Raw};

/// `mut`, or `const`.
fn mut_or_const(is_mut: bool) -> PointerMutability
    ensures { of.is_mut result ≡ is_mut }
{
    if is_mut {
        PointerMutability::Mut(Mut::default())
    } else {
        PointerMutability::Const(Const::default())
    }
}

/// Makes `a = b` (Rust Reference, "Assignment expressions"). It is refused only where memory runs out.
pub fn assign<H: HoldsExpr + Drop>(alloc: Global, left: H, right: H) -> Result<H>
    ensures made { let held = tree_in H.Expr.tree H.held in IfOk result (λ x. held x ≡ e.infixed (held left) inf.Assign (held right)) }
    ensures memory { IfErr result (λ x. x.kind ≡ ErrorKind.OutOfMemory) }
{
    let left = operand(alloc, left)?;
    let right = operand(alloc, right)?;
    Ok(H::hold(H::Expr::assign(ExprAssignOf {
        attrs: Vec::new(alloc),
        left: left.into_inner(),
        eq_token: Eq::default(),
        right: right.into_inner(),
    })))
}

/// Makes `a + b`, or `a += b` (Rust Reference, "Operator expressions"). It is refused only where memory runs out.
pub fn binary<H: HoldsExpr + Drop>(alloc: Global, left: H, op: BinOp, right: H) -> Result<H>
    ensures made { let held = tree_in H.Expr.tree H.held in IfOk result (λ x. held x ≡ e.infixed (held left) (inf.Binary (bin_kind op)) (held right)) }
    ensures memory { IfErr result (λ x. x.kind ≡ ErrorKind.OutOfMemory) }
{
    let left = operand(alloc, left)?;
    let right = operand(alloc, right)?;
    Ok(H::hold(H::Expr::binary(ExprBinaryOf {
        attrs: Vec::new(alloc),
        left: left.into_inner(),
        op,
        right: right.into_inner(),
    })))
}

/// Makes `a as T` (Rust Reference, "Type cast expressions"). It is refused only where memory runs out.
pub fn cast<H: HoldsExpr + Drop>(alloc: Global, expr: H, ty: Type) -> Result<H>
    ensures made { let held = tree_in H.Expr.tree H.held in IfOk result (λ x. held x ≡ e.postfixed (held expr) (e.cast (type_of ty))) }
    ensures memory { IfErr result (λ x. x.kind ≡ ErrorKind.OutOfMemory) }
{
    let expr = operand(alloc, expr)?;
    let ty = Box::new(alloc, ty)?;
    Ok(H::hold(H::Expr::cast(ExprCastOf {
        attrs: Vec::new(alloc),
        expr: expr.into_inner(),
        as_token: As::default(),
        ty,
    })))
}

/// Makes `a..b`, `a..`, `..=b` or `..` (Rust Reference, "Range expressions"). A `..=` without an end makes an expression
/// that isn't well-formed. It is refused only where memory runs out.
pub fn range<H: HoldsExpr + Drop>(
    alloc: Global,
    start: Option<H>,
    limits: RangeLimits,
    end: Option<H>,
) -> Result<H>
    ensures made { let held = tree_in H.Expr.tree H.held in IfOk result (λ x. held x ≡ range_between (limits_kind limits) (option_map held start) (option_map held end)) }
    ensures memory { IfErr result (λ x. x.kind ≡ ErrorKind.OutOfMemory) }
{
    let start = operand_or_none(alloc, start)?;
    let end = operand_or_none(alloc, end)?;
    Ok(H::hold(H::Expr::range(ExprRangeOf {
        attrs: Vec::new(alloc),
        start: box_or_none(start),
        limits,
        end: box_or_none(end),
    })))
}

/// Makes `&raw mut a`, or `&raw const a` (Rust Reference, "Raw borrow operators"). It is refused only where memory runs
/// out.
pub fn raw_addr<H: HoldsExpr + Drop>(alloc: Global, is_mut: bool, expr: H) -> Result<H>
    ensures made { let held = tree_in H.Expr.tree H.held in IfOk result (λ x. held x ≡ e.prefixed (e.raw_addr is_mut) e.none (held expr)) }
    ensures memory { IfErr result (λ x. x.kind ≡ ErrorKind.OutOfMemory) }
{
    let expr = operand(alloc, expr)?;
    Ok(H::hold(H::Expr::raw_addr(ExprRawAddrOf {
        attrs: Vec::new(alloc),
        and_token: And::default(),
        raw: Raw::default(),
        mutability: mut_or_const(is_mut),
        expr: expr.into_inner(),
    })))
}

/// Makes `&mut a`, or `&a` (Rust Reference, "Borrow operators"). It is refused only where memory runs out.
pub fn reference<H: HoldsExpr + Drop>(alloc: Global, is_mut: bool, expr: H) -> Result<H>
    ensures made { let held = tree_in H.Expr.tree H.held in IfOk result (λ x. held x ≡ e.prefixed (e.reference is_mut) e.none (held expr)) }
    ensures memory { IfErr result (λ x. x.kind ≡ ErrorKind.OutOfMemory) }
{
    let expr = operand(alloc, expr)?;
    Ok(H::hold(H::Expr::reference(ExprReferenceOf {
        attrs: Vec::new(alloc),
        and_token: And::default(),
        mutability: is_mut.then(Mut::default),
        expr: expr.into_inner(),
    })))
}

/// Makes `*a`, `!a` or `-a` (Rust Reference, "Operator expressions"). It is refused only where memory runs out.
pub fn unary<H: HoldsExpr + Drop>(alloc: Global, op: UnOp, expr: H) -> Result<H>
    ensures made { let held = tree_in H.Expr.tree H.held in IfOk result (λ x. held x ≡ e.prefixed (e.unary (un_kind op)) e.none (held expr)) }
    ensures memory { IfErr result (λ x. x.kind ≡ ErrorKind.OutOfMemory) }
{
    let expr = operand(alloc, expr)?;
    Ok(H::hold(H::Expr::unary(ExprUnaryOf {
        attrs: Vec::new(alloc),
        op,
        expr: expr.into_inner(),
    })))
}
