//! Jumps, without labels.
#![tactic(auto, unfolding(syn_expr_ast::specs::Attrs::attrs_of))]

ghost use Rattle.std.specs.Prelude.{◌≡◌, IfErr, IfOk, None, option_map};
ghost use Rattle.syn_expr_ast.specs.View.{jump_with};
ghost use Rattle.syn_expr_make.specs.Held.{tree_in};
ghost use Rattle.syn_expr_spec.specs.Tree as e;

use crate::operand::{box_or_none, operand_or_none};
use std::alloc::Global;
use syn_expr_ast::alone::IsExpr;
use syn_expr_ast::jump::{ExprBreakOf, ExprContinue, ExprReturnOf, ExprYieldOf};
use syn_expr_parse::known::HoldsExpr;
use syn_tokens::error::{ErrorKind, Result};
use syn_tokens::token::{Break, Continue, Return, Yield};

/// Makes `break`, or `break a` (Rust Reference, "`break` expressions"). It is refused only where memory runs out.
pub fn break_expr<H: HoldsExpr + Drop>(alloc: Global, expr: Option<H>) -> Result<H>
    ensures made { let held = tree_in H.Expr.tree H.held in IfOk result (λ x. held x ≡ jump_with (e.breaking None) (option_map held expr)) }
    ensures memory { IfErr result (λ x. x.kind ≡ ErrorKind.OutOfMemory) }
{
    let expr = operand_or_none(alloc, expr)?;
    Ok(H::hold(H::Expr::break_expr(ExprBreakOf {
        attrs: Vec::new(alloc),
        break_token: Break::default(),
        label: None,
        expr: box_or_none(expr),
    })))
}

/// Makes `continue` (Rust Reference, "`continue` expressions").
pub fn continue_expr<H: HoldsExpr>(alloc: Global) -> H
    ensures { H.Expr.tree (H.held result) ≡ e.leaf (e.continuing None) }
{
    H::hold(H::Expr::continue_expr(ExprContinue {
        attrs: Vec::new(alloc),
        continue_token: Continue::default(),
        label: None,
    }))
}

/// Makes `return`, or `return a` (Rust Reference, "`return` expressions"). It is refused only where memory runs out.
pub fn return_expr<H: HoldsExpr + Drop>(alloc: Global, expr: Option<H>) -> Result<H>
    ensures made { let held = tree_in H.Expr.tree H.held in IfOk result (λ x. held x ≡ jump_with e.returning (option_map held expr)) }
    ensures memory { IfErr result (λ x. x.kind ≡ ErrorKind.OutOfMemory) }
{
    let expr = operand_or_none(alloc, expr)?;
    Ok(H::hold(H::Expr::return_expr(ExprReturnOf {
        attrs: Vec::new(alloc),
        return_token: Return::default(),
        expr: box_or_none(expr),
    })))
}

/// Makes `yield`, or `yield a`, which is not stable. It is refused only where memory runs out.
pub fn yield_expr<H: HoldsExpr + Drop>(alloc: Global, expr: Option<H>) -> Result<H>
    ensures made { let held = tree_in H.Expr.tree H.held in IfOk result (λ x. held x ≡ jump_with e.yielding (option_map held expr)) }
    ensures memory { IfErr result (λ x. x.kind ≡ ErrorKind.OutOfMemory) }
{
    let expr = operand_or_none(alloc, expr)?;
    Ok(H::hold(H::Expr::yield_expr(ExprYieldOf {
        attrs: Vec::new(alloc),
        yield_token: Yield::default(),
        expr: box_or_none(expr),
    })))
}
