//! Copies of expressions, patterns and match arms, with their places: what `clone` is in syn. A copy takes memory and may be
//! refused, so it is a call.
//!
//! The copies of each kind are in `syn_expr_copy`; here `Expr` and `Pat` are put in.
#![tactic(auto)]

ghost use Rattle.std.specs.Prelude.{◌≡◌, IfErr, IfOk};
ghost use Rattle.syn_expr_core.specs.View.{arm_of, pat_of, tree_of};

mod copies;

use crate::copies::{copied_arm, copied_expr, copied_pat};
use std::alloc::Global;
use syn_expr_core::control::Arm;
use syn_expr_core::expr::Expr;
use syn_expr_core::held::HeldExpr;
use syn_expr_core::pat::Pat;
pub use syn_expr_parse::known::Held;
use syn_tokens::error::{ErrorKind, Result};

/// A copy of an expression, with its places. Where memory runs out it is refused as `OutOfMemory`, and all that was copied by
/// then is dropped.
pub fn copy_expr(alloc: Global, x: &Expr) -> Result<HeldExpr>
    ensures copied { IfOk result (λ y. tree_of y.expr ≡ tree_of x.now) }
    ensures memory { IfErr result (λ e. e.kind ≡ ErrorKind.OutOfMemory) }
{
    Ok(HeldExpr {
        expr: copied_expr(x, alloc)?,
    })
}

/// A copy of a pattern, with its places. Where memory runs out it is refused as `OutOfMemory`, and all that was copied by then
/// is dropped.
pub fn copy_pat(alloc: Global, x: &Pat) -> Result<Held<Pat>>
    ensures copied { IfOk result (λ y. pat_of y.value ≡ pat_of x.now) }
    ensures memory { IfErr result (λ e. e.kind ≡ ErrorKind.OutOfMemory) }
{
    Ok(Held {
        value: copied_pat(x, alloc)?,
    })
}

/// A copy of an arm of `match`, with its places. Where memory runs out it is refused as `OutOfMemory`, and all that was copied
/// by then is dropped.
pub fn copy_arm(alloc: Global, x: &Arm) -> Result<Held<Arm>>
    ensures copied { IfOk result (λ y. arm_of y.value ≡ arm_of x.now) }
    ensures memory { IfErr result (λ e. e.kind ≡ ErrorKind.OutOfMemory) }
{
    Ok(Held {
        value: copied_arm(x, alloc)?,
    })
}
