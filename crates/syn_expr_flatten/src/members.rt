//! What holds both expressions and patterns, over what flattens each.

ghost use Rattle.std.specs.Prelude.{Contains, IfOk};
ghost use Rattle.std.specs.Option.{ForSome};
ghost use Rattle.syn_expr_core.specs.View.{arm_of, let_of, match_of, closure_of, for_loop_of, guard_of, pat_of, tree_of};
ghost use Rattle.syn_expr_core.specs.declared.closure.ExprClosure.{out-ExprClosure};
ghost use Rattle.syn_expr_core.specs.declared.control.Arm.{Arm, out-Arm};
ghost use Rattle.syn_expr_core.specs.declared.control.ExprForLoop.{out-ExprForLoop};
ghost use Rattle.syn_expr_core.specs.declared.control.ExprLet.{out-ExprLet};
ghost use Rattle.syn_expr_core.specs.declared.control.ExprMatch.{out-ExprMatch};
ghost use Rattle.syn_expr_core.specs.declared.pat.PatGuard.{out-PatGuard};
ghost use Rattle.syn_visit_kinds.specs.Calls.{Each, Left, Takes};
ghost use Rattle.syn_expr_flatten.specs.Flat.{Flattens, IsFlatBehind};
ghost use Rattle.syn_expr_flatten.specs.Pats.{FlattensArm, FlattensPat, IsFlatArm, IsFlatPat};

use crate::attrs::{Before, Flattened, put_around, put_before};
use syn_expr_core::closure::ExprClosure;
use syn_expr_core::control::{Arm, ExprForLoop, ExprLet, ExprMatch};
use syn_expr_core::expr::Expr;
use syn_expr_core::pat::{Pat, PatGuard};
use syn_visit_kinds::operands::{boxed_mut, punctuated_mut};

/// A pattern with a guard, without the parentheses in it.
pub(crate) fn guarded<F: Fn(&mut Expr) -> Flattened<()>, G: Fn(&mut Pat) -> Flattened<()>>(
    x: &mut PatGuard,
    flatten: F,
    pattern: G,
) -> Flattened<()>
    requires pat { Takes (G.pre pattern) (out-PatGuard x.old).pat.value }
    requires guard { Takes (F.pre flatten) (out-PatGuard x.old).guard.value }
    requires pats { FlattensPat pat_of (G.post pattern) }
    requires gives { Flattens tree_of (F.post flatten) }
    ensures { IfOk result (λ _. IsFlatPat (guard_of x.old) (guard_of x.new)) }
{
    boxed_mut(&mut x.pat, &pattern)?;
    boxed_mut(&mut x.guard, &flatten)?;
    Ok(())
}

/// A closure without the parentheses in it, after more attributes.
pub(crate) fn closure<F: Fn(&mut Expr) -> Flattened<()>, G: Fn(&mut Pat) -> Flattened<()>>(
    x: &mut ExprClosure,
    attrs: Before,
    flatten: F,
    pattern: G,
) -> Flattened<()>
    requires inputs { (q : _) → Contains (out-ExprClosure x.old).inputs.inner.items q → Takes (G.pre pattern) q.0 }
    requires last { ForSome (out-ExprClosure x.old).inputs.last (λ b. Takes (G.pre pattern) b.value) }
    requires body { Takes (F.pre flatten) (out-ExprClosure x.old).body.value }
    requires pats { FlattensPat pat_of (G.post pattern) }
    requires gives { Flattens tree_of (F.post flatten) }
    ensures { IfOk result (λ _. IsFlatBehind attrs (closure_of x.old) (closure_of x.new)) }
{
    put_before(attrs, &mut x.attrs)?;
    punctuated_mut(&mut x.inputs, &pattern)?;
    boxed_mut(&mut x.body, &flatten)?;
    Ok(())
}

/// A `for` loop without the parentheses in it, after more attributes.
pub(crate) fn for_loop<F: Fn(&mut Expr) -> Flattened<()>, G: Fn(&mut Pat) -> Flattened<()>>(
    x: &mut ExprForLoop,
    attrs: Before,
    flatten: F,
    pattern: G,
) -> Flattened<()>
    requires pat { Takes (G.pre pattern) (out-ExprForLoop x.old).pat.value }
    requires expr { Takes (F.pre flatten) (out-ExprForLoop x.old).expr.value }
    requires pats { FlattensPat pat_of (G.post pattern) }
    requires gives { Flattens tree_of (F.post flatten) }
    ensures { IfOk result (λ _. IsFlatBehind attrs (for_loop_of x.old) (for_loop_of x.new)) }
{
    put_around(attrs, &mut x.attrs)?;
    boxed_mut(&mut x.pat, &pattern)?;
    boxed_mut(&mut x.expr, &flatten)?;
    Ok(())
}

/// A `let` without the parentheses in it, after more attributes.
pub(crate) fn let_expr<F: Fn(&mut Expr) -> Flattened<()>, G: Fn(&mut Pat) -> Flattened<()>>(
    x: &mut ExprLet,
    attrs: Before,
    flatten: F,
    pattern: G,
) -> Flattened<()>
    requires pat { Takes (G.pre pattern) (out-ExprLet x.old).pat.value }
    requires expr { Takes (F.pre flatten) (out-ExprLet x.old).expr.value }
    requires pats { FlattensPat pat_of (G.post pattern) }
    requires gives { Flattens tree_of (F.post flatten) }
    ensures { IfOk result (λ _. IsFlatBehind attrs (let_of x.old) (let_of x.new)) }
{
    put_before(attrs, &mut x.attrs)?;
    boxed_mut(&mut x.pat, &pattern)?;
    boxed_mut(&mut x.expr, &flatten)?;
    Ok(())
}

/// An arm without the parentheses in it.
pub(crate) fn arm<F: Fn(&mut Expr) -> Flattened<()>, G: Fn(&mut Pat) -> Flattened<()>>(
    one: &mut Arm,
    flatten: F,
    pattern: G,
) -> Flattened<()>
    requires pat { Takes (G.pre pattern) (out-Arm one.old).pat }
    requires body { Takes (F.pre flatten) (out-Arm one.old).body.value }
    requires pats { FlattensPat pat_of (G.post pattern) }
    requires gives { Flattens tree_of (F.post flatten) }
    ensures { IfOk result (λ _. IsFlatArm (arm_of one.old) (arm_of one.new)) }
{
    pattern(&mut one.pat)?;
    boxed_mut(&mut one.body, &flatten)?;
    Ok(())
}

/// A `match` without the parentheses in it, after more attributes.
pub(crate) fn match_expr<F: Fn(&mut Expr) -> Flattened<()>, A: Fn(&mut Arm) -> Flattened<()>>(
    x: &mut ExprMatch,
    attrs: Before,
    flatten: F,
    arm: A,
) -> Flattened<()>
    requires expr { Takes (F.pre flatten) (out-ExprMatch x.old).expr.value }
    requires arms { (one : Arm) → Contains (out-ExprMatch x.old).arms.items one → Takes (A.pre arm) one }
    requires gives { Flattens tree_of (F.post flatten) }
    requires each { FlattensArm arm_of (A.post arm) }
    ensures { IfOk result (λ _. IsFlatBehind attrs (match_of x.old) (match_of x.new)) }
{
    put_around(attrs, &mut x.attrs)?;
    boxed_mut(&mut x.expr, &flatten)?;
    each(&mut x.arms, arm)?;
    Ok(())
}

/// Each element, as the function leaves it. Refused where the function refuses one.
#[tactic(auto, using(syn_visit_kinds::proofs::Upto::upto))]
pub(crate) fn each<T, F: Fn(&mut T) -> Flattened<()>>(xs: &mut Vec<T>, flatten: F) -> Flattened<()>
    requires { (x : T) → Contains xs.old.items x → Takes (F.pre flatten) x }
    ensures { IfOk result (λ _. Each (Left (F.post flatten)) xs.old.items xs.new.items) }
{
    for x in xs.iter_mut() {
        flatten(x)?;
    }
    Ok(())
}
