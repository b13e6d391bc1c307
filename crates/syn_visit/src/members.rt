//! What holds both expressions and patterns: a function is called with each operand.

ghost use Rattle.std.specs.Option.{ForSome};
ghost use Rattle.std.specs.Prelude.{Contains};
ghost use Rattle.syn_expr_core.specs.View.{arm_of, closure_of, for_loop_of, guard_of, let_of, match_of, pat_of, tree_of};
ghost use Rattle.syn_expr_core.specs.declared.closure.ExprClosure.{out-ExprClosure};
ghost use Rattle.syn_expr_core.specs.declared.control.Arm.{Arm};
ghost use Rattle.syn_expr_core.specs.declared.control.ExprForLoop.{out-ExprForLoop};
ghost use Rattle.syn_expr_core.specs.declared.control.ExprLet.{out-ExprLet};
ghost use Rattle.syn_expr_core.specs.declared.control.ExprMatch.{out-ExprMatch};
ghost use Rattle.syn_expr_core.specs.declared.pat.PatGuard.{out-PatGuard};
ghost use Rattle.syn_visit.specs.Within.{SeesArm, SeesWithin, TakesArm, TakesWithin};
ghost use Rattle.syn_visit_kinds.specs.Calls.{Takes, TakesWith};
ghost use Rattle.syn_visit_kinds.specs.Changes.{Change, Changed, ChangedGuards, ChangedIn, PassesGuards};
ghost use Rattle.syn_visit_kinds.specs.Nodes.{operands_in};
ghost use Rattle.syn_visit_kinds.specs.Parts.{ChangedArm, arm_operands};
ghost use Rattle.syn_visit_kinds.specs.Walk.{Saw, Sees, Shown, Walk};

use crate::guards::{pattern, pattern_mut, within, within_mut};
use crate::passed::Passed;
use std::marker::PhantomData;
use syn_expr_core::closure::ExprClosure;
use syn_expr_core::control::{Arm, ExprForLoop, ExprLet, ExprMatch};
use syn_expr_core::expr::Expr;
use syn_expr_core::pat::{Pat, PatGuard};
use syn_visit_kinds::each::{one, punctuated_with};
use syn_visit_kinds::operands::{boxed_mut, boxed_with_mut, punctuated_with_mut};

/// `|a, b| a + b`
pub(crate) fn closure<S, R: Drop, F: Fn(&Expr, &mut S) -> Result<(), R>>(
    x: &ExprClosure,
    state: &mut S,
    call: &F,
) -> Result<(), R>
    requires inputs { (q : _) → Contains (out-ExprClosure x.now).inputs.inner.items q → SeesWithin (F.pre call.now) q.0 }
    requires last { ForSome (out-ExprClosure x.now).inputs.last (λ b. SeesWithin (F.pre call.now) b.value) }
    requires body { Sees (F.pre call.now) (out-ExprClosure x.now).body.value }
    ensures { Walk (Shown tree_of (Saw (F.post call.now))) (operands_in (closure_of x.now)) state.old result state.new }
{
    let passed = Passed {
        call,
        errors: PhantomData,
    };
    punctuated_with(&x.inputs, &passed, state, &within::<S, R, F>)?;
    one(&x.body, state, call)
}

/// `for p in a { .. }`
pub(crate) fn for_loop<S, R: Drop, F: Fn(&Expr, &mut S) -> Result<(), R>>(
    x: &ExprForLoop,
    state: &mut S,
    call: &F,
) -> Result<(), R>
    requires pat { SeesWithin (F.pre call.now) (out-ExprForLoop x.now).pat.value }
    requires expr { Sees (F.pre call.now) (out-ExprForLoop x.now).expr.value }
    ensures { Walk (Shown tree_of (Saw (F.post call.now))) (operands_in (for_loop_of x.now)) state.old result state.new }
{
    pattern(&x.pat, state, call)?;
    one(&x.expr, state, call)
}

/// `let p = a`
pub(crate) fn let_expr<S, R: Drop, F: Fn(&Expr, &mut S) -> Result<(), R>>(
    x: &ExprLet,
    state: &mut S,
    call: &F,
) -> Result<(), R>
    requires pat { SeesWithin (F.pre call.now) (out-ExprLet x.now).pat.value }
    requires expr { Sees (F.pre call.now) (out-ExprLet x.now).expr.value }
    ensures { Walk (Shown tree_of (Saw (F.post call.now))) (operands_in (let_of x.now)) state.old result state.new }
{
    pattern(&x.pat, state, call)?;
    one(&x.expr, state, call)
}

/// `p if a => b`
fn one_arm<S, R: Drop, F: Fn(&Expr, &mut S) -> Result<(), R>>(
    x: &Arm,
    state: &mut S,
    call: &F,
) -> Result<(), R>
    requires { SeesArm (F.pre call.now) x.now }
    ensures { Walk (Shown tree_of (Saw (F.post call.now))) (arm_operands (arm_of x.now)) state.old result state.new }
{
    pattern(&x.pat, state, call)?;
    one(&x.body, state, call)
}

/// The arms of a `match`.
fn arms<S, R: Drop, F: Fn(&Expr, &mut S) -> Result<(), R>>(
    xs: &[Arm],
    state: &mut S,
    call: &F,
) -> Result<(), R>
    requires { (x : Arm) → Contains xs.now x → SeesArm (F.pre call.now) x }
    ensures { Walk (λ a. Walk (Shown tree_of (Saw (F.post call.now))) (arm_operands (arm_of a))) xs.now state.old result state.new }
{
    for x in xs {
        one_arm(x, state, call)?;
    }
    Ok(())
}

/// `match a { p => b, .. }`
pub(crate) fn match_expr<S, R: Drop, F: Fn(&Expr, &mut S) -> Result<(), R>>(
    x: &ExprMatch,
    state: &mut S,
    call: &F,
) -> Result<(), R>
    requires expr { Sees (F.pre call.now) (out-ExprMatch x.now).expr.value }
    requires arms { (one : Arm) → Contains (out-ExprMatch x.now).arms.items one → SeesArm (F.pre call.now) one }
    ensures { Walk (Shown tree_of (Saw (F.post call.now))) (operands_in (match_of x.now)) state.old result state.new }
{
    one(&x.expr, state, call)?;
    arms(&x.arms, state, call)
}

/// As `pattern_mut`, for a pattern in a box.
fn boxed_pattern_mut<R: Drop, F: Fn(&mut Expr) -> Result<(), R>>(
    x: &mut Box<Pat>,
    call: &F,
) -> Result<(), R>
    requires { TakesWithin (F.pre call.now) x.old.value }
    ensures { ChangedGuards (Change tree_of (F.post call.now)) (pat_of x.old.value) result (pat_of x.new.value) }
{
    pattern_mut(x, call)
}

/// `p if a`, by a function that goes through patterns.
pub(crate) fn guarded_mut<
    R: Drop,
    F: Fn(&mut Expr) -> Result<(), R>,
    G: Fn(&mut Pat, &Passed<'_, F, R>) -> Result<(), R>,
>(x: &mut PatGuard, passed: &Passed<'_, F, R>, pattern: &G) -> Result<(), R>
    requires pat { TakesWith (G.pre pattern.now) passed.now (out-PatGuard x.old).pat.value }
    requires guard { Takes (F.pre passed.now.call.now) (out-PatGuard x.old).guard.value }
    ensures { PassesGuards pat_of (Change tree_of (F.post passed.now.call.now)) (G.post pattern.now) passed.now → ChangedGuards (Change tree_of (F.post passed.now.call.now)) (guard_of x.old) result (guard_of x.new) }
{
    boxed_with_mut(&mut x.pat, passed, pattern)?;
    boxed_mut(&mut x.guard, passed.call)
}

/// `|a, b| a + b`
pub(crate) fn closure_mut<R: Drop, F: Fn(&mut Expr) -> Result<(), R>>(
    x: &mut ExprClosure,
    call: &F,
) -> Result<(), R>
    requires inputs { (q : _) → Contains (out-ExprClosure x.old).inputs.inner.items q → TakesWithin (F.pre call.now) q.0 }
    requires last { ForSome (out-ExprClosure x.old).inputs.last (λ b. TakesWithin (F.pre call.now) b.value) }
    requires body { Takes (F.pre call.now) (out-ExprClosure x.old).body.value }
    ensures { ChangedIn (Change tree_of (F.post call.now)) (closure_of x.old) result (closure_of x.new) }
{
    let passed = Passed {
        call,
        errors: PhantomData,
    };
    punctuated_with_mut(&mut x.inputs, &passed, &within_mut::<R, F>)?;
    boxed_mut(&mut x.body, call)
}

/// `for p in a { .. }`
pub(crate) fn for_loop_mut<R: Drop, F: Fn(&mut Expr) -> Result<(), R>>(
    x: &mut ExprForLoop,
    call: &F,
) -> Result<(), R>
    requires pat { TakesWithin (F.pre call.now) (out-ExprForLoop x.old).pat.value }
    requires expr { Takes (F.pre call.now) (out-ExprForLoop x.old).expr.value }
    ensures { ChangedIn (Change tree_of (F.post call.now)) (for_loop_of x.old) result (for_loop_of x.new) }
{
    boxed_pattern_mut(&mut x.pat, call)?;
    boxed_mut(&mut x.expr, call)
}

/// `let p = a`
pub(crate) fn let_expr_mut<R: Drop, F: Fn(&mut Expr) -> Result<(), R>>(
    x: &mut ExprLet,
    call: &F,
) -> Result<(), R>
    requires pat { TakesWithin (F.pre call.now) (out-ExprLet x.old).pat.value }
    requires expr { Takes (F.pre call.now) (out-ExprLet x.old).expr.value }
    ensures { ChangedIn (Change tree_of (F.post call.now)) (let_of x.old) result (let_of x.new) }
{
    boxed_pattern_mut(&mut x.pat, call)?;
    boxed_mut(&mut x.expr, call)
}

/// `p if a => b`
fn arm_mut<R: Drop, F: Fn(&mut Expr) -> Result<(), R>>(x: &mut Arm, call: &F) -> Result<(), R>
    requires { TakesArm (F.pre call.now) x.old }
    ensures { ChangedArm (Change tree_of (F.post call.now)) (arm_of x.old) result (arm_of x.new) }
{
    pattern_mut(&mut x.pat, call)?;
    boxed_mut(&mut x.body, call)
}

/// The arms of a `match`.
#[tactic(auto, using(syn_visit_kinds::proofs::Upto::upto))]
fn arms_mut<R: Drop, F: Fn(&mut Expr) -> Result<(), R>>(
    xs: &mut Vec<Arm>,
    call: &F,
) -> Result<(), R>
    requires { (x : Arm) → Contains xs.old.items x → TakesArm (F.pre call.now) x }
    ensures { Changed (λ a r b. ChangedArm (Change tree_of (F.post call.now)) (arm_of a) r (arm_of b)) xs.old.items result xs.new.items }
{
    for x in xs.iter_mut() {
        arm_mut(x, call)?;
    }
    Ok(())
}

/// `match a { p => b, .. }`
pub(crate) fn match_expr_mut<R: Drop, F: Fn(&mut Expr) -> Result<(), R>>(
    x: &mut ExprMatch,
    call: &F,
) -> Result<(), R>
    requires expr { Takes (F.pre call.now) (out-ExprMatch x.old).expr.value }
    requires arms { (one : Arm) → Contains (out-ExprMatch x.old).arms.items one → TakesArm (F.pre call.now) one }
    ensures { ChangedIn (Change tree_of (F.post call.now)) (match_of x.old) result (match_of x.new) }
{
    boxed_mut(&mut x.expr, call)?;
    arms_mut(&mut x.arms, call)
}
