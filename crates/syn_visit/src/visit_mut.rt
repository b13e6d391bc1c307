//! Changing expressions in place, where syn has `VisitMut` and `Fold` with a method for each kind of node: a function is called
//! with each operand of a node, and changes those of the kinds that it matches. It passes itself on to go deeper:
//!
//! ```text
//! fn without_parens(expr: &mut Expr) -> Result<()> {
//!     for_each_operand_mut(expr, without_parens)?;
//!     if let Expr::Paren(_) = expr { .. }
//!     Ok(())
//! }
//! ```
//!
//! `rewrite` does the same with a function for one node, which is called for those inside first.

ghost use Rattle.std.specs.Prelude.{◌≡◌, ◌<◌, ◌∷◌, [], IfErr, IfOk};
ghost use Rattle.syn_expr_core.specs.View.{tree_of};
ghost use Rattle.syn_expr_core.specs.declared.expr.Expr.{Expr, size-Expr};
ghost use Rattle.syn_expr_spec.specs.Tree.{Tree};
ghost use Rattle.syn_visit_kinds.specs.Calls.{Leaves, LeavesWith, Refused, RefusedWith, Takes, TakesWith};
ghost use Rattle.syn_visit_kinds.specs.Changes.{Change, ChangeWith, ChangedIn, Rewritten};
ghost use Rattle.syn_visit_kinds.specs.Nodes.{map_operands, rewrite_tree};

use crate::members;
use crate::passed::Passed;
use std::marker::PhantomData;
use syn_expr_core::expr::Expr;
use syn_visit_kinds::{atom, block, jump, operation, structure, trailer};

/// Calls a function with each operand, which it may change, from left to right.
///
/// The first error of the function ends the walk and is returned; there is no other. Each operand before it is as its call left
/// it, that of the error too, and all after it are as they were. The rest of the expression is as it was, always.
/// The function only has to take expressions that are smaller than this one, so it may pass itself on.
pub fn for_each_operand_mut<R: Drop, F: Fn(&mut Expr) -> Result<(), R>>(
    expr: &mut Expr,
    call: F,
) -> Result<(), R>
    requires { (child : Expr) → size-Expr child < size-Expr expr.old → Takes (F.pre call) child }
    ensures changed { ChangedIn (Change tree_of (F.post call)) (tree_of expr.old) result (tree_of expr.new) }
    ensures tree { (f : Tree → Tree) → Leaves tree_of f (F.post call) → IfOk result (λ _. tree_of expr.new ≡ map_operands f (tree_of expr.old)) }
    ensures refused { IfErr result (Refused (F.post call)) }
{
    operands_mut(expr, &call)
}

/// As `for_each_operand_mut`, with a borrowed function.
fn operands_mut<R: Drop, F: Fn(&mut Expr) -> Result<(), R>>(
    expr: &mut Expr,
    call: &F,
) -> Result<(), R>
    requires { (child : Expr) → size-Expr child < size-Expr expr.old → Takes (F.pre call.now) child }
    ensures { ChangedIn (Change tree_of (F.post call.now)) (tree_of expr.old) result (tree_of expr.new) }
{
    match expr {
        Expr::Array(x) => atom::array_mut(x, call),
        Expr::Assign(x) => operation::assign_mut(x, call),
        Expr::Async(_) => Ok(()),
        Expr::Await(x) => trailer::await_expr_mut(x, call),
        Expr::Binary(x) => operation::binary_mut(x, call),
        Expr::Block(_) => Ok(()),
        Expr::Break(x) => jump::break_expr_mut(x, call),
        Expr::Call(x) => trailer::call_expr_mut(x, call),
        Expr::Cast(x) => operation::cast_mut(x, call),
        Expr::Closure(x) => members::closure_mut(x, call),
        Expr::Const(_) => Ok(()),
        Expr::Continue(_) => Ok(()),
        Expr::Field(x) => trailer::field_mut(x, call),
        Expr::ForLoop(x) => members::for_loop_mut(x, call),
        Expr::Group(x) => atom::group_mut(x, call),
        Expr::If(x) => block::if_expr_mut(x, call),
        Expr::Index(x) => trailer::index_mut(x, call),
        Expr::Infer(_) => Ok(()),
        Expr::Let(x) => members::let_expr_mut(x, call),
        Expr::Lit(_) => Ok(()),
        Expr::Loop(_) => Ok(()),
        Expr::Macro(_) => Ok(()),
        Expr::Match(x) => members::match_expr_mut(x, call),
        Expr::MethodCall(x) => trailer::method_call_mut(x, call),
        Expr::Paren(x) => atom::paren_mut(x, call),
        Expr::Path(_) => Ok(()),
        Expr::Range(x) => operation::range_mut(x, call),
        Expr::RawAddr(x) => operation::raw_addr_mut(x, call),
        Expr::Reference(x) => operation::reference_mut(x, call),
        Expr::Repeat(x) => atom::repeat_mut(x, call),
        Expr::Return(x) => jump::return_expr_mut(x, call),
        Expr::Struct(x) => structure::struct_expr_mut(x, call),
        Expr::Try(x) => trailer::try_expr_mut(x, call),
        Expr::TryBlock(_) => Ok(()),
        Expr::Tuple(x) => atom::tuple_mut(x, call),
        Expr::Unary(x) => operation::unary_mut(x, call),
        Expr::Unsafe(_) => Ok(()),
        Expr::While(x) => block::while_expr_mut(x, call),
        Expr::Yield(x) => jump::yield_expr_mut(x, call),
        Expr::Verbatim(_) => Ok(()),
    }
}

/// As `for_each_operand_mut`, with something else that the function is called with and only reads.
pub fn for_each_operand_mut_with<C, R: Drop, F: Fn(&mut Expr, &C) -> Result<(), R>>(
    expr: &mut Expr,
    context: &C,
    call: F,
) -> Result<(), R>
    requires { (child : Expr) → size-Expr child < size-Expr expr.old → TakesWith (F.pre call) context.now child }
    ensures changed { ChangedIn (ChangeWith tree_of (F.post call) context.now) (tree_of expr.old) result (tree_of expr.new) }
    ensures tree { (f : Tree → Tree) → LeavesWith tree_of f (F.post call) context.now → IfOk result (λ _. tree_of expr.new ≡ map_operands f (tree_of expr.old)) }
    ensures refused { IfErr result (RefusedWith (F.post call) context.now) }
{
    for_each_operand_mut(
        expr,
        |operand: &mut Expr| -> Result<(), R>
            requires { TakesWith (F.pre call) context.now operand.old }
            ensures { ChangeWith (λ y. y) (F.post call) context.entry.now operand.old result operand.new }
        { call(operand, context) },
    )
}

/// Calls a function with each node, which it may change: those inside at any depth, from left to right, each after those inside
/// it, and the expression itself at last.
///
/// The first error of the function ends the walk and is returned; there is no other. Each node before it is as its call left it,
/// that of the error too, and all after it are as they were.
pub fn rewrite<R: Drop, F: Fn(&mut Expr) -> Result<(), R>>(
    expr: &mut Expr,
    step: &F,
) -> Result<(), R>
    requires { F.IsAlwaysCallable step.now }
    ensures changed { Rewritten (Change tree_of (F.post step.now)) (tree_of expr.old ∷ []) result (tree_of expr.new ∷ []) }
    ensures tree { (f : Tree → Tree) → Leaves tree_of f (F.post step.now) → IfOk result (λ _. tree_of expr.new ≡ rewrite_tree f (tree_of expr.old)) }
    ensures refused { IfErr result (Refused (F.post step.now)) }
{
    let passed = Passed {
        call: step,
        errors: PhantomData,
    };
    nodes(expr, &passed)
}

/// As `rewrite`, in a form that can pass itself on.
fn nodes<R: Drop, F: Fn(&mut Expr) -> Result<(), R>>(
    expr: &mut Expr,
    passed: &Passed<'_, F, R>,
) -> Result<(), R>
    requires { F.IsAlwaysCallable passed.now.call.now }
    ensures { Rewritten (Change tree_of (F.post passed.now.call.now)) (tree_of expr.old ∷ []) result (tree_of expr.new ∷ []) }
{
    for_each_operand_mut_with(expr, passed, nodes)?;
    (passed.call)(expr)
}
