//! Looking at expressions, where syn has `Visit` with a method for each kind of node: a function is called with each operand of
//! a node and with a state of the caller, and matches the kinds that it looks for. It passes itself on to go deeper:
//!
//! ```text
//! fn count_calls(expr: &Expr, count: &mut u64) -> Result<(), TooMany> {
//!     if let Expr::Call(_) = expr { .. }
//!     for_each_operand(expr, count, count_calls)
//! }
//! ```
//!
//! The operands of a node are the expressions in it, from left to right: those in its places, the values of its fields, the
//! guards in its patterns, and the bodies of its arms. The tokens of a block are none.

ghost use Rattle.std.specs.List as list;
ghost use Rattle.std.specs.List.{list_any};
ghost use Rattle.std.specs.Prelude.{◌≡◌, ◌<◌, Bool, IfErr, IfOk, Option, is_err};
ghost use Rattle.syn_expr_core.specs.View.{tree_of};
ghost use Rattle.syn_expr_core.specs.declared.expr.Expr.{Expr, size-Expr};
ghost use Rattle.syn_expr_spec.specs.Tree.{Tree};
ghost use Rattle.syn_visit_kinds.specs.Calls.{Asks, AsksWith, Tells, TellsWith};
ghost use Rattle.syn_visit_kinds.specs.Nodes.{all_nodes, operands_in};
ghost use Rattle.syn_visit_kinds.specs.Tested.{Added, Found, Tested, Told, ToldWith};
ghost use Rattle.syn_visit_kinds.specs.Walk.{Saw, SawWith, Sees, SeesWith, Shown, Walk};

use crate::members;
use crate::passed::Passed;
use std::alloc::Global;
use std::marker::PhantomData;
use syn_expr_core::expr::Expr;
use syn_tokens::error::{Error, ErrorKind};
use syn_visit_kinds::each::{
    call_expr, ends, if_expr, one, optional, punctuated, struct_expr, two,
};

/// Calls a function with each operand and with the state, from left to right.
///
/// The first error of the function ends the walk and is returned; there is no other. The function only has to take expressions
/// that are smaller than this one, so it may pass itself on.
pub fn for_each_operand<S, R: Drop, F: Fn(&Expr, &mut S) -> Result<(), R>>(
    expr: &Expr,
    state: &mut S,
    call: F,
) -> Result<(), R>
    requires { (child : Expr) → size-Expr child < size-Expr expr.now → Sees (F.pre call) child }
    ensures { Walk (Shown tree_of (Saw (F.post call))) (operands_in (tree_of expr.now)) state.old result state.new }
{
    match expr {
        Expr::Array(x) => punctuated(&x.elems, state, &call),
        Expr::Assign(x) => two(&x.left, &x.right, state, &call),
        Expr::Async(_) => Ok(()),
        Expr::Await(x) => one(&x.base, state, &call),
        Expr::Binary(x) => two(&x.left, &x.right, state, &call),
        Expr::Block(_) => Ok(()),
        Expr::Break(x) => optional(&x.expr, state, &call),
        Expr::Call(x) => call_expr(&x.func, &x.args, state, &call),
        Expr::Cast(x) => one(&x.expr, state, &call),
        Expr::Closure(x) => members::closure(x, state, &call),
        Expr::Const(_) => Ok(()),
        Expr::Continue(_) => Ok(()),
        Expr::Field(x) => one(&x.base, state, &call),
        Expr::ForLoop(x) => members::for_loop(x, state, &call),
        Expr::Group(x) => one(&x.expr, state, &call),
        Expr::If(x) => if_expr(&x.cond, &x.else_branch, state, &call),
        Expr::Index(x) => two(&x.expr, &x.index, state, &call),
        Expr::Infer(_) => Ok(()),
        Expr::Let(x) => members::let_expr(x, state, &call),
        Expr::Lit(_) => Ok(()),
        Expr::Loop(_) => Ok(()),
        Expr::Macro(_) => Ok(()),
        Expr::Match(x) => members::match_expr(x, state, &call),
        Expr::MethodCall(x) => call_expr(&x.receiver, &x.args, state, &call),
        Expr::Paren(x) => one(&x.expr, state, &call),
        Expr::Path(_) => Ok(()),
        Expr::Range(x) => ends(&x.start, &x.end, state, &call),
        Expr::RawAddr(x) => one(&x.expr, state, &call),
        Expr::Reference(x) => one(&x.expr, state, &call),
        Expr::Repeat(x) => two(&x.expr, &x.len, state, &call),
        Expr::Return(x) => optional(&x.expr, state, &call),
        Expr::Struct(x) => struct_expr(&x.fields, &x.rest, state, &call),
        Expr::Try(x) => one(&x.expr, state, &call),
        Expr::TryBlock(_) => Ok(()),
        Expr::Tuple(x) => punctuated(&x.elems, state, &call),
        Expr::Unary(x) => one(&x.expr, state, &call),
        Expr::Unsafe(_) => Ok(()),
        Expr::While(x) => one(&x.cond, state, &call),
        Expr::Yield(x) => optional(&x.expr, state, &call),
        Expr::Verbatim(_) => Ok(()),
    }
}

/// As `for_each_operand`, with something else that the function is called with and only reads.
pub fn for_each_operand_with<C, S, R: Drop, F: Fn(&Expr, &C, &mut S) -> Result<(), R>>(
    expr: &Expr,
    context: &C,
    state: &mut S,
    call: F,
) -> Result<(), R>
    requires { (child : Expr) → size-Expr child < size-Expr expr.now → SeesWith (F.pre call) context.now child }
    ensures { Walk (Shown tree_of (SawWith (F.post call) context.now)) (operands_in (tree_of expr.now)) state.old result state.new }
{
    for_each_operand(
        expr,
        state,
        |operand: &Expr, state: &mut S| -> Result<(), R>
            requires { SeesWith (F.pre call) context.now operand.now }
            ensures { SawWith (F.post call) context.entry.now operand.now state.old result state.new }
        { call(operand, context, state) },
    )
}

/// Calls a function with each node and with the state: the expression itself, then those inside it at any depth, each before
/// those inside it, from left to right.
///
/// The first error of the function ends the walk and is returned; there is no other.
pub fn for_each<S, R: Drop, F: Fn(&Expr, &mut S) -> Result<(), R>>(
    expr: &Expr,
    state: &mut S,
    call: &F,
) -> Result<(), R>
    requires { F.IsAlwaysCallable call.now }
    ensures { Walk (Shown tree_of (Saw (F.post call.now))) (all_nodes (tree_of expr.now)) state.old result state.new }
{
    let passed = Passed {
        call,
        errors: PhantomData,
    };
    nodes(expr, &passed, state)
}

/// As `for_each`, in a form that can pass itself on.
fn nodes<S, R: Drop, F: Fn(&Expr, &mut S) -> Result<(), R>>(
    expr: &Expr,
    passed: &Passed<'_, F, R>,
    state: &mut S,
) -> Result<(), R>
    requires { F.IsAlwaysCallable passed.now.call.now }
    ensures { Walk (Shown tree_of (Saw (F.post passed.now.call.now))) (all_nodes (tree_of expr.now)) state.old result state.new }
{
    see(expr, state, passed.call)?;
    for_each_operand_with(expr, passed, state, nodes)
}

/// Calls a function with an expression and with the state.
pub(crate) fn see<S, R: Drop, F: Fn(&Expr, &mut S) -> Result<(), R>>(
    expr: &Expr,
    state: &mut S,
    call: &F,
) -> Result<(), R>
    requires { Sees (F.pre call.now) expr.now }
    ensures { Saw (F.post call.now) expr.now state.old result state.new }
{
    call(expr, state)
}

/// An error if something was found, which ends a walk.
fn refuse_if(found: bool) -> Result<(), ()>
    ensures { is_err result ≡ found }
{
    if found { Err(()) } else { Ok(()) }
}

/// Whether an operand passes a test. Those after the first that passes aren't tested.
///
/// The test only has to take expressions that are smaller than this one, so it may pass itself on.
pub fn any_operand<F: Fn(&Expr) -> bool>(expr: &Expr, test: F) -> bool
    requires { (child : Expr) → size-Expr child < size-Expr expr.now → Asks (F.pre test) child }
    ensures tested { Tested (Told tree_of (F.post test)) (operands_in (tree_of expr.now)) result }
    ensures tree { (p : Tree → Bool) → Tells (λ y. p (tree_of y)) (F.post test) → result ≡ list_any p (operands_in (tree_of expr.now)) }
{
    let found = for_each_operand(
        expr,
        &mut (),
        |operand: &Expr, _state: &mut ()| -> Result<(), ()>
            requires { Asks (F.pre test) operand.now }
            ensures { Told (λ y. y) (F.post test) operand.now (is_err result) }
        { refuse_if(test(operand)) },
    );
    found.is_err()
}

/// As `any_operand`, with something else that the test is called with and only reads.
pub fn any_operand_with<C, F: Fn(&Expr, &C) -> bool>(expr: &Expr, context: &C, test: F) -> bool
    requires { (child : Expr) → size-Expr child < size-Expr expr.now → AsksWith (F.pre test) context.now child }
    ensures tested { Tested (ToldWith tree_of (F.post test) context.now) (operands_in (tree_of expr.now)) result }
    ensures tree { (p : Tree → Bool) → TellsWith (λ y. p (tree_of y)) (F.post test) context.now → result ≡ list_any p (operands_in (tree_of expr.now)) }
{
    any_operand(
        expr,
        |operand: &Expr| -> bool
            requires { AsksWith (F.pre test) context.now operand.now }
            ensures { ToldWith (λ y. y) (F.post test) context.entry.now operand.now result }
        { test(operand, context) },
    )
}

/// Whether a node passes a test: the expression itself, or one inside it at any depth. Those after the first that passes aren't
/// tested.
#[tactic(auto, using(syn_visit_kinds::proofs::Levels::any_level))]
pub fn any<F: Fn(&Expr) -> bool>(expr: &Expr, test: &F) -> bool
    requires { F.IsAlwaysCallable test.now }
    ensures tested { Tested (Told tree_of (F.post test.now)) (all_nodes (tree_of expr.now)) result }
    ensures tree { (p : Tree → Bool) → Tells (λ y. p (tree_of y)) (F.post test.now) → result ≡ list_any p (all_nodes (tree_of expr.now)) }
{
    test(expr) || any_operand_with(expr, test, any)
}

/// What a function finds at the nodes of an expression: at the expression itself, then at those inside it at any depth, each
/// before those inside it, from left to right. A node where it answers `None` is left out.
///
/// Refused only where memory runs out.
pub fn filter_map<T: Drop, F: Fn(&Expr) -> Option<T>>(
    alloc: Global,
    expr: &Expr,
    find: &F,
) -> Result<Vec<T>, Error>
    requires { F.IsAlwaysCallable find.now }
    ensures asked { IfOk result (λ v. Found (Told tree_of (F.post find.now)) (all_nodes (tree_of expr.now)) v.items) }
    ensures found { (g : Tree → Option T) → Tells (λ y. g (tree_of y)) (F.post find.now) → IfOk result (λ v. v.items ≡ list.filter_map g (all_nodes (tree_of expr.now))) }
    ensures memory { IfErr result (λ e. e.kind ≡ ErrorKind.OutOfMemory) }
{
    let mut found = Vec::new(alloc);
    for_each(
        expr,
        &mut found,
        &|node: &Expr, found: &mut Vec<T>| -> Result<(), Error>
            requires { F.IsAlwaysCallable find.now }
            ensures asked { IfOk result (λ _. Added (F.post find.entry.now) node.now found.old.items found.new.items) }
            ensures memory { IfErr result (λ e. e.kind ≡ ErrorKind.OutOfMemory) }
        {
            if let Some(one) = find(node) {
                found.push(one)?;
            }
            Ok(())
        },
    )?;
    Ok(found)
}
