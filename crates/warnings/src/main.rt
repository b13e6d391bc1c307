//! Warns of two things, at each expression that is read: a clone that is cloned, and a `return` in a closure. What is in the
//! braces of a block is kept as tokens, and nothing there is looked at.
#![tactic(auto, using(crate::proofs::Nodes::kinds))]

ghost use Rattle.std.specs.Prelude.{◌≡◌, ◌⊎◌, ℕ, List, IfErr, IfOk, chars};
ghost use Rattle.syn_expr.specs.Prelude.{tree_of, NothingStands};
ghost use Rattle.warnings.specs.Warnings as spec;

use std::alloc::Global;
use syn_expr::{ErrorKind, Expr, Result, Span, parse_str};
use syn_report::{report, report_at};
use syn_visit::{any, filter_map};

/// A warning, at its place in the text. Contracts see what it says.
#[derive(Drop)]
struct Warning {
    message: &'static str,
    span: Span,
}

impl std::marker::Model for Warning {
    ghost Value = { List ℕ };

    ghost view = { λ w. w.message.now };
}

/// Whether it calls a method `clone`.
fn is_clone(expr: &Expr) -> bool
    ensures { result ≡ spec.is_clone (tree_of expr.now) }
{
    match expr {
        Expr::MethodCall(call) => call.method.is("clone"),
        _ => false,
    }
}

/// Whether it is `x.clone().clone()`.
fn is_cloned_twice(expr: &Expr) -> bool
    ensures { result ≡ spec.is_cloned_twice (tree_of expr.now) }
{
    match expr {
        Expr::MethodCall(call) => call.method.is("clone") && is_clone(&call.receiver),
        _ => false,
    }
}

/// Whether it is `return`, with a value or without.
fn is_return(expr: &Expr) -> bool
    ensures { result ≡ spec.behind_attributes spec.is_return (tree_of expr.now) }
{
    matches!(expr, Expr::Return(_))
}

/// Whether it is a closure.
fn is_closure(expr: &Expr) -> bool
    ensures { result ≡ spec.behind_attributes spec.is_closure (tree_of expr.now) }
{
    matches!(expr, Expr::Closure(_))
}

/// Whether it is a closure with a `return` in it.
fn returns_in_closure(expr: &Expr) -> bool
    ensures { result ≡ spec.returns_in_closure (tree_of expr.now) }
{
    is_closure(expr) && any(expr, &is_return)
}

/// Where a warning of a node is: at the name of the method, or where the closure begins.
fn place(expr: &Expr) -> Span {
    match expr {
        Expr::MethodCall(call) => call.method.span(),
        Expr::Closure(closure) => closure.inputs_begin.spans[0],
        _ => Span::call_site(),
    }
}

/// What there is to warn of at an expression.
fn warning_at(expr: &Expr) -> Option<Warning>
    ensures { result ≡ spec.warning_at (tree_of expr.now) }
{
    let message = if is_cloned_twice(expr) {
        "a clone is cloned"
    } else if returns_in_closure(expr) {
        "there is a `return` in a closure"
    } else {
        return None;
    };
    let span = place(expr);
    Some(Warning { message, span })
}

/// What there is to warn of in the expression of a text: at each node before those in it, from left to right.
fn warnings(alloc: Global, text: &str) -> Result<Vec<Warning>>
    ensures value { IfOk result (λ w. spec.AreWarningsOf (chars text.now) w.items) }
    ensures refused { IfErr result (λ e. (e.kind ≡ ErrorKind.OutOfMemory) ⊎ NothingStands (chars text.now)) }
{
    let expr = parse_str::<Expr>(alloc, text)?;
    filter_map(alloc, &expr, &warning_at)
}

fn main(rt: HostRuntime) -> std::io::Result<()> {
    for text in [
        "f(a.clone(b.clone()), || b.clone().clone().clone())",
        "a.iter()\n    .map(|x| match x {\n        Some(y) => y.clone().clone(),\n        None => return 0,\n    })",
        "a.iter()\n    .map(|x return 0)",
    ] {
        println!(rt; "{text}")?;
        match warnings(rt.alloc(), text) {
            Ok(found) => {
                for warning in &found {
                    let (span, message) = (warning.span, warning.message);
                    let shown = report_at(rt.alloc(), text, span, "warning", message)?;
                    println!(rt; "{shown}")?;
                }
            }
            Err(e) => println!(rt; "{}", report(rt.alloc(), text, &e)?)?,
        }
    }
    Ok(())
}
