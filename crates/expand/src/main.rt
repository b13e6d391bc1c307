//! A step of a macro's expansion: builds an expression round the argument of the macro, without a text of it, and prints it where
//! the macro was called.
#![tactic(auto)]

ghost use Rattle.std.specs.Prelude.{◌≡◌, IfOk, string_bytes};
ghost use Rattle.syn_expr.specs.Prelude.{tree_of, IsTextOf};
ghost use Rattle.syn_expr.specs.Texts.{position_of};
ghost use Rattle.expand.specs.Expanded as spec;

use std::alloc::Global;
use std::io;
use syn_expr::op::BinOp;
use syn_expr::token::{Gt, Minus, Plus};
use syn_expr::{HeldExpr, Position, Result, expr_to_text};
use syn_expr_make::{
    arm, binary, closure, guarded, ident_pat, lit_int, match_expr, method_call, name, wild_pat,
};

/// `|x| x + 1`
fn increment(alloc: Global) -> Result<HeldExpr>
    ensures { IfOk result (λ x. tree_of x.expr ≡ spec.increment) }
{
    let x: HeldExpr = name(alloc, "x")?;
    let sum = binary(alloc, x, BinOp::Add(Plus::default()), lit_int(alloc, "1")?)?;
    let input = ident_pat(alloc, "x")?;
    closure(alloc, false, vec![in alloc; input]?, sum)
}

/// `a.map_or(0, |x| x + 1)`
fn mapped(alloc: Global, argument: HeldExpr) -> Result<HeldExpr>
    ensures { IfOk result (λ x. tree_of x.expr ≡ spec.mapped (tree_of argument.expr)) }
{
    let zero = lit_int(alloc, "0")?;
    let increment = increment(alloc)?;
    method_call(alloc, argument, "map_or", vec![in alloc; zero, increment]?)
}

/// `y > 0`
fn is_positive(alloc: Global) -> Result<HeldExpr>
    ensures { IfOk result (λ x. tree_of x.expr ≡ spec.is_positive) }
{
    let y: HeldExpr = name(alloc, "y")?;
    binary(alloc, y, BinOp::Gt(Gt::default()), lit_int(alloc, "0")?)
}

/// `match a { y if y > 0 => y, _ => 0 }`
fn positive_or_zero(alloc: Global, scrutinee: HeldExpr) -> Result<HeldExpr>
    ensures { IfOk result (λ x. tree_of x.expr ≡ spec.positive_or_zero (tree_of scrutinee.expr)) }
{
    let y: HeldExpr = name(alloc, "y")?;
    let zero: HeldExpr = lit_int(alloc, "0")?;
    let pat = guarded(alloc, ident_pat(alloc, "y")?, is_positive(alloc)?)?;
    let positive = arm(alloc, pat, y)?;
    let other = arm(alloc, wild_pat(alloc), zero)?;
    match_expr(alloc, scrutinee, vec![in alloc; positive, other]?)
}

/// `match a.map_or(0, |x| x + 1) { y if y > 0 => y, _ => 0 } - 1`
fn expanded(alloc: Global, argument: HeldExpr) -> Result<HeldExpr>
    ensures { IfOk result (λ x. tree_of x.expr ≡ spec.expanded (tree_of argument.expr)) }
{
    let found = positive_or_zero(alloc, mapped(alloc, argument)?)?;
    binary(
        alloc,
        found,
        BinOp::Sub(Minus::default()),
        lit_int(alloc, "1")?,
    )
}

/// The text of this expansion in a position.
fn expansion(alloc: Global, argument: HeldExpr, position: Position) -> Result<String>
    ensures { IfOk result (λ s. IsTextOf (position_of position) (spec.expanded (tree_of argument.expr)) (string_bytes s)) }
{
    let made = expanded(alloc, argument)?;
    expr_to_text(alloc, &made.expr, position)
}

/// An argument of the macro: `a + b` if `is_sum`, else `opt`.
fn argument(alloc: Global, is_sum: bool) -> Result<HeldExpr> {
    if !is_sum {
        return name(alloc, "opt");
    }
    let a: HeldExpr = name(alloc, "a")?;
    binary(alloc, a, BinOp::Add(Plus::default()), name(alloc, "b")?)
}

fn main(rt: HostRuntime) -> io::Result<()> {
    let alloc = rt.alloc();
    for is_sum in [false, true] {
        for (place, position) in [
            ("by itself", Position::Plain),
            ("as a statement", Position::Stmt),
        ] {
            let made = argument(alloc, is_sum);
            match made.and_then(|argument| expansion(alloc, argument, position)) {
                Ok(text) => println!(rt; "{place}: {text}")?,
                Err(e) => println!(rt; "{place}: {}", e.kind)?,
            }
        }
    }
    Ok(())
}
