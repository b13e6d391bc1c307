//! A lint: tells of each expression whether it compares a value with itself.
#![tactic(auto)]

ghost use Rattle.std.specs.Prelude.{◌≡◌, ◌⊎◌, IfErr, IfOk, chars, true};
ghost use Rattle.syn_expr.specs.Prelude.{tree_of, NothingStands};
ghost use Rattle.lint.specs.Lint.{ComparesWithItself, IsVerdictOn};

use std::alloc::Global;
use std::io;
use syn_expr::{ErrorKind, Expr, Precedence, PrecedenceOf, Result, parse_str};
use syn_laws::same::equal_expressions;

/// Whether the same expression is on both sides of a comparison.
fn compares_with_itself(expr: &Expr) -> bool
    ensures sound { result ≡ true → ComparesWithItself (tree_of expr.now) }
    ensures complete { ComparesWithItself (tree_of expr.now) → result ≡ true }
{
    // That `==` of expressions is equality of their trees.
    equal_expressions();
    match expr {
        Expr::Binary(operation) => match Precedence::of_binop(&operation.op) {
            Precedence::Compare => *operation.left == *operation.right,
            _ => false,
        },
        _ => false,
    }
}

/// Whether the expression of a text compares a value with itself.
fn verdict(alloc: Global, text: &str) -> Result<bool>
    ensures value { IfOk result (λ b. IsVerdictOn (chars text.now) b) }
    ensures refused { IfErr result (λ e. (e.kind ≡ ErrorKind.OutOfMemory) ⊎ NothingStands (chars text.now)) }
{
    let expr = parse_str::<Expr>(alloc, text)?;
    Ok(compares_with_itself(&expr))
}

fn main(rt: HostRuntime) -> io::Result<()> {
    for text in [
        "a.b[0] < a.b[0]",
        "f(x) == f(x)",
        "a < b",
        "a + a",
        "a == a == a",
    ] {
        match verdict(rt.alloc(), text) {
            Ok(true) => println!(rt; "{text} compares a value with itself")?,
            Ok(false) => println!(rt; "{text} is fine")?,
            Err(e) => {
                let (lo, hi, kind) = (e.span.lo, e.span.hi, e.kind);
                println!(rt; "{text} is refused at {lo}..{hi}: {kind}")?;
            }
        }
    }
    Ok(())
}
