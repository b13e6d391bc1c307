//! Reads operations, swaps the operands of each, and prints it: parentheses are where they are needed.
#![tactic(auto)]

ghost use Rattle.std.specs.Prelude.{◌≡◌, ◌⊎◌, IfErr, IfOk, chars, string_bytes};
ghost use Rattle.syn_expr.specs.Prelude.{tree_of, NothingStands};
ghost use Rattle.example.specs.Swapped.{IsSwapped, swapped_tree};

use std::alloc::Global;
use std::io;
use std::mem::swap;
use syn_expr::{ErrorKind, Expr, Position, Result, expr_to_text, parse_str};

/// Swaps the operands of an operation. What is no operation stays as it is.
fn swap_operands(expr: &mut Expr)
    ensures { tree_of expr.new ≡ swapped_tree (tree_of expr.old) }
{
    if let Expr::Binary(operation) = expr {
        swap(&mut operation.left, &mut operation.right);
    }
}

/// The text of an expression, with the operands swapped where it is an operation.
fn swapped(alloc: Global, text: &str) -> Result<String>
    ensures value { IfOk result (λ s. IsSwapped (chars text.now) (string_bytes s)) }
    ensures refused { IfErr result (λ e. (e.kind ≡ ErrorKind.OutOfMemory) ⊎ NothingStands (chars text.now)) }
{
    let mut expr = parse_str::<Expr>(alloc, text)?;
    swap_operands(&mut expr);
    expr_to_text(alloc, &expr, Position::Plain)
}

fn main(rt: HostRuntime) -> io::Result<()> {
    for text in ["a - b", "a - b - c", "return + 1", "a - b c"] {
        match swapped(rt.alloc(), text) {
            Ok(swapped) => println!(rt; "{text} becomes {swapped}")?,
            Err(e) => {
                let (lo, hi, kind) = (e.span.lo, e.span.hi, e.kind);
                println!(rt; "{text} is refused at {lo}..{hi}: {kind}")?;
            }
        }
    }
    Ok(())
}
