//! Folds constants: tells the value of each expression that is made of integers and arithmetic alone.
#![tactic(auto)]

ghost use Rattle.std.specs.Prelude.{◌≡◌, ◌⊎◌, IfErr, IfOk, chars, option_and_then};
ghost use Rattle.syn_expr.specs.Prelude.{lit_of, bin_kind, un_kind, tree_of, NothingStands};
ghost use Rattle.fold.specs.Fold as spec;

use std::alloc::Global;
use std::io;
use syn_expr::op::{BinOp, UnOp};
use syn_expr::{ErrorKind, Expr, Lit, Result, parse_str};

/// The value of a literal, if it is an integer that has no suffix and fits in an `i64`.
fn literal_value(lit: &Lit) -> Option<i64>
    ensures { result ≡ spec.literal_value (lit_of lit.now) }
{
    match lit {
        Lit::Int(number) if number.suffix().is_empty() => number.base10_parse().ok(),
        _ => None,
    }
}

/// The value of an operand after a prefix operator, if it has one and does not overflow.
fn prefix_value(op: &UnOp, operand: Option<i64>) -> Option<i64>
    ensures { result ≡ option_and_then (spec.prefix_value (un_kind op.now)) operand }
{
    match op {
        UnOp::Neg(_) => operand?.checked_neg(),
        UnOp::Deref(_) | UnOp::Not(_) => None,
    }
}

/// The value of a binary operation, if its operands have one and it neither overflows nor divides by zero.
fn binary_value(op: &BinOp, left: Option<i64>, right: Option<i64>) -> Option<i64>
    ensures { result ≡ spec.combined (spec.binary_value (bin_kind op.now)) left right }
{
    let (left, right) = (left?, right?);
    match op {
        BinOp::Add(_) => left.checked_add(right),
        BinOp::Sub(_) => left.checked_sub(right),
        BinOp::Mul(_) => left.checked_mul(right),
        BinOp::Div(_) => left.checked_div(right),
        BinOp::Rem(_) => left.checked_rem(right),
        _ => None,
    }
}

/// The value of an expression of integers, parentheses, `-`, and `+`, `-`, `*`, `/` and `%`, whatever attributes it has. No other
/// expression has a value, nor has one in which an operation overflows or divides by zero, or a literal does not fit in an
/// `i64`. So `-9223372036854775808` has none, other than in Rust.
#[tactic(auto, using(crate::proofs::Values::kinds))]
fn value(expr: &Expr) -> Option<i64>
    ensures { result ≡ spec.value_of (tree_of expr.now) }
{
    match expr {
        Expr::Lit(literal) => literal_value(&literal.lit),
        Expr::Paren(paren) => value(&paren.expr),
        Expr::Unary(operation) => prefix_value(&operation.op, value(&operation.expr)),
        Expr::Binary(operation) => {
            let left = value(&operation.left);
            binary_value(&operation.op, left, value(&operation.right))
        }
        _ => None,
    }
}

/// The value of the expression that a text is.
fn value_of_text(alloc: Global, text: &str) -> Result<Option<i64>>
    ensures value { IfOk result (λ v. spec.IsValueOf (chars text.now) v) }
    ensures refused { IfErr result (λ e. (e.kind ≡ ErrorKind.OutOfMemory) ⊎ NothingStands (chars text.now)) }
{
    let expr = parse_str::<Expr>(alloc, text)?;
    Ok(value(&expr))
}

fn main(rt: HostRuntime) -> io::Result<()> {
    for text in [
        "1 + 2 * 3",
        "(1 + 2) * 3",
        "-(7 / 2)",
        "-7 % 3",
        "0xff_ff - 0b1",
        "1 / 0",
        "9223372036854775807 + 1",
        "1 + 2u8",
        "a + 1",
        "1 +",
    ] {
        match value_of_text(rt.alloc(), text) {
            Ok(Some(value)) => println!(rt; "{text} is {value}")?,
            Ok(None) => println!(rt; "{text} has no value")?,
            Err(e) => {
                let (lo, hi, kind) = (e.span.lo, e.span.hi, e.kind);
                println!(rt; "{text} is refused at {lo}..{hi}: {kind}")?;
            }
        }
    }
    Ok(())
}
