//! Simplifies expressions: at each node that was read, `!(a == b)` becomes `a != b`, and parentheses that aren't needed are gone.
//! What is in the braces of a block is kept as tokens, and stays.
#![tactic(auto)]

ghost use Rattle.std.specs.Prelude.{◌≡◌, ◌⊎◌, IfErr, IfOk, chars, string_bytes};
ghost use Rattle.syn_expr.specs.Prelude.{attrs_of, bin_kind, un_kind, tree_of, NothingStands};
ghost use Rattle.simplify.specs.Simplified as spec;
ghost use Rattle.simplify.specs.Simplified.{IsSimplified, simplified};

use std::alloc::Global;
use std::io;
use std::mem::replace;
use syn_expr::op::{BinOp, UnOp};
use syn_expr::{
    Attribute, ErrorKind, Expr, ExprBinary, Position, Result, expr_to_text, flatten_in_place,
    parse_str,
};
use syn_tokens::token::Ne;
use syn_visit::rewrite;

/// Whether it is `!` before `a == b`, both without attributes.
#[tactic(auto, unfolding(syn_expr_ast::specs::Attrs::attrs_of))]
fn negates_equality(attrs: &Vec<Attribute>, op: &UnOp, equality: &ExprBinary) -> bool
    ensures { result ≡ spec.negates (attrs_of attrs.now) (un_kind op.now) (attrs_of equality.now.attrs) (bin_kind equality.now.op) }
{
    attrs.is_empty()
        && matches!(op, UnOp::Not(_))
        && equality.attrs.is_empty()
        && matches!(equality.op, BinOp::Eq(_))
}

/// Makes `a != b` of `!(a == b)` whose parentheses are gone. All else stays as it is.
fn simplify(alloc: Global, expr: &mut Expr)
    ensures { tree_of expr.new ≡ simplified (tree_of expr.old) }
{
    if let Expr::Unary(negation) = expr {
        if let Expr::Binary(equality) = &mut *negation.expr {
            if negates_equality(&negation.attrs, &negation.op, equality) {
                equality.op = BinOp::Ne(Ne::default());
                let unequal = replace(&mut *negation.expr, Expr::placeholder(alloc));
                drop(replace(expr, unequal));
            }
        }
    }
}

/// The text of an expression after each of its nodes was simplified.
fn simplified_text(alloc: Global, text: &str) -> Result<String>
    ensures value { IfOk result (λ s. IsSimplified (chars text.now) (string_bytes s)) }
    ensures refused { IfErr result (λ e. (e.kind ≡ ErrorKind.OutOfMemory) ⊎ NothingStands (chars text.now)) }
{
    let mut expr = parse_str::<Expr>(alloc, text)?;
    flatten_in_place(&mut expr)?;
    rewrite(
        &mut expr,
        &|expr: &mut Expr| -> Result<()>
            ensures tree { IfOk result (λ _. tree_of expr.new ≡ simplified (tree_of expr.old)) }
            ensures done { IfErr result (λ e. ⊥) }
        {
            simplify(alloc, expr);
            Ok(())
        },
    )?;
    expr_to_text(alloc, &expr, Position::Plain)
}

fn main(rt: HostRuntime) -> io::Result<()> {
    for text in [
        "!(a == b)",
        "!(x.y == f(z)) && (c)",
        "if !((a == !(b == c))) { d } else { e }",
        "(a + b) * (c * d)",
        "!a == b",
        "!(a < b)",
        "!(a == b",
    ] {
        match simplified_text(rt.alloc(), text) {
            Ok(simplified) => println!(rt; "{text} becomes {simplified}")?,
            Err(e) => {
                let (lo, hi, kind) = (e.span.lo, e.span.hi, e.kind);
                println!(rt; "{text} is refused at {lo}..{hi}: {kind}")?;
            }
        }
    }
    Ok(())
}
