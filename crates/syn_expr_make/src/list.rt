//! Lists of expressions, and of parts that are held.

ghost use Rattle.std.specs.Prelude.{◌≡◌, false, length, map, IfErr, IfOk};
ghost use Rattle.syn_expr_ast.specs.View.{trails, values};
ghost use Rattle.syn_expr_make.specs.Held.{is_one};
ghost use Rattle.syn_lower_leaves.specs.View.{is_some_pair};

use crate::operand::{box_or_none, in_box_or_none};
use std::alloc::Global;
use syn_expr_parse::known::{Held, HoldsExpr, LetGo};
use syn_lower::punctuated::Punctuated;
use syn_tokens::error::{ErrorKind, Result};
use syn_tokens::token::Comma;

/// What is made of each value of a list. No memory is taken once something was made.
fn each<S: Drop, T, F: Fn(S) -> T>(alloc: Global, all: Vec<S>, make: &F) -> Result<Vec<T>>
    requires { F.IsAlwaysCallable make.now }
    ensures made { IfOk result (λ v. (of : S → T) → ((x : S) (y : T) → F.post make.now x y → y ≡ of x) → v.items ≡ map of all.items) }
    ensures len { IfOk result (λ v. length v.items ≡ length all.items) }
    ensures memory { IfErr result (λ x. x.kind ≡ ErrorKind.OutOfMemory) }
{
    let mut made = Vec::with_capacity(alloc, all.len())?;
    for value in all {
        made.push_reserved(make(value));
    }
    Ok(made)
}

/// What is made of each value of a list, with commas between.
fn separated_by<S: Drop, T: LetGo, F: Fn(S) -> T>(
    alloc: Global,
    mut all: Vec<S>,
    make: &F,
) -> Result<Punctuated<T, Comma>>
    requires { F.IsAlwaysCallable make.now }
    ensures values { IfOk result (λ p. (of : S → T) → ((x : S) (y : T) → F.post make.now x y → y ≡ of x) → values p ≡ map of all.items) }
    ensures trails { IfOk result (λ p. trails p ≡ false) }
    ensures memory { IfErr result (λ x. x.kind ≡ ErrorKind.OutOfMemory) }
{
    let comma = Comma::default();
    let last = in_box_or_none(alloc, all.pop().map(|value| make(value)))?;
    let inner = each(alloc, all, &|value: S| (make(value), comma))?;
    Ok(Punctuated {
        inner,
        last: box_or_none(last),
    })
}

/// Expressions with commas between.
pub(crate) fn separated<H: HoldsExpr + Drop>(
    alloc: Global,
    exprs: Vec<H>,
) -> Result<Punctuated<H::Expr, Comma>>
    ensures values { IfOk result (λ p. values p ≡ map H.held exprs.items) }
    ensures trails { IfOk result (λ p. trails p ≡ false) }
    ensures memory { IfErr result (λ x. x.kind ≡ ErrorKind.OutOfMemory) }
{
    separated_by(alloc, exprs, &|expr: H| expr.into_expr())
}

/// Expressions with a comma after each.
fn terminated<H: HoldsExpr + Drop>(
    alloc: Global,
    exprs: Vec<H>,
) -> Result<Punctuated<H::Expr, Comma>>
    ensures values { IfOk result (λ p. values p ≡ map H.held exprs.items) }
    ensures trails { IfOk result (λ p. trails p ≡ is_some_pair exprs.items) }
    ensures memory { IfErr result (λ x. x.kind ≡ ErrorKind.OutOfMemory) }
{
    let comma = Comma::default();
    let inner = each(alloc, exprs, &|expr: H| (expr.into_expr(), comma))?;
    Ok(Punctuated { inner, last: None })
}

/// Expressions with commas between, and one after an expression that is alone.
pub(crate) fn with_comma_if_one<H: HoldsExpr + Drop>(
    alloc: Global,
    exprs: Vec<H>,
) -> Result<Punctuated<H::Expr, Comma>>
    ensures values { IfOk result (λ p. values p ≡ map H.held exprs.items) }
    ensures trails { IfOk result (λ p. trails p ≡ is_one exprs.items) }
    ensures memory { IfErr result (λ x. x.kind ≡ ErrorKind.OutOfMemory) }
{
    if exprs.len() == 1 {
        terminated(alloc, exprs)
    } else {
        separated(alloc, exprs)
    }
}

/// Parts with commas between.
pub(crate) fn separated_parts<T: LetGo>(
    alloc: Global,
    parts: Vec<Held<T>>,
) -> Result<Punctuated<T, Comma>>
    ensures values { IfOk result (λ p. values p ≡ map (λ x. x.value) parts.items) }
    ensures trails { IfOk result (λ p. trails p ≡ false) }
    ensures memory { IfErr result (λ x. x.kind ≡ ErrorKind.OutOfMemory) }
{
    separated_by(alloc, parts, &Held::into_inner)
}

/// Parts without commas.
pub(crate) fn all_parts<T: LetGo>(alloc: Global, parts: Vec<Held<T>>) -> Result<Vec<T>>
    ensures made { IfOk result (λ v. v.items ≡ map (λ x. x.value) parts.items) }
    ensures memory { IfErr result (λ x. x.kind ≡ ErrorKind.OutOfMemory) }
{
    each(alloc, parts, &Held::into_inner)
}
