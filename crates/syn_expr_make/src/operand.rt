//! Operands and other parts in boxes.

ghost use Rattle.std.specs.Prelude.{◌≡◌, IfErr, IfOk, option_map};

use std::alloc::{AllocError, Global};
use syn_expr_parse::known::{Held, HoldsExpr, LetGo, given_up};
use syn_tokens::error::{Error, ErrorKind, Result};

/// The value in a box of its own.
pub(crate) fn in_box<T: LetGo>(alloc: Global, value: T) -> Result<Held<Box<T>>>
    ensures made { IfOk result (λ x. x.value.value ≡ value) }
    ensures memory { IfErr result (λ x. x.kind ≡ ErrorKind.OutOfMemory) }
{
    match Box::new(alloc, value) {
        Ok(value) => Ok(Held { value }),
        Err(failed) => Err(given_up(failed.value, Error::from(AllocError))),
    }
}

/// The value in a box of its own, if it is there.
pub(crate) fn in_box_or_none<T: LetGo>(
    alloc: Global,
    value: Option<T>,
) -> Result<Option<Held<Box<T>>>>
    ensures made { IfOk result (λ x. option_map (λ b. b.value.value) x ≡ value) }
    ensures memory { IfErr result (λ x. x.kind ≡ ErrorKind.OutOfMemory) }
{
    match value {
        None => Ok(None),
        Some(value) => Ok(Some(in_box(alloc, value)?)),
    }
}

/// The operand in a box of its own.
pub(crate) fn operand<H: HoldsExpr>(alloc: Global, expr: H) -> Result<Held<Box<H::Expr>>>
    ensures made { IfOk result (λ x. x.value.value ≡ H.held expr) }
    ensures memory { IfErr result (λ x. x.kind ≡ ErrorKind.OutOfMemory) }
{
    in_box(alloc, expr.into_expr())
}

/// The operand in a box of its own, if it is there.
pub(crate) fn operand_or_none<H: HoldsExpr>(
    alloc: Global,
    expr: Option<H>,
) -> Result<Option<Held<Box<H::Expr>>>>
    ensures made { IfOk result (λ x. option_map (λ b. b.value.value) x ≡ option_map H.held expr) }
    ensures memory { IfErr result (λ x. x.kind ≡ ErrorKind.OutOfMemory) }
{
    in_box_or_none(alloc, expr.map(|expr| expr.into_expr()))
}

/// The box of a part that may be there.
pub(crate) fn box_or_none<T: LetGo>(part: Option<Held<Box<T>>>) -> Option<Box<T>>
    ensures { option_map (λ b. b.value) result ≡ option_map (λ b. b.value.value) part }
{
    part.map(|part| part.into_inner())
}
