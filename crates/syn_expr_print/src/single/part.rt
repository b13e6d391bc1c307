//! Parts of expressions: a field of a struct expression, and an arm of a `match` (Rust Reference, "Struct expressions", "`match`
//! expressions").

ghost use Rattle.std.specs.Prelude.{◌≡◌, ◌++◌, IfOk, OnOk};
ghost use Rattle.syn_expr_fixup.specs.Below.{arm_below, field_below};
ghost use Rattle.syn_expr_ast.specs.Printed.{field_spelled};
ghost use Rattle.syn_expr_ast.specs.View.{field_value_of};
ghost use Rattle.syn_expr_print.specs.Placed.{arm_spelled, comma_if};
ghost use Rattle.syn_expr_print.specs.Printing.{EndsWith};
ghost use Rattle.syn_tokens.specs.Input.{IsFront};

use crate::print::{HasPrinter, Summaries, node};
use crate::{match_expr, structure};
use std::alloc::AllocError;
use syn_expr_ast::put::PutResult;
use syn_expr_ast::structure::FieldValueOf;
use syn_expr_fixup::{collect_arm, collect_field};
use syn_tokens::tree::TokenStream;

/// The summaries of the value of a field.
#[tactic(auto, using(crate::proofs::Stacks::ends_all))]
fn summarize_field<E: HasPrinter>(
    tokens: &TokenStream,
    field: &FieldValueOf<E>,
) -> Result<Summaries, AllocError>
    ensures { IfOk result (λ n. EndsWith n.left.items (field_below (field_value_of E.tree field.now))) }
{
    let mut visits = 0;
    let mut left = Vec::new(tokens.alloc());
    collect_field(&mut left, &mut visits, field)?;
    Ok(Summaries { left, visits })
}

/// The summaries of the value of an arm, and of its guard.
#[tactic(auto, using(crate::proofs::Stacks::ends_all))]
fn summarize_arm<E: HasPrinter>(tokens: &TokenStream, arm: &E::Arm) -> Result<Summaries, AllocError>
    ensures { IfOk result (λ n. EndsWith n.left.items (arm_below (E.Arm.view arm.now))) }
{
    let mut visits = 0;
    let mut left = Vec::new(tokens.alloc());
    collect_arm::<E>(&mut left, &mut visits, arm)?;
    Ok(Summaries { left, visits })
}

/// Prints a field: its attributes and its name or index, and after a colon its value. No comma comes after it.
#[tactic(auto, using(syn_tokens::proofs::Fronts::fronts))]
pub fn field<E: HasPrinter>(tokens: &mut TokenStream, field: &FieldValueOf<E>) -> PutResult
    ensures text { OnOk result (tokens.new ≡ tokens.old ++ field_spelled (field_value_of E.tree field.now)) }
    ensures front { IsFront tokens.old tokens.new }
{
    let mut summaries = summarize_field(tokens, field)?;
    structure::field(&node::<E>, tokens, &mut summaries, field)
}

/// Prints an arm: its attributes, its pattern, its guard, `=>`, its value, and its comma where it has one.
#[tactic(auto, using(syn_tokens::proofs::Fronts::fronts, crate::proofs::Shapes::arms))]
pub fn arm<E: HasPrinter>(tokens: &mut TokenStream, arm: &E::Arm) -> PutResult
    ensures text { OnOk result (tokens.new ≡ tokens.old ++ (arm_spelled (E.Arm.view arm.now) ++ comma_if (E.Arm.view arm.now).comma)) }
    ensures front { IsFront tokens.old tokens.new }
{
    let mut summaries = summarize_arm::<E>(tokens, arm)?;
    match_expr::arm(&node::<E>, tokens, &mut summaries, arm, false)
}
