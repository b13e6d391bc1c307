//! The summaries of the operands of a node, from which they are printed.

ghost use Rattle.std.specs.Prelude.{◌++◌, IfOk};
ghost use Rattle.syn_expr_fixup.specs.Below.{operands_below};
ghost use Rattle.syn_expr_ast.specs.Node.{operands_of};
ghost use Rattle.syn_expr_print.specs.Printing.{EndsWith};
ghost use Rattle.syn_expr_spec.specs.Summaries.{stack};

use crate::print::{HasPrinter, Summaries};
use std::alloc::AllocError;
use syn_expr_ast::node::Operands;
use syn_expr_fixup::{collect, collect_operands};
use syn_tokens::tree::TokenStream;

/// The summaries of one operand.
#[tactic(auto, using(crate::proofs::Stacks::ends_all))]
pub(crate) fn summarize_one<E: HasPrinter>(
    tokens: &TokenStream,
    x: &E,
) -> Result<Summaries, AllocError>
    ensures { IfOk result (λ n. EndsWith n.left.items (stack (E.tree x.now))) }
{
    let mut visits = 0;
    let mut left = Vec::new(tokens.alloc());
    collect(&mut left, &mut visits, x)?;
    Ok(Summaries { left, visits })
}

/// The summaries of two operands: those of the first come last.
#[tactic(auto, using(crate::proofs::Stacks::ends_all))]
pub(crate) fn summarize_two<E: HasPrinter>(
    tokens: &TokenStream,
    x: &E,
    y: &E,
) -> Result<Summaries, AllocError>
    ensures { IfOk result (λ n. EndsWith n.left.items (stack (E.tree y.now) ++ stack (E.tree x.now))) }
{
    let mut visits = 0;
    let mut left = Vec::new(tokens.alloc());
    collect(&mut left, &mut visits, y)?;
    collect(&mut left, &mut visits, x)?;
    Ok(Summaries { left, visits })
}

/// The summaries of the operands of a node.
#[tactic(auto, using(crate::proofs::Stacks::ends_all))]
pub(crate) fn summarize_operands<E: HasPrinter>(
    tokens: &TokenStream,
    operands: Operands<'_, E, E::Arm>,
) -> Result<Summaries, AllocError>
    ensures { IfOk result (λ n. EndsWith n.left.items (operands_below (operands_of E.tree E.Arm.view operands.entry))) }
{
    let mut visits = 0;
    let mut left = Vec::new(tokens.alloc());
    collect_operands::<E>(&mut left, &mut visits, operands)?;
    Ok(Summaries { left, visits })
}
