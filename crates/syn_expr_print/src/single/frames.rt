//! What has its operands in places of their own (Rust Reference, "Array expressions", "Tuple expressions", "Struct
//! expressions", "`if` expressions", "Loop expressions", "`match` expressions", "Closure expressions"), by its parts.

ghost use Rattle.std.specs.Prelude.{◌≡◌, ◌++◌, false, is_some, true, OnOk};
ghost use Rattle.syn_expr_ast.specs.Node.{before_of, frame_guards, frame_of, framed, operand_children, operands_of};
ghost use Rattle.syn_expr_ast.specs.Pats.{strays};
ghost use Rattle.syn_expr_print.specs.Placed.{needs_last};
ghost use Rattle.syn_expr_ast.specs.Printed.{whole};
ghost use Rattle.syn_expr_print.specs.Printing.{children_spelled};
ghost use Rattle.syn_expr_spec.specs.Next as next;
ghost use Rattle.syn_expr_spec.specs.Tree as e;
ghost use Rattle.syn_expr_spec.specs.Tree.{attributed_with, enclosure};
ghost use Rattle.syn_tokens.specs.Input.{IsFront};

use crate::frames::{children, is_one, round};
use crate::print::{HasPrinter, node};
use crate::put::frame::{put_frame_head, put_framed};
use crate::put::prefix::PutPat;
use crate::single::summarized::summarize_operands;
use syn_expr_ast::attrs::put_attributes;
use syn_expr_ast::node::{Attributes, Frame, Operands};
use syn_expr_ast::put::PutResult;
use syn_tokens::token::Brace;
use syn_tokens::tree::TokenStream;

/// Prints operands in places of their own, with what is between them. `needs_comma`: one is needed after the last: after
/// the one of a tuple, and before the `..` that ends a struct expression. `brace`: those round the arms of a `match`; of other
/// nodes some that have no place.
#[tactic(auto, using(syn_tokens::proofs::Fronts::fronts, crate::proofs::Shapes::placed))]
fn placed<E: HasPrinter>(
    tokens: &mut TokenStream,
    operands: Operands<'_, E, E::Arm>,
    needs_comma: bool,
    brace: Brace,
) -> PutResult
    requires framed { operands_of E.tree E.Arm.view operands ≡ framed (operand_children (operands_of E.tree E.Arm.view operands)) }
    ensures text { OnOk result (tokens.new ≡ tokens.old ++ children_spelled needs_comma (operand_children (operands_of E.tree E.Arm.view operands.entry))) }
    ensures front { IsFront tokens.old tokens.new }
{
    let mut summaries = summarize_operands::<E>(tokens, operands)?;
    children(
        &node::<E>,
        tokens,
        &mut summaries,
        operands,
        needs_comma,
        brace,
    )
}

/// Prints a node with a delimiter round its operands, after its attributes. `needs_comma`: a comma is needed after the last.
#[tactic(auto, using(syn_tokens::proofs::Fronts::fronts))]
fn closed<E: HasPrinter, P: PutPat>(
    tokens: &mut TokenStream,
    attributes: Attributes<'_>,
    frame: Frame<'_, P>,
    operands: Operands<'_, E, E::Arm>,
    needs_comma: bool,
) -> PutResult
    requires closed { is_some (enclosure (frame_of P.view frame)) ≡ true }
    requires framed { operands_of E.tree E.Arm.view operands ≡ framed (operand_children (operands_of E.tree E.Arm.view operands)) }
    requires comma { needs_comma ≡ needs_last (frame_of P.view frame) (e.is_one (operand_children (operands_of E.tree E.Arm.view operands))) }
    ensures text { OnOk result (tokens.new ≡ tokens.old ++ whole next.enclosed (attributed_with (before_of attributes.entry) (e.frame (frame_of P.view frame.entry) (strays (frame_guards P.view frame.entry) (operand_children (operands_of E.tree E.Arm.view operands.entry)))))) }
    ensures front { IsFront tokens.old tokens.new }
{
    let mut inside = TokenStream::new(tokens.alloc());
    put_attributes(tokens, attributes)?;
    placed::<E>(&mut inside, operands, needs_comma, Brace::default())?;
    put_framed(tokens, frame, inside)?;
    Ok(())
}

/// Prints a node with a head before its operands, and no delimiter round them, after its attributes. `brace`: those round the
/// arms of a `match`; of other nodes some that have no place.
#[tactic(auto, using(syn_tokens::proofs::Fronts::fronts))]
fn opened<E: HasPrinter, P: PutPat>(
    tokens: &mut TokenStream,
    attributes: Attributes<'_>,
    frame: Frame<'_, P>,
    operands: Operands<'_, E, E::Arm>,
    brace: Brace,
) -> PutResult
    requires open { is_some (enclosure (frame_of P.view frame)) ≡ false }
    requires framed { operands_of E.tree E.Arm.view operands ≡ framed (operand_children (operands_of E.tree E.Arm.view operands)) }
    ensures text { OnOk result (tokens.new ≡ tokens.old ++ whole next.enclosed (attributed_with (before_of attributes.entry) (e.frame (frame_of P.view frame.entry) (strays (frame_guards P.view frame.entry) (operand_children (operands_of E.tree E.Arm.view operands.entry)))))) }
    ensures front { IsFront tokens.old tokens.new }
{
    put_attributes(tokens, attributes)?;
    put_frame_head(tokens, frame)?;
    placed::<E>(tokens, operands, false, brace)?;
    Ok(())
}

/// Prints a node that has its operands in places of their own, after its attributes.
#[tactic(auto, using(syn_tokens::proofs::Fronts::fronts))]
pub fn frame<E: HasPrinter, P: PutPat>(
    tokens: &mut TokenStream,
    attributes: Attributes<'_>,
    frame: Frame<'_, P>,
    operands: Operands<'_, E, E::Arm>,
) -> PutResult
    requires { operands_of E.tree E.Arm.view operands ≡ framed (operand_children (operands_of E.tree E.Arm.view operands)) }
    ensures text { OnOk result (tokens.new ≡ tokens.old ++ whole next.enclosed (attributed_with (before_of attributes.entry) (e.frame (frame_of P.view frame.entry) (strays (frame_guards P.view frame.entry) (operand_children (operands_of E.tree E.Arm.view operands.entry)))))) }
    ensures front { IsFront tokens.old tokens.new }
{
    let asked = round(frame, is_one::<E, E::Arm>(operands));
    if asked.is_enclosed {
        closed::<E, P>(tokens, attributes, frame, operands, asked.needs_comma)
    } else {
        opened::<E, P>(tokens, attributes, frame, operands, asked.brace)
    }
}
