//! What follows of the readers and the printer together, of their contracts alone.

ghost use Rattle.std.specs.Prelude.{◌≡◌, [], true, MatchResult};
ghost use Rattle.syn_expr_core.specs.View.{tree_of};
ghost use Rattle.syn_expr.specs.Texts.{position_of};
ghost use Rattle.syn_expr_spec.specs.Place.{plain};
ghost use Rattle.syn_expr_spec.specs.Printed.{allows};
ghost use Rattle.syn_expr_spec.specs.Stands.{Stands};
ghost use Rattle.syn_expr_spec.specs.Tree.{IsSameTree, Tree};
ghost use Rattle.syn_expr_spec.specs.WellFormed.{is_well_formed};
ghost use Rattle.syn_tokens.specs.Input.{Gives};

use crate::print::{Position, print_expr};
use std::alloc::Global;
use syn_expr_core::HeldExpr;
use syn_expr_core::expr::Expr;
use syn_expr_fixup::FixupContext;
use syn_tokens::buffer::ParseBuffer;
use syn_tokens::error::{ErrorKind, Result};
use syn_tokens::parse::parse2;
use syn_tokens::tree::{TokenStream, copy_trees};

/// Reads the expression that is the whole list.
fn read_whole(tokens: TokenStream) -> Result<Expr>
    ensures { (x : Tree) → Stands plain tokens x [] → Gives tree_of x result }
{
    Ok(parse2::<HeldExpr>(tokens)?.into_inner())
}

/// Prints an expression for itself and reads the tokens: a well-formed one is read back as the same tree, up to parentheses
/// and fill-ins, unless memory runs out (`OutOfMemory`).
pub fn read_back(alloc: Global, expr: &Expr) -> Result<Expr>
    ensures { is_well_formed (tree_of expr.now) ≡ true → MatchResult result (λ x. IsSameTree (tree_of expr.now) (tree_of x)) (λ e. e.kind ≡ ErrorKind.OutOfMemory) }
{
    let mut tokens = TokenStream::new(alloc);
    print_expr(expr, &mut tokens, FixupContext::NONE)?;
    read_whole(tokens)
}

/// Prints an expression in a position, puts the tokens `rest` after it, and reads what is there. It answers what was read, and
/// what is left. If the position allows `rest`, a well-formed expression is read back as the same tree, up to parentheses and
/// fill-ins, and exactly `rest` is left, unless memory runs out (`OutOfMemory`).
pub fn read_back_before(
    alloc: Global,
    position: Position,
    expr: &Expr,
    rest: TokenStream,
) -> Result<(Expr, TokenStream)>
    ensures { is_well_formed (tree_of expr.now) ≡ true → allows (position_of position) rest ≡ true
        → MatchResult result (λ r. IsSameTree (tree_of expr.now) (tree_of r.0) × (r.1 ≡ rest)) (λ e. e.kind ≡ ErrorKind.OutOfMemory) }
{
    let mut tokens = TokenStream::new(alloc);
    print_expr(expr, &mut tokens, position.fixup())?;
    tokens.append(rest)?;
    let mut input = ParseBuffer::new(&tokens)?;
    let read = match position.parse(&mut input) {
        Ok(expr) => HeldExpr { expr },
        Err(e) => return Err(e),
    };
    let left = copy_trees(alloc, input.trees())?;
    Ok((read.into_inner(), left))
}
