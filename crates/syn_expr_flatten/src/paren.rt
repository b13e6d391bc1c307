//! Parentheses, replaced by what they held.

ghost use Rattle.std.specs.Prelude.{IfOk};
ghost use Rattle.syn_visit_kinds.specs.Calls.{Takes};
ghost use Rattle.syn_expr_flatten.specs.Flat.{FlattensBehind, IsFlatBehind};
ghost use Rattle.syn_expr_ast.specs.View.{expr_paren_of};

use crate::attrs::{Before, Flattened, put_before};
use std::mem::replace;
use syn_expr_ast::alone::HasExprTree;
use syn_expr_ast::atom::ExprParenOf;

/// What the parentheses hold, after their attributes, and these after more. It is left in its box, for the caller to put in the
/// place of the parentheses. Refused where the function refuses it, or memory runs out.
#[tactic(auto, using(crate::proofs::Nodes::parens))]
pub fn unwrapped<E: HasExprTree, F: Fn(&mut E, Before) -> Flattened<()>>(
    x: &mut ExprParenOf<E>,
    attrs: Before,
    flatten: F,
) -> Flattened<()>
    requires held { (all : _) → Takes (λ borrowed. F.pre flatten borrowed all) x.old.expr.value }
    requires gives { FlattensBehind E.tree (F.post flatten) }
    ensures { IfOk result (λ _. IsFlatBehind attrs (expr_paren_of E.tree x.old) (E.tree x.new.expr.value)) }
{
    put_before(attrs, &mut x.attrs)?;
    let alloc = *x.attrs.allocator();
    let all = replace(&mut x.attrs, Vec::new(alloc));
    flatten(&mut x.expr, Some(all))?;
    Ok(())
}
