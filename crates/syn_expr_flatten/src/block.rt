//! `if` and `while`.

ghost use Rattle.std.specs.Prelude.{IfOk};
ghost use Rattle.std.specs.Option.{ForSome};
ghost use Rattle.syn_expr_ast.specs.View.{else_of, expr_if_of, expr_while_of};
ghost use Rattle.syn_visit_kinds.specs.Calls.{Takes};
ghost use Rattle.syn_expr_flatten.specs.Flat.{AreFlat, Flattens, IsFlatBehind};

use crate::attrs::{Before, Flattened, put_around, put_before};
use syn_expr_ast::alone::HasExprTree;
use syn_expr_ast::block::{ExprIfOf, ExprWhileOf};
use syn_tokens::token::Else;
use syn_visit_kinds::operands::boxed_mut;

/// What comes after `else`, without the parentheses in it.
#[tactic(auto, using(crate::proofs::Children::children, crate::proofs::Calls::flat_by))]
fn else_branch<E: HasExprTree, F: Fn(&mut E) -> Flattened<()>>(
    x: &mut Option<(Else, Box<E>)>,
    flatten: F,
) -> Flattened<()>
    requires other { ForSome x.old (λ q. Takes (F.pre flatten) q.1.value) }
    requires gives { Flattens E.tree (F.post flatten) }
    ensures { IfOk result (λ _. AreFlat (else_of E.tree x.old) (else_of E.tree x.new)) }
{
    match x {
        Some(both) => {
            boxed_mut(&mut both.1, &flatten)?;
            Ok(())
        }
        None => Ok(()),
    }
}

/// An `if` without the parentheses in it, after more attributes.
pub fn if_expr<E: HasExprTree, F: Fn(&mut E) -> Flattened<()>>(
    x: &mut ExprIfOf<E>,
    attrs: Before,
    flatten: F,
) -> Flattened<()>
    requires cond { Takes (F.pre flatten) x.old.cond.value }
    requires other { ForSome x.old.else_branch (λ q. Takes (F.pre flatten) q.1.value) }
    requires gives { Flattens E.tree (F.post flatten) }
    ensures { IfOk result (λ _. IsFlatBehind attrs (expr_if_of E.tree x.old) (expr_if_of E.tree x.new)) }
{
    put_before(attrs, &mut x.attrs)?;
    boxed_mut(&mut x.cond, &flatten)?;
    else_branch(&mut x.else_branch, flatten)?;
    Ok(())
}

/// A `while` loop without the parentheses in it, after more attributes.
pub fn while_expr<E: HasExprTree, F: Fn(&mut E) -> Flattened<()>>(
    x: &mut ExprWhileOf<E>,
    attrs: Before,
    flatten: F,
) -> Flattened<()>
    requires cond { Takes (F.pre flatten) x.old.cond.value }
    requires gives { Flattens E.tree (F.post flatten) }
    ensures { IfOk result (λ _. IsFlatBehind attrs (expr_while_of E.tree x.old) (expr_while_of E.tree x.new)) }
{
    put_around(attrs, &mut x.attrs)?;
    boxed_mut(&mut x.cond, &flatten)?;
    Ok(())
}
