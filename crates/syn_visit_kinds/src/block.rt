//! `if` and `while`: each operand is passed to a function.

ghost use Rattle.std.specs.Option.{ForSome};
ghost use Rattle.syn_expr_ast.specs.View.{expr_if_of, expr_while_of};
ghost use Rattle.syn_visit_kinds.specs.Calls.{Takes};
ghost use Rattle.syn_visit_kinds.specs.Changes.{Change, Changed, ChangedIn};
ghost use Rattle.syn_visit_kinds.specs.Parts.{else_operand};

use crate::operands::boxed_mut;
use syn_expr_ast::alone::HasExprTree;
use syn_expr_ast::block::{ExprIfOf, ExprWhileOf};
use syn_tokens::token::Else;

/// What comes after `else`.
fn else_branch_mut<E: HasExprTree, R: Drop, F: Fn(&mut E) -> Result<(), R>>(
    x: &mut Option<(Else, Box<E>)>,
    call: &F,
) -> Result<(), R>
    requires { ForSome x.old (λ q. Takes (F.pre call.now) q.1.value) }
    ensures { Changed (Change (λ y. y) (F.post call.now)) (else_operand x.old) result (else_operand x.new) }
{
    match x {
        Some(both) => boxed_mut(&mut both.1, call),
        None => Ok(()),
    }
}

/// `if a { .. } else { .. }`
pub fn if_expr_mut<E: HasExprTree, R: Drop, F: Fn(&mut E) -> Result<(), R>>(
    x: &mut ExprIfOf<E>,
    call: &F,
) -> Result<(), R>
    requires cond { Takes (F.pre call.now) x.old.cond.value }
    requires other { ForSome x.old.else_branch (λ q. Takes (F.pre call.now) q.1.value) }
    ensures { ChangedIn (Change E.tree (F.post call.now)) (expr_if_of E.tree x.old) result (expr_if_of E.tree x.new) }
{
    boxed_mut(&mut x.cond, call)?;
    else_branch_mut(&mut x.else_branch, call)
}

/// `while a { .. }`
pub fn while_expr_mut<E: HasExprTree, R: Drop, F: Fn(&mut E) -> Result<(), R>>(
    x: &mut ExprWhileOf<E>,
    call: &F,
) -> Result<(), R>
    requires { Takes (F.pre call.now) x.old.cond.value }
    ensures { ChangedIn (Change E.tree (F.post call.now)) (expr_while_of E.tree x.old) result (expr_while_of E.tree x.new) }
{
    boxed_mut(&mut x.cond, call)
}
