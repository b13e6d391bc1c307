//! The expressions of each kind, taken out of the type of all.

ghost use Rattle.std.specs.Prelude.{◌≡◌};
ghost use Rattle.syn_expr_core.specs.Taken.{taken_of, IsStruct};
ghost use Rattle.syn_expr_core.specs.declared.expr.Expr.{Expr};

use crate::expr::{
    Expr, ExprArray, ExprAssign, ExprAwait, ExprBinary, ExprBreak, ExprCall, ExprCast, ExprClosure,
    ExprField, ExprForLoop, ExprIf, ExprIndex, ExprLet, ExprMatch, ExprMethodCall, ExprParen,
    ExprRange, ExprRawAddr, ExprRepeat, ExprReturn, ExprTry, ExprTuple, ExprUnary, ExprWhile,
    ExprYield, Taken,
};

/// A struct of the expressions of one kind.
pub(crate) trait Kind {
    ghost use Rattle.std.specs.Prelude.{Bool};
    ghost use Rattle.syn_expr_spec.specs.Tree.{Tree};

    /// It as a tree, without its places.
    ghost tree: { Self → Tree };

    /// Whether a tree without attributes is of the kind.
    ghost is: { Tree → Bool };

    /// The struct of an expression that was taken apart, which leaves its place; nothing if it is of another kind.
    fn of(taken: &mut Taken) -> Option<Self>
        ensures { (x : Expr) → taken.old ≡ taken_of x → IsStruct tree is x result };
}

/// The struct of an expression of a kind. One of another kind is dropped.
pub(crate) fn struct_of<S: Kind>(x: Expr) -> Option<S>
    ensures { IsStruct S.tree S.is x result }
{
    let mut taken = x.taken();
    S::of(&mut taken)
}

impl Kind for ExprArray {
    ghost use Rattle.syn_expr_core.specs.View.{tree_of};
    ghost use Rattle.syn_expr_ast.specs.View.{expr_array_of};
    ghost use Rattle.syn_expr_spec.specs.Alone.{is_array};

    ghost tree = { expr_array_of tree_of };

    ghost is = { is_array };

    fn of(taken: &mut Taken) -> Option<Self> {
        taken.array.take()
    }
}

impl Kind for ExprAssign {
    ghost use Rattle.syn_expr_core.specs.View.{tree_of};
    ghost use Rattle.syn_expr_ast.specs.View.{expr_assign_of};
    ghost use Rattle.syn_expr_spec.specs.Alone.{is_assign};

    ghost tree = { expr_assign_of tree_of };

    ghost is = { is_assign };

    fn of(taken: &mut Taken) -> Option<Self> {
        taken.assign.take()
    }
}

impl Kind for ExprAwait {
    ghost use Rattle.syn_expr_core.specs.View.{tree_of};
    ghost use Rattle.syn_expr_ast.specs.View.{expr_await_of};
    ghost use Rattle.syn_expr_spec.specs.Alone.{is_await};

    ghost tree = { expr_await_of tree_of };

    ghost is = { is_await };

    fn of(taken: &mut Taken) -> Option<Self> {
        taken.await_expr.take()
    }
}

impl Kind for ExprBinary {
    ghost use Rattle.syn_expr_core.specs.View.{tree_of};
    ghost use Rattle.syn_expr_ast.specs.View.{expr_binary_of};
    ghost use Rattle.syn_expr_spec.specs.Alone.{is_binary};

    ghost tree = { expr_binary_of tree_of };

    ghost is = { is_binary };

    fn of(taken: &mut Taken) -> Option<Self> {
        taken.binary.take()
    }
}

impl Kind for ExprBreak {
    ghost use Rattle.syn_expr_core.specs.View.{tree_of};
    ghost use Rattle.syn_expr_ast.specs.View.{expr_break_of};
    ghost use Rattle.syn_expr_spec.specs.Alone.{is_break};

    ghost tree = { expr_break_of tree_of };

    ghost is = { is_break };

    fn of(taken: &mut Taken) -> Option<Self> {
        taken.break_expr.take()
    }
}

impl Kind for ExprCall {
    ghost use Rattle.syn_expr_core.specs.View.{tree_of};
    ghost use Rattle.syn_expr_ast.specs.View.{expr_call_of};
    ghost use Rattle.syn_expr_spec.specs.Alone.{is_call};

    ghost tree = { expr_call_of tree_of };

    ghost is = { is_call };

    fn of(taken: &mut Taken) -> Option<Self> {
        taken.call.take()
    }
}

impl Kind for ExprCast {
    ghost use Rattle.syn_expr_core.specs.View.{tree_of};
    ghost use Rattle.syn_expr_ast.specs.View.{expr_cast_of};
    ghost use Rattle.syn_expr_spec.specs.Stands.{is_cast};

    ghost tree = { expr_cast_of tree_of };

    ghost is = { is_cast };

    fn of(taken: &mut Taken) -> Option<Self> {
        taken.cast.take()
    }
}

impl Kind for ExprClosure {
    ghost use Rattle.syn_expr_core.specs.View.{closure_of};
    ghost use Rattle.syn_expr_spec.specs.Alone.{is_closure};

    ghost tree = { closure_of };

    ghost is = { is_closure };

    fn of(taken: &mut Taken) -> Option<Self> {
        taken.closure.take()
    }
}

impl Kind for ExprField {
    ghost use Rattle.syn_expr_core.specs.View.{tree_of};
    ghost use Rattle.syn_expr_ast.specs.View.{expr_field_of};
    ghost use Rattle.syn_expr_spec.specs.Alone.{is_field};

    ghost tree = { expr_field_of tree_of };

    ghost is = { is_field };

    fn of(taken: &mut Taken) -> Option<Self> {
        taken.field.take()
    }
}

impl Kind for ExprForLoop {
    ghost use Rattle.syn_expr_core.specs.View.{for_loop_of};
    ghost use Rattle.syn_expr_spec.specs.Alone.{is_for_loop};

    ghost tree = { for_loop_of };

    ghost is = { is_for_loop };

    fn of(taken: &mut Taken) -> Option<Self> {
        taken.for_loop.take()
    }
}

impl Kind for ExprIf {
    ghost use Rattle.syn_expr_core.specs.View.{tree_of};
    ghost use Rattle.syn_expr_ast.specs.View.{expr_if_of};
    ghost use Rattle.syn_expr_spec.specs.Stands.{is_if_expr};

    ghost tree = { expr_if_of tree_of };

    ghost is = { is_if_expr };

    fn of(taken: &mut Taken) -> Option<Self> {
        taken.if_expr.take()
    }
}

impl Kind for ExprIndex {
    ghost use Rattle.syn_expr_core.specs.View.{tree_of};
    ghost use Rattle.syn_expr_ast.specs.View.{expr_index_of};
    ghost use Rattle.syn_expr_spec.specs.Alone.{is_index};

    ghost tree = { expr_index_of tree_of };

    ghost is = { is_index };

    fn of(taken: &mut Taken) -> Option<Self> {
        taken.index.take()
    }
}

impl Kind for ExprLet {
    ghost use Rattle.syn_expr_core.specs.View.{let_of};
    ghost use Rattle.syn_expr_spec.specs.Alone.{is_let};

    ghost tree = { let_of };

    ghost is = { is_let };

    fn of(taken: &mut Taken) -> Option<Self> {
        taken.let_expr.take()
    }
}

impl Kind for ExprMatch {
    ghost use Rattle.syn_expr_core.specs.View.{match_of};
    ghost use Rattle.syn_expr_spec.specs.Alone.{is_match};

    ghost tree = { match_of };

    ghost is = { is_match };

    fn of(taken: &mut Taken) -> Option<Self> {
        taken.match_expr.take()
    }
}

impl Kind for ExprMethodCall {
    ghost use Rattle.syn_expr_core.specs.View.{tree_of};
    ghost use Rattle.syn_expr_ast.specs.View.{expr_method_call_of};
    ghost use Rattle.syn_expr_spec.specs.Alone.{is_method_call};

    ghost tree = { expr_method_call_of tree_of };

    ghost is = { is_method_call };

    fn of(taken: &mut Taken) -> Option<Self> {
        taken.method_call.take()
    }
}

impl Kind for ExprParen {
    ghost use Rattle.syn_expr_core.specs.View.{tree_of};
    ghost use Rattle.syn_expr_ast.specs.View.{expr_paren_of};
    ghost use Rattle.syn_expr_spec.specs.Alone.{is_paren};

    ghost tree = { expr_paren_of tree_of };

    ghost is = { is_paren };

    fn of(taken: &mut Taken) -> Option<Self> {
        taken.paren.take()
    }
}

impl Kind for ExprRange {
    ghost use Rattle.syn_expr_core.specs.View.{tree_of};
    ghost use Rattle.syn_expr_ast.specs.View.{expr_range_of};
    ghost use Rattle.syn_expr_spec.specs.Stands.{is_range};

    ghost tree = { expr_range_of tree_of };

    ghost is = { is_range };

    fn of(taken: &mut Taken) -> Option<Self> {
        taken.range.take()
    }
}

impl Kind for ExprRawAddr {
    ghost use Rattle.syn_expr_core.specs.View.{tree_of};
    ghost use Rattle.syn_expr_ast.specs.View.{expr_raw_addr_of};
    ghost use Rattle.syn_expr_spec.specs.Alone.{is_raw_addr};

    ghost tree = { expr_raw_addr_of tree_of };

    ghost is = { is_raw_addr };

    fn of(taken: &mut Taken) -> Option<Self> {
        taken.raw_addr.take()
    }
}

impl Kind for ExprRepeat {
    ghost use Rattle.syn_expr_core.specs.View.{tree_of};
    ghost use Rattle.syn_expr_ast.specs.View.{expr_repeat_of};
    ghost use Rattle.syn_expr_spec.specs.Alone.{is_repeat};

    ghost tree = { expr_repeat_of tree_of };

    ghost is = { is_repeat };

    fn of(taken: &mut Taken) -> Option<Self> {
        taken.repeat.take()
    }
}

impl Kind for ExprReturn {
    ghost use Rattle.syn_expr_core.specs.View.{tree_of};
    ghost use Rattle.syn_expr_ast.specs.View.{expr_return_of};
    ghost use Rattle.syn_expr_spec.specs.Alone.{is_return};

    ghost tree = { expr_return_of tree_of };

    ghost is = { is_return };

    fn of(taken: &mut Taken) -> Option<Self> {
        taken.return_expr.take()
    }
}

impl Kind for ExprTry {
    ghost use Rattle.syn_expr_core.specs.View.{tree_of};
    ghost use Rattle.syn_expr_ast.specs.View.{expr_try_of};
    ghost use Rattle.syn_expr_spec.specs.Alone.{is_try};

    ghost tree = { expr_try_of tree_of };

    ghost is = { is_try };

    fn of(taken: &mut Taken) -> Option<Self> {
        taken.try_expr.take()
    }
}

impl Kind for ExprTuple {
    ghost use Rattle.syn_expr_core.specs.View.{tree_of};
    ghost use Rattle.syn_expr_ast.specs.View.{expr_tuple_of};
    ghost use Rattle.syn_expr_spec.specs.Alone.{is_tuple};

    ghost tree = { expr_tuple_of tree_of };

    ghost is = { is_tuple };

    fn of(taken: &mut Taken) -> Option<Self> {
        taken.tuple.take()
    }
}

impl Kind for ExprUnary {
    ghost use Rattle.syn_expr_core.specs.View.{tree_of};
    ghost use Rattle.syn_expr_ast.specs.View.{expr_unary_of};
    ghost use Rattle.syn_expr_spec.specs.Alone.{is_unary};

    ghost tree = { expr_unary_of tree_of };

    ghost is = { is_unary };

    fn of(taken: &mut Taken) -> Option<Self> {
        taken.unary.take()
    }
}

impl Kind for ExprWhile {
    ghost use Rattle.syn_expr_core.specs.View.{tree_of};
    ghost use Rattle.syn_expr_ast.specs.View.{expr_while_of};
    ghost use Rattle.syn_expr_spec.specs.Alone.{is_while};

    ghost tree = { expr_while_of tree_of };

    ghost is = { is_while };

    fn of(taken: &mut Taken) -> Option<Self> {
        taken.while_expr.take()
    }
}

impl Kind for ExprYield {
    ghost use Rattle.syn_expr_core.specs.View.{tree_of};
    ghost use Rattle.syn_expr_ast.specs.View.{expr_yield_of};
    ghost use Rattle.syn_expr_spec.specs.Alone.{is_yield};

    ghost tree = { expr_yield_of tree_of };

    ghost is = { is_yield };

    fn of(taken: &mut Taken) -> Option<Self> {
        taken.yield_expr.take()
    }
}
