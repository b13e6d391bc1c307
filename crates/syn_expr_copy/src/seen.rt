//! What is seen of expressions, of patterns, and of what is in lists of them; and how each is dropped.

ghost use Rattle.syn_expr_ast.specs.View.{field_value_of};
ghost use Rattle.syn_pat.specs.View.{field_guards, field_pat_of};

use syn_expr_ast::alone::{HasArmView, HasExprTree};
use syn_expr_ast::structure::FieldValueOf;
use syn_expr_parse::known::LetGo;
use syn_lower_copy::seen::Sees;
use syn_pat::kinds::HasPatTree;
use syn_pat::pat::{FieldPatKindOf, FieldPatOf, FullFieldPatOf};

/// How a copy is dropped, where what it was to be part of can't be copied.
pub trait Drops<A> {
    /// Drops a copy.
    fn drop_copy(x: A);
}

/// Expressions by their trees.
#[derive(Clone, Copy)]
pub struct ByExpr {}

impl<E: HasExprTree> Sees<E> for ByExpr {
    ghost use Rattle.syn_expr_spec.specs.Tree.{Tree};

    ghost Seen = { Tree };

    ghost seen = { E.tree };
}

impl<E: LetGo> Drops<E> for ByExpr {
    fn drop_copy(x: E) {
        x.let_go();
    }
}

/// Fields of struct expressions by their views.
#[derive(Clone, Copy)]
pub struct ByField {}

impl<E: HasExprTree> Sees<FieldValueOf<E>> for ByField {
    ghost use Rattle.syn_expr_ast.specs.View.{FieldView};

    ghost Seen = { FieldView };

    ghost seen = { field_value_of E.tree };
}

impl<E: LetGo> Drops<FieldValueOf<E>> for ByField {
    fn drop_copy(x: FieldValueOf<E>) {
        let FieldValueOf { expr, .. } = x;
        expr.let_go();
    }
}

/// Patterns by their views.
#[derive(Clone, Copy)]
pub struct ByPat {}

impl<P: HasPatTree> Sees<P> for ByPat {
    ghost use Rattle.syn_pat.specs.View.{PatView};

    ghost Seen = { PatView };

    ghost seen = { P.view };
}

impl<P: LetGo> Drops<P> for ByPat {
    fn drop_copy(x: P) {
        x.let_go();
    }
}

/// Fields of struct patterns by their trees, and the guards in them.
#[derive(Clone, Copy)]
pub struct ByFieldPat {}

impl<P: HasPatTree> Sees<FieldPatOf<P>> for ByFieldPat {
    ghost use Rattle.std.specs.Prelude.{List};
    ghost use Rattle.syn_expr_spec.specs.Tree.{Tree};
    ghost use Rattle.syn_lower_spec.specs.Pat.{FieldPatTree};

    ghost Seen = { FieldPatTree × List Tree };

    ghost seen = { λ x. (field_pat_of P.view x, field_guards P.view x.kind) };
}

impl<P: LetGo> Drops<FieldPatOf<P>> for ByFieldPat {
    fn drop_copy(x: FieldPatOf<P>) {
        let FieldPatOf { kind, .. } = x;
        if let FieldPatKindOf::Full(full) = kind {
            let FullFieldPatOf { pat, .. } = full;
            pat.let_go();
        }
    }
}

/// Match arms by their views.
#[derive(Clone, Copy)]
pub struct ByArm {}

impl<A: HasArmView> Sees<A> for ByArm {
    ghost use Rattle.syn_expr_ast.specs.Pats.{ArmView};

    ghost Seen = { ArmView };

    ghost seen = { A.view };
}

impl<A: LetGo> Drops<A> for ByArm {
    fn drop_copy(x: A) {
        x.let_go();
    }
}
