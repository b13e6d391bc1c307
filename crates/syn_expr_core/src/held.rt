//! An expression that its user holds to the end of a scope.

ghost use Rattle.std.specs.Prelude.{◌≡◌, IfErr, false, []};
ghost use Rattle.syn_expr_core.specs.Refused.{MayRefuse};
ghost use Rattle.syn_expr_core.specs.View.{tree_of};
ghost use Rattle.syn_expr_ast.specs.Printed.{ReadsExactly};
ghost use Rattle.syn_expr_spec.specs.Place.{plain};
ghost use Rattle.syn_expr_spec.specs.Stands.{Stands};
ghost use Rattle.syn_expr_spec.specs.Tree.{leaf, path};
ghost use Rattle.syn_lower_spec.specs.Tree.{no_qself};

use crate::control::Arm;
use crate::expr::{Expr, ExprPath};
use crate::pat::Pat;
use std::alloc::Global;
use std::ops::Deref;
use syn_expr_parse::known::{HoldsExpr, LetGo};
use syn_lower::path::Path;
use syn_lower::punctuated::Punctuated;
use syn_tokens::buffer::{Parse, ParseBuffer, ToTokens};
use syn_tokens::error::Result;
use syn_tokens::tree::TokenStream;

/// An expression that is dropped with this value, as a bare one is. It is read and printed as the expression is:
/// `parse_str::<HeldExpr>(alloc, text)?`.
#[derive(Drop)]
pub struct HeldExpr {
    /// The expression.
    pub expr: Expr,
}

impl HeldExpr {
    /// The expression, which is the caller's to drop.
    pub fn into_inner(self) -> Expr
        ensures { result ≡ self.expr }
    {
        let HeldExpr { expr } = self;
        expr
    }
}

impl HoldsExpr for HeldExpr {
    type Expr = Expr;

    ghost held = { λ x. x.expr };

    fn hold(expr: Expr) -> HeldExpr {
        HeldExpr { expr }
    }

    fn into_expr(self) -> Expr {
        self.into_inner()
    }
}

impl From<Expr> for HeldExpr {
    ghost from_gives = { λ x held. held.expr ≡ x };

    /// Holds the expression.
    fn from(expr: Expr) -> HeldExpr {
        HeldExpr { expr }
    }
}

impl Deref for HeldExpr {
    type Target = Expr;

    ghost deref_gives = { λ held x. x ≡ held.expr };

    /// The expression, so that `held.attrs()` asks the expression that is held.
    fn deref(&self) -> &Expr {
        &self.expr
    }
}

impl Parse for HeldExpr {
    ghost use Rattle.syn_expr_core.specs.Refused.{MayRefuse};
    ghost use Rattle.syn_expr_core.specs.View.{tree_of};
    ghost use Rattle.syn_expr_spec.specs.Place.{plain};
    ghost use Rattle.syn_expr_spec.specs.Stands.{Stands};
    ghost use Rattle.syn_expr_spec.specs.Tree.{Tree};

    ghost Seen = { Tree };

    ghost seen = { λ x. tree_of x.expr };

    /// The tree comes before the rest, by the binding rules.
    ghost spells = { Stands plain };

    ghost least = { 1 };

    ghost refuses = { λ _ kind. MayRefuse kind };

    /// Reads an expression, and is refused as the reader of expressions refuses it.
    fn parse(input: &mut ParseBuffer<'_>) -> Result<Self>
        ensures exact { ReadsExactly (λ x. tree_of x.expr) (Stands plain) input.old result input.new }
        ensures refused { IfErr result (λ e. MayRefuse e.kind) }
    {
        match Expr::parse(input) {
            Ok(expr) => Ok(HeldExpr { expr }),
            Err(e) => Err(e),
        }
    }
}

impl ToTokens for HeldExpr {
    ghost use Rattle.syn_expr_core.specs.View.{tree_of};
    ghost use Rattle.syn_expr_ast.specs.Printed.{whole};
    ghost use Rattle.syn_expr_spec.specs.Next as next;

    ghost printed = { λ x. whole next.enclosed (tree_of x.expr) };

    /// Prints the expression as between delimiters, where it is by itself.
    fn to_tokens(&self, tokens: &mut TokenStream) -> Result<()> {
        self.expr.to_tokens(tokens)
    }
}

impl Expr {
    /// An expression that is in for another: a path without attributes, a type in front, `::` in front and segments. It
    /// takes no memory.
    #[tactic(auto, using(crate::proofs::TreeOf::kinds), unfolding(syn_expr_ast::specs::Attrs::attrs_of))]
    pub fn placeholder(alloc: Global) -> Expr
        ensures { tree_of result ≡ leaf (path no_qself (record { leading = false; segments = []; trailing = false })) }
    {
        Expr::Path(ExprPath {
            attrs: Vec::new(alloc),
            qself: None,
            path: Path {
                leading_colon: None,
                segments: Punctuated::new(alloc),
            },
        })
    }
}

impl LetGo for Expr {
    fn let_go(self) {}
}

impl LetGo for Pat {
    fn let_go(self) {}
}

impl LetGo for Arm {
    fn let_go(self) {}
}
