//! What the walk asks of `Expr`: of the patterns in it, and of its arms.

ghost use Rattle.syn_expr_wellformed.specs.Whole as whole;

use crate::heads::HasPatFits;
use crate::pat;
use crate::patterns::FitPat;
use crate::walk::HasWell;
use syn_expr_ast::attrs::all_outer;
use syn_expr_core::control::Arm;
use syn_expr_core::expr::Expr;
use syn_expr_core::pat::Pat;

impl HasPatFits for Expr {
    fn pat_fits(pat: &Pat) -> bool {
        pat.fits(true)
    }

    fn argument_fits(pat: &Pat) -> bool {
        pat::argument_fits(pat)
    }
}

#[tactic(auto, using(syn_expr_core::proofs::TreeOf::members))]
impl HasWell for Expr {
    ghost whole = { whole.tree_whole };

    fn arm_fits(arm: &Arm) -> bool {
        all_outer(&arm.attrs) && pat::arm_pattern_fits(&arm.pat)
    }
}
