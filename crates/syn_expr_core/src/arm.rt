//! What is borrowed of the arms of a `match` (Rust Reference, "Match expressions").

ghost use Rattle.std.specs.Prelude.{◌≡◌, is_some};
ghost use Rattle.syn_expr_core.specs.View.{tree_of, pat_of, guard_of};
ghost use Rattle.syn_expr_fixup.specs.Below.{guard_by};
ghost use Rattle.syn_expr_print.specs.Framed.{guarded_by};
ghost use Rattle.syn_lower.specs.View.{mapped};

use crate::control::Arm;
use crate::expr::Expr;
use crate::pat::{Pat, PatGuard};
use crate::strays::{find_guards, in_arms, in_list};
use std::alloc::{AllocError, Global};
use syn_expr_fixup::summary::HasArms;
use syn_expr_print::put::frame::{ArmHead, HasArmHead};
use syn_tokens::token::If;

#[tactic(auto, using(crate::proofs::Guards::guards))]
impl PatGuard {
    /// Its `if`, unless attributes come before it: then its guard is none of an arm.
    fn arm_if(&self) -> Option<&If>
        ensures { is_some result ≡ guarded_by (guard_of self.now).tree (guard_of self.now).guards }
    {
        if self.attrs.is_empty() {
            Some(&self.if_token)
        } else {
            None
        }
    }

    /// Its guard, unless attributes come before it.
    fn arm_guard(&self) -> Option<&Expr>
        ensures { mapped (λ x. tree_of x.now) result ≡ guard_by (guard_of self.now).tree (guard_of self.now).guards }
    {
        if self.attrs.is_empty() {
            Some(&self.guard)
        } else {
            None
        }
    }
}

#[tactic(auto, using(crate::proofs::Guards::guards))]
impl Pat {
    /// The `if` of its guard, where it has one as a whole.
    fn arm_if(&self) -> Option<&If>
        ensures { is_some result ≡ guarded_by (pat_of self.now).tree (pat_of self.now).guards }
    {
        match self {
            Pat::Guard(x) => x.arm_if(),
            _ => None,
        }
    }

    /// Its guard, where it has one as a whole.
    fn arm_guard(&self) -> Option<&Expr>
        ensures { mapped (λ x. tree_of x.now) result ≡ guard_by (pat_of self.now).tree (pat_of self.now).guards }
    {
        match self {
            Pat::Guard(x) => x.arm_guard(),
            _ => None,
        }
    }
}

#[tactic(auto, using(crate::proofs::TreeOf::members))]
impl HasArmHead for Arm {
    type Pat = Pat;

    fn head(&self) -> ArmHead<'_, Pat> {
        ArmHead {
            attrs: &self.attrs,
            pat: &self.pat,
            if_token: self.pat.arm_if(),
            arrow: &self.fat_arrow_token,
            comma: &self.comma,
        }
    }
}

#[tactic(auto, using(crate::proofs::TreeOf::members, crate::proofs::StrayGuards::nodes))]
impl HasArms for Expr {
    fn guard(arm: &Arm) -> Option<&Expr> {
        arm.pat.arm_guard()
    }

    fn body(arm: &Arm) -> &Expr {
        &arm.body
    }

    fn strays(&self, alloc: Global) -> Result<Vec<&Expr>, AllocError> {
        let found = Vec::new(alloc);
        match self {
            Expr::Closure(x) => in_list(&x.inputs, found),
            Expr::ForLoop(x) => find_guards(&x.pat, found),
            Expr::Let(x) => find_guards(&x.pat, found),
            Expr::Match(x) => in_arms(&x.arms, found),
            _ => Ok(found),
        }
    }
}
