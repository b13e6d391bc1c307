//! What is borrowed of an expression that holds patterns.

ghost use Rattle.std.specs.Prelude.{◌≡◌, Some};
ghost use Rattle.syn_expr_ast.specs.Node as spec;
ghost use Rattle.syn_expr_ast.specs.Label.{kind_at};
ghost use Rattle.syn_lower.specs.View.{mapped};
ghost use Rattle.syn_expr_core.specs.View.{tree_of, pat_of, arm_of, closure_of, for_loop_of, let_of, match_of};

use crate::closure::ExprClosure;
use crate::control::{Arm, ExprForLoop, ExprLet, ExprMatch};
use crate::expr::Expr;
use crate::pat::Pat;
use syn_expr_ast::label::{FrameKind, NodeKind, PrefixKind};
use syn_expr_ast::node::{Braces, Closure, Frame, Operands, Prefix};
use syn_lower::ty::ReturnType;

#[tactic(auto, using(crate::proofs::TreeOf::members, syn_expr_ast::proofs::Shapes::shapes))]
impl ExprClosure {
    /// Its kind: with an output its body is a block of its own.
    pub fn kind(&self) -> NodeKind
        ensures { result ≡ kind_at (closure_of self.now) }
    {
        match &self.output {
            ReturnType::Default => NodeKind::Prefix(PrefixKind::Closure),
            ReturnType::Given(_, _) => NodeKind::Frame(FrameKind::Other),
        }
    }

    /// What comes before its body, where it has no output.
    pub fn prefix(&self) -> Option<Prefix<'_, Pat>>
        ensures { mapped (spec.prefix_seen pat_of) result ≡ spec.prefix_at (closure_of self.now) }
    {
        match &self.output {
            ReturnType::Default => Some(Prefix::Closure(Closure {
                lifetimes: &self.lifetimes,
                modifiers: &self.modifiers,
                constness: &self.constness,
                asyncness: &self.asyncness,
                capture: &self.capture,
                inputs_begin: &self.inputs_begin,
                inputs: &self.inputs,
                inputs_end: &self.inputs_end,
                output: &self.output,
            })),
            ReturnType::Given(_, _) => None,
        }
    }

    /// What it is but for its body, where it has an output.
    pub fn frame(&self) -> Option<Frame<'_, Pat>>
        ensures { mapped (spec.frame_seen pat_of) result ≡ spec.frame_at (closure_of self.now) }
    {
        match &self.output {
            ReturnType::Default => None,
            ReturnType::Given(_, _) => Some(Frame::Closure(Closure {
                lifetimes: &self.lifetimes,
                modifiers: &self.modifiers,
                constness: &self.constness,
                asyncness: &self.asyncness,
                capture: &self.capture,
                inputs_begin: &self.inputs_begin,
                inputs: &self.inputs,
                inputs_end: &self.inputs_end,
                output: &self.output,
            })),
        }
    }

    /// Its body.
    pub fn operands(&self) -> Operands<'_, Expr, Arm>
        ensures { spec.operands_of tree_of arm_of result ≡ spec.operands_at (closure_of self.now) }
    {
        match &self.output {
            ReturnType::Default => Operands::One(&self.body),
            ReturnType::Given(_, _) => Operands::Body(&self.body),
        }
    }
}

#[tactic(auto, using(crate::proofs::TreeOf::members, syn_expr_ast::proofs::Shapes::shapes))]
impl ExprForLoop {
    /// Its kind.
    pub fn kind(&self) -> NodeKind
        ensures { result ≡ kind_at (for_loop_of self.now) }
    {
        let labelled = self.label.is_some();
        NodeKind::Frame(FrameKind::BlockLike { labelled })
    }

    /// What it is, but for its operand.
    pub fn frame(&self) -> Frame<'_, Pat>
        ensures { Some (spec.frame_seen pat_of result) ≡ spec.frame_at (for_loop_of self.now) }
    {
        Frame::ForLoop(&self.label, &self.for_token, &self.pat, &self.in_token)
    }

    /// What gives its values, and its block.
    pub fn operands(&self) -> Operands<'_, Expr, Arm>
        ensures { spec.operands_of tree_of arm_of result ≡ spec.operands_at (for_loop_of self.now) }
    {
        let body = Braces {
            attrs: &self.attrs,
            block: &self.body,
        };
        Operands::Loop(&self.expr, body)
    }
}

#[tactic(auto, using(crate::proofs::TreeOf::members, syn_expr_ast::proofs::Shapes::shapes))]
impl ExprLet {
    /// What comes before its operand.
    pub fn prefix(&self) -> Prefix<'_, Pat>
        ensures { Some (spec.prefix_seen pat_of result) ≡ spec.prefix_at (let_of self.now) }
    {
        Prefix::Let(&self.let_token, &self.pat, &self.eq_token)
    }

    /// What is to match its pattern.
    pub fn operands(&self) -> Operands<'_, Expr, Arm>
        ensures { spec.operands_of tree_of arm_of result ≡ spec.operands_at (let_of self.now) }
    {
        Operands::One(&self.expr)
    }
}

#[tactic(auto, using(crate::proofs::TreeOf::members, syn_expr_ast::proofs::Shapes::shapes))]
impl ExprMatch {
    /// What it is, but for what it looks at and its arms.
    pub fn frame(&self) -> Frame<'_, Pat>
        ensures { Some (spec.frame_seen pat_of result) ≡ spec.frame_at (match_of self.now) }
    {
        Frame::Match(&self.match_token, &self.brace_token)
    }

    /// What it looks at, and its arms.
    pub fn operands(&self) -> Operands<'_, Expr, Arm>
        ensures { spec.operands_of tree_of arm_of result ≡ spec.operands_at (match_of self.now) }
    {
        Operands::Arms(&self.expr, &self.attrs, &self.arms)
    }
}
