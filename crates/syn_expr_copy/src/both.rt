//! Copies of what holds both expressions and patterns, by what it is made of: `Expr` and `Pat` hold each other, so what is
//! made of both stands beside them.

ghost use Rattle.std.specs.Option.{ForSome};
ghost use Rattle.std.specs.Prelude.{◌≡◌, Contains, IfErr, IfOk};
ghost use Rattle.syn_expr_ast.specs.Both.{arm_of, expr_closure_of, expr_for_loop_of, expr_let_of, expr_match_of, guarded_of};
ghost use Rattle.syn_lower_copy.specs.Copying.{Copies, Takes, RunsOut};

use crate::leaf::{copy_attrs, copy_some_label};
use crate::list::{copy_all, copy_boxed};
use crate::pat_part::copy_pats;
use crate::seen::{ByArm, ByExpr, ByPat};
use std::alloc::Global;
use syn_expr_ast::alone::IsExpr;
use syn_expr_ast::node::Closure;
use syn_expr_ast::pattern::{
    ArmOf, ExprClosureOf, ExprForLoopOf, ExprLetOf, ExprMatchOf, PatGuardOf,
};
use syn_expr_parse::known::{Held, LetGo};
use syn_expr_tokens::modifiers::Label;
use syn_lower::attr::Attribute;
use syn_lower::stmt::Block;
use syn_lower_copy::leaf::{copy_attributes, copy_block, copy_some_lifetimes};
use syn_lower_copy::types::copy_types_output;
use syn_tokens::error::{ErrorKind, Result};
use syn_tokens::token::{Brace, Comma, Eq, FatArrow, For, If, In, Let, Match};

/// A copy of a closure.
pub fn copy_closure<
    E: IsExpr + LetGo,
    F: Fn(&E, Global) -> Result<E>,
    G: Fn(&E::Pat, Global) -> Result<E::Pat>,
>(
    alloc: Global,
    attrs: &Vec<Attribute>,
    head: &Closure<'_, E::Pat>,
    body: &Box<E>,
    call: &F,
    call_pat: &G,
) -> Result<E>
where
    E::Pat: LetGo,
    requires takes_inner { (q : _) → Contains head.now.inputs.now.inner.items q → Takes (G.pre call_pat.now) alloc q.0 }
    requires takes_last { ForSome head.now.inputs.now.last (λ b. Takes (G.pre call_pat.now) alloc b.value) }
    requires takes_body { Takes (F.pre call.now) alloc body.now.value }
    requires copies { Copies E.tree (F.post call.now) alloc }
    requires runs_out { RunsOut (F.post call.now) alloc }
    requires copies_pat { Copies E.Pat.view (G.post call_pat.now) alloc }
    requires runs_out_pat { RunsOut (G.post call_pat.now) alloc }
    ensures copied { IfOk result (λ y. E.tree y ≡ expr_closure_of E.tree E.Pat.view (record { attrs = attrs.now; lifetimes = head.now.lifetimes.now; modifiers = head.now.modifiers.now; constness = head.now.constness.now; asyncness = head.now.asyncness.now; capture = head.now.capture.now; inputs_begin = head.now.inputs_begin.now; inputs = head.now.inputs.now; inputs_end = head.now.inputs_end.now; output = head.now.output.now; body = body.now })) }
    ensures memory { IfErr result (λ e. e.kind ≡ ErrorKind.OutOfMemory) }
{
    let attrs = copy_attrs(alloc, attrs)?;
    let lifetimes = copy_some_lifetimes(alloc, head.lifetimes)?;
    let output = copy_types_output(alloc, head.output)?;
    let body = Held {
        value: copy_boxed(alloc, ByExpr {}, body, call)?,
    };
    let inputs = copy_pats(alloc, head.inputs, call_pat)?;
    Ok(E::closure(ExprClosureOf {
        attrs,
        lifetimes,
        modifiers: *head.modifiers,
        constness: *head.constness,
        asyncness: *head.asyncness,
        capture: *head.capture,
        inputs_begin: *head.inputs_begin,
        inputs,
        inputs_end: *head.inputs_end,
        output,
        body: body.into_inner(),
    }))
}

/// A copy of `for`.
pub fn copy_for_loop<
    E: IsExpr + LetGo,
    F: Fn(&E, Global) -> Result<E>,
    G: Fn(&E::Pat, Global) -> Result<E::Pat>,
>(
    alloc: Global,
    attrs: &Vec<Attribute>,
    label: &Option<Label>,
    for_token: For,
    pat: &Box<E::Pat>,
    in_token: In,
    expr: &Box<E>,
    body: &Block,
    call: &F,
    call_pat: &G,
) -> Result<E>
where
    E::Pat: LetGo,
    requires takes_pat { Takes (G.pre call_pat.now) alloc pat.now.value }
    requires takes_expr { Takes (F.pre call.now) alloc expr.now.value }
    requires copies { Copies E.tree (F.post call.now) alloc }
    requires runs_out { RunsOut (F.post call.now) alloc }
    requires copies_pat { Copies E.Pat.view (G.post call_pat.now) alloc }
    requires runs_out_pat { RunsOut (G.post call_pat.now) alloc }
    ensures copied { IfOk result (λ y. E.tree y ≡ expr_for_loop_of E.tree E.Pat.view (record { attrs = attrs.now; label = label.now; for_token = for_token; pat = pat.now; in_token = in_token; expr = expr.now; body = body.now })) }
    ensures memory { IfErr result (λ e. e.kind ≡ ErrorKind.OutOfMemory) }
{
    let attrs = copy_attrs(alloc, attrs)?;
    let label = copy_some_label(alloc, label)?;
    let body = copy_block(alloc, body)?;
    let pat = Held {
        value: copy_boxed(alloc, ByPat {}, pat, call_pat)?,
    };
    let expr = copy_boxed(alloc, ByExpr {}, expr, call)?;
    Ok(E::for_loop(ExprForLoopOf {
        attrs,
        label,
        for_token,
        pat: pat.into_inner(),
        in_token,
        expr,
        body,
    }))
}

/// A copy of `let` in a condition.
pub fn copy_let<
    E: IsExpr + LetGo,
    F: Fn(&E, Global) -> Result<E>,
    G: Fn(&E::Pat, Global) -> Result<E::Pat>,
>(
    alloc: Global,
    attrs: &Vec<Attribute>,
    let_token: Let,
    pat: &Box<E::Pat>,
    eq_token: Eq,
    expr: &Box<E>,
    call: &F,
    call_pat: &G,
) -> Result<E>
where
    E::Pat: LetGo,
    requires takes_pat { Takes (G.pre call_pat.now) alloc pat.now.value }
    requires takes_expr { Takes (F.pre call.now) alloc expr.now.value }
    requires copies { Copies E.tree (F.post call.now) alloc }
    requires runs_out { RunsOut (F.post call.now) alloc }
    requires copies_pat { Copies E.Pat.view (G.post call_pat.now) alloc }
    requires runs_out_pat { RunsOut (G.post call_pat.now) alloc }
    ensures copied { IfOk result (λ y. E.tree y ≡ expr_let_of E.tree E.Pat.view (record { attrs = attrs.now; let_token = let_token; pat = pat.now; eq_token = eq_token; expr = expr.now })) }
    ensures memory { IfErr result (λ e. e.kind ≡ ErrorKind.OutOfMemory) }
{
    let attrs = copy_attrs(alloc, attrs)?;
    let pat = Held {
        value: copy_boxed(alloc, ByPat {}, pat, call_pat)?,
    };
    let expr = copy_boxed(alloc, ByExpr {}, expr, call)?;
    Ok(E::let_expr(ExprLetOf {
        attrs,
        let_token,
        pat: pat.into_inner(),
        eq_token,
        expr,
    }))
}

/// A copy of `match`.
pub fn copy_match<
    E: IsExpr + LetGo,
    F: Fn(&E, Global) -> Result<E>,
    G: Fn(&E::Arm, Global) -> Result<E::Arm>,
>(
    alloc: Global,
    attrs: &Vec<Attribute>,
    match_token: Match,
    expr: &Box<E>,
    brace_token: Brace,
    arms: &Vec<E::Arm>,
    call: &F,
    call_arm: &G,
) -> Result<E>
where
    E::Arm: LetGo,
    requires takes_expr { Takes (F.pre call.now) alloc expr.now.value }
    requires takes_arms { (x : _) → Contains arms.now.items x → Takes (G.pre call_arm.now) alloc x }
    requires copies { Copies E.tree (F.post call.now) alloc }
    requires runs_out { RunsOut (F.post call.now) alloc }
    requires copies_arm { Copies E.Arm.view (G.post call_arm.now) alloc }
    requires runs_out_arm { RunsOut (G.post call_arm.now) alloc }
    ensures copied { IfOk result (λ y. E.tree y ≡ expr_match_of E.tree E.Arm.view (record { attrs = attrs.now; match_token = match_token; expr = expr.now; brace_token = brace_token; arms = arms.now })) }
    ensures memory { IfErr result (λ e. e.kind ≡ ErrorKind.OutOfMemory) }
{
    let attrs = copy_attrs(alloc, attrs)?;
    let expr = Held {
        value: copy_boxed(alloc, ByExpr {}, expr, call)?,
    };
    let arms = copy_all(alloc, ByArm {}, arms, call_arm)?;
    Ok(E::match_expr(ExprMatchOf {
        attrs,
        match_token,
        expr: expr.into_inner(),
        brace_token,
        arms,
    }))
}

/// A copy of an arm of `match`.
pub fn copy_arm<
    E: IsExpr + LetGo,
    F: Fn(&E, Global) -> Result<E>,
    G: Fn(&E::Pat, Global) -> Result<E::Pat>,
>(
    alloc: Global,
    attrs: &Vec<Attribute>,
    pat: &E::Pat,
    fat_arrow_token: FatArrow,
    body: &Box<E>,
    comma: Option<Comma>,
    call: &F,
    call_pat: &G,
) -> Result<E::Arm>
where
    E::Pat: LetGo,
    requires takes_pat { Takes (G.pre call_pat.now) alloc pat.now }
    requires takes_body { Takes (F.pre call.now) alloc body.now.value }
    requires copies { Copies E.tree (F.post call.now) alloc }
    requires runs_out { RunsOut (F.post call.now) alloc }
    requires copies_pat { Copies E.Pat.view (G.post call_pat.now) alloc }
    requires runs_out_pat { RunsOut (G.post call_pat.now) alloc }
    ensures copied { IfOk result (λ y. E.Arm.view y ≡ arm_of E.tree E.Pat.view (record { attrs = attrs.now; pat = pat.now; fat_arrow_token = fat_arrow_token; body = body.now; comma = comma })) }
    ensures memory { IfErr result (λ e. e.kind ≡ ErrorKind.OutOfMemory) }
{
    let attrs = copy_attrs(alloc, attrs)?;
    let pat = Held {
        value: call_pat(pat, alloc)?,
    };
    let body = copy_boxed(alloc, ByExpr {}, body, call)?;
    Ok(E::arm(ArmOf {
        attrs,
        pat: pat.into_inner(),
        fat_arrow_token,
        body,
        comma,
    }))
}

/// A copy of a pattern with a guard.
pub fn copy_guard<
    E: IsExpr + LetGo,
    F: Fn(&E, Global) -> Result<E>,
    G: Fn(&E::Pat, Global) -> Result<E::Pat>,
>(
    alloc: Global,
    attrs: &Vec<Attribute>,
    pat: &Box<E::Pat>,
    if_token: If,
    guard: &Box<E>,
    call: &F,
    call_pat: &G,
) -> Result<E::Pat>
where
    E::Pat: LetGo,
    requires takes_pat { Takes (G.pre call_pat.now) alloc pat.now.value }
    requires takes_guard { Takes (F.pre call.now) alloc guard.now.value }
    requires copies { Copies E.tree (F.post call.now) alloc }
    requires runs_out { RunsOut (F.post call.now) alloc }
    requires copies_pat { Copies E.Pat.view (G.post call_pat.now) alloc }
    requires runs_out_pat { RunsOut (G.post call_pat.now) alloc }
    ensures copied { IfOk result (λ y. E.Pat.view y ≡ guarded_of E.tree E.Pat.view (record { attrs = attrs.now; pat = pat.now; if_token = if_token; guard = guard.now })) }
    ensures memory { IfErr result (λ e. e.kind ≡ ErrorKind.OutOfMemory) }
{
    let attrs = copy_attributes(alloc, attrs)?;
    let pat = Held {
        value: copy_boxed(alloc, ByPat {}, pat, call_pat)?,
    };
    let guard = copy_boxed(alloc, ByExpr {}, guard, call)?;
    Ok(E::guarded(PatGuardOf {
        attrs,
        pat: pat.into_inner(),
        if_token,
        guard,
    }))
}
