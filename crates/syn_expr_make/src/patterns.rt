//! Patterns, and what holds both patterns and expressions.
#![tactic(auto, using(crate::proofs::Lists::maps), unfolding(syn_expr_ast::specs::Attrs::attrs_of, syn_expr_ast::specs::Attrs::outer_of, syn_expr_ast::specs::Attrs::inner_of))]

ghost use Rattle.std.specs.Prelude.{◌≡◌, ◌⊎◌, [], ◌∷◌, ◌++◌, false, chars, map, IfErr, IfOk, None};
ghost use Rattle.syn_expr_ast.specs.Pats as pats;
ghost use Rattle.syn_expr_make.specs.Held.{arm_view, closure_head, pat_view, tree_in, view_in};
ghost use Rattle.syn_expr_spec.specs.Tree as e;
ghost use Rattle.syn_lower.specs.View.{path_of, type_of};
ghost use Rattle.syn_lower_spec.specs.Pat as p;
ghost use Rattle.syn_tokens.specs.Lex.{IsIdentText, or_unknown, refusal};

use crate::list::{all_parts, separated_parts};
use crate::operand::{in_box, operand};
use std::alloc::Global;
use syn_expr_ast::alone::IsExpr;
use syn_expr_ast::pattern::{
    ArmOf, ExprClosureOf, ExprForLoopOf, ExprLetOf, ExprMatchOf, PatGuardOf,
};
use syn_expr_parse::known::{Held, HoldsExpr, LetGo};
use syn_expr_tokens::modifiers::ClosureModifiers;
use syn_lower::path::Path;
use syn_lower::stmt::Block;
use syn_lower::ty::ReturnType;
use syn_pat::kinds::IsPat;
use syn_pat::pat::{PatIdentOf, PatTupleStructOf, PatWild};
use syn_tokens::error::{ErrorKind, Result};
use syn_tokens::token::{
    Brace, Eq, FatArrow, For, If, In, Let, Match, Move, Or, Paren, Underscore,
};
use syn_tokens::tree::{Ident, Span, TokenStream};

/// The patterns in the expressions that an `H` holds.
pub type PatIn<H> = <<H as HoldsExpr>::Expr as IsExpr>::Pat;

/// The arms in the expressions that an `H` holds.
pub type ArmIn<H> = <<H as HoldsExpr>::Expr as IsExpr>::Arm;

/// Makes `p => b` (Rust Reference, "`match` expressions"), without a comma after it: the printer puts one where there has
/// to be one. It is refused only where memory runs out.
pub fn arm<H: HoldsExpr + Drop>(
    alloc: Global,
    pat: Held<PatIn<H>>,
    body: H,
) -> Result<Held<ArmIn<H>>>
where
    PatIn<H>: LetGo,
    ArmIn<H>: LetGo,
    ensures made { IfOk result (λ x. H.Expr.Arm.view x.value ≡ arm_view (H.Expr.Pat.view pat.value) (H.Expr.tree (H.held body))) }
    ensures memory { IfErr result (λ x. x.kind ≡ ErrorKind.OutOfMemory) }
{
    let body = operand(alloc, body)?;
    Ok(Held {
        value: H::Expr::arm(ArmOf {
            attrs: Vec::new(alloc),
            pat: pat.into_inner(),
            fat_arrow_token: FatArrow::default(),
            body: body.into_inner(),
            comma: None,
        }),
    })
}

/// Makes `move |a, b| c`, or `|a, b| c` (Rust Reference, "Closure expressions"). It is refused only where memory runs out.
pub fn closure<H: HoldsExpr + Drop>(
    alloc: Global,
    is_move: bool,
    inputs: Vec<Held<PatIn<H>>>,
    body: H,
) -> Result<H>
where
    PatIn<H>: LetGo,
    ensures made { let held = tree_in H.Expr.tree H.held in let seen = map (view_in H.Expr.Pat.view) inputs.items in IfOk result (λ x. held x ≡ e.prefixed (e.closure (closure_head is_move (pats.trees seen))) (pats.strays (pats.guards seen) e.none) (held body)) }
    ensures memory { IfErr result (λ x. x.kind ≡ ErrorKind.OutOfMemory) }
{
    let body = operand(alloc, body)?;
    let inputs = separated_parts(alloc, inputs)?;
    Ok(H::hold(H::Expr::closure(ExprClosureOf {
        attrs: Vec::new(alloc),
        lifetimes: None,
        modifiers: ClosureModifiers {
            static_token: None,
            use_token: None,
        },
        constness: None,
        asyncness: None,
        capture: is_move.then(Move::default),
        inputs_begin: Or::default(),
        inputs,
        inputs_end: Or::default(),
        output: ReturnType::Default,
        body: body.into_inner(),
    })))
}

/// Makes `for p in a { .. }` (Rust Reference, "Iterator loops"). It is refused only where memory runs out.
pub fn for_loop<H: HoldsExpr + Drop>(
    alloc: Global,
    pat: Held<PatIn<H>>,
    expr: H,
    body: TokenStream,
) -> Result<H>
where
    PatIn<H>: LetGo,
    ensures made { let held = tree_in H.Expr.tree H.held in let seen = H.Expr.Pat.view pat.value in IfOk result (λ x. held x ≡ e.frame (e.for_loop None seen.tree) (pats.strays seen.guards (e.child e.loop_head (e.braced (e.body_of [] body)) (held expr) e.none))) }
    ensures memory { IfErr result (λ x. x.kind ≡ ErrorKind.OutOfMemory) }
{
    let pat = in_box(alloc, pat.into_inner())?;
    let expr = operand(alloc, expr)?;
    Ok(H::hold(H::Expr::for_loop(ExprForLoopOf {
        attrs: Vec::new(alloc),
        label: None,
        for_token: For::default(),
        pat: pat.into_inner(),
        in_token: In::default(),
        expr: expr.into_inner(),
        body: Block {
            brace_token: Brace::default(),
            stmts: body,
        },
    })))
}

/// Makes `p if a`, the pattern of an arm with a guard (Rust Reference, "Match guards"). It is refused only where memory
/// runs out.
pub fn guarded<H: HoldsExpr + Drop>(
    alloc: Global,
    pat: Held<PatIn<H>>,
    guard: H,
) -> Result<Held<PatIn<H>>>
where
    PatIn<H>: LetGo,
    ensures made { let seen = H.Expr.Pat.view pat.value in IfOk result (λ x. H.Expr.Pat.view x.value ≡ pat_view (p.guarded seen.tree) (seen.guards ++ H.Expr.tree (H.held guard) ∷ [])) }
    ensures memory { IfErr result (λ x. x.kind ≡ ErrorKind.OutOfMemory) }
{
    let pat = in_box(alloc, pat.into_inner())?;
    let guard = operand(alloc, guard)?;
    Ok(Held {
        value: H::Expr::guarded(PatGuardOf {
            attrs: Vec::new(alloc),
            pat: pat.into_inner(),
            if_token: If::default(),
            guard: guard.into_inner(),
        }),
    })
}

/// Makes `a`, the pattern that binds a name (Rust Reference, "Identifier patterns"). A text that is no identifier or
/// reserved word is refused as `Ident::new` refuses it; else it is refused only where memory runs out. A reserved word
/// makes a pattern that isn't read back.
pub fn ident_pat<P: IsPat + LetGo>(alloc: Global, name: &str) -> Result<Held<P>>
    ensures made { IfOk result (λ x. P.view x.value ≡ pat_view (p.a_binding false false name.now p.no_sub) []) }
    ensures word { IfOk result (λ x. IsIdentText (chars name.now)) }
    ensures refused { IfErr result (λ x. (x.kind ≡ ErrorKind.OutOfMemory) ⊎ ¬ IsIdentText (chars name.now)) }
    ensures kind { IfErr result (λ x. (x.kind ≡ ErrorKind.OutOfMemory) ⊎ (x.kind ≡ ErrorKind.Lex (or_unknown (refusal (chars name.now))))) }
{
    let ident = Ident::new(alloc, name, Span::call_site())?;
    Ok(Held {
        value: P::ident(PatIdentOf {
            attrs: Vec::new(alloc),
            by_ref: None,
            mutability: None,
            ident,
            subpat: None,
        }),
    })
}

/// Makes `let p = a`, for a condition (Rust Reference, "`if let` patterns"). It is refused only where memory runs out.
pub fn let_expr<H: HoldsExpr + Drop>(alloc: Global, pat: Held<PatIn<H>>, expr: H) -> Result<H>
where
    PatIn<H>: LetGo,
    ensures made { let held = tree_in H.Expr.tree H.held in let seen = H.Expr.Pat.view pat.value in IfOk result (λ x. held x ≡ e.prefixed (e.let_expr seen.tree) (pats.strays seen.guards e.none) (held expr)) }
    ensures memory { IfErr result (λ x. x.kind ≡ ErrorKind.OutOfMemory) }
{
    let pat = in_box(alloc, pat.into_inner())?;
    let expr = operand(alloc, expr)?;
    Ok(H::hold(H::Expr::let_expr(ExprLetOf {
        attrs: Vec::new(alloc),
        let_token: Let::default(),
        pat: pat.into_inner(),
        eq_token: Eq::default(),
        expr: expr.into_inner(),
    })))
}

/// Makes `match a { .. }` (Rust Reference, "`match` expressions"). It is refused only where memory runs out.
pub fn match_expr<H: HoldsExpr + Drop>(
    alloc: Global,
    expr: H,
    arms: Vec<Held<ArmIn<H>>>,
) -> Result<H>
where
    ArmIn<H>: LetGo,
    ensures made { let held = tree_in H.Expr.tree H.held in IfOk result (λ x. held x ≡ e.frame e.match_expr (e.child e.scrutinee (e.opened []) (held expr) (pats.arms (map (view_in H.Expr.Arm.view) arms.items)))) }
    ensures memory { IfErr result (λ x. x.kind ≡ ErrorKind.OutOfMemory) }
{
    let expr = operand(alloc, expr)?;
    let arms = all_parts(alloc, arms)?;
    Ok(H::hold(H::Expr::match_expr(ExprMatchOf {
        attrs: Vec::new(alloc),
        match_token: Match::default(),
        expr: expr.into_inner(),
        brace_token: Brace::default(),
        arms,
    })))
}

/// Makes `A(p, q)`, the pattern of a tuple struct or of such a variant (Rust Reference, "Tuple struct patterns"). It is
/// refused only where memory runs out.
pub fn tuple_struct_pat<P: IsPat + LetGo>(
    alloc: Global,
    path: Path,
    elems: Vec<Held<P>>,
) -> Result<Held<P>>
    ensures made { let seen = map (view_in P.view) elems.items in IfOk result (λ x. P.view x.value ≡ pat_view (p.tuple_struct (path_of type_of path) (p.pats_of (pats.trees seen)) false) (pats.guards seen)) }
    ensures memory { IfErr result (λ x. x.kind ≡ ErrorKind.OutOfMemory) }
{
    let elems = separated_parts(alloc, elems)?;
    Ok(Held {
        value: P::tuple_struct(PatTupleStructOf {
            attrs: Vec::new(alloc),
            path,
            paren_token: Paren::default(),
            elems,
        }),
    })
}

/// Makes `_`, the pattern that matches all (Rust Reference, "Wildcard pattern").
pub fn wild_pat<P: IsPat + LetGo>(alloc: Global) -> Held<P>
    ensures { P.view result.value ≡ pat_view p.wild [] }
{
    Held {
        value: P::wild(PatWild {
            attrs: Vec::new(alloc),
            underscore_token: Underscore::default(),
        }),
    }
}
