//! Guards in patterns where there may be none. They aren't spelled, and a pass over an expression visits them.

ghost use Rattle.std.specs.Prelude.{◌≡◌, ◌++◌, ◌∷◌, [], IfOk, flat_map, map};
ghost use Rattle.syn_expr_core.specs.Strays.{arm_strays, arms_strays, found_trees, strays_by};
ghost use Rattle.syn_expr_core.specs.View.{arm_of, guard_of, pat_of, tree_of};
ghost use Rattle.syn_lower.specs.View.{values};
ghost use Rattle.syn_pat.specs.View.{field_guards, guards_in};

use crate::control::Arm;
use crate::expr::Expr;
use crate::pat::{Pat, PatGuard};
use std::alloc::AllocError;
use syn_lower::punctuated::Punctuated;
use syn_pat::pat::{FieldPatKindOf, FieldPatOf};
use syn_tokens::token::{Comma, Or};

/// One more that was found.
#[tactic(auto, using(crate::proofs::StrayGuards::found))]
fn one<'a>(guard: &'a Expr, mut found: Vec<&'a Expr>) -> Result<Vec<&'a Expr>, AllocError>
    ensures { IfOk result (λ xs. found_trees xs.items ≡ found_trees found.entry.items ++ tree_of guard.now ∷ []) }
{
    found.push(guard)?;
    Ok(found)
}

/// The guards in a list of patterns.
#[cycle(guards)]
pub(crate) fn in_list<'a>(
    pats: &'a Punctuated<Pat, Comma>,
    mut found: Vec<&'a Expr>,
) -> Result<Vec<&'a Expr>, AllocError>
    ensures { IfOk result (λ xs. found_trees xs.items ≡ found_trees found.entry.items ++ guards_in pat_of (values pats.now)) }
{
    for pair in &pats.inner {
        found = find_guards(&pair.0, found)?;
    }
    match &pats.last {
        Some(pat) => find_guards(pat, found),
        None => Ok(found),
    }
}

/// The guards in alternatives.
#[cycle(guards)]
fn in_cases<'a>(
    cases: &'a Punctuated<Pat, Or>,
    mut found: Vec<&'a Expr>,
) -> Result<Vec<&'a Expr>, AllocError>
    ensures { IfOk result (λ xs. found_trees xs.items ≡ found_trees found.entry.items ++ guards_in pat_of (values cases.now)) }
{
    for pair in &cases.inner {
        found = find_guards(&pair.0, found)?;
    }
    match &cases.last {
        Some(pat) => find_guards(pat, found),
        None => Ok(found),
    }
}

/// The guards in the fields of a struct pattern.
#[cycle(guards)]
fn in_fields<'a>(
    fields: &'a Punctuated<FieldPatOf<Pat>, Comma>,
    mut found: Vec<&'a Expr>,
) -> Result<Vec<&'a Expr>, AllocError>
    ensures { IfOk result (λ xs. found_trees xs.items ≡ found_trees found.entry.items ++ flat_map (λ y. field_guards pat_of y.kind) (values fields.now)) }
{
    for pair in &fields.inner {
        if let FieldPatKindOf::Full(x) = &pair.0.kind {
            found = find_guards(&x.pat, found)?;
        }
    }
    match &fields.last {
        Some(field) => match &field.kind {
            FieldPatKindOf::Short(_) => Ok(found),
            FieldPatKindOf::Full(x) => find_guards(&x.pat, found),
        },
        None => Ok(found),
    }
}

/// The guards in a pattern with a guard, and that guard.
#[cycle(guards)]
fn in_guarded<'a>(x: &'a PatGuard, found: Vec<&'a Expr>) -> Result<Vec<&'a Expr>, AllocError>
    ensures { IfOk result (λ xs. found_trees xs.items ≡ found_trees found.entry.items ++ (guard_of x.now).guards) }
{
    let found = find_guards(&x.pat, found)?;
    one(&x.guard, found)
}

/// The guards in a pattern, behind what was found before.
#[cycle(guards)]
#[tactic(auto, using(crate::proofs::TreeOf::pats, crate::proofs::StrayGuards::found))]
pub(crate) fn find_guards<'a>(
    pat: &'a Pat,
    found: Vec<&'a Expr>,
) -> Result<Vec<&'a Expr>, AllocError>
    ensures { IfOk result (λ xs. found_trees xs.items ≡ found_trees found.entry.items ++ (pat_of pat.now).guards) }
{
    match pat {
        Pat::Const(_) => Ok(found),
        Pat::Guard(x) => in_guarded(x, found),
        Pat::Ident(x) => match &x.subpat {
            Some((_, pat)) => find_guards(pat, found),
            None => Ok(found),
        },
        Pat::Lit(_) => Ok(found),
        Pat::Macro(_) => Ok(found),
        Pat::Or(x) => in_cases(&x.cases, found),
        Pat::Paren(x) => find_guards(&x.pat, found),
        Pat::Path(_) => Ok(found),
        Pat::Range(_) => Ok(found),
        Pat::Reference(x) => find_guards(&x.pat, found),
        Pat::Rest(_) => Ok(found),
        Pat::Slice(x) => in_list(&x.elems, found),
        Pat::Struct(x) => in_fields(&x.fields, found),
        Pat::Tuple(x) => in_list(&x.elems, found),
        Pat::TupleStruct(x) => in_list(&x.elems, found),
        Pat::Typed(x) => find_guards(&x.pat, found),
        Pat::Wild(_) => Ok(found),
    }
}

#[tactic(auto, using(crate::proofs::StrayGuards::guards, crate::proofs::TreeOf::pats, crate::proofs::TreeOf::members))]
impl PatGuard {
    /// The guards in it but its own. Its own is among them if attributes come before it, since it is then none of an arm.
    fn strays<'a>(&'a self, found: Vec<&'a Expr>) -> Result<Vec<&'a Expr>, AllocError>
        ensures { IfOk result (λ xs. found_trees xs.items ≡ found_trees found.entry.items ++ strays_by (guard_of self.now).tree (guard_of self.now).guards) }
    {
        if self.attrs.is_empty() {
            find_guards(&self.pat, found)
        } else {
            in_guarded(self, found)
        }
    }
}

/// The guards in the pattern of an arm but the arm's own.
#[tactic(auto, using(crate::proofs::StrayGuards::guards, crate::proofs::TreeOf::pats, crate::proofs::TreeOf::members))]
fn in_arm<'a>(arm: &'a Arm, found: Vec<&'a Expr>) -> Result<Vec<&'a Expr>, AllocError>
    ensures { IfOk result (λ xs. found_trees xs.items ≡ found_trees found.entry.items ++ arm_strays (arm_of arm.now)) }
{
    match &arm.pat {
        Pat::Guard(x) => x.strays(found),
        pat => find_guards(pat, found),
    }
}

/// The guards in the patterns of arms but the arms' own.
pub(crate) fn in_arms<'a>(
    mut arms: &'a [Arm],
    mut found: Vec<&'a Expr>,
) -> Result<Vec<&'a Expr>, AllocError>
    ensures { IfOk result (λ xs. found_trees xs.items ≡ found_trees found.entry.items ++ arms_strays (map arm_of arms.entry.now)) }
{
    'arms: while let [arm, more @ ..] = arms {
        found = in_arm(arm, found)?;
        arms = more;
    }
    Ok(found)
}
