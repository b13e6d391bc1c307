//! Whether a pattern is read back.

ghost use Rattle.std.specs.Prelude.{◌≡◌};
ghost use Rattle.syn_expr_core.specs.View.{guard_of, pat_of};
ghost use Rattle.syn_expr_wellformed.specs.Alone as spec;
ghost use Rattle.syn_expr_wellformed.specs.Walk.{arm_pattern};
ghost use Rattle.syn_lower_spec.specs.Form.{is_nil};
ghost use Rattle.syn_lower_spec.specs.Pat.{is_rest};
ghost use Rattle.syn_lower_spec.specs.PatFits.{begins_mut};
ghost use Rattle.syn_pat.specs.View as of;

use crate::patterns::{
    FitPat, PatSort, ident_fits, ident_sort, lit_fits, macro_fits, or_fits, path_fits, pats_fit,
    range_fits, rest_sort, slice_fits, struct_fits, tuple_struct_fits,
};
use syn_expr_ast::attrs::all_outer;
use syn_expr_core::pat::{Pat, PatGuard, PatParen, PatReference, PatTuple, PatType};
use syn_lower::attr::Attribute;
use syn_lower::punctuated::Punctuated;
use syn_lower_leaves::fits::is_one;
use syn_tokens::token::Comma;

/// The attributes before a pattern.
#[tactic(auto, using(syn_expr_core::proofs::TreeOf::pats, syn_expr_core::proofs::TreeOf::members, crate::proofs::Pats::shapes))]
fn attrs(pat: &Pat) -> &Vec<Attribute>
    ensures { of.attributes_of result.now ≡ spec.attributes_at (pat_of pat.now).tree }
{
    match pat {
        Pat::Const(x) => &x.attrs,
        Pat::Guard(x) => &x.attrs,
        Pat::Ident(x) => &x.attrs,
        Pat::Lit(x) => &x.attrs,
        Pat::Macro(x) => &x.attrs,
        Pat::Or(x) => &x.attrs,
        Pat::Paren(x) => &x.attrs,
        Pat::Path(x) => &x.attrs,
        Pat::Range(x) => &x.attrs,
        Pat::Reference(x) => &x.attrs,
        Pat::Rest(x) => &x.attrs,
        Pat::Slice(x) => &x.attrs,
        Pat::Struct(x) => &x.attrs,
        Pat::Tuple(x) => &x.attrs,
        Pat::TupleStruct(x) => &x.attrs,
        Pat::Typed(x) => &x.attrs,
        Pat::Wild(x) => &x.attrs,
    }
}

/// Whether no attributes come before a pattern.
#[tactic(auto, using(syn_expr_ast::proofs::Attributes::bares))]
fn is_bare(pat: &Pat) -> bool
    ensures { result ≡ is_nil (spec.attributes_at (pat_of pat.now).tree) }
{
    attrs(pat).is_empty()
}

/// What the pattern round it asks of a pattern.
#[tactic(auto, using(syn_expr_core::proofs::TreeOf::pats, syn_expr_core::proofs::TreeOf::members, crate::proofs::Pats::shapes))]
fn sort(pat: &Pat) -> PatSort
    ensures { result ≡ spec.sort_at (pat_of pat.now).tree }
{
    match pat {
        Pat::Rest(x) => rest_sort(x),
        Pat::Ident(x) => ident_sort(x),
        _ => PatSort::Other,
    }
}

/// Whether it is `..`, with no attributes before it.
#[tactic(auto, using(crate::proofs::PatKinds::asked))]
fn is_rest(pat: &Pat) -> bool
    ensures { result ≡ is_rest (pat_of pat.now).tree }
{
    matches!(sort(pat), PatSort::Rest)
}

/// Whether `mut` and a name begin it.
#[tactic(auto, using(crate::proofs::PatKinds::asked))]
fn begins_mut(pat: &Pat) -> bool
    ensures { result ≡ begins_mut (pat_of pat.now).tree }
{
    matches!(sort(pat), PatSort::Mut)
}

/// Whether a list is `..` alone, with no punct after it.
#[tactic(auto, using(crate::proofs::PatKinds::soles))]
fn is_sole_rest(list: &Punctuated<Pat, Comma>) -> bool
    ensures { result ≡ spec.is_sole_rest pat_of list.now.inner.items list.now.last }
{
    match &list.last {
        Some(pat) => list.inner.is_empty() && is_rest(pat),
        None => false,
    }
}

/// Whether a tuple is read back: after one pattern there is a comma, unless it is `..`.
#[cycle(fits)]
#[tactic(auto, using(crate::proofs::PatKinds::kinds))]
fn tuple_fits(x: &PatTuple, several: bool) -> bool
    ensures { result ≡ spec.fits_behind several (of.pat_tuple_of pat_of x.now) }
{
    pats_fit(&x.elems, true) && (!is_one(&x.elems) || is_sole_rest(&x.elems))
}

/// Whether a pattern in parentheses is read back: `..` alone would be a tuple.
#[cycle(fits)]
#[tactic(auto, using(crate::proofs::PatKinds::kinds))]
fn paren_fits(x: &PatParen, several: bool) -> bool
    ensures { result ≡ spec.fits_behind several (of.pat_paren_of pat_of x.now) }
{
    x.pat.fits(true) && !is_rest(&x.pat)
}

/// Whether a reference is read back: after `&` a `mut` would belong to it.
#[cycle(fits)]
#[tactic(auto, using(crate::proofs::PatKinds::kinds))]
fn reference_fits(x: &PatReference, several: bool) -> bool
    ensures { result ≡ spec.fits_behind several (of.pat_reference_of pat_of x.now) }
{
    x.pat.fits(false) && (x.mutability.is_some() || !begins_mut(&x.pat))
}

/// Whether what comes after the attributes of a pattern is read back, where there may be alternatives or may not, and no guard
/// is in it.
#[cycle(fits)]
#[tactic(auto, using(syn_expr_core::proofs::TreeOf::pats, syn_expr_core::proofs::TreeOf::members, crate::proofs::PatKinds::always))]
fn fits_behind(pat: &Pat, several: bool) -> bool
    ensures { result ≡ spec.fits_behind several (pat_of pat.now) }
{
    match pat {
        Pat::Const(_) => true,
        Pat::Guard(_) => false,
        Pat::Ident(x) => ident_fits(x, several),
        Pat::Lit(x) => lit_fits(x, several),
        Pat::Macro(x) => macro_fits(x, several),
        Pat::Or(x) => or_fits(x, several),
        Pat::Paren(x) => paren_fits(x, several),
        Pat::Path(x) => path_fits(x, several),
        Pat::Range(x) => range_fits(x, several),
        Pat::Reference(x) => reference_fits(x, several),
        Pat::Rest(_) => true,
        Pat::Slice(x) => slice_fits(x, several),
        Pat::Struct(x) => struct_fits(x, several),
        Pat::Tuple(x) => tuple_fits(x, several),
        Pat::TupleStruct(x) => tuple_struct_fits(x, several),
        Pat::Typed(_) => false,
        Pat::Wild(_) => true,
    }
}

#[tactic(auto, using(crate::proofs::PatKinds::wholes))]
impl FitPat for Pat {
    ghost shown = { pat_of };

    #[cycle(fits)]
    fn fits(&self, several: bool) -> bool {
        is_bare(self) && fits_behind(self, several)
    }
}

/// Whether an argument of a closure with a type is read back, after its attributes.
#[tactic(auto, using(crate::proofs::Pats::arguments))]
fn typed_fits(x: &PatType) -> bool
    ensures { result ≡ spec.argument_behind (of.pat_type_of pat_of x.now) }
{
    x.pat.fits(false) && x.ty.is_read_back(true)
}

/// Whether an argument of a closure is read back after its attributes.
#[tactic(auto, using(syn_expr_core::proofs::TreeOf::pats, crate::proofs::Pats::arguments))]
fn fits_as_argument(pat: &Pat) -> bool
    ensures { result ≡ spec.argument_behind (pat_of pat.now) }
{
    match pat {
        Pat::Typed(x) => typed_fits(x),
        _ => fits_behind(pat, false),
    }
}

/// Whether a pattern is read back as an argument of a closure, and no guard is in it.
#[tactic(auto, using(crate::proofs::Pats::attributed), unfolding(syn_expr_ast::specs::Attrs::attrs_of))]
pub(crate) fn argument_fits(pat: &Pat) -> bool
    ensures { result ≡ spec.argument_fits (pat_of pat.now) }
{
    all_outer(attrs(pat)) && fits_as_argument(pat)
}

/// Whether a pattern with a guard is read back in an arm.
#[tactic(auto, using(syn_expr_core::proofs::TreeOf::members, crate::proofs::Pats::guards))]
fn guarded_fits(x: &PatGuard) -> bool
    ensures { let p = guard_of x.now in result ≡ arm_pattern p.tree p.guards }
{
    x.attrs.is_empty() && x.pat.fits(true)
}

/// Whether the pattern of an arm is read back, with no guard in it but the arm's own.
#[tactic(auto, using(syn_expr_core::proofs::TreeOf::pats, crate::proofs::Pats::guards))]
pub(crate) fn arm_pattern_fits(pat: &Pat) -> bool
    ensures { let p = pat_of pat.now in result ≡ arm_pattern p.tree p.guards }
{
    match pat {
        Pat::Guard(x) => guarded_fits(x),
        _ => pat.fits(true),
    }
}
