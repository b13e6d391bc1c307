//! Whether patterns of each kind are read back with no guard in them, over the patterns inside.

ghost use Rattle.std.specs.List.{list_all};
ghost use Rattle.std.specs.Prelude.{◌≡◌, ◌&&◌, true, false, map};
ghost use Rattle.syn_expr_wellformed.specs.Alone as spec;
ghost use Rattle.syn_lower.specs.View.{type_of, values, mapped, segment_of, path_of, qself_or};
ghost use Rattle.syn_lower_spec.specs.Part.{segments_bare};
ghost use Rattle.syn_lower_spec.specs.PatFits as fits;
ghost use Rattle.syn_pat.specs.View as of;

use crate::fits::member_fits;
use syn_expr_ast::attrs::all_outer;
use syn_expr_tokens::limits::RangeLimits;
use syn_lexer::front::is_reserved_word;
use syn_lower::path::{Path, PathArguments, PathSegment, PathStyle, QSelf};
use syn_lower::punctuated::Punctuated;
use syn_lower::qpath_is_read_back;
use syn_lower_types::fits::has_none;
use syn_pat::kinds::HasPatTree;
use syn_pat::pat::{
    FieldPatKindOf, FieldPatOf, PatIdentOf, PatLit, PatMacro, PatOrOf, PatPath, PatRange, PatRest,
    PatSliceOf, PatStructOf, PatTupleStructOf, RangeBound,
};
use syn_tokens::token::{At, PathSep};

/// What the pattern round another asks of it.
#[derive(Clone, Copy)]
pub enum PatSort {
    /// `..`
    Rest,
    /// `mut` and a name.
    Mut,
    /// Another, or one after attributes.
    Other,
}

/// A type of patterns of which it is known whether they are read back. It is one question, without others beside it: `Pat` asks
/// itself through code that is generic in such a type, and what is not part of that recursion can't be passed on there.
pub trait FitPat {
    ghost use Rattle.syn_pat.specs.View.{PatView};

    /// A pattern without its places, and the guards in it.
    ghost shown: { Self → PatView };

    /// Whether a pattern is read back, where there may be alternatives or may not, and no guard is in it.
    fn fits(&self, several: bool) -> bool
        ensures { result ≡ spec.fits_alone several (Self.shown self.now) };
}

/// The sort of `..`.
#[tactic(auto, using(crate::proofs::PatKinds::sorts))]
pub fn rest_sort(x: &PatRest) -> PatSort
    ensures { result ≡ spec.sort_at (of.pat_rest_of x.now).tree }
{
    if x.attrs.is_empty() {
        PatSort::Rest
    } else {
        PatSort::Other
    }
}

/// The sort of a name that is bound.
#[tactic(auto, using(crate::proofs::PatKinds::sorts))]
pub fn ident_sort<P: HasPatTree>(x: &PatIdentOf<P>) -> PatSort
    ensures { result ≡ spec.sort_at (of.pat_ident_of P.view x.now).tree }
{
    if x.attrs.is_empty() && x.by_ref.is_none() && x.mutability.is_some() {
        PatSort::Mut
    } else {
        PatSort::Other
    }
}

/// Whether each of the patterns that puncts follow is read back.
fn pairs_fit<P: FitPat, S>(mut pairs: &[(P, S)], several: bool) -> bool
    ensures { result ≡ list_all (λ p. spec.fits_alone several (P.shown p)) (map (λ q. q.0) pairs.entry.now) }
{
    'pairs: while let [(pat, _), more @ ..] = pairs {
        if !pat.fits(several) {
            return false;
        }
        pairs = more;
    }
    true
}

/// Whether each pattern of a list is read back.
#[tactic(auto, using(syn_lower_leaves::proofs::Fitting::lists), unfolding(syn_lower_leaves::specs::View::values))]
pub fn pats_fit<P: FitPat, S>(list: &Punctuated<P, S>, several: bool) -> bool
    ensures { result ≡ list_all (λ p. spec.fits_alone several (P.shown p)) (values list.now) }
{
    if !pairs_fit(&list.inner, several) {
        return false;
    }
    match &list.last {
        Some(pat) => pat.fits(several),
        None => true,
    }
}

/// Whether a bound of a range is read back.
fn bound_fits(bound: &RangeBound) -> bool
    ensures { result ≡ fits.range_bound_fits (of.bound_of bound.now) }
{
    match bound {
        RangeBound::Lit(lit) => lit.is_read_back(),
        RangeBound::Path { qself, path } => qpath_is_read_back(qself, path, true),
    }
}

/// Whether a bound of a range is read back, if there is one; where none is, whether none may be.
fn bound_or(missing: bool, bound: &Option<RangeBound>) -> bool
    ensures { result ≡ fits.bound_or missing (mapped of.bound_of bound.now) }
{
    match bound {
        Some(bound) => bound_fits(bound),
        None => missing,
    }
}

/// Whether a range is read back: one without a bound is closed, and a closed one has an end.
#[tactic(auto, using(crate::proofs::PatKinds::ranges))]
pub fn range_fits(x: &PatRange, several: bool) -> bool
    ensures { result ≡ spec.fits_behind several (of.pat_range_of x.now) }
{
    let closed = matches!(x.limits, RangeLimits::Closed(_));
    let some = x.start.is_some() || closed || x.end.is_some();
    some && bound_or(true, &x.start) && bound_or(!closed, &x.end)
}

/// Whether a literal is read back, perhaps with a sign.
#[tactic(auto, using(crate::proofs::PatKinds::kinds))]
pub fn lit_fits(x: &PatLit, several: bool) -> bool
    ensures { result ≡ spec.fits_behind several (of.pat_lit_of x.now) }
{
    x.lit.is_read_back()
}

/// Whether what comes after `@` is read back, if there is such.
fn sub_fits<P: FitPat>(sub: &Option<(At, Box<P>)>) -> bool
    ensures { result ≡ spec.sub_alone P.shown sub.now }
{
    match sub {
        Some((_, pat)) => pat.fits(false),
        None => true,
    }
}

/// Whether a name that is bound is read back, and what comes after its `@`.
#[tactic(auto, using(crate::proofs::PatKinds::kinds))]
pub fn ident_fits<P: FitPat>(x: &PatIdentOf<P>, several: bool) -> bool
    ensures { result ≡ spec.fits_behind several (of.pat_ident_of P.shown x.now) }
{
    !is_reserved_word(x.ident.as_str()) && sub_fits(&x.subpat)
}

/// Whether a segment is a name without arguments.
fn is_name(segment: &PathSegment) -> bool
    ensures { result ≡ spec.is_name (segment_of type_of segment.now) }
{
    !is_reserved_word(segment.ident.as_str()) && matches!(segment.arguments, PathArguments::None)
}

/// Whether the segments are one name.
#[tactic(auto, unfolding(syn_lower_leaves::specs::View::values))]
fn is_sole_name(segments: &Punctuated<PathSegment, PathSep>) -> bool
    ensures { result ≡ fits.is_name_alone false (map (segment_of type_of) (values segments.now)) }
{
    match (segments.inner.as_slice(), &segments.last) {
        ([], Some(segment)) => is_name(segment),
        ([(segment, _)], None) => is_name(segment),
        _ => false,
    }
}

/// Whether a path is one name, which is read as what it binds.
fn is_one_name(qself: &Option<QSelf>, path: &Path) -> bool
    ensures { result ≡ fits.is_one_name (qself_or type_of qself.now) (path_of type_of path.now) }
{
    qself.is_none() && path.leading_colon.is_none() && is_sole_name(&path.segments)
}

/// Whether a path is read back: one name is not.
#[tactic(auto, using(crate::proofs::PatKinds::kinds))]
pub fn path_fits(x: &PatPath, several: bool) -> bool
    ensures { result ≡ spec.fits_behind several (of.pat_path_of x.now) }
{
    qpath_is_read_back(&x.qself, &x.path, true) && !is_one_name(&x.qself, &x.path)
}

/// Whether none of the segments that `::` follows has arguments.
fn pairs_bare(mut pairs: &[(PathSegment, PathSep)]) -> bool
    ensures { result ≡ segments_bare (map (λ q. segment_of type_of q.0) pairs.entry.now) }
{
    'pairs: while let [(segment, _), more @ ..] = pairs {
        if !has_none(&segment.arguments) {
            return false;
        }
        pairs = more;
    }
    true
}

/// Whether no segment has arguments.
#[tactic(auto, using(crate::proofs::PatKinds::bares))]
fn are_bare(segments: &Punctuated<PathSegment, PathSep>) -> bool
    ensures { result ≡ segments_bare (map (segment_of type_of) (values segments.now)) }
{
    if !pairs_bare(&segments.inner) {
        return false;
    }
    match &segments.last {
        Some(segment) => has_none(&segment.arguments),
        None => true,
    }
}

/// Whether the call of a macro is read back: no segment of its path has arguments.
#[tactic(auto, using(crate::proofs::PatKinds::kinds))]
pub fn macro_fits(x: &PatMacro, several: bool) -> bool
    ensures { result ≡ spec.fits_behind several (of.pat_macro_of x.now) }
{
    x.mac.path.is_read_back(PathStyle::Expr) && are_bare(&x.mac.path.segments)
}

/// Whether what a field of a struct pattern is after its attributes is read back.
fn kind_fits<P: FitPat>(kind: &FieldPatKindOf<P>) -> bool
    ensures { result ≡ spec.kind_alone P.shown kind.now }
{
    match kind {
        FieldPatKindOf::Short(x) => !is_reserved_word(x.ident.as_str()),
        FieldPatKindOf::Full(x) => member_fits(&x.member) && x.pat.fits(true),
    }
}

/// Whether a field of a struct pattern is read back.
#[tactic(auto, unfolding(syn_expr_ast::specs::Attrs::attrs_of))]
fn field_fits<P: FitPat>(field: &FieldPatOf<P>) -> bool
    ensures { result ≡ spec.field_alone P.shown field.now }
{
    all_outer(&field.attrs) && kind_fits(&field.kind)
}

/// Whether each of the fields that puncts follow is read back.
fn field_pairs_fit<P: FitPat, S>(mut pairs: &[(FieldPatOf<P>, S)]) -> bool
    ensures { result ≡ list_all (spec.field_alone P.shown) (map (λ q. q.0) pairs.entry.now) }
{
    'pairs: while let [(field, _), more @ ..] = pairs {
        if !field_fits(field) {
            return false;
        }
        pairs = more;
    }
    true
}

/// Whether each field of a struct pattern is read back.
#[tactic(auto, using(syn_lower_leaves::proofs::Fitting::lists), unfolding(syn_lower_leaves::specs::View::values))]
fn fields_fit<P: FitPat, S>(list: &Punctuated<FieldPatOf<P>, S>) -> bool
    ensures { result ≡ list_all (spec.field_alone P.shown) (values list.now) }
{
    if !field_pairs_fit(&list.inner) {
        return false;
    }
    match &list.last {
        Some(field) => field_fits::<P>(field),
        None => true,
    }
}

/// Whether a struct pattern is read back: there is a comma between its fields and `..`.
#[tactic(auto, using(crate::proofs::PatKinds::structs))]
pub fn struct_fits<P: FitPat>(x: &PatStructOf<P>, several: bool) -> bool
    ensures { result ≡ spec.fits_behind several (of.pat_struct_of P.shown x.now) }
{
    x.path.is_read_back(PathStyle::Expr)
        && fields_fit(&x.fields)
        && (x.rest.is_none() || x.fields.last.is_none())
}

/// Whether a tuple struct pattern is read back.
#[tactic(auto, using(crate::proofs::PatKinds::kinds))]
pub fn tuple_struct_fits<P: FitPat>(x: &PatTupleStructOf<P>, several: bool) -> bool
    ensures { result ≡ spec.fits_behind several (of.pat_tuple_struct_of P.shown x.now) }
{
    x.path.is_read_back(PathStyle::Expr) && pats_fit(&x.elems, true)
}

/// Whether a slice is read back.
#[tactic(auto, using(crate::proofs::PatKinds::kinds))]
pub fn slice_fits<P: FitPat>(x: &PatSliceOf<P>, several: bool) -> bool
    ensures { result ≡ spec.fits_behind several (of.pat_slice_of P.shown x.now) }
{
    pats_fit(&x.elems, true)
}

/// Whether alternatives are read back where there may be some: one alone has a `|` before it, and no `|` ends them.
#[tactic(auto, using(crate::proofs::PatKinds::kinds))]
pub fn or_fits<P: FitPat>(x: &PatOrOf<P>, several: bool) -> bool
    ensures { result ≡ spec.fits_behind several (of.pat_or_of P.shown x.now) }
{
    several
        && x.cases.last.is_some()
        && (x.leading_vert.is_some() || !x.cases.inner.is_empty())
        && pats_fit(&x.cases, false)
}
