//! Whether parts are read back from their own tokens: what comes after the public tests.

ghost use Rattle.std.specs.List.{list_all};
ghost use Rattle.std.specs.Prelude.{◌≡◌, true, ◌&&◌, is_some, length, map, []};
ghost use Rattle.syn_lower_types.specs.ReadBack.{inner_fits, rows_fit, path_fits_inside, qpath_fits_by};
ghost use Rattle.syn_lower_types.specs.View.{values, mapped, segment_of, path_of, arguments_of, angle_of, round_of, return_of, bound_of, assoc_of, fn_ptr_of};
ghost use Rattle.syn_lexer.specs.Keywords.{is_reserved_word};
ghost use Rattle.syn_lower_spec.specs.Fits as spec;
ghost use Rattle.syn_lower_spec.specs.Own.{colon2_before};
ghost use Rattle.syn_lower_spec.specs.Part as part;
ghost use Rattle.syn_lower_spec.specs.Tree as t;
ghost use Rattle.syn_lower_spec.specs.declared.label.PathStyle.TheVariants as style;

use crate::path::{
    AngleBracketedGenericArgumentsOf, AssocTypeOf, GenericArgumentOf,
    ParenthesizedGenericArgumentsOf, PathArgumentsOf, PathOf, PathSegmentOf, QSelfOf,
};
use crate::ty::{BareFnArgOf, ReturnTypeOf, TypeFnPtrOf, TypeParamBoundOf};
use crate::types::{FitTypes, HasTree};
use syn_lexer::front::is_reserved_word;
use syn_lower_leaves::fits::{
    Element, all_fit, is_const, name_fits, some_abi_fits, style_at, takes_angle, takes_round,
};
use syn_lower_leaves::leaf::{is_segment, stands_alone};
use syn_lower_leaves::punctuated::Punctuated;
use syn_lower_spec::label::PathStyle;
use syn_tokens::token::{PathSep, Plus};

/// Whether each type of these is read back.
fn pairs_fit<T: FitTypes, P>(mut pairs: &[(T, P)]) -> bool
    ensures { result ≡ list_all (λ x. spec.type_fits true (T.tree x)) (map (λ q. q.0) pairs.entry.now) }
{
    'pairs: while let [(ty, _), more @ ..] = pairs {
        if !ty.fits_where(true) {
            return false;
        }
        pairs = more;
    }
    true
}

/// Whether each type of a list is read back.
#[tactic(auto, using(syn_lower_leaves::proofs::Fitting::lists), unfolding(syn_lower_leaves::specs::View::values))]
pub(crate) fn types_fit<T: FitTypes, P>(list: &Punctuated<T, P>) -> bool
    ensures { result ≡ list_all (λ x. spec.type_fits true (T.tree x)) (values list.now) }
{
    if !pairs_fit(&list.inner) {
        return false;
    }
    match &list.last {
        Some(ty) => ty.fits_where(true),
        None => true,
    }
}

/// Whether a segment has no arguments.
pub fn has_none<T: HasTree>(arguments: &PathArgumentsOf<T>) -> bool
    ensures { result ≡ part.has_none (arguments_of T.tree arguments.now) }
{
    match arguments {
        PathArgumentsOf::None => true,
        PathArgumentsOf::AngleBracketed(_) => false,
        PathArgumentsOf::Parenthesized(_) => false,
    }
}

/// Whether bounds end before `::`; a path goes on there.
#[tactic(auto, using(crate::proofs::Fitting::colons))]
pub fn bounds_end_before_colons<T: HasTree>(bounds: &Punctuated<TypeParamBoundOf<T>, Plus>) -> bool
    ensures { result ≡ spec.bounds_stop (t.bounds_of (map (bound_of T.tree) (values bounds.now))) (colon2_before []) }
{
    match bounds.last() {
        Some(TypeParamBoundOf::Lifetime(_)) => true,
        Some(TypeParamBoundOf::Trait(_)) => false,
        None => true,
    }
}

/// Whether what a function returns ends before `::`; an output that ends in a path goes on there.
#[tactic(auto, using(crate::proofs::Fitting::colons))]
pub fn output_ends_before_colons<T: FitTypes>(output: &ReturnTypeOf<T>) -> bool
    ensures { result ≡ spec.return_stops (return_of T.tree output.now) (colon2_before []) }
{
    match output {
        ReturnTypeOf::Default => true,
        ReturnTypeOf::Given(_, ty) => ty.ends_before_colons(),
    }
}

/// Whether arguments end before `::`; an output that ends in a path goes on there.
#[tactic(auto, using(crate::proofs::Fitting::colons))]
fn arguments_end_before_colons<T: FitTypes>(arguments: &PathArgumentsOf<T>) -> bool
    ensures { result ≡ spec.arguments_stop PathStyle.Type [] (arguments_of T.tree arguments.now) (colon2_before []) }
{
    match arguments {
        PathArgumentsOf::None => true,
        PathArgumentsOf::AngleBracketed(_) => true,
        PathArgumentsOf::Parenthesized(x) => output_ends_before_colons(&x.output),
    }
}

/// Whether what a function returns is read back; after its `impl` or `dyn` there may be several bounds, or one.
pub(crate) fn output_fits<T: FitTypes>(output: &ReturnTypeOf<T>, several: bool) -> bool
    ensures { result ≡ spec.output_fits several (return_of T.tree output.now) }
{
    match output {
        ReturnTypeOf::Default => true,
        ReturnTypeOf::Given(_, ty) => ty.fits_where(several),
    }
}

/// Whether an associated type and what it is equal to are read back.
pub(crate) fn assoc_fits<T: FitTypes>(x: &AssocTypeOf<T>) -> bool
    ensures { result ≡ spec.generic_fits (assoc_of T.tree x.now) }
{
    !is_reserved_word(x.ident.as_str()) && x.ty.fits_where(true)
}

impl<T: FitTypes> Element for GenericArgumentOf<T> {
    ghost use Rattle.syn_lower_types.specs.View.{generic_of};
    ghost use Rattle.syn_lower_spec.specs.Fits.{generic_fits};

    ghost fits = { λ x. generic_fits (generic_of T.tree x) };

    fn fits(&self) -> bool {
        match self {
            GenericArgumentOf::Lifetime(_) => true,
            GenericArgumentOf::Const(tokens) => is_const(tokens),
            GenericArgumentOf::AssocType(x) => assoc_fits(x),
            GenericArgumentOf::Ty(x) => x.fits_where(true),
        }
    }
}

/// Whether arguments between `<` and `>` are read back in a path of this style.
pub(crate) fn angle_fits<T: FitTypes>(
    x: &AngleBracketedGenericArgumentsOf<T>,
    style: PathStyle,
) -> bool
    ensures { result ≡ spec.arguments_fit style (angle_of T.tree x.now) }
{
    takes_angle(style, x.colon2_token.is_some()) && all_fit(&x.args)
}

/// Whether arguments in parentheses, and what follows them, are read back.
#[tactic(auto, using(crate::proofs::Fitting::kinds))]
pub(crate) fn round_fits<T: FitTypes>(x: &ParenthesizedGenericArgumentsOf<T>) -> bool
    ensures { result ≡ spec.arguments_fit PathStyle.Type (round_of T.tree x.now) }
{
    types_fit(&x.inputs) && output_fits(&x.output, false)
}

/// Whether arguments are read back in a path of this style.
#[tactic(auto, using(crate::proofs::Fitting::kinds))]
pub(crate) fn arguments_fit<T: FitTypes>(arguments: &PathArgumentsOf<T>, style: PathStyle) -> bool
    ensures { result ≡ spec.arguments_fit style (arguments_of T.tree arguments.now) }
{
    match arguments {
        PathArgumentsOf::None => true,
        PathArgumentsOf::AngleBracketed(x) => angle_fits(x, style),
        PathArgumentsOf::Parenthesized(x) => takes_round(style) && round_fits(x),
    }
}

/// Whether a segment is read back.
#[tactic(auto, using(crate::proofs::Fitting::segments))]
pub(crate) fn segment_fits<T: FitTypes>(segment: &PathSegmentOf<T>, style: PathStyle) -> bool
    ensures { result ≡ spec.segment_fits style (segment_of T.tree segment.now) }
{
    let word = segment.ident.as_str();
    is_segment(word)
        && (!stands_alone(word) || has_none(&segment.arguments))
        && arguments_fit(&segment.arguments, style)
}

/// Whether a segment is read back that another follows, where this many come before `>`.
fn inner_fits<T: FitTypes>(segment: &PathSegmentOf<T>, left: usize, style: PathStyle) -> bool
    ensures { result ≡ inner_fits left style (segment_of T.tree segment.now) }
{
    segment_fits(segment, style_at(left, style))
        && (left == 1 || arguments_end_before_colons(&segment.arguments))
}

/// Whether segments are read back, of which this many come before `>`.
fn segments_fit<T: FitTypes>(
    mut left: usize,
    style: PathStyle,
    mut pairs: &[(PathSegmentOf<T>, PathSep)],
    last: &PathSegmentOf<T>,
) -> bool
    ensures { result ≡ rows_fit (segment_of T.tree) left style pairs.entry.now last.now }
{
    'pairs: while let [(segment, _), more @ ..] = pairs {
        if !inner_fits(segment, left, style) {
            return false;
        }
        left = left.saturating_sub(1);
        pairs = more;
    }
    segment_fits(last, style_at(left, style))
}

/// Whether a path is read back of which this many segments come before `>`.
#[tactic(auto, using(crate::proofs::Fitting::paths))]
pub(crate) fn path_fits<T: FitTypes>(inside: usize, style: PathStyle, path: &PathOf<T>) -> bool
    ensures { result ≡ path_fits_inside inside style (path_of T.tree path.now) }
{
    match &path.segments.last {
        Some(last) => segments_fit(inside, style, &path.segments.inner, last),
        None => false,
    }
}

/// Whether so many segments may come before the `>` of this path.
fn position_fits<T>(qself: &QSelfOf<T>, path: &PathOf<T>) -> bool
    ensures { result ≡ spec.position_fits (is_some qself.now.as_token) qself.now.position (is_some path.now.leading_colon) (length (values path.now.segments)) }
{
    match qself.as_token {
        Some(_) => 0 < qself.position && qself.position < path.segments.len(),
        None => qself.position == 0 && path.leading_colon.is_some(),
    }
}

/// Whether a path is read back, with the type that it is qualified by if there is one.
pub(crate) fn qpath_fits<T: FitTypes>(
    qself: &Option<QSelfOf<T>>,
    path: &PathOf<T>,
    style: PathStyle,
) -> bool
    ensures { result ≡ qpath_fits_by (λ x. spec.type_fits true (T.tree x)) style qself.now (path_of T.tree path.now) }
{
    match qself {
        Some(qself) => {
            position_fits(qself, path)
                && qself.ty.fits_where(true)
                && path_fits(qself.position, style, path)
        }
        None => path_fits(0, style, path),
    }
}

/// Whether an argument of a function pointer is read back.
pub(crate) fn arg_fits<T: FitTypes>(x: &BareFnArgOf<T>) -> bool
    ensures { result ≡ (spec.fits_if part.is_arg_name (mapped (λ n. n.0) x.now.name) && spec.type_fits true (T.tree x.now.ty)) }
{
    name_fits(&x.name) && x.ty.fits_where(true)
}

impl<T: FitTypes> Element for BareFnArgOf<T> {
    ghost use Rattle.std.specs.Prelude.{◌&&◌, true};
    ghost use Rattle.syn_lower_types.specs.View.{mapped};
    ghost use Rattle.syn_lower_spec.specs.Fits.{fits_if, type_fits};
    ghost use Rattle.syn_lower_spec.specs.Part.{is_arg_name};

    ghost fits = { λ x. fits_if is_arg_name (mapped (λ n. n.0) x.name) && type_fits true (T.tree x.ty) };

    fn fits(&self) -> bool {
        arg_fits(self)
    }
}

/// Whether a function pointer is read back.
pub(crate) fn fn_ptr_fits<T: FitTypes>(x: &TypeFnPtrOf<T>) -> bool
    ensures { result ≡ spec.type_fits true (fn_ptr_of T.tree x.now) }
{
    some_abi_fits(&x.abi) && all_fit(&x.inputs) && output_fits(&x.output, false)
}

impl<T: FitTypes> Element for TypeParamBoundOf<T> {
    ghost use Rattle.syn_lower_types.specs.View.{bound_of};
    ghost use Rattle.syn_lower_spec.specs.Fits.{bound_fits};

    ghost fits = { λ x. bound_fits (bound_of T.tree x) };

    #[tactic(auto, using(crate::proofs::Fitting::kinds))]
    fn fits(&self) -> bool {
        match self {
            TypeParamBoundOf::Lifetime(_) => true,
            TypeParamBoundOf::Trait(x) => path_fits(0, PathStyle::Type, &x.path),
        }
    }
}
