//! Whether a type ends in a name without arguments.

ghost use Rattle.std.specs.Prelude.{◌≡◌, map};
ghost use Rattle.syn_expr_classify.specs.Right.{Tells};
ghost use Rattle.syn_expr_spec.specs.Query as query;
ghost use Rattle.syn_expr_spec.specs.Query.{trailing_unparameterized_path};
ghost use Rattle.syn_lower.specs.Ends.{depth, segments_depth, arguments_depth, bounds_depth};
ghost use Rattle.syn_lower.specs.View.{type_of, values, segment_of, path_of, bound_of};
ghost use Rattle.syn_lower_spec.specs.Tree as t;

use crate::classify::{End, output_end};
use syn_lower::path::{Path, PathArguments, PathSegment};
use syn_lower::punctuated::Punctuated;
use syn_lower::ty::{Type, TypeParamBound};
use syn_tokens::token::Plus;

/// What is at the right end of a segment.
fn segment_end(segment: &PathSegment) -> End<'_>
    ensures { let s = segment_of type_of segment.now in Tells trailing_unparameterized_path result (query.arguments_unparameterized s.arguments) (arguments_depth s.arguments) }
{
    match &segment.arguments {
        PathArguments::None => End::Known(true),
        PathArguments::AngleBracketed(_) => End::Known(false),
        PathArguments::Parenthesized(x) => output_end(&x.output),
    }
}

/// What is at the right end of a path.
#[tactic(auto, using(crate::proofs::Lasts::names, syn_lower::proofs::Lasts::lasts))]
fn path_end(path: &Path) -> End<'_>
    ensures { let ss = t.segments_of (path_of type_of path.now).segments in Tells trailing_unparameterized_path result (query.segments_unparameterized ss) (segments_depth ss) }
{
    match path.segments.last() {
        Some(segment) => segment_end(segment),
        None => End::Known(false),
    }
}

/// What is at the right end of bounds.
#[tactic(auto, using(crate::proofs::Lasts::names, syn_lower::proofs::Lasts::lasts))]
fn bounds_end(bounds: &Punctuated<TypeParamBound, Plus>) -> End<'_>
    ensures { let bs = t.bounds_of (map bound_of (values bounds.now)) in Tells trailing_unparameterized_path result (query.bounds_unparameterized bs) (bounds_depth bs) }
{
    match bounds.last() {
        Some(TypeParamBound::Trait(x)) => path_end(&x.path),
        Some(TypeParamBound::Lifetime(_)) | None => End::Known(false),
    }
}

/// What is at the right end of a type.
#[tactic(auto, using(syn_lower::proofs::Makes::makes))]
fn type_end(ty: &Type) -> End<'_>
    ensures { Tells trailing_unparameterized_path result (trailing_unparameterized_path (type_of ty.now)) (depth (type_of ty.now)) }
{
    match ty {
        Type::Path(x) => path_end(&x.path),
        Type::Reference(x) => End::Inside(&x.elem),
        Type::Ptr(x) => End::Inside(&x.elem),
        Type::FnPtr(x) => output_end(&x.output),
        Type::ImplTrait(x) => bounds_end(&x.bounds),
        Type::TraitObject(x) => bounds_end(&x.bounds),
        Type::Macro(_)
        | Type::Slice(_)
        | Type::Array(_)
        | Type::Tuple(_)
        | Type::Paren(_)
        | Type::Never(_)
        | Type::Infer(_) => End::Known(false),
    }
}

/// Whether a type ends in a name without arguments.
pub(crate) fn ends_in_name(ty: &Type) -> bool
    ensures { result ≡ trailing_unparameterized_path (type_of ty.now) }
{
    match type_end(ty) {
        End::Known(is_name) => is_name,
        End::Inside(inner) => ends_in_name(inner),
    }
}
