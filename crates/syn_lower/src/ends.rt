//! Whether a type ends in a name that could have arguments after it.

ghost use Rattle.std.specs.Prelude.{◌≡◌, map};
ghost use Rattle.syn_lower.specs.Ends.{Tells, depth, segments_depth, arguments_depth, return_depth, bounds_depth};
ghost use Rattle.syn_lower.specs.View.{type_of, values, segment_of, path_of, return_of, bound_of};
ghost use Rattle.syn_lower_spec.specs.Ends as spec;
ghost use Rattle.syn_lower_spec.specs.Tree as t;

use crate::path::{Path, PathArguments, PathSegment};
use crate::ty::{ReturnType, Type, TypeParamBound};
use syn_lower_leaves::leaf::stands_alone;
use syn_lower_leaves::punctuated::Punctuated;
use syn_tokens::token::Plus;

/// What is at the right end.
enum End<'a> {
    /// No type: whether a name without arguments does.
    Name(bool),
    /// A type.
    Inside(&'a Type),
}

/// What is at the right end of an output.
fn output_end(output: &ReturnType) -> End<'_>
    ensures { Tells result (spec.return_open (return_of output.now)) (return_depth (return_of output.now)) }
{
    match output {
        ReturnType::Default => End::Name(false),
        ReturnType::Given(_, ty) => End::Inside(ty),
    }
}

/// What is at the right end of a segment.
fn segment_end(segment: &PathSegment) -> End<'_>
    ensures { let s = segment_of type_of segment.now in Tells result (spec.arguments_open s.ident s.arguments) (arguments_depth s.arguments) }
{
    match &segment.arguments {
        PathArguments::None => End::Name(!stands_alone(segment.ident.as_str())),
        PathArguments::AngleBracketed(_) => End::Name(false),
        PathArguments::Parenthesized(x) => output_end(&x.output),
    }
}

/// What is at the right end of a path.
#[tactic(auto, using(crate::proofs::Lasts::lasts))]
fn path_end(path: &Path) -> End<'_>
    ensures { let ss = t.segments_of (path_of type_of path.now).segments in Tells result (spec.segments_open ss) (segments_depth ss) }
{
    match path.segments.last() {
        Some(segment) => segment_end(segment),
        None => End::Name(false),
    }
}

/// What is at the right end of bounds.
#[tactic(auto, using(crate::proofs::Lasts::lasts))]
fn bounds_end(bounds: &Punctuated<TypeParamBound, Plus>) -> End<'_>
    ensures { let bs = t.bounds_of (map bound_of (values bounds.now)) in Tells result (spec.bounds_open bs) (bounds_depth bs) }
{
    match bounds.last() {
        Some(TypeParamBound::Lifetime(_)) => End::Name(false),
        Some(TypeParamBound::Trait(x)) => path_end(&x.path),
        None => End::Name(false),
    }
}

/// What is at the right end of a type.
#[tactic(auto, using(crate::proofs::Makes::makes))]
fn type_end(ty: &Type) -> End<'_>
    ensures { Tells result (spec.ends_open (type_of ty.now)) (depth (type_of ty.now)) }
{
    match ty {
        Type::Path(x) => path_end(&x.path),
        Type::Macro(_) => End::Name(false),
        Type::Reference(x) => End::Inside(&x.elem),
        Type::Ptr(x) => End::Inside(&x.elem),
        Type::Slice(_) => End::Name(false),
        Type::Array(_) => End::Name(false),
        Type::Tuple(_) => End::Name(false),
        Type::Paren(_) => End::Name(false),
        Type::Never(_) => End::Name(false),
        Type::Infer(_) => End::Name(false),
        Type::FnPtr(x) => output_end(&x.output),
        Type::ImplTrait(x) => bounds_end(&x.bounds),
        Type::TraitObject(x) => bounds_end(&x.bounds),
    }
}

/// Whether a type ends in a name without arguments that could have some: at a `<` after it the type would go on (Rust
/// Reference, "Paths in types"). `super`, `self`, `crate` and `try` take none.
pub fn ends_open(ty: &Type) -> bool
    ensures { result ≡ spec.ends_open (type_of ty.now) }
{
    match type_end(ty) {
        End::Name(is_open) => is_open,
        End::Inside(inner) => ends_open(inner),
    }
}
