//! Paths (Rust Reference, "Paths"): the parts of `syn_lower_types` over `Type`, under syn's names.

use crate::ty::Type;
pub use syn_lower_spec::label::PathStyle;
use syn_lower_types::path::{
    AngleBracketedGenericArgumentsOf, AssocTypeOf, GenericArgumentOf,
    ParenthesizedGenericArgumentsOf, PathArgumentsOf, PathOf, PathSegmentOf, QSelfOf,
};

/// A path: segments with `::` between, and perhaps one in front.
pub type Path = PathOf<Type>;

/// A segment of a path: an identifier, `Self`, `self`, `super`, `crate` or `try`, and its arguments.
pub type PathSegment = PathSegmentOf<Type>;

/// The arguments of a segment.
pub type PathArguments = PathArgumentsOf<Type>;

/// `<'a, T>`, `::<'a, T>`
pub type AngleBracketedGenericArguments = AngleBracketedGenericArgumentsOf<Type>;

/// An argument between `<` and `>`.
pub type GenericArgument = GenericArgumentOf<Type>;

/// `Item = T`
pub type AssocType = AssocTypeOf<Type>;

/// `(A, B) -> C`, the arguments of a trait of functions.
pub type ParenthesizedGenericArguments = ParenthesizedGenericArgumentsOf<Type>;

/// The type in front of a path: `<T as a::b>::c` is held as `a::b::c`, of which two segments are inside.
pub type QSelf = QSelfOf<Type>;
