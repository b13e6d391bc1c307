//! What the parts that hold types ask of the type of types.

ghost use Rattle.std.specs.Prelude.{◌≡◌, true};
ghost use Rattle.syn_lower_types.specs.View as view;
ghost use Rattle.syn_lower_leaves.specs.Reads.{Reads};
ghost use Rattle.syn_lower_spec.specs.Part as part;
ghost use Rattle.syn_lower_spec.specs.Tree as t;

use crate::path::{
    AngleBracketedGenericArgumentsOf, AssocTypeOf, GenericArgumentOf,
    ParenthesizedGenericArgumentsOf, PathOf, PathSegmentOf, QSelfOf,
};
use crate::ty::{
    BareFnArgOf, ReturnTypeOf, TraitBoundOf, TypeArrayOf, TypeFnPtrOf, TypeImplTraitOf,
    TypeMacroOf, TypeParamBoundOf, TypeParenOf, TypePathOf, TypePtrOf, TypeReferenceOf,
    TypeSliceOf, TypeTraitObjectOf, TypeTupleOf,
};
use syn_lower_spec::label::PathStyle;
use syn_tokens::buffer::ParseBuffer;
use syn_tokens::error::Result;
use syn_tokens::token::{Not, Underscore};

/// The type of types, as contracts see it.
///
/// It has no methods, so that a recursion over types may go through code that is generic in such a type: through a trait
/// that makes types it may not.
pub trait HasTree {
    ghost use Rattle.syn_lower_spec.specs.Tree.{TypeTree};

    /// A type without its places.
    ghost tree: { Self → TypeTree };
}

/// The type of types: it is made of a struct of each kind.
pub trait IsType: HasTree {
    /// `a::B<C>`, `<T as A>::B`
    fn path(x: TypePathOf<Self>) -> Self
        ensures { Self.tree result ≡ view.type_path_of Self.tree x };

    /// `m!(..)`
    fn mac(x: TypeMacroOf<Self>) -> Self
        ensures { Self.tree result ≡ view.type_macro_of Self.tree x };

    /// `&'a mut T`
    fn reference(x: TypeReferenceOf<Self>) -> Self
        ensures { Self.tree result ≡ view.reference_of Self.tree x };

    /// `*const T`, `*mut T`
    fn ptr(x: TypePtrOf<Self>) -> Self
        ensures { Self.tree result ≡ view.ptr_of Self.tree x };

    /// `[T]`
    fn slice(x: TypeSliceOf<Self>) -> Self
        ensures { Self.tree result ≡ view.slice_of Self.tree x };

    /// `[T; N]`
    fn array(x: TypeArrayOf<Self>) -> Self
        ensures { Self.tree result ≡ view.array_of Self.tree x };

    /// `()`, `(A, B)`
    fn tuple(x: TypeTupleOf<Self>) -> Self
        ensures { Self.tree result ≡ view.tuple_of Self.tree x };

    /// `(T)`
    fn paren(x: TypeParenOf<Self>) -> Self
        ensures { Self.tree result ≡ view.paren_of Self.tree x };

    /// `!`
    fn never(bang_token: Not) -> Self
        ensures { Self.tree result ≡ t.never };

    /// `_`
    fn infer(underscore_token: Underscore) -> Self
        ensures { Self.tree result ≡ t.infer };

    /// `fn(A) -> B`
    fn fn_ptr(x: TypeFnPtrOf<Self>) -> Self
        ensures { Self.tree result ≡ view.fn_ptr_of Self.tree x };

    /// `impl A + B`
    fn impl_trait(x: TypeImplTraitOf<Self>) -> Self
        ensures { Self.tree result ≡ view.impl_trait_of Self.tree x };

    /// `dyn A + B`
    fn trait_object(x: TypeTraitObjectOf<Self>) -> Self
        ensures { Self.tree result ≡ view.trait_object_of Self.tree x };
}

/// The type of types, with the readers of what holds types. Where one refuses, tokens may have been passed over.
pub trait ReadTypes: HasTree + Drop {
    /// Reads a type; after its `impl` or `dyn` there may be several bounds, or one.
    fn read_type(input: &mut ParseBuffer<'_>, several: bool) -> Result<Self>
        ensures value { Reads Self.tree ((part.type several).reads input.old.rest) result input.new.rest }
        ensures noted { input.new.noted ≡ input.old.noted };

    /// Reads a path of this style.
    fn read_path(input: &mut ParseBuffer<'_>, style: PathStyle) -> Result<PathOf<Self>>
        ensures value { Reads (view.path_of Self.tree) ((part.path part.type style).reads input.old.rest) result input.new.rest }
        ensures noted { input.new.noted ≡ input.old.noted };

    /// Reads a path of this style, and the type that it is qualified by, if there is one.
    fn read_qpath(
        input: &mut ParseBuffer<'_>,
        style: PathStyle,
    ) -> Result<(Option<QSelfOf<Self>>, PathOf<Self>)>
        ensures value { Reads (λ q. (view.qself_or Self.tree q.0, view.path_of Self.tree q.1)) ((part.qpath part.type style).reads input.old.rest) result input.new.rest }
        ensures noted { input.new.noted ≡ input.old.noted };

    /// Reads a segment as in a type.
    fn read_segment(input: &mut ParseBuffer<'_>) -> Result<PathSegmentOf<Self>>
        ensures value { Reads (view.segment_of Self.tree) ((part.segment part.type PathStyle.Type).reads input.old.rest) result input.new.rest }
        ensures noted { input.new.noted ≡ input.old.noted };

    /// Reads an argument between `<` and `>`.
    fn read_generic(input: &mut ParseBuffer<'_>) -> Result<GenericArgumentOf<Self>>
        ensures value { Reads (view.generic_of Self.tree) ((part.generic part.type).reads input.old.rest) result input.new.rest }
        ensures noted { input.new.noted ≡ input.old.noted };

    /// Reads arguments between `<` and `>`, after `::` or not.
    fn read_angle(input: &mut ParseBuffer<'_>) -> Result<AngleBracketedGenericArgumentsOf<Self>>
        ensures value { Reads (view.angle_of Self.tree) ((part.angle_bracketed part.type).reads input.old.rest) result input.new.rest }
        ensures noted { input.new.noted ≡ input.old.noted };

    /// Reads types in parentheses, and what follows them.
    fn read_parenthesized(
        input: &mut ParseBuffer<'_>,
    ) -> Result<ParenthesizedGenericArgumentsOf<Self>>
        ensures value { Reads (view.round_of Self.tree) ((part.parenthesized part.type).reads input.old.rest) result input.new.rest }
        ensures noted { input.new.noted ≡ input.old.noted };

    /// Reads a name, `=` and a type.
    fn read_assoc(input: &mut ParseBuffer<'_>) -> Result<AssocTypeOf<Self>>
        ensures value { Reads (view.name_and_type Self.tree) ((part.assoc part.type).reads input.old.rest) result input.new.rest }
        ensures noted { input.new.noted ≡ input.old.noted };

    /// Reads `->` and a type, or nothing.
    fn read_output(input: &mut ParseBuffer<'_>) -> Result<ReturnTypeOf<Self>>
        ensures value { Reads (view.return_of Self.tree) ((part.output part.type true).reads input.old.rest) result input.new.rest }
        ensures noted { input.new.noted ≡ input.old.noted };

    /// Reads a bound.
    fn read_bound(input: &mut ParseBuffer<'_>) -> Result<TypeParamBoundOf<Self>>
        ensures value { Reads (view.bound_of Self.tree) ((part.bound part.type).reads input.old.rest) result input.new.rest }
        ensures noted { input.new.noted ≡ input.old.noted };

    /// Reads a trait as a bound.
    fn read_trait_bound(input: &mut ParseBuffer<'_>) -> Result<TraitBoundOf<Self>>
        ensures value { Reads (view.trait_of Self.tree) ((part.trait_bound part.type).reads input.old.rest) result input.new.rest }
        ensures noted { input.new.noted ≡ input.old.noted };

    /// Reads an argument of a function pointer.
    fn read_fn_arg(input: &mut ParseBuffer<'_>) -> Result<BareFnArgOf<Self>>
        ensures value { Reads (view.arg_of Self.tree) ((part.fn_arg part.type).reads input.old.rest) result input.new.rest }
        ensures noted { input.new.noted ≡ input.old.noted };
}

/// The type of types, and whether a type is read back from its own tokens.
pub trait FitTypes: HasTree {
    ghost use Rattle.std.specs.Prelude.{false, []};
    ghost use Rattle.syn_lower_spec.specs.Fits.{type_fits, type_stops};
    ghost use Rattle.syn_lower_spec.specs.Own.{colon2_before};

    /// Whether it is read back; after its `impl` or `dyn` there may be several bounds, or one.
    fn fits_where(&self, several: bool) -> bool
        ensures { result ≡ type_fits several (Self.tree self.now) };

    /// Whether it ends before `::`; a path goes on there.
    fn ends_before_colons(&self) -> bool
        ensures { result ≡ type_stops false (Self.tree self.now) (colon2_before []) };
}
