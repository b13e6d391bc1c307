//! Types (Rust Reference, "Types"). The parts that hold types are in `syn_lower_types`, generic in them; here they have syn's
//! names, over `Type`.

ghost use Rattle.std.specs.Prelude.{◌≡◌};
ghost use Rattle.syn_lower_types.specs.View as view;
ghost use Rattle.syn_lower.specs.View.{type_of};
ghost use Rattle.syn_lower_spec.specs.Tree as t;

pub use syn_lower_leaves::ty::{Abi, BoundLifetimes, PointerMutability};
use syn_lower_types::ty::{
    BareFnArgOf, ReturnTypeOf, TraitBoundOf, TypeArrayOf, TypeFnPtrOf, TypeImplTraitOf,
    TypeMacroOf, TypeParamBoundOf, TypeParenOf, TypePathOf, TypePtrOf, TypeReferenceOf,
    TypeSliceOf, TypeTraitObjectOf, TypeTupleOf,
};
use syn_lower_types::types::{HasTree, IsType};
use syn_tokens::token::{Not, Underscore};

/// A type.
#[cycle(types)]
#[derive(Debug, Drop, PartialEq, Eq, Hash)]
pub enum Type {
    /// `a::B<C>`, `<T as A>::B`
    Path(TypePathOf<Type>),
    /// `m!(..)`
    Macro(TypeMacroOf<Type>),
    /// `&'a mut T`
    Reference(TypeReferenceOf<Type>),
    /// `*const T`, `*mut T`
    Ptr(TypePtrOf<Type>),
    /// `[T]`
    Slice(TypeSliceOf<Type>),
    /// `[T; N]`
    Array(TypeArrayOf<Type>),
    /// `()`, `(A, B)`
    Tuple(TypeTupleOf<Type>),
    /// `(T)`
    Paren(TypeParenOf<Type>),
    /// `!`
    Never(TypeNever),
    /// `_`
    Infer(TypeInfer),
    /// `fn(A) -> B`
    FnPtr(TypeFnPtrOf<Type>),
    /// `impl A + B`
    ImplTrait(TypeImplTraitOf<Type>),
    /// `dyn A + B`
    TraitObject(TypeTraitObjectOf<Type>),
}

/// A path as a type.
pub type TypePath = TypePathOf<Type>;

/// The call of a macro as a type.
pub type TypeMacro = TypeMacroOf<Type>;

/// `&'a mut T`
pub type TypeReference = TypeReferenceOf<Type>;

/// `*const T`, `*mut T`
pub type TypePtr = TypePtrOf<Type>;

/// `[T]`
pub type TypeSlice = TypeSliceOf<Type>;

/// `[T; N]`
pub type TypeArray = TypeArrayOf<Type>;

/// `()`, `(A, B)`
pub type TypeTuple = TypeTupleOf<Type>;

/// `(T)`
pub type TypeParen = TypeParenOf<Type>;

/// `!` (Rust Reference, "Never type").
#[derive(Debug, Drop, PartialEq, Eq, Hash)]
pub struct TypeNever {
    /// `!`
    pub bang_token: Not,
}

/// `_` (Rust Reference, "Inferred type").
#[derive(Debug, Drop, PartialEq, Eq, Hash)]
pub struct TypeInfer {
    /// `_`
    pub underscore_token: Underscore,
}

/// `for<'a> unsafe extern "C" fn(a: A) -> B`
pub type TypeFnPtr = TypeFnPtrOf<Type>;

/// `name: T`
pub type BareFnArg = BareFnArgOf<Type>;

/// `impl A + B`
pub type TypeImplTrait = TypeImplTraitOf<Type>;

/// `dyn A + B`
pub type TypeTraitObject = TypeTraitObjectOf<Type>;

/// A bound.
pub type TypeParamBound = TypeParamBoundOf<Type>;

/// `?for<'a> A<'a>`
pub type TraitBound = TraitBoundOf<Type>;

/// What a function returns.
pub type ReturnType = ReturnTypeOf<Type>;

impl HasTree for Type {
    ghost tree = { type_of };
}

#[tactic(auto, using(crate::proofs::Makes::makes))]
impl IsType for Type {
    fn path(x: TypePathOf<Self>) -> Self
        ensures { type_of result ≡ view.type_path_of type_of x }
    {
        Type::Path(x)
    }

    fn mac(x: TypeMacroOf<Self>) -> Self
        ensures { type_of result ≡ view.type_macro_of type_of x }
    {
        Type::Macro(x)
    }

    fn reference(x: TypeReferenceOf<Self>) -> Self
        ensures { type_of result ≡ view.reference_of type_of x }
    {
        Type::Reference(x)
    }

    fn ptr(x: TypePtrOf<Self>) -> Self
        ensures { type_of result ≡ view.ptr_of type_of x }
    {
        Type::Ptr(x)
    }

    fn slice(x: TypeSliceOf<Self>) -> Self
        ensures { type_of result ≡ view.slice_of type_of x }
    {
        Type::Slice(x)
    }

    fn array(x: TypeArrayOf<Self>) -> Self
        ensures { type_of result ≡ view.array_of type_of x }
    {
        Type::Array(x)
    }

    fn tuple(x: TypeTupleOf<Self>) -> Self
        ensures { type_of result ≡ view.tuple_of type_of x }
    {
        Type::Tuple(x)
    }

    fn paren(x: TypeParenOf<Self>) -> Self
        ensures { type_of result ≡ view.paren_of type_of x }
    {
        Type::Paren(x)
    }

    fn never(bang_token: Not) -> Self
        ensures { type_of result ≡ t.never }
    {
        Type::Never(TypeNever { bang_token })
    }

    fn infer(underscore_token: Underscore) -> Self
        ensures { type_of result ≡ t.infer }
    {
        Type::Infer(TypeInfer { underscore_token })
    }

    fn fn_ptr(x: TypeFnPtrOf<Self>) -> Self
        ensures { type_of result ≡ view.fn_ptr_of type_of x }
    {
        Type::FnPtr(x)
    }

    fn impl_trait(x: TypeImplTraitOf<Self>) -> Self
        ensures { type_of result ≡ view.impl_trait_of type_of x }
    {
        Type::ImplTrait(x)
    }

    fn trait_object(x: TypeTraitObjectOf<Self>) -> Self
        ensures { type_of result ≡ view.trait_object_of type_of x }
    {
        Type::TraitObject(x)
    }
}
