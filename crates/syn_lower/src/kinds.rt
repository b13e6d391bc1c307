//! The types of each kind.
#![tactic(auto, using(syn_lower_spec::proofs::Readable::readables))]

ghost use Rattle.std.specs.Prelude.{◌≡◌, Some};
ghost use Rattle.syn_lower.specs.View.{type_of};
ghost use Rattle.syn_lower.specs.declared.ty.«Type».TheVariants as variant;
ghost use Rattle.syn_lower_spec.specs.Kind as kinds;
ghost use Rattle.syn_lower_spec.specs.Part as part;

use crate::ty::{
    Type, TypeArray, TypeFnPtr, TypeImplTrait, TypeInfer, TypeNever, TypeParen, TypePtr,
    TypeReference, TypeSlice, TypeTraitObject, TypeTuple,
};
use syn_lower_leaves::ahead::ahead;
use syn_lower_types::kinds::{Kind, OfKind};
use syn_tokens::buffer::{Parse, ParseBuffer};
use syn_tokens::error::Result;

#[tactic(auto, using(crate::proofs::OtherKinds::other_kinds))]
impl Kind<TypeReference> for Type {
    ghost shown = { λ x. type_of (variant.Reference x) };

    ghost is = { kinds.is_reference };

    fn of(ty: Self) -> std::result::Result<TypeReference, Self> {
        match ty {
            Type::Reference(x) => Ok(x),
            other => Err(other),
        }
    }
}

#[tactic(auto, using(crate::proofs::OtherKinds::other_kinds))]
impl Kind<TypePtr> for Type {
    ghost shown = { λ x. type_of (variant.Ptr x) };

    ghost is = { kinds.is_pointer };

    fn of(ty: Self) -> std::result::Result<TypePtr, Self> {
        match ty {
            Type::Ptr(x) => Ok(x),
            other => Err(other),
        }
    }
}

#[tactic(auto, using(crate::proofs::OtherKinds::other_kinds))]
impl Kind<TypeSlice> for Type {
    ghost shown = { λ x. type_of (variant.Slice x) };

    ghost is = { kinds.is_slice };

    fn of(ty: Self) -> std::result::Result<TypeSlice, Self> {
        match ty {
            Type::Slice(x) => Ok(x),
            other => Err(other),
        }
    }
}

#[tactic(auto, using(crate::proofs::OtherKinds::other_kinds))]
impl Kind<TypeArray> for Type {
    ghost shown = { λ x. type_of (variant.Array x) };

    ghost is = { kinds.is_array };

    fn of(ty: Self) -> std::result::Result<TypeArray, Self> {
        match ty {
            Type::Array(x) => Ok(x),
            other => Err(other),
        }
    }
}

#[tactic(auto, using(crate::proofs::OtherKinds::other_kinds))]
impl Kind<TypeTuple> for Type {
    ghost shown = { λ x. type_of (variant.Tuple x) };

    ghost is = { kinds.is_tuple };

    fn of(ty: Self) -> std::result::Result<TypeTuple, Self> {
        match ty {
            Type::Tuple(x) => Ok(x),
            other => Err(other),
        }
    }
}

#[tactic(auto, using(crate::proofs::OtherKinds::other_kinds))]
impl Kind<TypeParen> for Type {
    ghost shown = { λ x. type_of (variant.Paren x) };

    ghost is = { kinds.is_paren };

    fn of(ty: Self) -> std::result::Result<TypeParen, Self> {
        match ty {
            Type::Paren(x) => Ok(x),
            other => Err(other),
        }
    }
}

#[tactic(auto, using(crate::proofs::OtherKinds::other_kinds))]
impl Kind<TypeNever> for Type {
    ghost shown = { λ x. type_of (variant.Never x) };

    ghost is = { part.is_never };

    fn of(ty: Self) -> std::result::Result<TypeNever, Self> {
        match ty {
            Type::Never(x) => Ok(x),
            other => Err(other),
        }
    }
}

#[tactic(auto, using(crate::proofs::OtherKinds::other_kinds))]
impl Kind<TypeInfer> for Type {
    ghost shown = { λ x. type_of (variant.Infer x) };

    ghost is = { part.is_infer };

    fn of(ty: Self) -> std::result::Result<TypeInfer, Self> {
        match ty {
            Type::Infer(x) => Ok(x),
            other => Err(other),
        }
    }
}

#[tactic(auto, using(crate::proofs::OtherKinds::other_kinds))]
impl Kind<TypeFnPtr> for Type {
    ghost shown = { λ x. type_of (variant.FnPtr x) };

    ghost is = { kinds.is_fn_pointer };

    fn of(ty: Self) -> std::result::Result<TypeFnPtr, Self> {
        match ty {
            Type::FnPtr(x) => Ok(x),
            other => Err(other),
        }
    }
}

#[tactic(auto, using(crate::proofs::OtherKinds::other_kinds))]
impl Kind<TypeImplTrait> for Type {
    ghost shown = { λ x. type_of (variant.ImplTrait x) };

    ghost is = { kinds.is_impl_trait };

    fn of(ty: Self) -> std::result::Result<TypeImplTrait, Self> {
        match ty {
            Type::ImplTrait(x) => Ok(x),
            other => Err(other),
        }
    }
}

#[tactic(auto, using(crate::proofs::OtherKinds::other_kinds))]
impl Kind<TypeTraitObject> for Type {
    ghost shown = { λ x. type_of (variant.TraitObject x) };

    ghost is = { kinds.is_trait_object };

    fn of(ty: Self) -> std::result::Result<TypeTraitObject, Self> {
        match ty {
            Type::TraitObject(x) => Ok(x),
            other => Err(other),
        }
    }
}

impl Parse for TypeNever {
    ghost use Rattle.syn_lower_spec.specs.Tree.{TypeTree};

    ghost Seen = { TypeTree };

    ghost seen = { λ x. type_of (variant.Never x) };

    /// `!` comes before the rest.
    ghost spells = { λ l x rest. (kinds.type_of_kind part.is_never).behind x l ≡ Some rest };

    ghost least = { 1 };

    /// Reads `!` (Rust Reference, "Never type"). It is refused as a type is, and where another kind of type comes, as
    /// `ExpectedPart` of a type.
    fn parse(input: &mut ParseBuffer<'_>) -> Result<Self> {
        let x: OfKind<Type, Self> = ahead(input)?;
        Ok(x.part)
    }
}

impl Parse for TypeInfer {
    ghost use Rattle.syn_lower_spec.specs.Tree.{TypeTree};

    ghost Seen = { TypeTree };

    ghost seen = { λ x. type_of (variant.Infer x) };

    /// `_` comes before the rest.
    ghost spells = { λ l x rest. (kinds.type_of_kind part.is_infer).behind x l ≡ Some rest };

    ghost least = { 1 };

    /// Reads `_` (Rust Reference, "Inferred type"). It is refused as a type is, and where another kind of type comes,
    /// as `ExpectedPart` of a type.
    fn parse(input: &mut ParseBuffer<'_>) -> Result<Self> {
        let x: OfKind<Type, Self> = ahead(input)?;
        Ok(x.part)
    }
}
