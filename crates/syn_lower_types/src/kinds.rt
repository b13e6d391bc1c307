//! The readers of types of one kind.
#![tactic(auto, using(syn_lower_spec::proofs::Readable::readables))]

ghost use Rattle.std.specs.Prelude.{◌≡◌, true, false, IfOk, IfErr, MatchResult, Some};
ghost use Rattle.syn_lower_types.specs.View as view;
ghost use Rattle.syn_lower_spec.specs.Kind as kinds;
ghost use Rattle.syn_lower_spec.specs.Part as part;
ghost use Rattle.syn_lower_spec.specs.declared.label.PathStyle.TheVariants as style;

use crate::mac::MacroOf;
use crate::ty::{
    TypeArrayOf, TypeFnPtrOf, TypeImplTraitOf, TypeMacroOf, TypeParenOf, TypePathOf, TypePtrOf,
    TypeReferenceOf, TypeSliceOf, TypeTraitObjectOf, TypeTupleOf,
};
use crate::types::ReadTypes;
use std::marker::PhantomData;
use syn_lower_leaves::ahead::{ReadByForm, ahead};
use syn_lower_spec::label::PathStyle;
use syn_tokens::buffer::{Parse, ParseBuffer};
use syn_tokens::error::{Error, ErrorKind, Part, Result};

/// A type of types of which those of one kind are held by the struct `S`.
pub trait Kind<S>: ReadTypes {
    ghost use Rattle.std.specs.Prelude.{Bool};
    ghost use Rattle.syn_lower_spec.specs.Tree.{TypeTree};

    /// The struct as a type, without its places.
    ghost shown: { S → TypeTree };

    /// Whether a type is of the kind.
    ghost is: { TypeTree → Bool };

    /// The struct in a type of this kind; any other type comes back.
    fn of(ty: Self) -> std::result::Result<S, Self>
        ensures kind { IfOk result (λ x. (is (shown x) ≡ true) × (shown x ≡ Self.tree ty)) }
        ensures other { IfErr result (λ y. (is (Self.tree ty) ≡ false) × (Self.tree y ≡ Self.tree ty)) };
}

/// What is read of a struct that holds the types of one kind.
#[derive(Drop)]
pub struct OfKind<T, S> {
    /// The struct.
    pub part: S,
    /// The type of types.
    ty: PhantomData<T>,
}

/// The struct in a type of its kind; `other` where the type is of another.
fn of_kind<T: Kind<S>, S>(ty: T, other: Error) -> Result<OfKind<T, S>>
    ensures { MatchResult result (λ x. (T.is (T.shown x.part) ≡ true) × (T.shown x.part ≡ T.tree ty)) (λ e. T.is (T.tree ty) ≡ false) }
{
    match T::of(ty) {
        Ok(part) => Ok(OfKind {
            part,
            ty: PhantomData,
        }),
        Err(_) => Err(other),
    }
}

#[tactic(auto, unfolding(syn_lower_spec::specs::Kind::type_of_kind))]
impl<T: Kind<S>, S> ReadByForm for OfKind<T, S> {
    ghost use Rattle.syn_lower_spec.specs.Tree.{TypeTree};

    ghost Seen = { TypeTree };

    ghost seen = { λ x. T.shown x.part };

    ghost form = { kinds.type_of_kind T.is };

    fn read(input: &mut ParseBuffer<'_>) -> Result<Self> {
        let other = input.error(ErrorKind::ExpectedPart(Part::Type));
        let ty = T::read_type(input, true)?;
        of_kind(ty, other)
    }
}

impl<T: Kind<TypeReferenceOf<T>>> Parse for TypeReferenceOf<T> {
    ghost use Rattle.syn_lower_spec.specs.Tree.{TypeTree};

    ghost Seen = { TypeTree };

    ghost seen = { T.shown };

    /// A reference comes before the rest.
    ghost spells = { λ l x rest. (kinds.type_of_kind T.is).behind x l ≡ Some rest };

    ghost least = { 1 };

    /// Reads a reference (Rust Reference, "Pointer types"). It is refused as a type is, and where another kind of type
    /// comes, as `ExpectedPart` of a type.
    fn parse(input: &mut ParseBuffer<'_>) -> Result<Self> {
        let x: OfKind<T, Self> = ahead(input)?;
        Ok(x.part)
    }
}

impl<T: Kind<TypePtrOf<T>>> Parse for TypePtrOf<T> {
    ghost use Rattle.syn_lower_spec.specs.Tree.{TypeTree};

    ghost Seen = { TypeTree };

    ghost seen = { T.shown };

    /// A raw pointer comes before the rest.
    ghost spells = { λ l x rest. (kinds.type_of_kind T.is).behind x l ≡ Some rest };

    ghost least = { 1 };

    /// Reads a raw pointer (Rust Reference, "Pointer types"). It is refused as a type is, and where another kind of
    /// type comes, as `ExpectedPart` of a type.
    fn parse(input: &mut ParseBuffer<'_>) -> Result<Self> {
        let x: OfKind<T, Self> = ahead(input)?;
        Ok(x.part)
    }
}

impl<T: Kind<TypeSliceOf<T>>> Parse for TypeSliceOf<T> {
    ghost use Rattle.syn_lower_spec.specs.Tree.{TypeTree};

    ghost Seen = { TypeTree };

    ghost seen = { T.shown };

    /// A slice comes before the rest.
    ghost spells = { λ l x rest. (kinds.type_of_kind T.is).behind x l ≡ Some rest };

    ghost least = { 1 };

    /// Reads a slice (Rust Reference, "Slice types"). It is refused as a type is, and where another kind of type
    /// comes, as `ExpectedPart` of a type.
    fn parse(input: &mut ParseBuffer<'_>) -> Result<Self> {
        let x: OfKind<T, Self> = ahead(input)?;
        Ok(x.part)
    }
}

impl<T: Kind<TypeArrayOf<T>>> Parse for TypeArrayOf<T> {
    ghost use Rattle.syn_lower_spec.specs.Tree.{TypeTree};

    ghost Seen = { TypeTree };

    ghost seen = { T.shown };

    /// An array, whose length is kept as tokens, comes before the rest.
    ghost spells = { λ l x rest. (kinds.type_of_kind T.is).behind x l ≡ Some rest };

    ghost least = { 1 };

    /// Reads an array, whose length is kept as tokens (Rust Reference, "Array types"). It is refused as a type is, and
    /// where another kind of type comes, as `ExpectedPart` of a type.
    fn parse(input: &mut ParseBuffer<'_>) -> Result<Self> {
        let x: OfKind<T, Self> = ahead(input)?;
        Ok(x.part)
    }
}

impl<T: Kind<TypeTupleOf<T>>> Parse for TypeTupleOf<T> {
    ghost use Rattle.syn_lower_spec.specs.Tree.{TypeTree};

    ghost Seen = { TypeTree };

    ghost seen = { T.shown };

    /// A tuple comes before the rest.
    ghost spells = { λ l x rest. (kinds.type_of_kind T.is).behind x l ≡ Some rest };

    ghost least = { 1 };

    /// Reads a tuple (Rust Reference, "Tuple types"). It is refused as a type is, and where another kind of type
    /// comes, as `ExpectedPart` of a type.
    fn parse(input: &mut ParseBuffer<'_>) -> Result<Self> {
        let x: OfKind<T, Self> = ahead(input)?;
        Ok(x.part)
    }
}

impl<T: Kind<TypeParenOf<T>>> Parse for TypeParenOf<T> {
    ghost use Rattle.syn_lower_spec.specs.Tree.{TypeTree};

    ghost Seen = { TypeTree };

    ghost seen = { T.shown };

    /// A type in parentheses comes before the rest.
    ghost spells = { λ l x rest. (kinds.type_of_kind T.is).behind x l ≡ Some rest };

    ghost least = { 1 };

    /// Reads a type in parentheses (Rust Reference, "Parenthesized types"). It is refused as a type is, and where
    /// another kind of type comes, as `ExpectedPart` of a type.
    fn parse(input: &mut ParseBuffer<'_>) -> Result<Self> {
        let x: OfKind<T, Self> = ahead(input)?;
        Ok(x.part)
    }
}

impl<T: Kind<TypeFnPtrOf<T>>> Parse for TypeFnPtrOf<T> {
    ghost use Rattle.syn_lower_spec.specs.Tree.{TypeTree};

    ghost Seen = { TypeTree };

    ghost seen = { T.shown };

    /// A function pointer comes before the rest.
    ghost spells = { λ l x rest. (kinds.type_of_kind T.is).behind x l ≡ Some rest };

    ghost least = { 1 };

    /// Reads a function pointer (Rust Reference, "Function pointer types"). It is refused as a type is, and where
    /// another kind of type comes, as `ExpectedPart` of a type.
    fn parse(input: &mut ParseBuffer<'_>) -> Result<Self> {
        let x: OfKind<T, Self> = ahead(input)?;
        Ok(x.part)
    }
}

impl<T: Kind<TypeImplTraitOf<T>>> Parse for TypeImplTraitOf<T> {
    ghost use Rattle.syn_lower_spec.specs.Tree.{TypeTree};

    ghost Seen = { TypeTree };

    ghost seen = { T.shown };

    /// `impl` and its bounds come before the rest.
    ghost spells = { λ l x rest. (kinds.type_of_kind T.is).behind x l ≡ Some rest };

    ghost least = { 1 };

    /// Reads `impl` and its bounds (Rust Reference, "Impl trait"). It is refused as a type is, and where another kind
    /// of type comes, as `ExpectedPart` of a type.
    fn parse(input: &mut ParseBuffer<'_>) -> Result<Self> {
        let x: OfKind<T, Self> = ahead(input)?;
        Ok(x.part)
    }
}

impl<T: Kind<TypeTraitObjectOf<T>>> Parse for TypeTraitObjectOf<T> {
    ghost use Rattle.syn_lower_spec.specs.Tree.{TypeTree};

    ghost Seen = { TypeTree };

    ghost seen = { T.shown };

    /// `dyn` and its bounds come before the rest.
    ghost spells = { λ l x rest. (kinds.type_of_kind T.is).behind x l ≡ Some rest };

    ghost least = { 1 };

    /// Reads `dyn` and its bounds (Rust Reference, "Trait objects"). It is refused as a type is, and where another kind
    /// of type comes, as `ExpectedPart` of a type.
    fn parse(input: &mut ParseBuffer<'_>) -> Result<Self> {
        let x: OfKind<T, Self> = ahead(input)?;
        Ok(x.part)
    }
}

impl<T: ReadTypes> ReadByForm for TypePathOf<T> {
    ghost use Rattle.syn_lower_spec.specs.Part.{QPathTree};

    ghost Seen = { QPathTree };

    ghost seen = { λ x. (view.qself_or T.tree x.qself, view.path_of T.tree x.path) };

    ghost form = { part.qpath part.type style.Type };

    fn read(input: &mut ParseBuffer<'_>) -> Result<Self> {
        let (qself, path) = T::read_qpath(input, PathStyle::Type)?;
        Ok(TypePathOf { qself, path })
    }
}

impl<T: ReadTypes> Parse for TypePathOf<T> {
    ghost use Rattle.syn_lower_spec.specs.Part.{QPathTree};

    ghost Seen = { QPathTree };

    ghost seen = { λ x. (view.qself_or T.tree x.qself, view.path_of T.tree x.path) };

    /// A path as in a type comes before the rest, a type that it is qualified by in front or not.
    ghost spells = { λ l x rest. (part.qpath part.type style.Type).behind x l ≡ Some rest };

    ghost least = { 1 };

    /// Reads a path as in a type, qualified by a type or not (Rust Reference, "Paths in types", "Qualified paths"). A `!`
    /// may follow: it is left. It is refused as `ExpectedPart` of a path where a segment is missing, as `ExpectedToken`
    /// of `>` or `::` after a type between `<` and `>`, and inside as the type is.
    fn parse(input: &mut ParseBuffer<'_>) -> Result<Self> {
        ahead(input)
    }
}

impl<T: ReadTypes> ReadByForm for TypeMacroOf<T> {
    ghost use Rattle.syn_lower_spec.specs.Part.{MacroTree};

    ghost Seen = { MacroTree };

    ghost seen = { λ x. view.macro_of T.tree x.mac };

    ghost form = { part.macro };

    fn read(input: &mut ParseBuffer<'_>) -> Result<Self> {
        let mac = MacroOf::read(input)?;
        Ok(TypeMacroOf { mac })
    }
}

impl<T: ReadTypes> Parse for TypeMacroOf<T> {
    ghost use Rattle.syn_lower_spec.specs.Part.{MacroTree};

    ghost Seen = { MacroTree };

    ghost seen = { λ x. view.macro_of T.tree x.mac };

    /// A path without arguments, `!` and a group come before the rest.
    ghost spells = { λ l x rest. part.macro.behind x l ≡ Some rest };

    ghost least = { 1 };

    /// Reads the call of a macro (Rust Reference, "Macro Invocation"); it is refused as a `Macro` is.
    fn parse(input: &mut ParseBuffer<'_>) -> Result<Self> {
        ahead(input)
    }
}
