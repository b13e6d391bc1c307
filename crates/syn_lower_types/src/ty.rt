//! Types (Rust Reference, "Types").
//!
//! Each part is generic in the type of types, so that it is below it; `syn_lower` has the aliases of syn's names.

use crate::mac::MacroOf;
use crate::path::{PathOf, QSelfOf};
use syn_lower_leaves::lifetime::Lifetime;
use syn_lower_leaves::punctuated::Punctuated;
pub use syn_lower_leaves::ty::{Abi, BoundLifetimes, PointerMutability};
use syn_tokens::token::{
    And, Bracket, Colon, Comma, Dyn, Fn, Impl, Mut, Paren, Plus, Question, RArrow, Semi, Star,
    Unsafe,
};
use syn_tokens::tree::{Ident, TokenStream};

/// A path as a type (Rust Reference, "Paths in types").
#[derive(Debug, Drop, PartialEq, Eq, Hash)]
pub struct TypePathOf<T> {
    /// The type in front of it.
    pub qself: Option<QSelfOf<T>>,
    /// The path.
    pub path: PathOf<T>,
}

/// The call of a macro as a type.
#[derive(Debug, Drop, PartialEq, Eq, Hash)]
pub struct TypeMacroOf<T> {
    /// The call.
    pub mac: MacroOf<T>,
}

/// A reference (Rust Reference, "Shared references", "Mutable references").
#[derive(Debug, Drop, PartialEq, Eq, Hash)]
pub struct TypeReferenceOf<T> {
    /// `&`
    pub and_token: And,
    /// How long it lasts.
    pub lifetime: Option<Lifetime>,
    /// `mut`
    pub mutability: Option<Mut>,
    /// What it points to.
    pub elem: Box<T>,
}

/// A raw pointer (Rust Reference, "Raw pointers").
#[derive(Debug, Drop, PartialEq, Eq, Hash)]
pub struct TypePtrOf<T> {
    /// `*`
    pub star_token: Star,
    /// `const` or `mut`.
    pub mutability: PointerMutability,
    /// What it points to.
    pub elem: Box<T>,
}

/// A slice (Rust Reference, "Slice types").
#[derive(Debug, Drop, PartialEq, Eq, Hash)]
pub struct TypeSliceOf<T> {
    /// The brackets.
    pub bracket_token: Bracket,
    /// The type of the elements.
    pub elem: Box<T>,
}

/// An array (Rust Reference, "Array types").
#[derive(Debug, Drop, PartialEq, Eq, Hash)]
pub struct TypeArrayOf<T> {
    /// The brackets.
    pub bracket_token: Bracket,
    /// The type of the elements.
    pub elem: Box<T>,
    /// `;`
    pub semi_token: Semi,
    /// How many there are, kept as tokens.
    pub len: TokenStream,
}

/// A tuple (Rust Reference, "Tuple types").
#[derive(Debug, Drop, PartialEq, Eq, Hash)]
pub struct TypeTupleOf<T> {
    /// The parentheses.
    pub paren_token: Paren,
    /// The types in them.
    pub elems: Punctuated<T, Comma>,
}

/// A type in parentheses (Rust Reference, "Parenthesized types").
#[derive(Debug, Drop, PartialEq, Eq, Hash)]
pub struct TypeParenOf<T> {
    /// The parentheses.
    pub paren_token: Paren,
    /// The type in them.
    pub elem: Box<T>,
}

/// `for<'a> unsafe extern "C" fn(a: A) -> B` (Rust Reference, "Function pointer types").
#[derive(Debug, Drop, PartialEq, Eq, Hash)]
pub struct TypeFnPtrOf<T> {
    /// `for<'a>`
    pub lifetimes: Option<BoundLifetimes>,
    /// `unsafe`
    pub unsafety: Option<Unsafe>,
    /// `extern "C"`
    pub abi: Option<Abi>,
    /// `fn`
    pub fn_token: Fn,
    /// The parentheses.
    pub paren_token: Paren,
    /// The arguments.
    pub inputs: Punctuated<BareFnArgOf<T>, Comma>,
    /// What it returns.
    pub output: ReturnTypeOf<T>,
}

/// An argument of a function pointer.
#[derive(Debug, Drop, PartialEq, Eq, Hash)]
pub struct BareFnArgOf<T> {
    /// Its name, an identifier or `_`, and `:`.
    pub name: Option<(Ident, Colon)>,
    /// Its type.
    pub ty: T,
}

/// A type by what it implements (Rust Reference, "Impl trait").
#[derive(Debug, Drop, PartialEq, Eq, Hash)]
pub struct TypeImplTraitOf<T> {
    /// `impl`
    pub impl_token: Impl,
    /// The bounds.
    pub bounds: Punctuated<TypeParamBoundOf<T>, Plus>,
}

/// A type by what it can do (Rust Reference, "Trait objects").
#[derive(Debug, Drop, PartialEq, Eq, Hash)]
pub struct TypeTraitObjectOf<T> {
    /// `dyn`
    pub dyn_token: Dyn,
    /// The bounds.
    pub bounds: Punctuated<TypeParamBoundOf<T>, Plus>,
}

/// A bound (Rust Reference, "Trait and lifetime bounds").
#[derive(Debug, Drop, PartialEq, Eq, Hash)]
pub enum TypeParamBoundOf<T> {
    /// `'a`
    Lifetime(Lifetime),
    /// `?for<'a> A<'a>`
    Trait(TraitBoundOf<T>),
}

/// A trait as a bound.
#[derive(Debug, Drop, PartialEq, Eq, Hash)]
pub struct TraitBoundOf<T> {
    /// `?`
    pub maybe: Option<Question>,
    /// `for<'a>`
    pub lifetimes: Option<BoundLifetimes>,
    /// The trait.
    pub path: PathOf<T>,
}

/// What a function returns.
#[derive(Debug, Drop, PartialEq, Eq, Hash)]
pub enum ReturnTypeOf<T> {
    /// Nothing is written.
    Default,
    /// `-> T`
    Given(RArrow, Box<T>),
}
