//! Paths (Rust Reference, "Paths").
//!
//! Each is generic in the type of types, so that it is below it; `syn_lower` has the alias of syn's name: `Path` is
//! `PathOf<Type>`.

ghost use Rattle.std.specs.Prelude.{◌≡◌, if◌then◌else◌};

use crate::ty::ReturnTypeOf;
use syn_lower_leaves::lifetime::Lifetime;
use syn_lower_leaves::punctuated::Punctuated;
use syn_lower_spec::label::PathStyle;
use syn_tokens::token::{As, Comma, Eq, Gt, Lt, Paren, PathSep};
use syn_tokens::tree::{Ident, TokenStream};

/// The style of a path: an expression's where `expr_style` holds, else a type's.
pub fn style(expr_style: bool) -> PathStyle
    ensures { result ≡ (if expr_style then PathStyle.Expr else PathStyle.Type) }
{
    if expr_style {
        PathStyle::Expr
    } else {
        PathStyle::Type
    }
}

/// A path.
#[derive(Debug, Drop, PartialEq, Eq, Hash)]
pub struct PathOf<T> {
    /// `::` in front.
    pub leading_colon: Option<PathSep>,
    /// The segments.
    pub segments: Punctuated<PathSegmentOf<T>, PathSep>,
}

/// A segment of a path.
#[derive(Debug, Drop, PartialEq, Eq, Hash)]
pub struct PathSegmentOf<T> {
    /// The word.
    pub ident: Ident,
    /// The arguments.
    pub arguments: PathArgumentsOf<T>,
}

/// The arguments of a segment.
#[derive(Debug, Drop, PartialEq, Eq, Hash)]
pub enum PathArgumentsOf<T> {
    /// None.
    None,
    /// `<'a, T>`, `::<'a, T>`
    AngleBracketed(AngleBracketedGenericArgumentsOf<T>),
    /// `(A, B) -> C`
    Parenthesized(ParenthesizedGenericArgumentsOf<T>),
}

/// Arguments between `<` and `>`.
#[derive(Debug, Drop, PartialEq, Eq, Hash)]
pub struct AngleBracketedGenericArgumentsOf<T> {
    /// `::` in front.
    pub colon2_token: Option<PathSep>,
    /// `<`
    pub lt_token: Lt,
    /// The arguments.
    pub args: Punctuated<GenericArgumentOf<T>, Comma>,
    /// `>`
    pub gt_token: Gt,
}

/// An argument between `<` and `>` (Rust Reference, "Paths in expressions").
#[derive(Debug, Drop, PartialEq, Eq, Hash)]
pub enum GenericArgumentOf<T> {
    /// `'a`
    Lifetime(Lifetime),
    /// `1`, `-1`, `{ N + 1 }`, kept as tokens
    Const(TokenStream),
    /// `Item = T`
    AssocType(AssocTypeOf<T>),
    /// `T`
    Ty(T),
}

/// An associated type and what it is equal to.
#[derive(Debug, Drop, PartialEq, Eq, Hash)]
pub struct AssocTypeOf<T> {
    /// Its name.
    pub ident: Ident,
    /// `=`
    pub eq_token: Eq,
    /// The type.
    pub ty: T,
}

/// `(A, B) -> C`, the arguments of a trait of functions.
#[derive(Debug, Drop, PartialEq, Eq, Hash)]
pub struct ParenthesizedGenericArgumentsOf<T> {
    /// The parentheses.
    pub paren_token: Paren,
    /// The types in them.
    pub inputs: Punctuated<T, Comma>,
    /// What follows them.
    pub output: ReturnTypeOf<T>,
}

/// The type in front of a path (Rust Reference, "Qualified paths").
#[derive(Debug, Drop, PartialEq, Eq, Hash)]
pub struct QSelfOf<T> {
    /// `<`
    pub lt_token: Lt,
    /// The type.
    pub ty: Box<T>,
    /// How many segments of the path come before `>`; 0 without `as`.
    pub position: usize,
    /// `as`
    pub as_token: Option<As>,
    /// `>`
    pub gt_token: Gt,
}
