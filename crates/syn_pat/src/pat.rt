//! Patterns (Rust Reference, "Patterns").
//!
//! Each kind that holds patterns is generic in their type, so that it is below it. A pattern with a guard holds an
//! expression too, and is above. `attrs` are the attributes before an argument of a closure; where there is a type, they
//! are those of the pattern with the type, and elsewhere there are none.

use syn_expr_tokens::limits::RangeLimits;
use syn_expr_tokens::member::Member;
use syn_lower::attr::Attribute;
use syn_lower::lit::Lit;
use syn_lower::mac::Macro;
use syn_lower::path::{Path, QSelf};
use syn_lower::punctuated::Punctuated;
use syn_lower::stmt::Block;
use syn_lower::ty::Type;
use syn_tokens::token::{
    And, At, Brace, Bracket, Colon, Comma, Const, DotDot, Mut, Or, Paren, Ref, Underscore,
};
use syn_tokens::tree::Ident;

/// `_` (Rust Reference, "Wildcard pattern").
#[derive(Debug, Drop, PartialEq, Eq, Hash)]
pub struct PatWild {
    /// The attributes before it.
    pub attrs: Vec<Attribute>,
    /// `_`
    pub underscore_token: Underscore,
}

/// `..` (Rust Reference, "Rest patterns").
#[derive(Debug, Drop, PartialEq, Eq, Hash)]
pub struct PatRest {
    /// The attributes before it.
    pub attrs: Vec<Attribute>,
    /// `..`
    pub dot2_token: DotDot,
}

/// `1..2`, `'a'..='z'`, `..=i32::MAX` (Rust Reference, "Range patterns").
#[derive(Debug, Drop, PartialEq, Eq, Hash)]
pub struct PatRange {
    /// The attributes before it.
    pub attrs: Vec<Attribute>,
    /// The bound before the operator.
    pub start: Option<RangeBound>,
    /// `..` or `..=`; `...` is read as `..=`.
    pub limits: RangeLimits,
    /// The bound after it.
    pub end: Option<RangeBound>,
}

/// A bound of a range.
#[derive(Debug, Drop, PartialEq, Eq, Hash)]
pub enum RangeBound {
    /// `1`, `-1`, `'a'`
    Lit(Lit),
    /// `a::B`, `<T as A>::B`
    Path {
        /// The type in front of it.
        qself: Option<QSelf>,
        /// The path.
        path: Path,
    },
}

/// `1`, `"a"` (Rust Reference, "Literal patterns").
#[derive(Debug, Drop, PartialEq, Eq, Hash)]
pub struct PatLit {
    /// The attributes before it.
    pub attrs: Vec<Attribute>,
    /// The literal, perhaps with a sign.
    pub lit: Lit,
}

/// `ref mut x @ 1..2` (Rust Reference, "Identifier patterns").
#[derive(Debug, Drop, PartialEq, Eq, Hash)]
pub struct PatIdentOf<P> {
    /// The attributes before it.
    pub attrs: Vec<Attribute>,
    /// `ref`
    pub by_ref: Option<Ref>,
    /// `mut`
    pub mutability: Option<Mut>,
    /// The name that is bound.
    pub ident: Ident,
    /// `@` and a pattern that must match too.
    pub subpat: Option<(At, Box<P>)>,
}

/// `a::B`, `<T as A>::B` (Rust Reference, "Path patterns"). A name alone is read as `PatIdentOf`.
#[derive(Debug, Drop, PartialEq, Eq, Hash)]
pub struct PatPath {
    /// The attributes before it.
    pub attrs: Vec<Attribute>,
    /// The type in front of it.
    pub qself: Option<QSelf>,
    /// The path.
    pub path: Path,
}

/// `m!(..)`, the call of a macro as a pattern (Rust Reference, "Macro Invocation").
#[derive(Debug, Drop, PartialEq, Eq, Hash)]
pub struct PatMacro {
    /// The attributes before it.
    pub attrs: Vec<Attribute>,
    /// The call.
    pub mac: Macro,
}

/// `A { x, 0: y, .. }` (Rust Reference, "Struct patterns").
#[derive(Debug, Drop, PartialEq, Eq, Hash)]
pub struct PatStructOf<P> {
    /// The attributes before it.
    pub attrs: Vec<Attribute>,
    /// The struct or the variant.
    pub path: Path,
    /// The braces.
    pub brace_token: Brace,
    /// The fields in them.
    pub fields: Punctuated<FieldPatOf<P>, Comma>,
    /// `..` after the fields.
    pub rest: Option<DotDot>,
}

/// A field of a struct pattern.
#[derive(Debug, Drop, PartialEq, Eq, Hash)]
pub struct FieldPatOf<P> {
    /// The attributes before it.
    pub attrs: Vec<Attribute>,
    /// What comes after them.
    pub kind: FieldPatKindOf<P>,
}

/// What a field of a struct pattern is.
#[derive(Debug, Drop, PartialEq, Eq, Hash)]
pub enum FieldPatKindOf<P> {
    /// `x`, `ref mut x`
    Short(ShortFieldPat),
    /// `x: P`
    Full(FullFieldPatOf<P>),
}

/// A field that is bound to its own name: `x`, `ref mut x`.
#[derive(Debug, Drop, PartialEq, Eq, Hash)]
pub struct ShortFieldPat {
    /// `ref`
    pub by_ref: Option<Ref>,
    /// `mut`
    pub mutability: Option<Mut>,
    /// The name of the field, and of what is bound.
    pub ident: Ident,
}

/// A field with a pattern of its own: `x: P`, `0: P`.
#[derive(Debug, Drop, PartialEq, Eq, Hash)]
pub struct FullFieldPatOf<P> {
    /// The name or the index of the field.
    pub member: Member,
    /// `:`
    pub colon_token: Colon,
    /// What the field must match.
    pub pat: Box<P>,
}

/// `A(x, ..)` (Rust Reference, "Tuple struct patterns").
#[derive(Debug, Drop, PartialEq, Eq, Hash)]
pub struct PatTupleStructOf<P> {
    /// The attributes before it.
    pub attrs: Vec<Attribute>,
    /// The struct or the variant.
    pub path: Path,
    /// The parentheses.
    pub paren_token: Paren,
    /// The patterns in them.
    pub elems: Punctuated<P, Comma>,
}

/// `(x, y)` (Rust Reference, "Tuple patterns"). `(..)` is one too.
#[derive(Debug, Drop, PartialEq, Eq, Hash)]
pub struct PatTupleOf<P> {
    /// The attributes before it.
    pub attrs: Vec<Attribute>,
    /// The parentheses.
    pub paren_token: Paren,
    /// The patterns in them.
    pub elems: Punctuated<P, Comma>,
}

/// `(x)` (Rust Reference, "Grouped patterns").
#[derive(Debug, Drop, PartialEq, Eq, Hash)]
pub struct PatParenOf<P> {
    /// The attributes before it.
    pub attrs: Vec<Attribute>,
    /// The parentheses.
    pub paren_token: Paren,
    /// The pattern in them.
    pub pat: Box<P>,
}

/// `[x, .., y]` (Rust Reference, "Slice patterns").
#[derive(Debug, Drop, PartialEq, Eq, Hash)]
pub struct PatSliceOf<P> {
    /// The attributes before it.
    pub attrs: Vec<Attribute>,
    /// The brackets.
    pub bracket_token: Bracket,
    /// The patterns in them.
    pub elems: Punctuated<P, Comma>,
}

/// `&mut x` (Rust Reference, "Reference patterns").
#[derive(Debug, Drop, PartialEq, Eq, Hash)]
pub struct PatReferenceOf<P> {
    /// The attributes before it.
    pub attrs: Vec<Attribute>,
    /// `&`
    pub and_token: And,
    /// `mut`
    pub mutability: Option<Mut>,
    /// What it points to.
    pub pat: Box<P>,
}

/// `const { .. }`, a block whose value is matched. What is in it is kept as tokens.
#[derive(Debug, Drop, PartialEq, Eq, Hash)]
pub struct PatConst {
    /// The attributes before it.
    pub attrs: Vec<Attribute>,
    /// `const`
    pub const_token: Const,
    /// The block.
    pub block: Block,
}

/// `| A | B` (Rust Reference, "Or-patterns").
#[derive(Debug, Drop, PartialEq, Eq, Hash)]
pub struct PatOrOf<P> {
    /// The attributes before it.
    pub attrs: Vec<Attribute>,
    /// `|` in front.
    pub leading_vert: Option<Or>,
    /// The alternatives.
    pub cases: Punctuated<P, Or>,
}

/// `x: T`, an argument of a closure with its type (Rust Reference, "Closure expressions").
#[derive(Debug, Drop, PartialEq, Eq, Hash)]
pub struct PatTypeOf<P> {
    /// The attributes before it.
    pub attrs: Vec<Attribute>,
    /// The pattern.
    pub pat: Box<P>,
    /// `:`
    pub colon_token: Colon,
    /// The type.
    pub ty: Box<Type>,
}
