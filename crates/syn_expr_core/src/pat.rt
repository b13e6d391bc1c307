//! Patterns (Rust Reference, "Patterns").
//!
//! The kinds that hold no expressions are in `syn_pat`, generic in the pattern; here they have syn's names, over `Pat`.

use crate::expr::Expr;
use syn_lower::attr::Attribute;
use syn_pat::pat::{
    FieldPatKindOf, FieldPatOf, FullFieldPatOf, PatIdentOf, PatOrOf, PatParenOf, PatReferenceOf,
    PatSliceOf, PatStructOf, PatTupleOf, PatTupleStructOf, PatTypeOf,
};
pub use syn_pat::pat::{
    PatConst, PatLit, PatMacro, PatPath, PatRange, PatRest, PatWild, RangeBound, ShortFieldPat,
};
use syn_tokens::token::If;

/// A pattern.
#[cycle(expr)]
#[derive(Debug, Drop, PartialEq, Eq, Hash)]
pub enum Pat {
    /// `const { .. }`
    Const(PatConst),
    /// `p if a`
    Guard(PatGuard),
    /// `a`, `ref mut a @ p`
    Ident(PatIdentOf<Pat>),
    /// `1`, `-1`, `'a'`
    Lit(PatLit),
    /// `m!(..)`
    Macro(PatMacro),
    /// `p | q`
    Or(PatOrOf<Pat>),
    /// `(p)`
    Paren(PatParenOf<Pat>),
    /// `a::B`, `<T as A>::B`
    Path(PatPath),
    /// `1..2`, `..=9`
    Range(PatRange),
    /// `&p`, `&mut p`
    Reference(PatReferenceOf<Pat>),
    /// `..`
    Rest(PatRest),
    /// `[p, q]`
    Slice(PatSliceOf<Pat>),
    /// `S { a, b: p, .. }`
    Struct(PatStructOf<Pat>),
    /// `(p, q)`
    Tuple(PatTupleOf<Pat>),
    /// `S(p, q)`
    TupleStruct(PatTupleStructOf<Pat>),
    /// `p: T`, an argument of a closure
    Typed(PatTypeOf<Pat>),
    /// `_`
    Wild(PatWild),
}

/// `p if a`, a pattern with a guard (Rust Reference, "Match guards").
#[cycle(expr)]
#[derive(Debug, Drop, PartialEq, Eq, Hash)]
pub struct PatGuard {
    /// The attributes.
    pub attrs: Vec<Attribute>,
    /// The pattern.
    pub pat: Box<Pat>,
    /// `if`
    pub if_token: If,
    /// The guard.
    pub guard: Box<Expr>,
}

/// `a`, `ref mut a @ p`
pub type PatIdent = PatIdentOf<Pat>;

/// `p | q`
pub type PatOr = PatOrOf<Pat>;

/// `(p)`
pub type PatParen = PatParenOf<Pat>;

/// `&p`, `&mut p`
pub type PatReference = PatReferenceOf<Pat>;

/// `[p, q]`
pub type PatSlice = PatSliceOf<Pat>;

/// `S { a, b: p, .. }`
pub type PatStruct = PatStructOf<Pat>;

/// `(p, q)`
pub type PatTuple = PatTupleOf<Pat>;

/// `S(p, q)`
pub type PatTupleStruct = PatTupleStructOf<Pat>;

/// `p: T`, an argument of a closure
pub type PatType = PatTypeOf<Pat>;

/// A field of a struct pattern.
pub type FieldPat = FieldPatOf<Pat>;

/// What a field of a struct pattern holds.
pub type FieldPatKind = FieldPatKindOf<Pat>;

/// `x: p`, a field with a pattern of its own.
pub type FullFieldPat = FullFieldPatOf<Pat>;
