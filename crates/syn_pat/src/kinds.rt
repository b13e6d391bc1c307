//! What the parts that hold patterns ask of the type of patterns.

ghost use Rattle.std.specs.Prelude.{◌≡◌};
ghost use Rattle.syn_pat.specs.View as of;

use crate::pat::{
    PatConst, PatIdentOf, PatLit, PatMacro, PatOrOf, PatParenOf, PatPath, PatRange, PatReferenceOf,
    PatRest, PatSliceOf, PatStructOf, PatTupleOf, PatTupleStructOf, PatTypeOf, PatWild,
};

/// The type of patterns, as contracts see it.
///
/// It has no methods, so that a recursion over patterns may go through code that is generic in such a type: through a
/// trait that makes patterns it may not.
pub trait HasPatTree {
    ghost use Rattle.syn_pat.specs.View.{PatView};

    /// A pattern without its places, and the guards in it.
    ghost view: { Self → PatView };
}

/// The type of patterns: it is made of a struct of each kind.
pub trait IsPat: HasPatTree {
    /// `_`
    fn wild(x: PatWild) -> Self
        ensures { Self.view result ≡ of.pat_wild_of x };

    /// `..`
    fn rest(x: PatRest) -> Self
        ensures { Self.view result ≡ of.pat_rest_of x };

    /// `1..2`
    fn range(x: PatRange) -> Self
        ensures { Self.view result ≡ of.pat_range_of x };

    /// `1`
    fn lit(x: PatLit) -> Self
        ensures { Self.view result ≡ of.pat_lit_of x };

    /// `ref mut x @ 1..2`
    fn ident(x: PatIdentOf<Self>) -> Self
        ensures { Self.view result ≡ of.pat_ident_of Self.view x };

    /// `a::B`
    fn path(x: PatPath) -> Self
        ensures { Self.view result ≡ of.pat_path_of x };

    /// `m!(..)`
    fn mac(x: PatMacro) -> Self
        ensures { Self.view result ≡ of.pat_macro_of x };

    /// `A { x, 0: y, .. }`
    fn struct_pat(x: PatStructOf<Self>) -> Self
        ensures { Self.view result ≡ of.pat_struct_of Self.view x };

    /// `A(x, ..)`
    fn tuple_struct(x: PatTupleStructOf<Self>) -> Self
        ensures { Self.view result ≡ of.pat_tuple_struct_of Self.view x };

    /// `(x, y)`
    fn tuple(x: PatTupleOf<Self>) -> Self
        ensures { Self.view result ≡ of.pat_tuple_of Self.view x };

    /// `(x)`
    fn paren(x: PatParenOf<Self>) -> Self
        ensures { Self.view result ≡ of.pat_paren_of Self.view x };

    /// `[x, .., y]`
    fn slice(x: PatSliceOf<Self>) -> Self
        ensures { Self.view result ≡ of.pat_slice_of Self.view x };

    /// `&mut x`
    fn reference(x: PatReferenceOf<Self>) -> Self
        ensures { Self.view result ≡ of.pat_reference_of Self.view x };

    /// `const { .. }`
    fn const_pat(x: PatConst) -> Self
        ensures { Self.view result ≡ of.pat_const_of x };

    /// `A | B`
    fn or(x: PatOrOf<Self>) -> Self
        ensures { Self.view result ≡ of.pat_or_of Self.view x };

    /// `x: T`
    fn typed(x: PatTypeOf<Self>) -> Self
        ensures { Self.view result ≡ of.pat_type_of Self.view x };
}
