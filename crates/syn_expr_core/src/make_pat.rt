//! A pattern is made of a struct of each kind.

ghost use Rattle.std.specs.Prelude.{◌≡◌};
ghost use Rattle.syn_expr_core.specs.View.{pat_of};
ghost use Rattle.syn_pat.specs.View as of;

use crate::pat::{
    Pat, PatConst, PatIdent, PatLit, PatMacro, PatOr, PatParen, PatPath, PatRange, PatReference,
    PatRest, PatSlice, PatStruct, PatTuple, PatTupleStruct, PatType, PatWild,
};
use syn_pat::kinds::{HasPatTree, IsPat};

impl HasPatTree for Pat {
    ghost view = { pat_of };
}

#[tactic(auto, using(crate::proofs::TreeOf::pats))]
impl IsPat for Pat {
    fn wild(x: PatWild) -> Pat
        ensures { pat_of result ≡ of.pat_wild_of x }
    {
        Pat::Wild(x)
    }

    fn rest(x: PatRest) -> Pat
        ensures { pat_of result ≡ of.pat_rest_of x }
    {
        Pat::Rest(x)
    }

    fn range(x: PatRange) -> Pat
        ensures { pat_of result ≡ of.pat_range_of x }
    {
        Pat::Range(x)
    }

    fn lit(x: PatLit) -> Pat
        ensures { pat_of result ≡ of.pat_lit_of x }
    {
        Pat::Lit(x)
    }

    fn ident(x: PatIdent) -> Pat
        ensures { pat_of result ≡ of.pat_ident_of pat_of x }
    {
        Pat::Ident(x)
    }

    fn path(x: PatPath) -> Pat
        ensures { pat_of result ≡ of.pat_path_of x }
    {
        Pat::Path(x)
    }

    fn mac(x: PatMacro) -> Pat
        ensures { pat_of result ≡ of.pat_macro_of x }
    {
        Pat::Macro(x)
    }

    fn struct_pat(x: PatStruct) -> Pat
        ensures { pat_of result ≡ of.pat_struct_of pat_of x }
    {
        Pat::Struct(x)
    }

    fn tuple_struct(x: PatTupleStruct) -> Pat
        ensures { pat_of result ≡ of.pat_tuple_struct_of pat_of x }
    {
        Pat::TupleStruct(x)
    }

    fn tuple(x: PatTuple) -> Pat
        ensures { pat_of result ≡ of.pat_tuple_of pat_of x }
    {
        Pat::Tuple(x)
    }

    fn paren(x: PatParen) -> Pat
        ensures { pat_of result ≡ of.pat_paren_of pat_of x }
    {
        Pat::Paren(x)
    }

    fn slice(x: PatSlice) -> Pat
        ensures { pat_of result ≡ of.pat_slice_of pat_of x }
    {
        Pat::Slice(x)
    }

    fn reference(x: PatReference) -> Pat
        ensures { pat_of result ≡ of.pat_reference_of pat_of x }
    {
        Pat::Reference(x)
    }

    fn const_pat(x: PatConst) -> Pat
        ensures { pat_of result ≡ of.pat_const_of x }
    {
        Pat::Const(x)
    }

    fn or(x: PatOr) -> Pat
        ensures { pat_of result ≡ of.pat_or_of pat_of x }
    {
        Pat::Or(x)
    }

    fn typed(x: PatType) -> Pat
        ensures { pat_of result ≡ of.pat_type_of pat_of x }
    {
        Pat::Typed(x)
    }
}
